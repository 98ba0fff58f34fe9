//! What is seen of a line.

ghost use Rattle.std.specs.Prelude.{◌≡◌, ◌<◌, ◌≤◌, ◌+◌, ◌-◌, ◌*◌, length, nat_lt, if◌then◌else◌, IfSome, None, Some};
ghost use Rattle.record_short.specs.Fits.{is_poor, is_poor_in, shows_one};
ghost use Rattle.record_short.specs.Seen.{ahead, begins_by, behind, goes_back, goes_on, newest_first, nothing_shown, seen_in, steps};

use crate::marker::{is_in_step, second_marker, steps};
use irig_frame::{Symbol, classify};
use record_pulses::Pulse;

/// How many elements there are.
const ELEMENTS: usize = 500;

/// Which of them begins the second that is seen to begin.
const BEGINS: usize = 200;

/// What is seen of a line around the first two markers in a row, of which the second begins a second:
/// the elements of the second that begins there, of two before it and of two after it.
#[derive(Clone, Copy)]
pub struct Seen {
    /// When the second begins, in microseconds of the recording, less than an hour.
    pub begins_us: u32,
    /// What the elements show; those that were not seen are bad pulses, too.
    pub shown: [Symbol; 500],
}

impl Seen {
    /// What is seen by pulses in the order in which they came; `None` if no second is seen to begin.
    pub fn of(pulses: &[Pulse]) -> Option<Seen>
        ensures seen { result ≡ seen_in pulses.now }
        ensures early { IfSome result (λ seen. seen.begins_us < 3600000000) }
    {
        let at = second_marker(pulses)?;
        let marker = pulses[at];
        if marker.rise_us >= 3_600_000_000 {
            return None;
        }
        let mut shown = [Symbol::Bad; ELEMENTS];
        shown[BEGINS] = Symbol::Marker;
        let begins_us = show_behind(&mut shown, marker, &pulses[..at]);
        show_ahead(&mut shown, marker, &pulses[at + 1..]);
        seen_from(begins_us, shown)
    }

    /// Whether a frame says that it is of a quality of 10 or more, a second off or worse.
    pub fn is_poor(&self) -> bool
        ensures { result ≡ is_poor self.now.shown }
    {
        self.is_poor_in(0)
            || self.is_poor_in(1)
            || self.is_poor_in(2)
            || self.is_poor_in(3)
            || self.is_poor_in(4)
    }

    fn is_poor_in(&self, second: usize) -> bool
        requires { second < 5 }
        ensures { result ≡ is_poor_in self.now.shown second }
    {
        self.shows_one(100 * second + 74)
            && (self.shows_one(100 * second + 72) || self.shows_one(100 * second + 73))
    }

    fn shows_one(&self, element: usize) -> bool
        requires { element < 500 }
        ensures { result ≡ shows_one self.now.shown element }
    {
        self.shown[element] == Symbol::One
    }
}

// What pulses after a marker show.
fn show_ahead(shown: &mut [Symbol], marker: Pulse, after: &[Pulse])
    requires { length shown.old ≡ 500 }
    ensures { shown.new ≡ ahead 200 marker.rise_us after.now shown.old }
{
    let mut at = BEGINS;
    let mut last_us = marker.rise_us;
    for pulse in after {
        if !goes_on(at, last_us, pulse.rise_us) {
            return;
        }
        at += steps(pulse.rise_us.saturating_sub(last_us)) as usize;
        shown[at] = classify(pulse.width_us);
        last_us = pulse.rise_us;
    }
}

fn seen_from(begins_us: u64, shown: [Symbol; 500]) -> Option<Seen>
    ensures seen { result ≡ (if nat_lt begins_us 3600000000
        then Some (record { begins_us = begins_us; shown = shown }) else None) }
    ensures early { IfSome result (λ seen. seen.begins_us < 3600000000) }
{
    if begins_us < 3_600_000_000 {
        Some(Seen {
            begins_us: begins_us as u32,
            shown,
        })
    } else {
        None
    }
}

// What pulses before a marker show, and when its second begins by the first of them.
fn show_behind(shown: &mut [Symbol], marker: Pulse, before: &[Pulse]) -> u64
    requires shown { length shown.old ≡ 500 }
    requires marker { marker.rise_us < 3600000000 }
    ensures shown { shown.new ≡ behind 200 marker.rise_us (newest_first before.now) shown.old }
    ensures begins { result ≡ begins_by 200 marker.rise_us (newest_first before.now) }
{
    let mut at = BEGINS;
    let mut first_us = marker.rise_us;
    let mut left = before.len();
    while left > 0 {
        left -= 1;
        let pulse = before[left];
        if !goes_back(at, first_us, pulse.rise_us) {
            return begins_us(at, first_us);
        }
        at -= steps(first_us.saturating_sub(pulse.rise_us)) as usize;
        shown[at] = classify(pulse.width_us);
        first_us = pulse.rise_us;
    }
    begins_us(at, first_us)
}

// When a second begins by when a pulse rose at an element before it.
fn begins_us(at: usize, rise_us: u64) -> u64
    requires at { at ≤ 200 }
    requires rise { rise_us < 3600000000 }
    ensures { result ≡ rise_us + (200 - at) * 10000 }
{
    rise_us + (BEGINS - at) as u64 * 10_000
}

fn goes_on(at: usize, last_us: u64, rise_us: u64) -> bool
    requires { at < 500 }
    ensures { result ≡ goes_on at last_us rise_us }
{
    let gap_us = rise_us.saturating_sub(last_us);
    is_in_step(gap_us) && at as u64 + steps(gap_us) < 500
}

fn goes_back(at: usize, first_us: u64, rise_us: u64) -> bool
    ensures { result ≡ goes_back at first_us rise_us }
{
    let gap_us = first_us.saturating_sub(rise_us);
    is_in_step(gap_us) && steps(gap_us) <= at as u64
}
