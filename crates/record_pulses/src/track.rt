//! Where a line stands in its frames.

ghost use Rattle.std.specs.Prelude.{◌≡◌, ◌≤◌, ◌%◌, ◌^◌, ◌∷◌, [], List};
ghost use Rattle.irig_sync.specs.Sync.{place_of, pulse_of};
ghost use Rattle.record_pulses.specs.Views.{IsAfter, IsTrackOf, begun_by, gap_from, is_long, is_next, is_on, second_by, step_of, sync_after};

use crate::edge::Pulse;
use irig_sync::Sync;

/// After so long a gap a pulse has the place that it would have on a new line, and the clock of a
/// synchroniser, which wraps, may not show it.
const LONG_US: u64 = 1_000_000;

/// What a pulse is after those before it.
#[derive(Clone, Copy)]
pub(crate) struct Step {
    /// Its place in its frame, 1 to 100, or 0 out of step.
    pub(crate) place: u8,
    /// How long after the pulse before it rises.
    pub(crate) gap_us: Option<u64>,
    /// How long the frame took that ends with it, if it begins the next one.
    pub(crate) second_us: Option<u64>,
}

/// Where a line stands.
#[derive(Clone, Copy)]
pub(crate) struct Track {
    pub(crate) sync: Sync,
    pub(crate) last_us: Option<u64>,
    pub(crate) begun_us: u64,
}

impl Track {
    pub(crate) fn new() -> Track
        ensures { IsTrackOf result [] }
    {
        Track {
            sync: Sync::none(),
            last_us: None,
            begun_us: 0,
        }
    }

    pub(crate) fn step(&mut self, pulse: Pulse) -> Step
        ensures step { (pulses : List Pulse) → IsTrackOf self.old pulses → IsAfter pulse pulses
            → result ≡ step_of pulse pulses }
        ensures few { result.place ≤ 100 }
        ensures new { (pulses : List Pulse) → IsTrackOf self.old pulses → IsAfter pulse pulses
            → IsTrackOf self.new (pulse ∷ pulses) }
    {
        let gap_us = gap_from(pulse.rise_us, self.last_us);
        let before = self.sync.place;
        let place = place(&mut self.sync, gap_us, pulse);
        let is_next = is_next(before, place, gap_us);
        let second_us = second_by(is_next, pulse.rise_us, self.begun_us);
        self.begun_us = begun_by(place, pulse.rise_us, self.begun_us);
        self.last_us = Some(pulse.rise_us);
        Step {
            place,
            gap_us,
            second_us,
        }
    }
}

fn gap_from(rise_us: u64, last_us: Option<u64>) -> Option<u64>
    ensures { result ≡ gap_from rise_us last_us }
{
    match last_us {
        Some(last_us) => Some(rise_us.saturating_sub(last_us)),
        None => None,
    }
}

pub(crate) fn is_on_time(gap_us: Option<u64>) -> bool
    ensures { result ≡ is_on gap_us }
{
    match gap_us {
        Some(gap_us) => (9_000..11_000).contains(&gap_us),
        None => false,
    }
}

fn is_next(before: u8, place: u8, gap_us: Option<u64>) -> bool
    ensures { result ≡ is_next before place gap_us }
{
    place == 1 && before == 100 && is_on_time(gap_us)
}

fn second_by(is_next: bool, rise_us: u64, begun_us: u64) -> Option<u64>
    ensures { result ≡ second_by is_next rise_us begun_us }
{
    if is_next {
        Some(rise_us.saturating_sub(begun_us))
    } else {
        None
    }
}

fn begun_by(place: u8, rise_us: u64, begun_us: u64) -> u64
    ensures { result ≡ begun_by place rise_us begun_us }
{
    if place == 1 { rise_us } else { begun_us }
}

fn is_long(gap_us: Option<u64>) -> bool
    ensures { result ≡ is_long gap_us }
{
    match gap_us {
        Some(gap_us) => gap_us >= LONG_US,
        None => false,
    }
}

fn place(sync: &mut Sync, gap_us: Option<u64>, pulse: Pulse) -> u8
    ensures place { result
        ≡ place_of (sync_after gap_us sync.old) (pulse.rise_us % 2 ^ 32) pulse.width_us }
    ensures few { result ≤ 100 }
    ensures new { sync.new
        ≡ pulse_of (sync_after gap_us sync.old) (pulse.rise_us % 2 ^ 32) pulse.width_us }
{
    if is_long(gap_us) {
        *sync = Sync::none();
    }
    sync.pulse((pulse.rise_us % (1 << 32)) as u32, pulse.width_us)
}
