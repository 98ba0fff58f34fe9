//! Where a line stands in its frame.

ghost use Rattle.std.specs.Prelude.{◌≡◌, ◌≤◌, []};
ghost use Rattle.irig_sync.specs.Sync.{is_on_time, clock_gap, no_sync, place_behind, place_of, pulse_of, idle_of};
ghost use Rattle.irig_sync.specs.Lines.{IsSyncOf};

use irig_frame::{Symbol, classify};

/// How long a line is silent until it is idle, in microseconds.
const IDLE_US: u32 = 1_000_000;

/// What lies this far behind is taken to lie ahead, as a clock of 32 bits can't tell.
const AHEAD_US: u32 = 1 << 31;

/// Where a line stands. Any numbers may lie in it: on a line of true frames each pulse from the
/// 101st on has its place.
#[repr(C)]
#[derive(Clone, Copy, Drop)]
pub struct Sync {
    /// The leading edge of the last pulse, in microseconds of a clock that wraps at 2^32.
    pub rise_us: u32,
    /// The place of the last pulse: 1 to 100; any other is out of step.
    pub place: u8,
    /// 1 if the last pulse was a marker, or the line is idle; 0 else. Any other is taken for 1.
    pub was_marker: u8,
}

impl Sync {
    /// Of a line on which nothing came. Its first marker begins a frame.
    pub fn none() -> Sync
        ensures value { result ≡ no_sync }
        ensures of_nothing { IsSyncOf result [] }
    {
        Sync {
            rise_us: 0,
            place: 0,
            was_marker: 1,
        }
    }

    /// The place of the next pulse in its frame, 1 to 100, or 0 out of step. The pulse rose at
    /// `rise_us`, in microseconds of a clock that wraps at 2^32, and is `width_us` microseconds
    /// wide.
    ///
    /// It is *on time* if it rises 9,000 to 10,999 us after the one before (profile). A marker that
    /// comes behind a marker, or not on time, is the first of a frame. Any other pulse that is not
    /// on time is out of step, and so are those behind it until a frame begins.
    pub fn pulse(&mut self, rise_us: u32, width_us: u32) -> u8
        ensures place { result ≡ place_of self.old rise_us width_us }
        ensures few { result ≤ 100 }
        ensures new { self.new ≡ pulse_of self.old rise_us width_us }
    {
        let is_on_time = is_on_time(self.rise_us, rise_us);
        let is_marker = classify(width_us) == Symbol::Marker;
        self.place = if is_marker && (self.was_marker != 0 || !is_on_time) {
            1
        } else if is_on_time {
            place_behind(self.place)
        } else {
            0
        };
        self.rise_us = rise_us;
        self.was_marker = u8::from(is_marker);
        self.place
    }

    /// Puts an idle line out of step: one whose last leading edge lies a second or more behind
    /// `now_us`. Its next marker begins a frame.
    ///
    /// To be called at each tick, and at least once in half an hour: without it a pulse that comes
    /// 71 minutes late could be taken for one on time, since the clock wraps. An edge that lies up
    /// to 2^31 us ahead of `now_us` is no idle line's.
    pub fn idle(&mut self, now_us: u32)
        ensures { self.new ≡ idle_of self.old now_us }
    {
        if (IDLE_US..AHEAD_US).contains(&now_us.wrapping_sub(self.rise_us)) {
            self.place = 0;
            self.was_marker = 1;
        }
    }
}

/// The place of a pulse on time behind a place.
fn place_behind(place: u8) -> u8
    ensures place { result ≡ place_behind place }
    ensures few { result ≤ 100 }
{
    match place {
        1..=99 => place + 1,
        100 => 1,
        _ => 0,
    }
}

/// Whether a pulse rises 9 to 11 ms after another.
fn is_on_time(before_us: u32, rise_us: u32) -> bool
    ensures { result ≡ is_on_time (clock_gap before_us rise_us) }
{
    (9000..11000).contains(&rise_us.wrapping_sub(before_us))
}
