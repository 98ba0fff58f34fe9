//! The time of the lines by that of a recorder.

ghost use Rattle.std.specs.Prelude.{◌≡◌, ◌≤◌, ◌*◌, ◌/◌, max, min};

/// Microseconds of 1,000 hours: all times of a recording lie before.
const END_US: u64 = 3_600_000_000_000;

/// Microseconds of a second.
const SECOND_US: u64 = 1_000_000;

/// The time of the lines by that of a recorder, whose clock may be 1% off, in microseconds. Both are 0
/// where the recording has 0, and neither jumps by the other: from a time on a second of the lines is so
/// long by the recorder's clock.
///
/// A timekeeper's counter may be 100 parts in a million off, and so it counts by the lines' time.
#[derive(Clone, Copy)]
pub(crate) struct LinesTime {
    pub(crate) base_us: u64,
    pub(crate) lines_us: u64,
    pub(crate) second_us: u64,
    ghost early: { base_us ≤ 3600000000000 },
    ghost near: { lines_us ≤ 2 * base_us },
    ghost long: { 990000 ≤ second_us },
    ghost short: { second_us ≤ 1010000 },
}

impl LinesTime {
    ghost use Rattle.record_lines.specs.Paces.{end_us, lines_at, recorder_at, within_end};

    /// A recorder whose second is that of the lines, as far as is known.
    pub(crate) fn new() -> LinesTime
        ensures base { result.base_us ≡ 0 }
        ensures lines { result.lines_us ≡ 0 }
        ensures second { result.second_us ≡ 1000000 }
    {
        LinesTime {
            base_us: 0,
            lines_us: 0,
            second_us: SECOND_US,
        }
    }

    /// The lines' time at one of the recorder.
    pub(crate) fn at(&self, time_us: u64) -> u64
        ensures value { result ≡ lines_at self.now time_us }
        ensures few { result ≤ 2 * end_us }
        ensures near { self.now.base_us ≤ within_end time_us → result ≤ 2 * within_end time_us }
    {
        let time_us = time_us.min(END_US);
        if self.base_us <= time_us {
            self.lines_us + in_lines(time_us - self.base_us, self.second_us)
        } else {
            let before_us = in_lines(self.base_us - time_us, self.second_us);
            self.lines_us.saturating_sub(before_us)
        }
    }

    /// The recorder's time at one of the lines.
    pub(crate) fn back(&self, lines_us: u64) -> u64
        ensures { result ≡ recorder_at self.now lines_us }
    {
        let lines_us = lines_us.min(2 * END_US);
        if self.lines_us <= lines_us {
            self.base_us + in_recorder(lines_us - self.lines_us, self.second_us)
        } else {
            let before_us = in_recorder(self.lines_us - lines_us, self.second_us);
            self.base_us.saturating_sub(before_us)
        }
    }

    /// From a time of the recorder on, or the last such time, if that is later, a second of the lines is
    /// so long by its clock; what is more than 1% off counts as 1%.
    pub(crate) fn follow(&mut self, time_us: u64, second_us: u64)
        ensures base { self.new.base_us ≡ max (within_end time_us) self.old.base_us }
        ensures lines { self.new.lines_us ≡ lines_at self.old self.new.base_us }
        ensures second { self.new.second_us ≡ min (max second_us 990000) 1010000 }
    {
        let base_us = time_us.min(END_US).max(self.base_us);
        *self = LinesTime {
            base_us,
            lines_us: self.at(base_us),
            second_us: second_us.max(990_000).min(1_010_000),
        };
    }
}

// So many microseconds of the recorder in those of the lines.
fn in_lines(time_us: u64, second_us: u64) -> u64
    requires few { time_us ≤ 3600000000000 }
    requires long { 990000 ≤ second_us }
    ensures value { result ≡ time_us * 1000000 / second_us }
    ensures small { result ≤ 2 * time_us }
{
    time_us * SECOND_US / second_us
}

// So many microseconds of the lines in those of the recorder.
fn in_recorder(lines_us: u64, second_us: u64) -> u64
    requires few { lines_us ≤ 7200000000000 }
    requires short { second_us ≤ 1010000 }
    ensures value { result ≡ lines_us * second_us / 1000000 }
    ensures small { result ≤ 2 * lines_us }
{
    lines_us * second_us / SECOND_US
}
