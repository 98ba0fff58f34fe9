//! Which times a recording may go on with.

ghost use Rattle.std.specs.Prelude.{◌≡◌};
ghost use Rattle.record_levels.specs.Limits.{gap_fault, time_fault};

/// Nanoseconds of 1,000 hours: all times of a recording lie before.
const END_NS: u64 = 3_600_000_000_000_000;

/// Nanoseconds of a day: the most from some levels to the next.
const DAY_NS: u64 = 86_400_000_000_000;

/// Why a recording does not go on with a time.
#[derive(Clone, Copy, PartialEq, Eq)]
pub enum TimeFault {
    /// It lies 1,000 hours after the beginning, or later.
    Beyond,
    /// It lies before the time to which the recording had come.
    Back,
    /// It lies more than a day after the last levels.
    Gap,
}

/// Whether a recording that has come to the time `now_ns`, and whose last levels were said at
/// `levels_ns`, if any were, may go on with the time `next_ns`: the first fault of it, in the order of
/// [`TimeFault`]. All times are in nanoseconds.
pub fn time_fault(now_ns: u64, levels_ns: Option<u64>, next_ns: u64) -> Option<TimeFault>
    ensures { result ≡ time_fault now_ns levels_ns next_ns }
{
    if next_ns >= END_NS {
        Some(TimeFault::Beyond)
    } else if next_ns < now_ns {
        Some(TimeFault::Back)
    } else {
        gap_fault(levels_ns, next_ns)
    }
}

fn gap_fault(levels_ns: Option<u64>, next_ns: u64) -> Option<TimeFault>
    ensures { result ≡ gap_fault levels_ns next_ns }
{
    match levels_ns {
        Some(last_ns) if last_ns < next_ns && next_ns - last_ns > DAY_NS => Some(TimeFault::Gap),
        _ => None,
    }
}
