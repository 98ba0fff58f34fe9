//! By how much one moment is later than another.

ghost use Rattle.std.specs.Prelude.{◌≡◌, ◌≤◌, ◌+◌, unsigned_abs, Some};
ghost use Rattle.irig_time.specs.Seconds.{IsValid};
ghost use Rattle.irig_time.specs.Timelines.{length_by};
ghost use Rattle.record_stamp.specs.Late.{IsMoment, late_ns, leaps_of, nanoseconds_to, seconds_to};

use crate::instant::Stamp;
use irig_time::{Leap, UtcSecond};

/// A moment of UTC.
#[derive(Clone, Copy, PartialEq, Eq)]
pub struct Moment {
    /// The second.
    pub at: UtcSecond,
    /// How much later, in nanoseconds below 1,000,000,000.
    pub nanoseconds: u32,
}

impl Stamp {
    /// The moment that it says.
    pub fn moment(&self) -> Moment
        ensures at { result.at ≡ self.now.at }
        ensures fraction { result.nanoseconds ≡ self.now.nanoseconds }
    {
        Moment {
            at: self.at,
            nanoseconds: self.nanoseconds,
        }
    }
}

/// How many nanoseconds pass from the truth to a told moment, below 0 if that is earlier, where days are as
/// long as the leap says that one of them ends with, and 86,400 s else.
pub fn late_ns(leap: Option<(u32, Leap)>, told: Moment, truth: Moment) -> i64
    requires told { IsMoment told }
    requires truth { IsMoment truth }
    ensures late { result ≡ late_ns (leaps_of leap) told truth }
    ensures range { unsigned_abs result ≤ 3155760002000000000 }
{
    nanoseconds_to(leap, told) as i64 - nanoseconds_to(leap, truth) as i64
}

// From the beginning of 2000-01-01.
fn nanoseconds_to(leap: Option<(u32, Leap)>, moment: Moment) -> u64
    requires { IsMoment moment }
    ensures says { result ≡ nanoseconds_to (leaps_of leap) moment }
    ensures few { result ≤ 3155760002000000000 }
{
    1_000_000_000 * seconds_to(leap, moment.at) + u64::from(moment.nanoseconds)
}

fn seconds_to(leap: Option<(u32, Leap)>, at: UtcSecond) -> u64
    requires { IsValid at }
    ensures says { result ≡ seconds_to (leaps_of leap) at }
    ensures few { result ≤ 3155760001 }
{
    let plain = 86_400 * u64::from(at.day) + u64::from(at.sod);
    match leap {
        None => plain,
        Some((day, leap)) => {
            if day < at.day {
                with_leap(plain, leap)
            } else {
                plain
            }
        }
    }
}

// Where one of the days before ends with that leap.
fn with_leap(seconds: u64, leap: Leap) -> u64
    requires some { 86400 ≤ seconds }
    requires few { seconds ≤ 3155760000 }
    ensures { result + 86400 ≡ seconds + length_by (Some leap) }
{
    match leap {
        Leap::Insert => seconds + 1,
        Leap::Delete => seconds - 1,
    }
}
