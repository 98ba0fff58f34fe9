//! Seconds of UTC, and which comes after which.

ghost use Rattle.std.specs.Prelude.{◌≡◌, ◌↔◌, IsTrue};
ghost use Rattle.irig_time.specs.Seconds.{IsValid, minute_of};
ghost use Rattle.irig_time.specs.Next.{next_of};

use crate::calendar::month_end;
use crate::mark::Mark;

/// The first day served, 2000-01-02, counted from 2000-01-01 as day 0.
pub const FIRST_DAY: u32 = 1;

/// The last day served, 2099-12-30.
pub const LAST_DAY: u32 = 36523;

/// The last day that has a text, 2099-12-31.
pub const LAST_NAMED_DAY: u32 = 36524;

/// A second of UTC.
#[repr(C)]
#[derive(Clone, Copy, PartialEq, Eq)]
pub struct UtcSecond {
    /// The day, counted from 2000-01-01 as day 0; [`FIRST_DAY`] to [`LAST_DAY`] if the second is
    /// valid.
    pub day: u32,
    /// The second of the day, 0 to 86399, or 86400 for 23:59:60 on a month's last day.
    pub sod: u32,
}

impl UtcSecond {
    /// The minute of its UTC day, 0 to 1439. 23:59:60 lies in the last one.
    pub fn minute_of_day(&self) -> u32
        ensures { result ≡ minute_of self.now }
    {
        (self.sod / 60).min(1439)
    }
}

/// Whether a second is one from 2000-01-02 to 2099-12-30, in which 23:59:60 ends a month.
///
/// That a leap second comes at the end of a UTC month is ITU-R TF.460.
pub fn valid(utc: &UtcSecond) -> bool
    ensures { IsTrue result ↔ IsValid utc.now }
{
    (FIRST_DAY..=LAST_DAY).contains(&utc.day)
        && (utc.sod <= 86399 || (utc.sod == 86400 && month_end(utc.day)))
}

/// The second after a [`valid`](crate::valid) second, by what is said of the leap at the end of its
/// day.
///
/// None past 2099-12-30, and, if nothing is said, after 23:59:58 and 23:59:59 of a month's last
/// day: what follows those is not known.
pub fn next(utc: UtcSecond, mark: Mark) -> Option<UtcSecond>
    requires { IsValid utc }
    ensures { result ≡ next_of utc mark }
{
    let last = if !month_end(utc.day) {
        86399
    } else {
        match mark {
            Mark::Unspoken if utc.sod == 86398 || utc.sod == 86399 => return None,
            Mark::Unspoken | Mark::Insert => 86400,
            Mark::NoLeap => 86399,
            Mark::Delete => 86398,
        }
    };
    if utc.sod < last {
        Some(UtcSecond {
            day: utc.day,
            sod: utc.sod + 1,
        })
    } else if utc.day == LAST_DAY {
        None
    } else {
        Some(UtcSecond {
            day: utc.day + 1,
            sod: 0,
        })
    }
}
