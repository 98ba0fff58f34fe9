//! Leaps by day.

ghost use Rattle.std.specs.Prelude.{◌≡◌, ◌==◌};
ghost use Rattle.irig_time.specs.Timelines.{leap_of, length_by};

use crate::mark::Mark;

/// The leap second at the end of a month (ITU-R TF.460).
#[derive(Clone, Copy, Default, PartialEq, Eq)]
pub enum Leap {
    /// 23:59:60 follows 23:59:59.
    #[default]
    Insert,
    /// 00:00:00 of the next day follows 23:59:58.
    Delete,
}

pub(crate) fn leap_on(leaps: &[(u32, Leap)], day: u32) -> Option<Leap>
    ensures { result ≡ leap_of leaps.now day }
{
    for (at, leap) in leaps {
        if *at == day {
            return Some(*leap);
        }
    }
    None
}

pub(crate) fn length_with(leap: Option<Leap>) -> u32
    ensures { result ≡ length_by leap }
{
    match leap {
        None => 86400,
        Some(Leap::Insert) => 86401,
        Some(Leap::Delete) => 86399,
    }
}

impl From<Option<Leap>> for Mark {
    ghost use Rattle.std.specs.Prelude.{◌≡◌};
    ghost use Rattle.irig_time.specs.Timelines.{mark_by};

    ghost from_gives = { λ leap mark. mark ≡ mark_by leap };

    fn from(leap: Option<Leap>) -> Mark {
        match leap {
            None => Mark::NoLeap,
            Some(Leap::Insert) => Mark::Insert,
            Some(Leap::Delete) => Mark::Delete,
        }
    }
}
