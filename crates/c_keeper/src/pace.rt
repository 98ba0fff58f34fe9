//! What a timekeeper has learned of its counter, in numbers.

ghost use Rattle.std.specs.Prelude.{◌≡◌, ◌↔◌, ◌≤◌, IsTrue};
ghost use Rattle.irig_lines.specs.Paces.{IsSound};
ghost use Rattle.c_keeper.specs.Paces.{pace_in, MayCount};

use irig_lines::Pace;

/// How long the next seconds are by the counter.
#[repr(C)]
#[derive(Clone, Copy, Drop)]
pub struct IrigPace {
    /// How long each of them is, in nanoseconds: 0 if nothing is learned.
    pub second_ns: u32,
    /// How much longer or shorter than that one may be, in nanoseconds.
    pub within_ns: u32,
    /// How far behind its microsecond the last edge lies, in nanoseconds: 0 to 999.
    pub rest_ns: u32,
}

pub(crate) const NOTHING_LEARNED: IrigPace = IrigPace {
    second_ns: 0,
    within_ns: 0,
    rest_ns: 0,
};

/// The same, if anything is learned.
pub fn pace_of(pace: &IrigPace) -> Option<Pace>
    ensures value { result ≡ pace_in pace.now }
    ensures sound { MayCount pace.now → IsSound result }
{
    if pace.second_ns == 0 {
        return None;
    }
    Some(Pace {
        second_ns: pace.second_ns,
        within_ns: pace.within_ns,
        rest_ns: pace.rest_ns,
    })
}

/// The same as C holds it.
pub(crate) fn pace_for_c(pace: Option<Pace>) -> IrigPace
    requires sound { IsSound pace }
    ensures value { pace_in result ≡ pace }
    ensures counts { MayCount result }
{
    match pace {
        None => NOTHING_LEARNED,
        Some(pace) => IrigPace {
            second_ns: pace.second_ns,
            within_ns: pace.within_ns,
            rest_ns: pace.rest_ns,
        },
    }
}

/// Whether seconds can be counted by it.
pub(crate) fn may_count(pace: &IrigPace) -> bool
    ensures { IsTrue result ↔ MayCount pace.now }
{
    pace.second_ns == 0
        || (999_900_000 <= pace.second_ns && pace.second_ns <= 1_000_100_000 && pace.rest_ns <= 999)
}
