//! Seconds that were announced, in numbers.

ghost use Rattle.std.specs.Prelude.{◌≡◌, ◌↔◌, IsTrue};
ghost use Rattle.c_lines.specs.Announced.{announced_in, IsAnnounced, IsSmall};

use irig_time::{UtcSecond, valid};
use irig_timekeeper::Announced;

/// A second that a timekeeper announced, or none.
#[repr(C)]
#[derive(Clone, Copy, Drop)]
pub struct IrigAnnounced {
    /// The day of the second.
    pub day: u32,
    /// The second of that day.
    pub sod: u32,
    /// Where it begins.
    pub edge_us: u32,
    /// How far from its true edge that may lie.
    pub bound_us: u32,
    /// 0 if there is none; any other, if there is.
    pub is_told: u8,
}

/// None.
pub const NOTHING_ANNOUNCED: IrigAnnounced = IrigAnnounced {
    day: 0,
    sod: 0,
    edge_us: 0,
    bound_us: 0,
    is_told: 0,
};

/// The second, if there is one.
pub fn announced_of(announced: &IrigAnnounced) -> Option<Announced>
    ensures { result ≡ announced_in announced.now }
{
    if announced.is_told == 0 {
        return None;
    }
    Some(Announced {
        second: second_of(announced),
        edge_us: announced.edge_us,
        bound_us: announced.bound_us,
    })
}

fn second_of(announced: &IrigAnnounced) -> UtcSecond
    ensures { result ≡ record { day = announced.now.day; sod = announced.now.sod } }
{
    UtcSecond {
        day: announced.day,
        sod: announced.sod,
    }
}

/// Whether it is a second of UTC, if there is one.
pub fn is_announced(announced: &IrigAnnounced) -> bool
    ensures { IsTrue result ↔ IsAnnounced announced.now }
{
    announced.is_told == 0 || valid(&second_of(announced))
}

/// A second that was announced, as C holds it.
pub fn announced_for_c(announced: &Option<Announced>) -> IrigAnnounced
    ensures { announced_in result ≡ announced.now }
{
    match announced {
        None => NOTHING_ANNOUNCED,
        Some(announced) => IrigAnnounced {
            day: announced.second.day,
            sod: announced.second.sod,
            edge_us: announced.edge_us,
            bound_us: announced.bound_us,
            is_told: 1,
        },
    }
}

/// Whether its bound is no greater than that of a held one may be, if there is one.
pub fn is_small(announced: &IrigAnnounced) -> bool
    ensures { IsTrue result ↔ IsSmall announced.now }
{
    announced.is_told == 0 || announced.bound_us <= 492_899
}
