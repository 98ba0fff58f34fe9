//! The refusals of a station.

use std::alloc::AllocError;

/// Why an event is refused, in the order in which reasons are answered.
#[derive(Clone, Copy, PartialEq, Eq)]
pub enum StationFault {
    /// There is no device of this number.
    NoSuchDevice,
    /// There is no generator of this number.
    NoSuchGenerator,
    /// The instant of a stamp lies before edge 0.
    BeforeStart,
    /// The timeline has no second for an edge that has come.
    EndOfYears,
    /// There was no memory.
    Memory,
}

impl From<AllocError> for StationFault {
    ghost use Rattle.std.specs.Prelude.{◌≡◌};
    ghost use Rattle.irig_station.specs.declared.fault.StationFault.TheVariants.{Memory};

    ghost from_gives = { λ _ fault. fault ≡ Memory };

    fn from(_: AllocError) -> StationFault {
        StationFault::Memory
    }
}
