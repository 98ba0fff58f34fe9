//! The refusals of a plant.

use std::alloc::AllocError;

/// Why an event is refused, in the order in which reasons are answered.
#[derive(Clone, Copy, PartialEq, Eq)]
pub enum PlantFault {
    /// There is no reader of this number.
    NoSuchReader,
    /// There is no generator of this number.
    NoSuchGenerator,
    /// The edge of a replay is still to come at its generator.
    FutureReplay,
    /// The timeline has no second for the edge.
    EndOfYears,
    /// There was no memory.
    Memory,
}

/// The first event of a list that is refused.
#[derive(Clone, Copy, PartialEq, Eq)]
pub struct Refused {
    /// Its place in the list, from 0.
    pub index: usize,
    /// Why it is refused.
    pub fault: PlantFault,
}

impl From<AllocError> for PlantFault {
    ghost use Rattle.std.specs.Prelude.{◌≡◌};
    ghost use Rattle.irig_plant.specs.declared.fault.PlantFault.TheVariants.{Memory};

    ghost from_gives = { λ _ fault. fault ≡ Memory };

    fn from(_: AllocError) -> PlantFault {
        PlantFault::Memory
    }
}
