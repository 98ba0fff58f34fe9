//! Why there is no recording.

ghost use Rattle.std.specs.Prelude.{◌≡◌};
ghost use Rattle.record_lines.specs.declared.setup.SetupFault.TheVariants.{Clock, Memory};

use irig_lines::ClockFault;
use std::alloc::AllocError;

/// Why there is no recording.
#[derive(Clone, Copy, PartialEq, Eq)]
pub enum SetupFault {
    /// By the rules that were given there is no timekeeper.
    Clock(ClockFault),
    /// There was no memory.
    Memory,
}

impl From<ClockFault> for SetupFault {
    ghost from_gives = { λ clock fault. fault ≡ Clock clock };

    fn from(fault: ClockFault) -> SetupFault {
        SetupFault::Clock(fault)
    }
}

impl From<AllocError> for SetupFault {
    ghost from_gives = { λ _ fault. fault ≡ Memory };

    fn from(_: AllocError) -> SetupFault {
        SetupFault::Memory
    }
}
