//! Why a line ends the run.

ghost use Rattle.std.specs.Prelude.{◌≡◌};
ghost use Rattle.report_run.specs.declared.stop.Stop.TheVariants.{Failed};
ghost use Rattle.report_run.specs.Faults.{fault_of, stop_of};

use crate::fault::SceneFault;
use text_faults::{LineFault, Refusal};

/// What fails though the line is right.
#[derive(Clone, Copy)]
pub enum Failure {
    /// The output took no more.
    Write,
    /// There was no memory.
    Memory,
}

/// Why a line ends the run.
#[derive(Clone, Copy)]
pub enum Stop {
    /// It is refused.
    Refused(Refusal),
    /// It isn't refused, and something failed.
    Failed(Failure),
}

impl From<Failure> for Stop {
    ghost from_gives = { λ failure stop. stop ≡ Failed failure };

    fn from(failure: Failure) -> Stop {
        Stop::Failed(failure)
    }
}

impl From<LineFault> for Stop {
    ghost from_gives = { λ fault stop. stop ≡ stop_of fault };

    fn from(fault: LineFault) -> Stop {
        match fault {
            LineFault::Refused(refusal) => Stop::Refused(refusal),
            LineFault::Memory => Stop::Failed(Failure::Memory),
        }
    }
}

impl From<Failure> for SceneFault {
    ghost from_gives = { λ failure fault. fault ≡ fault_of failure };

    fn from(failure: Failure) -> SceneFault {
        match failure {
            Failure::Write => SceneFault::Write,
            Failure::Memory => SceneFault::Memory,
        }
    }
}
