//! The faults of a run.

ghost use Rattle.std.specs.Prelude.{◌≡◌};
ghost use Rattle.report_run.specs.Statuses.{status_of};

use text_faults::Refusal;
use thiserror::Error;

/// The exit status of a program whose scenario was refused.
pub const REFUSED: u8 = 3;

/// The exit status of a program whose input failed.
pub const READ_FAILED: u8 = 4;

/// The exit status of a program whose output failed.
pub const WRITE_FAILED: u8 = 5;

/// The exit status of a program that was given no memory.
pub const OUT_OF_MEMORY: u8 = 6;

/// Why a run of a scenario ended early.
#[derive(Clone, Copy, Debug, PartialEq, Eq, Error)]
pub enum SceneFault {
    /// A line was refused: its number, from 1, and why.
    #[error("scenario refused")]
    Refused { line: u64, refusal: Refusal },
    /// The input failed.
    #[error("read failed")]
    Read,
    /// The output failed.
    #[error("write failed")]
    Write,
    /// There was no memory.
    #[error("out of memory")]
    Memory,
}

impl SceneFault {
    /// The exit status of a program whose run ended so.
    pub fn status(&self) -> u8
        ensures { result ≡ status_of self.now }
    {
        match self {
            SceneFault::Refused { .. } => REFUSED,
            SceneFault::Read => READ_FAILED,
            SceneFault::Write => WRITE_FAILED,
            SceneFault::Memory => OUT_OF_MEMORY,
        }
    }
}
