//! Why the program ends with another status than 0.

ghost use Rattle.std.specs.Prelude.{◌≡◌};
ghost use Rattle.irig_main.specs.declared.fault.Fault.TheVariants.{BadTime, Memory};
ghost use Rattle.irig_main.specs.Status.{fault_of, fault_of_judging, fault_of_reading, status_of};

use irig_scene::{OUT_OF_MEMORY, READ_FAILED, REFUSED, SceneFault, WRITE_FAILED};
use report_judge::JudgeFault;
use std::alloc::AllocError;
use std::fmt;
use std::io::Error;
use text_frame::{BadTime, ReadingFault};

// The exit status if the words of the command line are at fault.
const BAD_WORDS: u8 = 2;

// If no second of a recording is decided.
const UNDECIDED: u8 = 7;

/// What ends the program. Its text is the line on the standard error.
#[derive(Drop)]
pub enum Fault {
    /// The command line, with the text that says what is wrong and what would be right.
    CommandLine(String),
    /// A word of the command line that is no UTF-8.
    NotText,
    /// A TIME that is no second of the years served.
    BadTime,
    /// A FRAME with a character that is no symbol.
    BadFrameText,
    /// A line of the scenario, which the log names.
    Refused,
    /// A recording that can't be judged, and why.
    Recording(JudgeFault),
    /// FILE has the samples of a disturbance record, which is named by its configuration.
    Samples,
    /// A recording of which no second is decided; the verdict says so.
    Undecided,
    /// FILE can't be opened.
    Open(Error),
    /// The samples beside FILE can't be opened.
    OpenSamples(Error),
    /// FILE or the input can't be read.
    Read,
    /// The samples beside FILE can't be read.
    ReadSamples,
    /// The output took no more.
    Write,
    /// The system gave no memory.
    Memory,
}

impl Fault {
    /// The exit status.
    pub fn status(&self) -> u8
        ensures { result ≡ status_of self.now }
    {
        match self {
            Fault::CommandLine(_)
            | Fault::NotText
            | Fault::BadTime
            | Fault::BadFrameText
            | Fault::Samples => BAD_WORDS,
            Fault::Refused | Fault::Recording(_) => REFUSED,
            Fault::Undecided => UNDECIDED,
            Fault::Open(_) | Fault::OpenSamples(_) | Fault::Read | Fault::ReadSamples => {
                READ_FAILED
            }
            Fault::Write => WRITE_FAILED,
            Fault::Memory => OUT_OF_MEMORY,
        }
    }
}

impl fmt::Display for Fault {
    fn fmt<W: fmt::Write>(&self, f: &mut fmt::Formatter<W>) -> fmt::Result {
        f.write_str(match self {
            Fault::CommandLine(text) => text.as_str().trim_end(),
            Fault::NotText => "the command line is no UTF-8",
            Fault::BadTime => "bad time",
            Fault::BadFrameText => "bad frame text",
            Fault::Refused => "scenario refused",
            Fault::Recording(_) => "recording refused",
            Fault::Samples => "no configuration",
            Fault::Undecided => "undecided",
            Fault::Open(_) | Fault::OpenSamples(_) | Fault::Read | Fault::ReadSamples => {
                "read failed"
            }
            Fault::Write => "write failed",
            Fault::Memory => "out of memory",
        })
    }
}

impl From<AllocError> for Fault {
    ghost from_gives = { λ _ fault. fault ≡ Memory };

    fn from(_: AllocError) -> Fault {
        Fault::Memory
    }
}

impl From<SceneFault> for Fault {
    ghost from_gives = { λ scene fault. fault ≡ fault_of scene };

    fn from(fault: SceneFault) -> Fault {
        match fault {
            SceneFault::Refused { .. } => Fault::Refused,
            SceneFault::Read => Fault::Read,
            SceneFault::Write => Fault::Write,
            SceneFault::Memory => Fault::Memory,
        }
    }
}

impl From<BadTime> for Fault {
    ghost from_gives = { λ _ fault. fault ≡ BadTime };

    fn from(_: BadTime) -> Fault {
        Fault::BadTime
    }
}

impl From<ReadingFault> for Fault {
    ghost from_gives = { λ reading fault. fault ≡ fault_of_reading reading };

    fn from(fault: ReadingFault) -> Fault {
        match fault {
            ReadingFault::BadFrameText => Fault::BadFrameText,
            ReadingFault::Memory => Fault::Memory,
        }
    }
}

impl From<JudgeFault> for Fault {
    ghost from_gives = { λ judging fault. fault ≡ fault_of_judging judging };

    fn from(fault: JudgeFault) -> Fault {
        match fault {
            JudgeFault::Read => Fault::Read,
            JudgeFault::ReadSamples => Fault::ReadSamples,
            JudgeFault::Memory => Fault::Memory,
            _ => Fault::Recording(fault),
        }
    }
}

/// Writes the fault to the standard error, except what the output has: a scenario's refusal, and that a
/// recording is undecided; answers its status.
pub fn report<R: Eprint>(rt: &R, fault: &Fault) -> u8
    ensures { result ≡ status_of fault.now }
{
    if !matches!(fault, Fault::Refused | Fault::Undecided) {
        // A standard error that takes nothing changes no status.
        let _ = rt.eprintln(fault);
    }
    fault.status()
}
