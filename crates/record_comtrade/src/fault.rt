//! Why a configuration is refused.

ghost use Rattle.std.specs.Prelude.{◌≡◌, ◌+◌, ◌<◌};
ghost use Rattle.record_comtrade.specs.Configs.{fault_at};
ghost use Rattle.record_comtrade.specs.declared.fault.ConfigFault.TheVariants.{Memory, Refused};

use std::alloc::AllocError;

/// What of a line is refused.
#[derive(Clone, Copy, PartialEq, Eq, Drop)]
pub enum Field {
    /// The line is too long: it has more than 1,020 bytes.
    Line,
    /// The year of the edition is no number up to 9,999.
    Edition,
    /// The number of analog channels is none up to 999,999, as `4A`.
    AnalogCount,
    /// The number of digital channels is none up to 999,999, as `2D`.
    DigitalCount,
    /// The factor of an analog channel is neither empty nor a decimal number from 10^-18 on, and below
    /// 1,000,000,000, above 0 or below it.
    Factor,
    /// The addend of an analog channel is neither empty nor a decimal number less than 1,000,000,000 off 0.
    Addend,
    /// The number of rates is none up to 999.
    RateCount,
    /// The rate is no decimal number of samples a second: digits, and maybe a point and digits, of which
    /// those after the sixth are zeros, below 2^64 millionths. It has no sign and no exponent.
    Rate,
    /// The number of the last sample is none of up to ten digits, or does not lie after that of the rate
    /// before.
    LastSample,
    /// The samples are stored as none of ASCII, BINARY, BINARY32 and FLOAT32.
    Samples,
    /// The multiple of times is no such decimal number.
    Multiple,
    /// The text ends before the line.
    Missing,
}

/// The first fault of a configuration.
#[derive(Clone, Copy, PartialEq, Eq, Drop)]
pub struct Fault {
    /// The line, from 1.
    pub line: u64,
    /// What of it.
    pub field: Field,
}

impl Fault {
    /// Of the line at a place, from 0.
    pub(crate) fn at(place: usize, field: Field) -> Fault
        requires { place < 18446744073709551615 }
        ensures { result ≡ fault_at place field }
    {
        Fault {
            line: place as u64 + 1,
            field,
        }
    }
}

/// Why there is no configuration.
#[derive(Clone, Copy, PartialEq, Eq, Drop)]
pub enum ConfigFault {
    /// There was no memory.
    Memory,
    /// It is refused.
    Refused(Fault),
}

impl From<AllocError> for ConfigFault {
    ghost from_gives = { λ _ fault. fault ≡ Memory };

    fn from(_: AllocError) -> ConfigFault {
        ConfigFault::Memory
    }
}

impl From<Fault> for ConfigFault {
    ghost from_gives = { λ of fault. fault ≡ Refused of };

    fn from(fault: Fault) -> ConfigFault {
        ConfigFault::Refused(fault)
    }
}
