//! The numbers, names and words for the faults of a frame.

ghost use Rattle.std.specs.Prelude.{◌≡◌, ◌++◌, string_bytes, OnOk, Some};
ghost use Rattle.text_faults.specs.PortFaults.{number_of, name_of, detail_of, detail_text, fault_text, field_word};

use irig_frame::{Field, FrameFault};
use irig_port::PortFault;
use irig_time::TimeFault;
use std::alloc::AllocError;

/// What a fault says beside its name.
#[derive(Clone, Copy, PartialEq, Eq)]
pub enum FaultDetail {
    /// So many symbols there were, 0 to 99.
    Symbols(u8),
    /// The element, 0 to 99.
    Element(u8),
    /// The field.
    Field(Field),
}

/// The number by which users know a fault of a frame: 1 to 10, 17, 18 or 36.
pub fn number_of(fault: PortFault) -> u8
    ensures { result ≡ number_of fault }
{
    match fault {
        PortFault::Frame(FrameFault::Short(_)) => 1,
        PortFault::Frame(FrameFault::Long) => 2,
        PortFault::Frame(FrameFault::Pulse(_)) => 3,
        PortFault::Frame(FrameFault::Marker(_)) => 4,
        PortFault::Frame(FrameFault::Digit(_)) => 5,
        PortFault::Frame(FrameFault::Range(_)) => 6,
        PortFault::Time(TimeFault::NoSuchDay) => 7,
        PortFault::Time(TimeFault::OutOfYears) => 8,
        PortFault::Time(TimeFault::Second60) => 9,
        PortFault::Time(TimeFault::DeletedSecond) => 10,
        PortFault::Parity => 17,
        PortFault::Sbs => 18,
        PortFault::Early => 36,
    }
}

/// The name of a fault of a frame.
pub fn name_of(fault: PortFault) -> &'static str
    ensures { result.now ≡ name_of fault }
{
    match fault {
        PortFault::Frame(FrameFault::Short(_)) => "Short",
        PortFault::Frame(FrameFault::Long) => "Long",
        PortFault::Frame(FrameFault::Pulse(_)) => "Pulse",
        PortFault::Frame(FrameFault::Marker(_)) => "Marker",
        PortFault::Frame(FrameFault::Digit(_)) => "Digit",
        PortFault::Frame(FrameFault::Range(_)) => "Range",
        PortFault::Time(TimeFault::NoSuchDay) => "NoSuchDay",
        PortFault::Time(TimeFault::OutOfYears) => "OutOfYears",
        PortFault::Time(TimeFault::Second60) => "Second60",
        PortFault::Time(TimeFault::DeletedSecond) => "DeletedSecond",
        PortFault::Parity => "Parity",
        PortFault::Sbs => "Sbs",
        PortFault::Early => "Early",
    }
}

/// What a fault says beside its name: `Short` how many symbols there were, `Pulse` and `Marker` the
/// element, `Digit` and `Range` the field, and the others nothing.
pub fn detail_of(fault: PortFault) -> Option<FaultDetail>
    ensures { result ≡ detail_of fault }
{
    match fault {
        PortFault::Frame(FrameFault::Short(count)) => Some(FaultDetail::Symbols(count)),
        PortFault::Frame(FrameFault::Pulse(element) | FrameFault::Marker(element)) => {
            Some(FaultDetail::Element(element))
        }
        PortFault::Frame(FrameFault::Digit(field) | FrameFault::Range(field)) => {
            Some(FaultDetail::Field(field))
        }
        _ => None,
    }
}

/// Adds the number of a fault, its name and what else it says to a text, with a separator between.
/// If there is no memory, a part of that may stand.
pub fn push_fault(text: &mut String, separator: &str, fault: PortFault) -> Result<(), AllocError>
    ensures { OnOk result (string_bytes text.new
        ≡ string_bytes text.old ++ fault_text separator.now fault) }
{
    let number = number_of(fault);
    let name = name_of(fault);
    write!(text, "{number}{separator}{name}")?;
    match detail_of(fault) {
        Some(detail) => push_detail(text, separator, detail),
        None => Ok(()),
    }
}

fn push_detail(text: &mut String, separator: &str, detail: FaultDetail) -> Result<(), AllocError>
    ensures { OnOk result (string_bytes text.new
        ≡ string_bytes text.old ++ detail_text separator.now (Some detail)) }
{
    match detail {
        FaultDetail::Symbols(number) | FaultDetail::Element(number) => write!(
            text,
            "{separator}{number}"
        ),
        FaultDetail::Field(field) => {
            text.push_str(separator)?;
            text.push_str(field_word(field))
        }
    }
}

fn field_word(field: Field) -> &'static str
    ensures { result.now ≡ field_word field }
{
    match field {
        Field::Second => "second",
        Field::Minute => "minute",
        Field::Hour => "hour",
        Field::Day => "day",
        Field::Year => "year",
    }
}
