//! Faults as numbers.

ghost use Rattle.std.specs.Prelude.{◌≡◌, ◌<◌};
ghost use Rattle.c_numbers.specs.Numbers.{number_of_field, number_of_detail, code_of, number_of_table_fault};

use irig_frame::Field;
use irig_port::PortFault;
use irig_time::TableFault;
use text_faults::{FaultDetail, Refusal, detail_of, number_of};

/// The number of [`Refusal::Value`]: a value is out of its range.
pub const OUT_OF_RANGE: u32 = 26;

/// The number of a fault, and 256 times what it says beside.
pub fn fault_code(fault: PortFault) -> u32
    ensures value { result ≡ code_of fault }
    ensures some { 0 < result }
{
    u32::from(number_of(fault)) + 256 * u32::from(detail_number(detail_of(fault)))
}

fn detail_number(detail: Option<FaultDetail>) -> u8
    ensures { result ≡ number_of_detail detail }
{
    match detail {
        None => 0,
        Some(FaultDetail::Symbols(number) | FaultDetail::Element(number)) => number,
        Some(FaultDetail::Field(field)) => field_number(field),
    }
}

fn field_number(field: Field) -> u8
    ensures { result ≡ number_of_field field }
{
    match field {
        Field::Second => 0,
        Field::Minute => 1,
        Field::Hour => 2,
        Field::Day => 3,
        Field::Year => 4,
    }
}

pub(crate) fn table_code(fault: TableFault) -> u32
    ensures value { result ≡ number_of_table_fault fault }
    ensures some { 0 < result }
{
    u32::from(Refusal::from(fault).number())
}
