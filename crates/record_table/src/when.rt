//! When a row is.

ghost use Rattle.std.specs.Prelude.{◌≡◌, ◌+◌, ◌*◌, ◌/◌, ◌^◌, ◌≤◌, false};
ghost use Rattle.record_text.specs.Signed.{IsSmall};
ghost use Rattle.record_levels.specs.Limits.{end_ns};
ghost use Rattle.record_cells.specs.Scales.{below, scaled};
ghost use Rattle.record_table.specs.Whens.{row_ns, signed, when_by, when_of};

use crate::row::Reason;
use record_cells::{Unit, scaled_below};
use record_levels::TimeFault;
use record_text::{Decimal, decimal_of};

/// Nanoseconds of 1,000 hours.
pub(crate) const END_NS: u64 = 3_600_000_000_000_000;

/// A time, less than 1,000 hours before or after that of 0.
#[derive(Clone, Copy, PartialEq, Eq)]
pub(crate) enum When {
    /// So many nanoseconds after it.
    After(u64),
    /// So many nanoseconds before it.
    Before(u64),
}

/// The time that a cell says.
pub(crate) fn when_of(unit: Unit, cell: &[u8]) -> Result<When, Reason>
    ensures { result ≡ when_of unit cell.now }
{
    match decimal_of(cell) {
        Some(decimal) => when_by(decimal.is_minus, scaled_ns(unit.power(), decimal)),
        None => Err(Reason::BadTime),
    }
}

/// The time of a row by the rate of samples, where so many rows stand above it.
pub(crate) fn when_by_rate(rows: u64, rate: u128) -> Result<When, Reason>
    ensures { result ≡ when_by false (row_ns rows rate) }
{
    when_by(false, row_ns(rows, rate))
}

fn when_by(is_minus: bool, time_ns: Option<u64>) -> Result<When, Reason>
    ensures { result ≡ when_by is_minus time_ns }
{
    match time_ns {
        Some(time_ns) => Ok(signed(is_minus, time_ns)),
        None => Err(Reason::Time(TimeFault::Beyond)),
    }
}

fn signed(is_minus: bool, time_ns: u64) -> When
    ensures { result ≡ signed is_minus time_ns }
{
    if is_minus {
        When::Before(time_ns)
    } else {
        When::After(time_ns)
    }
}

// A decimal number of units in nanoseconds, rounded down.
fn scaled_ns(power: u64, decimal: Decimal) -> Option<u64>
    requires power { power ≤ 15 }
    requires small { IsSmall decimal }
    ensures { result ≡ below end_ns
        (scaled decimal.number (decimal.up + power) (decimal.down + 6)) }
{
    scaled_below(END_NS, decimal.number, decimal.up + power, decimal.down + 6)
}

// So many samples in nanoseconds.
fn row_ns(rows: u64, rate: u128) -> Option<u64>
    ensures { result ≡ row_ns rows rate }
{
    if rate == 0 {
        return Some(0);
    }
    let time_ns = u128::from(rows) * 1_000_000_000_000_000 / rate;
    if time_ns < u128::from(END_NS) {
        Some(time_ns as u64)
    } else {
        None
    }
}
