//! What stands in a row.

ghost use Rattle.std.specs.Prelude.{◌≡◌, ◌≤◌, IfOk, IfSome, slice_get};
ghost use Rattle.record_comtrade.specs.Configs.{at_most};
ghost use Rattle.record_samples.specs.Lines.{level_of};
ghost use Rattle.record_samples.specs.Rows.{level_at, levels_of, number_by, time_by};

use record_comtrade::{Mark, RowField};
use record_text::{field_of, number_of};

/// A sample: its number and its time, and the levels of the channels that are chosen.
#[derive(Clone, Copy)]
pub(crate) struct Row {
    pub(crate) mark: Mark,
    pub(crate) high: u8,
}

/// The number of a sample: that of its field, or where it is empty how many samples there are.
pub(crate) fn number_by(count: u64, text: &[u8]) -> Option<u32>
    ensures { result ≡ number_by count text.now }
{
    match text {
        [] => at_most(u32::MAX, Some(count)),
        _ => at_most(u32::MAX, number_of(text)),
    }
}

/// The time of a sample. The largest one says that there is none.
pub(crate) fn time_by(text: &[u8]) -> Option<u32>
    ensures { result ≡ time_by text.now }
{
    match text {
        [] => Some(u32::MAX),
        _ => at_most(u32::MAX - 1, number_of(text)),
    }
}

fn at_most(most: u32, number: Option<u64>) -> Option<u32>
    ensures { result ≡ at_most most number }
{
    match number {
        Some(number) if number <= u64::from(most) => Some(number as u32),
        _ => None,
    }
}

/// The levels of the channels at these places in the digital fields of a row. The first has the bit
/// of 1.
pub(crate) fn levels_of(chosen: &[usize], digital: &[u8]) -> Result<u8, RowField>
    ensures levels { result ≡ levels_of chosen.now digital.now }
{
    let first = level_at(chosen, 0, digital)?;
    let second = level_at(chosen, 1, digital)?;
    let third = level_at(chosen, 2, digital)?;
    let fourth = level_at(chosen, 3, digital)?;
    let fifth = level_at(chosen, 4, digital)?;
    Ok(first + 2 * second + 4 * third + 8 * fourth + 16 * fifth)
}

fn level_at(chosen: &[usize], at: usize, digital: &[u8]) -> Result<u8, RowField>
    ensures level { result ≡ level_at digital.now (slice_get chosen.now at) }
    ensures few { IfOk result (λ level. level ≤ 1) }
{
    let Some(place) = chosen.get(at) else {
        return Ok(0);
    };
    match level_of(field_of(digital, *place)) {
        Some(level) => Ok(level),
        None => Err(RowField::Level(*place)),
    }
}

/// The level of a digital channel by its field.
pub(crate) fn level_of(text: &[u8]) -> Option<u8>
    ensures level { result ≡ level_of text.now }
    ensures few { IfSome result (λ level. level ≤ 1) }
{
    match text {
        [b'0'] => Some(0),
        [b'1'] => Some(1),
        _ => None,
    }
}
