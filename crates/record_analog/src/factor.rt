//! The factor of an analog channel, and the threshold by its numbers.

ghost use Rattle.std.specs.Prelude.{◌≡◌, ◌≤◌, ◌<◌, ◌*◌, ◌/◌, ◌^◌, IfSome};
ghost use Rattle.record_cells.specs.Scales.{below, scaled};
ghost use Rattle.record_analog.specs.Gauges.{addend_of, among_numbers, capped, factor_by, factor_of};

use crate::number::MIDDLE;
use crate::parts::Factor;
use record_cells::place_of;
use record_text::{Decimal, decimal_of};

// A factor is below this, in its parts.
const END: u128 = 1_000_000_000_000_000_000_000_000_000;

// The parts of 1.
const ONE: u128 = 1_000_000_000_000_000_000;

// The place of 0 where places are billionths above -1,000,000,000.
const NOTHING: u64 = 1_000_000_000_000_000_000;

/// The factor that a text spells, or 1 if it is empty.
pub(crate) fn factor_of(text: &[u8]) -> Option<Factor>
    ensures factor { result ≡ factor_of text.now }
    ensures some { IfSome result (λ factor. 0 < factor.parts) }
    ensures few { IfSome result (λ factor. factor.parts < 1000000000000000000000000000) }
{
    if text.is_empty() {
        return Some(Factor {
            is_minus: false,
            parts: ONE,
        });
    }
    match decimal_of(text) {
        Some(decimal) => factor_by(decimal),
        None => None,
    }
}

fn factor_by(decimal: Decimal) -> Option<Factor>
    requires { decimal.up ≤ 99 }
    ensures factor { result ≡ factor_by decimal }
    ensures some { IfSome result (λ factor. 0 < factor.parts) }
    ensures few { IfSome result (λ factor. factor.parts < 1000000000000000000000000000) }
{
    match scaled_below(u128::from(decimal.number), decimal.up + 18, decimal.down) {
        Some(parts) if parts > 0 => Some(Factor {
            is_minus: decimal.is_minus,
            parts,
        }),
        _ => None,
    }
}

/// The place of the addend that a text spells, in billionths above -1,000,000,000; an empty one is
/// 0.
pub(crate) fn addend_of(text: &[u8]) -> Option<u64>
    ensures { result ≡ addend_of text.now }
{
    if text.is_empty() {
        Some(NOTHING)
    } else {
        place_of(text)
    }
}

/// The place of the number by which a value is the threshold, without the sign of the factor.
pub(crate) fn among_numbers(factor: Factor, addend: u64, threshold: u64) -> u64
    requires some { 0 < factor.parts }
    requires few { factor.parts < 1000000000000000000000000000 }
    ensures { result ≡ among_numbers factor.parts addend threshold }
{
    if addend <= threshold {
        MIDDLE + capped(u128::from(threshold - addend) * ONE / factor.parts)
    } else {
        MIDDLE - capped((u128::from(addend - threshold) * ONE + (factor.parts - 1)) / factor.parts)
    }
}

fn capped(number: u128) -> u64
    ensures capped { result ≡ capped number }
    ensures few { result ≤ 9000000000000000000 }
{
    if number < u128::from(MIDDLE) {
        number as u64
    } else {
        MIDDLE
    }
}

fn scaled_below(number: u128, up: u64, down: u64) -> Option<u128>
    ensures scaled { result ≡ below 1000000000000000000000000000 (scaled number up down) }
    ensures few { IfSome result (λ number. number < 1000000000000000000000000000) }
{
    if down <= up {
        raised(number, up - down)
    } else {
        below(lowered(number, down - up))
    }
}

fn below(number: u128) -> Option<u128>
    ensures below { result ≡ below 1000000000000000000000000000 number }
    ensures few { IfSome result (λ number. number < 1000000000000000000000000000) }
{
    if number < END { Some(number) } else { None }
}

fn raised(number: u128, power: u64) -> Option<u128>
    ensures raised { result ≡ below 1000000000000000000000000000 (number * 10 ^ power) }
    ensures few { IfSome result (λ number. number < 1000000000000000000000000000) }
{
    let mut number = number;
    for _place in 0..power {
        if number >= END {
            return None;
        }
        number *= 10;
    }
    below(number)
}

fn lowered(number: u128, power: u64) -> u128
    ensures { result ≡ number / 10 ^ power }
{
    let mut number = number;
    for _place in 0..power {
        number /= 10;
    }
    number
}
