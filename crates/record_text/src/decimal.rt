//! Decimal numbers.

ghost use Rattle.std.specs.Prelude.{◌≡◌, ◌≤◌, ◌+◌, ◌*◌, length, drop};
ghost use Rattle.record_text.specs.Decimals.{millionths, places_from, places_in, point_in};

use crate::number::number_of;

/// The millionths of a decimal number: digits, at least one, then maybe a point and digits, of which those
/// after the sixth are zeros. It has no sign and no exponent (`1e3` is none), and less than 2^64 millionths.
pub fn millionths_of(text: &[u8]) -> Option<u64>
    ensures { result ≡ millionths text.now }
{
    let (ones, _) = text.split_at(point_in(text));
    let Some(ones) = number_of(ones) else {
        return None;
    };
    match ones.checked_mul(1_000_000) {
        Some(number) => places_of(number, after_point(text)),
        None => None,
    }
}

/// How many bytes stand after the first point of a text.
pub fn places_in(text: &[u8]) -> usize
    ensures { result ≡ places_in text.now }
{
    after_point(text).len()
}

fn after_point(text: &[u8]) -> &[u8]
    ensures { result.now ≡ drop (point_in text.now + 1) text.now }
{
    match text.split_at(point_in(text)).1 {
        [_, after @ ..] => after,
        [] => &[],
    }
}

// A number with the digits after its point, the first a hundred thousand.
fn places_of(number: u64, digits: &[u8]) -> Option<u64>
    ensures { result ≡ places_from 100000 number digits.now }
{
    let mut number = number;
    let mut weight = 100_000;
    for digit in digits {
        if !digit.is_ascii_digit() || (weight == 0 && *digit != b'0') {
            return None;
        }
        number = match number.checked_add(weighed(*digit - b'0', weight)) {
            Some(sum) => sum,
            None => return None,
        };
        weight /= 10;
    }
    Some(number)
}

fn weighed(digit: u8, weight: u64) -> u64
    requires digit { digit ≤ 9 }
    requires weight { weight ≤ 100000 }
    ensures { result ≡ digit * weight }
{
    u64::from(digit) * weight
}

fn point_in(text: &[u8]) -> usize
    ensures count { result ≡ point_in text.now }
    ensures within { result ≤ length text.now }
{
    for (at, byte) in text.iter().enumerate() {
        if *byte == b'.' {
            return at;
        }
    }
    text.len()
}
