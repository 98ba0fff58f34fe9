//! Decimal numbers with a sign and an exponent.

ghost use Rattle.std.specs.Prelude.{◌≡◌, ◌≤◌, ◌<◌, IfSome, false};
ghost use Rattle.record_text.specs.Signed.{IsSmall, after_digits, begins_digit, begins_number, decimal, digits_from, exponent, power, unsigned, with_digit};

use crate::number::number_of;

/// The largest exponent that is read.
const MOST_POWER: u64 = 99;

/// A decimal number as it is written: the number of its digits, times 10 to the power of `up`,
/// divided by 10 to the power of `down`.
#[derive(Clone, Copy, PartialEq, Eq)]
pub struct Decimal {
    /// Whether a minus stands before it.
    pub is_minus: bool,
    /// Its digits, without the point.
    pub number: u64,
    /// An exponent above 0, up to 99; else 0.
    pub up: u64,
    /// How many digits stand after the point, and what an exponent below 0 adds to them.
    pub down: u64,
}

/// The decimal number that a text spells: maybe a sign, digits with a point before, between or
/// behind them, and maybe e or E with an exponent, from -99 to 99. Its digits are a number below
/// 2^64.
pub fn decimal_of(text: &[u8]) -> Option<Decimal>
    ensures says { result ≡ decimal text.now }
    ensures small { IfSome result IsSmall }
{
    match text {
        [b'-', rest @ ..] => unsigned(true, rest),
        [b'+', rest @ ..] => unsigned(false, rest),
        _ => unsigned(false, text),
    }
}

fn unsigned(is_minus: bool, text: &[u8]) -> Option<Decimal>
    ensures says { result ≡ unsigned is_minus text.now }
    ensures small { IfSome result IsSmall }
{
    if begins_number(text) {
        digits_of(is_minus, text)
    } else {
        None
    }
}

fn begins_number(text: &[u8]) -> bool
    ensures { result ≡ begins_number text.now }
{
    match text {
        [b'.', rest @ ..] => begins_digit(rest),
        _ => begins_digit(text),
    }
}

fn begins_digit(text: &[u8]) -> bool
    ensures { result ≡ begins_digit text.now }
{
    match text {
        [first, ..] => first.is_ascii_digit(),
        [] => false,
    }
}

fn digits_of(is_minus: bool, text: &[u8]) -> Option<Decimal>
    ensures says { result ≡ digits_from is_minus false 0 0 text.now }
    ensures small { IfSome result IsSmall }
{
    let mut number = 0u64;
    let mut places = 0u64;
    let mut is_behind = false;
    for (at, byte) in text.iter().enumerate() {
        if byte.is_ascii_digit() {
            number = match with_digit(number, *byte - b'0') {
                Some(number) => number,
                None => return None,
            };
            places += u64::from(is_behind);
        } else if *byte == b'.' && !is_behind {
            is_behind = true;
        } else {
            let (_, rest) = text.split_at(at + 1);
            return after_digits(is_minus, number, places, *byte, rest);
        }
    }
    Some(Decimal {
        is_minus,
        number,
        up: 0,
        down: places,
    })
}

fn with_digit(number: u64, digit: u8) -> Option<u64>
    requires { digit ≤ 9 }
    ensures { result ≡ with_digit number digit }
{
    match number.checked_mul(10) {
        Some(tens) => tens.checked_add(u64::from(digit)),
        None => None,
    }
}

// A letter that is no digit, and what stands after it.
fn after_digits(
    is_minus: bool,
    number: u64,
    places: u64,
    letter: u8,
    rest: &[u8],
) -> Option<Decimal>
    requires { places < 9223372036854775808 }
    ensures says { result ≡ after_digits is_minus number places letter rest.now }
    ensures small { IfSome result IsSmall }
{
    if letter == b'e' || letter == b'E' {
        exponent(is_minus, number, places, rest)
    } else {
        None
    }
}

fn exponent(is_minus: bool, number: u64, places: u64, text: &[u8]) -> Option<Decimal>
    requires { places < 9223372036854775808 }
    ensures says { result ≡ exponent is_minus number places text.now }
    ensures small { IfSome result IsSmall }
{
    let (is_below, digits) = match text {
        [b'-', rest @ ..] => (true, rest),
        [b'+', rest @ ..] => (false, rest),
        _ => (false, text),
    };
    let Some(power) = power(digits) else {
        return None;
    };
    Some(Decimal {
        is_minus,
        number,
        up: if is_below { 0 } else { power },
        down: if is_below { places + power } else { places },
    })
}

fn power(digits: &[u8]) -> Option<u64>
    ensures power { result ≡ power digits.now }
    ensures few { IfSome result (λ power. power ≤ 99) }
{
    match number_of(digits) {
        Some(power) if power <= MOST_POWER => Some(power),
        _ => None,
    }
}
