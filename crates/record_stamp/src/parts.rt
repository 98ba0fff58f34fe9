//! The numbers of a stamp as they stand in its text.

ghost use Rattle.std.specs.Prelude.{◌≡◌, ◌≤◌, ◌<◌, ◌*◌, length, IfSome};
ghost use Rattle.record_stamp.specs.Parts.{after, before, clock_numbers, date_numbers, nanoseconds, number_up_to, place_in, year_of};

use record_text::number_of;

/// The numbers of a date, in the order in which they stand.
#[derive(Clone, Copy)]
pub(crate) struct DateNumbers {
    /// The first, up to 99.
    pub(crate) first: u32,
    /// The second, up to 99.
    pub(crate) second: u32,
    /// The year, up to 9,999; of two digits it is one from 2000 on.
    pub(crate) year: u32,
}

/// The numbers of a time of day.
#[derive(Clone, Copy)]
pub(crate) struct ClockNumbers {
    /// Up to 99.
    pub(crate) hour: u32,
    /// Up to 99.
    pub(crate) minute: u32,
    /// Up to 99.
    pub(crate) second: u32,
    /// Below 1,000,000,000.
    pub(crate) nanoseconds: u32,
}

/// The numbers of a date, which slashes part.
pub(crate) fn date_numbers(text: &[u8]) -> Option<DateNumbers>
    ensures says { result ≡ date_numbers text.now }
    ensures first { IfSome result (λ date. date.first ≤ 99) }
    ensures second { IfSome result (λ date. date.second ≤ 99) }
    ensures year { IfSome result (λ date. date.year ≤ 9999) }
{
    let rest = after(b'/', text);
    let Some(first) = number_up_to(99, before(b'/', text)) else {
        return None;
    };
    let Some(second) = number_up_to(99, before(b'/', rest)) else {
        return None;
    };
    let Some(year) = year_of(after(b'/', rest)) else {
        return None;
    };
    Some(DateNumbers {
        first,
        second,
        year,
    })
}

fn year_of(text: &[u8]) -> Option<u32>
    ensures says { result ≡ year_of text.now }
    ensures few { IfSome result (λ year. year ≤ 9999) }
{
    if text.len() > 2 {
        return number_up_to(9_999, text);
    }
    match number_up_to(99, text) {
        Some(year) => Some(2_000 + year),
        None => None,
    }
}

/// The numbers of a time, which colons part, and a point its fraction.
pub(crate) fn clock_numbers(text: &[u8]) -> Option<ClockNumbers>
    ensures says { result ≡ clock_numbers text.now }
    ensures hour { IfSome result (λ clock. clock.hour ≤ 99) }
    ensures minute { IfSome result (λ clock. clock.minute ≤ 99) }
    ensures second { IfSome result (λ clock. clock.second ≤ 99) }
    ensures fraction { IfSome result (λ clock. clock.nanoseconds < 1000000000) }
{
    let rest = after(b':', text);
    let seconds = after(b':', rest);
    let Some(hour) = number_up_to(99, before(b':', text)) else {
        return None;
    };
    let Some(minute) = number_up_to(99, before(b':', rest)) else {
        return None;
    };
    let Some(second) = number_up_to(99, before(b'.', seconds)) else {
        return None;
    };
    let Some(nanoseconds) = nanoseconds(after(b'.', seconds)) else {
        return None;
    };
    Some(ClockNumbers {
        hour,
        minute,
        second,
        nanoseconds,
    })
}

fn number_up_to(most: u32, text: &[u8]) -> Option<u32>
    ensures says { result ≡ number_up_to most text.now }
    ensures few { IfSome result (λ n. n ≤ most) }
{
    match number_of(text) {
        Some(number) if number <= u64::from(most) => Some(number as u32),
        _ => None,
    }
}

// The digits of a fraction, of which those after the ninth are zeros.
fn nanoseconds(digits: &[u8]) -> Option<u32>
    ensures says { result ≡ nanoseconds digits.now }
    ensures few { IfSome result (λ n. n < 1000000000) }
{
    let mut number = 0u64;
    let mut weight = 100_000_000u64;
    for digit in digits {
        if !digit.is_ascii_digit() || (weight == 0 && *digit != b'0') {
            return None;
        }
        number += weighed(*digit - b'0', weight);
        weight /= 10;
    }
    Some(number as u32)
}

fn weighed(digit: u8, weight: u64) -> u64
    requires digit { digit ≤ 9 }
    requires weight { weight ≤ 100000000 }
    ensures product { result ≡ digit * weight }
    ensures few { result ≤ 9 * weight }
{
    u64::from(digit) * weight
}

// What stands before the first such byte.
fn before(byte: u8, text: &[u8]) -> &[u8]
    ensures { result.now ≡ before byte text.now }
{
    text.split_at(place_in(byte, text)).0
}

// What stands after it.
fn after(byte: u8, text: &[u8]) -> &[u8]
    ensures { result.now ≡ after byte text.now }
{
    match text.split_at(place_in(byte, text)).1 {
        [_, after @ ..] => after,
        [] => &[],
    }
}

fn place_in(byte: u8, text: &[u8]) -> usize
    ensures count { result ≡ place_in byte text.now }
    ensures within { result ≤ length text.now }
{
    for (at, other) in text.iter().enumerate() {
        if *other == byte {
            return at;
        }
    }
    text.len()
}
