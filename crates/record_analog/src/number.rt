//! The number of an analog channel in a sample, as a place.

ghost use Rattle.std.specs.Prelude.{◌≡◌, ◌≤◌, ◌<◌, ◌/◌, ◌^◌, IfSome};
ghost use Rattle.record_comtrade.specs.Samples.{byte_at, number_at};
ghost use Rattle.record_analog.specs.Numbers.{billionths, is_missing, number_in, of_16, of_32, of_float, placed, text_number, turned, word_at};

use record_cells::place_of;
use record_comtrade::Form;

/// The place of 0: a place is so many billionths above -9,000,000,000. Numbers further off 0 than
/// 9,000,000,000 have the places of these.
pub(crate) const MIDDLE: u64 = 9_000_000_000_000_000_000;

const BILLION: u64 = 1_000_000_000;

/// The place of the number of an analog channel in a sample, if samples are numbers: so many
/// billionths above -9,000,000,000. None if it is missing. The channel is named by its place among
/// the analog ones, from 0.
pub fn number_in(form: Form, sample: &[u8], place: usize) -> Option<u64>
    requires { place < 4294967296 }
    ensures number { result ≡ number_in form sample.now place }
    ensures few { IfSome result (λ place. place ≤ 18000000000000000000) }
{
    match form {
        Form::Ascii => None,
        Form::Binary => of_16(word_at(sample, 8 + 2 * place)),
        Form::Binary32 => of_32(number_at(sample, 8 + 4 * place)),
        Form::Float32 => of_float(number_at(sample, 8 + 4 * place)),
    }
}

/// The place of the number of an analog channel that a text spells. Nothing is in the inner option
/// if it is missing, and nothing at all if it is no decimal number less than 1,000,000,000 off 0.
pub fn text_number(text: &[u8]) -> Option<Option<u64>>
    ensures number { result ≡ text_number text.now }
    ensures few { IfSome result (λ number. IfSome number (λ place. place ≤ 18000000000000000000)) }
{
    if is_missing(text) {
        return Some(None);
    }
    match place_of(text) {
        Some(place) => Some(Some(place + 8 * BILLION * BILLION)),
        None => None,
    }
}

fn is_missing(text: &[u8]) -> bool
    ensures { result ≡ is_missing text.now }
{
    text.is_empty() || text == b"99999".as_slice() || text == b"999999".as_slice()
}

fn of_16(word: u16) -> Option<u64>
    ensures number { result ≡ of_16 word }
    ensures few { IfSome result (λ place. place ≤ 18000000000000000000) }
{
    let word = u64::from(word);
    if word == 0x8000 {
        None
    } else if word < 0x8000 {
        Some(MIDDLE + word * BILLION)
    } else {
        Some(MIDDLE - (0x1_0000 - word) * BILLION)
    }
}

fn of_32(word: u32) -> Option<u64>
    ensures number { result ≡ of_32 word }
    ensures few { IfSome result (λ place. place ≤ 18000000000000000000) }
{
    let word = u64::from(word);
    if word == 0x8000_0000 {
        None
    } else if word < 0x8000_0000 {
        Some(MIDDLE + word * BILLION)
    } else {
        Some(MIDDLE - (0x1_0000_0000 - word) * BILLION)
    }
}

// IEEE 754, single: a sign, 8 bits of an exponent, 23 of a fraction.
fn of_float(word: u32) -> Option<u64>
    ensures number { result ≡ of_float word }
    ensures few { IfSome result (λ place. place ≤ 18000000000000000000) }
{
    let size = word % 0x8000_0000;
    if size > 0x7f7f_c99e {
        return None;
    }
    let exponent = u64::from(size / 0x80_0000);
    let fraction = u64::from(size % 0x80_0000);
    let billionths = if exponent == 0 {
        billionths(fraction, 1)
    } else {
        billionths(0x80_0000 + fraction, exponent)
    };
    Some(placed(word >= 0x8000_0000, billionths))
}

fn billionths(mantissa: u64, exponent: u64) -> u64
    requires { mantissa < 16777216 }
    ensures billionths { result ≡ billionths mantissa exponent }
    ensures few { result ≤ 9000000000000000000 }
{
    if exponent > 160 {
        MIDDLE
    } else if exponent < 97 {
        0
    } else {
        MIDDLE.min(shifted(mantissa * 1_024 * BILLION, 160 - exponent))
    }
}

fn shifted(number: u64, by: u64) -> u64
    requires { by < 64 }
    ensures { result ≡ number / 2 ^ by }
{
    number >> by
}

fn placed(is_minus: bool, billionths: u64) -> u64
    requires { billionths ≤ 9000000000000000000 }
    ensures place { result ≡ placed is_minus billionths }
    ensures few { result ≤ 18000000000000000000 }
{
    if is_minus {
        MIDDLE - billionths
    } else {
        MIDDLE + billionths
    }
}

/// The place of a number with its sign turned, or not.
pub(crate) fn turned(is_minus: bool, place: u64) -> u64
    requires { place ≤ 18000000000000000000 }
    ensures { result ≡ turned is_minus place }
{
    if is_minus { 2 * MIDDLE - place } else { place }
}

fn word_at(sample: &[u8], place: usize) -> u16
    requires { place ≤ 17179869200 }
    ensures { result ≡ word_at sample.now place }
{
    u16::from_le_bytes([byte_at(sample, place), byte_at(sample, place + 1)])
}

fn number_at(sample: &[u8], place: usize) -> u32
    requires { place ≤ 17179869200 }
    ensures { result ≡ number_at sample.now place }
{
    u32::from_le_bytes([
        byte_at(sample, place),
        byte_at(sample, place + 1),
        byte_at(sample, place + 2),
        byte_at(sample, place + 3),
    ])
}

fn byte_at(bytes: &[u8], place: usize) -> u8
    ensures { result ≡ byte_at bytes.now place }
{
    match bytes.get(place) {
        Some(byte) => *byte,
        None => 0,
    }
}
