//! The codes that stand below the stamps since 2013: the zone, the quality of the time, leap seconds.

ghost use Rattle.std.specs.Prelude.{◌≡◌, ◌≤◌, length, IfSome};
ghost use Rattle.record_stamp.specs.Codes.{IsZone, ahead, digits_in, hours_of, is_minute_mark, leap_said, minutes_below, quality_of, two_digits, zone_of, zone_minutes};

use record_text::number_of;

/// What a recorder says of leap seconds in its record.
#[derive(Clone, Copy, PartialEq, Eq)]
pub enum LeapSaid {
    /// None is in it.
    NoLeap,
    /// One is added.
    Added,
    /// One is deleted.
    Deleted,
    /// The recorder's clock knows of none.
    Unknown,
}

/// The minutes that a time is ahead of UTC, by its code: maybe a sign, up to 23 hours in one or two
/// digits, then maybe `h`, `:` or `t` and minutes in two digits up to 59, and maybe a letter, as `-5h30`,
/// `0`, `+1h` and `-5t`. Of another text (`x`) there are none.
pub fn zone_of(text: &[u8]) -> Option<i16>
    ensures says { result ≡ zone_of text.now }
    ensures range { IfSome result IsZone }
{
    match text {
        [b'-', rest @ ..] => match zone_minutes(rest) {
            Some(minutes) => Some(-(minutes as i16)),
            None => None,
        },
        [b'+', rest @ ..] => ahead(zone_minutes(rest)),
        _ => ahead(zone_minutes(text)),
    }
}

fn ahead(minutes: Option<u16>) -> Option<i16>
    requires { IfSome minutes (λ m. m ≤ 1439) }
    ensures says { result ≡ ahead minutes }
    ensures range { IfSome result IsZone }
{
    match minutes {
        Some(minutes) => Some(minutes as i16),
        None => None,
    }
}

// The minutes of a code without its sign.
fn zone_minutes(text: &[u8]) -> Option<u16>
    ensures says { result ≡ zone_minutes text.now }
    ensures few { IfSome result (λ minutes. minutes ≤ 1439) }
{
    let (digits, rest) = text.split_at(digits_in(text));
    if digits.len() > 2 {
        return None;
    }
    let Some(hours) = hours_of(digits) else {
        return None;
    };
    match minutes_below(rest) {
        Some(minutes) => Some(60 * hours + minutes),
        None => None,
    }
}

fn hours_of(digits: &[u8]) -> Option<u16>
    ensures says { result ≡ hours_of digits.now }
    ensures few { IfSome result (λ hours. hours ≤ 23) }
{
    match number_of(digits) {
        Some(hours) if hours <= 23 => Some(hours as u16),
        _ => None,
    }
}

fn minutes_below(text: &[u8]) -> Option<u16>
    ensures says { result ≡ minutes_below text.now }
    ensures few { IfSome result (λ minutes. minutes ≤ 59) }
{
    match text {
        [] => Some(0),
        [letter] if letter.is_ascii_alphabetic() => Some(0),
        [mark, tens, ones] if is_minute_mark(*mark) => two_digits(*tens, *ones),
        [mark, tens, ones, letter] if is_minute_mark(*mark) && letter.is_ascii_alphabetic() => {
            two_digits(*tens, *ones)
        }
        _ => None,
    }
}

fn is_minute_mark(byte: u8) -> bool
    ensures { result ≡ is_minute_mark byte }
{
    matches!(byte, b'h' | b'H' | b':' | b't' | b'T')
}

// A number of two digits up to 59.
fn two_digits(tens: u8, ones: u8) -> Option<u16>
    ensures says { result ≡ two_digits tens ones }
    ensures few { IfSome result (λ n. n ≤ 59) }
{
    if (b'0'..=b'5').contains(&tens) && ones.is_ascii_digit() {
        Some(10 * u16::from(tens - b'0') + u16::from(ones - b'0'))
    } else {
        None
    }
}

// How many digits a text begins with.
fn digits_in(text: &[u8]) -> usize
    ensures count { result ≡ digits_in text.now }
    ensures within { result ≤ length text.now }
{
    for (at, byte) in text.iter().enumerate() {
        if !byte.is_ascii_digit() {
            return at;
        }
    }
    text.len()
}

/// How good a recorder's time was, by its code of one digit of sixteen: 0 is locked, 1 to 11 are within
/// 1 ns, 10 ns and so on to 10 s, and 15 is failed. Of another text there is none.
pub fn quality_of(text: &[u8]) -> Option<u8>
    ensures says { result ≡ quality_of text.now }
    ensures few { IfSome result (λ quality. quality ≤ 15) }
{
    match text {
        [digit @ b'0'..=b'9'] => Some(*digit - b'0'),
        [b'A' | b'a'] => Some(10),
        [b'B' | b'b'] => Some(11),
        [b'F' | b'f'] => Some(15),
        _ => None,
    }
}

/// What the leap field says: 0 none, 1 added, 2 deleted, 3 not known. Of another text nothing.
pub fn leap_said(text: &[u8]) -> Option<LeapSaid>
    ensures { result ≡ leap_said text.now }
{
    match text {
        [b'0'] => Some(LeapSaid::NoLeap),
        [b'1'] => Some(LeapSaid::Added),
        [b'2'] => Some(LeapSaid::Deleted),
        [b'3'] => Some(LeapSaid::Unknown),
        _ => None,
    }
}
