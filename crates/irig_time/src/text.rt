//! The texts of days and seconds: `YYYY-MM-DD` and `YYYY-MM-DDTHH:MM:SSZ`.

ghost use Rattle.std.specs.Prelude.{◌≡◌, ◌↔◌, ◌≤◌, ◌<◌, ◌+◌, ◌/◌, ◌%◌, ◌++◌, ℕ, length, slice_index, string_bytes, OnOk, Some};
ghost use Rattle.std.specs.Str.{IsAscii};
ghost use Rattle.irig_time.specs.Seconds.{IsValid};
ghost use Rattle.irig_time.specs.Texts.{IsDayText, IsText, two};
ghost use Rattle.irig_time.specs.TextValues.{second_text, second_read, day_read};

use crate::calendar::{date_parts, day_of};
use crate::second::{UtcSecond, valid};
use std::alloc::AllocError;
use std::str;

/// The text of a [`valid`] second, as `YYYY-MM-DDTHH:MM:SSZ`; that of sod 86400 ends with
/// `T23:59:60Z`.
pub fn write_text(utc: &UtcSecond) -> [u8; 20]
    requires { IsValid utc.now }
    ensures text { IsText utc.now result }
    ensures value { result ≡ second_text utc.now }
    ensures ascii { IsAscii result }
{
    let minutes = utc.minute_of_day();
    let [y1, y2, y3, y4, _, m1, m2, _, d1, d2] = write_day(utc.day);
    let [h1, h2] = digits(minutes / 60);
    let [n1, n2] = digits(minutes % 60);
    let [s1, s2] = digits(utc.sod - minutes * 60);
    [
        y1, y2, y3, y4, b'-', m1, m2, b'-', d1, d2, b'T', h1, h2, b':', n1, n2, b':', s1, s2, b'Z',
    ]
}

/// Adds the text of a [`valid`] second. If there is no memory, nothing is added.
pub fn push_text(text: &mut String, utc: &UtcSecond) -> Result<(), AllocError>
    requires { IsValid utc.now }
    ensures { OnOk result (string_bytes text.new ≡ string_bytes text.old ++ second_text utc.now) }
{
    text.push_str(as_str(&write_text(utc)))
}

fn as_str(ascii: &[u8; 20]) -> &str
    requires { IsAscii ascii.now }
    ensures { result.now ≡ ascii.now }
{
    str::from_utf8(ascii).unwrap()
}

/// The second whose text this is: exactly what [`write_text`] gives for a [`valid`] second.
///
/// It reads leniently, and then compares the text with the one of what it read.
pub fn read_text(text: &[u8]) -> Option<UtcSecond>
    ensures exact { (u : UtcSecond) → (result ≡ Some u) ↔ (IsValid u × IsText u text.now) }
    ensures value { result ≡ second_read text.now }
{
    if text.len() != 20 {
        return None;
    }
    let day = read_day(&text[..10])?;
    let sod = two_at(text, 11) * 3600 + two_at(text, 14) * 60 + two_at(text, 17);
    let utc = UtcSecond { day, sod };
    if !valid(&utc) {
        return None;
    }
    let same = write_text(&utc).as_slice() == text;
    if same { Some(utc) } else { None }
}

/// The day, counted from 2000-01-01, whose date this is as `YYYY-MM-DD`, from 2000-01-01 to
/// 2099-12-31.
pub fn read_day(text: &[u8]) -> Option<u32>
    ensures exact { (d : ℕ) → (result ≡ Some d) ↔ ((d ≤ 36524) × IsDayText d text.now) }
    ensures value { result ≡ day_read text.now }
{
    if text.len() != 10 {
        return None;
    }
    let year = two_at(text, 0) * 100 + two_at(text, 2);
    let day = day_of(year, two_at(text, 5), two_at(text, 8))?;
    let same = write_day(day).as_slice() == text;
    if same { Some(day) } else { None }
}

fn write_day(day: u32) -> [u8; 10]
    requires { day ≤ 36524 }
    ensures text { IsDayText day result }
    ensures ascii { IsAscii result }
{
    let (year, month, day) = date_parts(day);
    let [y1, y2] = digits(year / 100);
    let [y3, y4] = digits(year % 100);
    let [m1, m2] = digits(month);
    let [d1, d2] = digits(day);
    [y1, y2, y3, y4, b'-', m1, m2, b'-', d1, d2]
}

fn digits(number: u32) -> [u8; 2]
    requires { number < 100 }
    ensures digits { result ≡ two number }
    ensures ascii { IsAscii result }
{
    [b'0' + (number / 10) as u8, b'0' + (number % 10) as u8]
}

/// What two bytes say as decimal digits, if they are such.
fn two_at(text: &[u8], at: usize) -> u32
    requires { at + 1 < length text.now }
    ensures value { (n : ℕ) → n < 100 → slice_index text.now at ≡ 48 + n / 10
        → slice_index text.now (at + 1) ≡ 48 + n % 10 → result ≡ n }
    ensures bounded { result < 100 }
{
    let tens = text[at].saturating_sub(b'0').min(9);
    let units = text[at + 1].saturating_sub(b'0').min(9);
    u32::from(tens) * 10 + u32::from(units)
}
