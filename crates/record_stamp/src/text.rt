//! The word on a stamp as a text.

ghost use Rattle.std.specs.Prelude.{◌≡◌, ◌≤◌, ◌<◌, ◌∷◌, [], ◌++◌, ◌+◌, unsigned_abs, string_bytes, take, OnOk, IfSome};
ghost use Rattle.std.specs.Fmt.{decimal};
ghost use Rattle.std.specs.Str.{IsAscii};
ghost use Rattle.irig_time.specs.Seconds.{IsValid};
ghost use Rattle.irig_time.specs.TextValues.{second_text};
ghost use Rattle.record_stamp.specs.Late.{IsMoment};
ghost use Rattle.record_stamp.specs.declared.word.TheConstants.{NEAR_NS};
ghost use Rattle.record_stamp.specs.Word.{IsReading, IsWord};
ghost use Rattle.record_stamp.specs.WordText.{amount_text, direction, escaped, escaped_byte, exchanged_line, fault_reason, fraction_text, hex, moment_text, off_text, other_date_line, reading_between, reading_line, seconds_text, stamp_fault_text, stamp_of_text, stamp_text, stamp_word_text, three, unit_text, within_text, zone_line, zone_text};

use crate::instant::StampFault;
use crate::late::Moment;
use crate::word::{Word, ZoneReading};
use irig_time::{UtcSecond, write_text};
use itoa::Buffer;
use std::alloc::AllocError;
use std::str;

/// Adds the lines of a word on a stamp, whose date and time stand so in a record, escaped; and the moment of
/// its sample by the lines. Like all that adds to a text, it fails only if there is no memory.
#[tactic(auto, unfolding(crate::specs::WordText::stamp_word_text))]
pub fn push_stamp_word(
    text: &mut String,
    word: &Word,
    date: &[u8],
    clock: &[u8],
    truth: Moment,
) -> Result<(), AllocError>
    requires word { IsWord word.now }
    requires truth { IsMoment truth }
    ensures { OnOk result (string_bytes text.new ≡ string_bytes text.old
        ++ stamp_word_text word.now date.now clock.now truth) }
{
    push_off_between(text, "the stamp ", word.within_ns, word.late_ns, ": ")?;
    push_stamp_of(text, date, clock, " for sample 1, which was ", truth)?;
    push_exchanged(text, word.within_ns, word.exchanged_ns)?;
    push_zone_line(text, word.within_ns, word.zone)
}

// Adds a stamp and a moment, with words between them.
#[tactic(auto, unfolding(crate::specs::WordText::stamp_of_text))]
fn push_stamp_of(
    text: &mut String,
    date: &[u8],
    clock: &[u8],
    words: &str,
    moment: Moment,
) -> Result<(), AllocError>
    requires { IsMoment moment }
    ensures { OnOk result (string_bytes text.new ≡ string_bytes text.old
        ++ stamp_of_text date.now clock.now words.now moment) }
{
    push_stamp(text, date, clock)?;
    text.push_str(words)?;
    push_moment(text, moment)?;
    text.push_str("\n")
}

/// Adds the line that a stamp is no time, and why.
#[tactic(auto, unfolding(crate::specs::WordText::stamp_fault_text))]
pub fn push_stamp_fault(
    text: &mut String,
    fault: StampFault,
    date: &[u8],
    clock: &[u8],
) -> Result<(), AllocError>
    ensures { OnOk result (string_bytes text.new ≡ string_bytes text.old
        ++ stamp_fault_text fault date.now clock.now) }
{
    push_stamp_between(text, "the stamp ", date, clock, " is no time: ")?;
    text.push_str(fault_reason(fault))?;
    text.push_str("\n")
}

/// Adds a stamp, whose date and time stand so in a record, escaped, with words around it.
pub(crate) fn push_stamp_between(
    text: &mut String,
    front: &str,
    date: &[u8],
    clock: &[u8],
    end: &str,
) -> Result<(), AllocError>
    ensures { OnOk result (string_bytes text.new ≡ string_bytes text.old
        ++ (front.now ++ (stamp_text date.now clock.now ++ end.now))) }
{
    text.push_str(front)?;
    push_stamp(text, date, clock)?;
    text.push_str(end)
}

#[tactic(auto, unfolding(crate::specs::WordText::fault_reason))]
fn fault_reason(fault: StampFault) -> &'static str
    ensures { result.now ≡ fault_reason fault }
{
    match fault {
        StampFault::Date => "its date is not three numbers, as dd/mm/yyyy",
        StampFault::Clock => "its time is not three numbers, as hh:mm:ss, with up to nine decimals",
        StampFault::NoSuchDay => "the years from 2000 to 2099 have no such day",
        StampFault::NoSuchTime => "a day has no such time",
        StampFault::OutOfYears => "it is not from 2000-01-02 to 2099-12-30 in UTC",
        StampFault::Second60 => "no month of UTC ends with that second 60",
    }
}

#[tactic(auto, unfolding(crate::specs::WordText::exchanged_line))]
fn push_exchanged(text: &mut String, within: u64, late: Option<i64>) -> Result<(), AllocError>
    requires { IfSome late (λ late. unsigned_abs late ≤ NEAR_NS) }
    ensures { OnOk result (string_bytes text.new
        ≡ string_bytes text.old ++ exchanged_line within late) }
{
    match late {
        Some(late) => push_exchanged_line(text, within, late),
        None => Ok(()),
    }
}

#[tactic(auto, unfolding(crate::specs::WordText::other_date_line))]
fn push_exchanged_line(text: &mut String, within: u64, late: i64) -> Result<(), AllocError>
    ensures { OnOk result (string_bytes text.new
        ≡ string_bytes text.old ++ other_date_line within late) }
{
    let front = "with its day and month exchanged it ";
    push_off_between(text, front, within, late, "\n")
}

#[tactic(auto, unfolding(crate::specs::WordText::zone_line))]
fn push_zone_line(
    text: &mut String,
    within: u64,
    zone: Option<ZoneReading>,
) -> Result<(), AllocError>
    requires { IfSome zone IsReading }
    ensures { OnOk result (string_bytes text.new
        ≡ string_bytes text.old ++ zone_line within zone) }
{
    match zone {
        Some(zone) => push_reading(text, within, zone.zone_minutes, zone.late_ns),
        None => Ok(()),
    }
}

#[tactic(auto, unfolding(crate::specs::WordText::reading_line))]
fn push_reading(text: &mut String, within: u64, minutes: i16, late: i64) -> Result<(), AllocError>
    ensures { OnOk result (string_bytes text.new
        ≡ string_bytes text.old ++ reading_line within minutes late) }
{
    push_reading_between(text, "as local time of UTC", minutes, " it ", within, late)
}

fn push_reading_between(
    text: &mut String,
    front: &str,
    minutes: i16,
    middle: &str,
    within: u64,
    late: i64,
) -> Result<(), AllocError>
    ensures { OnOk result (string_bytes text.new ≡ string_bytes text.old
        ++ reading_between front.now minutes middle.now within late) }
{
    text.push_str(front)?;
    push_zone(text, minutes)?;
    push_off_between(text, middle, within, late, "\n")
}

// Adds by how much something is off, between words.
fn push_off_between(
    text: &mut String,
    front: &str,
    within: u64,
    late: i64,
    end: &str,
) -> Result<(), AllocError>
    ensures { OnOk result (string_bytes text.new ≡ string_bytes text.old
        ++ (front.now ++ (off_text within late ++ end.now))) }
{
    text.push_str(front)?;
    push_off(text, within, late)?;
    text.push_str(end)
}

// Adds a zone as +5:30.
#[tactic(auto, unfolding(crate::specs::WordText::zone_text))]
pub(crate) fn push_zone(text: &mut String, minutes: i16) -> Result<(), AllocError>
    ensures { OnOk result (string_bytes text.new
        ≡ string_bytes text.old ++ zone_text minutes) }
{
    text.push_str(if minutes < 0 { "-" } else { "+" })?;
    let size = minutes.unsigned_abs();
    push_number(text, u64::from(size / 60))?;
    text.push_str(":")?;
    push_digit(text, u64::from(size) / 10 % 6)?;
    push_digit(text, u64::from(size) % 10)
}

// Adds by how much something is off, or that it agrees.
#[tactic(auto, unfolding(crate::specs::WordText::off_text))]
fn push_off(text: &mut String, within: u64, late: i64) -> Result<(), AllocError>
    ensures { OnOk result (string_bytes text.new
        ≡ string_bytes text.old ++ off_text within late) }
{
    let size = late.unsigned_abs();
    if size <= within {
        push_within_after(text, "agrees within ", within)
    } else {
        push_amount_between(text, "is ", size, direction(late))
    }
}

fn direction(late: i64) -> &'static str
    ensures { result.now ≡ direction late }
{
    if late < 0 { "early" } else { "late" }
}

fn push_within_after(text: &mut String, front: &str, ns: u64) -> Result<(), AllocError>
    ensures { OnOk result (string_bytes text.new
        ≡ string_bytes text.old ++ (front.now ++ within_text ns)) }
{
    text.push_str(front)?;
    push_within(text, ns)
}

fn push_amount_between(text: &mut String, front: &str, ns: u64, end: &str) -> Result<(), AllocError>
    ensures { OnOk result (string_bytes text.new ≡ string_bytes text.old
        ++ (front.now ++ (amount_text ns ++ end.now))) }
{
    text.push_str(front)?;
    push_amount(text, ns)?;
    text.push_str(end)
}

// Adds milliseconds with one decimal, rounded up.
#[tactic(auto, unfolding(crate::specs::WordText::within_text))]
fn push_within(text: &mut String, ns: u64) -> Result<(), AllocError>
    ensures { OnOk result (string_bytes text.new ≡ string_bytes text.old ++ within_text ns) }
{
    let tenths = ns.div_ceil(100_000);
    push_number(text, tenths / 10)?;
    text.push_str(".")?;
    push_digit(text, tenths % 10)?;
    text.push_str(" ms")
}

// Adds a length of time, rounded to a millisecond.
#[tactic(auto, unfolding(crate::specs::WordText::amount_text, crate::specs::WordText::length_text))]
fn push_amount(text: &mut String, ns: u64) -> Result<(), AllocError>
    ensures { OnOk result (string_bytes text.new ≡ string_bytes text.old ++ amount_text ns) }
{
    let ms = ns / 1_000_000 + ns % 1_000_000 / 500_000;
    push_unit(text, ms / 86_400_000, " d ")?;
    push_unit(text, ms / 3_600_000 % 24, " h ")?;
    push_unit(text, ms / 60_000 % 60, " min ")?;
    push_seconds(text, ms)
}

#[tactic(auto, unfolding(crate::specs::WordText::unit_text))]
fn push_unit(text: &mut String, count: u64, name: &str) -> Result<(), AllocError>
    ensures { OnOk result (string_bytes text.new
        ≡ string_bytes text.old ++ unit_text count name.now) }
{
    if count == 0 {
        return Ok(());
    }
    push_number(text, count)?;
    text.push_str(name)
}

#[tactic(auto, unfolding(crate::specs::WordText::seconds_text))]
fn push_seconds(text: &mut String, ms: u64) -> Result<(), AllocError>
    ensures { OnOk result (string_bytes text.new ≡ string_bytes text.old ++ seconds_text ms) }
{
    if ms % 1_000 == 0 && ms >= 60_000 {
        return push_unit(text, ms / 1_000 % 60, " s ");
    }
    push_number(text, ms / 1_000 % 60)?;
    text.push_str(".")?;
    push_three(text, ms % 1_000)?;
    text.push_str(" s ")
}

/// Adds the text of a moment, as 2026-11-24T09:30:00.250Z: that of its second, with three, six or
/// nine decimals, as many as count. It fails only if there is no memory.
#[tactic(auto, unfolding(crate::specs::WordText::moment_text))]
pub fn push_moment(text: &mut String, moment: Moment) -> Result<(), AllocError>
    requires { IsMoment moment }
    ensures { OnOk result (string_bytes text.new
        ≡ string_bytes text.old ++ moment_text moment) }
{
    push_clock(text, &moment.at)?;
    text.push_str(".")?;
    push_fraction(text, u64::from(moment.nanoseconds))?;
    text.push_str("Z")
}

#[tactic(auto, unfolding(crate::specs::WordText::fraction_text))]
fn push_fraction(text: &mut String, ns: u64) -> Result<(), AllocError>
    requires { ns < 1000000000 }
    ensures { OnOk result (string_bytes text.new ≡ string_bytes text.old ++ fraction_text ns) }
{
    push_three(text, ns / 1_000_000)?;
    if ns % 1_000_000 == 0 {
        return Ok(());
    }
    push_three(text, ns / 1_000 % 1_000)?;
    if ns % 1_000 == 0 {
        return Ok(());
    }
    push_three(text, ns % 1_000)
}

// Adds the text of a second without its Z.
fn push_clock(text: &mut String, at: &UtcSecond) -> Result<(), AllocError>
    requires { IsValid at.now }
    ensures { OnOk result (string_bytes text.new
        ≡ string_bytes text.old ++ take 19 (second_text at.now)) }
{
    let bytes = write_text(at);
    push_ascii(text, bytes.as_slice().split_at(19).0)
}

fn push_ascii(text: &mut String, ascii: &[u8]) -> Result<(), AllocError>
    requires { IsAscii ascii.now }
    ensures { OnOk result (string_bytes text.new ≡ string_bytes text.old ++ ascii.now) }
{
    text.push_str(str::from_utf8(ascii).unwrap())
}

// Adds a date and a time as they stand, escaped.
#[tactic(auto, unfolding(crate::specs::WordText::stamp_text))]
fn push_stamp(text: &mut String, date: &[u8], clock: &[u8]) -> Result<(), AllocError>
    ensures { OnOk result (string_bytes text.new
        ≡ string_bytes text.old ++ stamp_text date.now clock.now) }
{
    push_escaped(text, date)?;
    text.push_str(",")?;
    push_escaped(text, clock)
}

#[tactic(auto, unfolding(crate::specs::WordText::escaped))]
pub(crate) fn push_escaped(text: &mut String, bytes: &[u8]) -> Result<(), AllocError>
    ensures { OnOk result (string_bytes text.new
        ≡ string_bytes text.old ++ escaped bytes.now) }
{
    for byte in bytes {
        push_byte(text, *byte)?;
    }
    Ok(())
}

// Adds a byte that shows as itself, or else as its number of sixteen.
fn push_byte(text: &mut String, byte: u8) -> Result<(), AllocError>
    ensures { OnOk result (string_bytes text.new
        ≡ string_bytes text.old ++ escaped_byte byte) }
{
    if (32..=126).contains(&byte) && byte != b'\\' {
        return push_code(text, byte);
    }
    text.push_str("\\x")?;
    push_code(text, hex(byte / 16))?;
    push_code(text, hex(byte % 16))
}

fn hex(digit: u8) -> u8
    requires { digit < 16 }
    ensures digit { result ≡ hex digit }
    ensures ascii { result < 128 }
{
    if digit < 10 {
        b'0' + digit
    } else {
        b'a' + (digit - 10)
    }
}

#[tactic(auto, unfolding(crate::specs::WordText::three))]
fn push_three(text: &mut String, number: u64) -> Result<(), AllocError>
    requires { number < 1000 }
    ensures { OnOk result (string_bytes text.new ≡ string_bytes text.old ++ three number) }
{
    push_digit(text, number / 100)?;
    push_digit(text, number / 10 % 10)?;
    push_digit(text, number % 10)
}

fn push_digit(text: &mut String, digit: u64) -> Result<(), AllocError>
    requires { digit < 10 }
    ensures { OnOk result (string_bytes text.new
        ≡ string_bytes text.old ++ (48 + digit) ∷ []) }
{
    push_code(text, b'0' + digit as u8)
}

fn push_code(text: &mut String, code: u8) -> Result<(), AllocError>
    requires { code < 128 }
    ensures { OnOk result (string_bytes text.new ≡ string_bytes text.old ++ code ∷ []) }
{
    text.push(char::from(code))
}

fn push_number(text: &mut String, number: u64) -> Result<(), AllocError>
    ensures { OnOk result (string_bytes text.new ≡ string_bytes text.old ++ decimal number) }
{
    text.push_str(Buffer::new().format(number))
}
