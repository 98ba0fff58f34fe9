//! What a record says of its own clock, beside its stamp.

ghost use Rattle.std.specs.Prelude.{◌≡◌, ◌≤◌, ◌++◌, pos, unsigned_abs, string_bytes, OnOk, IfOk, IfSome};
ghost use Rattle.record_stamp.specs.WordText.{zone_text};
ghost use Rattle.record_comtrade.specs.Reads.{value_of};
ghost use Rattle.record_stamp.specs.Codes.{IsZone, IsZoneOf};
ghost use Rattle.record_stamp.specs.Instants.{IsStamp};
ghost use Rattle.record_stamp.specs.Late.{IsMoment};
ghost use Rattle.record_stamp.specs.Notes.{between_note, code_note, in_day, leap_note, leap_words, moment_after, names_none, no_zone_note, notes_text, own_zone, power_word, quality_note, quality_words, since_midnight, trigger_by, trigger_line, trigger_moment, unit_word, unlocked_words, zone_as, zone_note};

use crate::code::{LeapSaid, zone_of};
use crate::instant::{Stamp, StampFault};
use crate::late::{Moment, late_ns};
use crate::record::{leap_in, quality_in, stamp_of, trigger_of};
use crate::text::{push_escaped, push_moment, push_zone};
use irig_time::UtcSecond;
use record_comtrade::Config;
use std::alloc::AllocError;

const SECOND_NS: i64 = 1_000_000_000;

const DAY_NS: i64 = 86_400_000_000_000;

/// Adds a line each on the zone by which the stamp of a record is read, on its trigger, where the
/// lines tell when its first sample was, and on what it says of its clock and of leap seconds.
pub(crate) fn push_notes(
    text: &mut String,
    config: &Config,
    zone: Option<i16>,
    truth: Moment,
) -> Result<(), AllocError>
    requires zone { IsZoneOf zone }
    requires truth { IsMoment truth }
    ensures { OnOk result (string_bytes text.new ≡ string_bytes text.old
        ++ notes_text (value_of config.now) zone truth) }
{
    push_zone_note(text, zone, config.field_below(4, 0))?;
    push_trigger(
        text,
        stamp_of(config, zone),
        trigger_of(config, zone),
        truth,
    )?;
    push_quality(text, quality_in(config))?;
    push_leap(text, leap_in(config))
}

// In which zone the stamp is read: the one that was asked for, or else that of the record.
fn push_zone_note(text: &mut String, zone: Option<i16>, code: &[u8]) -> Result<(), AllocError>
    requires { IsZoneOf zone }
    ensures { OnOk result (string_bytes text.new
        ≡ string_bytes text.old ++ zone_note zone code.now) }
{
    match zone {
        Some(minutes) => push_zone_as(text, minutes, ", as was asked for\n"),
        None => push_code_note(text, zone_of(code), code),
    }
}

// The record's own zone, if its code is one.
fn push_code_note(text: &mut String, said: Option<i16>, code: &[u8]) -> Result<(), AllocError>
    requires { IfSome said IsZone }
    ensures { OnOk result (string_bytes text.new
        ≡ string_bytes text.old ++ code_note said code.now) }
{
    match said {
        Some(minutes) => push_own_zone(text, minutes),
        None => push_no_zone(text, code),
    }
}

fn push_own_zone(text: &mut String, minutes: i16) -> Result<(), AllocError>
    requires { IsZone minutes }
    ensures { OnOk result (string_bytes text.new ≡ string_bytes text.old ++ own_zone minutes) }
{
    if minutes.unsigned_abs() == 0 {
        text.push_str("the stamp is read as UTC, as the record says\n")
    } else {
        push_zone_as(text, minutes, ", as the record says\n")
    }
}

#[tactic(auto, unfolding(crate::specs::Notes::zone_as))]
fn push_zone_as(text: &mut String, minutes: i16, end: &str) -> Result<(), AllocError>
    requires { IsZone minutes }
    ensures { OnOk result (string_bytes text.new
        ≡ string_bytes text.old ++ zone_as minutes end.now) }
{
    push_zone_between(text, "the stamp is read as local time of UTC", minutes, end)
}

fn push_zone_between(
    text: &mut String,
    front: &str,
    minutes: i16,
    end: &str,
) -> Result<(), AllocError>
    ensures { OnOk result (string_bytes text.new
        ≡ string_bytes text.old ++ (front.now ++ (zone_text minutes ++ end.now))) }
{
    text.push_str(front)?;
    push_zone(text, minutes)?;
    text.push_str(end)
}

fn push_no_zone(text: &mut String, code: &[u8]) -> Result<(), AllocError>
    ensures { OnOk result (string_bytes text.new
        ≡ string_bytes text.old ++ no_zone_note code.now) }
{
    if names_none(code) {
        return text.push_str("the stamp is read as UTC, since the record names no zone\n");
    }
    let front = "the stamp is read as UTC, since the record's time code, ";
    push_between(text, front, code, ", is no zone\n")
}

fn names_none(code: &[u8]) -> bool
    ensures { result ≡ names_none code.now }
{
    match code {
        [] => true,
        [letter] => *letter == b'x' || *letter == b'X',
        _ => false,
    }
}

// Adds what stands in a record, escaped, with words around it.
#[tactic(auto, unfolding(crate::specs::Notes::between_note))]
fn push_between(text: &mut String, front: &str, code: &[u8], end: &str) -> Result<(), AllocError>
    ensures { OnOk result (string_bytes text.new
        ≡ string_bytes text.old ++ between_note front.now code.now end.now) }
{
    text.push_str(front)?;
    push_escaped(text, code)?;
    text.push_str(end)
}

// When the trigger was, if both stamps are times.
fn push_trigger(
    text: &mut String,
    first: Result<Stamp, StampFault>,
    trigger: Result<Stamp, StampFault>,
    truth: Moment,
) -> Result<(), AllocError>
    requires first { IfOk first IsStamp }
    requires trigger { IfOk trigger IsStamp }
    requires truth { IsMoment truth }
    ensures { OnOk result (string_bytes text.new
        ≡ string_bytes text.old ++ trigger_by first trigger truth) }
{
    match (first, trigger) {
        (Ok(first), Ok(trigger)) => {
            push_trigger_line(text, trigger_moment(first, trigger, truth))
        }
        _ => Ok(()),
    }
}

#[tactic(auto, unfolding(crate::specs::Notes::trigger_line))]
fn push_trigger_line(text: &mut String, at: Option<Moment>) -> Result<(), AllocError>
    requires { IfSome at IsMoment }
    ensures { OnOk result (string_bytes text.new ≡ string_bytes text.old ++ trigger_line at) }
{
    match at {
        Some(at) => {
            text.push_str("the trigger was at ")?;
            push_moment(text, at)?;
            text.push_str("\n")
        }
        None => Ok(()),
    }
}

// As long after the first sample as the stamps say.
fn trigger_moment(first: Stamp, trigger: Stamp, truth: Moment) -> Option<Moment>
    requires first { IsStamp first }
    requires trigger { IsStamp trigger }
    requires truth { IsMoment truth }
    ensures says { result ≡ trigger_moment first trigger truth }
    ensures valid { IfSome result IsMoment }
{
    moment_after(late_ns(None, trigger.moment(), first.moment()), truth)
}

// So long after a moment, if that is another moment of the same day.
fn moment_after(lag: i64, of: Moment) -> Option<Moment>
    requires lag { unsigned_abs lag ≤ 3155760002000000000 }
    requires of { IsMoment of }
    ensures says { result ≡ moment_after lag of }
    ensures valid { IfSome result IsMoment }
{
    if lag.unsigned_abs() == 0 {
        return None;
    }
    in_day(of, since_midnight(of) + lag)
}

fn since_midnight(of: Moment) -> i64
    requires { IsMoment of }
    ensures says { result ≡ pos (since_midnight of) }
    ensures few { unsigned_abs result ≤ 86401000000000 }
{
    SECOND_NS * i64::from(of.at.sod) + i64::from(of.nanoseconds)
}

// So long after the beginning of the day of a moment, if it is on that day.
fn in_day(of: Moment, since_ns: i64) -> Option<Moment>
    requires { IsMoment of }
    ensures says { result ≡ in_day of since_ns }
    ensures valid { IfSome result IsMoment }
{
    if since_ns < 0 || since_ns >= DAY_NS {
        return None;
    }
    let since = since_ns as u64;
    Some(Moment {
        at: UtcSecond {
            day: of.at.day,
            sod: (since / 1_000_000_000) as u32,
        },
        nanoseconds: (since % 1_000_000_000) as u32,
    })
}

fn push_quality(text: &mut String, quality: Option<u8>) -> Result<(), AllocError>
    ensures { OnOk result (string_bytes text.new ≡ string_bytes text.old ++ quality_note quality) }
{
    match quality {
        Some(code) => push_quality_words(text, code),
        None => Ok(()),
    }
}

fn push_quality_words(text: &mut String, code: u8) -> Result<(), AllocError>
    ensures { OnOk result (string_bytes text.new ≡ string_bytes text.old ++ quality_words code) }
{
    if code == 0 {
        text.push_str("the record says that its clock was locked\n")
    } else if code < 12 {
        push_unlocked(text, code)
    } else {
        text.push_str("the record says that its clock was out of order\n")
    }
}

// To how much the recorder's time was right.
#[tactic(auto, unfolding(crate::specs::Notes::unlocked_words))]
fn push_unlocked(text: &mut String, code: u8) -> Result<(), AllocError>
    requires { 1 ≤ code }
    ensures { OnOk result (string_bytes text.new ≡ string_bytes text.old ++ unlocked_words code) }
{
    let front = "the record says that its clock was not locked, and right to ";
    push_parts(
        text,
        front,
        power_word((code - 1) % 3),
        unit_word((code - 1) / 3),
    )
}

fn push_parts(text: &mut String, front: &str, middle: &str, end: &str) -> Result<(), AllocError>
    ensures { OnOk result (string_bytes text.new
        ≡ string_bytes text.old ++ (front.now ++ (middle.now ++ end.now))) }
{
    text.push_str(front)?;
    text.push_str(middle)?;
    text.push_str(end)
}

fn power_word(power: u8) -> &'static str
    ensures { result.now ≡ power_word power }
{
    if power == 0 {
        "1"
    } else if power == 1 {
        "10"
    } else {
        "100"
    }
}

fn unit_word(unit: u8) -> &'static str
    ensures { result.now ≡ unit_word unit }
{
    if unit == 0 {
        " ns\n"
    } else if unit == 1 {
        " us\n"
    } else if unit == 2 {
        " ms\n"
    } else {
        " s\n"
    }
}

fn push_leap(text: &mut String, leap: Option<LeapSaid>) -> Result<(), AllocError>
    ensures { OnOk result (string_bytes text.new ≡ string_bytes text.old ++ leap_note leap) }
{
    match leap {
        Some(leap) => text.push_str(leap_words(leap)),
        None => Ok(()),
    }
}

#[tactic(auto, unfolding(crate::specs::Notes::leap_words))]
fn leap_words(leap: LeapSaid) -> &'static str
    ensures { result.now ≡ leap_words leap }
{
    match leap {
        LeapSaid::NoLeap => "",
        LeapSaid::Added => "the record says that a leap second is added in it\n",
        LeapSaid::Deleted => "the record says that a leap second is deleted in it\n",
        LeapSaid::Unknown => "the record says that its clock does not know of leap seconds\n",
    }
}
