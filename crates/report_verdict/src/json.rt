//! A verdict as an object of JSON.

ghost use Rattle.std.specs.Prelude.{◌≡◌, ◌++◌, string_bytes, OnOk};
ghost use Rattle.report_verdict.specs.JsonText.{
  behind_comma,
  joined,
  json_agreed,
  json_bool,
  json_byte,
  json_code,
  json_counts,
  json_decided,
  json_detail,
  json_end,
  json_fault,
  json_instant,
  json_inverted,
  json_keys,
  json_kind,
  json_line,
  json_lines,
  json_moment,
  json_name,
  json_named,
  json_off,
  json_offset,
  json_open,
  json_others,
  json_quality,
  json_seconds,
  json_span,
  json_stretch,
  json_stretches,
  json_text,
  json_times,
  json_unended,
  json_zero,
  kind_word,
};

use crate::line_seen::{LineSeen, is_plain, push_digit};
use crate::number_text::{push_instant, push_utc};
use irig_port::PortFault;
use irig_time::UtcSecond;
use record_pulses::Counts;
use record_verdict::{AgreedSecond, Kind, Stretch, Tale, Unended, Verdict, Zero, zero_by};
use report_log::Offset;
use std::alloc::AllocError;
use text_faults::number_of;

/// Pushes a verdict as one object of JSON on one line, with times in whole microseconds. It has the
/// keys `decided`, `seconds`, `without_vote`, `jumps`, `apart_us`, `first` and `last` (`utc` and `edge_us`,
/// or null), `zero` (null if it is not known), `stretches` (those that ended), `more` (how many
/// more did), `open` (by line 0 to 4, or null) and `lines`, and then further keys with their
/// values, which are given, each behind a comma. It fails only if there is no memory.
pub fn push_json(
    text: &mut String,
    verdict: &Verdict,
    lines: &[LineSeen<'_>],
    further: &str,
) -> Result<(), AllocError>
    ensures { OnOk result (string_bytes text.new
        ≡ string_bytes text.old ++ json_text verdict.now lines.now further.now) }
{
    push_keys(text, verdict, lines)?;
    push_end(text, further)
}

fn push_keys(text: &mut String, verdict: &Verdict, lines: &[LineSeen<'_>]) -> Result<(), AllocError>
    ensures { OnOk result (string_bytes text.new
        ≡ string_bytes text.old ++ json_keys verdict.now lines.now) }
{
    push_decided(text, verdict.first.is_some())?;
    push_seconds(text, verdict.agreed)?;
    push_others(text, verdict)?;
    push_times(text, verdict)?;
    push_stretches(text, verdict)?;
    push_lines(text, lines)
}

// Further keys, and the end of the object.
#[tactic(auto, unfolding(crate::specs::JsonText::json_end))]
fn push_end(text: &mut String, further: &str) -> Result<(), AllocError>
    ensures { OnOk result (string_bytes text.new
        ≡ string_bytes text.old ++ json_end further.now) }
{
    text.push_str(further)?;
    text.push_str("}\n")
}

#[tactic(auto, unfolding(crate::specs::JsonText::json_decided))]
fn push_decided(text: &mut String, is_decided: bool) -> Result<(), AllocError>
    ensures { OnOk result (string_bytes text.new
        ≡ string_bytes text.old ++ json_decided is_decided) }
{
    if is_decided {
        text.push_str("{\"decided\":true")
    } else {
        text.push_str("{\"decided\":false")
    }
}

#[tactic(auto, unfolding(crate::specs::JsonText::json_others))]
fn push_others(text: &mut String, verdict: &Verdict) -> Result<(), AllocError>
    ensures { OnOk result (string_bytes text.new
        ≡ string_bytes text.old ++ json_others verdict.now) }
{
    let without_vote = verdict.without_vote;
    let jumps = verdict.jumps.count;
    let apart_us = verdict.apart_us;
    write!(
        text,
        ",\"without_vote\":{without_vote},\"jumps\":{jumps},\"apart_us\":{apart_us}"
    )
}

#[tactic(auto, unfolding(crate::specs::JsonText::json_bool))]
fn push_bool(text: &mut String, is_so: bool) -> Result<(), AllocError>
    ensures { OnOk result (string_bytes text.new ≡ string_bytes text.old ++ json_bool is_so) }
{
    if is_so {
        text.push_str("true")
    } else {
        text.push_str("false")
    }
}

#[tactic(auto, unfolding(crate::specs::JsonText::json_times))]
fn push_times(text: &mut String, verdict: &Verdict) -> Result<(), AllocError>
    ensures { OnOk result (string_bytes text.new
        ≡ string_bytes text.old ++ json_times verdict.now) }
{
    text.push_str(",\"first\":")?;
    push_agreed(text, &verdict.first)?;
    text.push_str(",\"last\":")?;
    push_agreed(text, &verdict.last)?;
    text.push_str(",\"zero\":")?;
    push_zero(text, zero_by(&verdict.first))
}

fn push_agreed(text: &mut String, second: &Option<AgreedSecond>) -> Result<(), AllocError>
    ensures { OnOk result (string_bytes text.new
        ≡ string_bytes text.old ++ json_agreed second.now) }
{
    match second {
        Some(second) => push_moment(text, second),
        None => text.push_str("null"),
    }
}

#[tactic(auto, unfolding(crate::specs::JsonText::json_moment))]
fn push_moment(text: &mut String, second: &AgreedSecond) -> Result<(), AllocError>
    ensures { OnOk result (string_bytes text.new
        ≡ string_bytes text.old ++ json_moment second.now) }
{
    text.push_str("{\"utc\":\"")?;
    push_utc(text, &second.claim.at)?;
    let edge_us = second.edge_us;
    write!(text, "\",\"edge_us\":{edge_us}}}")
}

fn push_zero(text: &mut String, zero: Option<Zero>) -> Result<(), AllocError>
    ensures { OnOk result (string_bytes text.new ≡ string_bytes text.old ++ json_zero zero) }
{
    match zero {
        Some(Zero::At { second, since_us }) => push_begins(text, &second, since_us),
        _ => text.push_str("null"),
    }
}

#[tactic(auto, unfolding(crate::specs::JsonText::json_instant))]
fn push_begins(text: &mut String, second: &UtcSecond, since_us: u32) -> Result<(), AllocError>
    ensures { OnOk result (string_bytes text.new
        ≡ string_bytes text.old ++ json_instant second.now since_us) }
{
    text.push_str("\"")?;
    push_instant(text, second, since_us)?;
    text.push_str("\"")
}

#[tactic(auto, unfolding(crate::specs::JsonText::json_stretches))]
fn push_stretches(text: &mut String, verdict: &Verdict) -> Result<(), AllocError>
    ensures { OnOk result (string_bytes text.new
        ≡ string_bytes text.old ++ json_stretches verdict.now) }
{
    let more = verdict.ended.more;
    text.push_str(",\"stretches\":[")?;
    push_ended(text, &verdict.ended.kept)?;
    write!(text, "],\"more\":{more},\"open\":[")?;
    push_unended(text, &verdict.unended)?;
    text.push_str("]")
}

fn push_ended(text: &mut String, stretches: &[Stretch]) -> Result<(), AllocError>
    ensures { OnOk result (string_bytes text.new
        ≡ string_bytes text.old ++ joined json_stretch stretches.now) }
{
    let [first, rest @ ..] = stretches else {
        return Ok(());
    };
    push_stretch(text, first)?;
    for stretch in rest {
        text.push_str(",")?;
        push_stretch(text, stretch)?;
    }
    Ok(())
}

fn push_unended(text: &mut String, unended: &Unended) -> Result<(), AllocError>
    ensures { OnOk result (string_bytes text.new
        ≡ string_bytes text.old ++ json_unended unended.now) }
{
    push_open(text, &unended.a)?;
    push_next_open(text, &unended.b)?;
    push_next_open(text, &unended.c)?;
    push_next_open(text, &unended.d)?;
    push_next_open(text, &unended.e)
}

fn push_next_open(text: &mut String, stretch: &Option<Stretch>) -> Result<(), AllocError>
    ensures { OnOk result (string_bytes text.new
        ≡ string_bytes text.old ++ behind_comma json_open stretch.now) }
{
    text.push_str(",")?;
    push_open(text, stretch)
}

fn push_open(text: &mut String, stretch: &Option<Stretch>) -> Result<(), AllocError>
    ensures { OnOk result (string_bytes text.new
        ≡ string_bytes text.old ++ json_open stretch.now) }
{
    match stretch {
        Some(stretch) => push_stretch(text, stretch),
        None => text.push_str("null"),
    }
}

fn push_stretch(text: &mut String, stretch: &Stretch) -> Result<(), AllocError>
    ensures { OnOk result (string_bytes text.new
        ≡ string_bytes text.old ++ json_stretch stretch.now) }
{
    push_kind(text, stretch)?;
    push_detail(text, stretch)?;
    push_seconds(text, stretch.seconds)?;
    push_span(text, stretch)
}

#[tactic(auto, unfolding(crate::specs::JsonText::json_kind))]
fn push_kind(text: &mut String, stretch: &Stretch) -> Result<(), AllocError>
    ensures { OnOk result (string_bytes text.new
        ≡ string_bytes text.old ++ json_kind stretch.now) }
{
    let line = stretch.line;
    let kind = kind_word(stretch.tale.kind());
    write!(text, "{{\"line\":{line},\"kind\":\"{kind}\"")
}

fn kind_word(kind: Kind) -> &'static str
    ensures { result.now ≡ kind_word kind }
{
    match kind {
        Kind::Agreed => "agreed",
        Kind::AnotherSecond => "another_second",
        Kind::AnotherMark => "another_mark",
        Kind::Late => "late",
        Kind::Early => "early",
        Kind::Faulty => "faulty",
        Kind::Poor => "poor",
        Kind::Silent => "silent",
    }
}

// What else is said of its kind.
fn push_detail(text: &mut String, stretch: &Stretch) -> Result<(), AllocError>
    ensures { OnOk result (string_bytes text.new
        ≡ string_bytes text.old ++ json_detail stretch.now.tale stretch.now) }
{
    match stretch.tale {
        Tale::AnotherSecond(offset) => push_offset(text, offset),
        Tale::Late(_) | Tale::Early(_) => push_off(text, stretch),
        Tale::Faulty(fault) => push_fault(text, fault),
        Tale::Poor(quality) => push_quality(text, quality),
        Tale::Agreed | Tale::AnotherMark | Tale::Silent => Ok(()),
    }
}

#[tactic(auto, unfolding(crate::specs::JsonText::json_offset))]
fn push_offset(text: &mut String, offset: Offset) -> Result<(), AllocError>
    ensures { OnOk result (string_bytes text.new ≡ string_bytes text.old ++ json_offset offset) }
{
    let Offset { ahead, behind } = offset;
    write!(text, ",\"ahead_s\":{ahead},\"behind_s\":{behind}")
}

#[tactic(auto, unfolding(crate::specs::JsonText::json_off))]
fn push_off(text: &mut String, stretch: &Stretch) -> Result<(), AllocError>
    ensures { OnOk result (string_bytes text.new
        ≡ string_bytes text.old ++ json_off stretch.now) }
{
    let least_us = stretch.least_us;
    let most_us = stretch.most_us;
    write!(text, ",\"least_us\":{least_us},\"most_us\":{most_us}")
}

#[tactic(auto, unfolding(crate::specs::JsonText::json_fault))]
fn push_fault(text: &mut String, fault: PortFault) -> Result<(), AllocError>
    ensures { OnOk result (string_bytes text.new ≡ string_bytes text.old ++ json_fault fault) }
{
    let number = number_of(fault);
    write!(text, ",\"fault\":{number}")
}

#[tactic(auto, unfolding(crate::specs::JsonText::json_quality))]
fn push_quality(text: &mut String, quality: u8) -> Result<(), AllocError>
    ensures { OnOk result (string_bytes text.new ≡ string_bytes text.old ++ json_quality quality) }
{
    write!(text, ",\"quality\":{quality}")
}

#[tactic(auto, unfolding(crate::specs::JsonText::json_seconds))]
fn push_seconds(text: &mut String, seconds: u64) -> Result<(), AllocError>
    ensures { OnOk result (string_bytes text.new ≡ string_bytes text.old ++ json_seconds seconds) }
{
    write!(text, ",\"seconds\":{seconds}")
}

#[tactic(auto, unfolding(crate::specs::JsonText::json_span))]
fn push_span(text: &mut String, stretch: &Stretch) -> Result<(), AllocError>
    ensures { OnOk result (string_bytes text.new
        ≡ string_bytes text.old ++ json_span stretch.now) }
{
    text.push_str(",\"first\":")?;
    push_moment(text, &stretch.first)?;
    text.push_str(",\"last\":")?;
    push_moment(text, &stretch.last)?;
    text.push_str("}")
}

#[tactic(auto, unfolding(crate::specs::JsonText::json_lines))]
fn push_lines(text: &mut String, lines: &[LineSeen<'_>]) -> Result<(), AllocError>
    ensures { OnOk result (string_bytes text.new ≡ string_bytes text.old ++ json_lines lines.now) }
{
    text.push_str(",\"lines\":[")?;
    push_seen(text, lines)?;
    text.push_str("]")
}

fn push_seen(text: &mut String, lines: &[LineSeen<'_>]) -> Result<(), AllocError>
    ensures { OnOk result (string_bytes text.new
        ≡ string_bytes text.old ++ joined json_line lines.now) }
{
    let [first, rest @ ..] = lines else {
        return Ok(());
    };
    push_line(text, first)?;
    for line in rest {
        text.push_str(",")?;
        push_line(text, line)?;
    }
    Ok(())
}

fn push_line(text: &mut String, line: &LineSeen<'_>) -> Result<(), AllocError>
    ensures { OnOk result (string_bytes text.new ≡ string_bytes text.old ++ json_line line.now) }
{
    push_named(text, line.name)?;
    push_inverted(text, line.is_inverted)?;
    push_counts(text, &line.seen.counts)
}

#[tactic(auto, unfolding(crate::specs::JsonText::json_named))]
fn push_named(text: &mut String, name: &[u8]) -> Result<(), AllocError>
    ensures { OnOk result (string_bytes text.new ≡ string_bytes text.old ++ json_named name.now) }
{
    text.push_str("{\"name\":\"")?;
    push_json_part(text, name)?;
    text.push_str("\"")
}

#[tactic(auto, unfolding(crate::specs::JsonText::json_inverted))]
fn push_inverted(text: &mut String, is_inverted: bool) -> Result<(), AllocError>
    ensures { OnOk result (string_bytes text.new
        ≡ string_bytes text.old ++ json_inverted is_inverted) }
{
    text.push_str(",\"inverted\":")?;
    push_bool(text, is_inverted)
}

#[tactic(auto, unfolding(crate::specs::JsonText::json_counts))]
fn push_counts(text: &mut String, counts: &Counts) -> Result<(), AllocError>
    ensures { OnOk result (string_bytes text.new
        ≡ string_bytes text.old ++ json_counts counts.now) }
{
    let pulses = counts.pulses;
    let frames = counts.frames;
    let out_of_step = counts.out_of_step;
    write!(
        text,
        ",\"pulses\":{pulses},\"frames\":{frames},\"out_of_step\":{out_of_step}}}"
    )
}

/// Pushes any bytes as a part of a string of JSON: plain ASCII as it is, but for the quotation mark
/// and the backslash, and any other byte as the character of its number. It fails only if there is
/// no memory.
pub fn push_json_part(text: &mut String, part: &[u8]) -> Result<(), AllocError>
    ensures { OnOk result (string_bytes text.new ≡ string_bytes text.old ++ json_name part.now) }
{
    for byte in part {
        push_byte(text, *byte)?;
    }
    Ok(())
}

fn push_byte(text: &mut String, byte: u8) -> Result<(), AllocError>
    ensures { OnOk result (string_bytes text.new ≡ string_bytes text.old ++ json_byte byte) }
{
    if is_plain(byte) && byte != b'"' {
        text.push(char::from(byte))
    } else {
        push_code(text, byte)
    }
}

fn push_code(text: &mut String, byte: u8) -> Result<(), AllocError>
    ensures { OnOk result (string_bytes text.new ≡ string_bytes text.old ++ json_code byte) }
{
    text.push_str("\\u00")?;
    push_digit(text, byte / 16)?;
    push_digit(text, byte % 16)
}
