//! The text of a verdict.

ghost use Rattle.std.specs.Prelude.{◌≡◌, ◌++◌, string_bytes, OnOk};
ghost use Rattle.report_verdict.specs.VerdictText.{
  agreed_line,
  agreed_words,
  apart_line,
  begins_line,
  contradict_words,
  decided_text,
  differs,
  jump_line,
  jumps_line,
  jumps_more,
  lines_text,
  moment_after,
  month_line,
  month_words,
  others_from,
  others_line,
  others_words,
  same_line,
  undecided_line,
  verdict_text,
  wrong_text,
  zero_line,
};

use crate::line_seen::{LineSeen, push_line};
use crate::number_text::{
    nearest, push_instant, push_moment, push_seconds, push_thousandths, push_utc,
};
use crate::stretch_text::{push_more, push_stretches, push_unended};
use irig_time::UtcSecond;
use record_verdict::{AgreedSecond, Jump, Jumps, Verdict, Zero, zero_at};
use std::alloc::AllocError;

/// Pushes the text of a verdict: where most lines contradict themselves; which line is wrong, since when and by how much; on which seconds most
/// lines agree; when the recording begins; and what was seen on each line. It fails only if there is no
/// memory.
pub fn push_verdict(
    text: &mut String,
    verdict: &Verdict,
    lines: &[LineSeen<'_>],
) -> Result<(), AllocError>
    ensures { OnOk result (string_bytes text.new
        ≡ string_bytes text.old ++ verdict_text verdict.now lines.now) }
{
    push_judgement(text, verdict, lines)?;
    push_lines(text, lines)
}

fn push_judgement(
    text: &mut String,
    verdict: &Verdict,
    lines: &[LineSeen<'_>],
) -> Result<(), AllocError>
    ensures { OnOk result (string_bytes text.new
        ≡ string_bytes text.old ++ decided_text verdict.now lines.now) }
{
    match (&verdict.first, &verdict.last) {
        (Some(first), Some(last)) => {
            push_jumps(text, verdict.lines, &verdict.jumps)?;
            push_wrong(text, verdict, lines)?;
            push_agreed(text, verdict, first, last)?;
            push_others(text, verdict.without_vote, verdict.first_without_us)?;
            push_apart(text, verdict)?;
            push_zero(text, zero_at(first))
        }
        _ => text.push_str(undecided_line(verdict.lines)),
    }
}

// Where what most lines claim contradicts itself.
fn push_jumps(text: &mut String, lines: u8, jumps: &Jumps) -> Result<(), AllocError>
    ensures { OnOk result (string_bytes text.new
        ≡ string_bytes text.old ++ jumps_line lines jumps.now) }
{
    match &jumps.first {
        Some(jump) => push_jump(text, lines, jump, jumps.count),
        None => Ok(()),
    }
}

fn push_jump(text: &mut String, lines: u8, jump: &Jump, count: u64) -> Result<(), AllocError>
    ensures { OnOk result (string_bytes text.new
        ≡ string_bytes text.old ++ jump_line lines jump.now count) }
{
    push_moment_after(text, contradict_words(lines), &jump.before)?;
    push_moment_after(text, " is followed by ", &jump.after)?;
    push_count_of_jumps(text, count)
}

#[tactic(auto, unfolding(crate::specs::VerdictText::moment_after))]
fn push_moment_after(
    text: &mut String,
    words: &str,
    second: &AgreedSecond,
) -> Result<(), AllocError>
    ensures { OnOk result (string_bytes text.new
        ≡ string_bytes text.old ++ moment_after words.now second.now) }
{
    text.push_str(words)?;
    push_moment(text, second)
}

fn contradict_words(lines: u8) -> &'static str
    ensures { result.now ≡ contradict_words lines }
{
    if lines == 1 {
        "the line contradicts itself: "
    } else {
        "most lines contradict themselves: "
    }
}

#[tactic(auto, unfolding(crate::specs::VerdictText::jumps_more))]
fn push_count_of_jumps(text: &mut String, count: u64) -> Result<(), AllocError>
    ensures { OnOk result (string_bytes text.new ≡ string_bytes text.old ++ jumps_more count) }
{
    if count == 1 {
        return text.push_str("\n");
    }
    write!(text, ", the first of {count} jumps\n")
}

// What is wrong with lines.
fn push_wrong(
    text: &mut String,
    verdict: &Verdict,
    lines: &[LineSeen<'_>],
) -> Result<(), AllocError>
    ensures { OnOk result (string_bytes text.new
        ≡ string_bytes text.old ++ wrong_text verdict.now lines.now) }
{
    if !differs(verdict) {
        return text.push_str(same_line(verdict.lines));
    }
    push_stretches(text, lines, &verdict.ended.kept)?;
    push_more(text, verdict.ended.more)?;
    push_unended(text, lines, &verdict.unended)
}

// Whether any line is wrong.
fn differs(verdict: &Verdict) -> bool
    ensures { result ≡ differs verdict.now }
{
    !verdict.ended.kept.is_empty()
        || verdict.unended.a.is_some()
        || verdict.unended.b.is_some()
        || verdict.unended.c.is_some()
        || verdict.unended.d.is_some()
        || verdict.unended.e.is_some()
}

fn same_line(lines: u8) -> &'static str
    ensures { result.now ≡ same_line lines }
{
    if lines == 1 {
        "one line alone: no other can outvote it\n"
    } else {
        "no line differs\n"
    }
}

fn undecided_line(lines: u8) -> &'static str
    ensures { result.now ≡ undecided_line lines }
{
    if lines == 1 {
        "undecided: the line has no whole frame that claims a second\n"
    } else {
        "undecided: most lines never claim one second in frames that end near one another\n"
    }
}

#[tactic(auto, unfolding(crate::specs::VerdictText::agreed_line))]
fn push_agreed(
    text: &mut String,
    verdict: &Verdict,
    first: &AgreedSecond,
    last: &AgreedSecond,
) -> Result<(), AllocError>
    ensures { OnOk result (string_bytes text.new
        ≡ string_bytes text.old ++ agreed_line verdict.now first.now last.now) }
{
    text.push_str(agreed_words(verdict.lines))?;
    push_seconds(text, verdict.agreed, first, last)?;
    text.push_str("\n")
}

fn agreed_words(lines: u8) -> &'static str
    ensures { result.now ≡ agreed_words lines }
{
    if lines == 1 {
        "the line claims "
    } else {
        "most lines agree on "
    }
}

// How many seconds were counted on which they do not agree, and where the first of them ends.
fn push_others(text: &mut String, seconds: u64, first_us: Option<u64>) -> Result<(), AllocError>
    ensures { OnOk result (string_bytes text.new
        ≡ string_bytes text.old ++ others_line seconds first_us) }
{
    match first_us {
        Some(first_us) => push_others_from(text, seconds, first_us),
        None => Ok(()),
    }
}

fn push_others_from(text: &mut String, seconds: u64, first_us: u64) -> Result<(), AllocError>
    ensures { OnOk result (string_bytes text.new
        ≡ string_bytes text.old ++ others_from seconds first_us) }
{
    push_others_words(text, seconds)?;
    push_thousandths(text, nearest(first_us))?;
    text.push_str(" s\n")
}

#[tactic(auto, unfolding(crate::specs::VerdictText::others_words))]
fn push_others_words(text: &mut String, seconds: u64) -> Result<(), AllocError>
    ensures { OnOk result (string_bytes text.new ≡ string_bytes text.old ++ others_words seconds) }
{
    if seconds == 1 {
        return text.push_str("1 more second has no vote, at ");
    }
    write!(text, "{seconds} more seconds have no vote, the first at ")
}

#[tactic(auto, unfolding(crate::specs::VerdictText::apart_line))]
fn push_apart(text: &mut String, verdict: &Verdict) -> Result<(), AllocError>
    ensures { OnOk result (string_bytes text.new
        ≡ string_bytes text.old ++ apart_line verdict.now) }
{
    if verdict.lines == 1 {
        return Ok(());
    }
    let apart_us = verdict.apart_us;
    write!(
        text,
        "the lines that agree are at most {apart_us} us apart\n"
    )
}

fn push_zero(text: &mut String, zero: Zero) -> Result<(), AllocError>
    ensures { OnOk result (string_bytes text.new ≡ string_bytes text.old ++ zero_line zero) }
{
    match zero {
        Zero::At { second, since_us } => push_begins(text, &second, since_us),
        Zero::Undecided { day } => push_month(text, &UtcSecond { day, sod: 86_399 }),
        Zero::OutOfYears => {
            text.push_str("the recording does not begin between 2000-01-02 and 2099-12-30\n")
        }
    }
}

#[tactic(auto, unfolding(crate::specs::VerdictText::begins_line))]
fn push_begins(text: &mut String, second: &UtcSecond, since_us: u32) -> Result<(), AllocError>
    ensures { OnOk result (string_bytes text.new
        ≡ string_bytes text.old ++ begins_line second.now since_us) }
{
    text.push_str("0.000 s of the recording is ")?;
    push_instant(text, second, since_us)?;
    text.push_str("\n")
}

#[tactic(auto, unfolding(crate::specs::VerdictText::month_line))]
fn push_month(text: &mut String, last: &UtcSecond) -> Result<(), AllocError>
    ensures { OnOk result (string_bytes text.new ≡ string_bytes text.old ++ month_line last.now) }
{
    text.push_str(month_words())?;
    push_utc(text, last)?;
    text.push_str("\n")
}

#[tactic(auto, unfolding(crate::specs::VerdictText::month_words))]
fn month_words() -> &'static str
    ensures { result.now ≡ month_words }
{
    "undecided when the recording begins: no frame says if a leap second follows "
}

// What was seen on each line.
fn push_lines(text: &mut String, lines: &[LineSeen<'_>]) -> Result<(), AllocError>
    ensures { OnOk result (string_bytes text.new ≡ string_bytes text.old ++ lines_text lines.now) }
{
    for line in lines {
        push_line(text, line)?;
    }
    Ok(())
}
