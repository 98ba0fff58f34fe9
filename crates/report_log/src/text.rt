//! The text of a log, and the last line of a run.

ghost use Rattle.std.specs.Prelude.{◌≡◌, ◌++◌, ◌||◌, is_some, codes, string_bytes, All, IfOk, IfSome, OnOk, IsTrue, Some};
ghost use Rattle.std.specs.Option.{ForSome};
ghost use Rattle.std.specs.Fmt.{decimal};
ghost use Rattle.irig_time.specs.Seconds.{IsValid};
ghost use Rattle.report_log.specs.Text.{
  lock_text,
  cause_text,
  time_shown_text,
  name_at,
  report_text,
  entry_text,
  entries_text,
  audit_text,
  refusal_text,
  texts_of,
};

use crate::shown::Shown;
use indexmap::IndexSet;
use irig_plant::{Audit, Entry};
use irig_reader::{Cause, Lock, Report};
use irig_time::{UtcSecond, push_text};
use itoa::Buffer;
use std::alloc::{AllocError, Global};
use text_faults::Refusal;

/// The text of the last report and of its edge, since readers that tick together mostly say the
/// same.
#[derive(Drop)]
pub struct ReportText {
    edge: EdgeText,
    report: Option<Report>,
    text: String,
    ghost exact: { ForSome report (λ report. string_bytes text ≡ report_text report) },
}

impl ReportText {
    /// The text of no report, to begin with.
    pub fn new(alloc: Global) -> ReportText {
        ReportText {
            edge: EdgeText {
                edge: None,
                text: String::new(alloc),
            },
            report: None,
            text: String::new(alloc),
        }
    }

    // The text of this report.
    fn of(&mut self, report: &Report) -> Result<&str, AllocError>
        requires { IfSome report.now.announce IsValid }
        ensures { IfOk result (λ text. text.now ≡ report_text report.now) }
    {
        if is_kept(&self.report, report) {
            return Ok(self.text.as_str());
        }
        self.report = None;
        self.text.clear();
        push_report(&mut self.text, *report)?;
        self.report = Some(*report);
        Ok(self.text.as_str())
    }
}

// The test of `==`, field by field.
fn is_kept(kept: &Option<Report>, report: &Report) -> bool
    ensures { IsTrue result → kept.now ≡ Some report.now }
{
    match kept {
        Some(kept) => {
            kept.announce == report.announce
                && kept.lock == report.lock
                && kept.cause == report.cause
        }
        None => false,
    }
}

// How the line of an entry begins: its edge and a blank.
#[derive(Drop)]
struct EdgeText {
    edge: Option<u64>,
    text: String,
    ghost exact: { ForSome edge (λ edge. string_bytes text ≡ decimal edge ++ codes " ") },
}

impl EdgeText {
    // The text of this edge.
    fn of(&mut self, edge: u64) -> Result<&str, AllocError>
        ensures { IfOk result (λ text. text.now ≡ decimal edge ++ codes " ") }
    {
        if matches!(self.edge, Some(kept) if kept == edge) {
            return Ok(self.text.as_str());
        }
        self.edge = None;
        self.text.clear();
        push_number(&mut self.text, edge)?;
        self.text.push_str(" ")?;
        self.edge = Some(edge);
        Ok(self.text.as_str())
    }
}

/// Adds a line for each entry with an announcement, or for each entry if all are shown. Like all
/// that adds to a text, it fails only if there is no memory.
pub fn push_entries(
    text: &mut String,
    last: &mut ReportText,
    names: &IndexSet<String>,
    entries: &[Entry],
    shown: Shown,
) -> Result<(), AllocError>
    requires { All (λ entry. IfSome entry.report.announce IsValid) entries.now }
    ensures { OnOk result (string_bytes text.new ≡ string_bytes text.old
        ++ entries_text (texts_of names.now.keys) shown.all entries.now) }
{
    for entry in entries {
        if is_written(entry, shown) {
            push_entry(text, last, names, entry)?;
        }
    }
    Ok(())
}

/// Whether an entry has a line.
fn is_written(entry: &Entry, shown: Shown) -> bool
    ensures { result ≡ (shown.all || is_some entry.now.report.announce) }
{
    shown.all || entry.report.announce.is_some()
}

/// Adds the line of one entry. It stands apart, so that an event without one costs no call.
#[inline(never)]
#[tactic(auto, unfolding(crate::specs::Text::entry_text))]
fn push_entry(
    text: &mut String,
    last: &mut ReportText,
    names: &IndexSet<String>,
    entry: &Entry,
) -> Result<(), AllocError>
    requires { IfSome entry.now.report.announce IsValid }
    ensures { OnOk result (string_bytes text.new
        ≡ string_bytes text.old ++ entry_text (texts_of names.now.keys) entry.now) }
{
    text.push_str(last.edge.of(entry.edge)?)?;
    text.push_str(name_at(names, entry.reader))?;
    text.push_str(last.of(&entry.report)?)
}

/// Adds a number in decimal. It fails only if there is no memory.
pub fn push_number(text: &mut String, number: u64) -> Result<(), AllocError>
    ensures { OnOk result (string_bytes text.new ≡ string_bytes text.old ++ decimal number) }
{
    text.push_str(Buffer::new().format(number))
}

/// Adds what a reader says, after a blank.
fn push_report(text: &mut String, report: Report) -> Result<(), AllocError>
    requires { IfSome report.announce IsValid }
    ensures { OnOk result (string_bytes text.new ≡ string_bytes text.old ++ report_text report) }
{
    text.push_str(" ")?;
    push_time(text, report.announce)?;
    text.push_str(" ")?;
    push_lock(text, report.lock)?;
    text.push_str(" ")?;
    text.push_str(cause_word(report.cause))?;
    text.push_str("\n")
}

/// The name of a reader by its number, and nothing past the last.
#[tactic(auto, using(crate::proofs::TextLaws::name_in_texts))]
pub fn name_at(names: &IndexSet<String>, reader: u8) -> &str
    ensures { result.now ≡ name_at (texts_of names.now.keys) reader }
{
    names
        .get_index(usize::from(reader))
        .map_or("", String::as_str)
}

/// Adds the second that is announced, or a dash. It fails only if there is no memory.
pub fn push_time(text: &mut String, announce: Option<UtcSecond>) -> Result<(), AllocError>
    requires { IfSome announce IsValid }
    ensures { OnOk result (string_bytes text.new
        ≡ string_bytes text.old ++ time_shown_text announce) }
{
    match announce {
        Some(second) => push_text(text, &second),
        None => text.push_str("-"),
    }
}

/// Adds whether a reader is locked. It fails only if there is no memory.
pub fn push_lock(text: &mut String, lock: Lock) -> Result<(), AllocError>
    ensures { OnOk result (string_bytes text.new ≡ string_bytes text.old ++ lock_text lock) }
{
    match lock {
        Lock::Unlocked => text.push_str("unlocked"),
        Lock::Acquiring(votes) => {
            text.push_str("acquiring:")?;
            push_number(text, u64::from(votes))
        }
        Lock::Locked => text.push_str("locked"),
        Lock::Holdover(age) => {
            text.push_str("holdover:")?;
            push_number(text, u64::from(age))
        }
    }
}

/// The word for a cause.
pub fn cause_word(cause: Cause) -> &'static str
    ensures { result.now ≡ cause_text cause }
{
    match cause {
        Cause::Voted => "voted",
        Cause::Held => "held",
        Cause::Acquiring => "acquiring",
        Cause::NoVote => "no-vote",
        Cause::Expired => "expired",
        Cause::LeapGuard => "leap-guard",
        Cause::Jump => "jump",
        Cause::RangeEnd => "range-end",
    }
}

/// Adds the last line of a run that went to the end of its input.
#[tactic(auto, unfolding(crate::specs::Text::audit_text))]
pub fn push_audit(
    text: &mut String,
    names: &IndexSet<String>,
    audit: Audit,
) -> Result<(), AllocError>
    ensures { OnOk result (string_bytes text.new
        ≡ string_bytes text.old ++ audit_text (texts_of names.now.keys) audit) }
{
    match audit {
        Audit::Kept => text.push_str("premises kept\n"),
        Audit::Broken { reader, edge } => {
            let name = name_at(names, reader);
            write!(text, "premises broken: edge {edge} reader {name}\n")
        }
        Audit::FalseTable { reader } => {
            let name = name_at(names, reader);
            write!(text, "premises broken: table of reader {name}\n")
        }
    }
}

/// Adds the last line of a run that a line's refusal ended.
#[tactic(auto, unfolding(crate::specs::Text::refusal_text))]
pub fn push_refusal(text: &mut String, line: u64, refusal: Refusal) -> Result<(), AllocError>
    ensures { OnOk result (string_bytes text.new
        ≡ string_bytes text.old ++ refusal_text line refusal) }
{
    let number = refusal.number();
    let name = refusal.name();
    write!(text, "refused: line {line}: {number} {name}\n")
}
