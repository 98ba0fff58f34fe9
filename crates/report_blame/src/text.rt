//! The text of what was found, and of totals.

ghost use Rattle.std.specs.Prelude.{◌≡◌, ◌++◌, [], All, slice_index_or, string_bytes, vec_len, OnOk};
ghost use Rattle.irig_vote.specs.Vote.{IsOfUtc};
ghost use Rattle.report_log.specs.Text.{name_at, texts_of};
ghost use Rattle.report_found.specs.Accounts.{account_of};
ghost use Rattle.report_found.specs.Findings.{lists_below};
ghost use Rattle.report_found.specs.Soundness.{IsSoundFinding, IsSoundWrong};
ghost use Rattle.report_blame.specs.Reaches.{reach_at};
ghost use Rattle.report_blame.specs.Text.{
  meaning_text,
  kind_text,
  distance_text,
  first_text,
  seconds_text,
  price_text,
  port_wrong_text,
  silence_text,
  wrong_text,
  finding_text,
  findings_text,
  totals_line,
  port_totals_line,
  total_lines,
};

use crate::line_text::{push_port, untrue_word};
use crate::reach::{Reach, reach_at};
use crate::reach_text::push_reach;
use crate::untrue_text::push_untrue;
use indexmap::IndexSet;
use irig_reader::Cause;
use report_found::{Account, Book, Finding, Kind, Offsets, PortAccount, PortWrong, Wrong};
use report_log::{cause_word, name_at, push_offsets, push_when, push_word};
use std::alloc::AllocError;

/// Pushes the lines of what was found, of readers with these names.
pub(crate) fn push_findings(
    text: &mut String,
    lines: &str,
    names: &IndexSet<String>,
    findings: &[Finding],
) -> Result<(), AllocError>
    requires { All IsSoundFinding findings.now }
    ensures { OnOk result (string_bytes text.new ≡ string_bytes text.old
        ++ findings_text lines.now (texts_of names.now.keys) findings.now) }
{
    for finding in findings {
        push_finding(text, lines, names, finding)?;
    }
    Ok(())
}

fn push_finding(
    text: &mut String,
    lines: &str,
    names: &IndexSet<String>,
    finding: &Finding,
) -> Result<(), AllocError>
    requires { IsSoundFinding finding.now }
    ensures { OnOk result (string_bytes text.new ≡ string_bytes text.old
        ++ finding_text lines.now (texts_of names.now.keys) finding.now) }
{
    let Finding {
        reader,
        first,
        last,
        first_second,
        last_second,
        wrong,
    } = finding;
    push_when(text, (*first, *last), (*first_second, *last_second))?;
    push_wrong(text, lines, name_at(names, *reader), wrong)
}

fn push_wrong(text: &mut String, lines: &str, name: &str, wrong: &Wrong) -> Result<(), AllocError>
    requires { IsSoundWrong wrong.now }
    ensures { OnOk result (string_bytes text.new
        ≡ string_bytes text.old ++ wrong_text lines.now name.now wrong.now) }
{
    match wrong {
        Wrong::Port(wrong) => push_port_wrong(text, lines, name, wrong),
        Wrong::Silence(cause) => push_silence(text, name, *cause),
        Wrong::Untrue(untrue) => push_untrue(text, lines, name, untrue),
    }
}

/// Pushes the totals, reader by reader, or device by device. `reaches` has how far off the seconds of
/// each device lay, and nothing of readers.
pub(crate) fn push_book_totals(
    text: &mut String,
    lines: &str,
    names: &IndexSet<String>,
    book: &Book,
    reaches: &[Option<Reach>],
) -> Result<(), AllocError>
    ensures { OnOk result (string_bytes text.new ≡ string_bytes text.old ++ lists_below
        (λ r. total_lines lines.now (name_at (texts_of names.now.keys) r) (reach_at reaches.now r)
        book.now.ports (slice_index_or book.now.accounts.items r (account_of [])))
        (vec_len book.now.accounts)) }
{
    for reader in 0..book.readers() {
        let name = name_at(names, reader);
        let reach = reach_at(reaches, reader);
        push_totals(text, lines, name, reach, book.ports(), book.account(reader))?;
    }
    Ok(())
}

// Pushes the totals of a reader or device, how far off its seconds lay, and the totals of its ports.
fn push_totals(
    text: &mut String,
    lines: &str,
    name: &str,
    reach: Option<Reach>,
    ports: u8,
    account: &Account,
) -> Result<(), AllocError>
    ensures { OnOk result (string_bytes text.new ≡ string_bytes text.old
        ++ total_lines lines.now name.now reach ports account.now) }
{
    push_reader_totals(text, lines, name, account)?;
    push_reach(text, name, reach)?;
    for port in 0..ports {
        push_port_totals(text, lines, name, port, account.port(port))?;
    }
    Ok(())
}

#[tactic(auto, unfolding(crate::specs::Text::totals_line))]
fn push_reader_totals(
    text: &mut String,
    lines: &str,
    name: &str,
    account: &Account,
) -> Result<(), AllocError>
    ensures { OnOk result (string_bytes text.new
        ≡ string_bytes text.old ++ totals_line lines.now name.now account.now) }
{
    let Account {
        edges,
        announced,
        untrue,
        ..
    } = *account;
    let silent = edges.saturating_sub(announced);
    let word = untrue_word(lines);
    write!(
        text,
        "{name}: {edges} edges, {announced} announced, {untrue} {word}, {silent} silent\n"
    )
}

#[tactic(auto, unfolding(crate::specs::Text::port_totals_line))]
fn push_port_totals(
    text: &mut String,
    lines: &str,
    name: &str,
    port: u8,
    account: &PortAccount,
) -> Result<(), AllocError>
    ensures { OnOk result (string_bytes text.new
        ≡ string_bytes text.old ++ port_totals_line lines.now name.now port account.now) }
{
    let PortAccount {
        agreed,
        silent,
        faulty,
        poor,
        another_second,
        another_mark,
        ..
    } = *account;
    push_port(text, lines, port)?;
    write!(text, " of {name}: {agreed} agreed, {silent} silent, ")?;
    write!(text, "{faulty} faulty, {poor} poor, ")?;
    write!(
        text,
        "{another_second} another second, {another_mark} another mark\n"
    )
}

#[tactic(auto, unfolding(crate::specs::Text::port_wrong_text))]
fn push_port_wrong(
    text: &mut String,
    lines: &str,
    name: &str,
    wrong: &PortWrong,
) -> Result<(), AllocError>
    requires { IsOfUtc wrong.now.told }
    ensures { OnOk result (string_bytes text.new
        ≡ string_bytes text.old ++ port_wrong_text lines.now name.now wrong.now) }
{
    let did = kind_text(wrong.kind);
    push_port(text, lines, wrong.port)?;
    write!(text, " of {name} {did}")?;
    push_distance(text, wrong)?;
    push_first(text, wrong)?;
    push_price(text, lines, name, wrong)
}

// What the reader announced meanwhile.
#[tactic(auto, unfolding(crate::specs::Text::price_text))]
fn push_price(
    text: &mut String,
    lines: &str,
    name: &str,
    wrong: &PortWrong,
) -> Result<(), AllocError>
    ensures { OnOk result (string_bytes text.new
        ≡ string_bytes text.old ++ price_text lines.now name.now wrong.now) }
{
    write!(text, "; {name} announced ")?;
    let untrue = if wrong.kind.is_lie() { wrong.untrue } else { 0 };
    push_seconds(text, lines, wrong.announced, untrue)
}

// How far what the port claimed was from the true second, if it claimed another one.
fn push_distance(text: &mut String, wrong: &PortWrong) -> Result<(), AllocError>
    ensures { OnOk result (string_bytes text.new
        ≡ string_bytes text.old ++ distance_text wrong.now) }
{
    if !wrong.kind.is(Kind::AnotherSecond) {
        return Ok(());
    }
    let Offsets {
        first,
        last,
        steady,
    } = wrong.offsets;
    push_offsets(text, steady, first, last)
}

// What a port did wrong.
fn kind_text(kind: Kind) -> &'static str
    ensures { result.now ≡ kind_text kind }
{
    match kind {
        Kind::Agreed => "agreed",
        Kind::Silent => "was silent",
        Kind::Faulty => "was faulty",
        Kind::Poor => "was poor",
        Kind::AnotherSecond => "told another second",
        Kind::AnotherMark => "told another mark",
    }
}

// The first of the words, unless nothing came.
fn push_first(text: &mut String, wrong: &PortWrong) -> Result<(), AllocError>
    requires { IsOfUtc wrong.now.told }
    ensures { OnOk result (string_bytes text.new
        ≡ string_bytes text.old ++ first_text wrong.now) }
{
    if wrong.kind.is(Kind::Silent) {
        return Ok(());
    }
    text.push_str(", first ")?;
    push_word(text, wrong.truth, wrong.told)
}

// How many seconds were announced, and how many of them were untrue.
#[tactic(auto, unfolding(crate::specs::Text::seconds_text))]
fn push_seconds(
    text: &mut String,
    lines: &str,
    announced: u64,
    untrue: u64,
) -> Result<(), AllocError>
    ensures { OnOk result (string_bytes text.new
        ≡ string_bytes text.old ++ seconds_text lines.now announced untrue) }
{
    let word = untrue_word(lines);
    match (announced, untrue) {
        (0, _) => text.push_str("nothing\n"),
        (1, 0) => text.push_str("1 second\n"),
        (1, _) => write!(text, "1 second, {word}\n"),
        (_, 0) => write!(text, "{announced} seconds\n"),
        _ => write!(text, "{announced} seconds, {untrue} of them {word}\n"),
    }
}

#[tactic(auto, unfolding(crate::specs::Text::silence_text))]
fn push_silence(text: &mut String, name: &str, cause: Cause) -> Result<(), AllocError>
    ensures { OnOk result (string_bytes text.new
        ≡ string_bytes text.old ++ silence_text name.now cause) }
{
    let word = cause_word(cause);
    let meaning = cause_meaning(cause);
    write!(text, "{name} announced nothing: {word}, {meaning}\n")
}

/// What a cause means, in a few plain words.
fn cause_meaning(cause: Cause) -> &'static str
    ensures { result.now ≡ meaning_text cause }
{
    match cause {
        Cause::Voted => "most ports told the second that had just ended",
        Cause::Held => "there was no vote, and the reader counted on",
        Cause::Acquiring => "not yet enough votes in a row",
        Cause::NoVote => "there was no vote, and nothing to count from",
        Cause::Expired => "there was no vote for longer than the holdover",
        Cause::LeapGuard =>
            "a month ended, and nothing told if a leap second came, or the frames and the leap table contradicted one another",
        Cause::Jump => "the vote was for another second than the one that followed",
        Cause::RangeEnd => "the next second would have been after 2099-12-30",
    }
}
