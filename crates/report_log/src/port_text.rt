//! The text of what ports told.

ghost use Rattle.std.specs.Prelude.{◌≡◌, ◌++◌, string_bytes, All, IfSome, OnOk};
ghost use Rattle.irig_time.specs.Seconds.{IsValid};
ghost use Rattle.irig_vote.specs.Vote.{IsOfUtc, AreOfUtc, ports_of};
ghost use Rattle.report_log.specs.Text.{
  claim_word,
  port_word,
  words_text,
  port_line,
  texts_of,
  tick_text,
  ticks_text,
};

use crate::shown::Shown;
use crate::text::{ReportText, name_at, push_entries, push_number};
use indexmap::IndexSet;
use irig_plant::Entry;
use irig_port::Told;
use irig_time::{Claim, push_text};
use irig_vote::Redundancy;
use std::alloc::AllocError;
use text_faults::push_fault;

/// Adds for each tick the line of its entry, if it has one, and then that of its ports.
pub fn push_ticks(
    text: &mut String,
    last: &mut ReportText,
    names: &IndexSet<String>,
    entries: &[Entry],
    shown: Shown,
) -> Result<(), AllocError>
    requires announced { All (λ entry. IfSome entry.report.announce IsValid) entries.now }
    requires told { All (λ entry. AreOfUtc entry.told) entries.now }
    ensures { OnOk result (string_bytes text.new ≡ string_bytes text.old
        ++ ticks_text (texts_of names.now.keys) shown.all entries.now) }
{
    for entry in entries {
        push_tick(text, last, names, entry, shown)?;
    }
    Ok(())
}

fn push_tick(
    text: &mut String,
    last: &mut ReportText,
    names: &IndexSet<String>,
    entry: &Entry,
    shown: Shown,
) -> Result<(), AllocError>
    requires announced { IfSome entry.now.report.announce IsValid }
    requires told { AreOfUtc entry.now.told }
    ensures { OnOk result (string_bytes text.new ≡ string_bytes text.old
        ++ tick_text (texts_of names.now.keys) shown.all entry.now) }
{
    push_entries(text, last, names, &[*entry], shown)?;
    push_port_line(text, names, entry)
}

#[tactic(auto, unfolding(crate::specs::Text::port_line))]
fn push_port_line(
    text: &mut String,
    names: &IndexSet<String>,
    entry: &Entry,
) -> Result<(), AllocError>
    requires { AreOfUtc entry.now.told }
    ensures { OnOk result (string_bytes text.new
        ≡ string_bytes text.old ++ port_line (texts_of names.now.keys) entry.now) }
{
    text.push_str(" ")?;
    push_number(text, entry.edge)?;
    text.push_str(" ")?;
    text.push_str(name_at(names, entry.reader))?;
    push_ports(text, entry)?;
    text.push_str("\n")
}

fn push_ports(text: &mut String, entry: &Entry) -> Result<(), AllocError>
    requires { AreOfUtc entry.now.told }
    ensures { OnOk result (string_bytes text.new ≡ string_bytes text.old
        ++ words_text entry.now.truth (ports_of entry.now.told entry.now.redundancy)) }
{
    let told = entry.told;
    match entry.redundancy {
        Redundancy::One => push_words(text, entry.truth, &[told.a]),
        Redundancy::Three => push_words(text, entry.truth, &[told.a, told.b, told.c]),
        Redundancy::Five => {
            let ports = [told.a, told.b, told.c, told.d, told.e];
            push_words(text, entry.truth, &ports)
        }
    }
}

fn push_words(text: &mut String, truth: Option<Claim>, ports: &[Told]) -> Result<(), AllocError>
    requires { All IsOfUtc ports.now }
    ensures { OnOk result (string_bytes text.new
        ≡ string_bytes text.old ++ words_text truth ports.now) }
{
    for told in ports {
        text.push_str(" ")?;
        push_word(text, truth, *told)?;
    }
    Ok(())
}

/// Adds the word of a port line for what a port told, if this is the true claim of its edge.
pub fn push_word(text: &mut String, truth: Option<Claim>, told: Told) -> Result<(), AllocError>
    requires { IsOfUtc told }
    ensures { OnOk result (string_bytes text.new
        ≡ string_bytes text.old ++ port_word truth told) }
{
    match told {
        Told::Silence => text.push_str("silence"),
        Told::Fault(fault) => {
            text.push_str("fault:")?;
            push_fault(text, ":", fault)
        }
        Told::Poor(quality) => {
            text.push_str("poor:")?;
            push_number(text, u64::from(quality))
        }
        Told::Claim(claim) => push_claim(text, truth, claim),
    }
}

fn push_claim(text: &mut String, truth: Option<Claim>, claim: Claim) -> Result<(), AllocError>
    requires { IsValid claim.at }
    ensures { OnOk result (string_bytes text.new
        ≡ string_bytes text.old ++ claim_word truth claim) }
{
    match truth {
        None => push_text(text, &claim.at),
        Some(truth) if claim.at != truth.at => push_text(text, &claim.at),
        Some(truth) if claim.mark != truth.mark => text.push_str(claim.mark.word()),
        Some(_) => text.push_str("ok"),
    }
}
