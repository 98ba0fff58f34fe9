//! The lines of a log.

ghost use Rattle.std.specs.Prelude.{◌≡◌, ◌++◌, ◌<◌, ◌^◌, IfSome, OnOk, string_bytes, All};
ghost use Rattle.std.specs.Fmt.{decimal};
ghost use Rattle.irig_time.specs.Seconds.{IsValid};
ghost use Rattle.report_log.specs.Text.{name_at, texts_of, time_shown_text};
ghost use Rattle.irig_station_scene.specs.StationText.{bound_text, broken_text, distance_text, drift_text, false_table_text, instant_text, name_between, off_text, said_text, six_digits, stamp_text, stamped_text, station_audit_text, station_entry_text, station_text, told_if_shown, told_text};
ghost use Rattle.irig_simulated.specs.ToldSeconds.{IsToldOfUtc};
ghost use Rattle.irig_station.specs.ValidEntries.{IsValidEntry};

use indexmap::IndexSet;
use irig_reader::Report;
use irig_simulated::ToldSecond;
use irig_station::{Audit, Entry};
use irig_time::{UtcSecond, push_text};
use irig_timekeeper::Stamp;
use report_log::{cause_word, name_at, push_lock, push_number, push_time};
use std::alloc::AllocError;

const SECOND_US: u64 = 1_000_000;

/// Adds a line for each stamp and for each second that is announced, or that is told if all are shown.
/// Like all that adds to a text, it fails only if there is no memory.
#[tactic(auto, unfolding(crate::specs::StationText::station_text))]
pub fn push_station_entries(
    text: &mut String,
    names: &IndexSet<String>,
    entries: &[Entry],
    all: bool,
) -> Result<(), AllocError>
    requires { All IsValidEntry entries.now }
    ensures { OnOk result (string_bytes text.new ≡ string_bytes text.old
        ++ station_text (texts_of names.now.keys) all entries.now) }
{
    for entry in entries {
        push_entry(text, names, entry, all)?;
    }
    Ok(())
}

fn push_entry(
    text: &mut String,
    names: &IndexSet<String>,
    entry: &Entry,
    all: bool,
) -> Result<(), AllocError>
    requires { IsValidEntry entry.now }
    ensures { OnOk result (string_bytes text.new ≡ string_bytes text.old
        ++ station_entry_text (texts_of names.now.keys) all entry.now) }
{
    match entry {
        Entry::Told { device, told } => {
            if !all && told.beat.report.announce.is_none() {
                return Ok(());
            }
            push_told(text, name_at(names, *device), told)
        }
        Entry::Stamped {
            device,
            time_us,
            stamp,
        } => push_stamped(text, name_at(names, *device), *time_us, *stamp),
    }
}

#[tactic(auto, unfolding(crate::specs::StationText::told_text))]
fn push_told(text: &mut String, name: &str, told: &ToldSecond) -> Result<(), AllocError>
    requires { IsToldOfUtc told.now }
    ensures { OnOk result (string_bytes text.new
        ≡ string_bytes text.old ++ told_text name.now told.now) }
{
    push_number(text, told.edge)?;
    push_name(text, name)?;
    push_said(text, told.beat.report)?;
    push_distance(text, told)?;
    text.push_str("\n")
}

// Adds the name of a device, between blanks.
fn push_name(text: &mut String, name: &str) -> Result<(), AllocError>
    ensures { OnOk result (string_bytes text.new
        ≡ string_bytes text.old ++ name_between name.now) }
{
    text.push_str(" ")?;
    text.push_str(name)?;
    text.push_str(" ")
}

// Adds OFF BOUND, each after a blank.
fn push_distance(text: &mut String, told: &ToldSecond) -> Result<(), AllocError>
    ensures { OnOk result (string_bytes text.new
        ≡ string_bytes text.old ++ distance_text told.now) }
{
    text.push_str(" ")?;
    push_off(text, told.told_count, told.edge_count)?;
    text.push_str(" ")?;
    push_bound(text, told.beat.report.announce, told.beat.bound_us)
}

// Adds TIME LOCK CAUSE.
fn push_said(text: &mut String, report: Report) -> Result<(), AllocError>
    requires { IfSome report.announce IsValid }
    ensures { OnOk result (string_bytes text.new ≡ string_bytes text.old ++ said_text report) }
{
    push_time(text, report.announce)?;
    text.push_str(" ")?;
    push_lock(text, report.lock)?;
    text.push_str(" ")?;
    text.push_str(cause_word(report.cause))
}

/// Adds how far a count lies behind another, in microseconds, with its sign: `+` for behind it, also
/// for none, `-` for before it. It fails only if there is no memory.
pub fn push_off(text: &mut String, count: u64, other: u64) -> Result<(), AllocError>
    ensures { OnOk result (string_bytes text.new ≡ string_bytes text.old ++ off_text count other) }
{
    if count < other {
        text.push_str("-")?;
        push_number(text, other - count)
    } else {
        text.push_str("+")?;
        push_number(text, count - other)
    }
}

// Adds how far from its true edge a second may begin, if it is announced.
fn push_bound(
    text: &mut String,
    announce: Option<UtcSecond>,
    bound_us: u32,
) -> Result<(), AllocError>
    ensures { OnOk result (string_bytes text.new
        ≡ string_bytes text.old ++ bound_text announce bound_us) }
{
    match announce {
        None => text.push_str("-"),
        Some(_) => push_number(text, u64::from(bound_us)),
    }
}

#[tactic(auto, unfolding(crate::specs::StationText::stamped_text))]
fn push_stamped(
    text: &mut String,
    name: &str,
    time_us: u64,
    stamp: Option<Stamp>,
) -> Result<(), AllocError>
    requires { IfSome stamp (λ s. IsValid s.second) }
    ensures { OnOk result (string_bytes text.new
        ≡ string_bytes text.old ++ stamped_text name.now time_us stamp) }
{
    text.push_str("@")?;
    push_instant(text, time_us)?;
    push_name(text, name)?;
    push_stamp(text, stamp)?;
    text.push_str("\n")
}

// Adds SECONDS.MICROSECONDS.
fn push_instant(text: &mut String, time_us: u64) -> Result<(), AllocError>
    ensures { OnOk result (string_bytes text.new ≡ string_bytes text.old ++ instant_text time_us) }
{
    push_number(text, time_us / SECOND_US)?;
    text.push_str(".")?;
    push_six_digits(text, (time_us % SECOND_US) as u32)
}

fn push_six_digits(text: &mut String, number: u32) -> Result<(), AllocError>
    ensures { OnOk result (string_bytes text.new ≡ string_bytes text.old ++ six_digits number) }
{
    write!(text, "{number:06}")
}

// Adds TIME OFFSET BOUND, or three dashes.
fn push_stamp(text: &mut String, stamp: Option<Stamp>) -> Result<(), AllocError>
    requires { IfSome stamp (λ s. IsValid s.second) }
    ensures { OnOk result (string_bytes text.new ≡ string_bytes text.old ++ stamp_text stamp) }
{
    let Some(stamp) = stamp else {
        return text.push_str("- - -");
    };
    push_text(text, &stamp.second)?;
    text.push_str(" ")?;
    push_number(text, u64::from(stamp.offset_us))?;
    text.push_str(" ")?;
    push_number(text, u64::from(stamp.bound_us))
}

/// Adds the last line of a run that went to the end of its input.
#[tactic(auto, unfolding(crate::specs::StationText::station_audit_text))]
pub fn push_station_audit(
    text: &mut String,
    names: &IndexSet<String>,
    audit: Audit,
) -> Result<(), AllocError>
    ensures { OnOk result (string_bytes text.new
        ≡ string_bytes text.old ++ station_audit_text (texts_of names.now.keys) audit) }
{
    match audit {
        Audit::Kept => text.push_str("premises kept\n"),
        Audit::FalseTable { device } => push_false_table(text, name_at(names, device)),
        Audit::Drift { device } => push_drift(text, name_at(names, device)),
        Audit::Broken { device, edge } => push_broken(text, edge, name_at(names, device)),
    }
}

fn push_false_table(text: &mut String, name: &str) -> Result<(), AllocError>
    ensures { OnOk result (string_bytes text.new
        ≡ string_bytes text.old ++ false_table_text name.now) }
{
    write!(text, "premises broken: table of device {name}\n")
}

fn push_drift(text: &mut String, name: &str) -> Result<(), AllocError>
    ensures { OnOk result (string_bytes text.new ≡ string_bytes text.old ++ drift_text name.now) }
{
    write!(text, "premises broken: drift of device {name}\n")
}

fn push_broken(text: &mut String, edge: u64, name: &str) -> Result<(), AllocError>
    ensures { OnOk result (string_bytes text.new
        ≡ string_bytes text.old ++ broken_text edge name.now) }
{
    write!(text, "premises broken: edge {edge} device {name}\n")
}
