//! What the ticks of a reader come to, as records: what a tick ends, and what is open.

ghost use Rattle.std.specs.Prelude.{◌≡◌, ◌++◌, OnOk};
ghost use Rattle.report_found.specs.Findings.{port_found, silence_found, misled_found, ended_found, open_found};

use crate::account::Account;
use crate::finding::Finding;
use crate::misled::{Misled, ended_misled};
use crate::stretch::{Silence, Stretch, ended_by, ended_silence};
use crate::tick::Tick;
use std::alloc::AllocError;

/// Pushes all that a tick of a reader with so many ports ends.
pub(crate) fn push_ended(
    findings: &mut Vec<Finding>,
    ports: u8,
    account: &Account,
    tick: &Tick,
) -> Result<(), AllocError>
    ensures { OnOk result (findings.new.items ≡ findings.old.items
        ++ ended_found tick.now.entry.reader ports account.now tick.now) }
{
    let reader = tick.entry.reader;
    for port in 0..ports {
        let ended = ended_by(account.port(port).stretch, tick.kind(port));
        push_port(findings, reader, port, ended)?;
    }
    push_silence(findings, reader, ended_silence(account.silence, tick))?;
    push_misled(findings, reader, ended_misled(account.misled, tick))
}

/// Pushes all that is open.
pub(crate) fn push_open(
    findings: &mut Vec<Finding>,
    reader: u8,
    ports: u8,
    account: &Account,
) -> Result<(), AllocError>
    ensures { OnOk result (findings.new.items ≡ findings.old.items
        ++ open_found reader ports account.now) }
{
    for port in 0..ports {
        push_port(findings, reader, port, account.port(port).stretch)?;
    }
    push_silence(findings, reader, account.silence)?;
    push_misled(findings, reader, account.misled)
}

fn push_port(
    findings: &mut Vec<Finding>,
    reader: u8,
    port: u8,
    stretch: Option<Stretch>,
) -> Result<(), AllocError>
    ensures { OnOk result (findings.new.items
        ≡ findings.old.items ++ port_found reader port stretch) }
{
    if let Some(stretch) = stretch {
        findings.push(Finding::of_port(reader, port, &stretch))?;
    }
    Ok(())
}

fn push_silence(
    findings: &mut Vec<Finding>,
    reader: u8,
    silence: Option<Silence>,
) -> Result<(), AllocError>
    ensures { OnOk result (findings.new.items
        ≡ findings.old.items ++ silence_found reader silence) }
{
    if let Some(silence) = silence {
        findings.push(Finding::of_silence(reader, &silence))?;
    }
    Ok(())
}

fn push_misled(
    findings: &mut Vec<Finding>,
    reader: u8,
    misled: Option<Misled>,
) -> Result<(), AllocError>
    ensures { OnOk result (findings.new.items
        ≡ findings.old.items ++ misled_found reader misled) }
{
    if let Some(misled) = misled {
        findings.push(Finding::of_misled(reader, &misled))?;
    }
    Ok(())
}
