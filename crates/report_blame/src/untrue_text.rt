//! The text of untrue seconds, and of what they rest on.

ghost use Rattle.std.specs.Prelude.{◌≡◌, ◌++◌, OnOk, string_bytes};
ghost use Rattle.report_found.specs.Findings.{lists_below};
ghost use Rattle.report_blame.specs.Text.{carrier_text, basis_text, basis_line, untrue_text, numbered};

use crate::line_text::{push_port, untrue_seconds};
use report_found::{Basis, Offsets, Untrue};
use report_log::push_offsets;
use std::alloc::AllocError;

// How many ports a reader has at most.
const PORTS: u8 = 5;

/// Pushes what is said of untrue seconds.
#[tactic(auto, unfolding(crate::specs::Text::untrue_text))]
pub(crate) fn push_untrue(
    text: &mut String,
    lines: &str,
    name: &str,
    untrue: &Untrue,
) -> Result<(), AllocError>
    ensures { OnOk result (string_bytes text.new
        ≡ string_bytes text.old ++ untrue_text lines.now name.now untrue.now) }
{
    let Untrue { offsets, basis } = *untrue;
    let Offsets {
        first,
        last,
        steady,
    } = offsets;
    text.push_str(name)?;
    text.push_str(untrue_seconds(lines))?;
    push_offsets(text, steady, first, last)?;
    push_basis_line(text, lines, basis)
}

fn push_basis_line(text: &mut String, lines: &str, basis: Option<Basis>) -> Result<(), AllocError>
    ensures { OnOk result (string_bytes text.new
        ≡ string_bytes text.old ++ basis_line lines.now basis) }
{
    match basis {
        Some(basis) => push_basis(text, lines, &basis),
        None => text.push_str("\n"),
    }
}

#[tactic(auto, unfolding(crate::specs::Text::basis_text))]
fn push_basis(text: &mut String, lines: &str, basis: &Basis) -> Result<(), AllocError>
    ensures { OnOk result (string_bytes text.new
        ≡ string_bytes text.old ++ basis_text lines.now basis.now) }
{
    if basis.is_true {
        return text.push_str(", held by its table\n");
    }
    text.push_str(", as ")?;
    push_carriers(text, lines, basis)?;
    let edge = basis.edge;
    write!(text, " told at edge {edge}\n")
}

// The ports that told what was voted.
fn push_carriers(text: &mut String, lines: &str, basis: &Basis) -> Result<(), AllocError>
    ensures { OnOk result (string_bytes text.new
        ≡ string_bytes text.old ++ lists_below (carrier_text lines.now basis.now) 5) }
{
    let mut is_first = true;
    for port in 0..PORTS {
        if basis.is_carrier(port) {
            push_carrier(text, lines, is_first, port)?;
            is_first = false;
        }
    }
    Ok(())
}

fn push_carrier(text: &mut String, lines: &str, is_first: bool, port: u8) -> Result<(), AllocError>
    ensures { OnOk result (string_bytes text.new ≡ string_bytes text.old
        ++ numbered lines.now is_first port) }
{
    if !is_first {
        text.push_str(", ")?;
    }
    push_port(text, lines, port)
}
