//! The text of when something was, and of how far a second was from the true one.

ghost use Rattle.std.specs.Prelude.{◌≡◌, ◌++◌, IfSome, OnOk, string_bytes};
ghost use Rattle.irig_time.specs.Seconds.{IsValid};
ghost use Rattle.report_log.specs.Whens.{seconds_from, edges_text, when_text, unit_text, span_text, offset_text, offsets_text};

use crate::offset::Offset;
use irig_time::{UtcSecond, push_text};
use std::alloc::AllocError;

/// Pushes the seconds, if they are known, and the edges, from the first tick to the last.
pub fn push_when(
    text: &mut String,
    edges: (u64, u64),
    seconds: (Option<UtcSecond>, Option<UtcSecond>),
) -> Result<(), AllocError>
    requires from { IfSome seconds.0 IsValid }
    requires to { IfSome seconds.1 IsValid }
    ensures { OnOk result (string_bytes text.new ≡ string_bytes text.old
        ++ when_text edges.0 edges.1 seconds.0 seconds.1) }
{
    push_seconds_from(text, edges.0 == edges.1, seconds.0, seconds.1)?;
    push_edges(text, edges.0, edges.1)
}

fn push_seconds_from(
    text: &mut String,
    single: bool,
    from: Option<UtcSecond>,
    to: Option<UtcSecond>,
) -> Result<(), AllocError>
    requires from { IfSome from IsValid }
    requires to { IfSome to IsValid }
    ensures { OnOk result (string_bytes text.new
        ≡ string_bytes text.old ++ seconds_from single from to) }
{
    let (Some(from), Some(to)) = (from, to) else {
        return Ok(());
    };
    push_text(text, &from)?;
    if !single {
        text.push_str(" to ")?;
        push_text(text, &to)?;
    }
    text.push_str(", ")
}

#[tactic(auto, unfolding(crate::specs::Whens::edges_text))]
fn push_edges(text: &mut String, first: u64, last: u64) -> Result<(), AllocError>
    ensures { OnOk result (string_bytes text.new
        ≡ string_bytes text.old ++ edges_text first last) }
{
    if first == last {
        write!(text, "edge {first}: ")
    } else {
        write!(text, "edges {first} to {last}: ")
    }
}

/// Pushes how far a second was from the true one, at all ticks or at the first and at the last.
pub fn push_offsets(
    text: &mut String,
    steady: bool,
    first: Option<Offset>,
    last: Option<Offset>,
) -> Result<(), AllocError>
    ensures { OnOk result (string_bytes text.new
        ≡ string_bytes text.old ++ offsets_text steady first last) }
{
    let (Some(first), Some(last)) = (first, last) else {
        return Ok(());
    };
    text.push_str(", ")?;
    push_offset(text, first)?;
    if steady {
        return Ok(());
    }
    text.push_str(" at first, ")?;
    push_offset(text, last)?;
    text.push_str(" at last")
}

/// Pushes how far a second was from the true one, as `18 s ahead`.
pub fn push_offset(text: &mut String, offset: Offset) -> Result<(), AllocError>
    ensures { OnOk result (string_bytes text.new
        ≡ string_bytes text.old ++ offset_text offset) }
{
    if offset.behind == 0 {
        push_span(text, offset.ahead)?;
        text.push_str("ahead")
    } else {
        push_span(text, offset.behind)?;
        text.push_str("behind")
    }
}

#[tactic(auto, unfolding(crate::specs::Whens::span_text))]
fn push_span(text: &mut String, seconds: u64) -> Result<(), AllocError>
    ensures { OnOk result (string_bytes text.new
        ≡ string_bytes text.old ++ span_text seconds) }
{
    push_unit(text, seconds / 86_400, "d")?;
    push_unit(text, seconds / 3_600 % 24, "h")?;
    push_unit(text, seconds / 60 % 60, "min")?;
    push_unit(text, seconds % 60, "s")
}

#[tactic(auto, unfolding(crate::specs::Whens::unit_text))]
fn push_unit(text: &mut String, number: u64, unit: &str) -> Result<(), AllocError>
    ensures { OnOk result (string_bytes text.new
        ≡ string_bytes text.old ++ unit_text number unit.now) }
{
    if number == 0 {
        return Ok(());
    }
    write!(text, "{number} {unit} ")
}
