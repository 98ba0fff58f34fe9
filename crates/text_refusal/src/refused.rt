//! Why a line is refused.

ghost use Rattle.std.specs.Prelude.{IfOk, IfSome};
ghost use Rattle.serde_json.specs.View.{view};
ghost use Rattle.scenario_json.specs.Keys.{texts_of};
ghost use Rattle.text_refusal.specs.Lines.{IsRefusedAt, NamesPlace};

use crate::event::find_in_event;
use crate::plant::find_in_plant;
use indexmap::IndexSet;
use serde_json::Value;
use std::alloc::{AllocError, Global};
use text_faults::{Refusal, meaning_of};
use text_words::{Reason, reason_of_cause, reason_of_json, reason_of_long_line};

/// Where a plant stands as a line is refused.
#[derive(Clone, Copy)]
pub struct PlantContext<'a> {
    /// Whether it has devices in place of readers.
    pub has_devices: bool,
    /// The names of its readers or devices, in order; none before the plant line.
    pub names: &'a IndexSet<String>,
    /// The edge at which each generator stands; of devices any.
    pub edges: &'a [u64],
}

/// Why a line of a scenario, without its newline, is refused so, in one line: the place, what
/// stands there, and what may stand there. Fails only if there is no memory.
pub fn why_refused(
    alloc: Global,
    refusal: Refusal,
    line: &[u8],
    context: &PlantContext<'_>,
) -> Result<Reason, AllocError>
    // the place that it names is one at which the line is refused so
    ensures { IfOk result (λ reason. IfSome reason.place (NamesPlace context.now.has_devices refusal
        (texts_of context.now.names.now.keys) context.now.edges.now line.now)) }
{
    match refusal {
        Refusal::EndOfYears | Refusal::NoPlant | Refusal::TooManyLines => {
            reason_of_cause(alloc, cause_of(refusal))
        }
        Refusal::TooLong => reason_of_long_line(alloc, cause_of(refusal), line),
        _ => reason_in_line(alloc, refusal, line, context),
    }
}

// What the refusal means wherever it stands.
fn cause_of(refusal: Refusal) -> &'static str {
    match meaning_of(refusal.number()) {
        Some(meaning) => meaning.cause,
        None => "",
    }
}

#[tactic(auto, using(scenario_json::proofs::JsonLaws::json_of_text))]
fn reason_in_line(
    alloc: Global,
    refusal: Refusal,
    line: &[u8],
    context: &PlantContext<'_>,
) -> Result<Reason, AllocError>
    ensures { IfOk result (λ reason. IfSome reason.place (NamesPlace context.now.has_devices refusal
        (texts_of context.now.names.now.keys) context.now.edges.now line.now)) }
{
    match Value::from_slice(alloc, line) {
        Ok(value) => reason_in_value(alloc, refusal, &value, context),
        Err(error) if error.is_memory() => Err(AllocError),
        Err(error) => reason_of_json(alloc, &error, line),
    }
}

fn reason_in_value(
    alloc: Global,
    refusal: Refusal,
    value: &Value,
    context: &PlantContext<'_>,
) -> Result<Reason, AllocError>
    ensures { IfOk result (λ reason. IfSome reason.place
        (IsRefusedAt context.now.has_devices refusal (texts_of context.now.names.now.keys)
        context.now.edges.now (view value.now))) }
{
    let misfit = match context.names.len() {
        0 => find_in_plant(alloc, refusal, value)?,
        1..=16 => find_in_event(refusal, value, context),
        // No plant has more readers.
        _ => None,
    };
    match misfit {
        Some(misfit) => misfit.reason(alloc),
        None => reason_of_cause(alloc, cause_of(refusal)),
    }
}
