//! What is wrong with a line after the plant line.

ghost use Rattle.std.specs.Prelude.{◌≡◌, ◌≤◌, IfSome, false, is_some, length, map, option_map, true};
ghost use Rattle.serde_json.specs.View.{view};
ghost use Rattle.scenario_json.specs.Fields.{reader_at};
ghost use Rattle.scenario_json.specs.Keys.{key_value, texts_of};
ghost use Rattle.scenario_values.specs.Forms.{r};
ghost use Rattle.text_refusal.specs.Lines.{event_keys, has_event_form, has_event_values, has_generator, has_reached, is_event_refused};

use crate::place::in_line;
use crate::refused::PlantContext;
use crate::shape::find_in_shape;
use crate::value::find_in_values;
use indexmap::IndexSet;
use scenario_devices::{STATION_ACTION_WORDS, station_event_keys};
use scenario_json::{Key, natural_at, reader_at, text_at};
use scenario_values::{ACTION_WORDS, EDGE, FAULT_WORDS, G, R, event_keys};
use serde_json::Value;
use text_faults::Refusal;
use text_words::{Expected, Found, JsonPath, Misfit, Note};

/// What in the line that has this value is refused so.
pub(crate) fn find_in_event<'a>(
    refusal: Refusal,
    value: &'a Value,
    context: &PlantContext<'a>,
) -> Option<Misfit<'a>>
    requires { length context.now.names.now.keys ≤ 16 }
    ensures refused { IfSome result (λ misfit. is_event_refused context.now.has_devices refusal
        (texts_of context.now.names.now.keys) context.now.edges.now (view value.now) ≡ true) }
    ensures place { IfSome result (λ misfit. misfit.place ≡ JsonPath.Line) }
{
    match refusal {
        Refusal::Shape => find_shape(context.has_devices, value),
        Refusal::Value => find_value(context.has_devices, value),
        Refusal::NoSuchReader => find_reader(value, context.names),
        Refusal::NoSuchGenerator => find_generator(value, context.edges),
        Refusal::FutureReplay => find_replay(value, context.edges),
        _ => None,
    }
}

// The keys of a line, by what it asks for, if it asks for something.
fn keys_of(has_devices: bool, value: &Value) -> Option<&'static [Key]>
    ensures { option_map (λ keys. map key_value keys.now) result
        ≡ event_keys has_devices (view value.now) }
{
    if has_devices {
        station_event_keys(value)
    } else {
        event_keys(value)
    }
}

#[tactic(auto, unfolding(crate::specs::Lines::has_event_form))]
fn find_shape(has_devices: bool, value: &Value) -> Option<Misfit<'_>>
    ensures refused { IfSome result (λ misfit.
        has_event_form has_devices (view value.now) ≡ false) }
    ensures place { IfSome result (λ misfit. misfit.place ≡ JsonPath.Line) }
{
    match keys_of(has_devices, value) {
        Some(keys) => find_in_shape(JsonPath::Line, keys, value),
        None if !value.is_object() => find_in_shape(JsonPath::Line, &[], value),
        None => Some(other_action(has_devices, value)),
    }
}

fn other_action(has_devices: bool, value: &Value) -> Misfit<'_>
    ensures { result.place ≡ JsonPath.Line }
{
    match text_at(value, "do") {
        Some("fault") => in_line(value, "kind", Expected::Words(&FAULT_WORDS)),
        None if value.get("version").is_some() => {
            Misfit::new(JsonPath::Line, Found::SecondPlant, Expected::Nothing)
        }
        _ if has_devices => in_line(value, "do", Expected::Words(&STATION_ACTION_WORDS)),
        _ => in_line(value, "do", Expected::Words(&ACTION_WORDS)),
    }
}

#[tactic(auto, unfolding(crate::specs::Lines::has_event_values))]
fn find_value(has_devices: bool, value: &Value) -> Option<Misfit<'_>>
    ensures refused { IfSome result (λ misfit.
        has_event_values has_devices (view value.now) ≡ false) }
    ensures place { IfSome result (λ misfit. misfit.place ≡ JsonPath.Line) }
{
    find_in_values(JsonPath::Line, keys_of(has_devices, value)?, value)
}

fn find_reader<'a>(value: &'a Value, names: &'a IndexSet<String>) -> Option<Misfit<'a>>
    requires { length names.now.keys ≤ 16 }
    ensures refused { IfSome result (λ misfit.
        is_some (reader_at (texts_of names.now.keys) r (view value.now)) ≡ false) }
    ensures place { IfSome result (λ misfit. misfit.place ≡ JsonPath.Line) }
{
    match reader_at(names, R, value) {
        Some(_) => None,
        None => Some(in_line(value, "r", Expected::Names(names))),
    }
}

#[tactic(auto, unfolding(crate::specs::Lines::has_generator))]
fn find_generator<'a>(value: &'a Value, edges: &[u64]) -> Option<Misfit<'a>>
    ensures refused { IfSome result (λ misfit. has_generator edges.now (view value.now) ≡ false) }
    ensures place { IfSome result (λ misfit. misfit.place ≡ JsonPath.Line) }
{
    let [_, others @ ..] = edges else {
        return None;
    };
    match natural_at(G, value) {
        Some(generator) if generator < edges.len() as u64 => None,
        _ => Some(in_line(value, "g", Expected::Range(0, others.len() as i128))),
    }
}

// It asks for what this generator sends at a later edge than the one at which it is.
#[tactic(auto, unfolding(crate::specs::Lines::has_reached))]
fn find_replay<'a>(value: &'a Value, edges: &[u64]) -> Option<Misfit<'a>>
    ensures refused { IfSome result (λ misfit. has_reached edges.now (view value.now) ≡ false) }
    ensures place { IfSome result (λ misfit. misfit.place ≡ JsonPath.Line) }
{
    let generator = natural_at(G, value)?;
    let edge = *edges.get(generator as usize)?;
    match natural_at(EDGE, value) {
        Some(wanted) if wanted <= edge => None,
        _ => {
            let past = Expected::Range(0, i128::from(edge));
            Some(in_line(value, "edge", past).with(Note::Edge(generator, edge)))
        }
    }
}
