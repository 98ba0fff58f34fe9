//! What is wrong with the names of a plant line's readers or devices.

ghost use Rattle.std.specs.Prelude.{◌≡◌, ◌≤◌, IfSome, length, map, take, true};
ghost use Rattle.std.specs.List.{list_any, slice_get};
ghost use Rattle.scenario_json.specs.Json.{is_there};
ghost use Rattle.std.specs.Str.{bytes_eq};
ghost use Rattle.serde_json.specs.View.{view};
ghost use Rattle.scenario_values.specs.Names.{name_in};
ghost use Rattle.text_refusal.specs.Places.{is_misnamed, is_unnamed};

use crate::place::{Plant, in_line};
use scenario_values::{NAME, is_name, name_in};
use serde_json::Value;
use text_words::{Expected, JsonPath, Misfit};

/// The first reader or device whose name is none that it may have, or the list of them if there are
/// none or too many.
#[tactic(auto, unfolding(crate::specs::Places::is_misnamed))]
pub(crate) fn find_name(plant: Plant, value: &Value) -> Option<Misfit<'_>>
    ensures { IfSome result (λ misfit. is_misnamed plant misfit.place (view value.now) ≡ true) }
{
    let readers = plant.owners_in(value);
    if !(1 <= readers.len() && readers.len() <= 16) {
        return Some(in_line(value, plant.owners_key(), Expected::Text("1 to 16")));
    }
    misnamed_at(
        plant,
        readers,
        first_other(readers).or(first_twice(readers))?,
    )
}

fn first_other(readers: &[Value]) -> Option<usize> {
    for (at, reader) in readers.iter().enumerate() {
        if !is_name(name_in(reader)) {
            return Some(at);
        }
    }
    None
}

fn first_twice(readers: &[Value]) -> Option<usize> {
    for at in 0..readers.len() {
        if has_name(&readers[..at], name_in(&readers[at])) {
            return Some(at);
        }
    }
    None
}

#[tactic(auto, using(crate::proofs::PlaceLaws::viewed_item))]
fn misnamed_at(plant: Plant, readers: &[Value], at: usize) -> Option<Misfit<'_>>
    ensures place { IfSome result (λ misfit. misfit.place ≡ JsonPath.Reader at) }
    ensures wrong { IfSome result (λ misfit.
        is_there (λ reader. is_unnamed (map view readers.now) at reader)
        (slice_get (map view readers.now) at) ≡ true) }
{
    match readers.get(at) {
        Some(reader) if is_unnamed(readers, at, reader) => {
            Some(Misfit::at(
                JsonPath::Reader(at),
                NAME.name,
                reader,
                rule_for(plant, reader),
            ))
        }
        _ => None,
    }
}

fn rule_for(plant: Plant, reader: &Value) -> Expected<'static> {
    match plant {
        _ if !is_name(name_in(reader)) => Expected::Ranged(NAME),
        Plant::Readers(_) => Expected::Text("a name that no reader before it has"),
        Plant::Devices => Expected::Text("a name that no device before it has"),
    }
}

// ---- the test of one

#[tactic(auto, unfolding(crate::specs::Places::is_unnamed))]
fn is_unnamed(readers: &[Value], at: usize, reader: &Value) -> bool
    requires { at ≤ length readers.now }
    ensures { result ≡ is_unnamed (map view readers.now) at (view reader.now) }
{
    !is_name(name_in(reader)) || is_named_before(readers, at, name_in(reader))
}

fn is_named_before(readers: &[Value], at: usize, name: &str) -> bool
    requires { at ≤ length readers.now }
    ensures { result ≡ list_any (λ other. bytes_eq (name_in other) name.now)
        (take at (map view readers.now)) }
{
    has_name(&readers[..at], name)
}

fn has_name(readers: &[Value], name: &str) -> bool
    ensures { result ≡ list_any (λ other. bytes_eq (name_in (view other)) name.now) readers.now }
{
    readers.iter().any(|other| name_in(other) == name)
}
