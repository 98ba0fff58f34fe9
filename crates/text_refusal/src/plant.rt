//! What is wrong with a plant line.

ghost use Rattle.std.specs.Prelude.{◌≡◌, IfOk, IfSome, codes, false, true};
ghost use Rattle.scenario_json.specs.Json.{is_there};
ghost use Rattle.serde_json.specs.View.{view};
ghost use Rattle.text_refusal.specs.Lines.{IsPlantRefusedAt};
ghost use Rattle.text_refusal.specs.Places.{generators_in, has_count, has_other_lates, is_beyond, item_at, is_misformed, is_mislate, is_misvalued};

use crate::names::find_name;
use crate::place::{Plant, in_line, item_at, keys_at, object_at};
use crate::plan::find_in_plan;
use crate::shape::find_in_shape;
use crate::value::find_in_values;
use crate::walk::{Wrong, first_place};
use scenario_devices::{DEVICES, LATE};
use scenario_json::{items_at, whole_at};
use scenario_values::{Version, is_count};
use serde_json::Value;
use std::alloc::{AllocError, Global};
use text_faults::Refusal;
use text_words::{Expected, Found, JsonPath, Misfit, Note};

/// What in the plant line that has this value is refused so. Fails only if there is no memory.
pub(crate) fn find_in_plant(
    alloc: Global,
    refusal: Refusal,
    value: &Value,
) -> Result<Option<Misfit<'_>>, AllocError>
    ensures { IfOk result (λ found. IfSome found
        (λ misfit. IsPlantRefusedAt refusal (view value.now) misfit.place)) }
{
    let plant = Plant::of_line(value);
    let found = match refusal {
        Refusal::Shape => find_misformed(plant, value),
        Refusal::Value => find_beyond(plant, value),
        Refusal::Names => find_name(plant, value),
        Refusal::Version => Some(in_line(value, "version", Expected::Text(known_versions(value)))),
        Refusal::BadStart => Some(in_line(value, "start", Expected::Start)),
        _ => find_in_plan(alloc, plant, refusal, value)?,
    };
    match found {
        Some(misfit) => Ok(Some(misfit.of(plant.owners_key()))),
        None => Ok(None),
    }
}

// The versions that there are. A plant of devices is refused so only by what plays readers alone.
fn known_versions(value: &Value) -> &'static str {
    match whole_at(value, "version") {
        Some(4) => "1, 2 or 3",
        _ => "1, 2, 3 or 4",
    }
}

fn find_misformed(plant: Plant, value: &Value) -> Option<Misfit<'_>>
    ensures { IfSome result (λ misfit.
        is_misformed plant misfit.place (view value.now) ≡ true) }
{
    misformed_at(plant, first_place(plant, Wrong::Form, value)?, value)
}

/// What keeps the object at a place from its form.
#[tactic(auto, unfolding(crate::specs::Places::is_misformed))]
pub(crate) fn misformed_at(plant: Plant, place: JsonPath, value: &Value) -> Option<Misfit<'_>>
    ensures place { IfSome result (λ misfit. misfit.place ≡ place) }
    ensures wrong { IfSome result (λ misfit. is_misformed plant place (view value.now) ≡ true) }
{
    let object = object_at(plant, value, place)?;
    let misfit = find_in_shape(place, keys_at(plant, place), object)?;
    let found = if has_early_table(plant, place, object) {
        Found::EarlyTable
    } else if is_early_event(place, object) {
        Found::EarlyEvent
    } else {
        return Some(misfit);
    };
    Some(Misfit::new(place, found, Expected::Nothing))
}

// Whether it is a reader's, with a table in version 1, which has none.
fn has_early_table(plant: Plant, place: JsonPath, object: &Value) -> bool {
    matches!(plant, Plant::Readers(Version::One))
        && matches!(place, JsonPath::Reader(_))
        && object.get("table").is_some()
}

// Whether it is an event's, in place of the plant line.
fn is_early_event(place: JsonPath, object: &Value) -> bool {
    matches!(place, JsonPath::Line) && object.get("do").is_some() && object.get("version").is_none()
}

#[tactic(auto, unfolding(crate::specs::Places::is_beyond))]
fn find_beyond(plant: Plant, value: &Value) -> Option<Misfit<'_>>
    ensures { IfSome result (λ misfit.
        is_beyond plant misfit.place (view value.now) ≡ true) }
{
    match first_place(plant, Wrong::Range, value) {
        Some(place) => misvalued_at(plant, place, value),
        None => match miscounted(plant, value) {
            Some(misfit) => Some(misfit),
            None => mislate_at(first_place(plant, Wrong::Lates, value)?, value),
        },
    }
}

/// Which value of the object at a place is outside its range.
#[tactic(auto, unfolding(crate::specs::Places::is_misvalued))]
pub(crate) fn misvalued_at(plant: Plant, place: JsonPath, value: &Value) -> Option<Misfit<'_>>
    ensures place { IfSome result (λ misfit. misfit.place ≡ place) }
    ensures wrong { IfSome result (λ misfit. is_misvalued plant place (view value.now) ≡ true) }
{
    find_in_values(
        place,
        keys_at(plant, place),
        object_at(plant, value, place)?,
    )
}

#[tactic(auto, unfolding(crate::specs::Places::has_count))]
fn miscounted(plant: Plant, value: &Value) -> Option<Misfit<'_>>
    ensures place { IfSome result (λ misfit. misfit.place ≡ JsonPath.Line) }
    ensures wrong { IfSome result (λ misfit. has_count plant (view value.now) ≡ false) }
{
    let version = plant.counted_as();
    let (counts, note) = match version {
        Version::One => (
            "3",
            Note::Why("this is version 1; five generators need version 3"),
        ),
        Version::Two => (
            "3",
            Note::Why("this is version 2; five generators need version 3"),
        ),
        Version::Three => ("3 or 5", Note::Nothing),
    };
    match items_at(value, "generators") {
        Some(generators) if is_count(version, generators.len()) => None,
        _ => Some(in_line(value, "generators", Expected::Text(counts)).with(note)),
    }
}

/// The list `late` of the device at a place, if it has not a number for each generator.
#[tactic(auto, unfolding(crate::specs::Places::is_mislate))]
pub(crate) fn mislate_at(place: JsonPath, value: &Value) -> Option<Misfit<'_>>
    ensures place { IfSome result (λ misfit. misfit.place ≡ place) }
    ensures wrong { IfSome result (λ misfit. is_mislate place (view value.now) ≡ true) }
{
    match place {
        JsonPath::Reader(at) => mislate_device(at, value),
        _ => None,
    }
}

fn mislate_device(at: usize, value: &Value) -> Option<Misfit<'_>>
    ensures place { IfSome result (λ misfit. misfit.place ≡ JsonPath.Reader at) }
    ensures wrong { IfSome result (λ misfit.
        is_there (has_other_lates (generators_in (view value.now)))
        (item_at (codes "devices") at (view value.now)) ≡ true) }
{
    let device = item_at(value, DEVICES.name, at)?;
    if !has_other_lates(generators_in(value), device) {
        return None;
    }
    let each = Expected::Text("as many as there are generators");
    Some(Misfit::at(JsonPath::Reader(at), LATE.name, device, each))
}

#[tactic(auto, unfolding(crate::specs::Places::generators_in))]
fn generators_in(value: &Value) -> usize
    ensures { result ≡ generators_in (view value.now) }
{
    items_at(value, "generators").unwrap_or(&[]).len()
}

#[tactic(auto, unfolding(crate::specs::Places::has_other_lates))]
fn has_other_lates(generators: usize, device: &Value) -> bool
    ensures { result ≡ has_other_lates generators (view device.now) }
{
    match items_at(device, LATE.name) {
        Some(items) => items.len() != generators,
        None => false,
    }
}
