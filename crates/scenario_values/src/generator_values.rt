//! The generators of a plant line.

ghost use Rattle.std.specs.Prelude.{◌≡◌, length, map};
ghost use Rattle.serde_json.specs.View.{view};
ghost use Rattle.scenario_json.specs.Json.{all_of};
ghost use Rattle.text_faults.specs.Refusals.{FoundUnlessMemory};
ghost use Rattle.scenario_values.specs.PlantValues.{zone_of, change_of, changes_of, generator_of, is_count, generators_of};

use crate::plant_shape::{AT, CHANGES, DST, GENERATORS, LOCAL, Version};
use irig_gen::{Change, Zone};
use irig_time::read_text;
use scenario_json::{few_items, integer_at, items_at, text_at};
use serde_json::Value;
use std::alloc::Global;
use std::marker::Model;
use text_faults::{LineFault, Refusal};

/// What a generator is to be made of.
#[derive(Drop)]
pub struct GeneratorValues {
    /// Its first zone.
    pub zone: Zone,
    /// Its further zones.
    pub changes: Vec<Change>,
}

impl Model for GeneratorValues {
    ghost use Rattle.scenario_values.specs.PlantValues.{GeneratorValues};

    ghost Value = { GeneratorValues };

    ghost view = { λ g. record { zone = g.zone; changes = g.changes.items } };
}

#[tactic(auto, unfolding(crate::specs::PlantValues::generators_of))]
pub(crate) fn generators_of(
    alloc: Global,
    version: Version,
    value: &Value,
) -> Result<Vec<GeneratorValues>, LineFault>
    ensures { FoundUnlessMemory (λ v. v.items) (generators_of version (view value.now)) result }
{
    let items = items_at(value, GENERATORS.name).ok_or(Refusal::Value)?;
    if is_count(version, items.len()) {
        all_generators(alloc, items)
    } else {
        Err(LineFault::Refused(Refusal::Value))
    }
}

/// Whether a plant line of this version may have so many generators.
pub fn is_count(version: Version, generators: usize) -> bool
    ensures { result ≡ is_count version generators }
{
    match version {
        Version::One | Version::Two => generators == 3,
        Version::Three => generators == 3 || generators == 5,
    }
}

fn all_generators(alloc: Global, values: &[Value]) -> Result<Vec<GeneratorValues>, LineFault>
    ensures { FoundUnlessMemory (λ v. v.items) (all_of generator_of (map view values.now)) result }
{
    let mut generators = Vec::new(alloc);
    for value in values {
        generators.push(generator_of(alloc, value)?)?;
    }
    Ok(generators)
}

#[tactic(auto, unfolding(crate::specs::PlantValues::generator_of))]
fn generator_of(alloc: Global, value: &Value) -> Result<GeneratorValues, LineFault>
    ensures { FoundUnlessMemory (λ g. g) (generator_of (view value.now)) result }
{
    let zone = zone_of(value).ok_or(Refusal::Value)?;
    let changes = changes_of(alloc, value)?;
    Ok(GeneratorValues { zone, changes })
}

#[tactic(auto, unfolding(crate::specs::PlantValues::changes_of))]
fn changes_of(alloc: Global, value: &Value) -> Result<Vec<Change>, LineFault>
    ensures { FoundUnlessMemory (λ v. v.items) (changes_of (view value.now)) result }
{
    match items_at(value, CHANGES.name) {
        None => Ok(Vec::new(alloc)),
        Some(items) => {
            let few = few_items(CHANGES.kind, items).ok_or(Refusal::Value)?;
            all_changes(alloc, few)
        }
    }
}

fn all_changes(alloc: Global, values: &[Value]) -> Result<Vec<Change>, LineFault>
    ensures { FoundUnlessMemory (λ v. v.items) (all_of change_of (map view values.now)) result }
{
    let mut changes = Vec::new(alloc);
    for value in values {
        changes.push(change_of(value).ok_or(Refusal::Value)?)?;
    }
    Ok(changes)
}

#[tactic(auto, unfolding(crate::specs::PlantValues::change_of))]
fn change_of(value: &Value) -> Option<Change>
    ensures { result ≡ change_of (view value.now) }
{
    let at = read_text(text_at(value, AT.name)?.as_bytes())?;
    let zone = zone_of(value)?;
    Some(Change { at, zone })
}

#[tactic(auto, unfolding(crate::specs::PlantValues::zone_of))]
fn zone_of(value: &Value) -> Option<Zone>
    ensures { result ≡ zone_of (view value.now) }
{
    let half_hours = integer_at(LOCAL, value)? as i8;
    let dst = value
        .get(DST.name)
        .and_then(Value::as_bool)
        .unwrap_or(false);
    Some(Zone { half_hours, dst })
}
