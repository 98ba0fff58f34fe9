//! The values of a plant line.

ghost use Rattle.std.specs.Prelude.{◌≡◌, map};
ghost use Rattle.serde_json.specs.View.{view};
ghost use Rattle.text_faults.specs.Refusals.{FoundUnlessMemory};
ghost use Rattle.scenario_values.specs.PlantValues.{start_of, rules_of, readers_in, plant_values};

use crate::generator_values::{GeneratorValues, generators_of};
use crate::leap_values::leaps_of;
use crate::plant_shape::{PARITY, READERS, SBS, SENSE, START, Version};
use crate::reader_values::{ReaderValues, all_readers};
use irig_time::{Leap, Rules, UtcSecond, read_text};
use scenario_json::{items_at, parity_of, sbs_use_of, sense_of, text_at};
use serde_json::Value;
use std::alloc::Global;
use std::marker::Model;
use text_faults::{LineFault, Refusal};

/// What a plant is to be made of.
#[derive(Drop)]
pub struct PlantValues {
    /// The first second.
    pub start: UtcSecond,
    /// The leaps with their days.
    pub leaps: Vec<(u32, Leap)>,
    /// How all frames are written and read.
    pub rules: Rules,
    /// The generators.
    pub generators: Vec<GeneratorValues>,
    /// The readers.
    pub readers: Vec<ReaderValues>,
}

impl Model for PlantValues {
    ghost use Rattle.scenario_values.specs.PlantValues.{PlantValues};

    ghost Value = { PlantValues };

    ghost view = { λ v. record {
      start = v.start;
      leaps = v.leaps.items;
      rules = v.rules;
      generators = v.generators.items;
      readers = v.readers.items;
    } };
}

/// The values of a plant line of this version.
///
/// `Refused` with `Value` if one is out of its range, `Memory` if there was none.
#[tactic(auto, unfolding(crate::specs::PlantValues::plant_values))]
pub fn values_of(alloc: Global, version: Version, value: &Value) -> Result<PlantValues, LineFault>
    ensures { FoundUnlessMemory (λ v. v) (plant_values version (view value.now)) result }
{
    let start = start_of(value).ok_or(Refusal::Value)?;
    let leaps = leaps_of(alloc, value)?;
    let rules = rules_of(value).ok_or(Refusal::Value)?;
    let generators = generators_of(alloc, version, value)?;
    let readers = all_readers(alloc, readers_in(value))?;
    Ok(PlantValues {
        start,
        leaps,
        rules,
        generators,
        readers,
    })
}

#[tactic(auto, unfolding(crate::specs::PlantValues::start_of))]
fn start_of(value: &Value) -> Option<UtcSecond>
    ensures { result ≡ start_of (view value.now) }
{
    read_text(text_at(value, START.name)?.as_bytes())
}

#[tactic(auto, unfolding(crate::specs::PlantValues::rules_of))]
fn rules_of(value: &Value) -> Option<Rules>
    ensures { result ≡ rules_of (view value.now) }
{
    let parity = text_at(value, PARITY.name)?;
    let sense = text_at(value, SENSE.name)?;
    let sbs = text_at(value, SBS.name)?;
    Some(Rules {
        parity: parity_of(parity)?,
        sense: sense_of(sense)?,
        sbs: sbs_use_of(sbs)?,
    })
}

/// The objects of a plant line's readers; none if it has no list of them.
#[tactic(auto, unfolding(crate::specs::PlantValues::readers_in))]
pub fn readers_in(value: &Value) -> &[Value]
    ensures { map view result.now ≡ readers_in (view value.now) }
{
    items_at(value, READERS.name).unwrap_or(&[])
}
