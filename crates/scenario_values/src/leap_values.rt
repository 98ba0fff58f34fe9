//! The leaps of a plant line and of a reader's table.

ghost use Rattle.std.specs.Prelude.{◌≡◌, map};
ghost use Rattle.serde_json.specs.View.{view};
ghost use Rattle.scenario_json.specs.Json.{all_of};
ghost use Rattle.text_faults.specs.Refusals.{FoundUnlessMemory};
ghost use Rattle.scenario_values.specs.PlantValues.{leap_of, leaps_of};

use crate::plant_shape::{DAY, LEAP_KIND, LEAPS};
use irig_time::{Leap, read_day};
use scenario_json::{few_items, items_at, leap_at, text_at};
use serde_json::Value;
use std::alloc::Global;
use text_faults::{LineFault, Refusal};

#[tactic(auto, unfolding(crate::specs::PlantValues::leaps_of))]
pub(crate) fn leaps_of(alloc: Global, value: &Value) -> Result<Vec<(u32, Leap)>, LineFault>
    ensures { FoundUnlessMemory (λ v. v.items) (leaps_of (view value.now)) result }
{
    let items = items_at(value, LEAPS.name).ok_or(Refusal::Value)?;
    let few = few_items(LEAPS.kind, items).ok_or(Refusal::Value)?;
    all_leaps(alloc, few)
}

pub(crate) fn all_leaps(alloc: Global, values: &[Value]) -> Result<Vec<(u32, Leap)>, LineFault>
    ensures { FoundUnlessMemory (λ v. v.items) (all_of leap_of (map view values.now)) result }
{
    let mut leaps = Vec::new(alloc);
    for value in values {
        leaps.push(leap_of(value).ok_or(Refusal::Value)?)?;
    }
    Ok(leaps)
}

#[tactic(auto, unfolding(crate::specs::PlantValues::leap_of))]
fn leap_of(value: &Value) -> Option<(u32, Leap)>
    ensures { result ≡ leap_of (view value.now) }
{
    let day = read_day(text_at(value, DAY.name)?.as_bytes())?;
    Some((day, leap_at(LEAP_KIND, value)?))
}
