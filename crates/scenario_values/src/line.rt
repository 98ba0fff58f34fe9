//! What of a line is asked for memory: the value that it is, and lists of numbers.

ghost use Rattle.std.specs.Prelude.{◌≡◌, map};
ghost use Rattle.serde_json.specs.View.{view};
ghost use Rattle.text_faults.specs.Refusals.{FoundUnlessMemory, IsUnlessMemory, or_else};
ghost use Rattle.scenario_json.specs.Json.{all_of, json_of};
ghost use Rattle.scenario_json.specs.Keys.{key_value};
ghost use Rattle.scenario_json.specs.Fields.{natural_in, naturals_at};

use scenario_json::{Key, Kind, at_most, items_at, natural_in};
use serde_json::Value;
use std::alloc::Global;
use text_faults::{LineFault, Refusal};

/// The value that a line of JSON in UTF-8 is. `Refused` as `Json` if it is none, `Memory` if
/// there was none.
#[tactic(auto, using(scenario_json::proofs::JsonLaws::json_of_text, scenario_json::proofs::JsonLaws::no_json))]
pub fn value_of(alloc: Global, line: &[u8]) -> Result<Value, LineFault>
    ensures { IsUnlessMemory view (or_else Refusal.Json (json_of line.now)) result }
{
    match Value::from_slice(alloc, line) {
        Ok(value) => Ok(value),
        Err(error) if error.is_memory() => Err(LineFault::Memory),
        Err(_) => Err(LineFault::Refused(Refusal::Json)),
    }
}

/// The numbers of the list at a key of kind `Naturals`. `Refused` as `Value` if they are too
/// many or one is out of range, `Memory` if there was none.
#[tactic(auto, unfolding(scenario_json::specs::Fields::naturals_at))]
pub fn naturals_at(alloc: Global, key: Key, value: &Value) -> Result<Vec<u32>, LineFault>
    ensures { FoundUnlessMemory (λ v. v.items)
        (naturals_at (key_value key) (view value.now)) result }
{
    let (count, most) = match key.kind {
        Kind::Naturals(count, most) => (count, most),
        _ => return Err(LineFault::Refused(Refusal::Value)),
    };
    let items = items_at(value, key.name).ok_or(Refusal::Value)?;
    let few = at_most(count, items).ok_or(Refusal::Value)?;
    all_naturals(alloc, most, few)
}

fn all_naturals(alloc: Global, most: u32, values: &[Value]) -> Result<Vec<u32>, LineFault>
    ensures { FoundUnlessMemory (λ v. v.items)
        (all_of (natural_in most) (map view values.now)) result }
{
    let mut numbers = Vec::with_capacity(alloc, values.len())?;
    for value in values {
        numbers.push(natural_in(most, value).ok_or(Refusal::Value)?)?;
    }
    Ok(numbers)
}
