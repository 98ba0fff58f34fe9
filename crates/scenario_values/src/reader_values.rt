//! The readers of a plant line.

ghost use Rattle.std.specs.Prelude.{◌≡◌, map, option_map};
ghost use Rattle.serde_json.specs.View.{view};
ghost use Rattle.scenario_json.specs.Json.{all_of};
ghost use Rattle.text_faults.specs.Refusals.{FoundUnlessMemory};
ghost use Rattle.scenario_values.specs.PlantValues.{reader_rules_of, table_of, table_if, reader_of};

use crate::leap_values::all_leaps;
use crate::plant_shape::{HOLDOVER, LOCK_AFTER, TABLE, TABLE_LEAPS, UNTIL};
use irig_reader::ReaderRules;
use irig_time::{Leap, read_day};
use scenario_json::{items_at, natural_at, text_at};
use serde_json::Value;
use std::alloc::Global;
use std::marker::Model;
use text_faults::{LineFault, Refusal};

/// What a reader is to be made of.
#[derive(Drop)]
pub struct ReaderValues {
    /// Its rules.
    pub rules: ReaderRules,
    /// The day with which its table ends.
    pub until: u32,
    /// The leaps of its table.
    pub leaps: Vec<(u32, Leap)>,
}

impl Model for ReaderValues {
    ghost use Rattle.scenario_values.specs.PlantValues.{ReaderValues};

    ghost Value = { ReaderValues };

    ghost view = { λ r. record { rules = r.rules; until = r.until; leaps = r.leaps.items } };
}

pub(crate) fn all_readers(alloc: Global, values: &[Value]) -> Result<Vec<ReaderValues>, LineFault>
    ensures { FoundUnlessMemory (λ v. v.items) (all_of reader_of (map view values.now)) result }
{
    let mut readers = Vec::new(alloc);
    for value in values {
        readers.push(reader_of(alloc, value)?)?;
    }
    Ok(readers)
}

/// The values of a reader's object, whatever other keys it has.
///
/// `Refused` with `Value` if one is out of its range, `Memory` if there was none.
#[tactic(auto, unfolding(crate::specs::PlantValues::reader_of))]
pub fn reader_of(alloc: Global, value: &Value) -> Result<ReaderValues, LineFault>
    ensures { FoundUnlessMemory (λ r. r) (reader_of (view value.now)) result }
{
    let rules = reader_rules_of(value).ok_or(Refusal::Value)?;
    let (until, leaps) = table_if(alloc, value.get(TABLE.name))?;
    Ok(ReaderValues {
        rules,
        until,
        leaps,
    })
}

#[tactic(auto, unfolding(crate::specs::PlantValues::reader_rules_of))]
fn reader_rules_of(value: &Value) -> Option<ReaderRules>
    ensures { result ≡ reader_rules_of (view value.now) }
{
    Some(ReaderRules {
        lock_after: natural_at(LOCK_AFTER, value)? as u8,
        holdover: natural_at(HOLDOVER, value)? as u32,
    })
}

// The end and the leaps of a table; the empty one, if there is none.
fn table_if(alloc: Global, table: Option<&Value>) -> Result<(u32, Vec<(u32, Leap)>), LineFault>
    ensures { FoundUnlessMemory (λ t. (t.0, t.1.items))
        (table_if (option_map (λ v. view v.now) table.entry)) result }
{
    match table {
        None => Ok((0, Vec::new(alloc))),
        Some(table) => table_of(alloc, table),
    }
}

#[tactic(auto, unfolding(crate::specs::PlantValues::table_of))]
fn table_of(alloc: Global, value: &Value) -> Result<(u32, Vec<(u32, Leap)>), LineFault>
    ensures { FoundUnlessMemory (λ t. (t.0, t.1.items)) (table_of (view value.now)) result }
{
    let until = text_at(value, UNTIL.name).ok_or(Refusal::Value)?;
    let until = read_day(until.as_bytes()).ok_or(Refusal::Value)?;
    let items = items_at(value, TABLE_LEAPS.name).ok_or(Refusal::Value)?;
    let leaps = all_leaps(alloc, items)?;
    Ok((until, leaps))
}
