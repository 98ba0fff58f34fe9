//! The objects of a plant line of version 4, as tables: which keys stand in each, and what may
//! stand at a key.

ghost use Rattle.std.specs.Prelude.{◌≡◌, codes, map, option_map};
ghost use Rattle.std.specs.List.{list_all};
ghost use Rattle.serde_json.specs.View.{view};
ghost use Rattle.scenario_json.specs.Keys.{key_value};
ghost use Rattle.scenario_json.specs.Fields.{each_item};
ghost use Rattle.scenario_values.specs.PlantShape.{is_table_if};
ghost use Rattle.scenario_devices.specs.StationShape.{station_keys, device_keys, is_device_object, is_station};

use scenario_json::{Key, Kind, has_form, items_at, key, optional_key};
use scenario_values::{
    GENERATORS, HOLDOVER, LEAPS, LOCK_AFTER, NAME, PARITY, SBS, SENSE, START, TABLE, VERSION,
    are_generators, are_leaps, is_table,
};
use serde_json::Value;

pub(crate) const MOST_LATE: u32 = 1999;

/// `devices`: the devices, in place of `readers`.
pub const DEVICES: Key = key!("devices": Kind::List);

pub(crate) const DRIFT: Key = key!("drift": Kind::Natural(0, 100));

pub(crate) const GAIN: Key = optional_key!("gain": Kind::Integer(-1000, 1000));

pub(crate) const COUNTER: Key = optional_key!("counter": Kind::Natural(0, u32::MAX as u64));

/// `late`: how many microseconds late the line of each generator is, 0 to 1999.
pub const LATE: Key = optional_key!("late": Kind::Naturals(5, MOST_LATE));

pub(crate) const POLL: Key = optional_key!("poll": Kind::Natural(0, 1_740_000_000));

/// The keys of a plant line of version 4.
pub fn station_keys() -> &'static [Key]
    ensures { map key_value result.now ≡ station_keys }
{
    &[
        VERSION, START, LEAPS, PARITY, SENSE, SBS, GENERATORS, DEVICES,
    ]
}

/// The keys of a device; those from `table` on but `drift` may be left out.
pub fn device_keys() -> &'static [Key]
    ensures { map key_value result.now ≡ device_keys }
{
    &[
        NAME, LOCK_AFTER, HOLDOVER, TABLE, DRIFT, GAIN, COUNTER, LATE, POLL,
    ]
}

fn is_table_if(value: Option<&Value>) -> bool
    ensures { result ≡ is_table_if (option_map (λ v. view v.now) value.entry) }
{
    match value {
        None => true,
        Some(table) => is_table(table),
    }
}

#[tactic(auto, unfolding(crate::specs::StationShape::is_device_object))]
fn is_device_object(value: &Value) -> bool
    ensures { result ≡ is_device_object (view value.now) }
{
    has_form(device_keys(), value) && is_table_if(value.get(TABLE.name))
}

fn all_devices(values: &[Value]) -> bool
    ensures { result ≡ list_all (λ v. is_device_object (view v)) values.now }
{
    values.iter().all(is_device_object)
}

#[tactic(auto, unfolding(scenario_json::specs::Fields::each_item), using(crate::proofs::ListLaws::all_devices))]
fn are_devices(value: &Value) -> bool
    ensures { result ≡ each_item (codes "devices") is_device_object (view value.now) }
{
    all_devices(items_at(value, DEVICES.name).unwrap_or(&[]))
}

/// Whether a plant line has the keys of version 4, each with a value of its type.
#[tactic(auto, unfolding(crate::specs::StationShape::is_station))]
pub(crate) fn is_station(value: &Value) -> bool
    ensures { result ≡ is_station (view value.now) }
{
    has_form(station_keys(), value)
        && are_leaps(value)
        && are_generators(value)
        && are_devices(value)
}
