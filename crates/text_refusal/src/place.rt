//! The objects of a plant line, by their places.

ghost use Rattle.std.specs.Prelude.{◌≡◌, map, option_map};
ghost use Rattle.serde_json.specs.View.{view};
ghost use Rattle.scenario_json.specs.Keys.{key_value};
ghost use Rattle.scenario_devices.specs.StationLine.{has_version_four};
ghost use Rattle.text_refusal.specs.Places.{counted_as, item_at, keys_at, line_keys, object_at, owner_keys, owners_in, owners_key, plant_of_line, table_at, version_of_line};

use scenario_devices::{DEVICES, device_keys, has_version_four, station_keys};
use scenario_json::{Key, items_at};
use scenario_values::{
    Version, change_keys, generator_keys, leap_keys, plant_keys, reader_keys, table_keys,
    version_in,
};
use serde_json::Value;
use text_words::{Expected, JsonPath, Misfit};

/// An item, from 0, of the list at a key.
#[tactic(auto, unfolding(crate::specs::Places::item_at), using(crate::proofs::PlaceLaws::viewed_item))]
pub(crate) fn item_at<'a>(value: &'a Value, key: &str, at: usize) -> Option<&'a Value>
    ensures { option_map (λ v. view v.now) result ≡ item_at key.now at (view value.now) }
{
    items_at(value, key)?.get(at)
}

/// What a plant line has, by its version.
#[derive(Clone, Copy)]
pub(crate) enum Plant {
    /// Readers.
    Readers(Version),
    /// Devices.
    Devices,
}

impl Plant {
    /// What the plant line that has this value has.
    #[tactic(auto, unfolding(crate::specs::Places::plant_of_line))]
    pub(crate) fn of_line(value: &Value) -> Plant
        ensures { result ≡ plant_of_line (view value.now) }
    {
        if has_version_four(value) {
            Plant::Devices
        } else {
            Plant::Readers(version_of_line(value))
        }
    }

    /// The key of their list.
    pub(crate) fn owners_key(self) -> &'static str
        ensures { result.now ≡ owners_key self }
    {
        match self {
            Plant::Readers(_) => "readers",
            Plant::Devices => DEVICES.name,
        }
    }

    /// Those of a line.
    #[tactic(auto, unfolding(crate::specs::Places::owners_in))]
    pub(crate) fn owners_in(self, value: &Value) -> &[Value]
        ensures { map view result.now ≡ owners_in self (view value.now) }
    {
        items_at(value, self.owners_key()).unwrap_or(&[])
    }

    /// By which version there may be so many generators.
    pub(crate) fn counted_as(self) -> Version
        ensures { result ≡ counted_as self }
    {
        match self {
            Plant::Readers(version) => version,
            Plant::Devices => Version::Three,
        }
    }

    fn line_keys(self) -> &'static [Key]
        ensures { map key_value result.now ≡ line_keys self }
    {
        match self {
            Plant::Readers(_) => plant_keys(),
            Plant::Devices => station_keys(),
        }
    }

    fn owner_keys(self) -> &'static [Key]
        ensures { map key_value result.now ≡ owner_keys self }
    {
        match self {
            Plant::Readers(version) => reader_keys(version),
            Plant::Devices => device_keys(),
        }
    }
}

fn table_at(plant: Plant, value: &Value, owner: usize) -> Option<&Value>
    ensures { option_map (λ v. view v.now) result ≡ table_at plant owner (view value.now) }
{
    item_at(value, plant.owners_key(), owner)?.get("table")
}

/// The object at a place.
#[tactic(auto, unfolding(crate::specs::Places::object_at))]
pub(crate) fn object_at(plant: Plant, value: &Value, place: JsonPath) -> Option<&Value>
    ensures { option_map (λ v. view v.now) result ≡ object_at plant place (view value.now) }
{
    match place {
        JsonPath::Line => Some(value),
        JsonPath::Leap(at) => item_at(value, "leaps", at),
        JsonPath::Generator(at) => item_at(value, "generators", at),
        JsonPath::Change(above, at) => {
            item_at(item_at(value, "generators", above)?, "changes", at)
        }
        JsonPath::Reader(at) => item_at(value, plant.owners_key(), at),
        JsonPath::Table(at) => table_at(plant, value, at),
        JsonPath::TableLeap(above, at) => item_at(table_at(plant, value, above)?, "leaps", at),
    }
}

/// The keys that it may have.
pub(crate) fn keys_at(plant: Plant, place: JsonPath) -> &'static [Key]
    ensures { map key_value result.now ≡ keys_at plant place }
{
    match place {
        JsonPath::Line => plant.line_keys(),
        JsonPath::Leap(_) | JsonPath::TableLeap(..) => leap_keys(),
        JsonPath::Generator(_) => generator_keys(),
        JsonPath::Change(..) => change_keys(),
        JsonPath::Reader(_) => plant.owner_keys(),
        JsonPath::Table(_) => table_keys(),
    }
}

// The version of a plant line; of one that tells none, the last.
#[tactic(auto, unfolding(crate::specs::Places::version_of_line))]
fn version_of_line(value: &Value) -> Version
    ensures { result ≡ version_of_line (view value.now) }
{
    version_in(value).unwrap_or(Version::Three)
}

/// What stands at a key of the line's own object, where something else may.
pub(crate) fn in_line<'a>(
    value: &'a Value,
    name: &'static str,
    expected: Expected<'a>,
) -> Misfit<'a>
    ensures { result.place ≡ JsonPath.Line }
{
    Misfit::at(JsonPath::Line, name, value, expected)
}
