//! The first place of a plant line at which something is wrong, in the order of the line.

use crate::place::{Plant, object_at};
use crate::plan::{refusal_at, station_refusal_at};
use crate::plant::{misformed_at, mislate_at, misvalued_at};
use scenario_devices::StationValues;
use scenario_json::items_at;
use scenario_values::{PlantValues, Version};
use serde_json::Value;
use text_faults::Refusal;
use text_words::JsonPath;

/// What may be wrong at a place.
#[derive(Clone, Copy)]
pub(crate) enum Wrong<'a> {
    /// The object there has not its form.
    Form,
    /// A value in it is not in its range.
    Range,
    /// It is a device that has not a lateness for each generator.
    Lates,
    /// These values are refused so.
    Values(Refusal, &'a PlantValues),
    /// So are these, of a plant of devices.
    Station(Refusal, &'a StationValues),
}

/// The first such place of the plant line that has this value: the line's own object, then those of
/// its leaps, generators and readers or devices. Behind a generator come its changes; before a reader
/// come its table and the leaps of that.
pub(crate) fn first_place(plant: Plant, wrong: Wrong<'_>, value: &Value) -> Option<JsonPath> {
    let search = Search {
        wrong,
        plant,
        value,
    };
    search
        .first_from(JsonPath::Line)
        .or(search.first_in_generators())
        .or(search.first_in_readers())
}

#[derive(Clone, Copy)]
struct Search<'a> {
    wrong: Wrong<'a>,
    plant: Plant,
    value: &'a Value,
}

impl Search<'_> {
    fn first_in_generators(self) -> Option<JsonPath> {
        for at in 0..count(self.value, "generators") {
            let place = self.first_from(JsonPath::Generator(at));
            if place.is_some() {
                return place;
            }
        }
        None
    }

    fn first_in_readers(self) -> Option<JsonPath> {
        for at in 0..count(self.value, self.plant.owners_key()) {
            let place = self.first_in_reader(at);
            if place.is_some() {
                return place;
            }
        }
        None
    }

    // In version 1 a table is a key that the reader does not have.
    fn first_in_reader(self, at: usize) -> Option<JsonPath> {
        let reader = self.wrong_at(JsonPath::Reader(at));
        match self.plant {
            Plant::Readers(Version::One) => reader,
            _ => self.first_from(JsonPath::Table(at)).or(reader),
        }
    }

    // Of an object and the items of its list.
    fn first_from(self, above: JsonPath) -> Option<JsonPath> {
        let place = self.wrong_at(above);
        if place.is_some() {
            return place;
        }
        for at in 0..self.count_below(above) {
            let place = self.wrong_at(item_of(above, at));
            if place.is_some() {
                return place;
            }
        }
        None
    }

    fn wrong_at(self, place: JsonPath) -> Option<JsonPath> {
        let Search {
            wrong,
            plant,
            value,
        } = self;
        let is_wrong = match wrong {
            Wrong::Form => misformed_at(plant, place, value).is_some(),
            Wrong::Range => misvalued_at(plant, place, value).is_some(),
            Wrong::Lates => mislate_at(place, value).is_some(),
            Wrong::Values(refusal, values) => refusal_at(values, place) == Some(refusal),
            Wrong::Station(refusal, values) => station_refusal_at(values, place) == Some(refusal),
        };
        if is_wrong { Some(place) } else { None }
    }

    fn count_below(self, above: JsonPath) -> usize {
        let list = match above {
            JsonPath::Generator(_) => "changes",
            _ => "leaps",
        };
        match object_at(self.plant, self.value, above) {
            Some(object) => count(object, list),
            None => 0,
        }
    }
}

fn count(object: &Value, list: &str) -> usize {
    items_at(object, list).unwrap_or(&[]).len()
}

fn item_of(above: JsonPath, at: usize) -> JsonPath {
    match above {
        JsonPath::Generator(generator) => JsonPath::Change(generator, at),
        JsonPath::Table(reader) => JsonPath::TableLeap(reader, at),
        _ => JsonPath::Leap(at),
    }
}
