//! The objects of a plant line, as tables: which keys stand in each, and what may stand at a key.

ghost use Rattle.std.specs.Prelude.{◌≡◌, codes, map, option_and_then};
ghost use Rattle.std.specs.List.{list_all};
ghost use Rattle.serde_json.specs.View.{view};
ghost use Rattle.scenario_json.specs.Keys.{key_value};
ghost use Rattle.scenario_json.specs.Fields.{each_item, has_form};
ghost use Rattle.scenario_json.specs.Json.{whole_at};
ghost use Rattle.scenario_values.specs.PlantShape.{version_of, plant_keys, leap_keys, generator_keys, change_keys, reader_keys, table_keys, is_leap, is_generator, is_table, is_reader, is_plant};

use scenario_json::{Key, Kind, Text, has_form, items_at, key, optional_key, whole_at};
use serde_json::Value;

/// A version of a plant line: the second adds tables of leaps, the third plants of five generators.
#[derive(Clone, Copy, PartialEq, Eq)]
pub enum Version {
    /// Three generators, no tables.
    One,
    /// Three generators, and a reader may have a table.
    Two,
    /// Three or five generators, and a reader may have a table.
    Three,
}

/// The version of this number; none of another than 1 to 3.
pub fn version_of(number: i128) -> Option<Version>
    ensures { result ≡ version_of number }
{
    match number {
        1 => Some(Version::One),
        2 => Some(Version::Two),
        3 => Some(Version::Three),
        _ => None,
    }
}

/// The version of the plant line that has this value; none of another number than 1 to 3.
pub fn version_in(value: &Value) -> Option<Version>
    ensures { result
        ≡ option_and_then version_of (whole_at (codes "version") (view value.now)) }
{
    version_of(whole_at(value, VERSION.name)?)
}

/// `version`: of the plant line.
pub const VERSION: Key = key!("version": Kind::Whole);

/// `start`: the second of edge 0.
pub const START: Key = key!("start": Kind::Text(Text::Second));

/// `leaps`: those that come, at most 1,200.
pub const LEAPS: Key = key!("leaps": Kind::Few(1200));

/// `parity`: that of all frames.
pub const PARITY: Key = key!("parity": Kind::Text(Text::Parity));

/// `sense`: of the sign of an offset in all frames.
pub const SENSE: Key = key!("sense": Kind::Text(Text::Sense));

/// `sbs`: what is done with the straight binary seconds of all frames.
pub const SBS: Key = key!("sbs": Kind::Text(Text::SbsUse));

/// `generators`: a list of them.
pub const GENERATORS: Key = key!("generators": Kind::List);

pub(crate) const READERS: Key = key!("readers": Kind::List);

pub(crate) const DAY: Key = key!("day": Kind::Text(Text::Day));

pub(crate) const LEAP_KIND: Key = key!("kind": Kind::Text(Text::Leap));

/// `local`: how far a clock is ahead of UTC, in half hours; a generator takes -31 to 31 of them.
pub const LOCAL: Key = key!("local": Kind::Integer(-128, 127));

pub(crate) const DST: Key = key!("dst": Kind::Truth);

const FIRST_DST: Key = optional_key!("dst": Kind::Truth);

pub(crate) const CHANGES: Key = optional_key!("changes": Kind::Few(400));

pub(crate) const AT: Key = key!("at": Kind::Text(Text::Second));

/// `name`: of a reader.
pub const NAME: Key = key!("name": Kind::Text(Text::Name));

/// `lock_after`: the votes in a row after which a reader locks, 1 to 60.
pub const LOCK_AFTER: Key = key!("lock_after": Kind::Natural(1, 60));

/// `holdover`: for how many seconds a reader counts on alone, 0 to 1,000,000.
pub const HOLDOVER: Key = key!("holdover": Kind::Natural(0, 1_000_000));

/// `table`: the leaps that a reader knows beforehand.
pub const TABLE: Key = optional_key!("table": Kind::Object);

pub(crate) const UNTIL: Key = key!("until": Kind::Text(Text::Day));

pub(crate) const TABLE_LEAPS: Key = key!("leaps": Kind::List);

/// The keys of a plant line.
pub fn plant_keys() -> &'static [Key]
    ensures { map key_value result.now ≡ plant_keys }
{
    &[
        VERSION, START, LEAPS, PARITY, SENSE, SBS, GENERATORS, READERS,
    ]
}

/// The keys of a leap, in a plant line and in a table.
pub fn leap_keys() -> &'static [Key]
    ensures { map key_value result.now ≡ leap_keys }
{
    &[DAY, LEAP_KIND]
}

/// The keys of a generator.
pub fn generator_keys() -> &'static [Key]
    ensures { map key_value result.now ≡ generator_keys }
{
    &[LOCAL, FIRST_DST, CHANGES]
}

/// The keys of a change of a generator's zone.
pub fn change_keys() -> &'static [Key]
    ensures { map key_value result.now ≡ change_keys }
{
    &[AT, LOCAL, DST]
}

/// The keys of a reader.
pub fn reader_keys(version: Version) -> &'static [Key]
    ensures { map key_value result.now ≡ reader_keys version }
{
    match version {
        Version::One => &[NAME, LOCK_AFTER, HOLDOVER],
        Version::Two | Version::Three => &[NAME, LOCK_AFTER, HOLDOVER, TABLE],
    }
}

/// The keys of a table of leaps.
pub fn table_keys() -> &'static [Key]
    ensures { map key_value result.now ≡ table_keys }
{
    &[UNTIL, TABLE_LEAPS]
}

fn have_form(keys: &[Key], values: &[Value]) -> bool
    ensures { result ≡ list_all (λ v. has_form (map key_value keys.now) (view v)) values.now }
{
    values.iter().all(|value| has_form(keys, value))
}

// Whether each item of the list at a key has the form of these keys.
fn items_have_form(key: &str, keys: &[Key], value: &Value) -> bool
    ensures { result ≡ each_item key.now (has_form (map key_value keys.now)) (view value.now) }
{
    have_form(keys, items_at(value, key).unwrap_or(&[]))
}

#[tactic(auto, unfolding(crate::specs::PlantShape::is_generator))]
fn is_generator(value: &Value) -> bool
    ensures { result ≡ is_generator (view value.now) }
{
    has_form(generator_keys(), value) && items_have_form(CHANGES.name, change_keys(), value)
}

/// Whether the items of `leaps` have the form of leaps.
pub fn are_leaps(value: &Value) -> bool
    ensures { result ≡ each_item (codes "leaps") is_leap (view value.now) }
{
    items_have_form(LEAPS.name, leap_keys(), value)
}

/// Whether the items of `generators` have the form of generators.
#[tactic(auto, unfolding(scenario_json::specs::Fields::each_item), using(crate::proofs::ListLaws::all_generators))]
pub fn are_generators(value: &Value) -> bool
    ensures { result ≡ each_item (codes "generators") is_generator (view value.now) }
{
    all_generators(items_at(value, GENERATORS.name).unwrap_or(&[]))
}

fn all_generators(values: &[Value]) -> bool
    ensures { result ≡ list_all (λ v. is_generator (view v)) values.now }
{
    values.iter().all(is_generator)
}

/// Whether a value has the form of a table of leaps.
#[tactic(auto, unfolding(crate::specs::PlantShape::is_table))]
pub fn is_table(value: &Value) -> bool
    ensures { result ≡ is_table (view value.now) }
{
    has_form(table_keys(), value) && items_have_form(TABLE_LEAPS.name, leap_keys(), value)
}

#[tactic(auto, unfolding(crate::specs::PlantShape::is_reader))]
fn is_reader(version: Version, value: &Value) -> bool
    ensures { result ≡ is_reader version (view value.now) }
{
    has_form(reader_keys(version), value) && value.get(TABLE.name).is_none_or(is_table)
}

#[tactic(auto, unfolding(scenario_json::specs::Fields::each_item), using(crate::proofs::ListLaws::all_readers))]
fn are_readers(version: Version, value: &Value) -> bool
    ensures { result ≡ each_item (codes "readers") (is_reader version) (view value.now) }
{
    all_readers(version, items_at(value, READERS.name).unwrap_or(&[]))
}

fn all_readers(version: Version, values: &[Value]) -> bool
    ensures { result ≡ list_all (λ v. is_reader version (view v)) values.now }
{
    values.iter().all(|value| is_reader(version, value))
}

/// Whether a plant line has the keys of its version, each with a value of its type.
#[tactic(auto, unfolding(crate::specs::PlantShape::is_plant))]
pub fn is_plant(version: Version, value: &Value) -> bool
    ensures { result ≡ is_plant version (view value.now) }
{
    has_form(plant_keys(), value)
        && are_leaps(value)
        && are_generators(value)
        && are_readers(version, value)
}
