//! Objects by the tables of their keys: whether one has its form, and what stands at a key if
//! that is in the key's range.

ghost use Rattle.std.specs.Prelude.{◌≡◌, ◌<◌, ◌≤◌, ◌≤ℤ◌, IfSome, length, map, option_map, string_bytes};
ghost use Rattle.std.specs.List.{list_all, list_any, position};
ghost use Rattle.std.specs.Str.{bytes_eq};
ghost use Rattle.std.specs.BTreeMap.{keys};
ghost use Rattle.serde_json.specs.Find.{get};
ghost use Rattle.serde_json.specs.View.{view, members_view};
ghost use Rattle.scenario_json.specs.Json.{has_only};
ghost use Rattle.scenario_json.specs.Keys.{texts_of, key_value, names_of};
ghost use Rattle.scenario_json.specs.Fields.{fits, has_form, natural_least, natural_most, integer_least, integer_most, natural_at, integer_at, leap_at, reader_at, few_items, natural_in};

use crate::json::{at_most, integer_within, items_at, natural_within, text_at, whole_at, whole_of};
use crate::key::{Key, Kind, has_type};
use crate::keywords::leap_named;
use indexmap::IndexSet;
use irig_time::Leap;
use serde_json::{Map, Value};

/// Whether a value is an object with no other keys than these, none missing that must be there, and
/// at each a value of the right type. Ranges are not asked.
#[tactic(auto, unfolding(crate::specs::Fields::has_form), using(crate::proofs::FieldLaws::all_fit))]
pub fn has_form(keys: &[Key], value: &Value) -> bool
    ensures { result ≡ has_form (map key_value keys.now) (view value.now) }
{
    match value.as_object() {
        Some(members) => has_only(members, keys) && all_fit(keys, value),
        None => false,
    }
}

fn all_fit(keys: &[Key], value: &Value) -> bool
    ensures { result ≡ list_all
        (λ key. fits (key_value key) (get key.name.now (view value.now))) keys.now }
{
    keys.iter().all(|key| fits(key, value))
}

/// Whether a value has at a key what may stand there by its type, or nothing if it may be left out.
/// Its range is not asked.
pub fn fits(key: &Key, value: &Value) -> bool
    ensures { result ≡ fits (key_value key.now) (get key.now.name.now (view value.now)) }
{
    match value.get(key.name) {
        Some(item) => has_type(key.kind, item),
        None => !key.required,
    }
}

fn has_only(members: &Map<String, Value>, named: &[Key]) -> bool
    ensures { result ≡ has_only (names_of (map key_value named.now))
        (members_view members.now.entries) }
{
    are_named(members, named)
}

// The chain goes over the keys of the map, the definition over the members that they are.
fn are_named(members: &Map<String, Value>, named: &[Key]) -> bool
    ensures { result ≡ list_all
        (λ k. list_any (λ n. bytes_eq n.name.now (string_bytes k)) named.now)
        (keys members.now) }
{
    members.keys().all(|key| is_named(key.as_str(), named))
}

/// Whether a key of this name is among these.
pub fn is_named(key: &str, named: &[Key]) -> bool
    ensures { result ≡ list_any (λ n. bytes_eq n.name.now key.now) named.now }
{
    named.iter().any(|name| name.name == key)
}

/// The number at a key of kind `Natural`; none if there is none in its range.
#[tactic(auto, unfolding(crate::specs::Json::whole_at))]
pub fn natural_at(key: Key, value: &Value) -> Option<u64>
    ensures value { result ≡ natural_at (key_value key) (view value.now) }
    ensures least { IfSome result (λ n. natural_least key.kind ≤ n) }
    ensures most { IfSome result (λ n. n ≤ natural_most key.kind) }
{
    match key.kind {
        Kind::Natural(least, most) => natural_within(least, most, whole_at(value, key.name)?),
        _ => None,
    }
}

/// The number at a key of kind `Integer`; none if there is none in its range.
#[tactic(auto, unfolding(crate::specs::Json::whole_at))]
pub fn integer_at(key: Key, value: &Value) -> Option<i32>
    ensures value { result ≡ integer_at (key_value key) (view value.now) }
    ensures least { IfSome result (λ z. integer_least key.kind ≤ℤ z) }
    ensures most { IfSome result (λ z. z ≤ℤ integer_most key.kind) }
{
    match key.kind {
        Kind::Integer(least, most) => integer_within(least, most, whole_at(value, key.name)?),
        _ => None,
    }
}

/// The leap whose word stands at a key; none of another word.
pub fn leap_at(key: Key, value: &Value) -> Option<Leap>
    ensures { result ≡ leap_at (key_value key) (view value.now) }
{
    leap_named(text_at(value, key.name)?)
}

/// The place of the reader whose name stands at a key, from 0 on among at most 16 `names`; none of
/// another name.
pub fn reader_at(names: &IndexSet<String>, key: Key, value: &Value) -> Option<u8>
    requires { length names.now.keys ≤ 16 }
    ensures { result ≡ reader_at (texts_of names.now.keys) (key_value key) (view value.now) }
{
    let place = place_of(names, text_at(value, key.name)?)?;
    Some(place as u8)
}

fn place_of(names: &IndexSet<String>, name: &str) -> Option<usize>
    ensures place { result ≡ position (λ n. bytes_eq name.now n) (texts_of names.now.keys) }
    ensures within { IfSome result (λ i. i < length names.now.keys) }
{
    names.get_index_of(name)
}

/// The items of a list of kind `Few`; none if there are too many.
pub fn few_items(kind: Kind, items: &[Value]) -> Option<&[Value]>
    ensures { option_map (λ vs. map view vs.now) result ≡ few_items kind (map view items.now) }
{
    match kind {
        Kind::Few(count) => at_most(count, items),
        _ => None,
    }
}

/// The number that a value is, from 0 to `most`; none of another value.
pub fn natural_in(most: u32, value: &Value) -> Option<u32>
    ensures { result ≡ natural_in most (view value.now) }
{
    let number = natural_within(0, u64::from(most), whole_of(value)?)?;
    Some(number as u32)
}
