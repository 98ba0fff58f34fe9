//! Where an object has not its form: another key, one that is missing, or a value of another type.

ghost use Rattle.std.specs.Prelude.{◌≡◌, IfSome, false, map};
ghost use Rattle.serde_json.specs.View.{view};
ghost use Rattle.scenario_json.specs.Fields.{has_form};
ghost use Rattle.scenario_json.specs.Keys.{key_value};

use scenario_json::{Key, fits, has_form, is_named};
use serde_json::{Map, Value};
use text_words::{Expected, Found, JsonPath, Misfit};

/// What keeps a value at a place from the form of these keys, if anything does.
pub(crate) fn find_in_shape<'a>(
    place: JsonPath,
    keys: &'static [Key],
    value: &'a Value,
) -> Option<Misfit<'a>>
    ensures place { IfSome result (λ misfit. misfit.place ≡ place) }
    ensures wrong { IfSome result (λ misfit.
        has_form (map key_value keys.now) (view value.now) ≡ false) }
{
    if has_form(keys, value) {
        return None;
    }
    match value.as_object() {
        None => Some(Misfit::new(place, Found::NoObject(value), Expected::Object)),
        Some(members) => match other_key(keys, members) {
            Some(name) => Some(Misfit::new(place, Found::OtherKey(name), Expected::Keys(keys))),
            None => find_at_keys(place, keys, value),
        },
    }
}

fn other_key<'a>(keys: &[Key], members: &'a Map<String, Value>) -> Option<&'a str> {
    for name in members.keys() {
        if !is_named(name.as_str(), keys) {
            return Some(name.as_str());
        }
    }
    None
}

fn find_at_keys<'a>(place: JsonPath, keys: &[Key], value: &'a Value) -> Option<Misfit<'a>>
    ensures { IfSome result (λ misfit. misfit.place ≡ place) }
{
    for key in keys {
        if !fits(key, value) {
            return Some(Misfit::at(place, key.name, value, Expected::Typed(*key)));
        }
    }
    None
}
