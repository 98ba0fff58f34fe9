//! Whether what stands at a key is in its range.

ghost use Rattle.std.specs.Prelude.{◌≡◌, is_some, map};
ghost use Rattle.std.specs.List.{list_all};
ghost use Rattle.serde_json.specs.View.{view};
ghost use Rattle.scenario_json.specs.Fields.{natural_in};
ghost use Rattle.scenario_json.specs.Keys.{key_value};
ghost use Rattle.text_refusal.specs.Values.{are_naturals, has_value, have_values, in_range, is_text};

use irig_time::{read_day, read_text};
use scenario_json::{
    Key, Kind, Text, at_most, few_items, integer_at, items_at, leap_named, natural_at, natural_in,
    parity_of, sbs_use_of, sense_of, text_at,
};
use serde_json::Value;

/// Whether at each of these keys nothing stands, or what is in its range.
pub(crate) fn have_values(keys: &[Key], value: &Value) -> bool
    ensures { result ≡ have_values (map key_value keys.now) (view value.now) }
{
    each_has_value(keys, value)
}

fn each_has_value(keys: &[Key], value: &Value) -> bool
    ensures { result ≡ list_all (λ key. has_value (key_value key) (view value.now)) keys.now }
{
    keys.iter().all(|key| has_value(key, value))
}

/// Whether nothing stands at a key, or what is in its range.
#[tactic(auto, unfolding(crate::specs::Values::has_value))]
pub(crate) fn has_value(key: &Key, value: &Value) -> bool
    ensures { result ≡ has_value (key_value key.now) (view value.now) }
{
    value.get(key.name).is_none() || in_range(*key, value)
}

#[tactic(auto, unfolding(crate::specs::Values::in_range))]
fn in_range(key: Key, value: &Value) -> bool
    ensures { result ≡ in_range key.kind (key_value key) (view value.now) }
{
    match key.kind {
        Kind::Natural(..) => natural_at(key, value).is_some(),
        Kind::Integer(..) => integer_at(key, value).is_some(),
        Kind::Few(_) => match items_at(value, key.name) {
            Some(items) => few_items(key.kind, items).is_some(),
            None => false,
        },
        Kind::Naturals(count, most) => match items_at(value, key.name) {
            Some(items) => are_naturals(count, most, items),
            None => false,
        },
        Kind::Text(form) => match text_at(value, key.name) {
            Some(text) => is_text(form, text),
            None => false,
        },
        Kind::Whole | Kind::Truth | Kind::List | Kind::Object => true,
    }
}

fn are_naturals(count: usize, most: u32, items: &[Value]) -> bool
    ensures { result ≡ are_naturals count most (map view items.now) }
{
    at_most(count, items).is_some() && each_is_natural(most, items)
}

fn each_is_natural(most: u32, items: &[Value]) -> bool
    ensures { result ≡ list_all (λ item. is_some (natural_in most (view item))) items.now }
{
    items.iter().all(|item| natural_in(most, item).is_some())
}

fn is_text(form: Text, text: &str) -> bool
    ensures { result ≡ is_text form text.now }
{
    match form {
        Text::Second => read_text(text.as_bytes()).is_some(),
        Text::Day => read_day(text.as_bytes()).is_some(),
        Text::Parity => parity_of(text).is_some(),
        Text::Sense => sense_of(text).is_some(),
        Text::SbsUse => sbs_use_of(text).is_some(),
        Text::Leap => leap_named(text).is_some(),
        Text::Any | Text::Reader | Text::Name => true,
    }
}
