//! Where a value is of the right type, and outside its range or none of its words.

ghost use Rattle.std.specs.Prelude.{◌≡◌, IfSome, false, map};
ghost use Rattle.serde_json.specs.View.{view};
ghost use Rattle.scenario_json.specs.Keys.{key_value};
ghost use Rattle.text_refusal.specs.Values.{have_values};

use crate::range::{has_value, have_values};
use scenario_json::{Key, Kind, Text, at_most, items_at, natural_in, text_at};
use serde_json::Value;
use text_words::{Expected, Found, JsonPath, Misfit, Note, reason_of_day, reason_of_time};

/// Which value of an object is outside the range of its key, if one is.
pub(crate) fn find_in_values<'a>(
    place: JsonPath,
    keys: &[Key],
    value: &'a Value,
) -> Option<Misfit<'a>>
    ensures place { IfSome result (λ misfit. misfit.place ≡ place) }
    ensures wrong { IfSome result (λ misfit.
        have_values (map key_value keys.now) (view value.now) ≡ false) }
{
    if have_values(keys, value) {
        return None;
    }
    for key in keys {
        if !has_value(key, value) {
            return Some(misfit_at(place, *key, value));
        }
    }
    None
}

fn misfit_at(place: JsonPath, key: Key, value: &Value) -> Misfit<'_>
    ensures { result.place ≡ place }
{
    if let Kind::Naturals(count, most) = key.kind
        && let Some((at, natural)) = first_outside(count, most, key.name, value)
    {
        let found = Found::InList(key.name, at, natural);
        return Misfit::new(place, found, Expected::Range(0, i128::from(most)));
    }
    Misfit::at(place, key.name, value, Expected::Ranged(key)).with(why_no_date(key, value))
}

fn why_no_date(key: Key, value: &Value) -> Note {
    match (key.kind, text_at(value, key.name)) {
        (Kind::Text(Text::Second), Some(text)) => Note::Why(reason_of_time(text)),
        (Kind::Text(Text::Day), Some(text)) => Note::Why(reason_of_day(text)),
        _ => Note::Nothing,
    }
}

// The first item of a list, if it has no more than `count`, that is no number from 0 to `most`, and
// its place.
fn first_outside<'a>(
    count: usize,
    most: u32,
    key: &str,
    value: &'a Value,
) -> Option<(usize, &'a Value)> {
    let items = at_most(count, items_at(value, key)?)?;
    for (at, item) in items.iter().enumerate() {
        if natural_in(most, item).is_none() {
            return Some((at, item));
        }
    }
    None
}
