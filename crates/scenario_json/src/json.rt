//! What a JSON value is and has.

ghost use Rattle.std.specs.Prelude.{◌≡◌, ◌≤◌, ◌≤ℤ◌, IfSome, map, option_map};
ghost use Rattle.serde_json.specs.View.{view};
ghost use Rattle.scenario_json.specs.Json.{whole_of, whole_at, text_at, items_in, items_at, at_most, natural_within, integer_within};

use serde_json::Value;

/// The whole number that a value is, from `i64::MIN` to `u64::MAX`; none if it is another value.
pub fn whole_of(value: &Value) -> Option<i128>
    ensures { result ≡ whole_of (view value.now) }
{
    match value.as_u64() {
        Some(number) => Some(i128::from(number)),
        None => value.as_i64().map(i128::from),
    }
}

/// The whole number at a key of an object, from `i64::MIN` to `u64::MAX`; none if there is no
/// such key, or another value there.
#[tactic(auto, unfolding(crate::specs::Json::whole_at))]
pub fn whole_at(value: &Value, key: &str) -> Option<i128>
    ensures { result ≡ whole_at key.now (view value.now) }
{
    whole_of(value.get(key)?)
}

/// The text at a key of an object; none if there is no such key, or another value there.
#[tactic(auto, unfolding(crate::specs::Json::text_at))]
pub fn text_at<'a>(value: &'a Value, key: &str) -> Option<&'a str>
    ensures { option_map (λ s. s.now) result ≡ text_at key.now (view value.now) }
{
    value.get(key).and_then(Value::as_str)
}

/// The items of a list in order; none if the value is no list.
#[tactic(auto, using(crate::proofs::ListLaws::list_of_items))]
pub fn items_in(value: &Value) -> Option<&[Value]>
    ensures { option_map (λ vs. map view vs.now) result ≡ items_in (view value.now) }
{
    Some(value.as_array()?.as_slice())
}

/// The items of the list at a key of an object; none if there is no such key, or another value
/// there.
#[tactic(auto, unfolding(crate::specs::Json::items_at), using(crate::proofs::ListLaws::list_of_items))]
pub fn items_at<'a>(value: &'a Value, key: &str) -> Option<&'a [Value]>
    ensures { option_map (λ vs. map view vs.now) result ≡ items_at key.now (view value.now) }
{
    Some(value.get(key)?.as_array()?.as_slice())
}

/// The items, if there are no more than `limit`.
pub fn at_most(limit: usize, items: &[Value]) -> Option<&[Value]>
    ensures { option_map (λ vs. map view vs.now) result ≡ at_most limit (map view items.now) }
{
    if items.len() <= limit {
        Some(items)
    } else {
        None
    }
}

/// A number from `least` to `most`, both taken; none outside.
pub fn natural_within(least: u64, most: u64, number: i128) -> Option<u64>
    ensures value { result ≡ natural_within least most number }
    ensures least { IfSome result (λ n. least ≤ n) }
    ensures most { IfSome result (λ n. n ≤ most) }
{
    match u64::try_from(number) {
        Ok(natural) if least <= natural && natural <= most => Some(natural),
        _ => None,
    }
}

/// A number from `least` to `most`, both taken; none outside.
pub fn integer_within(least: i32, most: i32, number: i128) -> Option<i32>
    ensures value { result ≡ integer_within least most number }
    ensures least { IfSome result (λ z. least ≤ℤ z) }
    ensures most { IfSome result (λ z. z ≤ℤ most) }
{
    if i128::from(least) <= number && number <= i128::from(most) {
        Some(number as i32)
    } else {
        None
    }
}
