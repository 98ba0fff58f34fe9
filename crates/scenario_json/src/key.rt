//! Keys of JSON objects, for the tables of what stands in a line.

ghost use Rattle.std.specs.Prelude.{◌≡◌, is_some, map};
ghost use Rattle.std.specs.List.{list_all};
ghost use Rattle.serde_json.specs.View.{view};
ghost use Rattle.scenario_json.specs.Json.{whole_of};
ghost use Rattle.scenario_json.specs.Keys.{are_wholes, has_type};

use crate::json::{items_in, whole_of};
use serde_json::Value;

/// What may stand at a key: its type, and its range if it has one.
#[derive(Clone, Copy)]
pub enum Kind {
    /// A text of this form.
    Text(Text),
    /// A whole number.
    Whole,
    /// `true` or `false`.
    Truth,
    /// A list.
    List,
    /// A list of at most so many items.
    Few(usize),
    /// An object.
    Object,
    /// A whole number from the first to the second.
    Natural(u64, u64),
    /// A whole number, which may be negative, from the first to the second.
    Integer(i32, i32),
    /// A list of at most so many whole numbers, each from 0 to the second.
    Naturals(usize, u32),
}

/// The form of a text.
#[derive(Clone, Copy)]
pub enum Text {
    /// Any text.
    Any,
    /// The name of a reader.
    Reader,
    /// A name that a reader is given.
    Name,
    /// A UTC second.
    Second,
    /// A day.
    Day,
    /// `even` or `odd`.
    Parity,
    /// `add` or `subtract`.
    Sense,
    /// `check` or `ignore`.
    SbsUse,
    /// `insert` or `delete`.
    Leap,
}

/// A key of an object, and what may stand there.
#[derive(Clone, Copy)]
pub struct Key {
    /// How it is written.
    pub name: &'static str,
    /// What may stand there.
    pub kind: Kind,
    /// Whether it must be there.
    pub required: bool,
}

/// A [`Key`] that must be there, as `key!("g": Kind::Natural(0, 255))`.
#[macro_export]
macro_rules! key {
    ($name:literal: $kind:expr) => {
        $crate::Key {
            name: $name,
            kind: $kind,
            required: true,
        }
    };
}

/// A [`Key`] that may be left out, as `optional_key!("dst": Kind::Truth)`.
#[macro_export]
macro_rules! optional_key {
    ($name:literal: $kind:expr) => {
        $crate::Key {
            name: $name,
            kind: $kind,
            required: false,
        }
    };
}

/// Whether a value is of the type of a kind. Its range is not asked.
pub fn has_type(kind: Kind, value: &Value) -> bool
    ensures { result ≡ has_type kind (view value.now) }
{
    match kind {
        Kind::Text(_) => value.as_str().is_some(),
        Kind::Truth => value.as_bool().is_some(),
        Kind::List | Kind::Few(_) => value.as_array().is_some(),
        Kind::Object => value.as_object().is_some(),
        Kind::Whole | Kind::Natural(..) | Kind::Integer(..) => whole_of(value).is_some(),
        Kind::Naturals(..) => items_in(value).is_some_and(are_wholes),
    }
}

#[tactic(auto, using(crate::proofs::ListLaws::all_wholes))]
fn are_wholes(values: &[Value]) -> bool
    ensures { result ≡ are_wholes (map view values.now) }
{
    each_is_whole(values)
}

fn each_is_whole(values: &[Value]) -> bool
    ensures { result ≡ list_all (λ v. is_some (whole_of (view v))) values.now }
{
    values.iter().all(|value| whole_of(value).is_some())
}
