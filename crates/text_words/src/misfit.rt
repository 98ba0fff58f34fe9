//! What is wrong in a line: the place, what stands there, and what may stand there.

ghost use Rattle.std.specs.Prelude.{◌≡◌};

use crate::path::JsonPath;
use indexmap::IndexSet;
use scenario_json::Key;
use serde_json::Value;

/// What stands where it should not.
#[derive(Clone, Copy)]
pub enum Found<'a> {
    /// This, where an object belongs.
    NoObject(&'a Value),
    /// A key that the object does not have.
    OtherKey(&'a str),
    /// Nothing at a key that it must have.
    Missing(&'static str),
    /// This at a key.
    AtKey(&'static str, &'a Value),
    /// A table in a plant line of version 1.
    EarlyTable,
    /// An event where the plant line belongs.
    EarlyEvent,
    /// A plant line where an event belongs.
    SecondPlant,
    /// This at a place, from 0, of the list at a key.
    InList(&'static str, usize, &'a Value),
}

/// What may stand there.
#[derive(Clone, Copy)]
pub enum Expected<'a> {
    /// An object.
    Object,
    /// One of these keys.
    Keys(&'static [Key]),
    /// A value of the type and range of a key.
    Typed(Key),
    /// A value of the range of a key.
    Ranged(Key),
    /// One of these words.
    Words(&'static [&'static str]),
    /// One of these names.
    Names(&'a IndexSet<String>),
    /// A number from the first to the second.
    Range(i128, i128),
    /// A second that the timeline has.
    Start,
    /// What a text says.
    Text(&'static str),
    /// The same, and the text has a comma.
    Clause(&'static str),
    /// Nothing is said of it.
    Nothing,
}

/// What is said besides.
#[derive(Clone, Copy)]
pub enum Note {
    /// Nothing.
    Nothing,
    /// Why it does not fit.
    Why(&'static str),
    /// At which edge a generator is.
    Edge(u64, u64),
}

/// Something in a line that does not fit.
#[derive(Clone, Copy)]
pub struct Misfit<'a> {
    /// The object in which it stands.
    pub place: JsonPath,
    /// What stands there.
    pub found: Found<'a>,
    /// What may stand there.
    pub expected: Expected<'a>,
    /// What is said besides.
    pub note: Note,
    /// The list of a plant line in which its readers stand, `readers`, or its devices, `devices`.
    pub owners: &'static str,
}

impl<'a> Misfit<'a> {
    /// This at a place where something else may stand.
    pub fn new(place: JsonPath, found: Found<'a>, expected: Expected<'a>) -> Misfit<'a>
        ensures { result.place ≡ place }
    {
        Misfit {
            place,
            found,
            expected,
            note: Note::Nothing,
            owners: "readers",
        }
    }

    /// What stands at a key of an object, where something else may; or that nothing does.
    pub fn at(
        place: JsonPath,
        name: &'static str,
        object: &'a Value,
        expected: Expected<'a>,
    ) -> Misfit<'a>
        ensures { result.place ≡ place }
    {
        let found = match object.get(name) {
            Some(item) => Found::AtKey(name, item),
            None => Found::Missing(name),
        };
        Misfit::new(place, found, expected)
    }

    /// The same misfit, of which this is said besides.
    pub fn with(self, note: Note) -> Misfit<'a>
        ensures { result.place ≡ self.entry.place }
    {
        Misfit { note, ..self }
    }

    /// The same misfit, in a line whose readers or devices stand in this list.
    pub fn of(self, owners: &'static str) -> Misfit<'a>
        ensures { result.place ≡ self.entry.place }
    {
        Misfit { owners, ..self }
    }
}
