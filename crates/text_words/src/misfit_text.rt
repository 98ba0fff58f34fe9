//! What is wrong in a line, in words.

ghost use Rattle.std.specs.Prelude.{◌≡◌, IfOk, Some};

use crate::draft::Draft;
use crate::misfit::{Found, Misfit, Note};
use crate::path::JsonPath;
use crate::reason::Reason;
use std::alloc::{AllocError, Global};

impl Misfit<'_> {
    /// The reason that names its place, what stands there and what may. Fails only if there is no
    /// memory.
    pub fn reason(&self, alloc: Global) -> Result<Reason, AllocError>
        ensures { IfOk result (λ reason. reason.place ≡ Some self.now.place) }
    {
        let mut draft = Draft::new(alloc);
        draft.misfit(self);
        draft.end(Some(self.place))
    }
}

impl Draft {
    fn misfit(&mut self, misfit: &Misfit<'_>) {
        self.place(misfit.place, misfit.owners);
        self.found(misfit.found);
        self.expected(misfit.expected);
        match misfit.note {
            Note::Nothing => {}
            Note::Why(why) => {
                self.push(": ");
                self.push(why);
            }
            Note::Edge(generator, edge) => {
                self.push(": generator ");
                self.number(i128::from(generator));
                self.push(" is at edge ");
                self.number(i128::from(edge));
            }
        }
    }

    // The place of an object, with a colon behind it; of the line's own nothing.
    fn place(&mut self, place: JsonPath, owners: &str) {
        let start = self.mark();
        match place {
            JsonPath::Line => return,
            JsonPath::Leap(at) => self.item("leaps", at),
            JsonPath::Generator(at) => self.item("generators", at),
            JsonPath::Change(above, at) => {
                self.item("generators", above);
                self.item(".changes", at);
            }
            JsonPath::Reader(at) => self.item(owners, at),
            JsonPath::Table(at) => {
                self.item(owners, at);
                self.push(".table");
            }
            JsonPath::TableLeap(above, at) => {
                self.item(owners, above);
                self.item(".table.leaps", at);
            }
        }
        self.parts.place = self.since(start);
        self.push(": ");
    }

    fn item(&mut self, list: &str, at: usize) {
        self.push(list);
        self.push("[");
        self.number(at as i128);
        self.push("]");
    }

    // What stands there.
    fn found(&mut self, found: Found<'_>) {
        match found {
            Found::NoObject(value) => {
                self.push("this is ");
                self.value(value);
            }
            Found::OtherKey(name) => {
                self.key(name);
                self.push(" is no key");
            }
            Found::Missing(name) => {
                self.key(name);
                self.push(" is missing");
            }
            Found::AtKey(name, value) => {
                self.key(name);
                self.push(" is ");
                self.value(value);
            }
            Found::InList(name, at, value) => {
                self.key(name);
                self.push("[");
                self.number(at as i128);
                self.push("] is ");
                self.value(value);
            }
            Found::EarlyTable => {
                self.key("table");
                self.push(" is no key of version 1; versions 2 and 3 have it");
            }
            Found::EarlyEvent => {
                self.key("do");
                self.push(" is a key of an event; the plant line comes first");
            }
            Found::SecondPlant => {
                self.key("version");
                self.push(" is a key of a plant line; a scenario has one, its first line");
            }
        }
    }

    fn key(&mut self, name: &str) {
        let start = self.mark();
        self.quoted(name);
        self.parts.key = self.since(start);
    }
}
