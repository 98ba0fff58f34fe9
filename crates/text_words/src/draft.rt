//! A text that is written part by part.

ghost use Rattle.std.specs.Prelude.{◌≡◌, IfOk};

use crate::path::JsonPath;
use crate::reason::{Parts, Reason, Span};
use crate::start::start_of;
use serde_json::Value;
use std::alloc::{AllocError, Global};

/// A text that grows part by part. No memory is kept for its end, so that no part has to ask.
#[derive(Drop)]
pub(crate) struct Draft {
    alloc: Global,
    text: String,
    is_short: bool,
    pub(crate) parts: Parts,
}

// The longest text, in characters, that is shown whole.
const MOST_SHOWN: usize = 60;

impl Draft {
    pub(crate) fn new(alloc: Global) -> Draft {
        Draft {
            alloc,
            text: String::new(alloc),
            is_short: false,
            parts: Parts::NONE,
        }
    }

    /// The text and its parts; fails if there was no memory for one.
    pub(crate) fn end(self, place: Option<JsonPath>) -> Result<Reason, AllocError>
        ensures { IfOk result (λ reason. reason.place ≡ place) }
    {
        let Draft {
            text,
            is_short,
            parts,
            ..
        } = self;
        if is_short {
            Err(AllocError)
        } else {
            Ok(Reason { text, place, parts })
        }
    }

    /// The byte that comes next.
    pub(crate) fn mark(&self) -> usize {
        self.text.len()
    }

    /// The bytes since a mark.
    pub(crate) fn since(&self, start: usize) -> Span {
        Span {
            start,
            end: self.text.len(),
        }
    }

    pub(crate) fn push(&mut self, part: &str) {
        if self.text.push_str(part).is_err() {
            self.is_short = true;
        }
    }

    fn take(&mut self, part: Result<String, AllocError>) {
        match part {
            Ok(part) => self.push(part.as_str()),
            Err(_) => self.is_short = true,
        }
    }

    pub(crate) fn number(&mut self, number: i128) {
        self.take(format!(in self.alloc; "{number}"));
    }

    /// A byte, as `'a'` or `0xff`.
    pub(crate) fn byte(&mut self, byte: u8) {
        if byte.is_ascii_graphic() {
            self.take(format!(in self.alloc; "'{}'", char::from(byte)));
        } else {
            self.take(format!(in self.alloc; "0x{byte:02x}"));
        }
    }

    /// A character, as `'a'`.
    pub(crate) fn letter(&mut self, letter: char) {
        self.take(format!(in self.alloc; "'{}'", letter.escape_debug()));
    }

    /// The numbers from one to another, as `0 to 99`.
    pub(crate) fn range(&mut self, least: i128, most: i128) {
        self.number(least);
        self.push(" to ");
        self.number(most);
    }

    /// A word in quotes.
    fn word(&mut self, word: &str) {
        self.push("\"");
        self.push(word);
        self.push("\"");
    }

    /// The next word of a list, as `"a", "b"`.
    pub(crate) fn next_word(&mut self, is_first: bool, word: &str) {
        if !is_first {
            self.push(", ");
        }
        self.word(word);
    }

    /// A text in quotes, cut if it is long.
    pub(crate) fn quoted(&mut self, text: &str) {
        self.shown(format!(in self.alloc; "\"{}\"", text.escape_debug()));
    }

    /// A value: its text, cut if it is long; of a list how many items it has.
    pub(crate) fn value(&mut self, value: &Value) {
        let start = self.mark();
        if let Some(items) = value.as_array() {
            self.push("a list of ");
            self.number(items.len() as i128);
        } else if value.is_object() {
            self.push("an object");
        } else {
            self.shown(json_text(self.alloc, value));
        }
        self.parts.value = self.since(start);
    }

    // A text, cut if it is long.
    fn shown(&mut self, text: Result<String, AllocError>) {
        match text {
            Ok(text) => self.cut(text.as_str()),
            Err(_) => self.is_short = true,
        }
    }

    fn cut(&mut self, text: &str) {
        match start_of(text, MOST_SHOWN) {
            Some(start) => {
                self.push(start);
                self.push("..");
            }
            None => self.push(text),
        }
    }
}

// A value as JSON has it, in which a terminal has nothing to obey: what is not printable is escaped.
fn json_text(alloc: Global, value: &Value) -> Result<String, AllocError> {
    let mut shown = String::new(alloc);
    for letter in value.to_string(alloc)?.chars() {
        if is_printable(letter) {
            shown.push(letter)?;
        } else {
            push_escaped(alloc, &mut shown, letter)?;
        }
    }
    Ok(shown)
}

fn is_printable(letter: char) -> bool {
    letter == ' '
        || letter.is_ascii_graphic()
        || !letter.is_ascii() && letter.escape_debug().nth(1).is_none()
}

// As JSON escapes it: each unit of UTF-16 by four hexadecimal digits.
fn push_escaped(alloc: Global, text: &mut String, letter: char) -> Result<(), AllocError> {
    for unit in letter.encode_utf16(&mut [0; 2]) {
        text.push_str(format!(in alloc; "\\u{unit:04x}")?.as_str())?;
    }
    Ok(())
}
