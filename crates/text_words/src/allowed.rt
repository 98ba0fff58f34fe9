//! What may stand at a place, in words.

use crate::draft::Draft;
use crate::misfit::Expected;
use indexmap::IndexSet;
use scenario_json::{Key, Kind, LEAP_WORDS, PARITY_WORDS, SBS_USE_WORDS, SENSE_WORDS, Text};

static START_RULE: &str =
    ": 23:59:60 needs an \"insert\" of that day, and a \"delete\" takes 23:59:59 away";

impl Draft {
    /// What may stand there, behind what stands there.
    pub(crate) fn expected(&mut self, expected: Expected<'_>) {
        if let Expected::Nothing = expected {
            return;
        }
        self.push("; ");
        let start = self.mark();
        self.one_of(expected);
        self.parts.allowed = self.since(start);
        self.push(if has_comma(expected) {
            ", may stand here"
        } else {
            " may stand here"
        });
        if let Expected::Start = expected {
            self.push(START_RULE);
        }
    }

    fn one_of(&mut self, expected: Expected<'_>) {
        match expected {
            Expected::Object => self.push("an object"),
            Expected::Keys(keys) => self.keys(keys),
            Expected::Words(words) => self.words(words),
            Expected::Names(names) => self.names(names),
            Expected::Typed(key) => self.typed(key),
            Expected::Ranged(key) => self.ranged(key),
            Expected::Range(least, most) => self.range(least, most),
            Expected::Start => self.push("a second that \"leaps\" gives its day"),
            Expected::Text(text) | Expected::Clause(text) => self.push(text),
            Expected::Nothing => {}
        }
    }

    fn names(&mut self, names: &IndexSet<String>) {
        let mut is_first = true;
        for name in names.iter() {
            self.next_word(is_first, name.as_str());
            is_first = false;
        }
    }

    fn typed(&mut self, key: Key) {
        if is_number(key.kind) {
            self.push("a whole number, ");
        }
        self.ranged(key);
    }

    // Of an offset what a generator takes, and not what a line can have.
    fn ranged(&mut self, key: Key) {
        match key.name {
            "local" => self.push("-31 to 31 half hours"),
            _ => self.kind(key.kind),
        }
    }

    fn keys(&mut self, keys: &[Key]) {
        for (at, key) in keys.iter().enumerate() {
            self.next_word(at == 0, key.name);
        }
    }

    fn words(&mut self, words: &[&str]) {
        for (at, word) in words.iter().enumerate() {
            self.next_word(at == 0, word);
        }
    }

    fn kind(&mut self, kind: Kind) {
        match kind {
            Kind::Natural(least, most) => self.range(i128::from(least), i128::from(most)),
            Kind::Integer(least, most) => self.range(i128::from(least), i128::from(most)),
            Kind::Few(count) => self.at_most(count),
            Kind::Naturals(count, most) => {
                self.at_most(count);
                self.push(" whole numbers, each ");
                self.range(0, i128::from(most));
            }
            Kind::Text(text) => self.text(text),
            Kind::Whole => self.push("a whole number"),
            Kind::Truth => self.push("true or false"),
            Kind::List => self.push("a list"),
            Kind::Object => self.push("an object"),
        }
    }

    fn text(&mut self, text: Text) {
        match text {
            Text::Any => self.push("a text"),
            Text::Reader => self.push("the name of a reader"),
            Text::Name => self.push("1 to 16 of a to z, 0 to 9, _ and -"),
            Text::Second => self.push(
                "a UTC second, as \"2016-12-31T23:59:50Z\", from 2000-01-02 to 2099-12-30",
            ),
            Text::Day => self.push("a day, as \"2016-12-31\", from 2000-01-02 to 2099-12-30"),
            Text::Parity => self.either(&PARITY_WORDS),
            Text::Sense => self.either(&SENSE_WORDS),
            Text::SbsUse => self.either(&SBS_USE_WORDS),
            Text::Leap => self.either(&LEAP_WORDS),
        }
    }

    fn either(&mut self, [one, other]: &[&str; 2]) {
        self.next_word(true, one);
        self.push(" or ");
        self.next_word(true, other);
    }

    fn at_most(&mut self, count: usize) {
        self.push("a list of at most ");
        self.number(count as i128);
    }
}

fn is_number(kind: Kind) -> bool {
    matches!(kind, Kind::Natural(..) | Kind::Integer(..))
}

// Whether the words for it have a comma, so that one stands behind them too.
fn has_comma(expected: Expected<'_>) -> bool {
    match expected {
        Expected::Clause(_) => true,
        Expected::Typed(key) => is_number(key.kind) || has_clause(key.kind),
        Expected::Ranged(key) => has_clause(key.kind),
        _ => false,
    }
}

fn has_clause(kind: Kind) -> bool {
    matches!(
        kind,
        Kind::Naturals(..) | Kind::Text(Text::Second | Text::Day)
    )
}
