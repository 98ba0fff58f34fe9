//! Stretches that ended, as many as are kept, and those that are open.

ghost use Rattle.std.specs.Prelude.{◌≡◌, ◌++◌, [], List, option_to_list};
ghost use Rattle.record_verdict.specs.declared.stretch.Stretch.{Stretch as StretchOf};
ghost use Rattle.record_verdict.specs.Ended.{AreEnded, ended_at, none_unended, unended_after};

use crate::stretch::{AgreedSecond, Stretch, ended_by, stretch_after};
use crate::tales::Tales;
use arrayvec::ArrayVec;

/// Stretches that ended: the first 64 of them, and how many came after these.
#[derive(Drop)]
pub struct Ended {
    /// The first 64, in the order in which they ended.
    pub kept: ArrayVec<Stretch, 64>,
    /// How many ended after these. It stays at 2^64 - 1 if it comes to it.
    pub more: u64,
}

impl Ended {
    pub(crate) fn none() -> Ended
        ensures { AreEnded result [] }
    {
        Ended {
            kept: ArrayVec::new(),
            more: 0,
        }
    }

    fn push(&mut self, stretch: Stretch)
        ensures { (all : List StretchOf) → AreEnded self.old all
            → AreEnded self.new (all ++ option_to_list (Some stretch)) }
    {
        if self.kept.is_full() {
            self.more = self.more.saturating_add(1);
        } else {
            self.kept.push(stretch);
        }
    }

    fn note(&mut self, stretch: Option<Stretch>)
        ensures { (all : List StretchOf) → AreEnded self.old all
            → AreEnded self.new (all ++ option_to_list stretch) }
    {
        if let Some(stretch) = stretch {
            self.push(stretch);
        }
    }

    /// Those end that end where lines say this of a second, in the lines' order.
    pub(crate) fn note_all(&mut self, unended: &Unended, second: AgreedSecond, tales: &Tales)
        ensures { (all : List StretchOf) → AreEnded self.old all
            → AreEnded self.new (all ++ ended_at unended.now second tales.now) }
    {
        self.note(ended_by(unended.a, second, tales.a));
        self.note(ended_by(unended.b, second, tales.b));
        self.note(ended_by(unended.c, second, tales.c));
        self.note(ended_by(unended.d, second, tales.d));
        self.note(ended_by(unended.e, second, tales.e));
    }
}

/// The open stretch of each line, if it has one.
#[derive(Clone, Copy)]
pub struct Unended {
    /// That of line 0.
    pub a: Option<Stretch>,
    /// That of line 1.
    pub b: Option<Stretch>,
    /// That of line 2.
    pub c: Option<Stretch>,
    /// That of line 3.
    pub d: Option<Stretch>,
    /// That of line 4.
    pub e: Option<Stretch>,
}

impl Unended {
    pub(crate) fn none() -> Unended
        ensures { result ≡ none_unended }
    {
        Unended {
            a: None,
            b: None,
            c: None,
            d: None,
            e: None,
        }
    }

    /// Those after an agreed second at which lines say this.
    pub(crate) fn after(self, second: AgreedSecond, tales: &Tales) -> Unended
        ensures { result ≡ unended_after self second tales.now }
    {
        Unended {
            a: stretch_after(self.a, 0, second, tales.a),
            b: stretch_after(self.b, 1, second, tales.b),
            c: stretch_after(self.c, 2, second, tales.c),
            d: stretch_after(self.d, 3, second, tales.d),
            e: stretch_after(self.e, 4, second, tales.e),
        }
    }
}
