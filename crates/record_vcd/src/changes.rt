//! What stands below the head, in pieces.

ghost use Rattle.std.specs.Prelude.{◌≡◌, ℕ, All, List, [], ◌∷◌, ◌++◌, take, length, Some, None, IfOk, IfSome, IfErr, MatchResult, IsFalse, ◌<◌, ◌≤◌};
ghost use Rattle.record_text.specs.Words.{Word, words_on};
ghost use Rattle.record_vcd.specs.Changes.{Said, changes_of, heard, said, said_by};
ghost use Rattle.record_vcd.specs.declared.changes.HeadFault.TheVariants.{Memory};
ghost use Rattle.record_vcd.specs.Changes.Said.{Change, Refused, Ends};
ghost use Rattle.record_vcd.specs.Meanings.{HasPlace, codes_at};
ghost use Rattle.record_vcd.specs.Dumps.{HeadFaultFits, IsBelow, IsReady, Leads, to_come, to_come_by, word_of, words_say};

use crate::chosen::Chosen;
use crate::head::Head;
use crate::meaning::{Meaning, Skip, meaning_of, skip_after, skip_in_remark};
use crate::now::{Fault, Now, Step};
use crate::section::Section;
use crate::unit::Unit;
use record_levels::Levels;
use record_text::Words;
use std::alloc::{AllocError, Global};

/// Why nothing is read below a head.
#[derive(Clone, Copy, PartialEq, Eq, Drop)]
pub enum HeadFault {
    /// There was no memory.
    Memory,
    /// The text ends within the head: a blank has to follow its last word.
    Unended,
    /// The head names no unit of times. It is that of the first `$timescale` that has a number from 1
    /// and one of s, ms, us, ns, ps and fs, and of which one is less than 2^64 parts ([`crate::Part`]).
    NoTimescale,
}

impl From<AllocError> for HeadFault {
    ghost from_gives = { λ _ fault. fault ≡ Memory };

    fn from(_: AllocError) -> HeadFault {
        HeadFault::Memory
    }
}

/// How many bytes were taken, and the levels that they say.
#[derive(Clone, Copy)]
pub struct Taken {
    /// From the front. All of them, if there are no levels.
    pub count: usize,
    /// The levels at the time before, if the last word of them went on to a later one.
    pub levels: Option<Levels>,
}

/// What is said at the end of a dump.
#[derive(Clone, Copy)]
pub struct End {
    /// The last levels, unless they were said before.
    pub levels: Option<Levels>,
    /// The time at which the recording ends, in nanoseconds.
    pub time_ns: u64,
}

// What a word says, and what is left out after it.
#[derive(Clone, Copy)]
struct Judged {
    meaning: Meaning,
    skip: Skip,
}

/// A dump below its head, as far as it was read.
#[derive(Drop)]
pub struct Changes {
    chosen: Chosen,
    unit: Unit,
    words: Words,
    skip: Skip,
    here: Now,
    refusal: Option<Fault>,
}

impl Changes {
    /// What follows a head, of up to five of its wires, which are chosen by their places among
    /// [`Head::wires`]. The levels of the first chosen are the bit of 1. If two chosen wires have one
    /// code, the first has its levels, and the other is low.
    pub fn new(alloc: Global, head: Head, chosen: &[usize]) -> Result<Changes, HeadFault>
        requires few { length chosen.now ≤ 5 }
        requires places { All (λ place. place < length head.wires.items) chosen.now }
        ensures says { IfOk result (λ changes. (unit : Unit) → head.unit ≡ Some unit
            → IsBelow head chosen.now unit changes) }
        ensures ready { IfOk result (λ changes. IsReady head) }
        ensures fault { IfErr result (λ fault. HeadFaultFits head fault) }
    {
        if !matches!(head.section, Section::Over) {
            return Err(HeadFault::Unended);
        }
        let Some(unit) = head.unit else {
            return Err(HeadFault::NoTimescale);
        };
        let chosen = Chosen::new(alloc, head.wires.as_slice(), chosen)?;
        Ok(Changes {
            chosen,
            unit,
            words: head.words,
            skip: Skip::Nothing,
            here: Now::start(),
            refusal: None,
        })
    }

    /// Reads on to a word that goes on to a later time, if levels were said at the one before, or to
    /// the end of these bytes. What was refused is refused again at each call.
    pub fn read(&mut self, bytes: &[u8]) -> Result<Taken, Fault>
        ensures within { IfOk result (λ taken. taken.count ≤ length bytes.now) }
        ensures some { IfOk result (λ taken. IfSome taken.levels (λ levels. 0 < taken.count)) }
        ensures all { IfOk result (λ taken. taken.levels ≡ None → taken.count ≡ length bytes.now) }
        ensures says { IfOk result (λ taken.
            Leads self.old (take taken.count bytes.now) taken.levels self.new) }
        ensures refuses { IfErr result (λ fault. (more : List ℕ)
            → to_come self.old (bytes.now ++ more) ≡ Refused fault ∷ []) }
        ensures stays { IfErr result (λ fault. self.new.refusal ≡ Some fault) }
    {
        if let Some(fault) = self.refusal {
            return Err(fault);
        }
        let mut count = 0;
        while count < bytes.len() {
            let (_, rest) = bytes.split_at(count);
            let next = self.words.next(rest);
            count += next.count;
            if let Some(line) = next.ended {
                let levels = self.hear(line)?;
                if levels.is_some() {
                    return Ok(Taken { count, levels });
                }
            }
        }
        Ok(Taken {
            count,
            levels: None,
        })
    }

    /// The text has ended: what the last word says, and the last levels.
    pub fn end(mut self) -> Result<End, Fault>
        ensures { MatchResult result
            (λ end. to_come self [] ≡ said end.levels ++ Ends end.time_ns ∷ [])
            (λ fault. to_come self [] ≡ Refused fault ∷ []) }
    {
        if let Some(fault) = self.refusal {
            return Err(fault);
        }
        let levels = self.last()?;
        Ok(End {
            levels,
            time_ns: self.here.time_ns,
        })
    }

    // The last word, and then the last levels.
    fn last(&mut self) -> Result<Option<Levels>, Fault>
        requires { self.old.refusal ≡ None }
        ensures says { IfOk result (λ levels. to_come self.old []
            ≡ said levels ++ Ends self.new.here.time_ns ∷ []) }
        ensures refuses { IfErr result (λ fault. to_come self.old [] ≡ Refused fault ∷ []) }
    {
        let line = self.words.line();
        if self.words.word().is_empty() {
            return Ok(self.here.due());
        }
        let levels = self.hear(line)?;
        if levels.is_some() {
            return Ok(levels);
        }
        Ok(self.here.due())
    }

    // A word has ended on this line: the levels that it says.
    fn hear(&mut self, line: u64) -> Result<Option<Levels>, Fault>
        requires { self.old.refusal ≡ None }
        ensures says { IfOk result (λ levels. (more : List ℕ)
            → to_come_by (Some line) self.old more ≡ said levels ++ to_come self.new more) }
        ensures goes { IfOk result (λ levels. self.new.refusal ≡ None) }
        ensures cleared { IfOk result (λ levels. self.new.words.word.items ≡ []) }
        ensures once { IfOk result (λ levels. IfSome levels (λ _. IsFalse self.new.here.is_due)) }
        ensures refuses { IfErr result (λ fault. (more : List ℕ)
            → to_come_by (Some line) self.old more ≡ Refused fault ∷ []) }
        ensures stays { IfErr result (λ fault. self.new.refusal ≡ Some fault) }
    {
        let judged = self.judged();
        self.skip = judged.skip;
        self.words.clear();
        match self.here.hear(line, judged.meaning) {
            Step::Goes(now) => {
                self.here = now;
                Ok(None)
            }
            Step::Says(levels, now) => {
                self.here = now;
                Ok(Some(levels))
            }
            Step::Refuses(fault) => {
                self.refusal = Some(fault);
                Err(fault)
            }
        }
    }

    // What the word says, unless it is left out, and what is left out after it.
    fn judged(&self) -> Judged
        ensures says { (now : Now) (line : ℕ) (others : List Word)
            → words_say self.now self.now.skip now (word_of self.now line ∷ others)
            ≡ said_by (heard now line result.meaning)
            (λ next. words_say self.now result.skip next others) }
        ensures place { HasPlace result.meaning }
    {
        let word = self.words.word();
        match self.skip {
            Skip::Nothing => Judged {
                meaning: meaning_of(&self.chosen, self.unit, word),
                skip: skip_after(word),
            },
            Skip::Code => Judged {
                meaning: Meaning::Nothing,
                skip: Skip::Nothing,
            },
            Skip::Remark => Judged {
                meaning: Meaning::Nothing,
                skip: skip_in_remark(word),
            },
        }
    }
}
