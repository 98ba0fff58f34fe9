//! What the seconds of a recording come to.

ghost use Rattle.std.specs.Prelude.{◌≡◌, ◌∷◌, [], ℕ, is_some, List};
ghost use Rattle.record_lines.specs.declared.second.RecordedSecond.{RecordedSecond as SecondOf};
ghost use Rattle.record_verdict.specs.Verdicts.{IsVerdictOf, first_agreed, last_agreed};
ghost use Rattle.record_verdict.specs.Zeros.{zero_of};

use crate::ended::{Ended, Unended};
use crate::jump::{Jumps, jump_between};
use crate::stretch::AgreedSecond;
use crate::tales::Tales;
use crate::zero::{Zero, zero_by};
use irig_time::Claim;
use record_lines::RecordedSecond;

/// What the seconds come to that a recording of lines shows: since when which line is wrong, and on
/// which seconds most lines agree. It takes some 10 kB, however many seconds there are.
#[derive(Drop)]
pub struct Verdict {
    /// How many lines there are: 1, 3 or 5.
    pub lines: u8,
    /// The stretches that ended.
    pub ended: Ended,
    /// Those that are open.
    pub unended: Unended,
    /// On how many seconds most lines agree. It stays at 2^64 - 1 if it comes to it.
    pub agreed: u64,
    /// On how many they do not. It stays at 2^64 - 1 if it comes to it.
    pub without_vote: u64,
    /// When the first of these ends, in microseconds of the recording.
    pub first_without_us: Option<u64>,
    /// The first second on which they agree.
    pub first: Option<AgreedSecond>,
    /// The last one.
    pub last: Option<AgreedSecond>,
    /// How far apart the frames of lines that agree end at most, in microseconds.
    pub apart_us: u64,
    /// Where what they claim contradicts itself.
    pub jumps: Jumps,
}

impl Verdict {
    /// That of no second, on so many lines: 1, 3 or 5.
    pub fn new(lines: u8) -> Verdict
        ensures { IsVerdictOf result lines [] }
    {
        Verdict {
            lines,
            ended: Ended::none(),
            unended: Unended::none(),
            agreed: 0,
            without_vote: 0,
            first_without_us: None,
            first: None,
            last: None,
            apart_us: 0,
            jumps: Jumps::none(),
        }
    }

    /// Takes the next second. A second is agreed if it has a vote; only by such a second are lines
    /// judged.
    pub fn take(&mut self, second: &RecordedSecond)
        ensures { (n : ℕ) (seconds : List SecondOf) → IsVerdictOf self.old n seconds
            → IsVerdictOf self.new n (second.now ∷ seconds) }
    {
        match second.vote {
            Some(claim) => self.agree(claim, second),
            None => {
                self.without_vote = self.without_vote.saturating_add(1);
                self.first_without_us = self.first_without_us.or(Some(second.edge_us));
            }
        }
    }

    // Takes a second on whose claim most lines agree.
    fn agree(&mut self, claim: Claim, second: &RecordedSecond)
        ensures { (n : ℕ) (seconds : List SecondOf) → second.now.vote ≡ Some claim
            → IsVerdictOf self.old n seconds → IsVerdictOf self.new n (second.now ∷ seconds) }
    {
        let at = AgreedSecond {
            claim,
            edge_us: second.edge_us,
            lines_us: second.lines_us,
        };
        let tales = Tales::of(self.lines, claim, second);
        let unended = self.unended;
        self.ended.note_all(&unended, at, &tales);
        self.unended = unended.after(at, &tales);
        self.agreed = self.agreed.saturating_add(1);
        self.jumps = self.jumps.after(jump_between(self.last, at));
        self.first = self.first.or(Some(at));
        self.last = Some(at);
        self.apart_us = self.apart_us.max(tales.apart_us(self.lines, second));
    }

    /// Whether most lines agree on any second.
    pub fn is_decided(&self) -> bool
        ensures { (n : ℕ) (seconds : List SecondOf) → IsVerdictOf self.now n seconds
            → result ≡ is_some (first_agreed seconds) }
    {
        self.first.is_some()
    }

    /// The first second on which most lines agree.
    pub fn first(&self) -> Option<AgreedSecond>
        ensures { (n : ℕ) (seconds : List SecondOf) → IsVerdictOf self.now n seconds
            → result ≡ first_agreed seconds }
    {
        self.first
    }

    /// The last second on which most lines agree.
    pub fn last(&self) -> Option<AgreedSecond>
        ensures { (n : ℕ) (seconds : List SecondOf) → IsVerdictOf self.now n seconds
            → result ≡ last_agreed seconds }
    {
        self.last
    }

    /// When 0.000 s of the recording was, if most lines agree on any second: as long before the end of the
    /// first such second as the time of the lines says. If a month's end lies between, and the frame of
    /// that second says nothing of its leap second, it is undecided.
    pub fn zero(&self) -> Option<Zero>
        ensures { (n : ℕ) (seconds : List SecondOf) → IsVerdictOf self.now n seconds
            → result ≡ zero_of (first_agreed seconds) }
    {
        zero_by(&self.first)
    }
}
