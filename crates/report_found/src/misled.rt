//! Untrue seconds of a reader, and the vote on which they stand.

ghost use Rattle.std.specs.Prelude.{◌≡◌};
ghost use Rattle.report_found.specs.Stretches.{vote_after, misled_at, misled_more, misled_after, ended_misled};

use crate::stretch::same_cause;
use crate::tick::Tick;
use irig_reader::Cause;
use report_log::same_offset;

/// Ticks of a reader, one after another, at which it announced an untrue second.
#[derive(Clone, Copy)]
pub(crate) struct Misled {
    pub(crate) first: Tick,
    pub(crate) last: Tick,
    /// Whether what it announced was as far from the truth at each of them.
    pub(crate) steady: bool,
    /// The last tick, up to the first of these, at which it announced what most ports told.
    pub(crate) vote: Option<Tick>,
}

impl Misled {
    fn at(vote: Option<Tick>, tick: &Tick) -> Misled
        ensures { result ≡ misled_at vote tick.now }
    {
        Misled {
            first: *tick,
            last: *tick,
            steady: true,
            vote,
        }
    }

    fn more(&self, tick: &Tick) -> Misled
        ensures { result ≡ misled_more self.now tick.now }
    {
        let is_as_far = same_offset(self.first.offset_announced(), tick.offset_announced());
        Misled {
            first: self.first,
            last: *tick,
            steady: is_as_far && self.steady,
            vote: self.vote,
        }
    }
}

/// The last vote that was announced, after a tick.
pub(crate) fn vote_after(before: Option<Tick>, tick: &Tick) -> Option<Tick>
    ensures { result ≡ vote_after before tick.now }
{
    if same_cause(tick.entry.report.cause, Cause::Voted) {
        Some(*tick)
    } else {
        before
    }
}

/// The untrue seconds that are open after a tick, where this is the last vote.
pub(crate) fn misled_after(
    before: Option<Misled>,
    vote: Option<Tick>,
    tick: &Tick,
) -> Option<Misled>
    ensures { result ≡ misled_after before vote tick.now }
{
    if !tick.is_untrue() {
        return None;
    }
    match before {
        Some(misled) => Some(misled.more(tick)),
        None => Some(Misled::at(vote, tick)),
    }
}

/// The untrue seconds that a tick ends.
pub(crate) fn ended_misled(before: Option<Misled>, tick: &Tick) -> Option<Misled>
    ensures { result ≡ ended_misled before tick.now }
{
    if tick.is_untrue() { None } else { before }
}
