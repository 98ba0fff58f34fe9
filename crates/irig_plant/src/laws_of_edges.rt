//! Laws of what an entry owes to the ports of its reader at its own tick and since its last vote:
//! what it costs to mislead a reader, and how one heals. They have no code.

ghost use Rattle.std.specs.Prelude.{◌≡◌, ◌+◌, ◌*◌, ◌<◌, ◌≤◌, ◌↔◌, ◌⊎◌, false, ℕ, None, List, ◌∷◌, All};
ghost use Rattle.std.specs.List.{Contains};
ghost use Rattle.irig_time.specs.Timelines.{truth_at, IsTrueClaim};
ghost use Rattle.irig_time.specs.TimelineFaults.{IsTimeline};
ghost use Rattle.irig_reader.specs.History.{vote_at_tick};
ghost use Rattle.irig_plant.specs.Schedule.{Setup, setup_at, ticks_of, history_of, log_of};
ghost use Rattle.irig_plant.specs.Audits.{is_broken_now};
ghost use Rattle.irig_vote.specs.Counts.{AtLeast, AtMost};
ghost use Rattle.irig_plant.specs.Ports.{f_in, HasHeard};
ghost use Rattle.irig_plant.specs.Premises.{IsKeptUpTo};
ghost use Rattle.irig_plant.specs.Truth.{IsTruthful};
ghost use Rattle.irig_plant.specs.OwnEdge.{IsCleanNow, IsCleanAt, IsTrueByItsEdge, HasFalseMajority, HasItsMajority};
ghost use Rattle.irig_plant.specs.Healing.{HasMonthEnds, HasVoteAt, RestsOnAVote, RestsOnItsMajority, IsCleanBetween, IsCleanSince, IsTrueIfClean, IsFalseToTheEnd, IsFalseEdge};

use crate::entry::Entry;
use crate::event::Event;
use irig_reader::Cause;
use irig_time::Claim;

/// What a clean tick is: one at which each claim that f + 1 ports of the reader heard is true.
pub fn clean_ticks()
    ensures ports { (s : Setup) (r : ℕ) (ev : List Event)
        → IsCleanNow s r ev
        ↔ ((c : Claim) → AtLeast (f_in s + 1) (λ p. HasHeard s r p ev c)
        → IsTrueClaim s.times (ticks_of r ev + 1) c) }
    // It is one without a vote, or with a vote for the true claim.
    ensures vote { (s : Setup) (r : ℕ) (ev : List Event)
        → IsCleanNow s r ev
        ↔ ((vote_at_tick (history_of s r ev) ≡ None)
        ⊎ (vote_at_tick (history_of s r ev) ≡ truth_at s.times (ticks_of r ev))) }
    // It has no false majority, and one that is not clean has.
    ensures clean { (s : Setup) (r n : ℕ) (ev : List Event) → IsCleanAt s r n ev
        → ¬ HasFalseMajority s r n ev }
    ensures unclean { (s : Setup) (r : ℕ) (ev : List Event) → ¬ IsCleanNow s r ev
        → HasFalseMajority s r (ticks_of r ev + 1) (Event.Tick r ∷ ev) }
{}

/// A voted entry stands on its own edge: if its tick is clean, an entry announces by a vote the
/// second of its edge, whatever came before, whatever its table says and wherever the reader stood.
pub fn entries_stand_on_their_own_edge()
    ensures entries { (s : Setup) (ev : List Event) → IsTimeline s.times
        → All (IsTrueByItsEdge s ev) (log_of s ev) }
    // The audit asks for more: a tick at which at most f ports tell an untrue claim is clean.
    ensures few { (s : Setup) (r : ℕ) (ev : List Event) → is_broken_now s r ev ≡ false
        → IsCleanNow s r ev }
{}

/// A false vote has its majority: if an entry announces by a vote what is not the second of its
/// edge, then at its very tick f + 1 ports heard what carries one and the same claim, and it is not
/// true there.
pub fn false_votes_have_their_majority()
    ensures { (s : Setup) (ev : List Event) → IsTimeline s.times
        → All (HasItsMajority s ev) (log_of s ev) }
{}

/// What is announced rests on the last vote, whatever is true: that of the very edge, or held since
/// for as many edges as the lock says, and at most for `holdover`.
pub fn announcements_rest_on_a_vote()
    ensures rests { (s : Setup) (ev : List Event) → All (RestsOnAVote s ev) (log_of s ev) }
    // An entry by a vote has one at its edge.
    ensures voted { (s : Setup) (ev : List Event) (e : Entry) → Contains (log_of s ev) e
        → e.report.cause ≡ Cause.Voted → HasVoteAt s e.reader e.edge ev }
{}

/// A false second has its majority, be it voted or held: if a reader with a true table, or with a
/// holdover of at most 57, announces what is not the second of its edge, then at the tick of the vote
/// on which that rests f + 1 ports heard what carries one and the same claim, and it was not true
/// there.
pub fn false_seconds_have_their_majority()
    ensures { (s : Setup) (ev : List Event) → IsTimeline s.times
        → All (RestsOnItsMajority s ev) (log_of s ev) }
{}

/// A misled reader heals by itself. Let its table be true, or its holdover at most 57, and all its
/// ticks clean after its m-th.
pub fn misled_readers_heal()
    // If an entry is false after that, it is held, and lies at most `holdover` edges further.
    ensures held { (s : Setup) (m : ℕ) (ev : List Event) (e : Entry) → IsCleanSince s m ev e
        → ¬ IsTruthful s.times e → (e.report.cause ≡ Cause.Held)
        × (e.edge ≤ m + (setup_at s.readers e.reader).rules.holdover) }
    // So each entry that lies further announces the second of its edge, or nothing.
    ensures over { (s : Setup) (m : ℕ) (ev : List Event) (e : Entry) → IsCleanSince s m ev e
        → m + (setup_at s.readers e.reader).rules.holdover < e.edge → IsTruthful s.times e }
    // And so does each one from the first vote on.
    ensures healed { (s : Setup) (m k : ℕ) (ev : List Event) (e : Entry) → IsCleanSince s m ev e
        → HasVoteAt s e.reader k ev → m < k → k ≤ e.edge → IsTruthful s.times e }
    // So at most `holdover` false seconds follow, however long the reader runs.
    ensures few { (s : Setup) (r m : ℕ) (ev : List Event) → IsTimeline s.times
        → HasMonthEnds s r → IsCleanBetween s r m (ticks_of r ev) ev
        → AtMost (setup_at s.readers r).rules.holdover (λ n. (m < n) × IsFalseEdge s r ev n) }
{}

/// That bound is reached: there is a plant that still announces a false second `holdover` edges
/// after its last unclean tick.
pub fn healing_takes_the_holdover()
    ensures { (s : Setup) × (m : ℕ) × (ev : List Event) × (e : Entry) × IsFalseToTheEnd s m ev e }
{}

/// What it costs to mislead a reader with a true table, or with a holdover of at most 57: if at most
/// so many of its ticks have a false majority, it announces at most `holdover` + 1 false seconds for
/// each of them.
pub fn false_seconds_have_their_price()
    ensures { (s : Setup) (r : ℕ) (ev : List Event) (count : ℕ) → IsTimeline s.times
        → HasMonthEnds s r
        → AtMost count (λ k. HasFalseMajority s r k ev)
        → AtMost (count * ((setup_at s.readers r).rules.holdover + 1)) (IsFalseEdge s r ev) }
{}

/// Clean ticks are enough for the headline: an entry announces the second of its edge, or nothing,
/// if all its reader's ticks so far were clean and its table is true, or its holdover at most 57,
/// which needs no table.
pub fn clean_ticks_are_enough()
    ensures entries { (s : Setup) (ev : List Event) → IsTimeline s.times
        → All (IsTrueIfClean s ev) (log_of s ev) }
    // The premise of the headline asks for more.
    ensures kept { (s : Setup) (r n : ℕ) (ev : List Event) → IsKeptUpTo s r n ev
        → IsCleanBetween s r 0 n ev }
{}
