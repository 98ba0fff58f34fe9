//! Laws of a reader over its definitions: what it announces at an edge, by what its ports tell
//! there or by its votes so far. They have no code, and speak of values: no call of a reader takes
//! a timeline.

ghost use Rattle.std.specs.Prelude.{◌≡◌, ◌⊎◌, ◌↔◌, ◌+◌, ◌<◌, ◌≤◌, ℕ, List, [], ◌∷◌, ◌++◌, length, Option, Some, None};
ghost use Rattle.irig_sync.specs.declared.sync.Sync.{Sync};
ghost use Rattle.irig_sync.specs.Lines.{Pulse};
ghost use Rattle.irig_time.specs.Tables.{TableValue};
ghost use Rattle.irig_time.specs.Timelines.{TimelineValue, EndsAt, IsSecond, IsTrueClaim, truth_at};
ghost use Rattle.irig_time.specs.TimelineFaults.{IsTimeline};
ghost use Rattle.irig_port.specs.Heard.{symbols_heard};
ghost use Rattle.irig_port.specs.Hearing.{IsHearing, IsOfRun};
ghost use Rattle.irig_port.specs.Limits.{widths_told_within};
ghost use Rattle.irig_vote.specs.Vote.{carriers, f_of, others, ports_of, vote_of};
ghost use Rattle.irig_vote.specs.Counts.{AtLeast};
ghost use Rattle.irig_hold.specs.Steps.{HoldValue};
ghost use Rattle.irig_hold.specs.Truth.{IsTrueTable};
ghost use Rattle.irig_reader.specs.declared.rule.State.{State};
ghost use Rattle.irig_reader.specs.Clean.{IsCarrier, IsClean, HaveHeardCleanly};
ghost use Rattle.irig_reader.specs.Held.{AreMarkedLate, IsSince, then_none};
ghost use Rattle.irig_reader.specs.History.{ReaderHistory, fed_to, told_at_tick, vote_at_tick, after_tick};
ghost use Rattle.irig_reader.specs.Lives.{votes_over, AreClean, HasVoted, KnowsMonthEnds};
ghost use Rattle.irig_reader.specs.Locking.{IsSilentAfter, FollowsVotes, then_true, voted_report};
ghost use Rattle.irig_reader.specs.Rule.{report_of, step_of, stop_step};
ghost use Rattle.irig_reader.specs.Standing.{StandsAtTruth};

use crate::report::{Cause, Lock};
use crate::rules::ReaderRules;
use irig_port::{Limits, Told};
use irig_time::{Claim, UtcSecond};
use irig_vote::{Redundancy, Tells};

/// A voted second is true by its own edge. Let a tick come as T(n + 1) begins, and let no f + 1
/// ports tell one and the same claim other than the true one of T(n). Then what a reader announces
/// there by a vote is T(n + 1): wherever it stood, whatever it heard before, whatever its table
/// says and however many ticks it missed.
pub fn voted_seconds_are_true()
    ensures second { (t : TimelineValue) (n : ℕ) (rules : ReaderRules) (table : TableValue)
        (state : State) (told : Tells) (r : Redundancy) (u : UtcSecond) → IsTimeline t
        → IsClean t n told r
        → (step_of rules table state (vote_of told r)).report.cause ≡ Cause.Voted
        → (step_of rules table state (vote_of told r)).report.announce ≡ Some u
        → IsSecond t (n + 1) u }
    // At most f ports that tell another claim than the true one are few enough.
    ensures few { (t : TimelineValue) (n : ℕ) (told : Tells) (r : Redundancy) (c : Claim)
        → truth_at t n ≡ Some c → others c (ports_of told r) ≤ f_of r → IsClean t n told r }
    // The vote of such an edge is none, or the true one.
    ensures vote { (t : TimelineValue) (n : ℕ) (told : Tells) (r : Redundancy) → IsClean t n told r
        → (vote_of told r ≡ None) ⊎ (vote_of told r ≡ truth_at t n) }
    // The same, said of the pulses that the ports heard.
    ensures heard { (t : TimelineValue) (n : ℕ) (h : ReaderHistory)
        → IsClean t n (told_at_tick h) h.redundancy
        ↔ HaveHeardCleanly t n h.limits h.rules h.redundancy (fed_to h.fed) }
{}

/// To mislead takes a majority: if a reader announces another second than T(n + 1) by a vote, then
/// at that very tick f + 1 of its ports tell one and the same claim, and it is not the true one.
pub fn misleading_takes_a_majority()
    ensures { (t : TimelineValue) (n : ℕ) (rules : ReaderRules) (table : TableValue)
        (state : State) (told : Tells) (r : Redundancy) (u : UtcSecond) → IsTimeline t
        → (step_of rules table state (vote_of told r)).report.cause ≡ Cause.Voted
        → (step_of rules table state (vote_of told r)).report.announce ≡ Some u
        → ¬ IsSecond t (n + 1) u
        → (c : Claim) × (f_of r + 1 ≤ carriers c (ports_of told r)) × ¬ (truth_at t n ≡ Some c) }
{}

/// After a tick that was missed or came twice no vote makes a false second: a locked reader that
/// stands at another second than T(n) is silent at its next vote of a clean tick, by the cause
/// `Jump`. What it holds over before that vote is false by that tick. It then has nothing
/// to go on.
pub fn a_lost_tick_is_silent()
    ensures { (t : TimelineValue) (n : ℕ) (rules : ReaderRules) (table : TableValue)
        (h : HoldValue) (told : Tells) (r : Redundancy) (c : Claim) → IsClean t n told r
        → ¬ IsSecond t n h.last → vote_of told r ≡ Some c
        → step_of rules table (State.Locked h) (vote_of told r) ≡ stop_step Cause.Jump }
{}

/// Whatever is true, a reader says of a holdover that it has lasted from 1 to `holdover` edges.
pub fn holdover_is_bounded()
    ensures { (rules : ReaderRules) (table : TableValue) (state : State) (vote : Option Claim)
        (edges : ℕ) → (step_of rules table state vote).report.lock ≡ Lock.Holdover edges
        → (1 ≤ edges) × (edges ≤ rules.holdover) }
{}

/// A held second is true by the last vote: if a reader announces a second in a holdover of so many
/// edges, the vote that lies so many edges back was true, each of the edges since was one call, and
/// the table is true, or the holdover at most 57, then the second is the true one.
pub fn held_seconds_are_true()
    // The lock says how far back the last vote lies.
    ensures last { (rules : ReaderRules) (table : TableValue) (vote : Option Claim)
        (votes : List (Option Claim)) (edges : ℕ)
        → (report_of rules table vote votes).lock ≡ Lock.Holdover edges
        → IsSince (vote ∷ votes) edges }
    ensures second { (t : TimelineValue) (n : ℕ) (rules : ReaderRules) (table : TableValue)
        (vote : Option Claim) (votes earlier : List (Option Claim)) (c : Claim) (edges : ℕ)
        (u : UtcSecond) → IsTimeline t → KnowsMonthEnds t rules table → AreMarkedLate earlier
        → IsTrueClaim t (n + 1) c → vote ∷ votes ≡ then_none edges (Some c ∷ earlier)
        → 0 < edges → (report_of rules table vote votes).announce ≡ Some u
        → IsSecond t (n + 1 + edges) u }
    // Votes of what ports tell are such as is asked of the earlier ones.
    ensures none { AreMarkedLate [] }
    ensures marked { (h : ReaderHistory) → AreMarkedLate h.votes
        → AreMarkedLate (after_tick h).votes }
{}

/// True votes keep to the truth: a reader with a true table that stands at T(n), or has nothing to
/// go on, goes by no vote, or by the true claim of T(n), to T(n + 1), or then has nothing to go on.
/// It announces no other second than T(n + 1).
pub fn true_votes_keep_to_the_truth()
    ensures stands { (t : TimelineValue) (n : ℕ) (rules : ReaderRules) (table : TableValue)
        (state : State) (vote : Option Claim) → IsTimeline t → IsTrueTable t table
        → StandsAtTruth t n state → (vote ≡ None) ⊎ (vote ≡ truth_at t n)
        → StandsAtTruth t (n + 1) (step_of rules table state vote).state }
    ensures second { (t : TimelineValue) (n : ℕ) (rules : ReaderRules) (table : TableValue)
        (state : State) (vote : Option Claim) (u : UtcSecond) → IsTimeline t
        → IsTrueTable t table → StandsAtTruth t n state → (vote ≡ None) ⊎ (vote ≡ truth_at t n)
        → (step_of rules table state vote).report.announce ≡ Some u → IsSecond t (n + 1) u }
    // Its cause is no false alarm.
    ensures jump { (t : TimelineValue) (n : ℕ) (rules : ReaderRules) (table : TableValue)
        (state : State) (vote : Option Claim) → IsTimeline t → IsTrueTable t table
        → StandsAtTruth t n state → (vote ≡ None) ⊎ (vote ≡ truth_at t n)
        → ¬ ((step_of rules table state vote).report.cause ≡ Cause.Jump) }
    ensures range_end { (t : TimelineValue) (n : ℕ) (rules : ReaderRules) (table : TableValue)
        (state : State) (vote : Option Claim) → IsTimeline t → IsTrueTable t table
        → StandsAtTruth t n state → (vote ≡ None) ⊎ (vote ≡ truth_at t n)
        → (step_of rules table state vote).report.cause ≡ Cause.RangeEnd → EndsAt t n }
{}

/// True lives are true, of a reader with one port, three or five. Let its ticks be clean, one for
/// each second, and let it have a true table, or a holdover of at most 57. Then whatever it
/// announces is the second that begins, if these are all its ticks since it was made or restarted.
pub fn true_lives_are_true()
    ensures second { (t : TimelineValue) (n : ℕ) (rules : ReaderRules) (table : TableValue)
        (r : Redundancy) (told : Tells) (before : List Tells) (u : UtcSecond) → IsTimeline t
        → KnowsMonthEnds t rules table → AreClean t n r (told ∷ before)
        → (report_of rules table (vote_of told r) (votes_over r before)).announce ≡ Some u
        → IsSecond t (n + length before + 1) u }
    // It heals: whatever it voted earlier, from the first vote of these ticks on it announces the
    // second that begins, or nothing.
    ensures healed { (t : TimelineValue) (n : ℕ) (rules : ReaderRules) (table : TableValue)
        (r : Redundancy) (told : Tells) (before : List Tells) (earlier : List (Option Claim))
        (u : UtcSecond) → IsTimeline t → KnowsMonthEnds t rules table → AreMarkedLate earlier
        → AreClean t n r (told ∷ before) → HasVoted r (told ∷ before)
        → (report_of rules table (vote_of told r) (votes_over r before ++ earlier)).announce
        ≡ Some u → IsSecond t (n + length before + 1) u }
{}

/// Whatever is true, a silent reader announces only by so many votes in a row as its rules ask,
/// each of the second after the one before it. What it then announces is the second after the last
/// of them. A reader is silent if it announced nothing at the edge before, after a restart, and
/// before its first tick.
pub fn locking_takes_votes_in_a_row()
    ensures { (rules : ReaderRules) (table : TableValue) (vote : Option Claim)
        (votes : List (Option Claim)) (u : UtcSecond) → IsSilentAfter rules table votes
        → (report_of rules table vote votes).announce ≡ Some u
        → FollowsVotes rules.lock_after (vote ∷ votes) u }
{}

/// True votes in a row lock a silent reader, as it is after a jump, a stop, a restart and before
/// its first tick: at the last of so many as its rules ask it announces the second that begins,
/// whatever its table says.
pub fn true_votes_in_a_row_lock()
    ensures silent { (t : TimelineValue) (n : ℕ) (rules : ReaderRules) (table : TableValue)
        (vote : Option Claim) (votes earlier : List (Option Claim)) (u : UtcSecond) → IsTimeline t
        → 1 ≤ rules.lock_after → IsSilentAfter rules table earlier
        → IsSecond t (n + rules.lock_after) u
        → vote ∷ votes ≡ then_true t n rules.lock_after earlier
        → report_of rules table vote votes ≡ voted_report u }
    // Of any reader one more is enough: a locked one that stands at another second says `Jump` at
    // the first of them, and counts the others.
    ensures any { (t : TimelineValue) (n : ℕ) (rules : ReaderRules) (table : TableValue)
        (vote : Option Claim) (votes earlier : List (Option Claim)) (u : UtcSecond) → IsTimeline t
        → 1 ≤ rules.lock_after → IsSecond t (n + 1 + rules.lock_after) u
        → vote ∷ votes ≡ then_true t n (rules.lock_after + 1) earlier
        → report_of rules table vote votes ≡ voted_report u }
{}

/// What a port claims at a tick is carried by the last hundred pulses of its line that were in
/// step, each but the first on time behind the one before, and by nothing else, if it hears them
/// through the line's synchroniser: [`Reader::hear`](crate::Reader::hear), clauses `run` and
/// `stands`, with [`hearing_goes_on`](irig_port::hearing_goes_on).
pub fn a_claim_is_of_a_run()
    ensures { (h : ReaderHistory) (port : ℕ) (s : Sync) (pulses : List Pulse) (now : ℕ)
        (claim : Claim) → IsHearing (symbols_heard (fed_to h.fed port)) s pulses now
        → widths_told_within h.limits h.rules (fed_to h.fed port) ≡ Told.Claim claim
        → IsOfRun h.rules claim (symbols_heard (fed_to h.fed port)) s.place pulses }
{}

/// Within limits nothing is voted that they refuse: f + 1 ports carry what is voted, and each of
/// their frames lies within the limits. So no second before their first day is voted.
pub fn votes_lie_within_limits()
    ensures carried { (h : ReaderHistory) (c : Claim) → vote_at_tick h ≡ Some c
        → AtLeast (f_of h.redundancy + 1)
        (IsCarrier h.limits h.rules h.redundancy (fed_to h.fed) c) }
    ensures day { (h : ReaderHistory) (limits : Limits) (c : Claim) → h.limits ≡ Some limits
        → vote_at_tick h ≡ Some c → limits.not_before ≤ c.at.day }
{}
