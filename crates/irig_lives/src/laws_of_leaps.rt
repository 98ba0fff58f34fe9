//! Laws of a leap table that guards what frames say of a leap. They have no code.

ghost use Rattle.std.specs.Prelude.{◌≡◌, ◌⊎◌, ◌+◌, ◌%◌, ◌^◌, ◌≤◌, ℕ, List, ◌∷◌, Option, Some, None, Bool, true, false};
ghost use Rattle.irig_time.specs.Timelines.{TimelineValue, IsSecond};
ghost use Rattle.irig_time.specs.TimelineFaults.{IsTimeline};
ghost use Rattle.irig_time.specs.Tables.{TableValue};
ghost use Rattle.irig_hold.specs.Steps.{HoldValue};
ghost use Rattle.irig_hold.specs.Truth.{IsTrueTable};
ghost use Rattle.irig_reader.specs.declared.rule.State.{State};
ghost use Rattle.irig_reader.specs.Rule.{stop_step, step_of};
ghost use Rattle.irig_lines.specs.Lines.{IsTrueLately};
ghost use Rattle.irig_timekeeper.specs.Rule.{against_table, goes_against, step_checked};
ghost use Rattle.irig_timekeeper.specs.Clock.{claim_voted};
ghost use Rattle.irig_timekeeper.specs.Keeping.{Keeping, answer_at, vote_at};
ghost use Rattle.irig_timekeeper.specs.Truth.{KnowsEnd};
ghost use Rattle.irig_timekeeper.specs.Life.{Call, Made, LivesTruly, life_of};
ghost use Rattle.irig_timekeeper.specs.Life.Call.{Tick};

use irig_lines::Vote;
use irig_reader::{Cause, ReaderRules};
use irig_time::{Claim, UtcSecond};
use irig_timekeeper::Beat;

/// A right table guards its leaps: let a device know by its table how a day ends, and not prefer
/// frames. Then neither a vote for a true second nor a hold that has come to one leads to a false one
/// at that end, whatever frames say, or have said, of a leap. Where frames and table lead to different
/// seconds, it is silent.
pub fn a_right_table_guards_its_leaps()
    // By a vote for T(n) a tick announces T(n + 1), if any, if the table knows how the day of T(n) ends.
    ensures voted { (t : TimelineValue) (k : Keeping) (clock n : ℕ) (vote : Vote) (beat : Beat)
        (u : UtcSecond) → IsTimeline t → k.clock.prefers_frames ≡ false
        → vote_at k clock ≡ Some vote → IsSecond t n vote.claim.at
        → KnowsEnd t k.table vote.claim.at.day → answer_at k clock ≡ Some beat
        → beat.report.announce ≡ Some u → IsSecond t (n + 1) u }
    // Without a vote a hold that has come to T(n), and counts k seconds, announces T(n + k), if
    // anything, if the table knows how the days of T(n) to T(n + k - 1) end.
    ensures held { (t : TimelineValue) (k : Keeping) (clock n : ℕ) (h : HoldValue) (beat : Beat)
        (u : UtcSecond) → IsTimeline t → k.clock.prefers_frames ≡ false
        → vote_at k clock ≡ None → k.state.reader ≡ State.Locked h → IsSecond t n h.last
        → answer_at k clock ≡ Some beat
        → ((i : ℕ) (v : UtcSecond) → i ≤ beat.missed → IsSecond t (n + i) v
        → KnowsEnd t k.table v.day)
        → beat.report.announce ≡ Some u → IsSecond t (n + beat.missed + 1) u }
    // A step of the reader's rule that goes against the table is a stop.
    ensures stops { (rules : ReaderRules) (table : TableValue) (state : State)
        (vote : Option Claim) → goes_against table state vote ≡ true
        → step_checked false rules table state vote ≡ stop_step Cause.LeapGuard }
    // Any other step is that of the rule, and so is each where frames are preferred.
    ensures passes { (prefers_frames : Bool) (rules : ReaderRules) (table : TableValue)
        (state : State) (vote : Option Claim)
        → (prefers_frames ≡ true) ⊎ (goes_against table state vote ≡ false)
        → step_checked prefers_frames rules table state vote ≡ step_of rules table state vote }
    // Each beat says whether the claim that has the vote contradicts the table.
    ensures told { (k : Keeping) (clock : ℕ) (beat : Beat) → answer_at k clock ≡ Some beat
        → beat.against_table ≡ against_table k.table (claim_voted (vote_at k clock)) }
    // None does so in a life in which at each tick all but at most f lines were true in the last
    // 1.2 s, if the table is true.
    ensures agreed { (t : TimelineValue) (edges : ℕ → ℕ) (made : Made) (start now : ℕ)
        (calls : List Call) (beat : Beat) → IsTrueTable t made.table
        → LivesTruly (IsTrueLately made.clock.within.us) t edges made start (Tick now ∷ calls)
        → answer_at (life_of made calls) (now % 2 ^ 32) ≡ Some beat
        → beat.against_table ≡ false }
{}
