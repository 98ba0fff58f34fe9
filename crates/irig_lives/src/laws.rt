//! Laws of a timekeeper over its definitions. They have no code, and speak of values: no call of a
//! timekeeper takes a timeline.

ghost use Rattle.std.specs.Prelude.{◌≡◌, ◌+◌, ◌-◌, ◌*◌, ◌/◌, ◌%◌, ◌^◌, ◌<◌, ◌≤◌, ◌⊎◌, ℕ, suc, List, ◌∷◌, ◌++◌, Option, Some, None, count_by, true, false};
ghost use Rattle.irig_frame.specs.declared.symbol.Symbol.{Symbol};
ghost use Rattle.irig_sync.specs.declared.sync.Sync.{Sync};
ghost use Rattle.irig_sync.specs.Sync.{place_of};
ghost use Rattle.irig_sync.specs.Edges.{element_drift};
ghost use Rattle.irig_sync.specs.Lines.{Pulse, pulse_at, IsAfter, IsSoon};
ghost use Rattle.irig_time.specs.Timelines.{TimelineValue, IsSecond};
ghost use Rattle.irig_reader.specs.declared.rule.State.{State};
ghost use Rattle.irig_reader.specs.Held.{then_none};
ghost use Rattle.irig_reader.specs.Locking.{IsSilentAfter, then_true, voted_report};
ghost use Rattle.irig_reader.specs.Rule.{state_of, step_of};
ghost use Rattle.irig_lines.specs.Paces.{WandersAsSet, grown_us, learned, longest_us, paced, shortest_us};
ghost use Rattle.irig_timekeeper.specs.Learning.{IsLearned};
ghost use Rattle.irig_timekeeper.specs.Rule.{against_table, step_behind};
ghost use Rattle.irig_time.specs.TimelineFaults.{IsTimeline};
ghost use Rattle.irig_time.specs.Tables.{TableValue};
ghost use Rattle.irig_vote.specs.Vote.{f_of};
ghost use Rattle.irig_port.specs.Limits.{quality_in, told_within};
ghost use Rattle.irig_port.specs.Hearing.{heard_at, IsHearing};
ghost use Rattle.irig_lines.specs.Edges.{IsQuartz, IsNear, IsTrueNear};
ghost use Rattle.irig_lines.specs.Lines.{IsTrueLately, KnowsBegin, IsFrameOf, IfKept, IsAnyEnd, HasJustCome};
ghost use Rattle.irig_lines.specs.Counting.{edges_between, edges_to, edges_own};
ghost use Rattle.irig_lines.specs.Refusals.{clock_fault};
ghost use Rattle.irig_lines.specs.Steps.{begin_behind, frame_behind, claim_kept, line_at, all_kept, agrees, agreed, settled, tells_of, wait_by};
ghost use Rattle.irig_timekeeper.specs.Clock.{answer_to_vote, doubted_s, is_unsteady, lasted, settled_at};
ghost use Rattle.irig_timekeeper.specs.Keeping.{Keeping, vote_at, after_tick, answer_at, wait_at, stamp_at, rate_at};
ghost use Rattle.irig_timekeeper.specs.Truth.{FollowsTruth, AreHeardTruly, IsTrueVote, IsOnTrack, IsToldTruly, IsToldInHoldover, IsLaterSecond, IsDevice, IsEdgeAt, AreApartBeats, IsStampedTruly, IsInstant};
ghost use Rattle.irig_timekeeper.specs.Announcing.{AreWellHeard, Announces};
ghost use Rattle.irig_timekeeper.specs.Life.{Call, Made, AreInOrder, AreTrueLately, AreTrueAtTicks, AreTrueOver, LivesTruly, device_of, life_of, last_tick, pulses_on, HaveRisen};
ghost use Rattle.irig_timekeeper.specs.Life.Call.{Tick};
ghost use Rattle.irig_timekeeper.specs.Carried.{IsCarried};
ghost use Rattle.irig_timekeeper.specs.Rows.{AreToldLast};
ghost use Rattle.irig_timekeeper.specs.Since.{since_vote, HasItsBound};
ghost use Rattle.irig_timekeeper.specs.Doubts.{voted_since, NoneStrays, SaysTheRule};
ghost use Rattle.irig_timekeeper.specs.Healing.{HasHealed};
ghost use Rattle.irig_timekeeper.specs.Measures.{IsMeasured};
ghost use Rattle.irig_lines.specs.Rates.{rate_of};
ghost use Rattle.irig_lines.specs.Intervals.{by_vote, carried, cut, contradicts, LiesBetween, AreNear};
ghost use Rattle.irig_lines.specs.Exactness.{most_drift_us, end_off_us, window_us, most_vote_us, most_held_us};
ghost use Rattle.irig_lines.specs.Widths.{vote_us};

use irig_lines::{Anchor, ClockRules, Interval, KeptClaim, KeptFrame, Lines, Pace, Rate, Vote};
use irig_port::Limits;
use irig_reader::{Cause, ReaderRules};
use irig_time::{Claim, Rules, UtcSecond};
use irig_timekeeper::{Beat, Stamp};

/// Counting is right while a device's own edge is: let its last edge lie at most b1 before and b2
/// behind T(w), and the edge that lines agree on at most c1 before and c2 behind T(w + k). If
/// b2 + c1 and b1 + c2, with the drift of k seconds, come to less than half a second, the device
/// counts k edges.
pub fn counting_is_right()
    ensures count { (d b1 b2 c1 c2 w k edge end : ℕ) (edges : ℕ → ℕ) → IsQuartz d edges
        → IsNear edges b1 b2 w edge → IsNear edges c1 c2 (w + k) end
        → b1 + k * d + c2 < 500000 → b2 + k * d + c1 ≤ 500000 → edges_between edge end ≡ k }
    // The clock's wrap does not show.
    ensures wrap { (edge end : ℕ) → edge ≤ end + 500000 → end + 500000 < edge + 2 ^ 32
        → edges_to (edge % 2 ^ 32) (end % 2 ^ 32) ≡ edges_between edge end }
{}

/// What a line keeps is an even frame of its pulses: none at first, and a pulse more goes on, as a
/// timekeeper hears it, whether its port was emptied before or not.
pub fn lines_keep_frames()
    ensures kept { (rules : Rules) (clock : ClockRules)
        (frame : Option KeptFrame) (heard : List Symbol) (s : Sync) (pulses : List Pulse)
        (begin now time width : ℕ) → IsHearing heard s pulses now → KnowsBegin begin pulses
        → IfKept IsAnyEnd clock rules (claim_kept clock frame) pulses
        → IsAfter pulses time → IsSoon now time
        → IfKept IsAnyEnd clock rules (claim_kept clock (frame_behind
        clock (place_of s (time % 2 ^ 32) width) begin (time % 2 ^ 32)
        (told_within (Some clock.limits.limits) rules
        (heard_at (place_of s (time % 2 ^ 32) width) heard width))
        (quality_in (heard_at (place_of s (time % 2 ^ 32) width) heard width)) frame))
        (pulse_at time width ∷ pulses) }
    // In a frame the line knows when the pulse rose that began it.
    ensures begun { (heard : List Symbol) (s : Sync) (pulses : List Pulse)
        (begin now time width : ℕ) → IsHearing heard s pulses now → KnowsBegin begin pulses
        → IsAfter pulses time → IsSoon now time
        → KnowsBegin (begin_behind (place_of s (time % 2 ^ 32) width) (time % 2 ^ 32) begin)
        (pulse_at time width ∷ pulses) }
{}

/// Kept frames are true: if a line was true for the last 1.2 s, whatever it was before, and a frame
/// that it sent ended at most 100 ms ago, then what the frame claims is the true claim of the
/// second before an edge, and the frame ends as near it as the line's pulses do to their places, but
/// for the drift of an element.
pub fn kept_frames_are_true()
    ensures { (clock : ClockRules) (rules : Rules) (t : TimelineValue) (d half now end : ℕ)
        (edges : ℕ → ℕ) (pulses : List Pulse) (claim : Claim) → IsQuartz d edges
        → IsTrueLately clock.within.us rules t edges now pulses
        → IsFrameOf clock rules claim half end pulses → now ≤ end + 100000
        → IsTrueNear t edges (end_off_us clock.within.us d) (end_off_us clock.within.us d) end claim }
{}

/// A vote is true whenever it is told: if at most f lines were untrue in the last 1.2 s, what lines
/// agree on is the true claim of the second before an edge, and the edge on which they agree lies no
/// further from it than the bound that is told, and has come, at most 103 ms ago. What a tick then
/// announces by the vote is the second that begins there: wherever the device stood, and whenever
/// it was called before.
pub fn votes_are_true()
    ensures vote { (t : TimelineValue) (edges : ℕ → ℕ) (k : Keeping) (now : ℕ)
        (pulses : ℕ → List Pulse) (vote : Vote) → IsQuartz k.clock.drift_us edges
        → AreHeardTruly (IsTrueLately k.clock.within.us k.rules t edges now) k.clock
        k.rules (f_of k.clock.redundancy) now k.state.lines pulses
        → vote_at k (now % 2 ^ 32) ≡ Some vote → IsTrueVote t edges 0 0 now vote }
    ensures second { (t : TimelineValue) (edges : ℕ → ℕ) (k : Keeping) (now : ℕ)
        (pulses : ℕ → List Pulse) (beat : Beat) (u : UtcSecond) → IsQuartz k.clock.drift_us edges
        → IsTimeline t
        → AreHeardTruly (IsTrueLately k.clock.within.us k.rules t edges now) k.clock
        k.rules (f_of k.clock.redundancy) now k.state.lines pulses
        → answer_at k (now % 2 ^ 32) ≡ Some beat → beat.report.cause ≡ Cause.Voted
        → beat.report.announce ≡ Some u → IsToldTruly t edges beat.bound_us beat.bound_us now beat u }
    // So it is by any counter, whatever the setup says of it: the edge lies no further off than that of
    // a vote by such a counter.
    ensures any_counter { (t : TimelineValue) (d : ℕ) (edges : ℕ → ℕ) (k : Keeping) (now : ℕ)
        (pulses : ℕ → List Pulse) (beat : Beat) (u : UtcSecond) → IsQuartz d edges → IsTimeline t
        → AreHeardTruly (IsTrueLately k.clock.within.us k.rules t edges now) k.clock
        k.rules (f_of k.clock.redundancy) now k.state.lines pulses
        → answer_at k (now % 2 ^ 32) ≡ Some beat → beat.report.cause ≡ Cause.Voted
        → beat.report.announce ≡ Some u → IsToldTruly t edges (vote_us k.clock d)
        (vote_us k.clock d) now beat u }
    // Nor further off than the bound that is told, if the drift of an element is by that counter, and
    // not by the setup: 1 us more at most.
    ensures any_bound { (t : TimelineValue) (d : ℕ) (edges : ℕ → ℕ) (k : Keeping) (now : ℕ)
        (pulses : ℕ → List Pulse) (beat : Beat) (u : UtcSecond) → IsQuartz d edges → IsTimeline t
        → AreHeardTruly (IsTrueLately k.clock.within.us k.rules t edges now) k.clock
        k.rules (f_of k.clock.redundancy) now k.state.lines pulses
        → answer_at k (now % 2 ^ 32) ≡ Some beat → beat.report.cause ≡ Cause.Voted
        → beat.report.announce ≡ Some u → IsToldTruly t edges
        (beat.bound_us + element_drift d - element_drift k.clock.drift_us)
        (beat.bound_us + element_drift d - element_drift k.clock.drift_us) now beat u }
{}

/// A vote is carried by what lines were told, whoever told it and whenever the device was called: more
/// than f lines were told a whole frame of its claim, of a hundred pulses in a row, each on time. These
/// frames end near one time, each no further from it than its edge may lie by its quality, and at most
/// 100 ms before the tick. The calls are in order.
pub fn votes_are_carried()
    ensures { (made : Made) (start now : ℕ) (calls : List Call) (vote : Vote)
        → AreInOrder start made.clock.redundancy (Tick now ∷ calls)
        → vote_at (life_of made calls) (now % 2 ^ 32) ≡ Some vote
        → IsCarried made.clock made.rules vote.claim now (λ line. pulses_on line calls) }
{}

/// A device tells the truth all its life: of every list of calls in order, whenever it was ticked,
/// if at each tick at most f lines were untrue in the last 1.2 s, its counter is as steady as its
/// setup says, and its leap table is true or its holdover at most 57 seconds. What a tick announces
/// is T(m), for an edge m from which the edge that is told lies no further than the bound that is
/// told: at most that of a vote, and the drift of as many edges as a holdover has lasted, which is
/// less than half a second. The edge that is told has come, less than 1.006 s before the tick.
pub fn a_device_tells_the_truth()
    ensures life { (t : TimelineValue) (edges : ℕ → ℕ) (made : Made) (start now : ℕ)
        (calls : List Call) (beat : Beat) (u : UtcSecond)
        → LivesTruly (IsTrueLately made.clock.within.us) t edges made start (Tick now ∷ calls)
        → answer_at (life_of made calls) (now % 2 ^ 32) ≡ Some beat
        → beat.report.announce ≡ Some u
        → IsToldInHoldover t edges 0 0 made.clock now beat u }
    // In order: what a later tick announces is a later second, so that none is announced twice.
    ensures order { (t : TimelineValue) (edges : ℕ → ℕ) (made : Made) (start before now : ℕ)
        (earlier later : List Call) (beat then : Beat) (u v : UtcSecond)
        → LivesTruly (IsTrueLately made.clock.within.us) t edges made start
        (Tick now ∷ (later ++ (Tick before ∷ earlier)))
        → answer_at (life_of made earlier) (before % 2 ^ 32) ≡ Some beat
        → beat.report.announce ≡ Some u
        → answer_at (life_of made (later ++ (Tick before ∷ earlier))) (now % 2 ^ 32) ≡ Some then
        → then.report.announce ≡ Some v → IsLaterSecond t u v }
    // A holdover has lasted for the seconds since the last vote, whatever lines carry.
    ensures held { (made : Made) (now : ℕ) (calls : List Call) (beat : Beat) (u : UtcSecond)
        → answer_at (life_of made calls) (now % 2 ^ 32) ≡ Some beat
        → beat.report.announce ≡ Some u
        → lasted beat.report.lock ≡ since_vote (device_of made) (Tick now ∷ calls) }
    // And no report has the cause `Jump`.
    ensures calm { (t : TimelineValue) (edges : ℕ → ℕ) (made : Made) (start now : ℕ)
        (calls : List Call) (beat : Beat)
        → LivesTruly (IsTrueLately made.clock.within.us) t edges made start (Tick now ∷ calls)
        → answer_at (life_of made calls) (now % 2 ^ 32) ≡ Some beat
        → ¬ (beat.report.cause ≡ Cause.Jump) }
    // The counter of a setup without a fault is no further off, and if nothing is learned of it the setup's
    // holdover ends before an edge could lie 490 ms off.
    ensures setup { (rules : ReaderRules) (d wander : ℕ) → clock_fault rules d wander ≡ None
        → (d ≤ most_drift_us) × (wander ≡ 0 → (rules.holdover + 2) * d ≤ most_held_us) }
    // Whatever lines carry, and however long the setup's holdover is, no bound is half a second.
    ensures half { (made : Made) (now : ℕ) (calls : List Call) (beat : Beat)
        → made.clock.drift_us ≤ most_drift_us
        → answer_at (life_of made calls) (now % 2 ^ 32) ≡ Some beat
        → beat.bound_us ≤ most_vote_us + most_held_us }
    // One tick, of any device that stands at the truth or has nothing to go on, and has learned nothing of
    // its counter.
    ensures tick { (t : TimelineValue) (edges : ℕ → ℕ) (k : Keeping) (last tick now : ℕ)
        (pulses : ℕ → List Pulse)
        → k.state.pace ≡ None
        → IsDevice t k.clock.drift_us edges k.clock.reader_rules k.table → tick ≤ now
        → now ≤ tick + 1800000000
        → IsOnTrack t edges 0 0 k.clock.drift_us last k.table tick k.state.reader k.state.bound_us
        k.state.pace k.state.edge_us
        → AreHeardTruly (IsTrueLately k.clock.within.us k.rules t edges now) k.clock
        k.rules (f_of k.clock.redundancy) now k.state.lines pulses
        → IsOnTrack t edges 0 0 k.clock.drift_us last k.table now
        (after_tick k (now % 2 ^ 32)).state.reader (after_tick k (now % 2 ^ 32)).state.bound_us
        (after_tick k (now % 2 ^ 32)).state.pace (after_tick k (now % 2 ^ 32)).state.edge_us }
{}

/// Votes do not stray: in every life in which at each tick all but at most f lines were true in the
/// last 1.2 s, and the counter is as steady as its setup says, no vote contradicts those before it:
/// the edge lies in the interval that they leave, carried on by the drift from second to second. Nor do
/// frames tell that the counter is unsteady: a true line's are even.
pub fn votes_do_not_stray()
    ensures { (t : TimelineValue) (edges : ℕ → ℕ) (made : Made) (start : ℕ) (calls : List Call)
        → LivesTruly (IsTrueLately made.clock.within.us) t edges made start calls
        → (life_of made calls).state.strays ≡ 0 }
{}

/// What is measured is so: in every life of [`votes_do_not_stray`] the mean length of so many seconds, up to the one that was
/// counted last, lies by the device's counter between the least and the most that it says.
pub fn what_is_measured_is_so()
    ensures mean { (t : TimelineValue) (edges : ℕ → ℕ) (made : Made) (start : ℕ) (calls : List Call)
        (rate : Rate) → LivesTruly (IsTrueLately made.clock.within.us) t edges made start calls
        → rate_at (life_of made calls) ≡ Some rate
        → IsMeasured edges (last_tick start calls) (life_of made calls).state.edge_us rate }
    // These differ at most by the lengths of the intervals at both ends over the seconds, and by 2 ns.
    ensures sharp { (interval : Interval) (anchor : Anchor) (rate : Rate)
        → rate_of (Some interval) (Some anchor) ≡ Some rate → rate.most_ns
        ≤ rate.least_ns + 1000 * (anchor.long_us + interval.long_us) / rate.seconds + 2 }
    // Whatever lines carry, nothing is measured right behind a tick that counts a stray.
    ensures anew { (k : Keeping) (now : ℕ) → ¬ ((after_tick k now).state.strays ≡ k.state.strays)
        → rate_at (after_tick k now) ≡ None }
{}

/// What is learned is so: in every life of [`votes_do_not_stray`] in which the counter wanders no more than its
/// setup says, each of the next 2,000 seconds is by the device's counter as long as its pace says, but for what
/// the pace says it may be off.
pub fn what_is_learned_is_so()
    ensures seconds { (t : TimelineValue) (edges : ℕ → ℕ) (made : Made) (start : ℕ)
        (calls : List Call) (pace : Pace)
        → LivesTruly (IsTrueLately made.clock.within.us) t edges made start calls
        → (life_of made calls).state.pace ≡ Some pace
        → IsLearned edges (last_tick start calls) (life_of made calls).state.edge_us pace }
    // It is learned at each vote, by what is then measured.
    ensures learned { (k : Keeping) (now : ℕ) (vote : Vote) → vote_at k now ≡ Some vote
        → (after_tick k now).state.pace ≡ learned k.clock (rate_at (after_tick k now)) }
    // A second that is counted without a vote is told to lie no further off than that of the last vote, and
    // what comes of each second since: by the drift, or by what was learned, if that is less.
    ensures bound { (k : Keeping) (now : ℕ) (beat : Beat) → vote_at k now ≡ None
        → answer_at k now ≡ Some beat → beat.bound_us ≡ k.state.bound_us
        + grown_us k.clock.drift_us (settled_at k.clock k.state now).pace
        (lasted beat.report.lock) }
    ensures sharp { (d seconds : ℕ) (pace : Pace) → (grown_us d (Some pace) seconds ≤ seconds * d)
        × (grown_us d (Some pace) seconds ≤ (seconds * pace.within_ns + 1999) / 1000) }
    // Without a wander nothing is learned.
    ensures off { (made : Made) (calls : List Call) → made.clock.wander_ppb ≡ 0
        → (life_of made calls).state.pace ≡ None }
{}

/// What strays is seen, whatever lines carry: as long as no vote contradicted those before it and none
/// is forgotten, the interval lies in that of each vote since, carried on by the drift, or to a vote one
/// second later by what was learned, so that a vote contradicts it that differs from any of them by more
/// than their bounds and what may have come between.
pub fn what_strays_is_seen()
    // The edge of a vote lies no further off than its bound.
    ensures vote { (vote : Vote) (edge : ℕ) → vote.edge_us ≡ edge % 2 ^ 32 → vote.bound_us ≤ edge
        → vote.bound_us ≤ most_vote_us
        → LiesBetween (edge - vote.bound_us) (edge + vote.bound_us) (by_vote vote) }
    // So many seconds later it lies as much further off as the counter drifts.
    ensures carried { (d seconds from to : ℕ) (x y : Interval) → d ≤ most_drift_us
        → LiesBetween from to x → carried d seconds x ≡ Some y
        → LiesBetween (from + (seconds * 1000000 - seconds * d))
        (to + seconds * 1000000 + seconds * d) y }
    // One second later, by what was learned, it lies no earlier and no later than that second lasts.
    ensures learned { (pace : Pace) (from to : ℕ) (x y : Interval) → LiesBetween from to x
        → paced pace x ≡ Some y
        → LiesBetween (from + shortest_us pace) (to + longest_us pace) y }
    // What a vote leaves lies where both lie.
    ensures cut { (x y : Interval) (from to others others_to : ℕ) → LiesBetween from to x
        → LiesBetween others others_to y → AreNear from to others others_to
        → contradicts (Some x) y ≡ false
        → LiesBetween from to (cut (Some x) y) × LiesBetween others others_to (cut (Some x) y) }
    // A vote that lies apart contradicts.
    ensures apart { (x y : Interval) (from to others others_to : ℕ) → LiesBetween from to x
        → LiesBetween others others_to y → AreNear from to others others_to
        → (to < others) ⊎ (others_to < from) → contradicts (Some x) y ≡ true }
{}

/// What has strayed is not held: behind a vote that contradicted those before it, or frames that told
/// that the counter is unsteady, nothing is announced without a vote, until as many seconds were voted
/// as a holdover may last, 1,000 at most and one at least, and none strayed in its turn.
pub fn what_strays_is_not_held()
    ensures held { (made : Made) (before now : ℕ) (earlier later : List Call) (beat : Beat)
        → ¬ ((life_of made (Tick before ∷ earlier)).state.strays
        ≡ (life_of made earlier).state.strays)
        → voted_since (device_of made) later (Tick before ∷ earlier) < doubted_s made.clock
        → vote_at (life_of made (later ++ (Tick before ∷ earlier))) (now % 2 ^ 32) ≡ None
        → answer_at (life_of made (later ++ (Tick before ∷ earlier))) (now % 2 ^ 32) ≡ Some beat
        → beat.report.announce ≡ None }
    // Behind so many voted seconds the reader's rule, which the leap table guards, alone says what is
    // announced, but where frames tell again that the counter is unsteady.
    ensures over { (made : Made) (now : ℕ) (earlier later : List Call) (beat : Beat)
        → NoneStrays (device_of made) later earlier
        → doubted_s made.clock ≤ voted_since (device_of made) later earlier
        → is_unsteady made.clock (life_of made (later ++ earlier)).state (now % 2 ^ 32) ≡ false
        → answer_at (life_of made (later ++ earlier)) (now % 2 ^ 32) ≡ Some beat
        → SaysTheRule (life_of made (later ++ earlier)) (now % 2 ^ 32) beat }
    // By a vote it says that always.
    ensures voted { (made : Made) (now : ℕ) (calls : List Call) (vote : Vote) (beat : Beat)
        → vote_at (life_of made calls) (now % 2 ^ 32) ≡ Some vote
        → answer_at (life_of made calls) (now % 2 ^ 32) ≡ Some beat
        → SaysTheRule (life_of made calls) (now % 2 ^ 32) beat }
    // So it does as long as at each tick all but at most f lines were true in the last 1.2 s.
    ensures none { (t : TimelineValue) (edges : ℕ → ℕ) (made : Made) (start now : ℕ)
        (calls : List Call) (beat : Beat)
        → LivesTruly (IsTrueLately made.clock.within.us) t edges made start (Tick now ∷ calls)
        → answer_at (life_of made calls) (now % 2 ^ 32) ≡ Some beat
        → SaysTheRule (life_of made calls) (now % 2 ^ 32) beat }
{}

/// In order, whatever lines carry and however the counter drifts: the edges that are told lie half
/// a second apart at least, and none lies ahead of its tick, nor 1.006 s behind it.
pub fn edges_lie_apart()
    ensures { (made : Made) (start before now : ℕ) (earlier later : List Call) (beat then : Beat)
        → AreInOrder start made.clock.redundancy (Tick now ∷ (later ++ (Tick before ∷ earlier)))
        → answer_at (life_of made earlier) (before % 2 ^ 32) ≡ Some beat
        → answer_at (life_of made (later ++ (Tick before ∷ earlier))) (now % 2 ^ 32) ≡ Some then
        → AreApartBeats before now beat then }
{}

/// A device heals: whatever its lines carried, however long, the first vote that counts an edge at
/// a tick at which at most f lines were untrue in the last 1.2 s brings the truth back, if at each
/// tick from there on at most f are. (Until then it may hold over what is untrue, for as many edges
/// as its rules allow.)
pub fn a_device_heals()
    ensures life { (t : TimelineValue) (edges : ℕ → ℕ) (made : Made) (start mend now : ℕ)
        (earlier later : List Call) (vote : Vote) (beat then : Beat) (u : UtcSecond)
        → IsDevice t made.clock.drift_us edges made.clock.reader_rules made.table
        → made.clock.wander_ppb ≡ 0
        → AreInOrder start made.clock.redundancy (Tick now ∷ (later ++ (Tick mend ∷ earlier)))
        → AreTrueLately (IsTrueLately made.clock.within.us made.rules t edges) (f_of made.clock.redundancy) mend
        earlier
        → AreTrueOver (IsTrueLately made.clock.within.us made.rules t edges) (f_of made.clock.redundancy)
        (Tick now ∷ later) (Tick mend ∷ earlier)
        → vote_at (life_of made earlier) (mend % 2 ^ 32) ≡ Some vote
        → answer_at (life_of made earlier) (mend % 2 ^ 32) ≡ Some beat
        → answer_at (life_of made (later ++ (Tick mend ∷ earlier))) (now % 2 ^ 32) ≡ Some then
        → then.report.announce ≡ Some u
        → IsToldInHoldover t edges 0 0 made.clock now then u }
    // What a later tick announces is a later second.
    ensures order { (t : TimelineValue) (edges : ℕ → ℕ) (made : Made) (start before now : ℕ)
        (earlier later : List Call) (beat then : Beat) (u v : UtcSecond)
        → HasHealed (IsTrueLately made.clock.within.us) t edges made start (Tick before ∷ earlier)
        → AreInOrder start made.clock.redundancy (Tick now ∷ (later ++ (Tick before ∷ earlier)))
        → AreTrueOver (IsTrueLately made.clock.within.us made.rules t edges) (f_of made.clock.redundancy)
        (Tick now ∷ later) (Tick before ∷ earlier)
        → answer_at (life_of made earlier) (before % 2 ^ 32) ≡ Some beat
        → beat.report.announce ≡ Some u
        → answer_at (life_of made (later ++ (Tick before ∷ earlier))) (now % 2 ^ 32) ≡ Some then
        → then.report.announce ≡ Some v → IsLaterSecond t u v }
    // No later report has the cause `Jump`.
    ensures calm { (t : TimelineValue) (edges : ℕ → ℕ) (made : Made) (start now : ℕ)
        (calls : List Call) (beat : Beat) → HasHealed (IsTrueLately made.clock.within.us) t edges made start calls
        → AreInOrder start made.clock.redundancy (Tick now ∷ calls)
        → AreTrueLately (IsTrueLately made.clock.within.us made.rules t edges) (f_of made.clock.redundancy) now calls
        → answer_at (life_of made calls) (now % 2 ^ 32) ≡ Some beat
        → ¬ (beat.report.cause ≡ Cause.Jump) }
    // Stamps are true of events that come at the edge of that vote or later. If it announces
    // nothing, as at a jump, they are true of all events: none goes by what was announced before.
    ensures stamps { (t : TimelineValue) (edges : ℕ → ℕ) (made : Made) (start edge time now : ℕ)
        (calls : List Call) (stamp : Stamp)
        → (healed : HasHealed (IsTrueLately made.clock.within.us) t edges made start calls)
        → IsEdgeAt healed.beat.edge_us edge healed.mend
        → (edge ≤ time) ⊎ (healed.beat.report.announce ≡ None)
        → AreInOrder start made.clock.redundancy (Tick now ∷ calls)
        → time ≤ now → now ≤ time + 1800000000
        → stamp_at (life_of made calls) (time % 2 ^ 32) ≡ Some stamp
        → IsStampedTruly t edges 0 time stamp }
    // Of two seconds that are told in a row from then on the edges lie less than a second and a half
    // apart, if none was missed between, so that no event between them is without a stamp.
    ensures row { (t : TimelineValue) (edges : ℕ → ℕ) (made : Made) (start edge next : ℕ)
        (calls : List Call) (beat then : Beat) (u : UtcSecond)
        → (row : AreToldLast (device_of made) calls beat then edge next)
        → HasHealed (IsTrueLately made.clock.within.us) t edges made start
        (Tick row.before ∷ row.earlier)
        → AreInOrder start made.clock.redundancy calls
        → AreTrueOver (IsTrueLately made.clock.within.us made.rules t edges)
        (f_of made.clock.redundancy) (Tick row.now ∷ row.between) (Tick row.before ∷ row.earlier)
        → beat.report.announce ≡ Some u → then.missed ≡ 0 → next < edge + 1500000 }
{}

/// No f lines can keep a device from a vote: if more than f lines keep frames of one claim whose
/// edges may lie at the last time at which that of one of them may, and a tick comes when the frames of the
/// true lines have ended, as long ago as two of their edges may lie apart, less what lines are off, and
/// 100 ms at most, it has a vote, whatever the others keep.
pub fn enough_lines_vote()
    ensures agree { (clock : ClockRules) (lines : Lines) (i : ℕ) (first : KeptClaim) → i < 5
        → claim_kept clock (line_at lines i).frame ≡ Some first
        → f_of clock.redundancy < count_by (agrees first) (all_kept clock lines)
        → (vote : Vote) × (agreed clock lines ≡ Some vote) }
    ensures come { (t : TimelineValue) (edges : ℕ → ℕ) (k : Keeping) (now : ℕ)
        (pulses : ℕ → List Pulse) (vote : Vote) → IsQuartz k.clock.drift_us edges
        → (heard : AreHeardTruly (IsTrueLately k.clock.within.us k.rules t edges now) k.clock
        k.rules (f_of k.clock.redundancy) now k.state.lines pulses)
        → ((i : ℕ) → i < 5 → heard.untrue i ≡ false
        → IfKept (HasJustCome k.clock now) k.clock k.rules
        (claim_kept k.clock (line_at k.state.lines i).frame) (pulses i))
        → agreed k.clock (settled (now % 2 ^ 32) k.state.lines) ≡ Some vote
        → vote_at k (now % 2 ^ 32) ≡ Some vote }
{}

/// Beats are votes, as irig_reader counts them. Where frames are preferred to the leap table, a beat
/// behind k missed seconds is a vote behind k edges without one. And true votes in a row lock: at the
/// last of so many as the rules ask, none of them missed, a device announces the second that begins, if
/// its table is true or frames are preferred.
pub fn beats_are_votes()
    ensures step { (rules : ReaderRules) (table : TableValue) (missed : ℕ) (state : State)
        (votes : List (Option Claim)) (vote : Option Claim) → state ≡ state_of rules table votes
        → step_behind true rules table missed state vote
        ≡ step_of rules table (state_of rules table (then_none missed votes)) vote }
    ensures lock { (t : TimelineValue) (n : ℕ) (k : Keeping) (vote : Vote)
        (before earlier : List (Option Claim)) (u : UtcSecond) → IsTimeline t
        → FollowsTruth t k.clock.prefers_frames k.table
        → 1 ≤ k.clock.reader_rules.lock_after
        → IsSilentAfter k.clock.reader_rules k.table earlier
        → IsSecond t (n + k.clock.reader_rules.lock_after) u
        → k.state.reader ≡ state_of k.clock.reader_rules k.table before
        → Some vote.claim ∷ before ≡ then_true t n k.clock.reader_rules.lock_after earlier
        → answer_to_vote k.clock k.table k.state vote 1 ≡ Some (record {
          report = voted_report u;
          told = tells_of k.state.lines;
          edge_us = vote.edge_us;
          bound_us = vote.bound_us;
          missed = 0;
          moved = k.state.moved;
          against_table = against_table k.table (Some vote.claim);
        }) }
{}

/// Waiting is right: if lines agree on an edge, a tick after as long as a device says, or later, by
/// 94 ms behind that edge, has that vote, which answers or sets the edge right.
/// Without one it counts an edge by the own counter. A device says 0 only if a tick at once does
/// so.
pub fn waiting_is_right()
    ensures votes { (made : Made) (start now then edge : ℕ) (calls : List Call) (vote : Vote)
        → AreInOrder start made.clock.redundancy (Tick now ∷ calls)
        → AreInOrder start made.clock.redundancy (Tick then ∷ calls)
        → agreed (life_of made calls).clock
        (settled (now % 2 ^ 32) (life_of made calls).state.lines) ≡ Some vote
        → vote.edge_us ≡ edge % 2 ^ 32 → edge ≤ now + 17000 → now ≤ edge + 94000
        → now + wait_at (life_of made calls) (now % 2 ^ 32) ≤ then → then ≤ edge + 94000
        → vote_at (life_of made calls) (then % 2 ^ 32) ≡ Some vote }
    ensures counts { (pace : Option Pace) (e edge tick now more : ℕ)
        → IsEdgeAt e edge tick → tick ≤ now
        → now + wait_by (now % 2 ^ 32) (Some e) None + more ≤ tick + 1800000000
        → 1 ≤ edges_own pace (Some e) ((now + wait_by (now % 2 ^ 32) (Some e) None + more) % 2 ^ 32) }
    ensures waits { (pace : Option Pace) (e edge tick now : ℕ) → IsEdgeAt e edge tick → tick ≤ now
        → now ≤ tick + 1800000000 → edges_own pace (Some e) (now % 2 ^ 32) ≡ 0
        → (1 ≤ wait_by (now % 2 ^ 32) (Some e) None)
        × (wait_by (now % 2 ^ 32) (Some e) None ≤ 1006000) }
{}

/// A stamp names the instant of its event: of every life, as of `a_device_tells_the_truth`, a stamp
/// of an event of the last half hour has a second T(m) and an offset that lie no further from the
/// event than the stamp's bound, by the device's counter.
pub fn stamps_are_true()
    ensures stamp { (t : TimelineValue) (edges : ℕ → ℕ) (made : Made) (start time now : ℕ)
        (calls : List Call) (stamp : Stamp)
        → IsDevice t made.clock.drift_us edges made.clock.reader_rules made.table
        → WandersAsSet made.clock edges
        → AreInOrder start made.clock.redundancy (Tick now ∷ calls)
        → AreTrueAtTicks (IsTrueLately made.clock.within.us made.rules t edges) (f_of made.clock.redundancy) calls
        → time ≤ now → now ≤ time + 1800000000
        → stamp_at (life_of made calls) (time % 2 ^ 32) ≡ Some stamp
        → IsStampedTruly t edges 0 time stamp }
    // The bound is at most that of a vote and the drift of each second since the last one, whatever
    // lines carry.
    ensures bound { (made : Made) (time : ℕ) (calls : List Call) (stamp : Stamp)
        → stamp_at (life_of made calls) (time % 2 ^ 32) ≡ Some stamp
        → HasItsBound made calls stamp }
    // So two devices stamp one instant alike, whatever their counters show: what their stamps name
    // lies no further apart than the sum of their bounds and the drift of two seconds of each.
    ensures together { (t : TimelineValue) (d e n tau time other : ℕ) (edges others : ℕ → ℕ)
        (x y : Stamp) → IsQuartz d edges → IsQuartz e others → IsInstant d edges n tau time
        → IsInstant e others n tau other → (one : IsStampedTruly t edges 0 time x)
        → (two : IsStampedTruly t others 0 other y)
        → one.m * 1000000 + x.offset_us
        ≤ two.m * 1000000 + y.offset_us + x.bound_us + y.bound_us + 2 * d + 2 * e }
    // No event is without one between the two seconds that were told last, if both were announced
    // and their edges lie less than a second and a half apart, nor up to a second and its error
    // behind the last, whatever lines carry.
    ensures none_lost { (made : Made) (edge next time : ℕ) (calls : List Call) (beat then : Beat)
        (u v : UtcSecond) → AreToldLast (device_of made) calls beat then edge next
        → beat.report.announce ≡ Some u → then.report.announce ≡ Some v → next < edge + 1500000
        → edge ≤ time → time ≤ next + 1000000 + then.bound_us
        → (stamp : Stamp) × (stamp_at (life_of made calls) (time % 2 ^ 32) ≡ Some stamp) }
    // So near they lie in such a life, if no second was missed between.
    ensures row { (t : TimelineValue) (edges : ℕ → ℕ) (made : Made) (start edge next : ℕ)
        (calls : List Call) (beat then : Beat) (u : UtcSecond)
        → LivesTruly (IsTrueLately made.clock.within.us) t edges made start calls
        → AreToldLast (device_of made) calls beat then edge next
        → beat.report.announce ≡ Some u → then.missed ≡ 0 → next < edge + 1500000 }
{}

/// A device announces, and f lines cannot stop it: wherever it stands, let there be seconds in a
/// row, two more than it locks after, of each of which more than f lines send the frame whole, and
/// let a tick come behind its edge, by the bound of a vote at least and 98 ms at most, when those
/// lines have told it, and none before it more than 3 ms behind the edge. Then a tick of the last
/// of these seconds announces it by a vote, whatever the other lines send, if its leap table is
/// true or frames are preferred to it.
pub fn a_device_announces()
    ensures { (t : TimelineValue) (edges : ℕ → ℕ) (made : Made) (start m told : ℕ)
        (calls before : List Call) (u : UtcSecond)
        → IsDevice t made.clock.drift_us edges made.clock.reader_rules made.table
        → FollowsTruth t made.clock.prefers_frames made.table
        → AreInOrder start made.clock.redundancy calls → 1 ≤ m
        → 1 ≤ made.clock.reader_rules.lock_after → HaveRisen told before → told + 11000 < edges m
        → AreWellHeard (IsTrueLately made.clock.within.us made.rules t edges) t edges (device_of made) start m
        (suc (suc made.clock.reader_rules.lock_after)) calls before
        → IsSecond t (m + 1 + made.clock.reader_rules.lock_after) u
        → Announces edges (device_of made) (m + 1 + made.clock.reader_rules.lock_after) u calls }
{}
