//! Laws of a timekeeper whose lines have faults, over its definitions. They have no code.

ghost use Rattle.std.specs.Prelude.{◌≡◌, ◌+◌, ◌*◌, ◌%◌, ◌^◌, ◌<◌, ◌≤◌, ℕ, List, ◌∷◌, ◌++◌, Option, Some};
ghost use Rattle.irig_frame.specs.declared.symbol.Symbol.{Symbol};
ghost use Rattle.irig_sync.specs.Lines.{Pulse};
ghost use Rattle.irig_sync.specs.FaultyLines.{ArePulsesBefore};
ghost use Rattle.irig_time.specs.Timelines.{TimelineValue, IsTrueClaim};
ghost use Rattle.irig_time.specs.Tables.{TableValue};
ghost use Rattle.irig_time.specs.Carries.{Carries};
ghost use Rattle.irig_time.specs.TimelineFaults.{IsTimeline};
ghost use Rattle.irig_gen.specs.Frames.{GeneratorValue, IsTrueFrame};
ghost use Rattle.irig_gen.specs.Refusals.{IsGenerator};
ghost use Rattle.irig_vote.specs.Vote.{f_of};
ghost use Rattle.irig_lines.specs.Edges.{IsQuartz, IsTrueNear};
ghost use Rattle.irig_lines.specs.Lines.{IsFrameOf, IsLineOf, line_of, IsCheckedLineOf, IsTrueButForFaults, IsTrueOrFaulty};
ghost use Rattle.irig_timekeeper.specs.Keeping.{answer_at, stamp_at};
ghost use Rattle.irig_timekeeper.specs.Truth.{IsToldInHoldover, IsLaterSecond, IsDevice, IsStampedTruly};
ghost use Rattle.irig_timekeeper.specs.Life.{Call, Made, AreInOrder, AreTrueAtTicks, LivesTruly, device_of, life_of};
ghost use Rattle.irig_timekeeper.specs.Life.Call.{Tick};
ghost use Rattle.irig_timekeeper.specs.Rows.{AreToldLast};
ghost use Rattle.irig_lines.specs.Exactness.{end_off_us, fault_early_us, fault_late_us, most_drift_us, most_vote_us};

use irig_lines::{ClockRules, Within};
use irig_reader::{Cause, ReaderRules};
use irig_time::{Claim, Rules, UtcSecond};
use irig_timekeeper::{Beat, Stamp};

/// Lines with faults tell truly: what [`a_device_tells_the_truth`](crate::a_device_tells_the_truth)
/// says holds too if a line counts as true that had one fault of any kind in each hundred pulses of
/// the last 1.2 s: a pulse was lost, late, early, doubled, cut in two or of another width, or one
/// was added. But a frame may then end so much earlier and later as one may that is even, if its last
/// pulse is at fault and its first one true (`fault_early_us`): lines and a counter exact to 10 us and
/// 50 us a second tell 117 us earlier at most. It never ends more than 1 ms later (`fault_late_us`).
pub fn lines_with_faults_tell_truly()
    // A frame that ended at most 100 ms ago claims the true second before an edge, and ends near
    // that edge.
    ensures kept { (clock : ClockRules) (rules : Rules) (t : TimelineValue) (half now end : ℕ)
        (edges : ℕ → ℕ) (pulses : List Pulse) (claim : Claim) → IsQuartz clock.drift_us edges
        → IsTrueButForFaults clock.within.us rules t edges now pulses
        → IsFrameOf clock rules claim half end pulses → now ≤ end + 100000
        → IsTrueNear t edges (end_off_us clock.within.us clock.drift_us
        + fault_early_us clock.within.us clock.drift_us) (end_off_us clock.within.us clock.drift_us
        + fault_late_us clock.within.us clock.drift_us) end claim }
    // So a device tells the truth all its life: the edge that it tells lies no further off than its
    // bound, and so much more before the true one and behind it.
    ensures life { (t : TimelineValue) (edges : ℕ → ℕ) (made : Made) (start now : ℕ)
        (calls : List Call) (beat : Beat) (u : UtcSecond)
        → made.clock.wander_ppb ≡ 0
        → LivesTruly (IsTrueButForFaults made.clock.within.us) t edges made start (Tick now ∷ calls)
        → answer_at (life_of made calls) (now % 2 ^ 32) ≡ Some beat
        → beat.report.announce ≡ Some u
        → IsToldInHoldover t edges (fault_early_us made.clock.within.us made.clock.drift_us)
        (fault_late_us made.clock.within.us made.clock.drift_us) made.clock now beat u }
    // Some of its lines may have faults while others lose any pulses.
    ensures either { (t : TimelineValue) (edges : ℕ → ℕ) (made : Made) (start now : ℕ)
        (calls : List Call) (beat : Beat) (u : UtcSecond)
        → made.clock.wander_ppb ≡ 0
        → LivesTruly (IsTrueOrFaulty made.clock.within.us) t edges made start (Tick now ∷ calls)
        → answer_at (life_of made calls) (now % 2 ^ 32) ≡ Some beat
        → beat.report.announce ≡ Some u
        → IsToldInHoldover t edges (fault_early_us made.clock.within.us made.clock.drift_us)
        (fault_late_us made.clock.within.us made.clock.drift_us) made.clock now beat u }
    // In order: what a later tick announces is a later second.
    ensures order { (t : TimelineValue) (edges : ℕ → ℕ) (made : Made) (start before now : ℕ)
        (earlier later : List Call) (beat then : Beat) (u v : UtcSecond)
        → made.clock.wander_ppb ≡ 0
        → LivesTruly (IsTrueButForFaults made.clock.within.us) t edges made start
        (Tick now ∷ (later ++ (Tick before ∷ earlier)))
        → answer_at (life_of made earlier) (before % 2 ^ 32) ≡ Some beat
        → beat.report.announce ≡ Some u
        → answer_at (life_of made (later ++ (Tick before ∷ earlier))) (now % 2 ^ 32) ≡ Some then
        → then.report.announce ≡ Some v → IsLaterSecond t u v }
    // And no report has the cause `Jump`.
    ensures calm { (t : TimelineValue) (edges : ℕ → ℕ) (made : Made) (start now : ℕ)
        (calls : List Call) (beat : Beat)
        → made.clock.wander_ppb ≡ 0
        → LivesTruly (IsTrueButForFaults made.clock.within.us) t edges made start (Tick now ∷ calls)
        → answer_at (life_of made calls) (now % 2 ^ 32) ≡ Some beat
        → ¬ (beat.report.cause ≡ Cause.Jump) }
    // Stamps lie no further off than their bound and so much more.
    ensures stamps { (t : TimelineValue) (edges : ℕ → ℕ) (made : Made) (start time now : ℕ)
        (calls : List Call) (stamp : Stamp)
        → made.clock.wander_ppb ≡ 0
        → IsDevice t made.clock.drift_us edges made.clock.reader_rules made.table
        → AreInOrder start made.clock.redundancy (Tick now ∷ calls)
        → AreTrueAtTicks (IsTrueOrFaulty made.clock.within.us made.rules t edges) (f_of made.clock.redundancy) calls
        → time ≤ now → now ≤ time + 1800000000
        → stamp_at (life_of made calls) (time % 2 ^ 32) ≡ Some stamp
        → IsStampedTruly t edges (fault_early_us made.clock.within.us made.clock.drift_us) time stamp }
    // Of two seconds that are told in a row the edges lie less than a second and a half apart, if none
    // was missed between, so that no event between them is without a stamp.
    ensures row { (t : TimelineValue) (edges : ℕ → ℕ) (made : Made) (start edge next : ℕ)
        (calls : List Call) (beat then : Beat) (u : UtcSecond)
        → made.clock.wander_ppb ≡ 0
        → LivesTruly (IsTrueOrFaulty made.clock.within.us) t edges made start calls
        → AreToldLast (device_of made) calls beat then edge next
        → beat.report.announce ≡ Some u → then.missed ≡ 0 → next < edge + 1500000 }
    // It comes to 1.1 ms at most.
    ensures most { (within : Within) (d : ℕ) → d ≤ most_drift_us
        → (fault_early_us within.us d < 1100) × (fault_late_us within.us d ≤ 1000)
        × (fault_late_us within.us d ≤ fault_early_us within.us d) }
    // The bound is less than half a second, and so it is with that.
    ensures half { (made : Made) (now : ℕ) (calls : List Call) (beat : Beat)
        → made.clock.drift_us ≤ most_drift_us
        → answer_at (life_of made calls) (now % 2 ^ 32) ≡ Some beat
        → fault_early_us made.clock.within.us made.clock.drift_us + beat.bound_us < 500000 }
    // A line may have faults that sends n frames, each of which carries the true claim of its second,
    // and nothing behind them.
    ensures lines { (rules : Rules) (t : TimelineValue) (n : ℕ) (frames : ℕ → List Symbol)
        → ((f : ℕ) → f < n
        → (claim : Claim) × IsTrueClaim t (f + 1) claim × Carries rules (frames f) claim)
        → IsCheckedLineOf rules t (line_of frames n) }
    // So may that of a clock that sends the frames of n seconds.
    ensures clocks { (g : GeneratorValue) (t : TimelineValue) (n : ℕ) (frames : ℕ → List Symbol)
        → IsGenerator g → IsTimeline t → ((f : ℕ) → f < n → IsTrueFrame g t f (frames f))
        → IsCheckedLineOf g.rules t (line_of frames n) }
    // One that may have faults may lose pulses, too.
    ensures lossy { (rules : Rules) (t : TimelineValue) (line : ℕ → Symbol)
        → IsCheckedLineOf rules t line → IsLineOf rules t line }
    // And it has none while each pulse comes.
    ensures whole { (within : ℕ) (rules : Rules) (t : TimelineValue) (line : ℕ → Symbol)
        (edges : ℕ → ℕ) (now k : ℕ) (pulses : List Pulse) → IsCheckedLineOf rules t line
        → ArePulsesBefore line edges within k pulses
        → IsTrueButForFaults within rules t edges now pulses }
{}
