//! Laws of a timekeeper whose clocks are not right themselves, over its definitions. They have no code.

ghost use Rattle.std.specs.Prelude.{◌≡◌, ◌+◌, ◌*◌, ◌%◌, ◌^◌, ◌<◌, ◌≤◌, ℕ, List, ◌∷◌, ◌++◌, Some};
ghost use Rattle.irig_sync.specs.Lines.{Pulse};
ghost use Rattle.irig_time.specs.Timelines.{TimelineValue};
ghost use Rattle.irig_time.specs.Tables.{TableValue};
ghost use Rattle.irig_vote.specs.Vote.{f_of};
ghost use Rattle.irig_sync.specs.Edges.{element_drift};
ghost use Rattle.irig_lines.specs.Clocks.{IsTrueByItsClock, IsTrueByItsQuality};
ghost use Rattle.irig_lines.specs.Edges.{IsQuartz, IsTrueNear};
ghost use Rattle.irig_lines.specs.Exactness.{end_off_us, most_drift_us, most_vote_us};
ghost use Rattle.irig_lines.specs.Paces.{WandersAsSet};
ghost use Rattle.irig_lines.specs.Widths.{vote_us};
ghost use Rattle.irig_lines.specs.Lines.{IsFrameOf, IsTrueLately};
ghost use Rattle.irig_timekeeper.specs.Keeping.{answer_at, stamp_at};
ghost use Rattle.irig_timekeeper.specs.Truth.{IsToldInHoldover, IsLaterSecond, IsDevice, IsStampedTruly};
ghost use Rattle.irig_timekeeper.specs.Life.{Call, Made, AreInOrder, AreTrueAtTicks, LivesTruly, life_of};
ghost use Rattle.irig_timekeeper.specs.Life.Call.{Tick};

use irig_lines::{ClockRules, Within};
use irig_reader::{Cause, ReaderRules};
use irig_time::{Claim, Rules, UtcSecond};
use irig_timekeeper::{Beat, Stamp};

/// Clocks that are off tell so much less exactly, and no less truly: what
/// [`a_device_tells_the_truth`](crate::a_device_tells_the_truth) says holds too if each true line is
/// true by the seconds of its own clock, and these begin at most 1,000 us before those of UTC or behind
/// them, and are as long by the device's counter as true ones may be. Told edges and stamps lie so much
/// further off than their bounds. Nothing is asked of what these clocks say of themselves; of clocks that
/// say how far off they are [`quality_is_in_the_bound`] holds.
pub fn clocks_off_tell_truly()
    // A frame that ended at most 100 ms ago claims the true second before an edge, and ends so near that
    // edge.
    ensures kept { (clock : ClockRules) (rules : Rules) (t : TimelineValue) (off half now end : ℕ)
        (edges : ℕ → ℕ) (pulses : List Pulse) (claim : Claim)
        → IsTrueByItsClock off clock.within.us clock.drift_us rules t edges now pulses
        → IsFrameOf clock rules claim half end pulses → now ≤ end + 100000
        → IsTrueNear t edges (off + end_off_us clock.within.us clock.drift_us)
        (off + end_off_us clock.within.us clock.drift_us) end claim }
    // So a device tells the truth all its life: the edge that it tells lies no further off than its
    // bound, and so much more.
    ensures life { (t : TimelineValue) (edges : ℕ → ℕ) (made : Made) (off start now : ℕ)
        (calls : List Call) (beat : Beat) (u : UtcSecond) → off ≤ 1000
        → made.clock.wander_ppb ≡ 0
        → LivesTruly (IsTrueByItsClock off made.clock.within.us made.clock.drift_us) t edges made start
        (Tick now ∷ calls)
        → answer_at (life_of made calls) (now % 2 ^ 32) ≡ Some beat
        → beat.report.announce ≡ Some u
        → IsToldInHoldover t edges off off made.clock now beat u }
    // In order: what a later tick announces is a later second.
    ensures order { (t : TimelineValue) (edges : ℕ → ℕ) (made : Made) (off start before now : ℕ)
        (earlier later : List Call) (beat then : Beat) (u v : UtcSecond) → off ≤ 1000
        → made.clock.wander_ppb ≡ 0
        → LivesTruly (IsTrueByItsClock off made.clock.within.us made.clock.drift_us) t edges made start
        (Tick now ∷ (later ++ (Tick before ∷ earlier)))
        → answer_at (life_of made earlier) (before % 2 ^ 32) ≡ Some beat
        → beat.report.announce ≡ Some u
        → answer_at (life_of made (later ++ (Tick before ∷ earlier))) (now % 2 ^ 32) ≡ Some then
        → then.report.announce ≡ Some v → IsLaterSecond t u v }
    // And no report has the cause `Jump`.
    ensures calm { (t : TimelineValue) (edges : ℕ → ℕ) (made : Made) (off start now : ℕ)
        (calls : List Call) (beat : Beat) → off ≤ 1000
        → made.clock.wander_ppb ≡ 0
        → LivesTruly (IsTrueByItsClock off made.clock.within.us made.clock.drift_us) t edges made start
        (Tick now ∷ calls)
        → answer_at (life_of made calls) (now % 2 ^ 32) ≡ Some beat
        → ¬ (beat.report.cause ≡ Cause.Jump) }
    // Stamps lie no further off than their bound and so much more.
    ensures stamps { (t : TimelineValue) (edges : ℕ → ℕ) (made : Made) (off start time now : ℕ)
        (calls : List Call) (stamp : Stamp) → off ≤ 1000
        → made.clock.wander_ppb ≡ 0
        → IsDevice t made.clock.drift_us edges made.clock.reader_rules made.table
        → AreInOrder start made.clock.redundancy (Tick now ∷ calls)
        → AreTrueAtTicks (IsTrueByItsClock off made.clock.within.us made.clock.drift_us made.rules t edges)
        (f_of made.clock.redundancy) calls
        → time ≤ now → now ≤ time + 1800000000
        → stamp_at (life_of made calls) (time % 2 ^ 32) ≡ Some stamp
        → IsStampedTruly t edges off time stamp }
    // The bound and `off` together are less than half a second.
    ensures half { (made : Made) (off now : ℕ) (calls : List Call) (beat : Beat) → off ≤ 1000
        → made.clock.drift_us ≤ most_drift_us
        → answer_at (life_of made calls) (now % 2 ^ 32) ≡ Some beat
        → off + beat.bound_us < 500000 }
    // A line that is true by the seconds of UTC is true by those of a clock that may be off.
    ensures right { (off d : ℕ) (within : Within) (rules : Rules) (t : TimelineValue)
        (edges : ℕ → ℕ) (now : ℕ) (pulses : List Pulse) → IsQuartz d edges
        → IsTrueLately within.us rules t edges now pulses
        → IsTrueByItsClock off within.us d rules t edges now pulses }
{}

/// Quality is in the bound: what [`a_device_tells_the_truth`](crate::a_device_tells_the_truth) says holds
/// too if each true line is true by the seconds of its own clock, which are as long by the device's counter
/// as true ones may be, and the second that a frame of it ends with begins no further from that of UTC
/// than the frame's time quality says, if that has a vote. Told edges and stamps lie no further off than
/// their bounds: a clock that says 10 us widens what its frames say by 10 us to either side, and nothing
/// is asked of a clock whose frames have no vote.
pub fn quality_is_in_the_bound()
    // A frame that ended at most 100 ms ago claims the true second before an edge, and ends as near that
    // edge as it may by its quality.
    ensures kept { (clock : ClockRules) (rules : Rules) (t : TimelineValue) (half now end : ℕ)
        (edges : ℕ → ℕ) (pulses : List Pulse) (claim : Claim)
        → IsTrueByItsQuality clock rules t edges now pulses
        → IsFrameOf clock rules claim half end pulses → now ≤ end + 100000
        → IsTrueNear t edges (half + element_drift clock.drift_us)
        (half + element_drift clock.drift_us) end claim }
    // So a device tells the truth all its life: the edge that it tells lies no further off than its
    // bound.
    ensures life { (t : TimelineValue) (edges : ℕ → ℕ) (made : Made) (start now : ℕ)
        (calls : List Call) (beat : Beat) (u : UtcSecond)
        → LivesTruly (IsTrueByItsQuality made.clock) t edges made start (Tick now ∷ calls)
        → answer_at (life_of made calls) (now % 2 ^ 32) ≡ Some beat
        → beat.report.announce ≡ Some u → IsToldInHoldover t edges 0 0 made.clock now beat u }
    // In order: what a later tick announces is a later second.
    ensures order { (t : TimelineValue) (edges : ℕ → ℕ) (made : Made) (start before now : ℕ)
        (earlier later : List Call) (beat then : Beat) (u v : UtcSecond)
        → LivesTruly (IsTrueByItsQuality made.clock) t edges made start
        (Tick now ∷ (later ++ (Tick before ∷ earlier)))
        → answer_at (life_of made earlier) (before % 2 ^ 32) ≡ Some beat
        → beat.report.announce ≡ Some u
        → answer_at (life_of made (later ++ (Tick before ∷ earlier))) (now % 2 ^ 32) ≡ Some then
        → then.report.announce ≡ Some v → IsLaterSecond t u v }
    // And no report has the cause `Jump`.
    ensures calm { (t : TimelineValue) (edges : ℕ → ℕ) (made : Made) (start now : ℕ)
        (calls : List Call) (beat : Beat)
        → LivesTruly (IsTrueByItsQuality made.clock) t edges made start (Tick now ∷ calls)
        → answer_at (life_of made calls) (now % 2 ^ 32) ≡ Some beat
        → ¬ (beat.report.cause ≡ Cause.Jump) }
    // Stamps lie no further off than their bound.
    ensures stamps { (t : TimelineValue) (edges : ℕ → ℕ) (made : Made) (start time now : ℕ)
        (calls : List Call) (stamp : Stamp)
        → IsDevice t made.clock.drift_us edges made.clock.reader_rules made.table
        → WandersAsSet made.clock edges
        → AreInOrder start made.clock.redundancy (Tick now ∷ calls)
        → AreTrueAtTicks (IsTrueByItsQuality made.clock made.rules t edges)
        (f_of made.clock.redundancy) calls
        → time ≤ now → now ≤ time + 1800000000
        → stamp_at (life_of made calls) (time % 2 ^ 32) ≡ Some stamp
        → IsStampedTruly t edges 0 time stamp }
    // No vote contradicts those before it.
    ensures strays { (t : TimelineValue) (edges : ℕ → ℕ) (made : Made) (start : ℕ)
        (calls : List Call) → LivesTruly (IsTrueByItsQuality made.clock) t edges made start calls
        → (life_of made calls).state.strays ≡ 0 }
    // The bound of a vote is 2,899 us at most, whatever the setup.
    ensures small { (clock : ClockRules) (d : ℕ) → d ≤ most_drift_us
        → vote_us clock d ≤ most_vote_us }
    // A line that is true by the seconds of UTC is no further off than it says, whatever it says.
    ensures right { (clock : ClockRules) (rules : Rules) (t : TimelineValue) (edges : ℕ → ℕ)
        (now : ℕ) (pulses : List Pulse) → IsQuartz clock.drift_us edges
        → IsTrueLately clock.within.us rules t edges now pulses
        → IsTrueByItsQuality clock rules t edges now pulses }
{}
