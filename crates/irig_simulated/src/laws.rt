//! Laws of courses over their definitions. They have no code.

ghost use Rattle.std.specs.Prelude.{◌≡◌, ◌≤◌, ◌+◌, ◌-◌, ◌++◌, ℕ, Bool, List, Option, Some, All, map, reverse, true};
ghost use Rattle.irig_frame.specs.declared.symbol.Symbol.{Symbol};
ghost use Rattle.irig_time.specs.Timelines.{TimelineValue, IsSecond};
ghost use Rattle.irig_lines.specs.Lines.{IsTrueLately};
ghost use Rattle.irig_lines.specs.Steps.{AreNewLines, no_lines};
ghost use Rattle.irig_timekeeper.specs.Life.{Call, device_of};
ghost use Rattle.irig_timekeeper.specs.Lived.{made_with};
ghost use Rattle.irig_timekeeper.specs.Loops.{AreMadeInTurn, AreToldInTime, ComeInARow, GoesByLastWait, TicksEach};
ghost use Rattle.irig_timekeeper.specs.Rows.{AreToldLast};
ghost use Rattle.irig_timekeeper.specs.Truth.{FollowsTruth};
ghost use Rattle.irig_witness.specs.TrueFrames.{true_symbol};
ghost use Rattle.irig_witness.specs.Promise.{IsTrueSetup};
ghost use Rattle.irig_simulated.specs.Kinds.{Kind, MovesOn, count, edges_by_kind};
ghost use Rattle.irig_simulated.specs.Courses.{Course, coming, keeps_so_far, most_in, passed, played, stamp_said, ticked};
ghost use Rattle.irig_simulated.specs.Doings.{AreCounted, Doing, IsTickedInTime, course_behind, told_by};
ghost use Rattle.irig_simulated.specs.Announced.{HasTold, IsAmong};
ghost use Rattle.irig_simulated.specs.Heard.{call_of, heard_until, pulses_told};
ghost use Rattle.irig_simulated.specs.Quiet.{IsQuiet, Passes};
ghost use Rattle.irig_simulated.specs.Truth.{IsToldOfItsEdge};

use crate::setup::Ticking;
use irig_time::UtcSecond;
use irig_timekeeper::{Beat, Stamp};

/// Time passes to its end: whatever is due before a time has happened, since fewer things happen in a
/// stretch than its bound says, if the counter counts and the device is not ticked again at once.
pub fn time_passes_to_its_end()
    ensures { (k : Kind) (signal : ℕ → ℕ → Option Symbol) (stop : ℕ) (x : Course) → MovesOn k
        → stop ≤ (coming (played k signal stop (most_in (stop - x.now)) x)).time_us }
{}

/// A second in which nothing happens is one step. Let a device stand behind the first element of a
/// second, of which each of its lines brings all that its generator sends, or nothing; and let it not
/// be ticked before the last element is sent. Then it was told every pulse before that one, those of
/// each line in order, and the last one is on its way; nothing else has changed. So it is by one thing
/// after another, and [`Simulated::play`](crate::Simulated::play) does it at once.
pub fn a_quiet_second_is_one_step()
    ensures { (k : Kind) (signal : ℕ → ℕ → Option Symbol) (x : Course) (ports n : ℕ) (on : ℕ → Bool)
        (symbols : ℕ → ℕ → Symbol) → IsQuiet k signal x ports n on symbols
        → Passes k signal x ports n on symbols }
{}

/// What a device tells in its course is true: let its setup be true, and its audit kept behind a
/// stretch of time, beside whatever generators sent. Then it was kept before, and each second that
/// it told and announced in between is T of its edge, and begins no further from that than its bound
/// says.
pub fn a_course_tells_the_truth()
    ensures passes { (t : TimelineValue) (sent : ℕ → ℕ → List (List Symbol)) (k : Kind)
        (signal : ℕ → ℕ → Option Symbol) (stop : ℕ) (x : Course)
        → IsTrueSetup t k.rate k.made.clock k.made.table
        → keeps_so_far k (λ line. true_symbol k.made.rules t (sent line)) (passed k signal stop x)
        ≡ true
        → (keeps_so_far k (λ line. true_symbol k.made.rules t (sent line)) x ≡ true)
        × (All (IsToldOfItsEdge t) x.told
        → All (IsToldOfItsEdge t) (passed k signal stop x).told) }
    // So when it is ticked by hand.
    ensures ticks { (t : TimelineValue) (sent : ℕ → ℕ → List (List Symbol)) (k : Kind) (x : Course)
        → IsTrueSetup t k.rate k.made.clock k.made.table
        → keeps_so_far k (λ line. true_symbol k.made.rules t (sent line)) (ticked k x) ≡ true
        → (keeps_so_far k (λ line. true_symbol k.made.rules t (sent line)) x ≡ true)
        × (All (IsToldOfItsEdge t) x.told → All (IsToldOfItsEdge t) (ticked k x).told) }
{}

/// A course calls its device as the loops do that announce, whatever is done with it. Each pulse is
/// told when it has ended, one after another, if its width is counted: a word of 32 bits holds no
/// more than 71 minutes.
pub fn a_course_goes_by_its_loop()
    ensures turn { (k : Kind) (late : List ℕ) (doings : List Doing) (calls before : List Call)
        → MovesOn k → k.rate ≤ 1001000 → (course_behind k late doings).calls ≡ calls ++ before
        → AreCounted calls → AreMadeInTurn (course_behind k late doings).start calls before
        × AreToldInTime (course_behind k late doings).start calls before }
    // A device that goes by `wait` is ticked 2 us at most behind the time that it named last.
    ensures waits { (k : Kind) (late : List ℕ) (doings : List Doing) (calls before : List Call)
        (fresh : AreNewLines no_lines) → MovesOn k → k.rate ≤ 1001000
        → (course_behind k late doings).calls ≡ calls ++ before → k.ticking ≡ Ticking.ByWait
        → GoesByLastWait 2 (device_of (made_with k.made no_lines fresh)) calls before }
    // One that is ticked each 94.9 ms or sooner counts 95 ms at most from tick to tick.
    ensures polls { (k : Kind) (late : List ℕ) (doings : List Doing) (calls before : List Call)
        (us : ℕ) → MovesOn k → k.rate ≤ 1001000
        → (course_behind k late doings).calls ≡ calls ++ before → k.ticking ≡ Ticking.Each us
        → us ≤ 94900 → TicksEach 95000 (course_behind k late doings).start calls before }
{}

/// So it announces, from any state: let as many seconds in a row as it locks after, and two more,
/// come whole on more than f of its lines. Then it has told the second that begins at the edge of the
/// last of these, by a vote, whatever the other lines brought, if its leap table is true or frames
/// are preferred to it.
pub fn a_course_announces()
    ensures announces { (t : TimelineValue) (k : Kind) (late : List ℕ) (doings : List Doing)
        (m : ℕ) (calls before : List Call) (u : UtcSecond) → MovesOn k → k.rate ≤ 1001000
        → IsTickedInTime k → (course_behind k late doings).calls ≡ calls ++ before
        → AreCounted calls → (fresh : AreNewLines no_lines)
        → ComeInARow (IsTrueLately k.made.clock.within.us) t (edges_by_kind k)
        (made_with k.made no_lines fresh) (course_behind k late doings).start m calls before
        → FollowsTruth t k.made.clock.prefers_frames k.made.table
        → IsSecond t (m + 1 + k.made.clock.reader_rules.lock_after) u
        → IsAmong k (m + 1 + k.made.clock.reader_rules.lock_after) u
        (told_by k (course_behind k late doings).calls) }
    // What its calls answered in a stretch of time it told in it, and so when it is ticked by hand.
    ensures passes { (k : Kind) (signal : ℕ → ℕ → Option Symbol) (stop : ℕ) (x : Course)
        → HasTold k x (passed k signal stop x) }
    ensures ticks { (k : Kind) (x : Course) → HasTold k x (ticked k x) }
{}

/// It stamps each instant of an announced second: let its setup be true, and its audit kept. Then no
/// instant between the edges of the two seconds that it told last is without a stamp, if both were
/// announced and none was missed between; nor is one up to a second and its bound behind the last.
pub fn a_course_stamps_each_instant()
    ensures { (t : TimelineValue) (sent : ℕ → ℕ → List (List Symbol)) (k : Kind) (x : Course)
        (edge next time : ℕ) (beat then : Beat) (u v : UtcSecond) (fresh : AreNewLines no_lines)
        → IsTrueSetup t k.rate k.made.clock k.made.table
        → keeps_so_far k (λ line. true_symbol k.made.rules t (sent line)) x ≡ true
        → AreToldLast (device_of (made_with k.made no_lines fresh)) x.calls beat then edge next
        → beat.report.announce ≡ Some u → then.report.announce ≡ Some v → then.missed ≡ 0
        → edge ≤ count k time → count k time ≤ next + 1000000 + then.bound_us
        → (stamp : Stamp) × (stamp_said k x time ≡ Some stamp) }
{}

/// What a device hears can be written as pulses, of which each shows when it rose and when it had
/// ended. A device that is told these has the same calls: those that tell a pulse, in a stretch of
/// time, are the calls of the pulses that it heard there, one after another. So what it tells, which
/// its calls answer, is a function of these pulses and its ticks.
pub fn a_course_is_told_what_it_hears()
    ensures passes { (k : Kind) (r : ℕ) (signal : ℕ → ℕ → Option Symbol) (stop : ℕ) (x : Course)
        → pulses_told (passed k signal stop x).calls
        ≡ reverse (map (call_of k) (heard_until k r signal stop x)) ++ pulses_told x.calls }
    // A tick tells none.
    ensures ticks { (k : Kind) (x : Course)
        → pulses_told (ticked k x).calls ≡ pulses_told x.calls }
{}
