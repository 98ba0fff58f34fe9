//! A timekeeper that C holds.

ghost use Rattle.std.specs.Prelude.{false, not, ◌-◌, ◌==◌, ◌≡◌, ◌↔◌, ◌%◌, ◌^◌, ◌<◌, ◌≤◌, ◌+◌, ◌*◌, ◌⊎◌, if◌then◌else◌, ℕ, List, [], ◌∷◌, ◌++◌, IfSome, IsTrue, Option, None, Some, is_some};
ghost use Rattle.irig_sync.specs.Lines.{Pulse};
ghost use Rattle.irig_sync.specs.Sync.{place_of};
ghost use Rattle.irig_time.specs.declared.rules.Rules.{Rules};
ghost use Rattle.irig_port.specs.declared.limits.Limits.{Limits};
ghost use Rattle.irig_time.specs.declared.claim.Claim.{Claim};
ghost use Rattle.irig_time.specs.declared.second.UtcSecond.{UtcSecond};
ghost use Rattle.irig_time.specs.Seconds.{IsValid};
ghost use Rattle.irig_time.specs.Timelines.{TimelineValue, IsSecond};
ghost use Rattle.irig_time.specs.TimelineFaults.{IsTimeline};
ghost use Rattle.irig_reader.specs.declared.report.Cause.TheVariants as Cause;
ghost use Rattle.irig_lines.specs.Exactness.{fault_early_us, fault_late_us};
ghost use Rattle.irig_lines.specs.Widths.{vote_us};
ghost use Rattle.irig_timekeeper.specs.declared.clock.Beat.{Beat};
ghost use Rattle.irig_timekeeper.specs.declared.stamp.Stamp.{Stamp};
ghost use Rattle.irig_lines.specs.declared.lines.Vote.{Vote};
ghost use Rattle.irig_lines.specs.declared.rate.Rate.{Rate};
ghost use Rattle.irig_timekeeper.specs.Measures.{IsMeasured};
ghost use Rattle.irig_timekeeper.specs.Learning.{IsLearned};
ghost use Rattle.irig_lines.specs.declared.pace.Pace.{Pace};
ghost use Rattle.irig_timekeeper.specs.Clock.{lasted};
ghost use Rattle.irig_lines.specs.Counting.{edges_own};
ghost use Rattle.irig_lines.specs.Clocks.{IsTrueByItsClock, IsTrueByItsQuality};
ghost use Rattle.irig_lines.specs.Edges.{IsQuartz};
ghost use Rattle.irig_timekeeper.specs.Life.{AreInOrder, last_tick, pulses_on};
ghost use Rattle.irig_timekeeper.specs.Life.Call.{Tick};
ghost use Rattle.irig_timekeeper.specs.Lived.{MadeOf, LivesWell};
ghost use Rattle.irig_lines.specs.Lines.{IsTrueLately, IsTrueOrFaulty};
ghost use Rattle.irig_timekeeper.specs.Loops.{AreMadeInTurn, AreToldInTime, TicksEach};
ghost use Rattle.irig_timekeeper.specs.Keeping.{Keeping, new_keeping, place_told, one_pulse_more, after_pulse, after_tick, answer_at, wait_at, stamp_at, rate_at, restarted};
ghost use Rattle.irig_lines.specs.Refusals.{clock_fault};
ghost use Rattle.irig_lines.specs.Steps.{is_pulse, AreNewLines};
ghost use Rattle.irig_timekeeper.specs.Truth.{FollowsTruth, KnowsEnd, IsToldTruly, IsToldInHoldover, IsLaterSecond, IsEdgeAt, IsInstant, IsStampedTruly, AreApartBeats};
ghost use Rattle.c_numbers.specs.LeapTables.{table_in, HasKinds, IsTable, code_of_table};
ghost use Rattle.c_numbers.specs.Numbers.{sense_in};
ghost use Rattle.c_numbers.specs.Reports.{report_in, voices_in};
ghost use Rattle.c_numbers.specs.Setups.{rules_in, keeper_limits_in, reader_rules_in, redundancy_in, IsPort, IsKeeperSetup};
ghost use Rattle.c_numbers.specs.States.{state_in};
ghost use Rattle.c_numbers.specs.Against.{held_by};
ghost use Rattle.c_numbers.specs.CheckWord.{setup_numbers, table_numbers, weighted};
ghost use Rattle.c_numbers.specs.Voices.{voices_to};
ghost use Rattle.c_keeper.specs.Announcing.{AreAsked, ComeInARow, GoesByWait, HasAnnounced};
ghost use Rattle.c_keeper.specs.CheckWord.{IsSealed};
ghost use Rattle.c_lines.specs.Lines.{frames_in, lines_in, numbers_at};
ghost use Rattle.c_keeper.specs.Paces.{pace_in};
ghost use Rattle.c_keeper.specs.Lives.{Moment, AreTogether, HasLived, HasHealed, HasItsBound, GoesOnTruly, StampsTruly, agreed_in, beat_in, calls_of, made_in, since_vote};
ghost use Rattle.c_keeper.specs.Lives.Moment.{Pulsed, Ticked, Waited};
ghost use Rattle.c_keeper.specs.Rates.{rate_in, rate_told};
ghost use Rattle.c_keeper.specs.Rows.{AreGivenLast};
ghost use Rattle.c_keeper.specs.Seconds.{against_at, stamp_in, IsSecondOf, IsToldOf};
ghost use Rattle.c_keeper.specs.Ticks.{IsGivenAtTick, IsLeftAtTick};
ghost use Rattle.c_keeper.specs.Timekeepers.{answer_in, clock_in, clock_state_in, edge_in, delays_in, stamp_for, state_behind, vote_in, vote_limits_in, wait_in, AreWires, HeardTruly, IsAccepted, IsTimekeeperOf};
ghost use Rattle.c_lines.specs.States.{bit_at, is_untrue_number};
ghost use Rattle.c_keeper.specs.States.{masks_of};
ghost use Rattle.c_keeper.specs.Said.{said_of};
ghost use Rattle.irig_lines.specs.Delays.{corrected, delay_at};

use crate::line::NO_PORT;
use c_keeper::{
    IrigLineSaid, IrigRate, IrigSecond, IrigStamp, IrigTimekeeper, IrigWires, are_wires, check_of,
    clock_rules_of, delay_of, fault_of, forget, hear, is_accepted, is_quiet, keep, nothing_told,
    rate_at, rate_for_c, restart, said_of, second_of, set_line, stamp_at, stamp_for_c,
    unread_state_of,
};
use c_lines::line_at;
use c_numbers::{
    IrigSetup, IrigTable, OUT_OF_RANGE, fixed_sum, has_kinds, held_by, is_keeper_setup, is_port,
    table_fault,
};
use irig_lines::{corrected, is_pulse};
use irig_timekeeper::{tick, wait_of};

/// The holdover is longer than the device's counter can count.
const DRIFT: u32 = 35;

/// Makes a timekeeper of these, to which nothing has happened. 26 if a number of the setup or of the
/// wires has no meaning or is out of its range, or a leap that counts has another kind; then 31 to 34
/// for the first fault of the table; then 35 if the holdover is longer than it can count.
#[unsafe(no_mangle)]
pub extern "C" fn irig_c_timekeeper_init(
    timekeeper: &mut IrigTimekeeper,
    setup: &IrigSetup,
    table: &IrigTable,
    wires: &IrigWires,
) -> u32
    ensures answer { (result ≡ 0) ↔ (IsKeeperSetup setup.now × (HasKinds table.now
        × (AreWires wires.now × (IsTable table.now
        × (clock_fault (reader_rules_in setup.now) wires.now.drift_us wires.now.wander_ppb ≡ None))))) }
    ensures table { IsKeeperSetup setup.now → HasKinds table.now → AreWires wires.now
        → (IsTable table.now → ⊥) → result ≡ code_of_table table.now }
    ensures drift { IsKeeperSetup setup.now → HasKinds table.now → AreWires wires.now
        → IsTable table.now
        → (clock_fault (reader_rules_in setup.now) wires.now.drift_us wires.now.wander_ppb ≡ None → ⊥)
        → result ≡ 35 }
    ensures range { (IsKeeperSetup setup.now → HasKinds table.now → AreWires wires.now → ⊥)
        → result ≡ 26 }
    ensures refused { (result ≡ 0 → ⊥) → timekeeper.new ≡ timekeeper.old }
    ensures fresh { result ≡ 0 → IsTimekeeperOf timekeeper.new (new_keeping (rules_in setup.now)
        (clock_in timekeeper.new) (table_in table.now)
        (lines_in (Some (vote_limits_in setup.now).limits) (rules_in setup.now)
        timekeeper.new.lines)) }
    ensures clock { result ≡ 0
        → clock_in timekeeper.new ≡ (made_in setup.now table.now wires.now).clock }
    ensures exact { result ≡ 0
        → ((clock_in timekeeper.new).within.us ≡ wires.now.within_us)
        × ((clock_in timekeeper.new).limits.limits ≡ keeper_limits_in setup.now) }
    ensures lines { (limits : Option Limits) (rules : Rules) → result ≡ 0
        → AreNewLines (lines_in limits rules timekeeper.new.lines) }
    // a life begins, of which nothing has passed
    ensures lived { result ≡ 0
        → HasLived timekeeper.new (made_in setup.now table.now wires.now) [] }
{
    if !is_keeper_setup(setup) || !has_kinds(table) || !are_wires(wires) {
        return OUT_OF_RANGE;
    }
    let fault = table_fault(table);
    if fault != 0 {
        return fault;
    }
    if fault_of(setup, wires).is_some() {
        return DRIFT;
    }
    timekeeper.setup = *setup;
    timekeeper.table = *table;
    timekeeper.wires = *wires;
    forget(timekeeper);
    timekeeper.check = check_of(fixed_sum(setup, table), timekeeper);
    0
}

/// A pulse on a line, once it has ended: its place in its frame, 1 to 100, or 0 out of step. One of
/// half a second or more is none: 0, and nothing changes. 255 if there is no such line. What the laws
/// say of the rise of a pulse is so of the time at which it rose by its clock: the line's delay is
/// taken off.
#[unsafe(no_mangle)]
pub extern "C" fn irig_c_timekeeper_hear(
    timekeeper: &mut IrigTimekeeper,
    line: u8,
    rise_us: u32,
    width_us: u32,
) -> u8
    ensures answer { (result ≡ 255 → ⊥) ↔ IsPort timekeeper.old.setup line }
    ensures refused { result ≡ 255 → timekeeper.new ≡ timekeeper.old }
    ensures stuck { 500000 ≤ width_us → timekeeper.new ≡ timekeeper.old }
    // whatever lies in its numbers: the place by the line's own
    ensures place { (result ≡ 255 → ⊥) → result ≡ (if is_pulse width_us
        then place_of (numbers_at timekeeper.old.lines line).sync
        (corrected rise_us (delay_at (delays_in timekeeper.old.wires.delays) line)) width_us
        else 0) }
    // of a timekeeper: the place is the one that the value gives, and it goes on as the value does
    ensures told { (result ≡ 255 → ⊥) → (k : Keeping) → IsTimekeeperOf timekeeper.old k
        → result ≡ place_told k line (corrected rise_us (delay_at k.clock.delays line)) width_us }
    ensures fed { (result ≡ 255 → ⊥) → (k : Keeping) → IsTimekeeperOf timekeeper.old k
        → IsTimekeeperOf timekeeper.new
        (after_pulse k line (corrected rise_us (delay_at k.clock.delays line)) width_us) }
    ensures lived { (made : MadeOf) (past : List Moment) (rise : ℕ) → (result ≡ 255 → ⊥)
        → HasLived timekeeper.old made past
        → corrected rise_us (delay_at made.clock.delays line) ≡ rise % 2 ^ 32
        → HasLived timekeeper.new made (Pulsed line rise width_us result ∷ past) }
    // the check word is right exactly if it was
    ensures sealed { IsSealed timekeeper.new ↔ IsSealed timekeeper.old }
{
    if !is_port(&timekeeper.setup, line) {
        return NO_PORT;
    }
    if is_pulse(width_us) {
        let rise_us = corrected(rise_us, delay_of(&timekeeper.wires.delays, line));
        hear_pulse(timekeeper, line, rise_us, width_us)
    } else {
        0
    }
}

fn hear_pulse(timekeeper: &mut IrigTimekeeper, port: u8, rise_us: u32, width_us: u32) -> u8
    requires port { IsPort timekeeper.old.setup port }
    ensures place { result
        ≡ place_of (numbers_at timekeeper.old.lines port).sync rise_us width_us }
    ensures few { result ≤ 100 }
    ensures fed { (k : Keeping) → IsTimekeeperOf timekeeper.old k
        → IsTimekeeperOf timekeeper.new (one_pulse_more k port rise_us width_us) }
    ensures sealed { IsSealed timekeeper.new ↔ IsSealed timekeeper.old }
{
    let mut line = *line_at(&timekeeper.lines, port);
    let place = hear(timekeeper, &mut line, rise_us, width_us);
    set_line(timekeeper, port, &line);
    place
}

/// What the timekeeper says, if a second has begun since the last call. 26 if a number has no meaning
/// or is out of its range, a line that it has not keeps a frame, or the check word is not that of the
/// numbers.
#[unsafe(no_mangle)]
pub extern "C" fn irig_c_timekeeper_tick(
    timekeeper: &mut IrigTimekeeper,
    now_us: u32,
    second: &mut IrigSecond,
) -> u32
    ensures answer { (result ≡ 0) ↔ IsAccepted timekeeper.old }
    ensures refused { (result ≡ 0 → ⊥)
        → (timekeeper.new ≡ timekeeper.old) × (second.new ≡ second.old) }
    ensures range { (result ≡ 0 → ⊥) → result ≡ 26 }
    ensures valid { result ≡ 0 → IfSome (report_in second.new.report).announce IsValid }
    // of a timekeeper: it is never refused, says what the value says, and goes on as the value does
    ensures answered { (k : Keeping) → IsTimekeeperOf timekeeper.old k → result ≡ 0 }
    ensures second { (k : Keeping) → IsTimekeeperOf timekeeper.old k
        → IsSecondOf second.new (answer_at k now_us) }
    ensures after { (k : Keeping) → IsTimekeeperOf timekeeper.old k
        → IsTimekeeperOf timekeeper.new (after_tick k now_us) }
    // whatever lies in its numbers: what the clock makes of them
    ensures said { result ≡ 0 → IsSecondOf second.new (answer_in timekeeper.old now_us) }
    ensures stands { result ≡ 0
        → clock_state_in timekeeper.new ≡ state_behind timekeeper.old now_us }
    // how the lines stand to the vote of the tick, which a second by the own counter has not, and
    // what the frames of those that agree say beside the time
    ensures voices { (beat : Beat) → result ≡ 0 → answer_in timekeeper.old now_us ≡ Some beat
        → voices_in second.new.report ≡ voices_to (vote_in timekeeper.old now_us) beat.told
        (redundancy_in timekeeper.old.setup) (sense_in timekeeper.old.setup.sense)
        (frames_in timekeeper.old.lines) }
    // the lines that told another second than the one to which it had come
    ensures against { (beat : Beat) → result ≡ 0 → answer_in timekeeper.old now_us ≡ Some beat
        → second.new.report.against_hold ≡ against_at (held_by (state_in timekeeper.old.state))
        beat (redundancy_in timekeeper.old.setup) }
    // A second that is announced by a vote is the true one, whatever lies in the numbers, if all lines
    // but f were true in the last 1.2 s and each line that keeps a frame has heard it: this needs
    // nothing of the past (irig_lives, the law `votes_are_true`).
    ensures truth { (t : TimelineValue) (edges : ℕ → ℕ) (now : ℕ) (pulses : ℕ → List Pulse)
        (u : UtcSecond) → result ≡ 0 → now_us ≡ now % 2 ^ 32
        → IsQuartz timekeeper.old.wires.drift_us edges → IsTimeline t
        → HeardTruly (IsTrueLately timekeeper.old.wires.within_us (rules_in timekeeper.old.setup)
        t edges now) timekeeper.old now pulses
        → second.new.is_told ≡ 1 → (report_in second.new.report).cause ≡ Cause.Voted
        → (report_in second.new.report).announce ≡ Some u
        → (beat : Beat) × IsToldOf second.new beat
        × IsToldTruly t edges second.new.bound_us second.new.bound_us now beat u }
    // So it is by any counter: its edge lies no further off than a vote does by that counter.
    ensures any_counter { (t : TimelineValue) (d : ℕ) (edges : ℕ → ℕ) (now : ℕ)
        (pulses : ℕ → List Pulse) (u : UtcSecond) → result ≡ 0 → now_us ≡ now % 2 ^ 32
        → IsQuartz d edges → IsTimeline t
        → HeardTruly (IsTrueLately timekeeper.old.wires.within_us (rules_in timekeeper.old.setup)
        t edges now) timekeeper.old now pulses
        → second.new.is_told ≡ 1 → (report_in second.new.report).cause ≡ Cause.Voted
        → (report_in second.new.report).announce ≡ Some u
        → (beat : Beat) × IsToldOf second.new beat
        × IsToldTruly t edges (vote_us (clock_in timekeeper.old) d)
        (vote_us (clock_in timekeeper.old) d) now beat u }
    // By a vote for the true T(n) it announces T(n + 1), if any, whatever frames say of a leap, if the table
    // knows how that day ends and frames are not preferred (law `a_right_table_guards_its_leaps`).
    ensures guarded { (t : TimelineValue) (n : ℕ) (claim : Claim) (u : UtcSecond)
        → result ≡ 0 → IsTimeline t → timekeeper.old.wires.prefers_frames ≡ 0
        → vote_in timekeeper.old now_us ≡ Some claim → IsSecond t n claim.at
        → KnowsEnd t (table_in timekeeper.old.table) claim.at.day
        → (report_in second.new.report).announce ≡ Some u → IsSecond t (n + 1) u }
    // Its life goes on.
    ensures lived { (made : MadeOf) (past : List Moment) (now : ℕ)
        → HasLived timekeeper.old made past → now_us ≡ now % 2 ^ 32
        → HasLived timekeeper.new made (Ticked now second.new ∷ past) }
    // In a life in which all lines but f were true at each tick, or at each since a vote: what is
    // announced, by a vote or not, is T(m), and its edge lies near the one that is told
    // (irig_lives, the laws `a_device_tells_the_truth` and `a_device_heals`).
    ensures life { (t : TimelineValue) (edges : ℕ → ℕ) (made : MadeOf) (start now : ℕ)
        (past : List Moment) (u : UtcSecond) → HasLived timekeeper.old made past
        → now_us ≡ now % 2 ^ 32 → GoesOnTruly (IsTrueLately made.clock.within.us) t edges made start now [] past
        → (report_in second.new.report).announce ≡ Some u
        → IsToldInHoldover t edges 0 0 made.clock now (beat_in second.new) u }
    // It is a later second than any that was announced before.
    ensures order { (t : TimelineValue) (edges : ℕ → ℕ) (made : MadeOf) (start before now : ℕ)
        (earlier later : List Moment) (first : IrigSecond) (u v : UtcSecond)
        → HasLived timekeeper.old made (later ++ (Ticked before first ∷ earlier))
        → now_us ≡ now % 2 ^ 32
        → GoesOnTruly (IsTrueLately made.clock.within.us) t edges made start now later (Ticked before first ∷ earlier)
        → (report_in first.report).announce ≡ Some u
        → (report_in second.new.report).announce ≡ Some v → IsLaterSecond t u v }
    // A holdover has lasted for the seconds since the last vote, whatever lines carry.
    ensures held { (made : MadeOf) (now : ℕ) (past : List Moment) (u : UtcSecond)
        → HasLived timekeeper.old made past → now_us ≡ now % 2 ^ 32
        → (report_in second.new.report).announce ≡ Some u
        → lasted (report_in second.new.report).lock ≡ since_vote (Ticked now second.new ∷ past) }
    // How many votes contradicted those before them: none, if all lines but f were true at each tick
    // (irig_lives, the law `votes_do_not_stray`).
    ensures strayed { result ≡ 0 → second.new.strays
        ≡ (if second.new.is_told == 0 then 0 else (clock_state_in timekeeper.new).strays) }
    // What each line is: by its last whole frame and the seconds that were told last.
    ensures lines { (beat : Beat) → result ≡ 0 → answer_in timekeeper.old now_us ≡ Some beat
        → second.new.lines ≡ masks_of (clock_in timekeeper.old) (clock_state_in timekeeper.new) }
    // In a life in which all lines but f were true at each tick: a line that was true for the last 2.7 s
    // is neither apart nor does it differ (the law `what_is_said_of_lines_is_so`).
    ensures none_apart { (t : TimelineValue) (edges : ℕ → ℕ) (made : MadeOf)
        (start now line : ℕ) (past : List Moment) → result ≡ 0 → HasLived timekeeper.old made past
        → now_us ≡ now % 2 ^ 32
        → LivesWell (IsTrueLately made.clock.within.us) t edges made start
        (Tick now ∷ calls_of past) → line < 5
        → IsTrueLately made.clock.within.us made.rules t edges (now - 1500000)
        (pulses_on line (calls_of past))
        → (bit_at second.new.lines.apart line ≡ 0) × (bit_at second.new.lines.differed line ≡ 0) }
    // What it has learned of its counter, in such a life: by its `pace` the next 2,000 seconds are that
    // long (the law `what_is_learned_is_so`).
    ensures learned { (t : TimelineValue) (edges : ℕ → ℕ) (made : MadeOf) (start now : ℕ)
        (past : List Moment) (pace : Pace) → HasLived timekeeper.old made past
        → now_us ≡ now % 2 ^ 32 → LivesWell (IsTrueLately made.clock.within.us) t edges made start
        (Tick now ∷ calls_of past) → pace_in timekeeper.new.pace ≡ Some pace
        → IsLearned edges now (edge_in timekeeper.new) pace }
    // How many seconds have to be voted yet before one is announced again without a vote.
    ensures doubt { result ≡ 0 → second.new.doubt
        ≡ (if second.new.is_told == 0 then 0 else (clock_state_in timekeeper.new).doubt) }
    // While it was above 0 nothing is announced without a vote, whatever lies in the numbers.
    ensures doubted { result ≡ 0 → 0 < timekeeper.old.doubt
        → vote_in timekeeper.old now_us ≡ None → (report_in second.new.report).announce ≡ None }
    // No vote has strayed in a life in which all lines but f were true at each tick.
    ensures strays { (t : TimelineValue) (edges : ℕ → ℕ) (made : MadeOf) (start now : ℕ)
        (past : List Moment) → HasLived timekeeper.old made past → now_us ≡ now % 2 ^ 32
        → LivesWell (IsTrueLately made.clock.within.us) t edges made start
        (Tick now ∷ calls_of past) → second.new.strays ≡ 0 }
    // Nor do votes by clocks that are no further off than they say.
    ensures quality_strays { (t : TimelineValue) (edges : ℕ → ℕ) (made : MadeOf) (start now : ℕ)
        (past : List Moment) → HasLived timekeeper.old made past → now_us ≡ now % 2 ^ 32
        → LivesWell (IsTrueByItsQuality made.clock) t edges made start
        (Tick now ∷ calls_of past) → second.new.strays ≡ 0 }
    // The cause is never `Jump`.
    ensures calm { (t : TimelineValue) (edges : ℕ → ℕ) (made : MadeOf) (start now : ℕ)
        (past : List Moment) → HasLived timekeeper.old made past → now_us ≡ now % 2 ^ 32
        → GoesOnTruly (IsTrueLately made.clock.within.us) t edges made start now [] past
        → ¬ ((report_in second.new.report).cause ≡ Cause.Jump) }
    // All this holds too, but for `fault_early_us` before the edge and `fault_late_us` behind it, if a line
    // counts as true that lost any pulses, or had one fault of any kind in each hundred of them, in the
    // last 1.2 s (the law `lines_with_faults_tell_truly`).
    ensures faulty { (t : TimelineValue) (edges : ℕ → ℕ) (made : MadeOf) (start now : ℕ)
        (past : List Moment) (u : UtcSecond) → HasLived timekeeper.old made past
        → now_us ≡ now % 2 ^ 32 → made.clock.wander_ppb ≡ 0
        → GoesOnTruly (IsTrueOrFaulty made.clock.within.us) t edges made start now [] past
        → (report_in second.new.report).announce ≡ Some u
        → IsToldInHoldover t edges (fault_early_us made.clock.within.us made.clock.drift_us)
        (fault_late_us made.clock.within.us made.clock.drift_us) made.clock now
        (beat_in second.new) u }
    ensures faulty_order { (t : TimelineValue) (edges : ℕ → ℕ) (made : MadeOf)
        (start before now : ℕ) (earlier later : List Moment) (first : IrigSecond)
        (u v : UtcSecond) → HasLived timekeeper.old made (later ++ (Ticked before first ∷ earlier))
        → now_us ≡ now % 2 ^ 32 → made.clock.wander_ppb ≡ 0
        → GoesOnTruly (IsTrueOrFaulty made.clock.within.us) t edges made start now later (Ticked before first ∷ earlier)
        → (report_in first.report).announce ≡ Some u
        → (report_in second.new.report).announce ≡ Some v → IsLaterSecond t u v }
    ensures faulty_calm { (t : TimelineValue) (edges : ℕ → ℕ) (made : MadeOf) (start now : ℕ)
        (past : List Moment) → HasLived timekeeper.old made past → now_us ≡ now % 2 ^ 32
        → made.clock.wander_ppb ≡ 0
        → GoesOnTruly (IsTrueOrFaulty made.clock.within.us) t edges made start now [] past
        → ¬ ((report_in second.new.report).cause ≡ Cause.Jump) }
    // So it is in both lives by clocks that are at most `off` us off UTC: the edge lies no further off than
    // the bound and `off`, and so in order (the law `clocks_off_tell_truly`).
    ensures clocks_off { (t : TimelineValue) (edges : ℕ → ℕ) (made : MadeOf) (off start now : ℕ)
        (past : List Moment) (u : UtcSecond) → off ≤ 1000 → HasLived timekeeper.old made past
        → now_us ≡ now % 2 ^ 32 → made.clock.wander_ppb ≡ 0
        → GoesOnTruly (IsTrueByItsClock off made.clock.within.us made.clock.drift_us) t edges made
        start now [] past
        → (report_in second.new.report).announce ≡ Some u
        → IsToldInHoldover t edges off off made.clock now (beat_in second.new) u }
    ensures clocks_off_order { (t : TimelineValue) (edges : ℕ → ℕ) (made : MadeOf)
        (off start before now : ℕ) (earlier later : List Moment) (first : IrigSecond)
        (u v : UtcSecond) → off ≤ 1000
        → HasLived timekeeper.old made (later ++ (Ticked before first ∷ earlier))
        → now_us ≡ now % 2 ^ 32 → made.clock.wander_ppb ≡ 0
        → GoesOnTruly (IsTrueByItsClock off made.clock.within.us made.clock.drift_us) t edges made
        start now later (Ticked before first ∷ earlier)
        → (report_in first.report).announce ≡ Some u
        → (report_in second.new.report).announce ≡ Some v → IsLaterSecond t u v }
    ensures clocks_off_calm { (t : TimelineValue) (edges : ℕ → ℕ) (made : MadeOf)
        (off start now : ℕ) (past : List Moment) → off ≤ 1000
        → HasLived timekeeper.old made past → now_us ≡ now % 2 ^ 32
        → made.clock.wander_ppb ≡ 0
        → GoesOnTruly (IsTrueByItsClock off made.clock.within.us made.clock.drift_us) t edges made
        start now [] past
        → ¬ ((report_in second.new.report).cause ≡ Cause.Jump) }
    // So it is, to within the bound alone, by clocks whose seconds begin no further off UTC's than the time
    // quality of their frames says (the law `quality_is_in_the_bound`).
    ensures quality { (t : TimelineValue) (edges : ℕ → ℕ) (made : MadeOf) (start now : ℕ)
        (past : List Moment) (u : UtcSecond) → HasLived timekeeper.old made past
        → now_us ≡ now % 2 ^ 32
        → GoesOnTruly (IsTrueByItsQuality made.clock) t edges made start now [] past
        → (report_in second.new.report).announce ≡ Some u
        → IsToldInHoldover t edges 0 0 made.clock now (beat_in second.new) u }
    ensures quality_order { (t : TimelineValue) (edges : ℕ → ℕ) (made : MadeOf)
        (start before now : ℕ) (earlier later : List Moment) (first : IrigSecond)
        (u v : UtcSecond) → HasLived timekeeper.old made (later ++ (Ticked before first ∷ earlier))
        → now_us ≡ now % 2 ^ 32
        → GoesOnTruly (IsTrueByItsQuality made.clock) t edges made start now later
        (Ticked before first ∷ earlier)
        → (report_in first.report).announce ≡ Some u
        → (report_in second.new.report).announce ≡ Some v → IsLaterSecond t u v }
    ensures quality_calm { (t : TimelineValue) (edges : ℕ → ℕ) (made : MadeOf) (start now : ℕ)
        (past : List Moment) → HasLived timekeeper.old made past → now_us ≡ now % 2 ^ 32
        → GoesOnTruly (IsTrueByItsQuality made.clock) t edges made start now [] past
        → ¬ ((report_in second.new.report).cause ≡ Cause.Jump) }
    // Ticked at least each 95 ms it has announced by a vote, once as many seconds as it locks after, and
    // two more, came whole on more than f lines, and the table is true or frames are preferred (the law
    // `a_polling_device_announces`).
    ensures announces { (t : TimelineValue) (edges : ℕ → ℕ) (made : MadeOf)
        (start m most now : ℕ) (moments before : List Moment) (u : UtcSecond)
        → HasLived timekeeper.old made (moments ++ before) → now_us ≡ now % 2 ^ 32
        → ComeInARow t edges made start m (Ticked now second.new ∷ moments) before
        → FollowsTruth t made.clock.prefers_frames made.table
        → most ≤ 95000 → TicksEach most start (Tick now ∷ calls_of moments) (calls_of before)
        → AreToldInTime start (Tick now ∷ calls_of moments) (calls_of before)
        → IsSecond t (m + 1 + made.clock.reader_rules.lock_after) u
        → HasAnnounced edges (m + 1 + made.clock.reader_rules.lock_after) u
        (Ticked now second.new ∷ (moments ++ before)) }
    // So it has if `irig_c_timekeeper_wait` was asked behind each tick, from its time, and behind each
    // pulse of place 100, from its end, and each tick came 94 ms at most behind each time that was
    // named since the tick before (the law `a_waiting_device_announces`).
    ensures announces_by_wait { (t : TimelineValue) (edges : ℕ → ℕ) (made : MadeOf)
        (start m late now : ℕ) (moments before : List Moment) (u : UtcSecond)
        → HasLived timekeeper.old made (moments ++ before) → now_us ≡ now % 2 ^ 32
        → ComeInARow t edges made start m (Ticked now second.new ∷ moments) before
        → FollowsTruth t made.clock.prefers_frames made.table
        → late ≤ 94000 → AreAsked None moments → GoesByWait late (Ticked now second.new ∷ moments)
        → AreMadeInTurn start (Tick now ∷ calls_of moments) (calls_of before)
        → IsSecond t (m + 1 + made.clock.reader_rules.lock_after) u
        → HasAnnounced edges (m + 1 + made.clock.reader_rules.lock_after) u
        (Ticked now second.new ∷ (moments ++ before)) }
    // Whatever lines carry, edges that are told lie half a second apart (the law `edges_lie_apart`).
    ensures apart { (made : MadeOf) (start before now : ℕ) (earlier later : List Moment)
        (first : IrigSecond)
        → HasLived timekeeper.old made (later ++ (Ticked before first ∷ earlier))
        → now_us ≡ now % 2 ^ 32 → AreInOrder start made.clock.redundancy
        (Tick now ∷ calls_of (later ++ (Ticked before first ∷ earlier)))
        → first.is_told ≡ 1 → second.new.is_told ≡ 1
        → AreApartBeats before now (beat_in first) (beat_in second.new) }
{
    let fixed = fixed_sum(&timekeeper.setup, &timekeeper.table);
    if !is_accepted(fixed, timekeeper) {
        return OUT_OF_RANGE;
    }
    *second = tick_accepted(fixed, timekeeper, now_us);
    0
}

// A tick of numbers that are accepted, if `fixed` is what setup and table add to the check word.
fn tick_accepted(fixed: u64, timekeeper: &mut IrigTimekeeper, now_us: u32) -> IrigSecond
    requires accepted { IsAccepted timekeeper.old }
    requires fixed { fixed ≡ (weighted 3 (setup_numbers timekeeper.old.setup)
        + weighted 19 (table_numbers timekeeper.old.table)) % 2 ^ 64 }
    ensures given { IsGivenAtTick timekeeper.old timekeeper.new now_us result }
    ensures left { IsLeftAtTick timekeeper.old timekeeper.new now_us }
    ensures sealed { IsSealed timekeeper.new }
{
    if is_quiet(timekeeper, now_us) {
        return nothing_told();
    }
    let second = tick_at_work(timekeeper, now_us);
    timekeeper.check = check_of(fixed, timekeeper);
    second
}

// One that may have something to do. The check word stays.
fn tick_at_work(timekeeper: &mut IrigTimekeeper, now_us: u32) -> IrigSecond
    requires { IsAccepted timekeeper.old }
    ensures given { IsGivenAtTick timekeeper.old timekeeper.new now_us result }
    ensures left { IsLeftAtTick timekeeper.old timekeeper.new now_us }
{
    let rules = clock_rules_of(timekeeper);
    let mut state = unread_state_of(timekeeper);
    let held = held_by(&state.reader);
    let ticked = tick(&rules, &timekeeper.table, &mut state, now_us);
    keep(timekeeper, &state);
    second_of(timekeeper, &ticked, held, &rules)
}

/// How long until a tick has something to do, in microseconds, if no call comes before it; 0 where a
/// tick would be refused.
#[unsafe(no_mangle)]
pub extern "C" fn irig_c_timekeeper_wait(timekeeper: &IrigTimekeeper, now_us: u32) -> u32
    ensures waits { (k : Keeping) → IsTimekeeperOf timekeeper.now k → result ≡ wait_at k now_us }
    ensures said { IsAccepted timekeeper.now → result ≡ wait_in timekeeper.now now_us }
    ensures refused { (IsAccepted timekeeper.now → ⊥) → result ≡ 0 }
    // the answer is a moment of its life
    ensures lived { (made : MadeOf) (past : List Moment) (now : ℕ)
        → HasLived timekeeper.now made past → now_us ≡ now % 2 ^ 32
        → HasLived timekeeper.now made (Waited now result ∷ past) }
    // in a life, at a time at which a tick may come: at most 1.006 s
    ensures most { (made : MadeOf) (start now : ℕ) (past : List Moment)
        → HasLived timekeeper.now made past → now_us ≡ now % 2 ^ 32
        → AreInOrder start made.clock.redundancy (Tick now ∷ calls_of past) → result ≤ 1006000 }
    // above 0, if lines agree on no edge and no second is due
    ensures above { (made : MadeOf) (start now : ℕ) (past : List Moment)
        → HasLived timekeeper.now made past → now_us ≡ now % 2 ^ 32
        → AreInOrder start made.clock.redundancy (Tick now ∷ calls_of past)
        → agreed_in timekeeper.now now_us ≡ None → edges_own (pace_in timekeeper.now.pace)
        (edge_in timekeeper.now) now_us ≡ 0
        → 1 ≤ result }
    // a tick after so long, or later, has the vote, if lines agree on an edge and it comes by 94 ms
    // behind that (irig_lives, the law `waiting_is_right`)
    ensures votes { (made : MadeOf) (start now tick edge : ℕ) (past : List Moment)
        (vote : Vote) → HasLived timekeeper.now made past → now_us ≡ now % 2 ^ 32
        → AreInOrder start made.clock.redundancy (Tick now ∷ calls_of past)
        → AreInOrder start made.clock.redundancy (Tick tick ∷ calls_of past)
        → agreed_in timekeeper.now now_us ≡ Some vote → vote.edge_us ≡ edge % 2 ^ 32
        → edge ≤ now + 17000 → now ≤ edge + 94000 → now + result ≤ tick → tick ≤ edge + 94000
        → vote_in timekeeper.now (tick % 2 ^ 32) ≡ Some vote.claim }
    // else the own counter then counts a second
    ensures counts { (made : MadeOf) (start now tick e : ℕ) (past : List Moment)
        → HasLived timekeeper.now made past → now_us ≡ now % 2 ^ 32
        → AreInOrder start made.clock.redundancy (Tick now ∷ calls_of past)
        → AreInOrder start made.clock.redundancy (Tick tick ∷ calls_of past)
        → agreed_in timekeeper.now now_us ≡ None → edge_in timekeeper.now ≡ Some e
        → now + result ≤ tick → 1 ≤ edges_own (pace_in timekeeper.now.pace) (Some e)
        (tick % 2 ^ 32) }
{
    let fixed = fixed_sum(&timekeeper.setup, &timekeeper.table);
    if !is_accepted(fixed, timekeeper) {
        return 0;
    }
    let state = unread_state_of(timekeeper);
    wait_of(&clock_rules_of(timekeeper), &state, now_us)
}

/// The time of an event, by the seconds that were announced last: the last one, from its edge on for a
/// second and its error, or the one before, as far, and up to the last one's edge, if there is no
/// second between. 26 if there is none, or a tick would be refused.
#[unsafe(no_mangle)]
pub extern "C" fn irig_c_timekeeper_stamp(
    timekeeper: &IrigTimekeeper,
    time_us: u32,
    stamp: &mut IrigStamp,
) -> u32
    ensures answer { (result ≡ 0) ↔ (IsAccepted timekeeper.now
        × IsTrue (is_some (stamp_for timekeeper.now time_us))) }
    ensures refused { (result ≡ 0 → ⊥) → stamp.new ≡ stamp.old }
    ensures range { (result ≡ 0 → ⊥) → result ≡ 26 }
    ensures valid { result ≡ 0 → IfSome (stamp_in result stamp.new) (λ s. IsValid s.second) }
    ensures said { IsAccepted timekeeper.now
        → stamp_in result stamp.new ≡ stamp_for timekeeper.now time_us }
    ensures stamped { (k : Keeping) → IsTimekeeperOf timekeeper.now k
        → stamp_in result stamp.new ≡ stamp_at k time_us }
    // In a life in which all lines but f were true at each tick: second and offset name the instant of
    // an event of the last half hour, but for the bound (irig_lives, the law `stamps_are_true`).
    ensures truth { (t : TimelineValue) (edges : ℕ → ℕ) (made : MadeOf) (start time now : ℕ)
        (past : List Moment) (found : Stamp) → HasLived timekeeper.now made past
        → time_us ≡ time % 2 ^ 32 → LivesWell (IsTrueLately made.clock.within.us) t edges made start (calls_of past)
        → AreInOrder start made.clock.redundancy (Tick now ∷ calls_of past)
        → time ≤ now → now ≤ time + 1800000000 → stamp_in result stamp.new ≡ Some found
        → IsStampedTruly t edges 0 time found }
    // In one in which they were true at each tick since a vote: of an event that comes at the edge of
    // that vote or later, or of any, if that tick announced nothing (the law `a_device_heals`).
    ensures healed { (t : TimelineValue) (edges : ℕ → ℕ) (made : MadeOf)
        (start edge time now : ℕ) (past : List Moment) (found : Stamp)
        → HasLived timekeeper.now made past → time_us ≡ time % 2 ^ 32
        → (healed : HasHealed (IsTrueLately made.clock.within.us) t edges made start past)
        → IsEdgeAt healed.second.edge_us edge healed.mend
        → (edge ≤ time) ⊎ ((report_in healed.second.report).announce ≡ None)
        → AreInOrder start made.clock.redundancy (Tick now ∷ calls_of past)
        → time ≤ now → now ≤ time + 1800000000 → stamp_in result stamp.new ≡ Some found
        → IsStampedTruly t edges 0 time found }
    // Of either life: if a line counts as true that lost any pulses, or had one fault of any kind in
    // each hundred of them, in the last 1.2 s, they name it but for the bound and `fault_early_us` (the
    // law `lines_with_faults_tell_truly`).
    ensures faulty { (t : TimelineValue) (edges : ℕ → ℕ) (made : MadeOf) (start time now : ℕ)
        (past : List Moment) (found : Stamp) → HasLived timekeeper.now made past
        → time_us ≡ time % 2 ^ 32
        → made.clock.wander_ppb ≡ 0
        → StampsTruly (IsTrueOrFaulty made.clock.within.us) t edges made start time now past
        → stamp_in result stamp.new ≡ Some found → IsStampedTruly t edges (fault_early_us made.clock.within.us made.clock.drift_us) time found }
    // Of either life, by clocks that are at most `off` us off UTC: to within the bound and `off` (the law
    // `clocks_off_tell_truly`).
    ensures clocks_off { (t : TimelineValue) (edges : ℕ → ℕ) (made : MadeOf)
        (off start time now : ℕ) (past : List Moment) (found : Stamp) → off ≤ 1000
        → HasLived timekeeper.now made past → time_us ≡ time % 2 ^ 32
        → made.clock.wander_ppb ≡ 0
        → StampsTruly (IsTrueByItsClock off made.clock.within.us made.clock.drift_us) t edges made
        start time now past
        → stamp_in result stamp.new ≡ Some found → IsStampedTruly t edges off time found }
    // Of either life, by clocks that are no further off than the quality of their frames says: to within
    // the bound alone (the law `quality_is_in_the_bound`).
    ensures quality { (t : TimelineValue) (edges : ℕ → ℕ) (made : MadeOf)
        (start time now : ℕ) (past : List Moment) (found : Stamp)
        → HasLived timekeeper.now made past → time_us ≡ time % 2 ^ 32
        → StampsTruly (IsTrueByItsQuality made.clock) t edges made start time now past
        → stamp_in result stamp.new ≡ Some found → IsStampedTruly t edges 0 time found }
    // Of either life: another device's stamp of the same instant, of which its own clause `truth` or
    // `healed` holds, names one no further off than the sum of both bounds and the drift of two seconds
    // of each device (the law `stamps_are_true`, clause `together`).
    ensures together { (t : TimelineValue) (edges others : ℕ → ℕ) (made : MadeOf)
        (start time now e n tau there : ℕ) (past : List Moment) (found other : Stamp)
        → HasLived timekeeper.now made past → time_us ≡ time % 2 ^ 32
        → StampsTruly (IsTrueLately made.clock.within.us) t edges made start time now past
        → stamp_in result stamp.new ≡ Some found
        → IsInstant made.clock.drift_us edges n tau time
        → IsQuartz e others → IsInstant e others n tau there
        → IsStampedTruly t others 0 there other
        → AreTogether t (found.bound_us + other.bound_us + 2 * made.clock.drift_us + 2 * e) found
        other }
    // Of either life: between the two seconds that were given last no event is without a stamp, if both
    // were announced and none was missed between, nor up to a second and its error behind the last (the
    // law `stamps_are_true`, clauses `none_lost` and `row`).
    ensures none_lost { (t : TimelineValue) (edges : ℕ → ℕ) (made : MadeOf)
        (start time edge next : ℕ) (past : List Moment) (one other : IrigSecond)
        (u v : UtcSecond) → HasLived timekeeper.now made past → time_us ≡ time % 2 ^ 32
        → (row : AreGivenLast past one other edge next)
        → GoesOnTruly (IsTrueLately made.clock.within.us) t edges made start row.now row.between
        (Ticked row.before one ∷ row.earlier)
        → (report_in one.report).announce ≡ Some u → (report_in other.report).announce ≡ Some v
        → other.missed ≡ 0 → edge ≤ time → time ≤ next + 1000000 + other.bound_us
        → (found : Stamp) × (stamp_in result stamp.new ≡ Some found) }
    // So it is with such faults on lines as the clause `faulty` allows.
    ensures none_lost_faulty { (t : TimelineValue) (edges : ℕ → ℕ) (made : MadeOf)
        (start time edge next : ℕ) (past : List Moment) (one other : IrigSecond)
        (u v : UtcSecond) → HasLived timekeeper.now made past → time_us ≡ time % 2 ^ 32
        → (row : AreGivenLast past one other edge next)
        → made.clock.wander_ppb ≡ 0
        → GoesOnTruly (IsTrueOrFaulty made.clock.within.us) t edges made start row.now row.between
        (Ticked row.before one ∷ row.earlier)
        → (report_in one.report).announce ≡ Some u → (report_in other.report).announce ≡ Some v
        → other.missed ≡ 0 → edge ≤ time → time ≤ next + 1000000 + other.bound_us
        → (found : Stamp) × (stamp_in result stamp.new ≡ Some found) }
    // Whatever lines carry, the bound is at most a vote's and the drift of each second since one.
    ensures bound { (made : MadeOf) (past : List Moment) (found : Stamp)
        → HasLived timekeeper.now made past → stamp_in result stamp.new ≡ Some found
        → HasItsBound made past found }
{
    let fixed = fixed_sum(&timekeeper.setup, &timekeeper.table);
    if !is_accepted(fixed, timekeeper) {
        return OUT_OF_RANGE;
    }
    match stamp_at(timekeeper, time_us) {
        Some(found) => {
            *stamp = stamp_for_c(&found);
            0
        }
        None => OUT_OF_RANGE,
    }
}

/// How long seconds are by the device's own counter: the mean of the last so many, which were counted,
/// lies between the least and the most. 26 if none was counted since a vote, or since one strayed, or
/// a tick would be refused.
#[unsafe(no_mangle)]
pub extern "C" fn irig_c_timekeeper_rate(timekeeper: &IrigTimekeeper, rate: &mut IrigRate) -> u32
    ensures answer { (result ≡ 0)
        ↔ (IsAccepted timekeeper.now × IsTrue (is_some (rate_in timekeeper.now))) }
    ensures refused { (result ≡ 0 → ⊥) → rate.new ≡ rate.old }
    ensures range { (result ≡ 0 → ⊥) → result ≡ 26 }
    ensures said { IsAccepted timekeeper.now → rate_told result rate.new ≡ rate_in timekeeper.now }
    ensures measured { (k : Keeping) → IsTimekeeperOf timekeeper.now k
        → rate_told result rate.new ≡ rate_at k }
    // In a life in which all lines but f were true at each tick: so long is the mean of the seconds that
    // end with the one that was counted last (irig_lives, the law `what_is_measured_is_so`).
    ensures truth { (t : TimelineValue) (edges : ℕ → ℕ) (made : MadeOf) (start : ℕ)
        (past : List Moment) (found : Rate) → HasLived timekeeper.now made past
        → LivesWell (IsTrueLately made.clock.within.us) t edges made start (calls_of past)
        → rate_told result rate.new ≡ Some found
        → IsMeasured edges (last_tick start (calls_of past)) (edge_in timekeeper.now) found }
{
    let fixed = fixed_sum(&timekeeper.setup, &timekeeper.table);
    if !is_accepted(fixed, timekeeper) {
        return OUT_OF_RANGE;
    }
    match rate_at(timekeeper) {
        Some(found) => {
            *rate = rate_for_c(&found);
            0
        }
        None => OUT_OF_RANGE,
    }
}

/// What a line is, as of the last tick, and what its last whole frame tells. 26 if there is no such
/// line, or a tick would be refused.
#[unsafe(no_mangle)]
pub extern "C" fn irig_c_timekeeper_line(
    timekeeper: &IrigTimekeeper,
    line: u8,
    said: &mut IrigLineSaid,
) -> u32
    ensures answer { (result ≡ 0) ↔ (IsPort timekeeper.now.setup line × IsAccepted timekeeper.now) }
    ensures refused { (result ≡ 0 → ⊥) → said.new ≡ said.old }
    ensures range { (result ≡ 0 → ⊥) → result ≡ 26 }
    ensures said { result ≡ 0
        → said.new ≡ said_of (clock_in timekeeper.now) (clock_state_in timekeeper.now) line }
    ensures of { (k : Keeping) → result ≡ 0 → IsTimekeeperOf timekeeper.now k
        → said.new ≡ said_of k.clock k.state line }
    // In a life in which all lines but f were true at each tick: a line that was true since 2.7 s before
    // the last tick is not said to be uneven, apart or to differ (irig_lives, the law
    // `what_is_said_of_lines_is_so`).
    ensures truth { (t : TimelineValue) (edges : ℕ → ℕ) (made : MadeOf) (start now : ℕ)
        (past : List Moment) → result ≡ 0 → HasLived timekeeper.now made past
        → LivesWell (IsTrueLately made.clock.within.us) t edges made start (calls_of past)
        → AreInOrder start made.clock.redundancy (Tick now ∷ calls_of past)
        → IsTrueLately made.clock.within.us made.rules t edges
        (last_tick start (calls_of past) - 1500000) (pulses_on line (calls_of past))
        → is_untrue_number said.new.state ≡ false }
{
    if !is_port(&timekeeper.setup, line) {
        return OUT_OF_RANGE;
    }
    let fixed = fixed_sum(&timekeeper.setup, &timekeeper.table);
    if !is_accepted(fixed, timekeeper) {
        return OUT_OF_RANGE;
    }
    *said = said_of(timekeeper, line);
    0
}

/// Forgets all that happened to it. A timekeeper whose check word is wrong stays so.
#[unsafe(no_mangle)]
pub extern "C" fn irig_c_timekeeper_restart(timekeeper: &mut IrigTimekeeper)
    ensures restarted { (k : Keeping) → IsTimekeeperOf timekeeper.old k
        → IsTimekeeperOf timekeeper.new (restarted k
        (lines_in (Some k.clock.limits.limits) k.rules timekeeper.new.lines)) }
    ensures lines { (limits : Option Limits) (rules : Rules)
        → AreNewLines (lines_in limits rules timekeeper.new.lines) }
    // a new life begins
    ensures lived { (made : MadeOf) (past : List Moment) → HasLived timekeeper.old made past
        → HasLived timekeeper.new made [] }
    // the check word is right exactly if it was
    ensures sealed { IsSealed timekeeper.new ↔ IsSealed timekeeper.old }
{
    restart(timekeeper);
}
