//! A timekeeper in numbers.

ghost use Rattle.std.specs.Prelude.{◌≡◌, ◌↔◌, ◌+◌, ◌*◌, ◌%◌, ◌^◌, ◌<◌, ◌≤◌, IfSome, IsTrue, ℕ, Option, Some, None, is_some};
ghost use Rattle.irig_time.specs.declared.rules.Rules.{Rules};
ghost use Rattle.irig_port.specs.declared.limits.Limits.{Limits};
ghost use Rattle.irig_time.specs.Seconds.{IsValid};
ghost use Rattle.irig_vote.specs.Vote.{ports_in};
ghost use Rattle.irig_reader.specs.Rule.{count_of};
ghost use Rattle.irig_timekeeper.specs.Clock.{AnnouncedOfUtc, AreSmall};
ghost use Rattle.irig_timekeeper.specs.Keeping.{Heard, new_state, nothing_heard};
ghost use Rattle.irig_timekeeper.specs.Stamps.{stamp_of};
ghost use Rattle.irig_lines.specs.declared.lines.Lines.{Lines};
ghost use Rattle.irig_lines.specs.Steps.{line_at, AreKeptOfUtc, AreNewLines};
ghost use Rattle.c_numbers.specs.CheckWord.{setup_numbers, table_numbers, weighted};
ghost use Rattle.c_numbers.specs.Setups.{rules_in, reader_rules_in, redundancy_in, IsKeeperSetup};
ghost use Rattle.c_numbers.specs.States.{state_in, IsState};
ghost use Rattle.c_lines.specs.Lines.{frames_in, lines_in, unread_lines, AreKeptFrom, HaveHeard, KeepNoMore};
ghost use Rattle.c_numbers.specs.declared.state.TheConstants.{IDLE};
ghost use Rattle.c_keeper.specs.CheckWord.{IsSealed};
ghost use Rattle.irig_lines.specs.Delays.{delay_at};
ghost use Rattle.irig_lines.specs.Exactness.{most_drift_us, most_vote_us};
ghost use Rattle.irig_lines.specs.Intervals.{IsShort};
ghost use Rattle.irig_lines.specs.Paces.{IsSound};
ghost use Rattle.c_keeper.specs.Paces.{MayCount};
ghost use Rattle.irig_lines.specs.Refusals.{clock_fault};
ghost use Rattle.c_lines.specs.Announced.{announced_in, IsAnnounced, IsSmall};
ghost use Rattle.c_keeper.specs.Timekeepers.{clock_in, clock_state_in, delays_in, edge_in, interval_in, unread, vote_limits_in, AreDelays, AreWires, CountsSoundly, HasShortInterval, IsAccepted, IsDelay, IsSetUp};

use crate::anchors::{IrigAnchors, NOTHING_MEASURED, anchors_for_c, anchors_of};
use crate::check_word::{changing_sum, check_of};
use crate::pace::{IrigPace, NOTHING_LEARNED, may_count, pace_for_c, pace_of};
use c_lines::{
    IrigAnnounced, IrigLines, NOTHING_ANNOUNCED, announced_for_c, announced_of, is_announced,
    is_small, keep_lines, keep_no_more, line_at, lines_of_nothing, seen_of, unread_lines_of,
};
use c_numbers::{
    IDLE, IrigSetup, IrigState, IrigTable, is_keeper_setup, keeper_limits_of, reader_rules_of,
    redundancy_of, rules_of, state_for_c, state_of,
};
use irig_lines::{
    ClockFault, ClockRules, Delays, Interval, KeptFrame, VoteLimits, clock_fault, nearest_limits,
    nearest_within,
};
use irig_reader::State;
use irig_timekeeper::{ClockState, Stamp, stamp_of};

/// How exact a timekeeper's lines and its counter are.
#[repr(C)]
#[derive(Clone, Copy, Drop)]
pub struct IrigWires {
    /// Each pulse of a true line rises less than so many microseconds from its place: 1 to 450.
    pub within_us: u16,
    /// How many microseconds a second the device's counter may be wrong: 0 to 100.
    pub drift_us: u16,
    /// How late each line is, in microseconds, -4,000 to 4,000: what is taken off.
    pub delays: IrigDelays,
    /// 0 if a vote that contradicts the leap table is held back at a month's end; any other, if it is
    /// followed.
    pub prefers_frames: u8,
    /// How many nanoseconds a second the device's counter may come to run otherwise than votes show, over
    /// the holdover and 4,000 s: 0 to 100,000. By 0 it learns nothing from votes.
    pub wander_ppb: u32,
}

/// How late five lines are, one behind another.
#[repr(C)]
#[derive(Clone, Copy, Drop)]
pub struct IrigDelays {
    pub a: i16,
    pub b: i16,
    pub c: i16,
    pub d: i16,
    pub e: i16,
}

/// A timekeeper, all of it plain numbers. It may be copied, kept and taken up again.
#[repr(C)]
#[derive(Clone, Copy, Drop)]
pub struct IrigTimekeeper {
    /// How it is set up.
    pub setup: IrigSetup,
    /// The leaps that it knows beforehand.
    pub table: IrigTable,
    /// Where its reader's rule stands.
    pub state: IrigState,
    /// Its lines, of three the first three, of one the first.
    pub lines: IrigLines,
    /// How exact its lines and its counter are.
    pub wires: IrigWires,
    /// Where the last second begins that was counted.
    pub edge_us: u32,
    /// How often lines set that edge right since.
    pub moved: u32,
    /// 0 if no second was counted yet; any other, if one was.
    pub has_edge: u8,
    /// 0 if there is no interval in which the true edge lies by all votes; any other, if there is.
    pub has_interval: u8,
    /// How far from its true edge that of the last vote may lie, at most 2,899 us.
    pub bound_us: u16,
    /// The last second that was counted, if it was announced.
    pub last: IrigAnnounced,
    /// The one counted before it, if it was announced.
    pub before: IrigAnnounced,
    /// The second that ended at the last edge, if it was voted or announced without a vote.
    pub ended: IrigAnnounced,
    /// The one that ended at the edge before, if that was told.
    pub ended_before: IrigAnnounced,
    /// Where that interval begins, if there is one.
    pub begin_us: u32,
    /// How long that is, at most 980,000 us.
    pub long_us: u32,
    /// How many votes contradicted those before them.
    pub strays: u32,
    /// How many seconds have to be voted yet, behind the last of these, before one is announced
    /// again without a vote.
    pub doubt: u32,
    /// From which the length of a second is measured.
    pub anchors: IrigAnchors,
    /// What is learned of it.
    pub pace: IrigPace,
    /// What all other numbers add up to, each times a weight of its own: it tells if one of them is
    /// changed by anything but the calls of the library.
    pub check: u64,
}

/// The rules of its clock.
pub fn clock_rules_of(timekeeper: &IrigTimekeeper) -> ClockRules
    ensures { result ≡ clock_in timekeeper.now }
{
    ClockRules {
        reader_rules: reader_rules_of(&timekeeper.setup),
        redundancy: redundancy_of(&timekeeper.setup),
        within: nearest_within(u32::from(timekeeper.wires.within_us)),
        limits: limits_of(timekeeper),
        drift_us: u32::from(timekeeper.wires.drift_us),
        wander_ppb: timekeeper.wires.wander_ppb,
        delays: delays_of(&timekeeper.wires.delays),
        prefers_frames: timekeeper.wires.prefers_frames != 0,
    }
}

/// The same; of wires that no tick accepts, by a drift that is none too large.
pub(crate) fn steady_rules_of(timekeeper: &IrigTimekeeper) -> ClockRules
    ensures steady { result.drift_us ≤ most_drift_us }
    ensures is { AreWires timekeeper.now.wires → result ≡ clock_in timekeeper.now }
{
    let mut rules = clock_rules_of(timekeeper);
    if rules.drift_us > 100 {
        rules.drift_us = 100;
    }
    rules
}

// Which frames have a vote.
fn limits_of(timekeeper: &IrigTimekeeper) -> VoteLimits
    ensures { result ≡ vote_limits_in timekeeper.now.setup }
{
    nearest_limits(keeper_limits_of(&timekeeper.setup))
}

fn delays_of(delays: &IrigDelays) -> Delays
    ensures { result ≡ delays_in delays.now }
{
    Delays {
        a: delays.a,
        b: delays.b,
        c: delays.c,
        d: delays.d,
        e: delays.e,
    }
}

/// How late the line of a port is.
pub fn delay_of(delays: &IrigDelays, port: u8) -> i16
    ensures { result ≡ delay_at (delays_in delays.now) port }
{
    match port {
        0 => delays.a,
        1 => delays.b,
        2 => delays.c,
        3 => delays.d,
        _ => delays.e,
    }
}

fn is_delay(delay_us: i16) -> bool
    ensures { IsTrue result ↔ IsDelay delay_us }
{
    delay_us.unsigned_abs() <= 4_000
}

fn are_delays(delays: &IrigDelays) -> bool
    ensures { IsTrue result ↔ AreDelays delays.now }
{
    is_delay(delays.a)
        && is_delay(delays.b)
        && is_delay(delays.c)
        && is_delay(delays.d)
        && is_delay(delays.e)
}

/// Whether lines may be so exact and so late, and a counter so wrong.
pub fn are_wires(wires: &IrigWires) -> bool
    ensures { IsTrue result ↔ AreWires wires.now }
{
    1 <= wires.within_us
        && wires.within_us <= 450
        && wires.drift_us <= 100
        && wires.wander_ppb <= 100_000
        && are_delays(&wires.delays)
}

// Whether setup and wires have a meaning.
fn is_set_up(timekeeper: &IrigTimekeeper) -> bool
    ensures { IsTrue result ↔ IsSetUp timekeeper.now }
{
    is_keeper_setup(&timekeeper.setup)
        && are_wires(&timekeeper.wires)
        && fault_of(&timekeeper.setup, &timekeeper.wires).is_none()
}

/// The first fault of a setup and wires of which each number has a meaning.
pub fn fault_of(setup: &IrigSetup, wires: &IrigWires) -> Option<ClockFault>
    ensures { result ≡ clock_fault (reader_rules_in setup.now) wires.now.drift_us
        wires.now.wander_ppb }
{
    clock_fault(
        reader_rules_of(setup),
        u32::from(wires.drift_us),
        wires.wander_ppb,
    )
}

// Whether setup, wires and the seconds that it announced have a meaning, lines that it has not keep
// no frame, and its check word is that of its numbers, if `fixed` is what setup and table add to it.
fn is_sound(fixed: u64, timekeeper: &IrigTimekeeper) -> bool
    requires { fixed ≡ (weighted 3 (setup_numbers timekeeper.now.setup)
        + weighted 19 (table_numbers timekeeper.now.table)) % 2 ^ 64 }
    ensures { IsTrue result ↔ (IsSetUp timekeeper.now
        × ((timekeeper.now.bound_us ≤ most_vote_us) × (CountsSoundly timekeeper.now
        × (IsAnnounced timekeeper.now.last × (IsAnnounced timekeeper.now.before
        × (IsSmall timekeeper.now.ended × (IsSmall timekeeper.now.ended_before
        × (KeepNoMore (ports_in (redundancy_in timekeeper.now.setup)) timekeeper.now.lines
        × IsSealed timekeeper.now)))))))) }
{
    is_set_up(timekeeper)
        && timekeeper.bound_us <= 2_899
        && counts_soundly(timekeeper)
        && is_announced(&timekeeper.last)
        && is_announced(&timekeeper.before)
        && is_small(&timekeeper.ended)
        && is_small(&timekeeper.ended_before)
        && keep_no_more(redundancy_of(&timekeeper.setup).ports(), &timekeeper.lines)
        && timekeeper.check == check_of(fixed, timekeeper)
}

/// Whether its calls accept the numbers, if `fixed` is what setup and table add to the check word.
pub fn is_accepted(fixed: u64, timekeeper: &IrigTimekeeper) -> bool
    requires { fixed ≡ (weighted 3 (setup_numbers timekeeper.now.setup)
        + weighted 19 (table_numbers timekeeper.now.table)) % 2 ^ 64 }
    ensures { IsTrue result ↔ IsAccepted timekeeper.now }
{
    is_sound(fixed, timekeeper)
        && state_of(&timekeeper.state, timekeeper.setup.lock_after).is_some()
}

/// Where the clock of a timekeeper stands whose calls accept its numbers, but for what frames tell that
/// have no vote, which is not read: neither a vote nor how long to wait asks for it.
pub fn unread_state_of(timekeeper: &IrigTimekeeper) -> ClockState
    requires { IsAccepted timekeeper.now }
    ensures is { result ≡ unread (clock_state_in timekeeper.now) }
    ensures counting { count_of result.reader < timekeeper.now.setup.lock_after }
    ensures small { result.bound_us ≤ most_vote_us }
    ensures known { IsShort result.interval }
    ensures paced { IsSound result.pace }
    ensures ended { AreSmall result }
    ensures valid { AreKeptOfUtc result.lines }
    ensures announced { AnnouncedOfUtc result }
{
    ClockState {
        lines: unread_lines_of(
            Some(limits_of(timekeeper).limits()),
            &rules_of(&timekeeper.setup),
            &timekeeper.lines,
        ),
        reader: reader_of(timekeeper),
        edge_us: edge_of(timekeeper),
        bound_us: u32::from(timekeeper.bound_us),
        interval: interval_of(timekeeper),
        anchors: anchors_of(&timekeeper.anchors),
        pace: pace_of(&timekeeper.pace),
        strays: timekeeper.strays,
        doubt: timekeeper.doubt,
        moved: timekeeper.moved,
        last: announced_of(&timekeeper.last),
        before: announced_of(&timekeeper.before),
        ended: announced_of(&timekeeper.ended),
        ended_before: announced_of(&timekeeper.ended_before),
    }
}

/// The last whole frame of the line of a port, if that is not gone.
pub(crate) fn seen_at(timekeeper: &IrigTimekeeper, port: u8) -> Option<KeptFrame>
    ensures { result ≡ (line_at (clock_state_in timekeeper.now).lines port).seen }
{
    seen_of(
        Some(limits_of(timekeeper).limits()),
        &rules_of(&timekeeper.setup),
        line_at(&timekeeper.lines, port),
    )
}

fn reader_of(timekeeper: &IrigTimekeeper) -> State
    requires { IsAccepted timekeeper.now }
    ensures is { result ≡ state_in timekeeper.now.state }
    ensures counting { count_of result < timekeeper.now.setup.lock_after }
{
    match state_of(&timekeeper.state, timekeeper.setup.lock_after) {
        Some(state) => state,
        // Numbers that are accepted have one.
        None => State::Idle,
    }
}

fn is_short(timekeeper: &IrigTimekeeper) -> bool
    ensures { IsTrue result ↔ HasShortInterval timekeeper.now }
{
    timekeeper.has_interval == 0 || timekeeper.long_us <= 980_000
}

// Whether seconds can be counted by what is known of the edge, and by what is learned.
fn counts_soundly(timekeeper: &IrigTimekeeper) -> bool
    ensures { IsTrue result ↔ CountsSoundly timekeeper.now }
{
    is_short(timekeeper) && may_count(&timekeeper.pace)
}

pub(crate) fn interval_of(timekeeper: &IrigTimekeeper) -> Option<Interval>
    ensures { result ≡ interval_in timekeeper.now }
{
    if timekeeper.has_interval == 0 {
        None
    } else {
        Some(Interval {
            begin_us: timekeeper.begin_us,
            long_us: timekeeper.long_us,
        })
    }
}

fn set_interval(timekeeper: &mut IrigTimekeeper, interval: Option<Interval>)
    ensures interval { interval_in timekeeper.new ≡ interval }
    ensures others { timekeeper.new ≡ record timekeeper.old {
      begin_us = timekeeper.new.begin_us;
      long_us = timekeeper.new.long_us;
      has_interval = timekeeper.new.has_interval;
    } }
{
    match interval {
        Some(known) => {
            timekeeper.begin_us = known.begin_us;
            timekeeper.long_us = known.long_us;
            timekeeper.has_interval = 1;
        }
        None => {
            timekeeper.begin_us = 0;
            timekeeper.long_us = 0;
            timekeeper.has_interval = 0;
        }
    }
}

pub(crate) fn edge_of(timekeeper: &IrigTimekeeper) -> Option<u32>
    ensures { result ≡ edge_in timekeeper.now }
{
    if timekeeper.has_edge == 0 {
        None
    } else {
        Some(timekeeper.edge_us)
    }
}

fn set_edge(timekeeper: &mut IrigTimekeeper, edge_us: Option<u32>)
    ensures edge { edge_in timekeeper.new ≡ edge_us }
    ensures others { timekeeper.new ≡ record timekeeper.old {
      edge_us = timekeeper.new.edge_us;
      has_edge = timekeeper.new.has_edge;
    } }
{
    match edge_us {
        Some(edge) => {
            timekeeper.edge_us = edge;
            timekeeper.has_edge = 1;
        }
        None => {
            timekeeper.edge_us = 0;
            timekeeper.has_edge = 0;
        }
    }
}

/// The stamp of an event, by the seconds that were announced last.
pub fn stamp_at(timekeeper: &IrigTimekeeper, time_us: u32) -> Option<Stamp>
    ensures value { result ≡ stamp_of (announced_in timekeeper.now.last)
        (announced_in timekeeper.now.before) time_us }
    ensures valid { IsAnnounced timekeeper.now.last → IsAnnounced timekeeper.now.before
        → IfSome result (λ stamp. IsValid stamp.second) }
{
    stamp_of(
        announced_of(&timekeeper.last),
        announced_of(&timekeeper.before),
        time_us,
    )
}

/// Takes up where a tick leaves its clock. The check word stays.
pub fn keep(timekeeper: &mut IrigTimekeeper, state: &ClockState)
    requires counting { count_of state.now.reader < timekeeper.old.setup.lock_after }
    requires small { state.now.bound_us ≤ most_vote_us }
    requires paced { IsSound state.now.pace }
    ensures lines { (read : Lines) → AreKeptFrom (clock_state_in timekeeper.old).lines read
        → unread_lines read ≡ state.now.lines → (clock_state_in timekeeper.new).lines ≡ read }
    ensures rest { record (clock_state_in timekeeper.new) { lines = state.now.lines } ≡ state.now }
    ensures frames { frames_in timekeeper.new.lines ≡ frames_in timekeeper.old.lines }
    ensures heard { (heard : Heard) → HaveHeard timekeeper.old.lines heard
        → HaveHeard timekeeper.new.lines heard }
    ensures is_state { IsState timekeeper.new.setup.lock_after timekeeper.new.state }
    ensures counts { MayCount timekeeper.new.pace }
    ensures absent { (ports : ℕ) → KeepNoMore ports timekeeper.old.lines
        → KeepNoMore ports timekeeper.new.lines }
    ensures setup { timekeeper.new.setup ≡ timekeeper.old.setup }
    ensures table { timekeeper.new.table ≡ timekeeper.old.table }
    ensures wires { timekeeper.new.wires ≡ timekeeper.old.wires }
    ensures check { timekeeper.new.check ≡ timekeeper.old.check }
{
    keep_lines(&mut timekeeper.lines, &state.lines);
    timekeeper.state = state_for_c(&state.reader);
    set_edge(timekeeper, state.edge_us);
    timekeeper.bound_us = state.bound_us as u16;
    set_interval(timekeeper, state.interval);
    timekeeper.anchors = anchors_for_c(&state.anchors);
    timekeeper.pace = pace_for_c(state.pace);
    timekeeper.strays = state.strays;
    timekeeper.doubt = state.doubt;
    timekeeper.moved = state.moved;
    timekeeper.last = announced_for_c(&state.last);
    timekeeper.before = announced_for_c(&state.before);
    timekeeper.ended = announced_for_c(&state.ended);
    timekeeper.ended_before = announced_for_c(&state.ended_before);
}

/// Forgets all that happened to it. The check word stays.
pub fn forget(timekeeper: &mut IrigTimekeeper)
    ensures state { clock_state_in timekeeper.new
        ≡ new_state (lines_in (Some (clock_in timekeeper.new).limits.limits)
        (rules_in timekeeper.new.setup) timekeeper.new.lines) }
    ensures lines { (limits : Option Limits) (rules : Rules)
        → AreNewLines (lines_in limits rules timekeeper.new.lines) }
    ensures heard { HaveHeard timekeeper.new.lines nothing_heard }
    ensures is_state { timekeeper.new.state ≡ IDLE }
    ensures last { timekeeper.new.last.is_told ≡ 0 }
    ensures before { timekeeper.new.before.is_told ≡ 0 }
    ensures ended { timekeeper.new.ended.is_told ≡ 0 }
    ensures ended_before { timekeeper.new.ended_before.is_told ≡ 0 }
    ensures bound { timekeeper.new.bound_us ≡ 0 }
    ensures interval { timekeeper.new.has_interval ≡ 0 }
    ensures pace { timekeeper.new.pace.second_ns ≡ 0 }
    ensures absent { (ports : ℕ) → KeepNoMore ports timekeeper.new.lines }
    ensures setup { timekeeper.new.setup ≡ timekeeper.old.setup }
    ensures table { timekeeper.new.table ≡ timekeeper.old.table }
    ensures wires { timekeeper.new.wires ≡ timekeeper.old.wires }
    ensures check { timekeeper.new.check ≡ timekeeper.old.check }
{
    timekeeper.lines = lines_of_nothing();
    timekeeper.state = IDLE;
    set_edge(timekeeper, None);
    timekeeper.bound_us = 0;
    set_interval(timekeeper, None);
    timekeeper.anchors = NOTHING_MEASURED;
    timekeeper.pace = NOTHING_LEARNED;
    timekeeper.strays = 0;
    timekeeper.doubt = 0;
    timekeeper.moved = 0;
    timekeeper.last = NOTHING_ANNOUNCED;
    timekeeper.before = NOTHING_ANNOUNCED;
    timekeeper.ended = NOTHING_ANNOUNCED;
    timekeeper.ended_before = NOTHING_ANNOUNCED;
}

/// Forgets all that happened to it. A check word that is wrong stays so.
pub fn restart(timekeeper: &mut IrigTimekeeper)
    ensures state { clock_state_in timekeeper.new
        ≡ new_state (lines_in (Some (clock_in timekeeper.new).limits.limits)
        (rules_in timekeeper.new.setup) timekeeper.new.lines) }
    ensures lines { (limits : Option Limits) (rules : Rules)
        → AreNewLines (lines_in limits rules timekeeper.new.lines) }
    ensures heard { HaveHeard timekeeper.new.lines nothing_heard }
    ensures is_state { timekeeper.new.state ≡ IDLE }
    ensures last { timekeeper.new.last.is_told ≡ 0 }
    ensures before { timekeeper.new.before.is_told ≡ 0 }
    ensures ended { timekeeper.new.ended.is_told ≡ 0 }
    ensures ended_before { timekeeper.new.ended_before.is_told ≡ 0 }
    ensures bound { timekeeper.new.bound_us ≡ 0 }
    ensures interval { timekeeper.new.has_interval ≡ 0 }
    ensures pace { timekeeper.new.pace.second_ns ≡ 0 }
    ensures absent { (ports : ℕ) → KeepNoMore ports timekeeper.new.lines }
    ensures setup { timekeeper.new.setup ≡ timekeeper.old.setup }
    ensures table { timekeeper.new.table ≡ timekeeper.old.table }
    ensures wires { timekeeper.new.wires ≡ timekeeper.old.wires }
    ensures sealed { IsSealed timekeeper.new ↔ IsSealed timekeeper.old }
{
    let before = changing_sum(timekeeper);
    forget(timekeeper);
    let after = changing_sum(timekeeper);
    timekeeper.check = timekeeper.check.wrapping_sub(before).wrapping_add(after);
}
