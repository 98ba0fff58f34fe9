//! A device's clock: what becomes of it at a tick.

ghost use Rattle.std.specs.Prelude.{◌≡◌, ◌<◌, ◌≤◌, ◌+◌, ◌-◌, ◌*◌, IfSome, Some, None};
ghost use Rattle.irig_time.specs.Seconds.{IsValid};
ghost use Rattle.irig_vote.specs.Vote.{AreOfUtc};
ghost use Rattle.irig_reader.specs.Rule.{count_of};
ghost use Rattle.irig_lines.specs.Counting.{edges_to_vote, edges_own};
ghost use Rattle.irig_timekeeper.specs.Rule.{against_table, missed, step_behind};
ghost use Rattle.irig_lines.specs.Steps.{AreKeptOfUtc, AreNewLines, no_lines};
ghost use Rattle.irig_timekeeper.specs.Keeping.{new_state};
ghost use Rattle.irig_lines.specs.Intervals.{IsShort};
ghost use Rattle.irig_lines.specs.Paces.{IsSound, grown_us};
ghost use Rattle.irig_lines.specs.Rates.{rate_of, serving};
ghost use Rattle.irig_timekeeper.specs.Clock.{age_of, rules_on, knowing, knowing_vote, learning, is_held, lasted, bound_of, announced_at, still_serves, beat_by, beaten, step_to, after_vote, answer_to_vote, after_own, answer_alone, doubted_s, settled_at, vote_of_lines, clock_after, clock_answer, clock_vote, clock_wait, held_second, second_ended, unless_doubted, SaysOfUtc, AnnouncedOfUtc, TellsOfUtc, AreSmall};
ghost use Rattle.irig_lines.specs.Exactness.{most_drift_us, most_vote_us, most_held_us};

use crate::check::{against_table, step_checked};
use crate::stamp::Announced;
use irig_lines::{
    Anchors, ClockRules, Interval, Lines, NO_ANCHORS, Pace, Vote, agreed, anchors_cut, anchors_on,
    are_uneven, by_vote, carried_by, carried_on, contradicts, cut, edge_on, edges_own,
    edges_to_vote, grown_us, if_come, is_spent, learned, lines_of_nothing, pace_on, rate_of,
    settle, take, tells_of, wait_by,
};
use irig_reader::{Lock, ReaderRules, Report, State, Step};
use irig_time::{Claim, Leaps, UtcSecond};
use irig_vote::Tells;
use std::mem;

/// Where a device's clock stands between two calls.
#[derive(Drop)]
pub struct ClockState {
    /// Where its lines stand.
    pub lines: Lines,
    /// Where its reader's rule stands.
    pub reader: State,
    /// The local time at which the last second began that was counted, if there was one.
    pub edge_us: Option<u32>,
    /// How far from its true edge that of the last vote may lie, at most 2,899 us.
    pub bound_us: u32,
    /// In which the true edge lies by all votes since one that contradicted those before it, if it
    /// is known so well that seconds can be counted by it: at most 980,000 us.
    pub interval: Option<Interval>,
    /// The intervals at up to two votes before, from which the length of a second is measured.
    pub anchors: Anchors,
    /// How long seconds are by the counter, as votes have taught it, if the setup has a `wander_ppb`.
    pub pace: Option<Pace>,
    /// How many votes contradicted those before them, and how many seconds were counted without a
    /// vote where frames told that the counter is not so steady as the setup says.
    pub strays: u32,
    /// How many seconds have to be voted yet, behind the last of these, before one is announced
    /// again without a vote.
    pub doubt: u32,
    /// How often lines set that edge right since.
    pub moved: u32,
    /// The last second that was counted, if it was announced.
    pub last: Option<Announced>,
    /// The one counted before it, if it was announced and no vote since announced nothing.
    pub before: Option<Announced>,
    /// The second that ended at the last edge, if it was voted or announced without a vote.
    pub ended: Option<Announced>,
    /// The one that ended at the edge before, if that was told.
    pub ended_before: Option<Announced>,
}

/// What a tick answers at which an edge has come.
#[derive(Clone, Copy, PartialEq, Eq)]
pub struct Beat {
    /// What is said of the second that begins.
    pub report: Report,
    /// What the last whole frame of each line told, silence if it is late or taken.
    pub told: Tells,
    /// The local time at which the second begins.
    pub edge_us: u32,
    /// How far from its true edge that may lie, if the second is announced: at most 492,899 us.
    pub bound_us: u32,
    /// The seconds that passed untold before it.
    pub missed: u32,
    /// How often lines set the edge right since the one that was told before.
    pub moved: u32,
    /// Whether the claim that has the vote and the leap table both say how its day ends, and
    /// contradict one another. False without a vote.
    pub against_table: bool,
}

/// What a tick answers: what is said of a second, if an edge has come, and what lines agreed on, if
/// they did.
#[derive(Clone, Copy, Drop)]
pub struct Ticked {
    pub beat: Option<Beat>,
    pub vote: Option<Claim>,
}

/// A clock that nobody has set, on lines on which nothing came.
pub fn clock_of_nothing() -> ClockState
    ensures value { result ≡ new_state no_lines }
    ensures lines { AreNewLines result.lines }
{
    ClockState {
        lines: lines_of_nothing(),
        reader: State::Idle,
        edge_us: None,
        bound_us: 0,
        interval: None,
        anchors: NO_ANCHORS,
        pace: None,
        strays: 0,
        doubt: 0,
        moved: 0,
        last: None,
        before: None,
        ended: None,
        ended_before: None,
    }
}

/// A tick: what is said of a second, if an edge has come since the last one. It may come at any
/// time.
///
/// The counter is at most 100 us a second wrong by the rules, each claim that a line keeps is of a
/// [`valid`](irig_time::valid) second, a reader that is acquiring had fewer votes than it locks
/// after, the bound of the last vote is at most 2,899 us, and the interval at most 980,000 us long.
pub fn tick<T: Leaps>(rules: &ClockRules, table: &T, state: &mut ClockState, now_us: u32) -> Ticked
    requires steady { rules.now.drift_us ≤ most_drift_us }
    requires counting { count_of state.old.reader < rules.now.reader_rules.lock_after }
    requires small { state.old.bound_us ≤ most_vote_us }
    requires known { IsShort state.old.interval }
    requires paced { IsSound state.old.pace }
    requires ended { AreSmall state.old }
    requires valid { AreKeptOfUtc state.old.lines }
    ensures answer { result.beat ≡ clock_answer rules.now (T.says table.now) state.old now_us }
    ensures after { state.new ≡ clock_after rules.now (T.says table.now) state.old now_us }
    ensures vote { result.vote ≡ clock_vote rules.now state.old now_us }
    ensures counting { count_of state.new.reader < rules.now.reader_rules.lock_after }
    ensures valid { AreKeptOfUtc state.new.lines }
    ensures said { SaysOfUtc result.beat }
    ensures told { TellsOfUtc result.beat }
    ensures small { state.new.bound_us ≤ most_vote_us }
    ensures known { IsShort state.new.interval }
    ensures paced { IsSound state.new.pace }
    ensures ended { AreSmall state.new }
    ensures announced { AnnouncedOfUtc state.old → AnnouncedOfUtc state.new }
{
    match settle_clock(rules, state, now_us) {
        Some(vote) => tick_by_vote(rules, table, state, vote),
        None => tick_alone(rules, table, state, now_us),
    }
}

// Lines agree on an edge.
fn tick_by_vote<T: Leaps>(
    rules: &ClockRules,
    table: &T,
    state: &mut ClockState,
    vote: Vote,
) -> Ticked
    requires steady { rules.now.drift_us ≤ most_drift_us }
    requires known { IsShort state.old.interval }
    requires paced { IsSound state.old.pace }
    requires ended { AreSmall state.old }
    requires small { vote.bound_us ≤ most_vote_us }
    requires counting { count_of state.old.reader < rules.now.reader_rules.lock_after }
    requires valid { IsValid vote.claim.at }
    requires lines { AreKeptOfUtc state.old.lines }
    ensures answer { result.beat ≡ answer_to_vote rules.now (T.says table.now) state.old vote
        (edges_to_vote state.old.edge_us vote.edge_us) }
    ensures after { state.new ≡ learning rules.now (knowing_vote rules.now state.old vote
        (edges_to_vote state.old.edge_us vote.edge_us)
        (after_vote rules.now (T.says table.now) state.old vote
        (edges_to_vote state.old.edge_us vote.edge_us))) }
    ensures known { IsShort state.new.interval }
    ensures paced { IsSound state.new.pace }
    ensures ended { AreSmall state.new }
    ensures vote { result.vote ≡ Some vote.claim }
    ensures counting { count_of state.new.reader < rules.now.reader_rules.lock_after }
    ensures valid { AreKeptOfUtc state.new.lines }
    ensures said { SaysOfUtc result.beat }
    ensures told { TellsOfUtc result.beat }
    ensures small { state.new.bound_us ≤ most_vote_us }
    ensures announced { AnnouncedOfUtc state.old → AnnouncedOfUtc state.new }
{
    let edges = edges_to_vote(state.edge_us, vote.edge_us);
    know_vote(rules, state, vote, edges);
    state.bound_us = vote.bound_us;
    let beat = if edges > 0 {
        Some(beat_at(rules, table, state, edges, Some(vote.claim), vote.edge_us))
    } else {
        state.edge_us = Some(vote.edge_us);
        state.moved = state.moved.wrapping_add(1);
        None
    };
    take(&mut state.lines);
    state.pace = learned(rules, rate_of(state.interval, state.anchors));
    Ticked {
        beat,
        vote: Some(vote.claim),
    }
}

// They do not.
fn tick_alone<T: Leaps>(
    rules: &ClockRules,
    table: &T,
    state: &mut ClockState,
    now_us: u32,
) -> Ticked
    requires steady { rules.now.drift_us ≤ most_drift_us }
    requires known { IsShort state.old.interval }
    requires paced { IsSound state.old.pace }
    requires ended { AreSmall state.old }
    requires counting { count_of state.old.reader < rules.now.reader_rules.lock_after }
    requires small { state.old.bound_us ≤ most_vote_us }
    requires valid { AreKeptOfUtc state.old.lines }
    ensures answer { result.beat ≡ answer_alone rules.now (T.says table.now) state.old
        (edges_own state.old.pace state.old.edge_us now_us) }
    ensures after { state.new ≡ knowing rules.now state.old (edges_own state.old.pace state.old.edge_us now_us)
        (after_own rules.now (T.says table.now) state.old (edges_own state.old.pace state.old.edge_us now_us)) }
    ensures known { IsShort state.new.interval }
    ensures paced { IsSound state.new.pace }
    ensures ended { AreSmall state.new }
    ensures vote { result.vote ≡ None }
    ensures counting { count_of state.new.reader < rules.now.reader_rules.lock_after }
    ensures valid { AreKeptOfUtc state.new.lines }
    ensures said { SaysOfUtc result.beat }
    ensures told { TellsOfUtc result.beat }
    ensures small { state.new.bound_us ≤ most_vote_us }
    ensures announced { AnnouncedOfUtc state.old → AnnouncedOfUtc state.new }
{
    let edges = edges_own(state.pace, state.edge_us, now_us);
    state.interval = carried_on(rules.drift_us, edges, state.interval);
    state.anchors = anchors_on(edges, state.interval, state.anchors);
    let beat = match state.edge_us {
        Some(edge) if edges > 0 => {
            let edge_us = edge_on(state.pace, edge, edges);
            let beat = beat_at(rules, table, state, edges, None, edge_us);
            state.pace = pace_on(is_held(&state.reader), edges, state.pace);
            Some(beat)
        }
        _ => None,
    };
    Ticked { beat, vote: None }
}

// Settles the lines: the edge on which they agree, if it has come. If they do not, how long their
// frames last tells whether the counter is so steady as the setup says.
fn settle_clock(rules: &ClockRules, state: &mut ClockState, now_us: u32) -> Option<Vote>
    requires steady { rules.now.drift_us ≤ most_drift_us }
    requires paced { IsSound state.old.pace }
    ensures vote { result ≡ vote_of_lines rules.now state.old now_us }
    ensures after { state.new ≡ settled_at rules.now state.old now_us }
    ensures small { IfSome result (λ vote. vote.bound_us ≤ most_vote_us) }
    ensures paced { IsSound state.new.pace }
{
    settle(&mut state.lines, now_us);
    let vote = if_come(now_us, agreed(rules, &state.lines));
    if vote.is_none()
        && edges_own(state.pace, state.edge_us, now_us) > 0
        && are_uneven(rules, &state.lines)
    {
        state.strays = state.strays.wrapping_add(1);
        state.doubt = doubted_s(rules);
        state.anchors = NO_ANCHORS;
        state.pace = None;
    }
    vote
}

// How many seconds have to be voted before one is announced again without a vote.
fn doubted_s(rules: &ClockRules) -> u32
    ensures { result ≡ doubted_s rules.now }
{
    rules.reader_rules.holdover.clamp(1, 1_000)
}

// What is then known of the edge by all votes, and whether this one contradicts it.
fn know_vote(rules: &ClockRules, state: &mut ClockState, vote: Vote, edges: u32)
    requires steady { rules.now.drift_us ≤ most_drift_us }
    requires few { edges ≤ 4294 }
    requires small { vote.bound_us ≤ most_vote_us }
    requires short { IsShort state.old.interval }
    requires paced { IsSound state.old.pace }
    ensures after { state.new ≡ knowing_vote rules.now state.old vote edges state.old }
    ensures short { IsShort state.new.interval }
{
    let known = carried_by(rules.drift_us, state.pace, edges, state.interval);
    let voted = by_vote(vote);
    let interval = cut(known, voted);
    state.interval = Some(interval);
    let anchors = if contradicts(known, voted) {
        state.strays = state.strays.wrapping_add(1);
        state.doubt = doubted_s(rules);
        NO_ANCHORS
    } else {
        state.doubt = state.doubt.saturating_sub(edges);
        anchors_on(edges, known, state.anchors)
    };
    state.anchors = anchors_cut(interval, anchors);
}

// An edge to which so many seconds were counted, with the vote on it, if there is one.
fn beat_at<T: Leaps>(
    rules: &ClockRules,
    table: &T,
    state: &mut ClockState,
    edges: u32,
    vote: Option<Claim>,
    edge_us: u32,
) -> Beat
    requires steady { rules.now.drift_us ≤ most_drift_us }
    requires counting { count_of state.old.reader < rules.now.reader_rules.lock_after }
    requires small { state.old.bound_us ≤ most_vote_us }
    requires valid { IfSome vote (λ claim. IsValid claim.at) }
    requires lines { AreKeptOfUtc state.old.lines }
    requires ended { AreSmall state.old }
    requires some { 1 ≤ edges }
    requires paced { IsSound state.old.pace }
    ensures answer { result ≡ beat_by rules.now state.old
        (against_table (T.says table.now) vote)
        (step_to rules.now (T.says table.now) state.old edges vote) (edges - 1) edge_us
        state.old.bound_us }
    ensures after { state.new ≡ beaten rules.now state.old state.old.lines vote
        (step_to rules.now (T.says table.now) state.old edges vote) (edges - 1) edge_us
        state.old.bound_us }
    ensures counting { count_of state.new.reader < rules.now.reader_rules.lock_after }
    ensures said { IfSome result.report.announce IsValid }
    ensures told { AreOfUtc result.told }
    ensures ended { AreSmall state.new }
    ensures paced { IsSound state.new.pace }
    ensures announced { AnnouncedOfUtc state.old → AnnouncedOfUtc state.new }
{
    let reader = mem::replace(&mut state.reader, State::Idle);
    let held = held_second(&reader);
    let step = step_to(rules, state.pace, table, edges, reader, vote);
    let beat = Beat {
        report: unless_doubted(state.doubt, vote, step.report),
        told: tells_of(&state.lines),
        edge_us,
        bound_us: bound_of(rules, state.pace, state.bound_us, step.report.lock),
        missed: edges - 1,
        moved: state.moved,
        against_table: against_table(table, vote),
    };
    state.reader = step.state;
    state.ended_before = if edges == 1 { state.ended } else { None };
    state.ended = announced(
        second_ended(held, edges - 1, vote, beat.report.announce),
        edge_us,
        beat.bound_us,
    );
    state.edge_us = Some(edge_us);
    state.moved = 0;
    state.before = still_serves(vote, beat.report.announce, state.last);
    state.last = announced(beat.report.announce, edge_us, beat.bound_us);
    beat
}

// What the rule says where so many seconds are counted, one or more.
fn step_to<T: Leaps>(
    rules: &ClockRules,
    pace: Option<Pace>,
    table: &T,
    edges: u32,
    reader: State,
    vote: Option<Claim>,
) -> Step
    requires steady { rules.now.drift_us ≤ most_drift_us }
    requires some { 1 ≤ edges }
    requires valid { IfSome vote (λ claim. IsValid claim.at) }
    requires counting { count_of reader < rules.now.reader_rules.lock_after }
    ensures step { result ≡ step_behind rules.now.prefers_frames
        (rules_on rules.now pace reader edges) (T.says table.now) (edges - 1) reader vote }
    ensures counting { count_of result.state < rules.now.reader_rules.lock_after }
    ensures held { grown_us rules.now.drift_us pace (lasted result.report.lock) ≤ most_held_us }
    ensures valid { IfSome result.report.announce IsValid }
{
    let reader_rules = rules_on(rules, pace, &reader, edges);
    let missed = edges - 1;
    step_behind(
        rules.prefers_frames,
        reader_rules,
        table,
        missed,
        reader,
        vote,
    )
}

// The rules by which so many seconds are counted: a holdover that is spent ends.
fn rules_on(rules: &ClockRules, pace: Option<Pace>, reader: &State, edges: u32) -> ReaderRules
    requires steady { rules.now.drift_us ≤ most_drift_us }
    ensures value { result ≡ rules_on rules.now pace reader.now edges }
    ensures locks { result.lock_after ≡ rules.now.reader_rules.lock_after }
{
    if is_spent(rules.drift_us, pace, age_of(reader), edges) {
        return ReaderRules {
            holdover: 0,
            ..rules.reader_rules
        };
    }
    rules.reader_rules
}

// How many edges a locked reader has held over.
fn age_of(reader: &State) -> u32
    ensures { result ≡ age_of reader.now }
{
    match reader {
        State::Locked(hold) => hold.age(),
        _ => 0,
    }
}

// The rule over edges that were missed, and one more.
fn step_behind<T: Leaps>(
    prefers_frames: bool,
    reader_rules: ReaderRules,
    table: &T,
    edges: u32,
    state: State,
    vote: Option<Claim>,
) -> Step
    requires valid { IfSome vote (λ claim. IsValid claim.at) }
    requires counting { count_of state < reader_rules.lock_after }
    ensures step { result ≡ step_behind prefers_frames reader_rules (T.says table.now) edges state
        vote }
    ensures counting { count_of result.state < reader_rules.lock_after }
    ensures valid { IfSome result.report.announce IsValid }
{
    let mut state = state;
    for gone in 0..edges {
        state = step_checked(prefers_frames, reader_rules, table, state, None).state;
    }
    step_checked(prefers_frames, reader_rules, table, state, vote)
}

// Whether a reader is locked.
fn is_held(reader: &State) -> bool
    ensures { result ≡ is_held reader.now }
{
    matches!(reader, State::Locked(_))
}

// The second at which a locked reader stands.
fn held_second(reader: &State) -> Option<UtcSecond>
    ensures { result ≡ held_second reader.now }
{
    match reader {
        State::Locked(hold) => Some(hold.now()),
        _ => None,
    }
}

// The second that ended at an edge.
fn second_ended(
    held: Option<UtcSecond>,
    missed: u32,
    vote: Option<Claim>,
    announce: Option<UtcSecond>,
) -> Option<UtcSecond>
    ensures { result ≡ second_ended held missed vote announce }
{
    match (vote, announce) {
        (Some(claim), _) => Some(claim.at),
        (None, Some(_)) if missed == 0 => held,
        _ => None,
    }
}

// What a reader says, but that nothing is announced without a vote while something is in doubt.
fn unless_doubted(doubt: u32, vote: Option<Claim>, report: Report) -> Report
    ensures { result ≡ unless_doubted doubt vote report }
{
    Report {
        announce: if doubt == 0 || vote.is_some() {
            report.announce
        } else {
            None
        },
        ..report
    }
}

// What was announced before: if a vote announces nothing, as at a jump, it may be false.
fn still_serves(
    vote: Option<Claim>,
    announce: Option<UtcSecond>,
    last: Option<Announced>,
) -> Option<Announced>
    ensures value { result ≡ still_serves vote announce last }
    ensures valid { IfSome last (λ announced. IsValid announced.second)
        → IfSome result (λ announced. IsValid announced.second) }
{
    match (vote, announce) {
        (Some(_), None) => None,
        _ => last,
    }
}

// How far an edge may lie off, if that of the last vote lay so far off at most.
fn bound_of(rules: &ClockRules, pace: Option<Pace>, voted_us: u32, lock: Lock) -> u32
    requires held { grown_us rules.now.drift_us pace (lasted lock) ≤ most_held_us }
    requires steady { rules.now.drift_us ≤ most_drift_us }
    requires small { voted_us ≤ most_vote_us }
    ensures { result ≡ bound_of rules.now.drift_us pace voted_us lock }
{
    voted_us + grown_us(rules.drift_us, pace, lasted(lock)) as u32
}

// What is kept of a second that is announced.
fn announced(announce: Option<UtcSecond>, edge_us: u32, bound_us: u32) -> Option<Announced>
    ensures value { result ≡ announced_at edge_us bound_us announce }
    ensures valid { IfSome announce IsValid
        → IfSome result (λ announced. IsValid announced.second) }
{
    match announce {
        Some(second) => Some(Announced {
            second,
            edge_us,
            bound_us,
        }),
        None => None,
    }
}

/// How many edges a holdover has lasted.
fn lasted(lock: Lock) -> u32
    ensures { result ≡ lasted lock }
{
    match lock {
        Lock::Holdover(edges) => edges,
        Lock::Unlocked => 0,
        Lock::Acquiring(_) => 0,
        Lock::Locked => 0,
    }
}

/// How long until a tick has something to do, if no call comes before it, in microseconds.
pub fn wait_of(rules: &ClockRules, state: &ClockState, now_us: u32) -> u32
    requires { rules.now.drift_us ≤ most_drift_us }
    ensures { result ≡ clock_wait rules.now state.now now_us }
{
    let mut lines = state.lines;
    settle(&mut lines, now_us);
    wait_by(now_us, state.edge_us, agreed(rules, &lines))
}
