//! What each line is.

ghost use Rattle.std.specs.Prelude.{◌≡◌, ◌≤◌, ◌+◌};
ghost use Rattle.std.specs.Option.{ForSome};
ghost use Rattle.irig_lines.specs.Exactness.{most_drift_us, most_held_us, most_vote_us};
ghost use Rattle.irig_timekeeper.specs.Clock.{AreSmall};
ghost use Rattle.irig_timekeeper.specs.States.{is_near, state_near, is_later, state_before, state_claiming, state_seen, state_of, AreSmallEnds};

use crate::clock::ClockState;
use crate::stamp::Announced;
use irig_lines::{ClockRules, KeptFrame, line_at};
use irig_port::Told;
use irig_time::Claim;

/// What a line is by its last whole frame: each is in one of these states.
#[derive(Clone, Copy, PartialEq, Eq)]
pub enum LineState {
    /// No pulse came within a second.
    Silent,
    /// Pulses come, but no whole frame came within a second and a half.
    Broken,
    /// Its frame is at fault.
    Faulty,
    /// Its frame claims a second, but its last pulse does not rise 990 ms behind its first one: it
    /// has no vote.
    Uneven,
    /// Its clock says of itself that it is too inexact to vote.
    Poor,
    /// It claims a second, and the one that ended with its frame is not known, or not yet.
    Unjudged,
    /// It claims the second that ended at the told edge, and ends there.
    Agreed,
    /// It claims that second, but ends further from that edge than a true line's frame of its
    /// quality.
    Apart,
    /// It claims another second.
    Differed,
}

// Whether a frame's end lies at most so far from an edge.
fn is_near(off_us: u32, edge_us: u32, end_us: u32) -> bool
    requires { off_us ≤ 1000000 }
    ensures { result ≡ is_near off_us edge_us end_us }
{
    edge_us.wrapping_add(off_us).wrapping_sub(end_us) <= 2 * off_us
}

fn state_near(rules: &ClockRules, frame: &KeptFrame, told: Announced) -> LineState
    requires steady { rules.now.drift_us ≤ most_drift_us }
    requires small { told.bound_us ≤ most_vote_us + most_held_us }
    ensures { result ≡ state_near rules.now frame.now.quality frame.now.end_us told }
{
    let off_us = rules.half_us(frame.quality) + rules.drift_us.div_ceil(100) + told.bound_us;
    if is_near(off_us, told.edge_us, frame.end_us) {
        LineState::Agreed
    } else {
        LineState::Apart
    }
}

// Whether the second of two times lies half a second or more behind the first.
fn is_later(time_us: u32, later_us: u32) -> bool
    ensures { result ≡ is_later time_us later_us }
{
    let gap_us = later_us.wrapping_sub(time_us);
    500_000 <= gap_us && gap_us < 1 << 31
}

fn state_before(
    rules: &ClockRules,
    claim: Claim,
    frame: &KeptFrame,
    edge_us: u32,
    before: Option<Announced>,
) -> LineState
    requires steady { rules.now.drift_us ≤ most_drift_us }
    requires small { ForSome before (λ a. a.bound_us ≤ most_vote_us + most_held_us) }
    ensures { result ≡ state_before rules.now claim frame.now.quality frame.now.end_us edge_us before }
{
    match before {
        Some(told) if claim.at == told.second => state_near(rules, frame, told),
        None if is_later(frame.end_us, edge_us) => LineState::Unjudged,
        _ => LineState::Differed,
    }
}

fn state_claiming(
    rules: &ClockRules,
    claim: Claim,
    frame: &KeptFrame,
    ended: Option<Announced>,
    before: Option<Announced>,
) -> LineState
    requires steady { rules.now.drift_us ≤ most_drift_us }
    requires small { AreSmallEnds ended before }
    ensures { result ≡ state_claiming rules.now claim frame.now.quality frame.now.end_us ended before }
{
    let Some(told) = ended else {
        return LineState::Unjudged;
    };
    if is_later(told.edge_us, frame.end_us) {
        LineState::Unjudged
    } else if claim.at == told.second {
        state_near(rules, frame, told)
    } else {
        state_before(rules, claim, frame, told.edge_us, before)
    }
}

/// What a line is, as of the last tick: by its last whole frame, if that is not gone, and by whether
/// a pulse came on it. `ended` is the second that ended at the last edge, `before` the one that ended
/// at the edge before, if they were told.
pub fn state_seen(
    rules: &ClockRules,
    is_heard: bool,
    frame: Option<KeptFrame>,
    ended: Option<Announced>,
    before: Option<Announced>,
) -> LineState
    requires steady { rules.now.drift_us ≤ most_drift_us }
    requires small { AreSmallEnds ended before }
    ensures { result ≡ state_seen rules.now is_heard frame ended before }
{
    let Some(frame) = frame else {
        return if is_heard {
            LineState::Broken
        } else {
            LineState::Silent
        };
    };
    match frame.told {
        Told::Silence => LineState::Broken,
        Told::Fault(_) => LineState::Faulty,
        Told::Poor(_) => LineState::Poor,
        Told::Claim(claim) if frame.is_even => state_claiming(rules, claim, &frame, ended, before),
        Told::Claim(_) => LineState::Uneven,
    }
}

/// What the line of a port is, as of the last tick.
pub fn state_of(rules: &ClockRules, state: &ClockState, port: u8) -> LineState
    requires steady { rules.now.drift_us ≤ most_drift_us }
    requires small { AreSmall state.now }
    ensures { result ≡ state_of rules.now state.now port }
{
    let line = line_at(&state.lines, port);
    state_seen(
        rules,
        line.is_heard,
        line.seen,
        state.ended,
        state.ended_before,
    )
}
