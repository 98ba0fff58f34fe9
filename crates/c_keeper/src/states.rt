//! What each line is, in numbers.

ghost use Rattle.std.specs.Prelude.{◌≡◌, ◌≤◌};
ghost use Rattle.irig_timekeeper.specs.States.{state_of};
ghost use Rattle.irig_lines.specs.Exactness.{most_drift_us};
ghost use Rattle.c_keeper.specs.States.{masks_of, state_if, states_of};
ghost use Rattle.c_lines.specs.Announced.{IsSmall};
ghost use Rattle.c_keeper.specs.Timekeepers.{clock_state_in};

use crate::timekeeper::{IrigTimekeeper, seen_at};
use c_lines::{IrigMasks, States, announced_of, line_at, masks_in};
use irig_lines::ClockRules;
use irig_timekeeper::{LineState, state_seen};

/// What the line of a port is.
pub(crate) fn state_at(timekeeper: &IrigTimekeeper, rules: &ClockRules, port: u8) -> LineState
    requires steady { rules.now.drift_us ≤ most_drift_us }
    requires ended { IsSmall timekeeper.now.ended }
    requires ended_before { IsSmall timekeeper.now.ended_before }
    ensures { result ≡ state_of rules.now (clock_state_in timekeeper.now) port }
{
    state_seen(
        rules,
        line_at(&timekeeper.lines, port).is_heard != 0,
        seen_at(timekeeper, port),
        announced_of(&timekeeper.ended),
        announced_of(&timekeeper.ended_before),
    )
}

// Once in the code, since five lines ask for it.
#[inline(never)]
fn state_if(timekeeper: &IrigTimekeeper, rules: &ClockRules, port: u8) -> Option<LineState>
    requires steady { rules.now.drift_us ≤ most_drift_us }
    requires ended { IsSmall timekeeper.now.ended }
    requires ended_before { IsSmall timekeeper.now.ended_before }
    ensures { result ≡ state_if rules.now (clock_state_in timekeeper.now) port }
{
    if port < rules.redundancy.ports() {
        Some(state_at(timekeeper, rules, port))
    } else {
        None
    }
}

fn states_of(timekeeper: &IrigTimekeeper, rules: &ClockRules) -> States
    requires steady { rules.now.drift_us ≤ most_drift_us }
    requires ended { IsSmall timekeeper.now.ended }
    requires ended_before { IsSmall timekeeper.now.ended_before }
    ensures { result ≡ states_of rules.now (clock_state_in timekeeper.now) }
{
    States {
        a: state_if(timekeeper, rules, 0),
        b: state_if(timekeeper, rules, 1),
        c: state_if(timekeeper, rules, 2),
        d: state_if(timekeeper, rules, 3),
        e: state_if(timekeeper, rules, 4),
    }
}

/// What each line is behind a tick.
pub(crate) fn masks_of(timekeeper: &IrigTimekeeper, rules: &ClockRules) -> IrigMasks
    requires steady { rules.now.drift_us ≤ most_drift_us }
    requires ended { IsSmall timekeeper.now.ended }
    requires ended_before { IsSmall timekeeper.now.ended_before }
    ensures { result ≡ masks_of rules.now (clock_state_in timekeeper.now) }
{
    masks_in(&states_of(timekeeper, rules))
}
