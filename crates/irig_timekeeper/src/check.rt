//! The reader's rule, with the leap table as a guard of what frames say of a leap.

ghost use Rattle.std.specs.Prelude.{◌≡◌, ◌<◌, ◌≤◌, IfSome};
ghost use Rattle.irig_time.specs.Seconds.{IsValid};
ghost use Rattle.irig_reader.specs.Rule.{count_of, stop_step};
ghost use Rattle.irig_timekeeper.specs.Rule.{against_table, differ, goes_against, parts_from, same_next, step_checked, word_behind, word_of};

use irig_hold::Hold;
use irig_reader::{Cause, Lock, ReaderRules, Report, State, Step, step_of};
use irig_time::{Claim, Leaps, Mark, UtcSecond, next};

// A step of the reader's rule. One that goes against the table is a stop, unless frames are
// preferred.
#[tactic(auto, unfolding(crate::specs::Rule::step_checked))]
pub(crate) fn step_checked<T: Leaps>(
    prefers_frames: bool,
    rules: ReaderRules,
    table: &T,
    state: State,
    vote: Option<Claim>,
) -> Step
    requires valid { IfSome vote (λ claim. IsValid claim.at) }
    requires counting { count_of state < rules.lock_after }
    ensures step { result ≡ step_checked prefers_frames rules (T.says table.now) state vote }
    ensures counting { count_of result.state < rules.lock_after }
    ensures valid { IfSome result.report.announce IsValid }
{
    if !prefers_frames && goes_against(table, &state, vote) {
        return stopped();
    }
    step_of(rules, table, state, vote)
}

// Whether what is heard of a leap leads to another second than the table does.
#[tactic(auto, unfolding(crate::specs::Rule::goes_against))]
fn goes_against<T: Leaps>(table: &T, state: &State, vote: Option<Claim>) -> bool
    requires { IfSome vote (λ claim. IsValid claim.at) }
    ensures { result ≡ goes_against (T.says table.now) state.now vote }
{
    if let Some(claim) = vote {
        return parts_from(table, claim.at, word_of(state, claim));
    }
    match state {
        State::Locked(hold) => parts_from(table, hold.now(), hold.heard()),
        _ => false,
    }
}

fn word_of(state: &State, claim: Claim) -> Mark
    ensures { result ≡ word_of state.now claim }
{
    match state {
        State::Idle => claim.mark,
        State::Acquiring(hold, _) => word_behind(hold, claim),
        State::Locked(hold) => word_behind(hold, claim),
    }
}

// What a claim says of a leap; if it says nothing, and follows this hold, what the hold heard.
fn word_behind(hold: &Hold, claim: Claim) -> Mark
    ensures { result ≡ word_behind hold.now claim }
{
    match claim.mark {
        Mark::Unspoken if claim.at == hold.now() => hold.heard(),
        _ => claim.mark,
    }
}

fn parts_from<T: Leaps>(table: &T, from: UtcSecond, heard: Mark) -> bool
    requires { IsValid from }
    ensures { result ≡ parts_from (T.says table.now) from heard }
{
    let known = table.mark(from.day);
    differ(heard, known) && !is_same(next(from, heard), next(from, known))
}

// Whether two words of a leap speak, and differ.
fn differ(heard: Mark, known: Mark) -> bool
    ensures { result ≡ differ heard known }
{
    match (heard, known) {
        (Mark::Unspoken, _) | (_, Mark::Unspoken) => false,
        (Mark::NoLeap, Mark::NoLeap) => false,
        (Mark::Insert, Mark::Insert) => false,
        (Mark::Delete, Mark::Delete) => false,
        _ => true,
    }
}

fn is_same(one: Option<UtcSecond>, other: Option<UtcSecond>) -> bool
    ensures { result ≡ same_next one other }
{
    match (one, other) {
        (Some(one), Some(other)) => one == other,
        (None, None) => true,
        _ => false,
    }
}

// Whether the claim that has the vote speaks of a leap, and the table says otherwise.
pub(crate) fn against_table<T: Leaps>(table: &T, vote: Option<Claim>) -> bool
    requires { IfSome vote (λ claim. IsValid claim.at) }
    ensures { result ≡ against_table (T.says table.now) vote }
{
    match vote {
        Some(claim) => differ(claim.mark, table.mark(claim.at.day)),
        None => false,
    }
}

fn stopped() -> Step
    ensures { result ≡ stop_step Cause.LeapGuard }
{
    Step {
        state: State::Idle,
        report: Report {
            announce: None,
            lock: Lock::Unlocked,
            cause: Cause::LeapGuard,
        },
    }
}
