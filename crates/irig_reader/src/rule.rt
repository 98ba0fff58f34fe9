//! The reader's rule: what becomes of a reader by the vote of an edge, and what it says there.

ghost use Rattle.std.specs.Prelude.{◌≡◌, ◌<◌, ◌≤◌, ◌+◌, IfSome};
ghost use Rattle.irig_time.specs.Seconds.{IsValid};
ghost use Rattle.irig_hold.specs.Steps.{hold_start, voted_by, alone_by};
ghost use Rattle.irig_hold.specs.Turns.{IfNow};
ghost use Rattle.irig_reader.specs.Rule as rule;

use crate::report::{Cause, Lock, Report};
use crate::rules::ReaderRules;
use irig_hold::{Hold, Turn};
use irig_time::{Claim, Leaps, UtcSecond};

/// Where a reader stands between two edges.
#[derive(Drop)]
pub enum State {
    /// It has nothing to go on.
    Idle,
    /// It had so many votes that follow one another, and needs more.
    Acquiring(Hold, u8),
    /// It announces.
    Locked(Hold),
}

/// Where a reader stands after an edge, and what it says there.
#[derive(Drop)]
pub struct Step {
    pub state: State,
    pub report: Report,
}

/// The reader's rule: from where a reader stands and the vote of an edge, if there is one, where it
/// then stands and what it says there.
///
/// The rules are [`in_range`](crate::in_range), the vote is for a [`valid`](irig_time::valid)
/// second, and a reader that is acquiring had fewer votes than it locks after.
#[tactic(auto, unfolding(crate::specs::Rule::step_of))]
pub fn step_of<T: Leaps>(
    reader_rules: ReaderRules,
    table: &T,
    state: State,
    vote: Option<Claim>,
) -> Step
    requires valid { IfSome vote (λ claim. IsValid claim.at) }
    requires counting { rule.count_of state < reader_rules.lock_after }
    ensures step { result ≡ rule.step_of reader_rules (T.says table.now) state vote }
    ensures counting { rule.count_of result.state < reader_rules.lock_after }
    ensures valid { IfSome result.report.announce IsValid }
{
    match (state, vote) {
        (State::Idle | State::Acquiring(_, _), None) => stopped(Cause::NoVote),
        (State::Idle, Some(claim)) => begin(reader_rules, table, claim),
        (State::Acquiring(hold, count), Some(claim)) => join(
            reader_rules,
            table,
            hold,
            count,
            claim,
        ),
        (State::Locked(hold), Some(claim)) => follow(table, hold, claim),
        (State::Locked(hold), None) => hold_over(reader_rules, table, hold),
    }
}

fn begin<T: Leaps>(reader_rules: ReaderRules, table: &T, claim: Claim) -> Step
    requires valid { IsValid claim.at }
    requires some { 0 < reader_rules.lock_after }
    ensures step { result
        ≡ rule.first_vote_step reader_rules (hold_start (T.says table.now) claim) }
    ensures counting { rule.count_of result.state < reader_rules.lock_after }
    ensures valid { IfSome result.report.announce IsValid }
{
    match Hold::start(claim, table) {
        Ok(hold) => counted(reader_rules, hold, 1),
        Err(Turn::RangeEnd) => stopped(Cause::RangeEnd),
        // Nothing but the guard or the end of the range stops a start.
        Err(_) => stopped(Cause::LeapGuard),
    }
}

/// A further vote before it is locked. One for another second begins anew.
fn join<T: Leaps>(
    reader_rules: ReaderRules,
    table: &T,
    mut hold: Hold,
    count: u8,
    claim: Claim,
) -> Step
    requires valid { IsValid claim.at }
    requires counting { count < reader_rules.lock_after }
    ensures step { result ≡ rule.later_vote_step reader_rules (T.says table.now) hold count claim }
    ensures counting { rule.count_of result.state < reader_rules.lock_after }
    ensures valid { IfSome result.report.announce IsValid }
{
    match hold.voted(claim, table) {
        Turn::Now(_) => counted(reader_rules, hold, count + 1),
        Turn::Jump => begin(reader_rules, table, claim),
        Turn::LeapGuard => stopped(Cause::LeapGuard),
        Turn::Expired => stopped(Cause::Expired),
        Turn::RangeEnd => stopped(Cause::RangeEnd),
    }
}

fn follow<T: Leaps>(table: &T, mut hold: Hold, claim: Claim) -> Step
    ensures step { result ≡ rule.locked_vote_step (voted_by (T.says table.now) hold claim) }
    ensures counting { rule.count_of result.state ≡ 0 }
    ensures valid { IfSome result.report.announce IsValid }
{
    let turn = hold.voted(claim, table);
    goes_on(turn, hold, Lock::Locked, Cause::Voted)
}

fn hold_over<T: Leaps>(reader_rules: ReaderRules, table: &T, mut hold: Hold) -> Step
    ensures step { result
        ≡ rule.holdover_step (alone_by (T.says table.now) hold reader_rules.holdover) }
    ensures counting { rule.count_of result.state ≡ 0 }
    ensures valid { IfSome result.report.announce IsValid }
{
    let turn = hold.alone(reader_rules.holdover, table);
    let age = hold.age();
    goes_on(turn, hold, Lock::Holdover(age), Cause::Held)
}

fn goes_on(turn: Turn, hold: Hold, lock: Lock, cause: Cause) -> Step
    requires valid { IfNow turn IsValid }
    ensures step { result ≡ rule.locked_step lock cause turn hold }
    ensures counting { rule.count_of result.state ≡ 0 }
    ensures valid { IfSome result.report.announce IsValid }
{
    match turn {
        Turn::Now(utc) => announced(hold, utc, lock, cause),
        Turn::LeapGuard => stopped(Cause::LeapGuard),
        Turn::Expired => stopped(Cause::Expired),
        Turn::RangeEnd => stopped(Cause::RangeEnd),
        Turn::Jump => stopped(Cause::Jump),
    }
}

/// So many votes that followed one another, the last of which led here.
fn counted(reader_rules: ReaderRules, hold: Hold, count: u8) -> Step
    requires some { 0 < reader_rules.lock_after }
    requires counting { count ≤ reader_rules.lock_after }
    ensures step { result ≡ rule.count_step reader_rules hold count }
    ensures counting { rule.count_of result.state < reader_rules.lock_after }
    ensures valid { IfSome result.report.announce IsValid }
{
    if count == reader_rules.lock_after {
        let utc = hold.now();
        return announced(hold, utc, Lock::Locked, Cause::Voted);
    }
    Step {
        state: State::Acquiring(hold, count),
        report: Report {
            announce: None,
            lock: Lock::Acquiring(count),
            cause: Cause::Acquiring,
        },
    }
}

fn announced(hold: Hold, utc: UtcSecond, lock: Lock, cause: Cause) -> Step
    ensures { result ≡ rule.announce_step hold utc lock cause }
{
    Step {
        state: State::Locked(hold),
        report: Report {
            announce: Some(utc),
            lock,
            cause,
        },
    }
}

fn stopped(cause: Cause) -> Step
    ensures { result ≡ rule.stop_step cause }
{
    Step {
        state: State::Idle,
        report: Report {
            announce: None,
            lock: Lock::Unlocked,
            cause,
        },
    }
}
