//! The hold, its steps and its answers.

ghost use Rattle.std.specs.Prelude.{◌≡◌, ◌≤◌};
ghost use Rattle.irig_time.specs.Seconds.{IsValid};
ghost use Rattle.irig_time.specs.declared.second.TheConstants.{LAST_DAY};
ghost use Rattle.irig_time.specs.Tables.{spoken_mark};
ghost use Rattle.irig_hold.specs.Turns.{IfNow, OnStop};
ghost use Rattle.irig_hold.specs.Steps.{hold_value, hold_step, hold_start, mark_or, outcome_of, voted_by, alone_by};

use irig_time::{Claim, LAST_DAY, Leaps, Mark, UtcSecond, next};
use std::marker::Model;

/// What a hold answers: the second that it has come to, or why it stays.
#[derive(Clone, Copy, PartialEq, Eq)]
pub enum Turn {
    /// It has come to this second.
    Now(UtcSecond),
    /// A month ends, and nothing was said of a leap second there.
    LeapGuard,
    /// It has gone alone for as long as it may.
    Expired,
    /// The last day served, 2099-12-30, ends.
    RangeEnd,
    /// The vote is for another second.
    Jump,
}

/// A second that was reached by votes and by counting, how many seconds were counted alone since
/// the last vote, and what was heard of the leap at the end of that day.
///
/// The second is always a [`valid`](irig_time::valid) one.
#[derive(Drop, PartialEq, Eq)]
pub struct Hold {
    last: UtcSecond,
    age: u32,
    heard: Mark,
}

impl Model for Hold {
    ghost use Rattle.irig_time.specs.Seconds.{IsValid};
    ghost use Rattle.irig_hold.specs.Steps.{HoldValue, hold_value};

    ghost Value = { HoldValue };

    ghost view = { λ h. hold_value h.last h.age h.heard };

    ghost invariant = { λ h. IsValid h.last };

    ghost inverse = { λ c. record { last = c.last; age = c.age; heard = c.heard } };
}

impl Hold {
    /// The hold that begins with a claim of a [`valid`](irig_time::valid) second: it stands at the
    /// next one, by what the claim says of a leap or else the table.
    ///
    /// `LeapGuard` or `RangeEnd` if there is no next one.
    pub fn start<T: Leaps>(claim: Claim, table: &T) -> Result<Hold, Turn>
        requires { IsValid claim.at }
        ensures { result ≡ hold_start (T.says table.now) claim }
    {
        step(claim.at, 0, claim.mark, table)
    }

    /// One second on, with a vote for the second that it stands at.
    ///
    /// It keeps what the vote says of a leap, if it says something. `Jump` if the vote is for
    /// another second, then `LeapGuard` or `RangeEnd`; these leave it as it was.
    pub fn voted<T: Leaps>(&mut self, claim: Claim, table: &T) -> Turn
        ensures answer { result ≡ (voted_by (T.says table.now) self.old claim).answer }
        ensures new { self.new ≡ (voted_by (T.says table.now) self.old claim).new }
        ensures valid { IfNow result IsValid }
        ensures stays { OnStop result (self.new ≡ self.old) }
    {
        if claim.at != self.last {
            return Turn::Jump;
        }
        let heard = mark_or(claim.mark, self.heard);
        self.take(step(self.last, 0, heard, table))
    }

    /// One second on without a vote, if it has gone fewer than `limit` seconds alone.
    ///
    /// `Expired` if it has not, then `LeapGuard` or `RangeEnd`; these leave it as it was.
    pub fn alone<T: Leaps>(&mut self, limit: u32, table: &T) -> Turn
        ensures answer { result ≡ (alone_by (T.says table.now) self.old limit).answer }
        ensures new { self.new ≡ (alone_by (T.says table.now) self.old limit).new }
        ensures valid { IfNow result IsValid }
        ensures stays { OnStop result (self.new ≡ self.old) }
    {
        if self.age >= limit {
            return Turn::Expired;
        }
        self.take(step(self.last, self.age + 1, self.heard, table))
    }

    /// The hold that stands at this [`valid`](irig_time::valid) second, has gone `age` seconds
    /// alone, and heard this of the leap at the end of that day.
    pub fn of(last: UtcSecond, age: u32, heard: Mark) -> Hold
        requires { IsValid last }
        ensures { result ≡ hold_value last age heard }
    {
        Hold { last, age, heard }
    }

    /// What it heard of the leap at the end of its day.
    pub fn heard(&self) -> Mark
        ensures { result ≡ self.now.heard }
    {
        self.heard
    }

    /// The second that it stands at.
    pub fn now(&self) -> UtcSecond
        ensures second { result ≡ self.now.last }
        ensures valid { IsValid result }
    {
        self.last
    }

    /// How many seconds it has gone alone since the last vote.
    pub fn age(&self) -> u32
        ensures { result ≡ self.now.age }
    {
        self.age
    }

    fn take(&mut self, step: Result<Hold, Turn>) -> Turn
        ensures answer { result ≡ (outcome_of self.old step).answer }
        ensures new { self.new ≡ (outcome_of self.old step).new }
    {
        match step {
            Ok(next) => {
                let now = next.last;
                *self = next;
                Turn::Now(now)
            }
            Err(stop) => stop,
        }
    }
}

fn mark_or(mark: Mark, heard: Mark) -> Mark
    ensures { result ≡ mark_or mark heard }
{
    match mark {
        Mark::Unspoken => heard,
        _ => mark,
    }
}

fn step<T: Leaps>(from: UtcSecond, age: u32, heard: Mark, table: &T) -> Result<Hold, Turn>
    requires { IsValid from }
    ensures { result ≡ hold_step (T.says table.now) from age heard }
{
    // Before the last seconds of a day none that is left out or comes in is near.
    if from.sod < 86398 {
        let sod = from.sod + 1;
        let last = UtcSecond { day: from.day, sod };
        return Ok(Hold { last, age, heard });
    }
    match next(from, spoken(heard, table, from.day)) {
        Some(last) => Ok(Hold {
            last,
            age,
            // What was heard speaks of the end of its own day.
            heard: if from.day == last.day {
                heard
            } else {
                Mark::Unspoken
            },
        }),
        None if from.day == LAST_DAY => Err(Turn::RangeEnd),
        None => Err(Turn::LeapGuard),
    }
}

fn spoken<T: Leaps>(heard: Mark, table: &T, day: u32) -> Mark
    requires { day ≤ LAST_DAY }
    ensures { result ≡ spoken_mark (T.says table.now) heard day }
{
    match heard {
        Mark::Unspoken => table.mark(day),
        _ => heard,
    }
}
