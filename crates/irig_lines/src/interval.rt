//! The interval in which the true edge lies by all votes so far.

ghost use Rattle.std.specs.Prelude.{◌≡◌, ◌≤◌, ◌<◌, ◌*◌};
ghost use Rattle.irig_lines.specs.Exactness.{most_drift_us, most_held_us, most_vote_us};
ghost use Rattle.irig_lines.specs.Intervals.{IsShort, by_vote, carried, carried_on, common_from, common, cut, contradicts};

use crate::lines::Vote;

/// What is longer than this is forgotten.
pub(crate) const LONGEST_US: u32 = 980_000;

/// An interval of the device's counter, in microseconds.
#[derive(Clone, Copy, PartialEq, Eq)]
pub struct Interval {
    /// Where it begins.
    pub begin_us: u32,
    /// How long it is.
    pub long_us: u32,
}

/// The interval in which the edge lies by a vote.
pub fn by_vote(vote: Vote) -> Interval
    requires { vote.bound_us ≤ most_vote_us }
    ensures value { result ≡ by_vote vote }
    ensures few { result.long_us ≤ 2 * most_held_us }
{
    Interval {
        begin_us: vote.edge_us.wrapping_sub(vote.bound_us),
        long_us: 2 * vote.bound_us,
    }
}

/// The interval so many seconds later, unless it is too long to count by.
pub fn carried_on(drift_us: u32, seconds: u32, known: Option<Interval>) -> Option<Interval>
    requires steady { drift_us ≤ most_drift_us }
    requires few { seconds ≤ 4294 }
    requires short { IsShort known }
    ensures value { result ≡ carried_on drift_us seconds known }
    ensures short { IsShort result }
{
    let Some(interval) = known else {
        return None;
    };
    carried(drift_us, seconds, interval)
}

fn carried(drift_us: u32, seconds: u32, interval: Interval) -> Option<Interval>
    requires steady { drift_us ≤ most_drift_us }
    requires few { seconds ≤ 4294 }
    requires short { interval.long_us ≤ 2 * most_held_us }
    ensures value { result ≡ carried drift_us seconds interval }
    ensures short { IsShort result }
{
    let drift = seconds * drift_us;
    let long_us = interval.long_us + 2 * drift;
    if long_us > LONGEST_US {
        return None;
    }
    Some(Interval {
        begin_us: interval.begin_us.wrapping_add(seconds * 1_000_000 - drift),
        long_us,
    })
}

fn common_from(gap_us: u32, first: Interval, second: Interval) -> Option<Interval>
    ensures { result ≡ common_from gap_us first second }
{
    if gap_us <= first.long_us {
        Some(Interval {
            begin_us: second.begin_us,
            long_us: (first.long_us - gap_us).min(second.long_us),
        })
    } else {
        None
    }
}

fn common(x: Interval, y: Interval) -> Option<Interval>
    ensures { result ≡ common x y }
{
    let gap_us = y.begin_us.wrapping_sub(x.begin_us);
    if gap_us < 1 << 31 {
        common_from(gap_us, x, y)
    } else {
        common_from(x.begin_us.wrapping_sub(y.begin_us), y, x)
    }
}

/// The interval of a vote, cut by what was known, unless nothing is common to them.
pub fn cut(known: Option<Interval>, voted: Interval) -> Interval
    ensures { result ≡ cut known voted }
{
    match known {
        Some(interval) => match common(interval, voted) {
            Some(both) => both,
            None => voted,
        },
        None => voted,
    }
}

/// Whether nothing is common to what was known and a vote.
pub fn contradicts(known: Option<Interval>, voted: Interval) -> bool
    ensures { result ≡ contradicts known voted }
{
    match known {
        Some(interval) => common(interval, voted).is_none(),
        None => false,
    }
}
