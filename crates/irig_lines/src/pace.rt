//! How long the next seconds are by the device's own counter, as votes have taught it.

ghost use Rattle.std.specs.Prelude.{◌≡◌, ◌≤◌, ◌+◌, ◌-◌, ◌*◌};
ghost use Rattle.irig_lines.specs.Exactness.{most_drift_us, most_held_us};
ghost use Rattle.irig_lines.specs.Intervals.{IsShort};
ghost use Rattle.irig_lines.specs.Paces.{IsFit, IsSound, ahead_us, edge_on, carried_by, grown_us, is_fit, is_spent, learned, learned_by, longest_us, middle_of, pace_on, paced, rest_on, shortest_us, spread_of};

use crate::interval::{Interval, LONGEST_US, carried_on};
use crate::rate::Rate;
use crate::setup::ClockRules;

/// A device learns by the mean of so many seconds at least.
const LEARN_S: u32 = 1_000;

/// The shortest and the longest second by a counter.
const SHORTEST_NS: u64 = 999_900_000;

const LONGEST_NS: u64 = 1_000_100_000;

/// How far off an edge may lie that is held, beside what that of its last vote may.
const MOST_HELD_US: u64 = 490_000;

/// What a device has learned of its counter.
#[derive(Clone, Copy, PartialEq, Eq)]
pub struct Pace {
    /// How long each of the next seconds is by it, in nanoseconds: 999,900,000 to 1,000,100,000.
    pub second_ns: u32,
    /// How much longer or shorter than that one may be, at most 99,000 ns.
    pub within_ns: u32,
    /// How far behind its microsecond the last edge lies that was counted, at most 999 ns.
    pub rest_ns: u32,
}

/// What is learned by what was measured. None if the setup has no `wander_ppb`, by the mean of less
/// than 1,000 s, if that is not sharper by 1 us a second
/// than the setup's drift, and if a counter cannot run so.
pub fn learned(rules: &ClockRules, rate: Option<Rate>) -> Option<Pace>
    requires steady { rules.now.drift_us ≤ most_drift_us }
    ensures value { result ≡ learned rules.now rate }
    ensures sound { IsSound result }
{
    match rate {
        Some(rate) => learned_by(rules, rate),
        None => None,
    }
}

fn learned_by(rules: &ClockRules, rate: Rate) -> Option<Pace>
    requires steady { rules.now.drift_us ≤ most_drift_us }
    ensures value { result ≡ learned_by rules.now rate }
    ensures sound { IsSound result }
{
    if rules.wander_ppb == 0 || rate.seconds < LEARN_S {
        return None;
    }
    let second_ns = middle_of(rate);
    let within_ns = spread_of(rules.wander_ppb, rate);
    if !is_fit(rules.drift_us, second_ns, within_ns) {
        return None;
    }
    Some(Pace {
        second_ns: second_ns as u32,
        within_ns: within_ns as u32,
        rest_ns: 0,
    })
}

// The middle of the least and the most.
fn middle_of(rate: Rate) -> u64
    ensures { result ≡ middle_of rate }
{
    (u64::from(rate.least_ns) + u64::from(rate.most_ns)) / 2
}

// How far from it a second may lie: the mean may lie half of what is between, the second as far from
// the mean as the setup says, and 1 ns comes of the whole microseconds of the counter.
fn spread_of(wander_ppb: u32, rate: Rate) -> u64
    ensures { result ≡ spread_of wander_ppb rate }
{
    let between = u64::from(rate.most_ns.saturating_sub(rate.least_ns));
    (between + 1) / 2 + (u64::from(wander_ppb) + 1)
}

fn is_fit(drift_us: u32, second_ns: u64, within_ns: u64) -> bool
    requires within { within_ns ≤ 8589934592 }
    ensures value { result ≡ is_fit drift_us second_ns within_ns }
{
    within_ns + 1_000 <= 1_000 * u64::from(drift_us)
        && SHORTEST_NS <= second_ns
        && second_ns <= LONGEST_NS
}

// How far behind the last edge one lies that is counted so many seconds later, in microseconds.
fn ahead_us(pace: Option<Pace>, seconds: u32) -> u32
    requires few { seconds ≤ 4294 }
    requires sound { IsSound pace }
    ensures { result ≡ ahead_us pace seconds }
{
    match pace {
        None => seconds * 1_000_000,
        Some(pace) => {
            let behind_ns = u64::from(pace.rest_ns)
                + u64::from(seconds) * u64::from(pace.second_ns);
            (behind_ns / 1_000) as u32
        }
    }
}

/// The edge so many seconds behind another by the own counter.
pub fn edge_on(pace: Option<Pace>, edge_us: u32, seconds: u32) -> u32
    requires few { seconds ≤ 4294 }
    requires sound { IsSound pace }
    ensures { result ≡ edge_on pace edge_us seconds }
{
    edge_us.wrapping_add(ahead_us(pace, seconds))
}

/// What serves behind that edge: nothing, if the holdover does not go on.
pub fn pace_on(goes_on: bool, seconds: u32, pace: Option<Pace>) -> Option<Pace>
    requires sound { IsSound pace }
    ensures value { result ≡ pace_on goes_on seconds pace }
    ensures sound { IsSound result }
{
    match pace {
        Some(pace) if goes_on => Some(rest_on(seconds, pace)),
        _ => None,
    }
}

fn rest_on(seconds: u32, pace: Pace) -> Pace
    requires { IsFit pace }
    ensures value { result ≡ rest_on seconds pace }
    ensures fit { IsFit result }
{
    let behind_ns = u64::from(pace.rest_ns) + u64::from(seconds) * u64::from(pace.second_ns);
    Pace {
        rest_ns: (behind_ns % 1_000) as u32,
        ..pace
    }
}

// How long the next second is at least, and how much longer it may be, in microseconds.
fn span_us(pace: Pace) -> (u32, u32)
    requires { IsFit pace }
    ensures least { result.0 ≡ shortest_us pace }
    ensures more { result.1 ≡ longest_us pace - shortest_us pace }
    ensures few { result.1 ≤ 5295068 }
{
    let least = pace.second_ns.saturating_sub(pace.within_ns) / 1_000;
    let most = (u64::from(pace.second_ns) + u64::from(pace.within_ns) + 999) / 1_000;
    (least, (most as u32).saturating_sub(least))
}

// The interval one second later, unless it is too long to count by.
fn paced(pace: Pace, interval: Interval) -> Option<Interval>
    requires fit { IsFit pace }
    requires short { interval.long_us ≤ 2 * most_held_us }
    ensures value { result ≡ paced pace interval }
    ensures short { IsShort result }
{
    let (least, more) = span_us(pace);
    let long_us = interval.long_us + more;
    if long_us > LONGEST_US {
        return None;
    }
    Some(Interval {
        begin_us: interval.begin_us.wrapping_add(least),
        long_us,
    })
}

/// The interval so many seconds later, at a vote, unless it is too long to count by: one second later by
/// what was learned, if anything was.
pub fn carried_by(
    drift_us: u32,
    pace: Option<Pace>,
    seconds: u32,
    known: Option<Interval>,
) -> Option<Interval>
    requires steady { drift_us ≤ most_drift_us }
    requires sound { IsSound pace }
    requires few { seconds ≤ 4294 }
    requires short { IsShort known }
    ensures value { result ≡ carried_by drift_us pace seconds known }
    ensures short { IsShort result }
{
    match (pace, known) {
        (Some(pace), Some(interval)) if seconds == 1 => paced(pace, interval),
        _ => carried_on(drift_us, seconds, known),
    }
}

/// How much further off than that of the last vote an edge may lie that is counted so many seconds
/// later, in microseconds.
pub fn grown_us(drift_us: u32, pace: Option<Pace>, seconds: u32) -> u64
    requires steady { drift_us ≤ most_drift_us }
    ensures value { result ≡ grown_us drift_us pace seconds }
    ensures few { result ≤ 4294967295 * most_drift_us }
{
    let drift = u64::from(seconds) * u64::from(drift_us);
    match pace {
        None => drift,
        Some(pace) => drift.min((u64::from(seconds) * u64::from(pace.within_ns) + 1_999) / 1_000),
    }
}

/// Whether a holdover has to end, before so many seconds more are counted behind so many without a
/// vote: an edge could lie more than 490 ms off.
pub fn is_spent(drift_us: u32, pace: Option<Pace>, age: u32, seconds: u32) -> bool
    requires steady { drift_us ≤ most_drift_us }
    ensures { result ≡ is_spent drift_us pace age seconds }
{
    grown_us(drift_us, pace, age) + u64::from(seconds) * u64::from(drift_us) > MOST_HELD_US
}
