//! The days of a timeline in stretches, each of which ends with the day of a leap, so that a second
//! and a day's leap are found by a binary search.

ghost use Rattle.std.specs.Prelude.{◌≡◌, ◌≤◌, ◌<◌, ◌-◌, [], None, IfOk, MatchOption, length, slice_index_or};
ghost use Rattle.irig_time.specs.TimelineFaults.{first_leap_fault};
ghost use Rattle.irig_time.specs.Stretches.{IsIndex, IsNextLeap, HasNoLeapFrom, IsRising, Holds, comes_before};
ghost use Rattle.irig_time.specs.Timelines.{TimelineValue, leap_of};
ghost use Rattle.irig_time.specs.declared.second.TheConstants.{LAST_DAY};

use crate::leap::{Leap, length_with};
use crate::second::LAST_DAY;
use std::alloc::{AllocError, Global};

/// The beginning of a stretch: of the days up to the next one, the last alone has a leap.
#[derive(Clone, Copy)]
pub struct Stretch {
    /// The seconds from the beginning of the timeline's first day to the beginning of this one.
    pub seconds: u64,
    /// Its first day.
    pub day: u32,
    /// The leap that ends the stretch before, if there is one.
    pub leap: Option<Leap>,
}

pub(crate) fn stretches_from(
    alloc: Global,
    first: u32,
    leaps: &[(u32, Leap)],
) -> Result<Vec<Stretch>, AllocError>
    requires sound { first_leap_fault [] leaps.now ≡ None }
    requires served { first ≤ LAST_DAY }
    ensures { IfOk result (λ stretches. IsIndex leaps.now first stretches.items) }
{
    let mut stretches = Vec::new(alloc);
    let mut here = Stretch {
        day: first,
        seconds: 0,
        leap: None,
    };
    while let Some((day, leap)) = next_leap(leaps, here.day) {
        stretches.push(here)?;
        let whole_days = u64::from(day - here.day) * 86400;
        here = Stretch {
            day: day + 1,
            seconds: here.seconds + whole_days + u64::from(length_with(Some(leap))),
            leap: Some(leap),
        };
    }
    stretches.push(here)?;
    Ok(stretches)
}

fn next_leap(leaps: &[(u32, Leap)], from: u32) -> Option<(u32, Leap)>
    requires { first_leap_fault [] leaps.now ≡ None }
    ensures { MatchOption result (HasNoLeapFrom leaps.now from) (IsNextLeap leaps.now from) }
{
    let mut next: Option<(u32, Leap)> = None;
    for leap in leaps {
        if leap.0 >= from && is_earlier(leap.0, next) {
            next = Some(*leap);
        }
    }
    next
}

fn is_earlier(day: u32, leap: Option<(u32, Leap)>) -> bool
    ensures { result ≡ comes_before day leap }
{
    match leap {
        Some((at, _)) => day < at,
        None => true,
    }
}

/// The stretch in which so many seconds have passed since the beginning of the first day, and its
/// last day: the one after the last day served, if no leap ends it.
pub(crate) fn stretch_at(stretches: &[Stretch], total: u64) -> (Stretch, u32)
    requires { IsRising stretches.now }
    ensures { (t : TimelineValue) → IsIndex t.leaps t.start.day stretches.now
        → Holds t total result.0 result.1 }
{
    let begun = begun(stretches, total);
    let last = match stretches.get(begun) {
        Some(next) => next.day - 1,
        None => LAST_DAY + 1,
    };
    (stretches[begun - 1], last)
}

/// How many stretches have begun once so many seconds have passed since the beginning of the
/// first.
fn begun(stretches: &[Stretch], total: u64) -> usize
    requires { IsRising stretches.now }
    ensures some { 0 < result }
    ensures within { result ≤ length stretches.now }
    ensures last { (d : Stretch)
        → (slice_index_or stretches.now (result - 1) d).seconds ≤ total }
    ensures next { (d : Stretch) → result < length stretches.now
        → total < (slice_index_or stretches.now result d).seconds }
{
    let (low, high) = window(stretches, total);
    low + stretches[low..high].partition_point(|stretch| stretch.seconds <= total)
}

/// The places among which the search may stay: if leaps come evenly, a few about a guess, else
/// all.
fn window(stretches: &[Stretch], total: u64) -> (usize, usize)
    requires { IsRising stretches.now }
    ensures some { result.0 < result.1 }
    ensures within { result.1 ≤ length stretches.now }
    ensures low { (d : Stretch) → (slice_index_or stretches.now result.0 d).seconds ≤ total }
    ensures high { (d : Stretch) → result.1 < length stretches.now
        → total < (slice_index_or stretches.now result.1 d).seconds }
{
    // A guess costs a division, and a search in so few places costs no more.
    if stretches.len() < 16 {
        return (0, stretches.len());
    }
    let low = guess(stretches, total).saturating_sub(2);
    let high = low.saturating_add(4);
    match (stretches.get(low), stretches.get(high)) {
        (Some(first), Some(past)) if first.seconds <= total && total < past.seconds => (low, high),
        _ => (0, stretches.len()),
    }
}

// By a proportion; no clause rests on it.
fn guess(stretches: &[Stretch], total: u64) -> usize {
    match stretches.last() {
        Some(last) => {
            (total.saturating_mul(stretches.len() as u64) / last.seconds.max(1)) as usize
        }
        None => 0,
    }
}

/// The leap at the end of a day from the first one on.
pub(crate) fn leap_in(stretches: &[Stretch], day: u32) -> Option<Leap>
    requires { IsRising stretches.now }
    ensures { (t : TimelineValue) → IsIndex t.leaps t.start.day stretches.now
        → t.start.day ≤ day → result ≡ leap_of t.leaps day }
{
    let next = stretches.get(begun_on(stretches, day))?;
    if next.day - day == 1 { next.leap } else { None }
}

/// How many stretches have begun on a day.
fn begun_on(stretches: &[Stretch], day: u32) -> usize
    requires { IsRising stretches.now }
    ensures within { result ≤ length stretches.now }
    ensures last { (d : Stretch) → 0 < result
        → (slice_index_or stretches.now (result - 1) d).day ≤ day }
    ensures next { (d : Stretch) → result < length stretches.now
        → day < (slice_index_or stretches.now result d).day }
{
    stretches.partition_point(|stretch| stretch.day <= day)
}
