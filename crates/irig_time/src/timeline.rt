//! The seconds that follow a start.

ghost use Rattle.std.specs.Prelude.{◌≡◌, ◌↔◌, ◌≤◌, ◌<◌, ◌+◌, ◌^◌, [], ℕ, IfSome, Some, None, unwrap_or, MatchResult};
ghost use Rattle.irig_time.specs.declared.second.TheConstants.{LAST_DAY};
ghost use Rattle.irig_time.specs.Seconds.{IsValid};
ghost use Rattle.irig_time.specs.Timelines.{TimelineValue, leap_of, times, IsSecond, IsTrueClaim, second_at, truth_at, true_mark};
ghost use Rattle.irig_time.specs.TimelineFaults.{first_leap_fault, leap_fault, start_fault, timeline_fault, IsTimeline};

use crate::calendar::month_end;
use crate::claim::Claim;
use crate::leap::{Leap, leap_on, length_with};
use crate::mark::Mark;
use crate::second::{FIRST_DAY, LAST_DAY, UtcSecond};
use crate::stretches::{Stretch, leap_in, stretch_at, stretches_from};
use std::alloc::Global;
use std::marker::Model;

/// Why there is no such timeline, in the order in which faults are answered.
#[derive(Clone, Copy, PartialEq, Eq)]
pub enum TimelineFault {
    /// The start's day is outside [`FIRST_DAY`] to [`LAST_DAY`], or its second is none of that
    /// day's.
    BadStart,
    /// A leap's day is not a month's last.
    LeapNotMonthEnd,
    /// A leap's day stands earlier in the list.
    LeapTwice,
    /// A leap's day is outside [`FIRST_DAY`] to [`LAST_DAY`].
    OutOfYears,
    /// There was no memory.
    Memory,
}

/// A start, and the leaps of UTC (ITU-R TF.460): what the n-th second after the start is.
#[derive(Drop)]
pub struct Timeline {
    start: UtcSecond,
    leaps: Vec<(u32, Leap)>,
    stretches: Vec<Stretch>,
}

impl Model for Timeline {
    ghost use Rattle.irig_time.specs.Timelines.{TimelineValue, times};
    ghost use Rattle.irig_time.specs.Stretches.{IsIndexed};

    ghost Value = { TimelineValue };

    ghost view = { λ t. times t.start t.leaps.items };

    ghost invariant = { λ t. IsIndexed (times t.start t.leaps.items) t.stretches.items };
}

impl Timeline {
    /// The timeline with this start and these leaps, each with its day.
    ///
    /// For each leap in the list's order `OutOfYears`, `LeapNotMonthEnd` and `LeapTwice`; then
    /// `BadStart`; then `Memory`.
    pub fn new(
        alloc: Global,
        start: UtcSecond,
        leaps: &[(u32, Leap)],
    ) -> Result<Timeline, TimelineFault>
        ensures { MatchResult result
            (λ t. (timeline_fault start leaps.now ≡ None) × (t ≡ times start leaps.now))
            (λ e. e ≡ unwrap_or (timeline_fault start leaps.now) TimelineFault.Memory) }
    {
        if let Some(fault) = first_leap_fault(leaps) {
            return Err(fault);
        }
        if let Some(fault) = start_fault(leaps, start) {
            return Err(fault);
        }
        let Ok(stretches) = stretches_from(alloc, start.day, leaps) else {
            return Err(TimelineFault::Memory);
        };
        match Vec::from_slice(alloc, leaps) {
            Ok(leaps) => Ok(Timeline {
                start,
                leaps,
                stretches,
            }),
            Err(_) => Err(TimelineFault::Memory),
        }
    }

    /// The leap at the end of the day.
    pub fn leap(&self, day: u32) -> Option<Leap>
        ensures { result ≡ leap_of self.now.leaps day }
    {
        if day < self.start.day {
            leap_on(&self.leaps, day)
        } else {
            leap_in(&self.stretches, day)
        }
    }

    /// The `number`-th second, the start being second 0; none past [`LAST_DAY`].
    pub fn at(&self, number: u64) -> Option<UtcSecond>
        ensures sound { IsTimeline self.now }
        ensures second { (u : UtcSecond) → (result ≡ Some u) ↔ IsSecond self.now number u }
        ensures valid { IfSome result IsValid }
        ensures value { result ≡ second_at self.now number }
        // there is none from 2^32 on
        ensures early { IfSome result (λ u. number < 2 ^ 32) }
    {
        let total = u64::from(self.start.sod).checked_add(number)?;
        let (stretch, last) = stretch_at(&self.stretches, total);
        let rest = total - stretch.seconds;
        let days = (rest / 86400).min(u64::from(last - stretch.day));
        let day = stretch.day + days as u32;
        if day > LAST_DAY {
            return None;
        }
        Some(UtcSecond {
            day,
            sod: (rest - days * 86400) as u32,
        })
    }

    /// What a true frame of the `number`-th second claims.
    pub fn truth(&self, number: u64) -> Option<Claim>
        ensures claim { (c : Claim)
            → (result ≡ Some c) ↔ IsTrueClaim self.now (number + 1) c }
        ensures value { result ≡ truth_at self.now number }
        ensures early { IfSome result (λ c. number < 2 ^ 32) }
    {
        let at = self.at(number)?;
        let mark = self.true_mark(at);
        Some(Claim { at, mark })
    }

    fn true_mark(&self, utc: UtcSecond) -> Mark
        requires { utc.day ≤ LAST_DAY }
        ensures { result ≡ true_mark self.now.leaps utc }
    {
        if utc.sod < 86341 {
            return Mark::Unspoken;
        }
        if utc.sod >= 86400 {
            return Mark::Unspoken;
        }
        if month_end(utc.day) {
            Mark::from(self.leap(utc.day))
        } else {
            Mark::Unspoken
        }
    }
}

fn first_leap_fault(leaps: &[(u32, Leap)]) -> Option<TimelineFault>
    ensures { result ≡ first_leap_fault [] leaps.now }
{
    for i in 0..leaps.len() {
        if let Some(fault) = leap_fault(&leaps[..i], leaps[i].0) {
            return Some(fault);
        }
    }
    None
}

/// What is wrong with the day of a timeline's leap, behind these: `OutOfYears` if it is outside the
/// days served, `LeapNotMonthEnd` if it is not a month's last, `LeapTwice` if one of them has it.
// Each test by itself, as in the definition.
pub fn leap_fault(before: &[(u32, Leap)], day: u32) -> Option<TimelineFault>
    ensures { result ≡ leap_fault before.now day }
{
    if day < FIRST_DAY {
        return Some(TimelineFault::OutOfYears);
    }
    if day > LAST_DAY {
        return Some(TimelineFault::OutOfYears);
    }
    if !month_end(day) {
        return Some(TimelineFault::LeapNotMonthEnd);
    }
    if leap_on(before, day).is_some() {
        Some(TimelineFault::LeapTwice)
    } else {
        None
    }
}

fn start_fault(leaps: &[(u32, Leap)], start: UtcSecond) -> Option<TimelineFault>
    ensures { result ≡ start_fault leaps.now start }
{
    if start.day < FIRST_DAY {
        return Some(TimelineFault::BadStart);
    }
    if start.day > LAST_DAY {
        return Some(TimelineFault::BadStart);
    }
    if start.sod < length_with(leap_on(leaps, start.day)) {
        None
    } else {
        Some(TimelineFault::BadStart)
    }
}
