//! The zones of a clock.

ghost use Rattle.std.specs.Prelude.{◌≡◌, ◌≤◌, ◌<◌, ◌+◌, ◌*◌, true, length};
ghost use Rattle.std.specs.List.{list_all};
ghost use Rattle.std.specs.List.Sorted.{IsPartitionPoint};
ghost use Rattle.irig_time.specs.Seconds.{minute_number, minute_of};
ghost use Rattle.irig_gen.specs.Zones.{all_fit, fits, in_order, is_change_time, zone_at};

use irig_time::{FIRST_DAY, LAST_DAY, UtcSecond};

/// How far a clock is ahead of UTC, and whether that is daylight saving.
#[derive(Clone, Copy, PartialEq, Eq)]
pub struct Zone {
    /// Half hours ahead of UTC, daylight saving included; -31 to 31 in a generator.
    pub half_hours: i8,
    /// Whether daylight saving is in force.
    pub dst: bool,
}

/// A new zone from a second on.
#[derive(Clone, Copy, PartialEq, Eq)]
pub struct Change {
    /// The first second of the new zone, which in a generator begins a UTC minute.
    pub at: UtcSecond,
    /// The zone from then on.
    pub zone: Zone,
}

pub(crate) fn all_fit(zone: &Zone, changes: &[Change]) -> bool
    ensures { result ≡ all_fit zone.now changes.now }
{
    fits(zone) && changes_fit(changes)
}

fn changes_fit(changes: &[Change]) -> bool
    ensures { result ≡ list_all (λ x. fits x.zone) changes.now }
{
    changes.iter().all(|change| change_fits(change))
}

fn change_fits(change: &Change) -> bool
    ensures { result ≡ fits change.now.zone }
{
    fits(&change.zone)
}

fn fits(zone: &Zone) -> bool
    ensures { result ≡ fits zone.now }
{
    zone.half_hours.unsigned_abs() <= 31
}

/// Whether each change is at the first second of a minute, of a day that is served, and later than
/// the one before.
pub(crate) fn in_order(changes: &[Change]) -> bool
    ensures { result ≡ in_order 0 changes.now }
{
    let mut before = 0;
    for change in changes {
        if !is_change_time(&change.at) {
            return false;
        }
        let minute = minute_number(change.at);
        if minute <= before {
            return false;
        }
        before = minute;
    }
    true
}

/// Whether a zone may change at a second: the first of a minute, of a day that is served.
pub fn is_change_time(at: &UtcSecond) -> bool
    ensures { result ≡ is_change_time at.now }
{
    (at.day >= FIRST_DAY && at.day <= LAST_DAY) && (at.sod < 86400 && at.sod % 60 == 0)
}

/// The zone of the last change that has come, else the first one.
pub(crate) fn zone_at(first: Zone, changes: &[Change], utc: &UtcSecond) -> Zone
    requires { in_order 0 changes.now ≡ true }
    ensures { result ≡ zone_at first changes.now utc.now }
{
    match count_come(changes, minute_at(utc)).checked_sub(1) {
        Some(last) => changes[last].zone,
        None => first,
    }
}

/// How many changes have come in a minute.
pub(crate) fn count_come(changes: &[Change], minute: u64) -> usize
    requires { in_order 0 changes.now ≡ true }
    ensures within { result ≤ length changes.now }
    ensures point { IsPartitionPoint (λ x. minute_number x.at ≤ minute)
        (λ x. minute < minute_number x.at) changes.now result }
{
    changes.partition_point(|change| minute_number(change.at) <= minute)
}

/// The minute of UTC, counted from 2000-01-01, in which the second lies.
pub(crate) fn minute_at(utc: &UtcSecond) -> u64
    ensures { result ≡ utc.now.day * 1440 + minute_of utc.now }
{
    u64::from(utc.day) * 1440 + u64::from(utc.minute_of_day())
}

/// The minute of UTC, counted from 2000-01-01, that begins with a change at this second.
pub fn minute_number(at: UtcSecond) -> u64
    ensures { result ≡ minute_number at }
{
    u64::from(at.day) * 1440 + u64::from(at.sod / 60)
}
