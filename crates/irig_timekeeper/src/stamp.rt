//! Stamps of events, by the seconds that were announced last.

ghost use Rattle.std.specs.Prelude.{◌≡◌, IfSome};
ghost use Rattle.irig_time.specs.Seconds.{IsValid};
ghost use Rattle.irig_timekeeper.specs.Stamps.{next_us, stamp_by, stamp_of};

use irig_time::UtcSecond;

/// A second that was announced.
#[derive(Clone, Copy, PartialEq, Eq)]
pub struct Announced {
    /// The second.
    pub second: UtcSecond,
    /// The local time at which it begins.
    pub edge_us: u32,
    /// How far from its true edge that may lie, at most 492,899 us.
    pub bound_us: u32,
}

/// The time of an event.
#[derive(Clone, Copy, PartialEq, Eq)]
pub struct Stamp {
    /// The UTC second that had begun.
    pub second: UtcSecond,
    /// How long before the event it began, in microseconds of the device's counter.
    pub offset_us: u32,
    /// How far from the true instant the two may lie, in microseconds.
    pub bound_us: u32,
}

/// The stamp of an event by a second that was announced, if the event lies behind its edge, by a
/// second and the error of the edge at most, or before the next edge that was announced. That lies so
/// far behind its own, 0 if there is none; behind a second and a half there is another between.
fn stamp_by(announced: Option<Announced>, next_us: u32, time_us: u32) -> Option<Stamp>
    ensures value { result ≡ stamp_by announced next_us time_us }
    ensures valid { IfSome announced (λ a. IsValid a.second)
        → IfSome result (λ stamp. IsValid stamp.second) }
{
    let Some(announced) = announced else {
        return None;
    };
    let offset_us = time_us.wrapping_sub(announced.edge_us);
    if u64::from(offset_us) <= 1_000_000 + u64::from(announced.bound_us)
        || (offset_us < next_us && next_us < 1_500_000)
    {
        Some(Stamp {
            second: announced.second,
            offset_us,
            bound_us: announced.bound_us,
        })
    } else {
        None
    }
}

// How far the last edge lies behind the one before.
fn next_us(last: Option<Announced>, before: Option<Announced>) -> u32
    ensures { result ≡ next_us last before }
{
    match (last, before) {
        (Some(last), Some(before)) => last.edge_us.wrapping_sub(before.edge_us),
        _ => 0,
    }
}

/// The stamp of an event by the second that was announced last, else by the one before.
pub fn stamp_of(last: Option<Announced>, before: Option<Announced>, time_us: u32) -> Option<Stamp>
    ensures value { result ≡ stamp_of last before time_us }
    ensures valid { IfSome last (λ a. IsValid a.second) → IfSome before (λ a. IsValid a.second)
        → IfSome result (λ stamp. IsValid stamp.second) }
{
    if let Some(stamp) = stamp_by(last, 0, time_us) {
        return Some(stamp);
    }
    stamp_by(before, next_us(last, before), time_us)
}
