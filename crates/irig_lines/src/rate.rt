//! How long a second is by the device's own counter, by two intervals in which true edges lie.

ghost use Rattle.std.specs.Prelude.{◌≡◌, ◌≤◌};
ghost use Rattle.irig_lines.specs.Rates.{aged, anchors_on, anchors_cut, serving, at_most_u32, mean_since, rate_of};

use crate::interval::Interval;

/// An anchor that is older is dropped, so that the counter has not come half round since.
const OLDEST_S: u32 = 2_000;

/// A young anchor that is so old becomes the old one.
const RENEWED_S: u32 = 1_000;

/// The interval in which the true edge of a voted second lay, and how many seconds were counted
/// since.
#[derive(Clone, Copy)]
pub struct Anchor {
    /// Where it begins, by the device's counter in microseconds.
    pub begin_us: u32,
    /// How long it is, in microseconds, at most 980,000.
    pub long_us: u32,
    /// The seconds since, at most 2,000.
    pub seconds: u32,
}

/// The anchors from which the mean length of a second is measured.
#[derive(Clone, Copy)]
pub struct Anchors {
    /// The one that serves, if there is one: of 1,000 seconds ago or more.
    pub old: Option<Anchor>,
    /// The one that takes its place, and serves as long as there is no old one.
    pub young: Option<Anchor>,
}

/// Nothing to measure from.
pub const NO_ANCHORS: Anchors = Anchors {
    old: None,
    young: None,
};

/// How long seconds were by the device's counter: the mean of the last so many, which were counted,
/// lies between the least and the most. It is 1,000,000,000 by a perfect counter, and 1,000,037,000
/// by one that is 37 ppm fast.
#[derive(Clone, Copy)]
pub struct Rate {
    /// Of how many seconds it is the mean, 1 to 2,000.
    pub seconds: u32,
    /// What it is at least, in nanoseconds of the counter.
    pub least_ns: u32,
    /// What it is at most, in nanoseconds of the counter.
    pub most_ns: u32,
}

/// The anchors so many seconds later: there is none if nothing is known of the edge any more.
pub fn anchors_on(seconds: u32, known: Option<Interval>, anchors: Anchors) -> Anchors
    ensures { result ≡ anchors_on seconds known anchors }
{
    match known {
        None => NO_ANCHORS,
        Some(_) => Anchors {
            old: aged(seconds, anchors.old),
            young: aged(seconds, anchors.young),
        },
    }
}

fn aged(seconds: u32, anchor: Option<Anchor>) -> Option<Anchor>
    ensures { result ≡ aged seconds anchor }
{
    let Some(anchor) = anchor else {
        return None;
    };
    let seconds = anchor.seconds.saturating_add(seconds);
    if seconds > OLDEST_S {
        return None;
    }
    Some(Anchor { seconds, ..anchor })
}

/// The anchors behind a vote that leaves this interval: the young one becomes the old one once it is
/// 1,000 s old, and the interval the young one.
pub fn anchors_cut(interval: Interval, anchors: Anchors) -> Anchors
    ensures { result ≡ anchors_cut interval anchors }
{
    match anchors.young {
        Some(young) if young.seconds < RENEWED_S => anchors,
        young => Anchors {
            old: young,
            young: Some(Anchor {
                begin_us: interval.begin_us,
                long_us: interval.long_us,
                seconds: 0,
            }),
        },
    }
}

/// How long seconds were from an anchor to the edge that was counted last. None without an interval or
/// an anchor, or if no second was counted since.
pub fn rate_of(known: Option<Interval>, anchors: Anchors) -> Option<Rate>
    ensures { result ≡ rate_of known (serving anchors) }
{
    match (known, serving(anchors)) {
        (Some(interval), Some(anchor)) if anchor.seconds > 0 => Some(mean_since(anchor, interval)),
        _ => None,
    }
}

// The old one, if there is one.
fn serving(anchors: Anchors) -> Option<Anchor>
    ensures { result ≡ serving anchors }
{
    match anchors.old {
        Some(old) => Some(old),
        None => anchors.young,
    }
}

fn mean_since(anchor: Anchor, interval: Interval) -> Rate
    requires { 1 ≤ anchor.seconds }
    ensures { result ≡ mean_since anchor interval }
{
    let gap_us = u64::from(interval.begin_us.wrapping_sub(anchor.begin_us));
    let seconds = u64::from(anchor.seconds);
    let least_us = gap_us.saturating_sub(u64::from(anchor.long_us));
    let most_us = gap_us + u64::from(interval.long_us);
    Rate {
        seconds: anchor.seconds,
        least_ns: at_most_u32(1_000 * least_us / seconds),
        most_ns: at_most_u32((1_000 * most_us).div_ceil(seconds)),
    }
}

fn at_most_u32(number: u64) -> u32
    ensures { result ≡ at_most_u32 number }
{
    number.min(u64::from(u32::MAX)) as u32
}
