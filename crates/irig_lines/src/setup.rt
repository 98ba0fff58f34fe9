//! A timekeeper's setup, and what is refused of it.

ghost use Rattle.std.specs.Prelude.{◌≡◌, ◌≤◌, ◌+◌, ◌-◌, ◌*◌};
ghost use Rattle.irig_lines.specs.Exactness.{most_quality_us, most_within_us};
ghost use Rattle.irig_lines.specs.Widths.{quality_us};
ghost use Rattle.irig_lines.specs.Refusals.{clock_fault, limits_of, within_of};
ghost use Rattle.irig_lines.specs.VoteLimits.{most_poor_from};

use crate::delay::Delays;
use crate::limits::VoteLimits;
use crate::within::Within;
use irig_port::Limits;
use irig_reader::ReaderRules;
use irig_vote::Redundancy;

/// The rules of a device's clock.
#[derive(Clone, Copy, PartialEq, Eq)]
pub struct ClockRules {
    /// When it locks, and how long it holds over.
    pub reader_rules: ReaderRules,
    /// How many lines it has.
    pub redundancy: Redundancy,
    /// How exact they are.
    pub within: Within,
    /// Which frames have a vote.
    pub limits: VoteLimits,
    /// How many microseconds a second the device's counter may be wrong, 0 to 100.
    pub drift_us: u32,
    /// How many nanoseconds a second the device's counter may come to run otherwise than votes show, over
    /// the holdover and 4,000 s, as by temperature. By 0 it learns nothing from votes.
    pub wander_ppb: u32,
    /// How late each of them is.
    pub delays: Delays,
    /// Whether its leap table yields to what frames say of a leap.
    pub prefers_frames: bool,
}

impl ClockRules {
    ghost use Rattle.irig_lines.specs.Widths.{half_us, quality_us, reach_us, widest_us, worst_of};

    /// How far in microseconds the edge of a frame of such a time quality lies from its end, if its line
    /// is true, but for the drift of an element: as far as lines are off, and as the quality says. One
    /// that has no vote counts as the worst that has.
    pub fn half_us(&self, quality: u8) -> u32
        ensures value { result ≡ half_us self.now quality }
        ensures most { result ≤ widest_us self.now }
    {
        self.within.us() - 1 + quality_us(quality.min(self.worst()))
    }

    /// How far two edges may lie apart that may be that of one frame.
    pub fn reach_us(&self) -> u32
        ensures value { result ≡ reach_us self.now }
        ensures most { result ≤ 2 * (most_within_us - 1 + most_quality_us) }
    {
        2 * (self.within.us() - 1 + quality_us(self.worst()))
    }

    // The worst time quality of a frame that has a vote.
    fn worst(&self) -> u8
        ensures { result ≡ worst_of self.now }
    {
        self.limits.limits.poor_from.saturating_sub(1)
    }
}

// How far off in microseconds a clock of such a time quality may be.
fn quality_us(quality: u8) -> u32
    ensures value { result ≡ quality_us quality }
    ensures most { result ≤ most_quality_us }
{
    match quality {
        0 => 0,
        1..=4 => 1,
        5 => 10,
        6 => 100,
        _ => 1_000,
    }
}

/// Why there is no timekeeper of such a setup, in the order in which faults are answered.
#[derive(Clone, Copy, PartialEq, Eq)]
pub enum ClockFault {
    /// The counter is more than 100 us a second wrong.
    Drift,
    /// The holdover is longer than a device can count that learns nothing: its counter could be half a
    /// second wrong by its end. The seconds of the holdover and two more, times the drift, are more than
    /// 490,000 us, and the setup has no `wander_ppb`.
    Holdover,
}

/// The first fault of a setup, by a counter that is at most `drift_us` us a second wrong. A device that
/// learns its counter, by a `wander_ppb`, may have any holdover: it ends by itself before the counter
/// could be half a second wrong.
pub fn clock_fault(rules: ReaderRules, drift_us: u32, wander_ppb: u32) -> Option<ClockFault>
    ensures { result ≡ clock_fault rules drift_us wander_ppb }
{
    if drift_us > 100 {
        return Some(ClockFault::Drift);
    }
    if wander_ppb == 0 && (u64::from(rules.holdover) + 2) * u64::from(drift_us) > 490_000 {
        return Some(ClockFault::Holdover);
    }
    None
}

/// Lines that are so exact, or as near that as a setup may say.
pub fn nearest_within(us: u32) -> Within
    ensures value { result ≡ within_of us }
    ensures same { 1 ≤ us → us ≤ most_within_us → result.us ≡ us }
{
    Within {
        us: us.clamp(1, 450),
    }
}

/// These limits, or the nearest that a timekeeper may have: of a `poor_from` above 8 with 8.
pub fn nearest_limits(limits: Limits) -> VoteLimits
    ensures value { result ≡ limits_of limits }
    ensures same { limits.poor_from ≤ most_poor_from → result.limits ≡ limits }
{
    VoteLimits {
        limits: Limits {
            not_before: limits.not_before,
            poor_from: limits.poor_from.min(8),
        },
    }
}
