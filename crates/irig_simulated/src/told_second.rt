//! What a simulated device told of a second.

ghost use Rattle.std.specs.Prelude.{◌≡◌, ◌≤◌, ◌<◌, ◌^◌};
ghost use Rattle.irig_wires.specs.Oscillator.{rate_of};
ghost use Rattle.irig_simulated.specs.Courses.{told_count_of, told_second};

use irig_timekeeper::Beat;
use irig_wires::Oscillator;

// A turn of a counter of 32 bits.
const TURN: u64 = 1 << 32;

/// A second that a device told, beside the true edge to which its own lies nearest.
#[derive(Clone, Copy, PartialEq, Eq)]
pub struct ToldSecond {
    /// The number of that edge.
    pub edge: u64,
    /// What the device's counter shows there, if it does not wrap.
    pub edge_count: u64,
    /// What it shows where the device says that the second begins.
    pub told_count: u64,
    /// What the device said.
    pub beat: Beat,
}

// What a tick told at which the counter shows `now`.
pub(crate) fn told_second(oscillator: Oscillator, now: u64, beat: Beat) -> ToldSecond
    requires turned { 2 ^ 32 ≤ now }
    requires early { now < 2 ^ 60 }
    ensures { result ≡ told_second oscillator.first (rate_of oscillator.gain_us)
        (told_count_of now beat) beat }
{
    let low = (now % TURN) as u32;
    let told_count = now - u64::from(low.wrapping_sub(beat.edge_us));
    let rate = oscillator.rate();
    let edge = (told_count + rate / 2).saturating_sub(oscillator.first()) / rate;
    ToldSecond {
        edge,
        edge_count: oscillator.first() + edge * rate,
        told_count,
        beat,
    }
}
