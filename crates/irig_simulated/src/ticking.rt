//! When a simulated device is ticked.

ghost use Rattle.std.specs.Prelude.{◌≡◌, ◌<◌, ◌^◌};
ghost use Rattle.irig_wires.specs.Oscillator.{rate_of};
ghost use Rattle.irig_simulated.specs.Courses.{counted_on, next_tick, tick_after_frame};

use crate::setup::Ticking;
use irig_wires::Oscillator;

// When the counter first shows so much more than now, and not before now.
fn counted_on(oscillator: Oscillator, now_us: u64, more: u32) -> u64
    requires { now_us < 2 ^ 53 }
    ensures { result ≡ counted_on oscillator.first (rate_of oscillator.gain_us) now_us more }
{
    let count = oscillator.count_at(now_us) + u64::from(more);
    now_us.max(oscillator.time_of(count))
}

// When a device is ticked next that asks now to wait so long.
pub(crate) fn next_tick(
    ticking: Ticking,
    oscillator: Oscillator,
    now_us: u64,
    wait_us: u32,
) -> Option<u64>
    requires { now_us < 2 ^ 53 }
    ensures { result
        ≡ next_tick ticking oscillator.first (rate_of oscillator.gain_us) now_us wait_us }
{
    match ticking {
        Ticking::ByWait => Some(counted_on(oscillator, now_us, wait_us)),
        Ticking::Each(us) => Some(now_us + u64::from(us)),
        Ticking::ByHand => None,
    }
}

// The same behind the last pulse of a frame, if it was to be ticked at `tick_us`.
pub(crate) fn tick_after_frame(
    ticking: Ticking,
    oscillator: Oscillator,
    now_us: u64,
    wait_us: u32,
    tick_us: Option<u64>,
) -> Option<u64>
    requires { now_us < 2 ^ 53 }
    ensures { result ≡ tick_after_frame ticking oscillator.first (rate_of oscillator.gain_us)
        now_us wait_us tick_us }
{
    match ticking {
        Ticking::ByWait => Some(counted_on(oscillator, now_us, wait_us)),
        _ => tick_us,
    }
}
