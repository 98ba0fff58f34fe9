//! Elements of a line by a device's counter.

ghost use Rattle.std.specs.Prelude.{◌≡◌, ◌<◌, ◌^◌};
ghost use Rattle.irig_sync.specs.Edges.{element_at};
ghost use Rattle.irig_wires.specs.Oscillator.{edges_by, rate_of};
ghost use Rattle.irig_witness.specs.Elements.{element_near};

use irig_wires::Oscillator;

// No setup says that its lines are less exact.
const MOST_WITHIN_US: u64 = 450;

// The element of its line of which alone a pulse may be that rose then, less than 2^56 us: the first
// frame begins with element 0, and each has 100.
pub(crate) fn element_near(oscillator: Oscillator, rise_us: u64) -> u64
    requires { rise_us < 2 ^ 56 }
    ensures value { result ≡ element_near oscillator.first (rate_of oscillator.gain_us) rise_us }
    ensures small { result < 2 ^ 43 }
{
    let behind_us = (rise_us + MOST_WITHIN_US).saturating_sub(oscillator.first());
    100 * behind_us / oscillator.rate()
}

// What the counter shows when an element begins, before element 2^43.
pub(crate) fn begins(oscillator: Oscillator, element: u64) -> u64
    requires { element < 2 ^ 43 }
    ensures value { result
        ≡ element_at (edges_by oscillator.first (rate_of oscillator.gain_us)) element }
    ensures small { result < 2 ^ 58 }
{
    let rate_us = oscillator.rate();
    oscillator.first() + element / 100 * rate_us + rate_us * (element % 100) / 100
}
