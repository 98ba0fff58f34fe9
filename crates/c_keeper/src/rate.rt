//! How long a second is by the device's counter, in numbers.

ghost use Rattle.std.specs.Prelude.{◌≡◌, Some};
ghost use Rattle.c_keeper.specs.Rates.{rate_in, rate_told};

use crate::anchors::anchors_of;
use crate::timekeeper::{IrigTimekeeper, interval_of};
use irig_lines::{Rate, rate_of};

/// How long seconds were by the device's counter.
#[repr(C)]
#[derive(Clone, Copy, Drop)]
pub struct IrigRate {
    /// Of how many seconds it is the mean, 1 to 2,000.
    pub seconds: u32,
    /// What it is at least, in nanoseconds of the counter.
    pub least_ns: u32,
    /// What it is at most.
    pub most_ns: u32,
}

/// How long they were, if that is measured.
pub fn rate_at(timekeeper: &IrigTimekeeper) -> Option<Rate>
    ensures { result ≡ rate_in timekeeper.now }
{
    rate_of(interval_of(timekeeper), anchors_of(&timekeeper.anchors))
}

/// A rate as C is given it.
pub fn rate_for_c(rate: &Rate) -> IrigRate
    ensures { rate_told 0 result ≡ Some rate.now }
{
    IrigRate {
        seconds: rate.seconds,
        least_ns: rate.least_ns,
        most_ns: rate.most_ns,
    }
}
