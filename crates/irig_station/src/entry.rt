//! What is logged of a station.

use irig_simulated::ToldSecond;
use irig_timekeeper::Stamp;

/// What a device told, or a stamp that it gave.
#[derive(Clone, Copy, PartialEq, Eq)]
pub enum Entry {
    /// A second that a device told at a tick.
    Told {
        device: u8,
        told: ToldSecond,
    },
    /// The stamp that a device gave, if it gave one, of the instant so many microseconds of true
    /// time behind edge 0.
    Stamped {
        device: u8,
        time_us: u64,
        stamp: Option<Stamp>,
    },
}
