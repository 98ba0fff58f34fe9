//! What a port tells.

use irig_frame::FrameFault;
use irig_time::{Claim, TimeFault};

/// What is wrong with what a port heard.
///
/// The first fault is told, in the order: length and elements of the frame, parity, fields of the
/// frame, straight binary seconds, time.
#[derive(Clone, Copy, PartialEq, Eq)]
pub enum PortFault {
    /// The symbols are no frame, or one of its fields is wrong.
    Frame(FrameFault),
    /// The frame has not the parity that the rules say.
    Parity,
    /// The straight binary seconds are compared, and belong to another second of the day.
    Sbs,
    /// The time that the frame codes is no second of UTC.
    Time(TimeFault),
    /// The frame claims a second before the first day that may be claimed.
    Early,
}

/// What a port tells at an edge.
#[derive(Clone, Copy, PartialEq, Eq)]
pub enum Told {
    /// There was no pulse.
    Silence,
    /// What the pulses said is wrong.
    Fault(PortFault),
    /// The frame is right, but its time quality, 10 to 15, gives it no vote.
    ///
    /// That 10 is the first of these is this project's profile of IEEE 1344-1995.
    Poor(u8),
    /// The frame claims a second of UTC.
    Claim(Claim),
}
