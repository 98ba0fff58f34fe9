//! A device that keeps time by lines of frames: when it ticks is up to it.
//!
//! A [`Timekeeper`] hears lines, through their synchronisers, by the device's own free-running
//! counter. It counts the edges that have come since the last one, so that a tick may come at any
//! time, early, late, often or seldom, and says in a [`Beat`] which UTC second begins and at which
//! local time.
#![tactic(auto)]

mod check;
mod clock;
mod keeper;
mod quality;
mod stamp;
mod states;
mod unfinished;

pub use clock::{Beat, ClockState, Ticked, clock_of_nothing, tick, wait_of};
pub use keeper::Timekeeper;
pub use quality::quality_of;
pub use stamp::{Announced, Stamp, stamp_of};
pub use states::{LineState, state_of, state_seen};
