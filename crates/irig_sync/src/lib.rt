//! The synchroniser: which element of a frame a pulse is, by its leading edge and its width alone.
//!
//! Nobody tells a device where a frame begins. [`Sync::pulse`] takes the pulses of one line as they
//! come, and answers each one's *place* in its frame: 1 to 100, or 0 out of step. A port is emptied
//! at place 1 and fed what has a place. A hundred pulses in it then came each on time behind the
//! one before, and of a line of true frames no hundred but a whole frame reads as a time.
//!
//! Source: IRIG Standard 200-16, format B: an element each 10 ms, and a frame begins with the
//! second of two markers in a row. The bounds round 10 ms are this project's profile. Times are
//! those of a clock of 32 bits, which wraps after 71 minutes; [`Sync::idle`] keeps that from
//! showing.
#![tactic(auto)]

mod laws;
mod sync;

pub use laws::{
    a_fault_costs_its_own_frame, counted_are_on_time, found_after_101_pulses, no_rotation, no_slip,
    no_wrap, one_pulse_more,
};
pub use sync::Sync;
