//! What reaches a device by its cables, and its oscillator: what a simulated plant has between the
//! generators and a timekeeper.
//!
//! A [`Wire`] brings a generator's pulses to a device, late, and one at a time; [`Wires`] are those
//! of one device, and say what happens next. By its [`Oscillator`] a device reckons when that was.
//! Nothing here knows what a pulse means.
#![tactic(auto)]

mod laws;
mod oscillator;
mod wire;
mod wires;

pub use laws::{
    a_count_has_its_first_time, a_line_has_one_pulse_at_a_time, a_line_left_alone_loses_none,
    an_oscillator_counts_evenly, lines_are_apart, time_does_not_go_back,
    what_comes_next_comes_first,
};
pub use oscillator::Oscillator;
pub use wire::{Flight, Wire};
pub use wires::{Coming, Ending, Happening, Wires};
