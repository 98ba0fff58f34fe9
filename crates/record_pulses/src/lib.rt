//! What is on a recorded line: its changes without glitches, its pulses by either polarity, and where
//! these stand in frames.
//!
//! [`Steady`] leaves out what lasts for less than a pulse does, and [`Pulses`] are the pulses that the
//! changes left make. A [`View`] has what these are: where each stands in its frame, how wide and how
//! far apart they are, and the last whole frame. [`Looks`] looks at a line by both polarities until a
//! frame shows which it has, and an [`Oddity`] is what a line looks like that has no frame. All state is
//! of a fixed size, so that the memory of a line does not grow with a recording.
#![tactic(auto)]

mod edge;
mod frames;
mod laws;
mod looks;
mod oddity;
mod pulses;
mod seen;
mod spread;
mod steady;
mod track;
mod view;

pub use edge::{Edge, Pulse};
pub use laws::{a_steady_line_has_no_glitches, a_whole_frame_is_in_step, pulses_are_on_the_line};
pub use looks::{Heard, Looks};
pub use oddity::Oddity;
pub use pulses::Pulses;
pub use seen::{Counts, Seen, Widths};
pub use spread::Spread;
pub use steady::Steady;
pub use view::View;
