//! Frames as text: what the commands `frame` and `read` print.
#![tactic(auto)]

mod frame;
mod laws;
mod reading;
mod told;

pub use frame::{BadTime, FrameOptions, FrameText, frame_text};
pub use laws::frames_are_read_back;
pub use reading::{ReadingFault, frame_lines};
