//! A reader or a writer that keeps a note of whether one of its calls failed.
#![tactic(auto)]

mod line;
mod watched;

pub use line::{LineEnd, ReadFault};
pub use watched::{DeviceFault, Watched};
