//! Devices for tests: a reader or a writer that breaks after so many calls, and a reader that never
//! ends.
#![tactic(auto)]

mod devices;

pub use devices::{Break, Endless, Fuse};
