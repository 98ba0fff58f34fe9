//! What a recording says of up to five lines, whatever its form, and the limits that all forms
//! share.
#![tactic(auto)]

mod laws;
mod levels;
mod limits;

pub use laws::a_time_without_fault_is_within;
pub use levels::Levels;
pub use limits::{TimeFault, time_fault};
