//! The text of who lied in a scenario and what it cost: a line of each finding, totals, and the last
//! line of the run's log.
#![tactic(auto)]

mod laws;
mod line_text;
mod observer;
mod reach;
mod reach_text;
mod run;
mod text;
mod untrue_text;

pub use laws::reaches_are_of_announced_seconds;
pub use run::blame;
