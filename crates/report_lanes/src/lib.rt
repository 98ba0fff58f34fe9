//! A scenario played, and in place of its log what a picture of it shows, as records: how each reader
//! stood, what each of its ports told, and where a month ended or a leap second came.
#![tactic(auto)]

mod drawer;
mod gather;
mod lane;
mod laws;
mod reader;
mod run;
mod shown;

pub use lane::{Lane, Mark, Shows};
pub use laws::{lanes_are_longest_runs, stretches_are_lanes};
pub use run::{Drawn, draw};
