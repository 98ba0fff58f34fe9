//! A scenario written out as what its readers or devices hear. Of readers it is a scenario: the plant
//! line, and then lines of pulses, ticks and restarts alone. Of devices it is a row of each pulse.
//!
//! What happens at generators is played and left out, so a wave of the lines can be drawn, played
//! to a device, or, of readers, changed by hand. The log of what is written of readers is the log of
//! the scenario.
#![tactic(auto)]

mod laws;
mod laws_of_lines;
mod line_text;
mod record;
mod rows;
mod run;

pub use laws::{flat_scenarios_have_their_log, recordings_have_their_log};
pub use laws_of_lines::event_lines_are_read_back;
pub use line_text::{push_pulses, push_restart, push_tick};
pub use run::flatten;
