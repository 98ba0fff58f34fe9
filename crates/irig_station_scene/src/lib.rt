//! Scenarios with devices: the text of a station and of what happens in it, line by line, to what a
//! listener says of it, which is the log unless another is asked.
#![tactic(auto)]

mod event;
mod listener;
mod log;
mod outcome;
mod play;
mod player;
mod run;
mod text;

pub use listener::StationListener;
pub use log::StationLog;
pub use outcome::StationOutcome;
pub use player::StationPlayer;
pub use run::{StationRun, listen_to_station};
pub use text::{push_off, push_station_audit, push_station_entries};
