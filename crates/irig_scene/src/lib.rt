//! Scenarios: the text of a plant and of what happens in it, line by line, to the text of its log.
#![tactic(auto)]

mod laws;
mod listener;
mod log;
mod outcome;
mod play;
mod player;
mod refused_line;
mod run;
mod stepped;

pub use laws::{
    a_second_has_a_tick_a_reader, entries_are_true, healthy_scenarios_announce, lines_read_one_way,
    logs_are_true, plant_lines_read_one_way, port_lines_stand_apart,
};
pub use listener::Listener;
pub use log::{Log, run_scene, run_scene_over, run_scene_shown};
pub use outcome::Outcome;
pub use player::Player;
pub use refused_line::RefusedLine;
pub use report_log::Shown;
pub use report_run::{
    MAX_LINES, OUT_OF_MEMORY, READ_FAILED, REFUSED, SceneFault, WRITE_FAILED, is_blank, limit_of,
    read_line, too_long,
};
pub use run::{Run, run_listening, run_to};
pub use text_faults::Refusal;
