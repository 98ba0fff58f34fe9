//! A scenario is run, whatever its plant has: readers, or devices.
#![tactic(auto)]

mod laws;
mod listen;
mod refused;
mod run;

pub use laws::device_lines_read_one_way;
pub use listen::{ScenarioOutcome, ScenarioRun, listen_to_scenario};
pub use refused::{WhyRefused, refusal_of, why_of_devices, why_of_readers};
pub use run::run_scenario;
