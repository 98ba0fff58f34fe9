//! What a line of a scenario says: of its bytes a plant, an event or a number of whole seconds, or
//! why the line is refused. docs/SCENARIOS.md has the lines.
#![tactic(auto)]

mod event_line;
mod event_reader;
mod plain_line;
mod plain_tokens;
mod plant_line;
mod whole_second;
mod widths;

pub use event_line::{Command, event_of_line, fault_of_form, generator_at, number_at, reader_in};
pub use event_reader::EventReader;
pub use plant_line::{BuiltPlant, make_generators, make_reader, make_timeline, plant_of_line};
pub use whole_second::second_of;
