//! What the lines of a scenario hold: which keys stand in each, and the values there, if they are
//! within their ranges. It knows no plant. docs/SCENARIOS.md has the lines.
#![tactic(auto)]

mod form;
mod generator_values;
mod leap_values;
mod line;
mod names;
mod plant_shape;
mod plant_values;
mod reader_values;

pub use form::{
    ACTION_WORDS, AT, Action, DO, EDGE, EDGES_BY, FAULT_WORDS, FaultKind, G, HALF_HOURS_BY, LEAP,
    N, Q, R, WIDTH, WIDTHS, action_of, event_keys, fault_in, fault_keys_of, keys_of,
};
pub use generator_values::{GeneratorValues, is_count};
pub use line::{naturals_at, value_of};
pub use names::{is_name, name_in, names_among, names_of};
pub use plant_shape::{
    GENERATORS, HOLDOVER, LEAPS, LOCAL, LOCK_AFTER, NAME, PARITY, SBS, SENSE, START, TABLE,
    VERSION, Version, are_generators, are_leaps, change_keys, generator_keys, is_plant, is_table,
    leap_keys, plant_keys, reader_keys, table_keys, version_in, version_of,
};
pub use plant_values::{PlantValues, readers_in, values_of};
pub use reader_values::{ReaderValues, reader_of};
