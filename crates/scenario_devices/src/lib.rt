//! What the lines of a scenario of version 4 say, whose plant has devices in place of readers: of
//! their bytes a station, or an event of it, or why the line is refused.
#![tactic(auto)]

mod device_values;
mod station_event;
mod station_form;
mod station_line;
mod station_shape;

pub use device_values::{DeviceValues, StationValues, devices_in, station_values};
pub use station_event::event_of_station_line;
pub use station_form::{STATION_ACTION_WORDS, station_event_keys};
pub use station_line::{BuiltStation, has_version_four, is_station_line, station_of_line};
pub use station_shape::{DEVICES, LATE, device_keys, station_keys};
