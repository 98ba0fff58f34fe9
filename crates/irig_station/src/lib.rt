//! A station: generators, devices, the cables between them, and true time.
#![tactic(auto)]

mod apply;
mod audit;
mod entry;
mod event;
mod fault;
mod frames;
mod laws;
mod made;
mod pass;
mod seen;
mod station;

pub use audit::Audit;
pub use entry::Entry;
pub use event::Event;
pub use fault::StationFault;
pub use laws::{
    a_device_is_told_what_it_hears, a_log_of_devices_grows, a_log_of_devices_is_true,
    a_log_shows_where_it_broke, a_station_announces, entries_are_in_range, time_passes_by_seconds,
};
pub use station::Station;
