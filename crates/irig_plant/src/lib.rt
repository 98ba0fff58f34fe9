//! A plant: generators of time code, the readers that they feed, and a log of what the readers say.
//!
//! A [`Plant`] has three or five [`Generator`](irig_gen::Generator)s and 1 to 16
//! [`Reader`](irig_reader::Reader)s, and takes one [`Event`] after another: a generator's edge, a
//! reader's tick, a frame that is carried, damaged or replayed, raw pulses, a fault, its repair, a
//! restart. Any order of events is legal. What a list of events comes to stands in
//! `specs/Schedule.antt`; a plant's log is that of its events, whatever [`Port`](irig_port::Port)
//! its readers have.
#![tactic(auto)]

mod audit;
mod effects;
mod entry;
mod event;
mod fault;
mod laws;
mod laws_of_edges;
mod plant;
mod pulses;
mod setup;
mod truth;

pub use audit::{Audit, is_true_table};
pub use entry::Entry;
pub use event::{Event, Widths};
pub use fault::{PlantFault, Refused};
pub use laws::{
    announcements_agree, announcements_are_true, announcements_tell_their_lock,
    announces_exactly_when_held, audit_is_kept, broken_ports, damaged_pulses_are_never_untrue,
    edges_are_voted, equal_hearing, equal_logs, harmless, healthy_carries_vote,
    healthy_plants_announce, healthy_ports_stay_healthy, kept_logs_are_true,
    logs_keep_the_headline, no_false_alarms, no_silent_step, premises_are_needed,
    readers_keep_to_the_truth, runs_are_announced, silences_tell_their_cause,
    true_frames_tell_the_truth, true_tables, voted_ports, votes_are_at_voted_edges, votes_are_true,
    whole_carries_vote,
};
pub use laws_of_edges::{
    announcements_rest_on_a_vote, clean_ticks, clean_ticks_are_enough,
    entries_stand_on_their_own_edge, false_seconds_have_their_majority,
    false_seconds_have_their_price, false_votes_have_their_majority, healing_takes_the_holdover,
    misled_readers_heal,
};
pub use plant::Plant;
pub use pulses::widths_of;
pub use setup::ReaderSetup;
