//! Laws of a device's life: what a [`Timekeeper`](irig_timekeeper::Timekeeper) tells by all its calls,
//! and facts of lives that compute. They have no code.
#![tactic(auto)]

mod laws;
mod laws_of_calls;
mod laws_of_clocks;
mod laws_of_faults;
mod laws_of_leaps;
mod laws_of_limits;
mod laws_of_lines;
mod laws_of_loops;

pub use laws::{
    a_device_announces, a_device_heals, a_device_tells_the_truth, beats_are_votes,
    counting_is_right, edges_lie_apart, enough_lines_vote, kept_frames_are_true, lines_keep_frames,
    stamps_are_true, votes_are_carried, votes_are_true, votes_do_not_stray, waiting_is_right,
    what_is_measured_is_so, what_strays_is_not_held, what_strays_is_seen,
};
pub use laws_of_calls::conditions_compute;
pub use laws_of_clocks::{clocks_off_tell_truly, quality_is_in_the_bound};
pub use laws_of_faults::lines_with_faults_tell_truly;
pub use laws_of_leaps::a_right_table_guards_its_leaps;
pub use laws_of_limits::{a_false_table_misleads, a_majority_misleads};
pub use laws_of_lines::what_is_said_of_lines_is_so;
pub use laws_of_loops::{
    a_device_that_is_asked_anew_announces, a_polling_device_announces, a_waiting_device_announces,
};
