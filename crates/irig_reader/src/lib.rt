//! A reader: its ports, the vote over what they tell, and the rule by which it announces.
//!
//! A [`Reader`] is fed pulses at its ports. At each tick it takes what the ports tell, votes, and
//! says in a [`Report`] which UTC second begins, or why it says none: it locks after so many votes
//! that follow one another, holds over without votes for so long, and stops if it would have to
//! guess. The rule is this project's profile; no call knows the plant's timeline.
#![tactic(auto)]

mod laws;
mod reader;
mod report;
mod rule;
mod rules;

pub use laws::{
    a_claim_is_of_a_run, a_lost_tick_is_silent, held_seconds_are_true, holdover_is_bounded,
    locking_takes_votes_in_a_row, misleading_takes_a_majority, true_lives_are_true,
    true_votes_in_a_row_lock, true_votes_keep_to_the_truth, voted_seconds_are_true,
    votes_lie_within_limits,
};
pub use reader::{Reader, Ticked};
pub use report::{Cause, Lock, Report};
pub use rule::{State, Step, step_of};
pub use rules::{ReaderRules, in_range};
