//! The vote of a reader over its ports.
//!
//! A plant has 2f + 1 generators, and each reader a port for each. As at most f of them send untrue
//! frames, a claim that f + 1 ports tell is true: [`vote`] gives it. The vote is defined by
//! counting, in `specs/Vote.antt`. That f is 1 or 2 is this project's profile. A reader alone may have
//! one port, and f is then 0: its vote is what that port claims.
#![tactic(auto)]

mod laws;
mod redundancy;
mod votes;

pub use laws::{equal_claims, few_others, one_vote, vote_is};
pub use redundancy::Redundancy;
pub use votes::{Tells, vote};
