//! A scenario played, and in place of its log who lied and what it cost, as records: each stretch in
//! which a port of a reader did not tell the true claim, each silence of a reader, and its untrue
//! seconds.
#![tactic(auto)]

mod account;
mod book;
mod finder;
mod finding;
mod gather;
mod kind;
mod laws;
mod misled;
mod run;
mod stretch;
mod tick;
mod told;

pub use account::{Account, PortAccount};
pub use book::Book;
pub use finding::{Basis, Finding, Offsets, PortWrong, Untrue, Wrong};
pub use kind::Kind;
pub use laws::{
    agreed_ports_are_ok, silences_are_longest_runs, stretches_are_longest_runs,
    untrue_seconds_are_not_those_of_their_edges,
};
pub use run::{Found, find};
pub use stretch::same_cause;
pub use tick::{Tick, first_tick};
pub use told::tick_of_told;
