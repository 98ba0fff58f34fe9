//! A port: it is fed the pulses of one generator, and tells at an edge what they said.
//!
//! What a port tells is the first of eight lines that applies to the symbols since it was last
//! empty; they stand once, in `specs/Told.antt`. A [`Port`] is any type that keeps to that.
//! [`WholePort`] is the plain one: it keeps the symbols, and reads them at the edge. [`FlowPort`]
//! keeps a bit of each symbol, under the same contract.
#![tactic(auto)]

mod flow;
mod hearing;
mod laws;
mod laws_of_hearing;
mod limits;
mod port;
mod table;
mod tally;
mod told;
mod value;
mod verdict;
mod whole;

pub use flow::FlowPort;
pub use hearing::hear;
pub use laws::{
    carries_is_told, cut_at_101, limits_only_take_claims, one_damaged_pulse, telling_of_reading,
};
pub use laws_of_hearing::{
    a_port_holds_its_place, claims_are_of_a_run, hearing_goes_on, lost_pulses_are_never_untrue,
    one_fault_is_never_untrue, other_frames_are_told,
};
pub use limits::{Limits, edge_within};
pub use port::Port;
pub use tally::{FirstFault, Tally};
pub use told::{PortFault, Told};
pub use whole::WholePort;
