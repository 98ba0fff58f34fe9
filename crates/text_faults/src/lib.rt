//! What a user reads of faults and refusals: the number of each, its name, and what it means
//! (docs/FAULTS.md).
#![tactic(auto)]

mod meaning;
mod port_fault;
mod refusal;

pub use meaning::{Meaning, meaning_of};
pub use port_fault::{FaultDetail, detail_of, name_of, number_of, push_fault};
pub use refusal::{LineFault, Refusal};
