//! A list of pulses, read as it comes in pieces: rows of the number of a port, the microsecond at
//! which a pulse rose by a counter, and how long it lasted, each written once its pulse has ended.
//!
//! [`Changes`] are read below the line of names. They say the levels of up to five ports with their
//! times, in order, as soon as no row can change them that follows.
#![tactic(auto)]

mod changes;
mod chosen;
mod laws;
mod now;
mod pulse;
mod row;

pub use changes::{Changes, Last, Taken};
pub use laws::{changes_are_those_of_the_list, levels_are_in_order, pieces_do_not_matter};
pub use now::{Fault, ListFault};
pub use row::Reason;
