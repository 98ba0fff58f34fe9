//! A table of levels or volts with commas, read as it comes in pieces: the names of its channels,
//! and the levels of up to five of them.
//!
//! A [`Head`] is read up to the line of names. The caller chooses among these; [`Changes`] are read
//! from there on, and say the levels with their times.
#![tactic(auto)]

mod changes;
mod chosen;
mod clock;
mod head;
mod laws;
mod name;
mod now;
mod row;
mod title;
mod when;

pub use changes::{Changes, End, Taken};
pub use clock::Clock;
pub use head::{Head, HeadFault, HeadTaken};
pub use laws::{changes_are_those_of_the_file, levels_are_in_order, pieces_do_not_matter};
pub use name::Name;
pub use now::Fault;
pub use row::Reason;
pub use title::{HeadReason, HeadRefusal};
