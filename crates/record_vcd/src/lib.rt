//! A value change dump, read as it comes in pieces: the wires that its head names, and the levels of
//! up to five of them.
//!
//! A [`Head`] is read up to its end. It names [`Wire`]s, of which the caller chooses; [`Changes`] are
//! read from there on, and say each level with its time.
#![tactic(auto)]

mod changes;
mod chosen;
mod head;
mod laws;
mod meaning;
mod now;
mod section;
mod unit;
mod wire;

pub use changes::{Changes, End, HeadFault, Taken};
pub use head::{Head, HeadTaken};
pub use laws::{changes_are_those_of_the_file, levels_are_in_order, pieces_do_not_matter};
pub use now::{Fault, Reason};
pub use unit::{Part, Unit};
pub use wire::Wire;
