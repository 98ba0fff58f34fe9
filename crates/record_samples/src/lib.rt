//! The samples of a disturbance record, COMTRADE of 1991, 1999 and 2013, in pieces: whether they are
//! numbers or rows of a text, [`Samples`] reads them, and tells the levels of digital channels and, by
//! a threshold, of analog ones.
#![tactic(auto)]

mod channels;
mod course;
mod fields;
mod laws;
mod lines;
mod mixed;
mod row;
mod rows;
mod samples;

pub use laws::{changes_are_those_of_the_file, levels_are_in_order, pieces_do_not_matter};
pub use lines::{Bit, Line, LineFault, Lines};
pub use samples::{End, Samples};
