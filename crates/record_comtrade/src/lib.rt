//! A disturbance record, COMTRADE of 1991, 1999 and 2013: what its configuration says, and the levels of
//! its digital channels, read as they come in pieces.
#![tactic(auto)]

mod clock;
mod config;
mod counts;
mod data;
mod fault;
mod laws;
mod layout;
mod now;
mod parts;
mod rates;
mod reader;
mod reading;
mod sample;
mod tail;
mod text;

pub use clock::{Clock, Mark, Reason, RowFault, RowField, last_of, time_of};
pub use data::Data;
pub use fault::{ConfigFault, Fault, Field};
pub use laws::{changes_are_those_of_the_file, pieces_do_not_matter};
pub use layout::{clock_of, offset_of, size_of};
pub use now::{Now, SampleFault, Step};
pub use parts::{Config, Counts, Form, Rate, Tail};
pub use reader::{DataFault, Taken};
pub use reading::ConfigText;
pub use sample::{bit_in, mark_of};
