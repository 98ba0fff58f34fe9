//! The words of a command line, read to what they ask for.
#![tactic(auto)]

mod command;
mod help;
mod request;
mod tip;

pub use command::parse;
pub use request::{Judging, NoRequest, Request, Source, Wanted};
