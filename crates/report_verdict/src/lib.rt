//! The texts of a verdict on a recording of lines: which of them is wrong, since when and by how much, on
//! which seconds most of them agree, when the recording begins in UTC, and what was seen on each line.
//!
//! [`push_verdict`] is for people, and [`push_json`] for programs.
#![tactic(auto)]

mod json;
mod line_seen;
mod number_text;
mod stretch_text;
mod text;

pub use json::{push_json, push_json_part};
pub use line_seen::LineSeen;
pub use text::push_verdict;
