//! The words and the lines of a text that comes in pieces, the fields of a line, and the numbers that they spell.
#![tactic(auto)]

mod decimal;
mod fields;
mod laws;
mod lines;
mod number;
mod signed;
mod words;

pub use decimal::{millionths_of, places_in};
pub use fields::{after_comma, field_of, trimmed};
pub use laws::pieces_do_not_matter;
pub use lines::{LONGEST_LINE, Lines, NextLine, without_mark};
pub use number::number_of;
pub use signed::{Decimal, decimal_of};
pub use words::{LONGEST_WORD, Next, Words};
