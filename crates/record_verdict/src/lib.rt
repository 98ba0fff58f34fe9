//! What the seconds of a recording of lines come to: which line is wrong, since when and by how much, on
//! which seconds most lines agree, and when the recording begins in UTC.
//!
//! A [`Verdict`] takes the seconds that a recording shows, one after another, and keeps what they come
//! to in memory that does not grow with them. Which lines are called wrong is a law
//! ([`wrong_lines_are_named`]).
#![tactic(auto)]

mod ended;
mod jump;
mod laws;
mod stretch;
mod tale;
mod tales;
mod verdict;
mod zero;

pub use ended::{Ended, Unended};
pub use jump::{Jump, Jumps};
pub use laws::wrong_lines_are_named;
pub use stretch::{AgreedSecond, Stretch};
pub use tale::{Kind, Tale};
pub use verdict::Verdict;
pub use zero::{Zero, is_second, zero_at, zero_by};
