//! What a line tells of which no whole frame was recorded.
//!
//! A [`Seen`] has the elements around the first two markers in a row, by their pulses. A [`Search`] asks
//! which seconds near a stamp have all that is seen in their frames, in any zone by half hours and with or
//! without a leap second at a month's end. If it is a single one, the line tells when the recording begins.
#![tactic(auto)]

mod fit;
mod marker;
mod search;
mod second;
mod seen;

pub use search::{Beginning, Found, Search};
pub use seen::Seen;
