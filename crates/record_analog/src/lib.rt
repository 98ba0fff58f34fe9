//! The analog channels of a disturbance record: numbers of samples in each form, and the levels that
//! they say by a threshold.
#![tactic(auto)]

mod factor;
mod gauge;
mod number;
mod parts;

pub use gauge::gauge_of;
pub use number::{number_in, text_number};
pub use parts::Gauge;
