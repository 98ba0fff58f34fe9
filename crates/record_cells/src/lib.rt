//! What the cells and the remarks of a table say: levels, voltages, units of times, rates of samples.
#![tactic(auto)]

mod cells;
mod rate;
mod remark;
mod scale;
mod unit;
mod volts;

pub use cells::{columns_in, level_of, unquoted};
pub use rate::rate_of;
pub use remark::{is_remark, list_text, rate_text};
pub use scale::scaled_below;
pub use unit::{Column, Unit, column_of};
pub use volts::{Swing, Threshold, place_of};
