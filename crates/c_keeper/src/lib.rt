//! The plain numbers of a timekeeper that C owns, what they stand for in the libraries, and the check
//! word that tells if one of them was changed.
//!
//! As in c_numbers a function `.._of` gives the value that numbers stand for, and `.._for_c` the
//! numbers of a value. There is no memory to ask for.
#![tactic(auto)]

mod anchors;
mod check_word;
mod laws;
mod pace;
mod pulse;
mod quiet;
mod rate;
mod said;
mod second;
mod stamp;
mod states;
mod timekeeper;

pub use anchors::{IrigAnchor, IrigAnchors};
pub use check_word::{check_of, set_line};
pub use laws::another_number_is_told;
pub use pace::IrigPace;
pub use pulse::hear;
pub use quiet::is_quiet;
pub use rate::{IrigRate, rate_at, rate_for_c};
pub use said::{IrigLineSaid, said_of};
pub use second::{IrigSecond, nothing_told, second_of};
pub use stamp::{IrigStamp, stamp_for_c};
pub use timekeeper::{
    IrigDelays, IrigTimekeeper, IrigWires, are_wires, clock_rules_of, delay_of, fault_of, forget,
    is_accepted, keep, restart, stamp_at, unread_state_of,
};
