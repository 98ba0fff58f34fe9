//! The codec and the reader for C, as a static library: plain numbers that C owns.
//!
//! Each export takes numbers and answers 0 or the number of a fault, by which `irig explain` and
//! docs/FAULTS.md know it: 1 to 10, 17 and 18 of a frame, with 256 times the element, the field or
//! the count beside it; 26 for a value out of its range; 31 to 34 of a leap table. A call that
//! answers a fault changes nothing. None asks anything of its arguments: whatever lies in a
//! structure, a call returns. No call asks for memory, or keeps anything but in what C holds.
#![tactic(auto)]

mod control;
mod frame;
mod line;
mod quality;
mod reader;
mod second;
mod symbols;
mod timekeeper;

pub use c_keeper::{IrigSecond, IrigStamp, IrigTimekeeper};
pub use c_lines::{IrigAnnounced, IrigLine, IrigLines};
pub use c_numbers::{
    IrigClaim, IrigControl, IrigLeap, IrigReader, IrigReport, IrigSetup, IrigState, IrigTable,
    IrigTold, another_number_is_told,
};
