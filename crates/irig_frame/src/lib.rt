//! The frame of IRIG-B time code: its symbols, its fields, and how a time is written and read.
//!
//! Source: IRIG Standard 200-16, format B, code B004: pulse width coded, no carrier, with time of
//! year, year, control functions and straight binary seconds. A frame lasts one second and has 100
//! elements, 0 to 99, one every 10 ms; it codes the second that begins at the leading edge of
//! element 0. Years are those from 2000 to 2099.
//!
//! [`encode`] writes a [`Coded`] time as 100 [`Symbol`]s, and [`decode`] reads one or answers the
//! first [`FrameFault`]. The field table stands once as data in `specs/FieldTable.antt`.
#![tactic(auto)]

mod coded;
mod decoder;
mod encoder;
mod fault;
mod laws;
mod layout;
mod symbol;

pub use coded::{Coded, in_range};
pub use decoder::{decode, fault_at};
pub use encoder::encode;
pub use fault::FrameFault;
pub use laws::{one_frame, one_reading, round_trip, written_reads};
pub use layout::{Field, is_marker_place};
pub use symbol::{Symbol, classify, is_one_width};
