//! The control bits of an IRIG-B frame, and its parity.
//!
//! Source: IEEE 1344-1995, annex on IRIG-B, for what the control bits say; IRIG Standard 200-16,
//! format B, for the elements that carry them. What the parity counts, and that bits 15 to 17 are
//! sent as 0 and ignored, is this project's profile.
//!
//! [`pack`] gives the bits of a [`Control`] as the number that a frame codes, and [`unpack`] what
//! such a number says. [`set_parity`] gives a frame its [`Parity`], [`encode_with_parity`] the frame
//! of a value, and [`parity_ok`] tests it. The table of the control bits stands once as data in
//! `specs/ControlTable.antt`.
#![tactic(auto)]

mod control;
mod laws;
mod parity;

pub use control::{Control, in_range, pack, unpack};
pub use laws::{inverses, parity_keeps, with_parity_is};
pub use parity::{Parity, encode_with_parity, parity_ok, set_parity};
