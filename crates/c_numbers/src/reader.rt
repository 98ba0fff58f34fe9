//! A reader in numbers.

use crate::setup::IrigSetup;
use crate::state::IrigState;
use crate::table::IrigTable;
use irig_port::Tally;

/// A reader, all of it plain numbers. It may be copied, kept and taken up again.
#[repr(C)]
#[derive(Clone, Copy, Drop)]
pub struct IrigReader {
    /// How it is set up.
    pub setup: IrigSetup,
    /// The leaps that it knows beforehand.
    pub table: IrigTable,
    /// Where it stands.
    pub state: IrigState,
    /// What each port heard since the last edge, of three ports the first three, of one the first.
    pub ports: [Tally; 5],
    /// What all other numbers add up to, each times a weight of its own: it tells if one of them is
    /// changed by anything but the calls of the library.
    pub check: u64,
}
