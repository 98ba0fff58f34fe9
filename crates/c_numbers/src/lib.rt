//! The plain numbers that C owns: the structures of a reader and of what it says, what they stand for
//! in the libraries, and the check word that tells if one of a reader's numbers was changed.
//!
//! A function `.._of` gives the value that numbers stand for, `.._for_c` the numbers of a value.
//! Which numbers have a meaning is told by `is_setup`, `is_keeper_setup`, `is_port`, `has_kinds`,
//! `table_fault` and `state_of`; a conversion takes any. There is no memory to ask for.
#![tactic(auto)]

mod against;
mod check_word;
mod claim;
mod control;
mod fault;
mod laws;
mod reader;
mod report;
mod setup;
mod standing;
mod state;
mod sums;
mod symbols;
mod table;
mod voices;
mod zone;

pub use against::{against_hold, held_by};
pub use check_word::{changing_sum, check_of, fixed_sum, tally_change, with_state, with_tally};
pub use claim::{IrigClaim, NO_CLAIM, claim_for_c};
pub use control::{IrigControl, control_for_c, control_of_c};
pub use fault::{OUT_OF_RANGE, fault_code};
pub use laws::{another_number_is_told, who_is_against_the_truth_is_untrue};
pub use reader::IrigReader;
pub use report::{
    IrigReport, IrigTold, cause_number, lock_count, lock_number, report_for_c, told_for_c,
};
pub use setup::{
    IrigSetup, is_keeper_setup, is_port, is_setup, keeper_limits_of, limits_of, parity_of,
    reader_rules_of, redundancy_of, rules_of, sense_of,
};
pub use state::{IDLE, IrigState, mark_of, state_for_c, state_of};
pub use sums::Sums;
pub use symbols::{numbers_of, symbol_number, symbol_of, symbols_of};
pub use table::{IrigLeap, IrigTable, has_kinds, table_fault};
pub use voices::{Voices, voices_of};
pub use zone::Zone;
