//! UTC seconds from 2000-01-02 to 2099-12-30: their dates, their texts, and how a frame codes them.
//!
//! A second is named by its day, counted from 2000-01-01 as day 0, and its second of the day; an
//! inserted leap second (ITU-R TF.460) is second 86400 of its day. The calendar is asked of
//! `jiff_core`, and proved against the formula of `specs/Days.antt`.
#![tactic(auto)]

mod calendar;
mod claim;
mod frame;
mod laws;
mod leap;
mod mark;
mod rules;
mod second;
mod stretches;
mod table;
mod text;
mod timeline;

pub use calendar::month_end;
pub use claim::{Claim, TimeFault, claim_of};
pub use frame::{coded_of, frame_of_second, value_of_second};
pub use laws::{
    claim_of_coded, claims_are_valid, law_of_next, one_coded, one_second, relations_compute,
    second_is, time_is_shown,
};
pub use leap::Leap;
pub use mark::Mark;
pub use rules::{Rules, SbsUse, Sense};
pub use second::{FIRST_DAY, LAST_DAY, LAST_NAMED_DAY, UtcSecond, next, valid};
pub use table::{LeapTable, Leaps, TableFault, entry_fault, table_fault};
pub use text::{push_text, read_day, read_text, write_text};
pub use timeline::{Timeline, TimelineFault, leap_fault};
