//! JSON objects by their forms: which keys stand in an object, and what may stand at a key.
#![tactic(auto)]

mod fields;
mod json;
mod key;
mod keywords;

pub use fields::{
    few_items, fits, has_form, integer_at, is_named, leap_at, natural_at, natural_in, reader_at,
};
pub use json::{at_most, items_at, text_at, whole_at, whole_of};
pub use key::{Key, Kind, Text, has_type};
pub use keywords::{
    LEAP_WORDS, PARITY_WORDS, SBS_USE_WORDS, SENSE_WORDS, leap_named, parity_of, sbs_use_of,
    sense_of,
};
