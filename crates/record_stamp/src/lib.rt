//! The stamp of a disturbance record: which time it says, and by how much that is off from what lines
//! tell.
#![tactic(auto)]

mod code;
mod instant;
mod late;
mod laws;
mod notes;
mod parts;
mod record;
mod stamp;
mod text;
mod word;

pub use code::{LeapSaid, leap_said, quality_of, zone_of};
pub use instant::{Stamp, StampFault};
pub use late::{Moment, late_ns};
pub use laws::{lateness_is_elapsed_time, zones_explain};
pub use record::{
    exchanged_of, leap_in, push_record_word, push_unjudged, quality_in, stamp_of, trigger_of,
    word_of,
};
pub use stamp::{exchanged, meaning};
pub use text::{push_moment, push_stamp_fault, push_stamp_word};
pub use word::{AGREE_NS, NEAR_NS, Word, ZoneReading, step_ns, word_on};
