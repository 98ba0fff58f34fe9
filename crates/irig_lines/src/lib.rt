//! The lines of a device, by its own free-running counter, and the edge on which they agree.
//!
//! Each of the [`Lines`] keeps its last whole frame. The edge of each lies in an
//! interval, as long as lines are exact ([`Within`]) and as the frame's clock says by its time quality.
//! Frames of one claim whose intervals have a time in common are a [`Vote`]: its edge lies in the middle
//! of the interval that they leave, and its bound is half of that.
#![tactic(auto)]

mod counting;
mod delay;
mod interval;
mod limits;
mod lines;
mod pace;
mod rate;
mod setup;
mod within;

pub use counting::{edges_own, edges_to_vote, is_gone};
pub use delay::{Delays, NO_DELAYS, corrected, delay_at};
pub use interval::{Interval, by_vote, carried_on, contradicts, cut};
pub use limits::VoteLimits;
pub use lines::{
    KeptClaim, KeptFrame, Line, Lines, Vote, agreed, are_uneven, if_come, is_even, is_idle,
    is_pulse, line_at, lines_of_nothing, quality_told, settle, take, tells_of, wait_by,
    whole_frame,
};
pub use pace::{Pace, carried_by, edge_on, grown_us, is_spent, learned, pace_on};
pub use rate::{Anchor, Anchors, NO_ANCHORS, Rate, anchors_cut, anchors_on, rate_of};
pub use setup::{ClockFault, ClockRules, clock_fault, nearest_limits, nearest_within};
pub use within::Within;
