//! Generators of IRIG-B time code: what a generator sends at each edge, with and without a fault.
//!
//! A generator stands at an edge, counted from 0, and sends the frame of the second that begins
//! there by a [`Timeline`](irig_time::Timeline): IRIG Standard 200-16, format B, with the control
//! bits of IEEE 1344-1995. When the leap bits and the daylight bits are set is this project's
//! profile: in every frame of the last UTC minute of a leap day, and of the UTC minute that ends at
//! a change of zone.
#![tactic(auto)]

mod control;
mod fault;
mod generator;
mod laws;
mod zone;

pub use fault::GenFault;
pub use generator::{GenRefusal, Generator};
pub use laws::{frames_are, law_of_true_frames, one_frame};
pub use zone::{Change, Zone, is_change_time, minute_number};
