//! A simulated device: it hears what its cables bring, and is ticked by itself, while true time passes.
#![tactic(auto)]

mod events;
mod happenings;
mod heard;
mod laws;
mod play;
mod quiet;
mod second;
mod setup;
mod simulated;
mod ticking;
mod told_second;

pub use heard::{HeardPulse, HeardPulses};
pub use laws::{
    a_course_announces, a_course_goes_by_its_loop, a_course_is_told_what_it_hears,
    a_course_stamps_each_instant, a_course_tells_the_truth, a_quiet_second_is_one_step,
    time_passes_to_its_end,
};
pub use second::{LineSecond, Second};
pub use setup::{DeviceSetup, Ticking};
pub use simulated::Simulated;
pub use told_second::ToldSecond;
