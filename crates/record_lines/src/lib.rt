//! Recorded lines, heard by a timekeeper.
//!
//! A [`Receiver`] is a timekeeper by a counter that does not wrap. It is told the pulses of up to five
//! lines while time passes, is ticked as it asks, and tells the seconds that its ticks answer. Which
//! calls its timekeeper had is known of it at any time, and these are in order, whatever it is told: so
//! the laws of a timekeeper speak of it, and each second on which lines agree was carried by whole frames
//! of more than f of them ([`named_seconds_are_carried`]).
#![tactic(auto)]

mod change;
mod channel;
mod channels;
mod laws;
mod line;
mod pace;
mod receiver;
mod recording;
mod rises;
mod second;
mod setup;
mod told;

pub use laws::{named_seconds_are_carried, what_is_carried_stays_so, what_is_in_order_is_told};
pub use line::RecordedLine;
pub use receiver::Receiver;
pub use recording::Recording;
pub use rises::Rises;
pub use second::RecordedSecond;
pub use setup::SetupFault;
pub use told::ToldSecond;
