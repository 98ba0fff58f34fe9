//! The counter that carries a reader from second to second, with a vote or alone.
//!
//! A [`Hold`] stands at a UTC second and steps to the next one. At a month's end it needs to know
//! whether a leap second comes (ITU-R TF.460): it keeps what the votes said of that, asks its table
//! if they said nothing, and stops if neither speaks. When the votes speak, and how long a
//! hold may go alone, is this project's profile.
#![tactic(auto)]

mod hold;
mod laws;

pub use hold::{Hold, Turn};
pub use laws::{law_of_hold, law_of_one_vote, law_of_steps, law_of_stops};
