//! The single file of a disturbance record (`.cff`), in pieces: [`Head`] reads its configuration, up
//! to where its samples begin.
#![tactic(auto)]

mod head;
mod laws;
mod parts;
mod section;

pub use head::{Found, HeadFault};
pub use laws::pieces_do_not_matter;
pub use parts::Head;
