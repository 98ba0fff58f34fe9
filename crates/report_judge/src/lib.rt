//! A recording of lines, judged: which of its channels are judged, and what is said of them.
//!
//! [`judge`] reads a recording from a device in pieces, in memory that does not grow with it, and
//! answers its verdict, or why it is refused. [`Reading`] is the same for bytes that come by
//! themselves, [`judge_record`] reads a disturbance record from two devices, and judges its stamp
//! too, and [`judge_single`] reads one that is a single file.
#![tactic(auto)]

mod asked;
mod channels;
mod fault;
mod hearing;
mod names;
mod reading;
mod record;
mod run;
mod single;
mod stamp;
mod table;

pub use asked::Asked;
pub use channels::ChannelFault;
pub use fault::JudgeFault;
pub use hearing::Judged;
pub use names::push_name;
pub use reading::Reading;
pub use record::judge_record;
pub use run::judge;
pub use single::judge_single;
