//! The audit of a simulated device, which knows the true time: from the calls that the device gets,
//! beside what true lines would have sent, it says if the premises were kept under which a
//! [`Timekeeper`](irig_timekeeper::Timekeeper) tells the truth. If they were, each second that the
//! device announces is the true one, and each stamp names its instant.
#![tactic(auto)]

mod device;
mod elements;
mod laws;
mod line;
mod watch;

pub use device::Device;
pub use irig_wires::Oscillator;
pub use laws::{
    a_device_vouches, a_kept_audit_was_kept, a_late_line_is_true, an_audit_asks_of_what_has_begun,
    an_audit_doubts_no_true_line, an_audit_is_exact, an_audit_is_right,
};
pub use line::{LineWitness, Risen};
pub use watch::Watch;
