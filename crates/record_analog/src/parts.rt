//! What is known of an analog channel.

use record_cells::{Swing, Threshold};

/// A factor that is not 0.
#[derive(Clone, Copy)]
pub(crate) struct Factor {
    pub(crate) is_minus: bool,
    /// How large it is, in parts of 10^-18.
    pub(crate) parts: u128,
}

/// An analog channel with a threshold, and its level.
#[derive(Clone, Copy)]
pub struct Gauge {
    pub(crate) place: u32,
    pub(crate) is_minus: bool,
    pub(crate) threshold: Threshold,
    pub(crate) swing: Swing,
}
