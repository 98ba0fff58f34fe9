//! What of a run is written.

/// What is written beside announcements and the last line.
#[derive(Clone, Copy, PartialEq, Eq)]
pub struct Shown {
    /// Whether silent entries are written too.
    pub all: bool,
    /// Whether it is written after each tick, with an entry or without, what its ports told.
    pub ports: bool,
}
