//! Levels with their time.

/// What a recording says from a time on: which of its lines are high.
#[derive(Clone, Copy, PartialEq, Eq)]
pub struct Levels {
    /// Nanoseconds of the recording, below 1,000 hours.
    pub time_ns: u64,
    /// A bit for each of up to five lines, the first by the bit of 1: 0 to 31.
    pub high: u8,
}
