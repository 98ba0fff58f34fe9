//! A second that a recording showed.

use irig_time::Claim;
use irig_timekeeper::Beat;

/// A second that a recording showed. Times are in microseconds, and 0 is that of the recording's first
/// sample or change.
#[derive(Clone, Copy, PartialEq, Eq)]
pub struct RecordedSecond {
    /// When it begins, by the recorder's clock.
    pub edge_us: u64,
    /// The same by the time of the lines, a second of which is what the lines say is one.
    pub lines_us: u64,
    /// What a timekeeper said of it that heard the lines; `beat.told` has what each line told of the
    /// second that ends there.
    pub beat: Beat,
    /// The claim of the second that ends there on which more than f lines agree, if they do.
    pub vote: Option<Claim>,
    /// When the last whole frame of each line ended, by the recorder's clock; none of a line without
    /// one.
    pub ends_us: [Option<u64>; 5],
}
