//! A reader's report: its second, its lock and its cause.

use irig_time::UtcSecond;

/// Whether a reader is locked.
#[derive(Clone, Copy, PartialEq, Eq)]
pub enum Lock {
    /// It has nothing to go on.
    Unlocked,
    /// It had so many votes that follow one another, 1 to 59, and needs more.
    Acquiring(u8),
    /// It announces by a vote.
    Locked,
    /// It announces without a vote, for the so-manyth edge since the last one, 1 to 1,000,000.
    Holdover(u32),
}

/// Why a reader announces, or does not.
#[derive(Clone, Copy, PartialEq, Eq)]
pub enum Cause {
    /// It announces by the vote of this edge.
    Voted,
    /// It announces by counting on.
    Held,
    /// It needs more votes.
    Acquiring,
    /// There was no vote, and it was not locked.
    NoVote,
    /// It has held over for as long as it may.
    Expired,
    /// A month ends, and nothing was said of a leap second there.
    LeapGuard,
    /// The vote is for another second than the one that it stands at.
    Jump,
    /// The last day served, 2099-12-30, ends.
    RangeEnd,
}

/// What a reader says at a tick.
#[derive(Clone, Copy, PartialEq, Eq)]
pub struct Report {
    /// The UTC second that begins at this edge, if it announces one.
    pub announce: Option<UtcSecond>,
    /// Whether it is locked.
    pub lock: Lock,
    /// Why it announces, or does not.
    pub cause: Cause,
}
