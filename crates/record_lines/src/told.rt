//! A second that a receiver told.

ghost use Rattle.std.specs.Prelude.{◌≡◌, ◌%◌, ◌^◌};
ghost use Rattle.record_lines.specs.ToldSeconds.{edge_by, told_by};

use irig_time::Claim;
use irig_timekeeper::{Beat, Ticked};

/// A second that a tick told. Its times are by the counter that does not wrap, in microseconds.
#[derive(Clone, Copy, PartialEq, Eq)]
pub struct ToldSecond {
    /// When the tick was.
    pub at_us: u64,
    /// When the second begins: at most 1.006 s before the tick.
    pub edge_us: u64,
    /// What the timekeeper said of it.
    pub beat: Beat,
    /// The claim on which lines agreed at the tick, if they did.
    pub vote: Option<Claim>,
}

// What a tick told, if it told a second.
pub(crate) fn told_by(at_us: u64, ticked: Ticked) -> Option<ToldSecond>
    ensures { result ≡ told_by at_us ticked.beat ticked.vote }
{
    match ticked.beat {
        Some(beat) => Some(ToldSecond {
            at_us,
            edge_us: edge_by(at_us, beat.edge_us),
            beat,
            vote: ticked.vote,
        }),
        None => None,
    }
}

// The time at or before another at which a counter of 32 bits shows this.
fn edge_by(at_us: u64, edge_us: u32) -> u64
    ensures { result ≡ edge_by at_us edge_us }
{
    let ago_us = low(at_us).wrapping_sub(edge_us);
    at_us.saturating_sub(u64::from(ago_us))
}

// By a counter of 32 bits.
pub(crate) fn low(time_us: u64) -> u32
    ensures { result ≡ time_us % 2 ^ 32 }
{
    (time_us % 4_294_967_296) as u32
}
