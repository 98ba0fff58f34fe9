//! What is logged.

use irig_reader::Report;
use irig_time::Claim;
use irig_vote::{Redundancy, Tells};

/// What a reader said at an edge, and what its ports told there.
#[derive(Clone, Copy, PartialEq, Eq)]
pub struct Entry {
    /// The reader, from 0.
    pub reader: u8,
    /// The edge: at its n-th tick a reader is at edge n, restarts or not.
    pub edge: u64,
    /// What it said.
    pub report: Report,
    /// How many ports it has.
    pub redundancy: Redundancy,
    /// What they told.
    pub told: Tells,
    /// What a port tells of a true frame there; none if the timeline has no second for it.
    pub truth: Option<Claim>,
}
