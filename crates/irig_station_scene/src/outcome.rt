//! The answer of a run.

use irig_station::Audit;

/// What a run without a refusal gave.
#[derive(Clone, Copy, PartialEq, Eq)]
pub struct StationOutcome {
    /// The lines of the input, skipped ones too.
    pub lines: u64,
    /// Whether the premises held under which each announced second and each stamp is true.
    pub audit: Audit,
}
