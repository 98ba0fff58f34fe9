//! The answer of a run.

use irig_plant::Audit;

/// What a run without a refusal gave.
#[derive(Clone, Copy, PartialEq, Eq)]
pub struct Outcome {
    /// The lines of the input, skipped ones too.
    pub lines: u64,
    /// Whether the premises held under which each announced second is the true one.
    pub audit: Audit,
}
