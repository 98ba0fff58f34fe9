//! The rules of one reader.

ghost use Rattle.std.specs.Prelude.{◌↔◌, IsTrue};
ghost use Rattle.irig_reader.specs.Rules.{IsReaderRules};

/// When a reader locks, and how long it holds over.
#[derive(Clone, Copy, PartialEq, Eq)]
pub struct ReaderRules {
    /// The votes that follow one another after which it announces, 1 to 60.
    pub lock_after: u8,
    /// The edges without a vote at which it goes on announcing, 0 to 1,000,000.
    pub holdover: u32,
}

/// Whether the rules of a reader are in their ranges.
pub fn in_range(rules: &ReaderRules) -> bool
    ensures { IsTrue result ↔ IsReaderRules rules.now }
{
    (1..=60).contains(&rules.lock_after) && rules.holdover <= 1_000_000
}
