//! How exact the lines of a device are.

ghost use Rattle.std.specs.Prelude.{◌≡◌, ◌≤◌, ◌<◌, ◌⊎◌, MatchOption};
ghost use Rattle.irig_lines.specs.Exactness.{most_within_us};

/// How exact the lines of a device are: each pulse of a true line rises less than so many
/// microseconds from its place, 1 to 450.
#[derive(Clone, Copy, PartialEq, Eq)]
pub struct Within {
    pub(crate) us: u32,
    ghost some: { 1 ≤ us },
    ghost few: { us ≤ most_within_us },
}

impl Within {
    /// So many microseconds, if they are 1 to 450.
    pub fn new(us: u32) -> Option<Self>
        ensures { MatchOption result ((us ≡ 0) ⊎ (most_within_us < us)) (λ within. within.us ≡ us) }
    {
        if us == 0 || us > 450 {
            return None;
        }
        Some(Within { us })
    }

    /// The microseconds, 1 to 450.
    pub fn us(self) -> u32
        ensures value { result ≡ self.us }
        ensures some { 1 ≤ result }
        ensures few { result ≤ most_within_us }
    {
        self.us
    }
}
