//! Which frames of a timekeeper's lines have a vote.

ghost use Rattle.std.specs.Prelude.{◌≡◌, ◌≤◌, ◌<◌, MatchOption};
ghost use Rattle.irig_lines.specs.VoteLimits.{most_poor_from, usual_limits};

use irig_port::Limits;

/// The limits of a timekeeper: from a time quality on that is at most 8 a frame has no vote. So a clock
/// has none that says of itself that it may be 10 ms off: what is proved of a timekeeper is so of clocks
/// that are at most 1 ms off.
#[derive(Clone, Copy, PartialEq, Eq)]
pub struct VoteLimits {
    pub(crate) limits: Limits,
    ghost few: { limits.poor_from ≤ most_poor_from },
}

impl VoteLimits {
    /// These limits, if `poor_from` is at most 8.
    pub fn new(limits: Limits) -> Option<Self>
        ensures { MatchOption result (most_poor_from < limits.poor_from)
            (λ made. made.limits ≡ limits) }
    {
        if limits.poor_from > 8 {
            return None;
        }
        Some(VoteLimits { limits })
    }

    /// The limits: `poor_from` is at most 8.
    pub fn limits(self) -> Limits
        ensures { result ≡ self.limits }
    {
        self.limits
    }

    /// Those of a timekeeper that is given none: a frame of any day has a vote, but from quality 7 on none
    /// has.
    pub fn usual() -> Self
        ensures { result.limits ≡ usual_limits }
    {
        VoteLimits {
            limits: Limits {
                not_before: 0,
                poor_from: 7,
            },
        }
    }
}
