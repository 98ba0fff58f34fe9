//! Where what most lines claim contradicts itself.

ghost use Rattle.std.specs.Prelude.{◌≡◌, ◌≤◌};
ghost use Rattle.record_verdict.specs.Jumps.{are_near, follows, jump_between, jump_from, jumps_after, no_jumps, passed, plain_second};

use crate::stretch::AgreedSecond;
use irig_time::UtcSecond;

/// Two agreed seconds, one after another, of which the later one is not as many seconds after the
/// earlier one as passed.
#[derive(Clone, Copy)]
pub struct Jump {
    /// The earlier one.
    pub before: AgreedSecond,
    /// The later one.
    pub after: AgreedSecond,
}

/// The jumps of a recording.
#[derive(Clone, Copy)]
pub struct Jumps {
    /// How many there are. It stays at 2^64 - 1 if it comes to it.
    pub count: u64,
    /// The first one.
    pub first: Option<Jump>,
}

impl Jumps {
    pub(crate) fn none() -> Jumps
        ensures { result ≡ no_jumps }
    {
        Jumps {
            count: 0,
            first: None,
        }
    }

    /// With one more, if there is one.
    pub(crate) fn after(self, jump: Option<Jump>) -> Jumps
        ensures { result ≡ jumps_after self jump }
    {
        match jump {
            Some(jump) => Jumps {
                count: self.count.saturating_add(1),
                first: self.first.or(Some(jump)),
            },
            None => self,
        }
    }
}

/// The jump from an agreed second to the next one, if there is one.
pub(crate) fn jump_between(before: Option<AgreedSecond>, after: AgreedSecond) -> Option<Jump>
    ensures { result ≡ jump_between before after }
{
    match before {
        Some(before) => jump_from(before, after),
        None => None,
    }
}

fn jump_from(before: AgreedSecond, after: AgreedSecond) -> Option<Jump>
    ensures { result ≡ jump_from before after }
{
    if follows(&before, &after) {
        None
    } else {
        Some(Jump { before, after })
    }
}

// Whether one is as many seconds after the other as passed. Between two days a leap second may
// lie.
fn follows(before: &AgreedSecond, after: &AgreedSecond) -> bool
    ensures { result ≡ follows before.now after.now }
{
    let from = plain_second(before.claim.at);
    let to = plain_second(after.claim.at);
    let passed = passed(before, after);
    if before.claim.at.day == after.claim.at.day {
        from + passed == to
    } else {
        are_near(from + passed, to)
    }
}

// Whether two numbers are apart by one at most.
fn are_near(one: u64, other: u64) -> bool
    requires one { one ≤ 18446744073709551614 }
    requires other { other ≤ 18446744073709551614 }
    ensures { result ≡ are_near one other }
{
    one <= other + 1 && other <= one + 1
}

// The number of a second, if each day had 86,400.
fn plain_second(at: UtcSecond) -> u64
    ensures says { result ≡ plain_second at }
    ensures few { result ≤ 371089600000000 }
{
    86_400 * u64::from(at.day) + u64::from(at.sod)
}

// How many seconds passed between the ends of two, to the nearest.
fn passed(before: &AgreedSecond, after: &AgreedSecond) -> u64
    ensures says { result ≡ passed before.now after.now }
    ensures few { result ≤ 18446744073710 }
{
    let passed_us = after.lines_us.saturating_sub(before.lines_us);
    passed_us / 1_000_000 + (passed_us % 1_000_000 + 500_000) / 1_000_000
}
