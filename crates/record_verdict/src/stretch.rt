//! Stretches of agreed seconds at which a line said one wrong thing.

ghost use Rattle.std.specs.Prelude.{◌≡◌};
ghost use Rattle.record_verdict.specs.Stretches.{begun, ended_by, late_since, more, stretch_after, turns_late};

use crate::tale::{Kind, Tale};
use irig_time::{Claim, Mark, UtcSecond};

/// A second on which most lines agree. Times are in microseconds of the recording.
#[derive(Clone, Copy)]
pub struct AgreedSecond {
    /// What they claim of it.
    pub claim: Claim,
    /// When it ends, by the recorder's clock.
    pub edge_us: u64,
    /// The same by the time of the lines.
    pub lines_us: u64,
}

/// Agreed seconds, one after another, at which a line said one kind of wrong, and of another second
/// one that was as far off.
#[derive(Clone, Copy, Default)]
pub struct Stretch {
    /// The line, 0 to 4.
    pub line: u8,
    /// What it said at the first of them.
    pub tale: Tale,
    /// The first of them.
    pub first: AgreedSecond,
    /// The last of them.
    pub last: AgreedSecond,
    /// How many there are. It stays at 2^64 - 1 if it comes to it.
    pub seconds: u64,
    /// How late or early the line's frames were at least, in microseconds; else 0.
    pub least_us: u64,
    /// How late or early they were at most; else 0.
    pub most_us: u64,
}

// The blank of a list that has room.
impl Default for AgreedSecond {
    fn default() -> AgreedSecond {
        AgreedSecond {
            claim: Claim {
                at: UtcSecond { day: 0, sod: 0 },
                mark: Mark::Unspoken,
            },
            edge_us: 0,
            lines_us: 0,
        }
    }
}

impl Stretch {
    fn begun(line: u8, second: AgreedSecond, tale: Tale) -> Stretch
        ensures { result ≡ begun line second tale }
    {
        let off_us = tale.off_us();
        Stretch {
            line,
            tale,
            first: second,
            last: second,
            seconds: 1,
            least_us: off_us,
            most_us: off_us,
        }
    }

    fn more(self, second: AgreedSecond, tale: Tale) -> Stretch
        ensures { result ≡ more self second tale }
    {
        let off_us = tale.off_us();
        Stretch {
            last: second,
            seconds: self.seconds.saturating_add(1),
            least_us: self.least_us.min(off_us),
            most_us: self.most_us.max(off_us),
            ..self
        }
    }

    // Whether the line was silent in the second before this one, and is late in it: the frame of the
    // one before had not ended then.
    fn turns_late(self, second: AgreedSecond, tale: Tale) -> bool
        ensures { result ≡ turns_late self second tale }
    {
        self.seconds == 1
            && second.lines_us.saturating_sub(self.last.lines_us) < NEXT_US
            && self.tale.kind().is(Kind::Silent)
            && tale.kind().is(Kind::Late)
    }

    // So it is late in both.
    fn late_since(self, second: AgreedSecond, tale: Tale) -> Stretch
        ensures { result ≡ late_since self second tale }
    {
        let off_us = tale.off_us();
        Stretch {
            tale,
            last: second,
            seconds: 2,
            least_us: off_us,
            most_us: off_us,
            ..self
        }
    }
}

// A frame that is late ends after the edge of its second.
const NEXT_US: u64 = 1_500_000;

/// The open stretch of a line after an agreed second.
pub(crate) fn stretch_after(
    before: Option<Stretch>,
    line: u8,
    second: AgreedSecond,
    tale: Tale,
) -> Option<Stretch>
    ensures { result ≡ stretch_after before line second tale }
{
    if tale.kind().is(Kind::Agreed) {
        return None;
    }
    match before {
        Some(stretch) if stretch.tale.goes_on(tale) => Some(stretch.more(second, tale)),
        Some(stretch) if stretch.turns_late(second, tale) => {
            Some(stretch.late_since(second, tale))
        }
        _ => Some(Stretch::begun(line, second, tale)),
    }
}

/// The stretch that ends where a line says this of a second.
pub(crate) fn ended_by(before: Option<Stretch>, second: AgreedSecond, tale: Tale) -> Option<Stretch>
    ensures { result ≡ ended_by before second tale }
{
    match before {
        Some(stretch) if stretch.tale.goes_on(tale) || stretch.turns_late(second, tale) => None,
        _ => before,
    }
}
