//! What a line looks like that is no IRIG-B.

ghost use Rattle.std.specs.Prelude.{◌≡◌, ◌*◌, ◌-◌, nat_le};
ghost use Rattle.record_pulses.specs.Oddities.{is_filtered, oddity_of, oddity_of_frames};

use crate::seen::{Counts, Seen, Widths};

/// What is odd about a line.
#[derive(Clone, Copy, PartialEq, Eq)]
pub enum Oddity {
    /// No pulse is on it.
    Silent,
    /// One pulse alone is on it.
    Single,
    /// There are pulses of the symbols 1 and P, and none of the symbol 0: a filter of its input, of
    /// milliseconds, takes these away.
    Filtered,
    /// No more than half of its pulses rise 10 ms after the one before: another code, or a modulated
    /// one.
    Uneven,
    /// No frame begins: never do two markers follow each other.
    NeverBegins,
    /// Frames begin, and none has a hundred pulses in step.
    NeverWhole,
    /// All frames have a year of 0 and control bits of 0, as those of a clock without those of IEEE 1344
    /// have.
    Bare,
}

impl Seen {
    /// What is odd about the line, if anything is.
    pub fn oddity(&self) -> Option<Oddity>
        ensures { result ≡ oddity_of self.now }
    {
        let counts = &self.counts;
        if counts.pulses == 0 {
            Some(Oddity::Silent)
        } else if counts.frames > 0 {
            oddity_of_frames(counts.frames, counts.bare)
        } else if counts.pulses == 1 {
            Some(Oddity::Single)
        } else if is_filtered(&self.widths) {
            Some(Oddity::Filtered)
        } else if is_uneven(counts) {
            Some(Oddity::Uneven)
        } else if counts.begun == 0 {
            Some(Oddity::NeverBegins)
        } else {
            Some(Oddity::NeverWhole)
        }
    }
}

fn oddity_of_frames(frames: u64, bare: u64) -> Option<Oddity>
    ensures { result ≡ oddity_of_frames frames bare }
{
    if bare == frames {
        Some(Oddity::Bare)
    } else {
        None
    }
}

fn is_filtered(widths: &Widths) -> bool
    ensures { result ≡ is_filtered widths.now }
{
    widths.zero.count == 0 && widths.one.count > 0 && widths.marker.count > 0
}

// Twice the count may not fit.
fn is_uneven(counts: &Counts) -> bool
    ensures { result ≡ nat_le (2 * counts.now.on_time) (counts.now.pulses - 1) }
{
    counts.on_time <= counts.pulses.saturating_sub(1) / 2
}
