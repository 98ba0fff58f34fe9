//! What is counted of a line's pulses.

ghost use Rattle.std.specs.Prelude.{◌≡◌, ◌∷◌, [], List};
ghost use Rattle.record_pulses.specs.Views.{AreCountsOf, AreWidthsOf, IsSeenOf, ends_bare, gap_in_step, more_if, step_of, with_count};

use crate::edge::Pulse;
use crate::spread::Spread;
use crate::track::{Step, is_on_time};
use irig_frame::{Symbol, classify};

/// How many of a line's pulses are what. A count stays at 2^64 - 1 if it comes to it.
#[derive(Clone, Copy, PartialEq, Eq)]
pub struct Counts {
    /// Pulses.
    pub pulses: u64,
    /// Frames: a hundred pulses in step, from the first of a frame to its last.
    pub frames: u64,
    /// Pulses out of step.
    pub out_of_step: u64,
    /// Pulses on time: they rise 9,000 to 10,999 us after the one before (profile of irig_sync).
    pub on_time: u64,
    /// Frames that began.
    pub begun: u64,
    /// Whole frames whose year and control bits are all 0.
    pub bare: u64,
}

impl Counts {
    fn none() -> Counts
        ensures { AreCountsOf result [] }
    {
        Counts {
            pulses: 0,
            frames: 0,
            out_of_step: 0,
            on_time: 0,
            begun: 0,
            bare: 0,
        }
    }

    fn count(&mut self, place: u8, is_on_time: bool, is_bare: bool)
        ensures { self.new ≡ with_count place is_on_time is_bare self.old }
    {
        *self = Counts {
            pulses: more_if(true, self.pulses),
            frames: more_if(place == 100, self.frames),
            out_of_step: more_if(place == 0, self.out_of_step),
            on_time: more_if(is_on_time, self.on_time),
            begun: more_if(place == 1, self.begun),
            bare: more_if(is_bare, self.bare),
        };
    }
}

fn more_if(is_so: bool, count: u64) -> u64
    ensures { result ≡ more_if is_so count }
{
    if is_so {
        count.saturating_add(1)
    } else {
        count
    }
}

/// The widths of a line's pulses, by the symbols that they are.
#[derive(Clone, Copy, PartialEq, Eq)]
pub struct Widths {
    /// Of the symbol 0, 500 to 3,499 us (profile of irig_frame).
    pub zero: Spread,
    /// Of the symbol 1, 3,500 to 6,499 us.
    pub one: Spread,
    /// Of markers, 6,500 to 9,499 us.
    pub marker: Spread,
    /// Of those that are no symbol.
    pub bad: Spread,
}

impl Widths {
    fn none() -> Widths
        ensures { AreWidthsOf result [] }
    {
        Widths {
            zero: Spread::none(),
            one: Spread::none(),
            marker: Spread::none(),
            bad: Spread::none(),
        }
    }

    fn add(&mut self, pulse: Pulse)
        ensures { (pulses : List Pulse) → AreWidthsOf self.old pulses
            → AreWidthsOf self.new (pulse ∷ pulses) }
    {
        let width_us = u64::from(pulse.width_us);
        match classify(pulse.width_us) {
            Symbol::Zero => self.zero.add(width_us),
            Symbol::One => self.one.add(width_us),
            Symbol::Marker => self.marker.add(width_us),
            Symbol::Bad => self.bad.add(width_us),
        }
    }
}

/// What a line's pulses are by one polarity.
#[derive(Clone, Copy, PartialEq, Eq)]
pub struct Seen {
    /// How many are what.
    pub counts: Counts,
    /// How wide they are.
    pub widths: Widths,
    /// From each pulse's rise to that of the next one.
    pub gaps: Spread,
    /// The same, where the later pulse is in step with the one before it.
    pub gaps_in_step: Spread,
    /// From the beginning of a whole frame to that of the next one, which follows on time.
    pub seconds: Spread,
}

impl Seen {
    pub(crate) fn nothing() -> Seen
        ensures { IsSeenOf result [] }
    {
        Seen {
            counts: Counts::none(),
            widths: Widths::none(),
            gaps: Spread::none(),
            gaps_in_step: Spread::none(),
            seconds: Spread::none(),
        }
    }

    /// Another pulse, what it is after those before it, and whether a bare frame ends with it.
    pub(crate) fn note(&mut self, pulse: Pulse, step: Step, is_bare: bool)
        ensures { (pulses : List Pulse) → IsSeenOf self.old pulses → step ≡ step_of pulse pulses
            → is_bare ≡ ends_bare pulse pulses → IsSeenOf self.new (pulse ∷ pulses) }
    {
        self.counts
            .count(step.place, is_on_time(step.gap_us), is_bare);
        self.widths.add(pulse);
        self.gaps.note(step.gap_us);
        self.gaps_in_step.note(gap_in_step(step.place, step.gap_us));
        self.seconds.note(step.second_us);
    }
}

fn gap_in_step(place: u8, gap_us: Option<u64>) -> Option<u64>
    ensures { result ≡ gap_in_step place gap_us }
{
    if place > 1 { gap_us } else { None }
}
