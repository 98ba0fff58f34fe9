//! A line as a recording has it.

ghost use Rattle.std.specs.Prelude.{◌≡◌, [], ◌∷◌, List, None, Some};
ghost use Rattle.record_pulses.specs.Looks.{polarity_of};
ghost use Rattle.record_lines.specs.Heard.{EndsOn, IsChannelTo, IsToldMore, RipensTo, SeesOn};
ghost use Rattle.record_lines.specs.RecordedLines.{IsRecordedLine, pulse_by};

use crate::line::RecordedLine;
use record_pulses::{Edge, Pulse, Steady};

/// A line as a recording has it: without glitches, and with the end of its last whole frame.
#[derive(Drop)]
pub(crate) struct Channel {
    pub(crate) steady: Steady,
    pub(crate) line: RecordedLine,
    pub(crate) end_us: Option<u64>,
}

impl Channel {
    /// A line of which nothing came, where a level lasts for so many nanoseconds or is a glitch.
    pub(crate) fn new(glitch_ns: u64) -> Channel
        ensures { IsChannelTo result glitch_ns (Some 0) [] [] [] }
    {
        Channel {
            steady: Steady::new(glitch_ns),
            line: RecordedLine::new(None),
            end_us: None,
        }
    }

    /// The change that waits is seen, and comes out, if its level has lasted long enough by a time.
    pub(crate) fn ripen(&mut self, now_ns: u64) -> Option<Edge>
        ensures { RipensTo self.old self.new now_ns result }
    {
        if self.steady.ripe(now_ns).is_none() {
            return None;
        }
        let edge = self.steady.let_out();
        self.see(edge);
        edge
    }

    /// The change that waits is seen, and comes out.
    pub(crate) fn let_out(&mut self) -> Option<Edge>
        ensures { EndsOn self.old self.new result }
    {
        let edge = self.steady.let_out();
        self.see(edge);
        edge
    }

    /// The line's next level: the change before it is seen, and comes out, if its level has lasted long
    /// enough.
    pub(crate) fn change(&mut self, level: Edge) -> Option<Edge>
        ensures { IsToldMore self.old self.new level result }
    {
        let edge = self.steady.change(level);
        self.see(edge);
        edge
    }

    fn see(&mut self, edge: Option<Edge>)
        ensures steady { self.new.steady ≡ self.old.steady }
        ensures line { SeesOn self.old self.new edge }
    {
        if let Some(edge) = edge {
            self.line.see(edge);
        }
    }

    /// The next change is played: the pulse that ends with it by the line's polarity, if that is known.
    pub(crate) fn play(&mut self, edge: Edge) -> Option<Pulse>
        ensures pulse { (seen played : List Edge) → IsRecordedLine self.old.line None seen played
            → result ≡ pulse_by (polarity_of None seen) edge played }
        ensures new { (seen played : List Edge) → IsRecordedLine self.old.line None seen played
            → IsRecordedLine self.new.line None seen (edge ∷ played) }
        ensures steady { self.new.steady ≡ self.old.steady }
    {
        self.line.play(edge)
    }

    /// A whole frame ends then.
    pub(crate) fn ends_at(&mut self, end_us: u64)
        ensures line { self.new.line ≡ self.old.line }
        ensures steady { self.new.steady ≡ self.old.steady }
    {
        self.end_us = Some(end_us);
    }

    /// How long a second of the line is by its pulses, in microseconds, if it has sent a frame.
    pub(crate) fn second_us(&self) -> Option<u64> {
        self.line.polarity()?;
        let gaps = &self.line.looks.view().seen().gaps_in_step;
        gaps.sum_us.saturating_mul(100).checked_div(gaps.count)
    }
}
