//! A recorded line, as its changes are seen and as they are played.

ghost use Rattle.std.specs.Prelude.{◌≡◌, ◌∷◌, [], Bool, List, Option};
ghost use Rattle.record_pulses.specs.Looks.{polarity_of};
ghost use Rattle.record_pulses.specs.Pulses.{AreInTurn};
ghost use Rattle.record_lines.specs.RecordedLines.{IsRecordedLine, pulse_by};

use record_pulses::{Edge, Looks, Pulse, Pulses};

/// A recorded line whose changes are seen before they are played: what was seen shows its polarity, by
/// which the pulses of what is played are told.
#[derive(Drop)]
pub struct RecordedLine {
    pub(crate) looks: Looks,
    pub(crate) upright: Pulses,
    pub(crate) inverted: Pulses,
}

impl RecordedLine {
    /// A line on which nothing came; its pulses are high, or low, if that is known.
    pub fn new(polarity: Option<bool>) -> RecordedLine
        ensures { IsRecordedLine result polarity [] [] }
    {
        RecordedLine {
            looks: Looks::new(polarity),
            upright: Pulses::new(true),
            inverted: Pulses::new(false),
        }
    }

    /// Whether the line's pulses are high, if what was seen shows it.
    pub fn polarity(&self) -> Option<bool>
        ensures { (given : Option Bool) (seen played : List Edge)
            → IsRecordedLine self.now given seen played → result ≡ polarity_of given seen }
    {
        self.looks.polarity()
    }

    /// The line's next change, without glitches, is seen.
    pub fn see(&mut self, edge: Edge)
        ensures { (given : Option Bool) (seen played : List Edge)
            → IsRecordedLine self.old given seen played → AreInTurn (edge ∷ seen)
            → IsRecordedLine self.new given (edge ∷ seen) played }
    {
        let _ = self.looks.change(edge);
    }

    /// The next change is played: the pulse that ends with it by the line's polarity, if that is known.
    pub fn play(&mut self, edge: Edge) -> Option<Pulse>
        ensures pulse { (given : Option Bool) (seen played : List Edge)
            → IsRecordedLine self.old given seen played
            → result ≡ pulse_by (polarity_of given seen) edge played }
        ensures new { (given : Option Bool) (seen played : List Edge)
            → IsRecordedLine self.old given seen played
            → IsRecordedLine self.new given seen (edge ∷ played) }
    {
        let upright = self.upright.change(edge);
        let inverted = self.inverted.change(edge);
        match self.looks.polarity() {
            Some(true) => upright,
            Some(false) => inverted,
            None => None,
        }
    }
}
