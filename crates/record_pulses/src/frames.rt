//! The pulses of a line's frames.

ghost use Rattle.std.specs.Prelude.{◌≡◌, ◌≤◌, ◌<◌, ◌∷◌, ◌&&◌, [], List, nat_eq};
ghost use Rattle.record_pulses.specs.Views.{AreFramesOf, is_bare, is_clear, place_now};

use crate::edge::Pulse;
use irig_frame::{Symbol, classify};

const NO_PULSE: Pulse = Pulse {
    rise_us: 0,
    width_us: 0,
};

/// The pulses in step since a frame began, by their places, and those of the last whole frame.
#[derive(Clone, Copy)]
pub(crate) struct Frames {
    pub(crate) heard: [Pulse; 100],
    pub(crate) whole: [Pulse; 100],
}

impl Frames {
    pub(crate) fn new() -> Frames
        ensures { AreFramesOf result [] }
    {
        Frames {
            heard: [NO_PULSE; 100],
            whole: [NO_PULSE; 100],
        }
    }

    /// Keeps a pulse of a place, 1 to 100, or 0 out of step.
    pub(crate) fn keep(&mut self, place: u8, pulse: Pulse)
        requires { place ≤ 100 }
        ensures { (pulses : List Pulse) → AreFramesOf self.old pulses
            → place ≡ place_now (pulse ∷ pulses) → AreFramesOf self.new (pulse ∷ pulses) }
    {
        if place == 0 {
            return;
        }
        self.heard[usize::from(place) - 1] = pulse;
        if place == 100 {
            let heard = self.heard;
            self.whole = heard;
        }
    }

    /// Whether a frame ends with a pulse of this place that was kept, and is bare.
    pub(crate) fn end_bare(&self, place: u8) -> bool
        ensures { result ≡ nat_eq place 100 && is_bare self.now.whole }
    {
        place == 100 && self.is_bare()
    }

    // Whether the year and the control bits of the last whole frame are all 0.
    fn is_bare(&self) -> bool
        ensures { result ≡ is_bare self.now.whole }
    {
        let mut is_bare = true;
        for element in 50..79u8 {
            is_bare = is_bare && self.is_clear(element);
        }
        is_bare
    }

    // Whether an element of that frame is a 0, if it is no position identifier.
    fn is_clear(&self, element: u8) -> bool
        requires { element < 100 }
        ensures { result ≡ is_clear self.now.whole element }
    {
        let pulse = self.whole[element as usize];
        element % 10 == 9 || classify(pulse.width_us) == Symbol::Zero
    }
}
