//! The pulses that a line's changes make.

ghost use Rattle.std.specs.Prelude.{◌≡◌, [], ◌∷◌, List};
ghost use Rattle.record_pulses.specs.Pulses.{ArePulsesOf, pulse_ended};

use crate::edge::{Edge, Pulse};

/// A line's pulses by one polarity. A level with which the recording begins is no pulse, since it is
/// not known when it rose.
#[derive(Clone, Copy)]
pub struct Pulses {
    pub(crate) is_high: bool,
    pub(crate) has_begun: bool,
    pub(crate) rise_ns: Option<u64>,
}

impl Pulses {
    /// Of a line on which nothing came, and whose pulses are high or low.
    pub fn new(is_high: bool) -> Pulses
        ensures polarity { result.is_high ≡ is_high }
        ensures of_nothing { ArePulsesOf result [] }
    {
        Pulses {
            is_high,
            has_begun: false,
            rise_ns: None,
        }
    }

    /// The line's next change: the pulse that ends with it, if one does.
    pub fn change(&mut self, edge: Edge) -> Option<Pulse>
        ensures polarity { self.new.is_high ≡ self.old.is_high }
        ensures pulse { (edges : List Edge) → ArePulsesOf self.old edges
            → result ≡ pulse_ended self.old.is_high edge edges }
        ensures new { (edges : List Edge) → ArePulsesOf self.old edges
            → ArePulsesOf self.new (edge ∷ edges) }
    {
        let rise_ns = self.rise_ns;
        let has_level = edge.is_high == self.is_high;
        self.rise_ns = if has_level && self.has_begun {
            Some(edge.time_ns)
        } else {
            None
        };
        self.has_begun = true;
        match rise_ns {
            Some(rise_ns) if !has_level => Some(Pulse::between(rise_ns, edge.time_ns)),
            _ => None,
        }
    }
}
