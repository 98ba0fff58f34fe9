//! A line's polarity.

ghost use Rattle.std.specs.Prelude.{◌≡◌, ◌∷◌, [], List, Bool, true, Option};
ghost use Rattle.record_pulses.specs.Views.{IsViewOf};
ghost use Rattle.record_pulses.specs.Pulses.{AreInTurn, pulses_of};
ghost use Rattle.record_pulses.specs.Looks.{IsLookOf, IsLooksOf, ends_frame, first_of, heard_if, heard_of, is_looked_at, is_shown_high, polarity_by, told_of};

use crate::edge::{Edge, Pulse};
use crate::pulses::Pulses;
use crate::view::View;

/// A pulse that has ended.
#[derive(Clone, Copy, PartialEq, Eq)]
pub struct Heard {
    /// The pulse.
    pub pulse: Pulse,
    /// Its place in its frame by its polarity, 1 to 100, or 0 out of step.
    pub place: u8,
}

/// A line by one polarity.
#[derive(Drop)]
pub(crate) struct Look {
    pub(crate) pulses: Pulses,
    pub(crate) view: View,
}

impl Look {
    fn new(is_high: bool) -> Look
        ensures { IsLookOf result is_high [] }
    {
        Look {
            pulses: Pulses::new(is_high),
            view: View::new(),
        }
    }

    fn change(&mut self, edge: Edge) -> Option<Heard>
        ensures heard { (polarity : Bool) (edges : List Edge) → IsLookOf self.old polarity edges
            → AreInTurn (edge ∷ edges) → result ≡ heard_of polarity edge edges }
        ensures new { (polarity : Bool) (edges : List Edge) → IsLookOf self.old polarity edges
            → AreInTurn (edge ∷ edges) → IsLookOf self.new polarity (edge ∷ edges) }
    {
        let pulse = self.pulses.change(edge)?;
        let place = self.view.hear(pulse);
        Some(Heard { pulse, place })
    }
}

/// A line by both polarities, until a frame ends in one of them: that is the line's from then on, and by
/// the other one it is looked at no more. Pulses of IRIG-B rise each 10 ms and do not end so: by the
/// wrong polarity no frame is found.
#[derive(Drop)]
pub struct Looks {
    pub(crate) polarity: Option<bool>,
    pub(crate) upright: Look,
    pub(crate) inverted: Look,
}

impl Looks {
    /// Of a line on which nothing came; its pulses are high, or low, if that is known.
    pub fn new(polarity: Option<bool>) -> Looks
        ensures { IsLooksOf result polarity [] }
    {
        Looks {
            polarity,
            upright: Look::new(true),
            inverted: Look::new(false),
        }
    }

    /// The line's next change, without glitches: the pulse that ends with it, if one does. Until the
    /// polarity is known it may be of either.
    ///
    /// If the polarity is known only now, a frame ends with the pulse: it has [`View::whole`] of the
    /// view.
    pub fn change(&mut self, edge: Edge) -> Option<Heard>
        ensures told { (given : Option Bool) (edges : List Edge) → IsLooksOf self.old given edges
            → AreInTurn (edge ∷ edges) → result ≡ told_of given edge edges }
        ensures new { (given : Option Bool) (edges : List Edge) → IsLooksOf self.old given edges
            → AreInTurn (edge ∷ edges) → IsLooksOf self.new given (edge ∷ edges) }
    {
        let upright = change(&mut self.upright, is_looked_at(self.polarity, true), edge);
        let inverted = change(&mut self.inverted, is_looked_at(self.polarity, false), edge);
        self.polarity = polarity_by(self.polarity, upright, inverted);
        first_of(upright, inverted)
    }

    /// Whether the line's pulses are high, if it is known.
    pub fn polarity(&self) -> Option<bool>
        ensures { result ≡ self.now.polarity }
    {
        self.polarity
    }

    /// Whether the polarity that counts is the one whose pulses are high: the line's, or as long as it
    /// is not known the one with more pulses on time, of equals this one.
    pub fn is_shown_high(&self) -> bool
        ensures { (given : Option Bool) (edges : List Edge) → IsLooksOf self.now given edges
            → result ≡ is_shown_high given edges }
    {
        match self.polarity {
            Some(is_high) => is_high,
            None => {
                self.inverted.view.seen.counts.on_time <= self.upright.view.seen.counts.on_time
            }
        }
    }

    /// What the line is by the polarity that counts.
    pub fn view(&self) -> &View
        ensures { (given : Option Bool) (edges : List Edge) → IsLooksOf self.now given edges
            → IsViewOf result.now (pulses_of (is_shown_high given edges) edges) }
    {
        if self.is_shown_high() {
            &self.upright.view
        } else {
            &self.inverted.view
        }
    }
}

// A change of a line by one polarity, if it is looked at by that.
fn change(look: &mut Look, is_looked_at: bool, edge: Edge) -> Option<Heard>
    ensures heard { (polarity : Bool) (edges : List Edge)
        → (is_looked_at ≡ true → IsLookOf look.old polarity edges) → AreInTurn (edge ∷ edges)
        → result ≡ heard_if is_looked_at polarity edge edges }
    ensures new { (polarity : Bool) (edges : List Edge)
        → (is_looked_at ≡ true → IsLookOf look.old polarity edges) → AreInTurn (edge ∷ edges)
        → is_looked_at ≡ true → IsLookOf look.new polarity (edge ∷ edges) }
{
    if is_looked_at {
        look.change(edge)
    } else {
        None
    }
}

fn is_looked_at(polarity: Option<bool>, is_high: bool) -> bool
    ensures { result ≡ is_looked_at polarity is_high }
{
    match polarity {
        Some(known) => known == is_high,
        None => true,
    }
}

fn polarity_by(
    polarity: Option<bool>,
    upright: Option<Heard>,
    inverted: Option<Heard>,
) -> Option<bool>
    ensures { result ≡ polarity_by polarity upright inverted }
{
    match polarity {
        Some(is_high) => Some(is_high),
        None if ends_frame(upright) => Some(true),
        None if ends_frame(inverted) => Some(false),
        None => None,
    }
}

fn ends_frame(heard: Option<Heard>) -> bool
    ensures { result ≡ ends_frame heard }
{
    match heard {
        Some(heard) => heard.place == 100,
        None => false,
    }
}

fn first_of(upright: Option<Heard>, inverted: Option<Heard>) -> Option<Heard>
    ensures { result ≡ first_of upright inverted }
{
    match upright {
        Some(heard) => Some(heard),
        None => inverted,
    }
}
