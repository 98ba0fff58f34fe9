//! A line without glitches.

ghost use Rattle.std.specs.Prelude.{◌≡◌, ◌≤◌, [], ◌∷◌, ℕ, List, None};
ghost use Rattle.record_pulses.specs.Glitches.{AreFrom, IsRipe, has_level, lasts, ripe_at, to_come, with_edge, without_glitches};

use crate::edge::Edge;

/// A line's changes but for glitches: a level that lasts for less than a time is left out together with
/// the change back. A change waits until it is known that its level lasts, and comes out then.
///
/// The level with which a recording begins is a change too, and no glitch's: if it lasts for less, it
/// alone is left out, and the change after it is the first.
#[derive(Clone, Copy)]
pub struct Steady {
    pub(crate) shortest_ns: u64,
    pub(crate) level: Option<bool>,
    pub(crate) waiting: Option<Edge>,
    pub(crate) has_begun: bool,
}

impl Steady {
    /// A line on which nothing came, where a level lasts for so many nanoseconds or is a glitch; 0
    /// leaves nothing out.
    pub fn new(shortest_ns: u64) -> Steady
        ensures { (edges : List Edge) → to_come result edges ≡ without_glitches shortest_ns edges }
    {
        Steady {
            shortest_ns,
            level: None,
            waiting: None,
            has_begun: false,
        }
    }

    /// The line's next change: the one before it, if that comes out now. A level that the line has
    /// already is no change.
    pub fn change(&mut self, edge: Edge) -> Option<Edge>
        ensures { (rest : List Edge)
            → with_edge result (to_come self.new rest) ≡ to_come self.old (edge ∷ rest) }
    {
        if self.has_level(edge.is_high) {
            return None;
        }
        self.level = Some(edge.is_high);
        match self.waiting {
            None => {
                self.waiting = Some(edge);
                None
            }
            Some(first) if self.lasts(first, edge.time_ns) => {
                self.waiting = Some(edge);
                self.has_begun = true;
                Some(first)
            }
            Some(_) => {
                self.waiting = if self.has_begun { None } else { Some(edge) };
                None
            }
        }
    }

    /// The change that waits, if its level has lasted long enough at a time that the recording has
    /// come to: [`let_out`](Self::let_out) lets it out.
    pub fn ripe(&self, now_ns: u64) -> Option<Edge>
        ensures { result ≡ ripe_at now_ns self.now }
    {
        match self.waiting {
            Some(edge) if self.lasts(edge, now_ns) => Some(edge),
            _ => None,
        }
    }

    /// Lets the change out that waits, if one does. To be called if it is ripe, or at the end of the
    /// recording, at which it comes out however long its level lasted.
    pub fn let_out(&mut self) -> Option<Edge>
        ensures answer { result ≡ self.old.waiting }
        ensures ripe { (now : ℕ) (rest : List Edge) → IsRipe now self.old → AreFrom now rest
            → with_edge result (to_come self.new rest) ≡ to_come self.old rest }
        ensures end { with_edge result (to_come self.new []) ≡ to_come self.old [] }
        ensures nothing { self.new.waiting ≡ None }
    {
        let first = self.waiting?;
        self.waiting = None;
        self.has_begun = true;
        Some(first)
    }

    fn has_level(&self, is_high: bool) -> bool
        ensures { result ≡ has_level self.now.level is_high }
    {
        matches!(self.level, Some(level) if level == is_high)
    }

    fn lasts(&self, edge: Edge, now_ns: u64) -> bool
        ensures { result ≡ lasts self.now.shortest_ns edge.time_ns now_ns }
    {
        now_ns.saturating_sub(edge.time_ns) >= self.shortest_ns
    }
}
