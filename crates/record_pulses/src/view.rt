//! A line by one polarity.

ghost use Rattle.std.specs.Prelude.{◌≡◌, ◌≤◌, ◌∷◌, [], List};
ghost use Rattle.record_pulses.specs.Views.{IsAfter, IsSeenOf, IsViewOf, IsWhole, place_now, whole_of};

use crate::edge::Pulse;
use crate::frames::Frames;
use crate::seen::Seen;
use crate::track::Track;

/// What a line is by one polarity, as far as it was heard: what its pulses are, where they stand in
/// frames, and the last whole frame.
#[derive(Drop)]
pub struct View {
    pub(crate) track: Track,
    pub(crate) seen: Seen,
    pub(crate) frames: Frames,
}

impl View {
    /// Of a line without pulses.
    pub fn new() -> View
        ensures { IsViewOf result [] }
    {
        View {
            track: Track::new(),
            seen: Seen::nothing(),
            frames: Frames::new(),
        }
    }

    /// The line's next pulse, which does not rise before the one before it: its place in its frame, 1 to
    /// 100, or 0 out of step, as [`irig_sync::Sync`] has it, by a clock that does not wrap.
    pub fn hear(&mut self, pulse: Pulse) -> u8
        ensures place { (pulses : List Pulse) → IsViewOf self.old pulses → IsAfter pulse pulses
            → result ≡ place_now (pulse ∷ pulses) }
        ensures few { result ≤ 100 }
        ensures new { (pulses : List Pulse) → IsViewOf self.old pulses → IsAfter pulse pulses
            → IsViewOf self.new (pulse ∷ pulses) }
    {
        let step = self.track.step(pulse);
        self.frames.keep(step.place, pulse);
        let is_bare = self.frames.end_bare(step.place);
        self.seen.note(pulse, step, is_bare);
        step.place
    }

    /// What is counted of its pulses.
    pub fn seen(&self) -> &Seen
        ensures { (pulses : List Pulse) → IsViewOf self.now pulses → IsSeenOf result.now pulses }
    {
        &self.seen
    }

    /// The pulses of the last whole frame, in order; before there is one, any others.
    pub fn whole(&self) -> &[Pulse; 100]
        ensures { (pulses : List Pulse) → IsViewOf self.now pulses
            → IsWhole result.now (whole_of pulses) }
    {
        &self.frames.whole
    }
}
