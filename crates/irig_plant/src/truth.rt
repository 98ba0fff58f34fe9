//! What is true at an edge, looked up once for all readers that tick there.

ghost use Rattle.std.specs.Prelude.{◌≡◌, ◌<◌, ◌^◌, IfSome};
ghost use Rattle.std.specs.Option.{ForSome};
ghost use Rattle.irig_time.specs.Timelines.{truth_at};

use irig_time::{Claim, Timeline};

/// What a true frame of a timeline's second claims, if it has that second.
#[derive(Clone, Copy)]
pub(crate) struct Truth {
    /// The number of the second, from 0.
    pub number: u64,
    pub claim: Option<Claim>,
    ghost early: { ForSome claim (λ claim. number < 2 ^ 32) },
}

impl Truth {
    /// The truth of this second.
    pub(crate) fn of(timeline: &Timeline, number: u64) -> Truth
        ensures known { result.claim ≡ truth_at timeline.now result.number }
        ensures number { result.number ≡ number }
    {
        let claim = timeline.truth(number);
        Truth { number, claim }
    }

    /// The truth of this second, which is looked up if another one's stands here.
    pub(crate) fn at(&mut self, timeline: &Timeline, number: u64) -> Option<Claim>
        requires { self.old.claim ≡ truth_at timeline.now self.old.number }
        ensures value { result ≡ truth_at timeline.now number }
        ensures stands { self.new.claim ≡ truth_at timeline.now self.new.number }
        ensures early { IfSome result (λ claim. number < 2 ^ 32) }
    {
        if self.number != number {
            *self = Truth::of(timeline, number);
        }
        self.claim
    }
}
