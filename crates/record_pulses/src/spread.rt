//! The least, the most and the mean of some times.

ghost use Rattle.std.specs.Prelude.{◌≡◌, [], ◌∷◌, ℕ, List};
ghost use Rattle.record_pulses.specs.Spreads.{IsSpreadOf, with_time};

/// What some times are, in microseconds: those of the rises and widths that pulses are told with, so
/// that gaps add up to the time between the first rise and the last. Of no times all is 0. Sums and
/// counts stay at 2^64 - 1 if they come to it.
#[derive(Clone, Copy, PartialEq, Eq)]
pub struct Spread {
    /// How many there are.
    pub count: u64,
    /// The least.
    pub least_us: u64,
    /// The most.
    pub most_us: u64,
    /// What they add up to.
    pub sum_us: u64,
}

impl Spread {
    /// Of no times.
    pub fn none() -> Spread
        ensures { IsSpreadOf result [] }
    {
        Spread {
            count: 0,
            least_us: 0,
            most_us: 0,
            sum_us: 0,
        }
    }

    /// Another time.
    pub fn add(&mut self, time_us: u64)
        ensures { (times : List ℕ) → IsSpreadOf self.old times
            → IsSpreadOf self.new (time_us ∷ times) }
    {
        self.least_us = if self.count == 0 {
            time_us
        } else {
            self.least_us.min(time_us)
        };
        self.most_us = self.most_us.max(time_us);
        self.count = self.count.saturating_add(1);
        self.sum_us = self.sum_us.saturating_add(time_us);
    }

    /// Another time, if there is one.
    pub(crate) fn note(&mut self, time_us: Option<u64>)
        ensures { (times : List ℕ) → IsSpreadOf self.old times
            → IsSpreadOf self.new (with_time time_us times) }
    {
        if let Some(time_us) = time_us {
            self.add(time_us);
        }
    }
}
