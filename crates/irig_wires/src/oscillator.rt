//! The oscillator of a device.

ghost use Rattle.std.specs.Prelude.{◌≡◌, ◌≤◌, ◌<◌, ◌+◌, ◌*◌, ◌^◌, ◌↔◌, ℕ, MatchOption, unsigned_abs};
ghost use Rattle.irig_wires.specs.Oscillator.{counter_at, most_gain_us, rate_of, time_of};

const SECOND_US: u64 = 1_000_000;

/// The oscillator of a device, and what its counter of microseconds shows by it. The counter does
/// not wrap here, and true times are microseconds behind its first count.
#[derive(Clone, Copy, PartialEq, Eq)]
pub struct Oscillator {
    pub(crate) first: u64,
    pub(crate) gain_us: i16,
    pub(crate) rate: u64,
    ghost few: { unsigned_abs gain_us ≤ most_gain_us },
    ghost early: { first < 2 ^ 55 },
    ghost counts: { rate ≡ rate_of gain_us },
}

impl Oscillator {
    /// One whose counter shows `first` at the beginning, less than 2^55, and truly gains `gain_us`
    /// microseconds in each second, if these are -1000 to 1000.
    pub fn new(first: u64, gain_us: i16) -> Option<Self>
        requires { first < 2 ^ 55 }
        ensures { MatchOption result (most_gain_us < unsigned_abs gain_us)
            (λ oscillator. (oscillator.first ≡ first) × (oscillator.gain_us ≡ gain_us)) }
    {
        if gain_us.unsigned_abs() > 1_000 {
            return None;
        }
        let by = u64::from(gain_us.unsigned_abs());
        let rate = if gain_us < 0 {
            SECOND_US - by
        } else {
            SECOND_US + by
        };
        Some(Oscillator {
            first,
            gain_us,
            rate,
        })
    }

    /// What the counter shows at a true time, less than 2^54 us: 570 years.
    pub fn count_at(self, time_us: u64) -> u64
        requires { time_us < 2 ^ 54 }
        ensures value { result ≡ counter_at self.first (rate_of self.gain_us) time_us }
        ensures few { result < 2 ^ 61 }
        ensures least { self.first ≤ result }
        ensures most { result ≤ self.first + 2 * time_us }
    {
        let rate = self.rate();
        if rate < SECOND_US {
            let lost = time_us * (SECOND_US - rate);
            self.first + (time_us - (lost + (SECOND_US - 1)) / SECOND_US)
        } else {
            let gained = time_us * (rate - SECOND_US);
            self.first + (time_us + gained / SECOND_US)
        }
    }

    /// The first true time at which the counter shows a count, or more: 0 if it does so from the
    /// start.
    pub fn time_of(self, count: u64) -> u64
        requires { count < 2 ^ 62 }
        ensures value { result ≡ time_of self.first (rate_of self.gain_us) count }
        ensures first { (time : ℕ)
            → (count ≤ counter_at self.first (rate_of self.gain_us) time) ↔ (result ≤ time) }
    {
        let rate = self.rate();
        let ahead = count.saturating_sub(self.first);
        ahead / rate * SECOND_US + (ahead % rate * SECOND_US + (rate - 1)) / rate
    }

    /// What the counter shows at the beginning.
    pub fn first(self) -> u64
        ensures value { result ≡ self.first }
        ensures early { result < 2 ^ 55 }
    {
        self.first
    }

    /// How many microseconds the counter counts in a second.
    pub fn rate(self) -> u64
        ensures value { result ≡ rate_of self.gain_us }
        ensures least { 999000 ≤ result }
        ensures most { result ≤ 1001000 }
    {
        self.rate
    }
}
