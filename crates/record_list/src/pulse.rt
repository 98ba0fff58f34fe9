//! Pulses, and which lines are high at a time.

ghost use Rattle.std.specs.Prelude.{◌≡◌, ◌<◌, ◌≤◌, ℕ};
ghost use Rattle.record_list.specs.Pulses.{high_at, is_on, with_pulse};

/// A line is high from a time on, before another.
#[derive(Clone, Copy)]
pub(crate) struct Pulse {
    /// The bit of its line among those that are chosen; 0 of a line that is not.
    pub(crate) bit: u8,
    pub(crate) from_ns: u64,
    pub(crate) to_ns: u64,
}

/// The lines that are high at a time, and when another may be, or less.
#[derive(Clone, Copy)]
pub(crate) struct Look {
    pub(crate) high: u8,
    pub(crate) next_ns: u64,
}

/// What is seen at a time; the next is not looked for behind an end.
pub(crate) fn seen_at(pulses: &[Pulse], at_ns: u64, end_ns: u64) -> Look
    requires { at_ns < end_ns }
    ensures later { at_ns < result.next_ns }
    ensures within { result.next_ns ≤ end_ns }
    ensures stays { (time : ℕ) → at_ns ≤ time → time < result.next_ns
        → high_at pulses.now time ≡ result.high }
{
    let mut look = Look {
        high: 0,
        next_ns: end_ns,
    };
    for pulse in pulses {
        look = Look {
            high: with_pulse(look.high, *pulse, at_ns),
            next_ns: pulse.next(at_ns, look.next_ns),
        };
    }
    look
}

fn with_pulse(high: u8, pulse: Pulse, at_ns: u64) -> u8
    ensures { result ≡ with_pulse high pulse at_ns }
{
    if pulse.is_on(at_ns) {
        high | pulse.bit
    } else {
        high
    }
}

impl Pulse {
    fn is_on(self, at_ns: u64) -> bool
        ensures { result ≡ is_on self at_ns }
    {
        self.from_ns <= at_ns && at_ns < self.to_ns
    }

    // When it may be another than at a time, or before an end.
    fn next(self, at_ns: u64, end_ns: u64) -> u64
        requires { at_ns < end_ns }
        ensures later { at_ns < result }
        ensures within { result ≤ end_ns }
        ensures stays { (time : ℕ) → at_ns ≤ time → time < result
            → is_on self time ≡ is_on self at_ns }
    {
        if at_ns < self.from_ns {
            self.from_ns.min(end_ns)
        } else if at_ns < self.to_ns {
            self.to_ns.min(end_ns)
        } else {
            end_ns
        }
    }
}
