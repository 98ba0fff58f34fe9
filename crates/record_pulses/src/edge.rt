//! What a line has: changes of its level, and the pulses between two of them.

ghost use Rattle.std.specs.Prelude.{◌≡◌};
ghost use Rattle.record_pulses.specs.Pulses.{nearest_us, pulse_between};

/// A change of a line's level, or the level that a recording begins with.
#[derive(Clone, Copy, PartialEq, Eq)]
pub struct Edge {
    /// When, in nanoseconds of the recording.
    pub time_ns: u64,
    /// Whether the line is high from then on.
    pub is_high: bool,
}

/// A pulse that has ended.
#[derive(Clone, Copy, PartialEq, Eq)]
pub struct Pulse {
    /// When it rose, to the nearest microsecond of the recording.
    pub rise_us: u64,
    /// How wide it is, to the nearest microsecond; at most 2^32 - 1.
    pub width_us: u32,
}

impl Pulse {
    /// The pulse between two times, in nanoseconds. One that does not end after its rise has no width.
    pub fn between(rise_ns: u64, end_ns: u64) -> Pulse
        ensures { result ≡ pulse_between rise_ns end_ns }
    {
        Pulse {
            rise_us: nearest_us(rise_ns),
            width_us: nearest_us(end_ns.saturating_sub(rise_ns)).min(u64::from(u32::MAX)) as u32,
        }
    }
}

// In two parts, since the sum may not fit.
fn nearest_us(time_ns: u64) -> u64
    ensures { result ≡ nearest_us time_ns }
{
    time_ns / 1000 + (time_ns % 1000 + 500) / 1000
}
