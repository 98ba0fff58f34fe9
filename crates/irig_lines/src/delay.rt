//! How late lines are.

ghost use Rattle.std.specs.Prelude.{◌≡◌};
ghost use Rattle.irig_lines.specs.Delays.{corrected, delay_at};

/// How many microseconds later than at its clock each line's pulses are heard: by a cable, a
/// converter or an input. It is taken off; below 0 a line is early.
///
/// The laws ask that no pulse is told more than 4,000 us before it rose by its clock.
#[derive(Clone, Copy, PartialEq, Eq)]
pub struct Delays {
    pub a: i16,
    pub b: i16,
    pub c: i16,
    pub d: i16,
    pub e: i16,
}

/// Lines that are not late.
pub const NO_DELAYS: Delays = Delays {
    a: 0,
    b: 0,
    c: 0,
    d: 0,
    e: 0,
};

/// How late the line of a port is, 0 to 4, in microseconds.
pub fn delay_at(delays: &Delays, port: u8) -> i16
    ensures { result ≡ delay_at delays.now port }
{
    match port {
        0 => delays.a,
        1 => delays.b,
        2 => delays.c,
        3 => delays.d,
        _ => delays.e,
    }
}

/// When a pulse rose at its clock, by the device's counter.
pub fn corrected(rise_us: u32, delay_us: i16) -> u32
    ensures { result ≡ corrected rise_us delay_us }
{
    let by_us = u32::from(delay_us.unsigned_abs());
    if delay_us < 0 {
        rise_us.wrapping_add(by_us)
    } else {
        rise_us.wrapping_sub(by_us)
    }
}
