//! The unit of a dump's times.

ghost use Rattle.std.specs.Prelude.{◌≡◌};
ghost use Rattle.record_vcd.specs.Units.{part_of, time_of};

/// Which part of a nanosecond.
#[derive(Clone, Copy, PartialEq, Eq)]
pub enum Part {
    /// All of it.
    Whole,
    /// A picosecond.
    Thousandth,
    /// A femtosecond.
    Millionth,
}

/// A unit of time: so many of such parts of a nanosecond.
#[derive(Clone, Copy, PartialEq, Eq)]
pub struct Unit {
    /// How many, from 1.
    pub times: u64,
    /// Of what.
    pub part: Part,
}

impl Unit {
    /// So many units in nanoseconds, rounded down. None if they are 2^64 parts or more.
    pub fn time_of(self, number: u64) -> Option<u64>
        ensures { result ≡ time_of self number }
    {
        match number.checked_mul(self.times) {
            Some(parts) => Some(part_of(self.part, parts)),
            None => None,
        }
    }
}

fn part_of(part: Part, parts: u64) -> u64
    ensures { result ≡ part_of part parts }
{
    match part {
        Part::Whole => parts,
        Part::Thousandth => parts / 1_000,
        Part::Millionth => parts / 1_000_000,
    }
}
