//! When the last pulse rose on each line.

ghost use Rattle.std.specs.Prelude.{◌≡◌};
ghost use Rattle.record_lines.specs.Rises as spec;

/// When the last pulse rose that was told of each line, in microseconds; 0 of a line without one.
#[derive(Clone, Copy, PartialEq, Eq)]
pub struct Rises {
    pub(crate) a: u64,
    pub(crate) b: u64,
    pub(crate) c: u64,
    pub(crate) d: u64,
    pub(crate) e: u64,
}

impl Rises {
    pub(crate) fn new() -> Rises
        ensures { result ≡ spec.no_rises }
    {
        Rises {
            a: 0,
            b: 0,
            c: 0,
            d: 0,
            e: 0,
        }
    }

    pub(crate) fn at(&self, line: u8) -> u64
        ensures { result ≡ spec.rise_at self.now line }
    {
        match line {
            0 => self.a,
            1 => self.b,
            2 => self.c,
            3 => self.d,
            _ => self.e,
        }
    }

    pub(crate) fn set(&mut self, line: u8, rise_us: u64)
        ensures { self.new ≡ spec.with_rise self.old line rise_us }
    {
        match line {
            0 => self.a = rise_us,
            1 => self.b = rise_us,
            2 => self.c = rise_us,
            3 => self.d = rise_us,
            _ => self.e = rise_us,
        }
    }
}
