//! What the lines of a configuration say.

ghost use Rattle.std.specs.Prelude.{◌+◌, ◌≤◌, length};

use crate::text::Text;

/// The first two lines.
#[derive(Clone, Copy, PartialEq, Eq, Drop)]
pub struct Counts {
    /// The year of the edition, up to 9,999; 1991 where none is said.
    pub edition: u64,
    /// How many analog channels there are, up to 999,999.
    pub analogs: u64,
    /// How many digital channels there are, up to 999,999.
    pub digitals: u64,
}

/// A rate of samples.
#[derive(Clone, Copy, PartialEq, Eq, Drop)]
pub struct Rate {
    /// The number of the last sample that has it.
    pub last: u64,
    /// Millionths of a sample a second. 0 where samples have times of their own.
    pub millionths: u64,
}

/// How samples are stored.
#[derive(Clone, Copy, PartialEq, Eq)]
pub enum Form {
    /// As a text.
    Ascii,
    /// As numbers, an analog one in two bytes.
    Binary,
    /// As numbers, an analog one in four bytes.
    Binary32,
    /// As numbers, an analog one as a float of four bytes.
    Float32,
}

/// What is said of samples.
#[derive(Clone, Copy, PartialEq, Eq)]
pub struct Tail {
    /// How they are stored.
    pub form: Form,
    /// By how much their own times are multiplied, in millionths.
    pub multiple: u64,
}

/// What a configuration says.
#[derive(Drop)]
pub struct Config {
    pub(crate) lines: Vec<Text>,
    pub(crate) counts: Counts,
    pub(crate) rates: Vec<Rate>,
    /// The place of the line of the first stamp.
    pub(crate) stamps: usize,
    pub(crate) tail: Tail,
    ghost few: { length rates.items ≤ 999 },
    ghost below: { stamps ≤ 3000000 },
    ghost channels: { counts.analogs + counts.digitals ≤ 1999998 },
}
