//! Samples of digital channels.

ghost use Rattle.std.specs.Prelude.{◌<◌, ◌≤◌, length};

use crate::clock::Clock;
use crate::now::{Now, SampleFault};
use crate::parts::Rate;

/// Samples as far as they were read.
#[derive(Drop)]
pub struct Data {
    pub(crate) rates: Vec<Rate>,
    pub(crate) clock: Clock,
    /// Where the digital channels of a sample begin.
    pub(crate) offset: usize,
    /// How many bytes a sample has.
    pub(crate) size: usize,
    pub(crate) chosen: Vec<usize>,
    /// The beginning of a sample.
    pub(crate) begun: Vec<u8>,
    /// The digital channels of the last one.
    pub(crate) digital: Vec<u8>,
    pub(crate) here: Now,
    pub(crate) refusal: Option<SampleFault>,
    ghost few: { length rates.items ≤ 999 },
    ghost is_begun: { length begun.items < size },
    ghost inside: { offset ≤ size },
}
