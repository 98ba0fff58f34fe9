//! Where the digital channels of a sample stand, and what its time is.

ghost use Rattle.std.specs.Prelude.{◌≡◌, ◌*◌, ◌≤◌};
ghost use Rattle.record_comtrade.specs.Reads.{value_of};
ghost use Rattle.record_comtrade.specs.Records.{are_numbers, clock_of, is_fine, offset_of, size_of, width_of};

use crate::clock::Clock;
use crate::parts::{Config, Form};
use crate::tail::text_at;
use record_text::{field_of, places_in};

impl Form {
    /// Whether samples are numbers, and no text.
    pub fn are_numbers(self) -> bool
        ensures { result ≡ are_numbers self }
    {
        !matches!(self, Form::Ascii)
    }
}

fn width_of(form: Form) -> usize
    ensures width { result ≡ width_of form }
    ensures few { result ≤ 4 }
{
    match form {
        Form::Ascii => 0,
        Form::Binary => 2,
        Form::Binary32 | Form::Float32 => 4,
    }
}

/// Where the digital channels of a sample begin, in bytes.
pub fn offset_of(config: &Config) -> usize
    ensures offset { result ≡ offset_of (value_of config.now) }
    ensures few { result ≤ 8000000 }
{
    8 + scaled(config.counts.analogs as usize, width_of(config.tail.form))
}

fn scaled(count: usize, width: usize) -> usize
    requires count { count ≤ 1999998 }
    requires width { width ≤ 4 }
    ensures product { result ≡ count * width }
    ensures few { result ≤ 7999992 }
{
    count * width
}

/// How many bytes a sample has, if samples are numbers.
pub fn size_of(config: &Config) -> usize
    ensures size { result ≡ size_of (value_of config.now) }
    ensures some { 8 ≤ result }
    ensures inside { offset_of (value_of config.now) ≤ result }
{
    offset_of(config) + 2 * ((config.counts.digitals as usize + 15) / 16)
}

/// The unit of samples' own times by a configuration.
pub fn clock_of(config: &Config) -> Clock
    ensures { result ≡ clock_of (value_of config.now) }
{
    Clock {
        multiple: config.tail.multiple,
        is_fine: is_fine(config),
    }
}

fn is_fine(config: &Config) -> bool
    ensures { result ≡ is_fine (value_of config.now) }
{
    let time = field_of(text_at(config.lines.as_slice(), config.stamps), 1);
    2013 <= config.counts.edition && places_in(time) > 6
}
