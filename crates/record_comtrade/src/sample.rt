//! One sample.

ghost use Rattle.std.specs.Prelude.{◌≡◌, ◌≤◌, ◌+◌, ◌<◌, slice_get, length};
ghost use Rattle.record_comtrade.specs.Samples.{bit_by, bit_in, byte_at, high_of, mark_of, number_at};

use crate::clock::Mark;

/// The number and the time of a sample, if samples are numbers.
pub fn mark_of(sample: &[u8]) -> Mark
    ensures { result ≡ mark_of sample.now }
{
    match sample {
        [a, b, c, d, e, f, g, h, ..] => Mark {
            number: u32::from_le_bytes([*a, *b, *c, *d]),
            time: u32::from_le_bytes([*e, *f, *g, *h]),
        },
        _ => Mark {
            number: number_at(sample, 0),
            time: number_at(sample, 4),
        },
    }
}

/// The levels of the channels at these places, of which the first has the bit of 1.
pub(crate) fn high_of(chosen: &[usize], digital: &[u8]) -> u8
    ensures { result ≡ high_of chosen.now digital.now }
{
    bit_of(chosen, 0, digital)
        + 2 * bit_of(chosen, 1, digital)
        + 4 * bit_of(chosen, 2, digital)
        + 8 * bit_of(chosen, 3, digital)
        + 16 * bit_of(chosen, 4, digital)
}

fn bit_of(chosen: &[usize], at: usize, digital: &[u8]) -> u8
    ensures bit { result ≡ bit_by digital.now (slice_get chosen.now at) }
    ensures few { result ≤ 1 }
{
    match chosen.get(at) {
        Some(place) => bit_in(digital, *place),
        None => 0,
    }
}

/// The level of the digital channel at a place among them, from 0, in their bytes.
pub fn bit_in(digital: &[u8], place: usize) -> u8
    ensures bit { result ≡ bit_in digital.now place }
    ensures few { result ≤ 1 }
{
    (byte_at(digital, place / 8) >> (place % 8)) % 2
}

fn byte_at(bytes: &[u8], place: usize) -> u8
    ensures { result ≡ byte_at bytes.now place }
{
    match bytes.get(place) {
        Some(byte) => *byte,
        None => 0,
    }
}

fn number_at(sample: &[u8], place: usize) -> u32
    requires { place < 16 }
    ensures { result ≡ number_at sample.now place }
{
    u32::from_le_bytes([
        byte_at(sample, place),
        byte_at(sample, place + 1),
        byte_at(sample, place + 2),
        byte_at(sample, place + 3),
    ])
}
