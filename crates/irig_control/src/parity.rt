//! The parity of a frame.

ghost use Rattle.std.specs.Prelude.{◌≡◌, ◌≤◌, Bool, Some, count_by, length, slice_set};
ghost use Rattle.irig_frame.specs.Decoder.{IsCoded};
ghost use Rattle.irig_frame.specs.Encoder.{frame_of_coded};
ghost use Rattle.irig_frame.specs.Values.{is_one};
ghost use Rattle.irig_control.specs.Parity.{ones, remainder_of, has_parity, HasParity, data_symbol, with_parity};

use irig_frame::{Coded, Symbol, encode};

/// Whether the ones that the parity counts are even or odd in number.
///
/// Source: IEEE 1344-1995, annex on IRIG-B, has the parity bit, at element 75. What it counts, and
/// that it may be even or odd, is this project's profile.
#[derive(Clone, Copy, PartialEq, Eq)]
pub enum Parity {
    /// An even number of ones.
    Even,
    /// An odd number of ones.
    Odd,
}

impl Parity {
    /// What remains by 2 of a number of ones that has the parity: 0 or 1.
    pub fn remainder(self) -> u8
        ensures { result ≡ remainder_of self }
    {
        match self {
            Parity::Even => 0,
            Parity::Odd => 1,
        }
    }
}

/// Whether the frame has the parity: of its data places 1 to 75, element 75 included, an even or
/// an odd number hold a one. Marker places never count.
///
/// What the parity counts is this project's profile.
pub fn parity_ok(frame: &[Symbol; 100], parity: Parity) -> bool
    ensures { result ≡ has_parity parity frame.now }
{
    ones_in(frame) % 2 == usize::from(parity.remainder())
}

/// Gives the frame the parity, by a 0 or a 1 at element 75; no other element changes.
pub fn set_parity(frame: &mut [Symbol; 100], parity: Parity)
    ensures parity { HasParity parity frame.new }
    ensures others { (b : Bool) × (frame.new ≡ slice_set frame.old 75 (data_symbol b)) }
    ensures exact { frame.new ≡ with_parity parity frame.old }
{
    frame[75] = Symbol::Zero;
    if !parity_ok(frame, parity) {
        frame[75] = Symbol::One;
    }
}

/// The frame of a value that [`irig_frame::in_range`] passes, as [`encode`] gives it, with the
/// parity.
pub fn encode_with_parity(coded: &Coded, parity: Parity) -> [Symbol; 100]
    requires { IsCoded coded.now }
    ensures { result ≡ with_parity parity (frame_of_coded coded.now) }
{
    let mut frame = encode(coded);
    set_parity(&mut frame, parity);
    frame
}

// Between the marker places, so that no element is asked whether it is one.

fn ones_in(frame: &[Symbol; 100]) -> usize
    ensures { result ≡ ones frame.now }
{
    count_ones(&frame[1..9])
        + count_ones(&frame[10..19])
        + count_ones(&frame[20..29])
        + count_ones(&frame[30..39])
        + count_ones(&frame[40..49])
        + count_ones(&frame[50..59])
        + count_ones(&frame[60..69])
        + count_ones(&frame[70..76])
}

fn count_ones(symbols: &[Symbol]) -> usize
    ensures count { result ≡ count_by (λ s. is_one (Some s)) symbols.now }
    ensures bounded { result ≤ length symbols.now }
{
    let mut count = 0;
    for symbol in symbols {
        count += usize::from(*symbol == Symbol::One);
    }
    count
}
