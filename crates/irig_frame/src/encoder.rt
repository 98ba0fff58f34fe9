//! From a time to the frame that codes it.

ghost use Rattle.std.specs.Prelude.{◌≡◌, ◌<◌, ◌-◌, ◌%◌, length, All, List, Ok};
ghost use Rattle.irig_frame.specs.Values.{IsInFrame};
ghost use Rattle.irig_frame.specs.Decoder.{Reads, IsCoded};
ghost use Rattle.irig_frame.specs.Faults.{decode_result};
ghost use Rattle.irig_frame.specs.Encoder.{HasUnusedZeros, frame_of_coded, bit_symbol, with_bits, with_parts, digits_of, parts_of, blank_at, IsBlank};

use crate::coded::Coded;
use crate::layout::{self, BitPosition, Field};
use crate::symbol::Symbol;

/// The frame that reads as this value, with zeros at the data elements without a field.
///
/// The value is one that [`in_range`](crate::in_range) passes.
pub fn encode(coded: &Coded) -> [Symbol; 100]
    requires { IsCoded coded.now }
    ensures reads { Reads result coded.now }
    ensures spare { HasUnusedZeros result }
    ensures exact { result ≡ frame_of_coded coded.now }
    ensures round_trip { decode_result result ≡ Ok coded.now }
{
    frame_of(coded)
}

fn frame_of(coded: &Coded) -> [Symbol; 100]
    ensures { (s : List Symbol) × IsBlank s × (result ≡ with_parts s (parts_of coded.now)) }
{
    let mut frame = blank();
    write_digits(&mut frame, Field::Second, u32::from(coded.second));
    write_digits(&mut frame, Field::Minute, u32::from(coded.minute));
    write_digits(&mut frame, Field::Hour, u32::from(coded.hour));
    write_digits(&mut frame, Field::Day, u32::from(coded.day));
    write_digits(&mut frame, Field::Year, u32::from(coded.year));
    write_bits(&mut frame, layout::control(), coded.control);
    write_bits(&mut frame, layout::straight_binary(), coded.sbs);
    frame
}

fn blank() -> [Symbol; 100]
    ensures { IsBlank result }
{
    let mut frame = [Symbol::Zero; 100];
    for element in 0..frame.len() {
        frame[element] = blank_symbol(element);
    }
    frame
}

fn blank_symbol(element: usize) -> Symbol
    ensures { result ≡ blank_at element }
{
    if layout::is_marker_place(element) {
        Symbol::Marker
    } else {
        Symbol::Zero
    }
}

// The weights of a digit carry its power of ten, and so do the parts of the value.
fn write_digits(frame: &mut [Symbol], field: Field, value: u32)
    requires { length frame.old ≡ 100 }
    ensures { frame.new ≡ with_parts frame.old (digits_of field value) }
{
    write_bits(frame, layout::units(field), value % 10);
    write_bits(frame, layout::tens(field), value % 100 - value % 10);
    write_bits(frame, layout::hundreds(field), value - value % 100);
}

fn write_bits(frame: &mut [Symbol], places: &[BitPosition], number: u32)
    requires in_frame { IsInFrame (length frame.old) places.now }
    requires weighty { All (λ p. 0 < p.weight) places.now }
    ensures { frame.new ≡ with_bits frame.old places.now number }
{
    for place in places {
        frame[place.element] = bit(number, place.weight);
    }
}

fn bit(number: u32, weight: u32) -> Symbol
    requires { 0 < weight }
    ensures { result ≡ bit_symbol number weight }
{
    if number / weight % 2 == 1 {
        Symbol::One
    } else {
        Symbol::Zero
    }
}
