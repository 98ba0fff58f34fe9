//! From a frame to the time that it codes.

ghost use Rattle.std.specs.Prelude.{◌≡◌, ◌≤◌, ◌<◌, ◌^◌, length, IfOk, Ok, ◌↔◌};
ghost use Rattle.irig_frame.specs.Decoder.{most, Reads, IsCoded};
ghost use Rattle.irig_frame.specs.Faults.{field_at, element_fault, first_wrong, values_of, decode_result};
ghost use Rattle.irig_frame.specs.Values.{is_one_at, value, weights, IsInFrame};

use crate::coded::Coded;
use crate::fault::FrameFault;
use crate::layout::{self, BitPosition, Field, is_marker_place};
use crate::symbol::Symbol;

/// The value that the frame reads as, or its first fault.
///
/// The faults come in the order: length; the lowest wrong element; the first wrong field of second,
/// minute, hour, day and year. Nothing is asked of data elements without a field, and neither the
/// control bits nor the straight binary seconds have a range.
pub fn decode(frame: &[Symbol]) -> Result<Coded, FrameFault>
    // Ok of a time exactly if the symbols read as it, which is then in range
    ensures reads { (c : Coded) → (result ≡ Ok c) ↔ Reads frame.now c }
    ensures in_range { IfOk result IsCoded }
    // each fault is the first in the stated order
    ensures exact { result ≡ decode_result frame.now }
{
    coded_or_fault(frame)
}

// Apart from `decode`, whose first two clauses follow from this one.
#[tactic(auto, unfolding(crate::specs::Faults::decode_result))]
fn coded_or_fault(frame: &[Symbol]) -> Result<Coded, FrameFault>
    ensures { result ≡ decode_result frame.now }
{
    if frame.len() < 100 {
        return Err(FrameFault::Short(frame.len() as u8));
    }
    if frame.len() > 100 {
        return Err(FrameFault::Long);
    }
    if let Some(fault) = lowest_fault(frame) {
        return Err(fault);
    }
    values(frame)
}

fn lowest_fault(frame: &[Symbol]) -> Option<FrameFault>
    requires { length frame.now ≤ 100 }
    ensures { result ≡ first_wrong 0 frame.now }
{
    for (element, symbol) in frame.iter().enumerate() {
        if let Some(fault) = fault_at(element as u8, *symbol) {
            return Some(fault);
        }
    }
    None
}

/// The fault of an element, from 0, that holds this symbol: `Pulse` or `Marker`, if it has one.
pub fn fault_at(element: u8, symbol: Symbol) -> Option<FrameFault>
    ensures { result ≡ element_fault element symbol }
{
    let at_marker_place = is_marker_place(usize::from(element));
    match symbol {
        Symbol::Bad => Some(FrameFault::Pulse(element)),
        Symbol::Marker if !at_marker_place => Some(FrameFault::Marker(element)),
        Symbol::Zero | Symbol::One if at_marker_place => Some(FrameFault::Marker(element)),
        _ => None,
    }
}

#[tactic(auto, unfolding(crate::specs::Faults::values_of))]
fn values(frame: &[Symbol]) -> Result<Coded, FrameFault>
    requires { length frame.now ≡ 100 }
    ensures { result ≡ values_of frame.now }
{
    let second = field_value(frame, Field::Second)? as u8;
    let minute = field_value(frame, Field::Minute)? as u8;
    let hour = field_value(frame, Field::Hour)? as u8;
    let day = field_value(frame, Field::Day)? as u16;
    let year = field_value(frame, Field::Year)? as u8;
    Ok(Coded {
        second,
        minute,
        hour,
        day,
        year,
        control: value_at(frame, layout::control()),
        sbs: value_at(frame, layout::straight_binary()),
    })
}

#[tactic(auto, unfolding(crate::specs::Faults::field_at))]
fn field_value(frame: &[Symbol], field: Field) -> Result<u32, FrameFault>
    requires { length frame.now ≡ 100 }
    ensures value { result ≡ field_at frame.now field }
    ensures bounded { IfOk result (λ n. n ≤ most field) }
{
    let units = value_at(frame, layout::units(field));
    let tens = value_at(frame, layout::tens(field));
    if units > 9 || tens > 90 {
        return Err(FrameFault::Digit(field));
    }
    let value = units + tens + value_at(frame, layout::hundreds(field));
    let (least, most) = field.bounds();
    if value < least || value > most {
        return Err(FrameFault::Range(field));
    }
    Ok(value)
}

/// The sum of the weights of the places where the frame has a one.
fn value_at(frame: &[Symbol], places: &[BitPosition]) -> u32
    requires in_frame { IsInFrame (length frame.now) places.now }
    requires small { weights places.now < 2 ^ 32 }
    ensures sum { result ≡ value places.now frame.now }
    ensures bounded { result ≤ weights places.now }
{
    places
        .iter()
        .filter(|place| is_one(frame, place))
        .map(|place| place.weight)
        .sum()
}

fn is_one(frame: &[Symbol], place: &BitPosition) -> bool
    requires { place.now.element < length frame.now }
    ensures { result ≡ is_one_at frame.now place.now }
{
    frame[place.element] == Symbol::One
}
