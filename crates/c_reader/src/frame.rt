//! Frames.

ghost use Rattle.std.specs.Prelude.{◌≡◌, ◌↔◌, ◌≤◌, ◌&&◌, nat_le, Ok, Err, IfSome, Bool, map, length, slice_set, unsigned_abs};
ghost use Rattle.irig_frame.specs.Decoder.{IsCoded, Reads};
ghost use Rattle.irig_frame.specs.Encoder.{HasUnusedZeros};
ghost use Rattle.irig_frame.specs.Faults.{decode_result};
ghost use Rattle.irig_control.specs.Control.{IsControl};
ghost use Rattle.irig_control.specs.Parity.{HasParity, has_parity, data_symbol};
ghost use Rattle.irig_time.specs.Frames.{IsFrameOfSecond, frame_of_second};
ghost use Rattle.irig_time.specs.Seconds.{IsValid};
ghost use Rattle.c_numbers.specs.Controls.{control_in};
ghost use Rattle.c_numbers.specs.Numbers.{symbol_in, parity_in, code_of_frame};

use c_numbers::{
    IrigControl, OUT_OF_RANGE, control_of_c, fault_code, numbers_of, parity_of, symbol_number,
    symbols_of,
};
use irig_control::{parity_ok, set_parity};
use irig_frame::{Coded, FrameFault, decode, encode, in_range};
use irig_port::PortFault;
use irig_time::{UtcSecond, frame_of_second, valid};

/// Writes the frame of a coded time, the elements without a field 0. 26 if a value is out of its
/// range.
#[unsafe(no_mangle)]
pub extern "C" fn irig_c_encode(coded: &Coded, symbols: &mut [u8; 100]) -> u32
    ensures answer { (result ≡ 0) ↔ IsCoded coded.now }
    ensures frame { result ≡ 0 → Reads (map symbol_in symbols.new) coded.now }
    ensures spare { result ≡ 0 → HasUnusedZeros (map symbol_in symbols.new) }
    ensures round_trip { result ≡ 0
        → decode_result (map symbol_in symbols.new) ≡ Ok coded.now }
    ensures refused { (result ≡ 0 → ⊥) → symbols.new ≡ symbols.old }
{
    if !in_range(coded) {
        return OUT_OF_RANGE;
    }
    *symbols = numbers_of(&encode(coded));
    0
}

/// Reads the symbols of a frame: what they code, or their first fault.
#[unsafe(no_mangle)]
pub extern "C" fn irig_c_decode(symbols: &[u8], coded: &mut Coded) -> u32
    ensures answer { result ≡ code_of_frame (decode_result (map symbol_in symbols.now)) }
    ensures coded { result ≡ 0 → decode_result (map symbol_in symbols.now) ≡ Ok coded.new }
    ensures refused { (result ≡ 0 → ⊥) → coded.new ≡ coded.old }
{
    match decoded(symbols) {
        Ok(time) => {
            *coded = time;
            0
        }
        Err(fault) => fault_code(PortFault::Frame(fault)),
    }
}

fn decoded(symbols: &[u8]) -> Result<Coded, FrameFault>
    ensures { result ≡ decode_result (map symbol_in symbols.now) }
{
    if let Some(fault) = length_fault(symbols) {
        return Err(fault);
    }
    decode(&symbols_of(symbols))
}

#[tactic(auto, unfolding(irig_frame::specs::Faults::decode_result))]
fn length_fault(symbols: &[u8]) -> Option<FrameFault>
    ensures wrong { IfSome result (λ f. decode_result (map symbol_in symbols.now) ≡ Err f) }
    ensures right { result ≡ None → length symbols.now ≡ 100 }
{
    if symbols.len() < 100 {
        return Some(FrameFault::Short(symbols.len() as u8));
    }
    if symbols.len() > 100 {
        return Some(FrameFault::Long);
    }
    None
}

/// Whether the frame has the parity: 0 is even, 1 odd. It has no other.
#[unsafe(no_mangle)]
pub extern "C" fn irig_c_has_parity(symbols: &[u8; 100], parity: u8) -> bool
    ensures { result ≡ (nat_le parity 1
        && has_parity (parity_in parity) (map symbol_in symbols.now)) }
{
    parity <= 1 && parity_ok(&symbols_of(symbols), parity_of(parity))
}

/// Gives the frame the parity, 0 even and 1 odd, by element 75. 26 if it is another number.
#[unsafe(no_mangle)]
pub extern "C" fn irig_c_set_parity(symbols: &mut [u8; 100], parity: u8) -> u32
    ensures answer { (result ≡ 0) ↔ (parity ≤ 1) }
    ensures parity { result ≡ 0 → HasParity (parity_in parity) (map symbol_in symbols.new) }
    ensures others { result ≡ 0 → (b : Bool) × (map symbol_in symbols.new
        ≡ slice_set (map symbol_in symbols.old) 75 (data_symbol b)) }
    ensures refused { (result ≡ 0 → ⊥) → symbols.new ≡ symbols.old }
{
    if parity > 1 {
        return OUT_OF_RANGE;
    }
    let mut frame = symbols_of(symbols);
    set_parity(&mut frame, parity_of(parity));
    symbols[75] = symbol_number(frame[75]);
    0
}

/// Writes the frame of a second with these control bits and this parity, 0 even and 1 odd, by a
/// clock -31 to 31 half hours ahead of UTC; unused bits and elements are 0. 26 if a value is out of
/// its range.
#[unsafe(no_mangle)]
pub extern "C" fn irig_c_frame_of(
    second: &UtcSecond,
    local_half_hours: i8,
    control: &IrigControl,
    parity: u8,
    symbols: &mut [u8; 100],
) -> u32
    ensures answer { (result ≡ 0) ↔ ((IsValid second.now × (unsigned_abs local_half_hours ≤ 31))
        × (IsControl (control_in control.now) × (parity ≤ 1))) }
    ensures frame { result ≡ 0 → IsFrameOfSecond (parity_in parity) second.now local_half_hours
        (control_in control.now) (map symbol_in symbols.new) }
    ensures value { result ≡ 0 → map symbol_in symbols.new
        ≡ frame_of_second (parity_in parity) second.now local_half_hours (control_in control.now) }
    ensures refused { (result ≡ 0 → ⊥) → symbols.new ≡ symbols.old }
{
    let control = control_of_c(control);
    if !valid(second)
        || local_half_hours.unsigned_abs() > 31
        || !irig_control::in_range(&control)
        || parity > 1
    {
        return OUT_OF_RANGE;
    }
    let frame = frame_of_second(parity_of(parity), second, local_half_hours, &control);
    *symbols = numbers_of(&frame);
    0
}
