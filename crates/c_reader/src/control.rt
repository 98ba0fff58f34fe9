//! Control bits.

ghost use Rattle.std.specs.Prelude.{◌≡◌, ◌↔◌, ◌<◌, ◌^◌};
ghost use Rattle.irig_control.specs.Control.{IsControl, word_of, control_of};
ghost use Rattle.c_numbers.specs.Controls.{control_in};

use c_numbers::{IrigControl, OUT_OF_RANGE, control_for_c, control_of_c};
use irig_control::{in_range, pack, unpack};

/// Makes the number of the control bits. 26 if they have no room for a value.
#[unsafe(no_mangle)]
pub extern "C" fn irig_c_control_pack(control: &IrigControl, word: &mut u32) -> u32
    ensures answer { (result ≡ 0) ↔ IsControl (control_in control.now) }
    ensures word { result ≡ 0 → word.new ≡ word_of (control_in control.now) }
    ensures refused { (result ≡ 0 → ⊥) → word.new ≡ word.old }
{
    let control = control_of_c(control);
    if !in_range(&control) {
        return OUT_OF_RANGE;
    }
    *word = pack(&control);
    0
}

/// Says what a number of control bits means. 26 if it is not below 2^18.
#[unsafe(no_mangle)]
pub extern "C" fn irig_c_control_unpack(word: u32, control: &mut IrigControl) -> u32
    ensures answer { (result ≡ 0) ↔ (word < 2 ^ 18) }
    ensures meaning { result ≡ 0 → control_in control.new ≡ control_of word }
    ensures refused { (result ≡ 0 → ⊥) → control.new ≡ control.old }
{
    if word >= 1 << 18 {
        return OUT_OF_RANGE;
    }
    *control = control_for_c(&unpack(word));
    0
}
