//! Laws of the control bits and the parity over their definitions, for the crates above. They have
//! no code.

ghost use Rattle.std.specs.Prelude.{◌≡◌, ◌+◌, ◌*◌, ◌%◌, ◌^◌, ◌<◌, ℕ, Bool, List, length, slice_set};
ghost use Rattle.irig_frame.specs.Decoder.{Reads};
ghost use Rattle.irig_frame.specs.Encoder.{HasUnusedZeros};
ghost use Rattle.irig_control.specs.Control.{IsControl, flag, word_of, control_of, normal_word};
ghost use Rattle.irig_control.specs.Parity.{HasParity, ReadsWithParity, data_symbol, with_parity, without_parity};

use crate::control::Control;
use crate::parity::Parity;
use irig_frame::{Coded, Symbol};

/// What is packed is unpacked again, and what is unpacked is packed again, without the parity, the
/// last three bits and the sign of an offset of 0.
pub fn inverses()
    ensures unpacked { (c : Control) → IsControl c → control_of (word_of c) ≡ c }
    ensures packed { (w : ℕ) → word_of (control_of w) ≡ normal_word w }
    // the parity and the last three bits are 0
    ensures below { (c : Control) → IsControl c → word_of c < 2 ^ 14 }
{}

/// To set the parity of a frame changes nothing that it reads as but the parity's own bit, which
/// says nothing. With a parity, and with the unused elements and bits 0, a value has one frame at
/// most.
pub fn parity_keeps()
    ensures reads { (s : List Symbol) (b : Bool) (c : Coded) → Reads s c → c.control < 2 ^ 14
        → Reads (slice_set s 75 (data_symbol b))
        (record c { control = c.control + 2 ^ 14 * flag b }) }
    ensures spare { (s : List Symbol) (b : Bool) → HasUnusedZeros s
        → HasUnusedZeros (slice_set s 75 (data_symbol b)) }
    ensures control { (w : ℕ) (b : Bool) → control_of (w + 2 ^ 14 * flag b) ≡ control_of w }
    ensures one { (p : Parity) (s t : List Symbol) (c d : Coded) → ReadsWithParity p s c
        → ReadsWithParity p t d → without_parity c ≡ without_parity d → s ≡ t }
{}

/// The frame with a parity has it, and differs from the frame in element 75 alone.
pub fn with_parity_is()
    ensures parity { (p : Parity) (s : List Symbol) → 75 < length s
        → HasParity p (with_parity p s) }
    ensures others { (p : Parity) (s : List Symbol)
        → (b : Bool) × (with_parity p s ≡ slice_set s 75 (data_symbol b)) }
{}
