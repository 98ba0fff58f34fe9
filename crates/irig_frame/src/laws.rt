//! Laws of the codec over its definitions, for the crates above. They have no code.

ghost use Rattle.std.specs.Prelude.{◌≡◌, ◌↔◌, List, None, Ok};
ghost use Rattle.irig_frame.specs.Decoder.{Reads, IsCoded};
ghost use Rattle.irig_frame.specs.Faults.{decode_result, first_wrong, values_of};
ghost use Rattle.irig_frame.specs.Encoder.{HasUnusedZeros, frame_of_coded};

use crate::coded::Coded;
use crate::symbol::Symbol;

/// The round trip: symbols are decoded to a value exactly if they read as that value. Then no
/// element is wrong, and the fields give the value. What [`encode`](crate::encode) gives reads as
/// its argument.
pub fn round_trip()
    ensures reads { (s : List Symbol) (c : Coded) → (decode_result s ≡ Ok c) ↔ Reads s c }
    ensures elements { (s : List Symbol) (c : Coded) → Reads s c → first_wrong 0 s ≡ None }
    ensures values { (s : List Symbol) (c : Coded) → Reads s c → values_of s ≡ Ok c }
{}

/// A frame reads as one value at most.
pub fn one_reading()
    ensures { (s : List Symbol) (c d : Coded) → Reads s c → Reads s d → c ≡ d }
{}

/// With the unused elements 0, a value has one frame at most.
pub fn one_frame()
    ensures { (s t : List Symbol) (c : Coded) → Reads s c → Reads t c
        → HasUnusedZeros s → HasUnusedZeros t → s ≡ t }
{}

/// The frame that is written of a value in range reads as it, and its unused elements are 0.
pub fn written_reads()
    ensures reads { (c : Coded) → IsCoded c → Reads (frame_of_coded c) c }
    ensures spare { (c : Coded) → HasUnusedZeros (frame_of_coded c) }
{}
