//! Laws of what a port tells, over the definitions, for the crates above. They have no code.

ghost use Rattle.std.specs.Prelude.{◌≡◌, ◌↔◌, ◌<◌, ◌≤◌, ℕ, if◌then◌else◌, List, [], ◌∷◌, ◌++◌, Option, Some, slice_get, slice_set};
ghost use Rattle.std.specs.List.{Contains};
ghost use Rattle.irig_frame.specs.Symbols.{symbol_of};
ghost use Rattle.irig_frame.specs.Decoder.{Reads};
ghost use Rattle.irig_frame.specs.Faults.{element_fault};
ghost use Rattle.irig_control.specs.Parity.{HasParity};
ghost use Rattle.irig_time.specs.Carries.{Carries};
ghost use Rattle.irig_port.specs.Heard.{with_symbol, symbols_heard};
ghost use Rattle.irig_port.specs.Told.{told_of, told_of_widths, coded_told};
ghost use Rattle.irig_port.specs.Limits.{told_within, IsWithin};
ghost use Rattle.irig_port.specs.Damage.{IsFaultOr, IsOtherBit, compares_seconds, unread_places};

use crate::limits::Limits;
use crate::told::{PortFault, Told};
use irig_frame::{Coded, FrameFault, Symbol};
use irig_time::{Claim, Rules};

/// A port that keeps the first 101 symbols tells what all of them would, and keeps one more with
/// each width.
pub fn cut_at_101()
    ensures same { (rules : Rules) (widths : List ℕ)
        → told_of rules (symbols_heard widths) ≡ told_of_widths rules widths }
    ensures grows { (widths : List ℕ) (width : ℕ) → symbols_heard (widths ++ width ∷ [])
        ≡ with_symbol (symbols_heard widths) (symbol_of width) }
{}

/// A frame that reads as some values, and has the parity, tells what the values tell.
pub fn telling_of_reading()
    ensures { (rules : Rules) (s : List Symbol) (c : Coded)
        → Reads s c → HasParity rules.parity s → told_of rules s ≡ coded_told rules c }
{}

/// A claim is told of exactly those symbols that carry it.
pub fn carries_is_told()
    ensures { (rules : Rules) (s : List Symbol) (claim : Claim)
        → (told_of rules s ≡ Told.Claim claim) ↔ Carries rules s claim }
{}

/// One damaged pulse is never untrue: if some symbols tell a claim, the same symbols but for
/// one, whichever it is and whatever stands there now, tell a fault or just this claim.
pub fn one_damaged_pulse()
    ensures never_untrue { (rules : Rules) (s : List Symbol) (c : Claim) (i : ℕ) (x : Symbol)
        → told_of rules s ≡ Told.Claim c → IsFaultOr c (told_of rules (slice_set s i x)) }
    // A symbol that may not stand there is the fault of its element.
    ensures unreadable { (rules : Rules) (s : List Symbol) (c : Claim) (i : ℕ) (x : Symbol)
        (f : FrameFault) → told_of rules s ≡ Told.Claim c → i < 100
        → element_fault i x ≡ Some f
        → told_of rules (slice_set s i x) ≡ Told.Fault (PortFault.Frame f) }
    // The other bit at elements 1 to 75 is a fault of parity.
    ensures parity { (rules : Rules) (s : List Symbol) (c : Claim) (i : ℕ) (x : Symbol)
        → told_of rules s ≡ Told.Claim c → i < 76 → IsOtherBit (slice_get s i) x
        → told_of rules (slice_set s i x) ≡ Told.Fault PortFault.Parity }
    // In the straight binary seconds it is a fault if they are compared, and else no matter.
    ensures binary { (rules : Rules) (s : List Symbol) (c : Claim) (i : ℕ) (x : Symbol)
        → told_of rules s ≡ Told.Claim c → 80 ≤ i → i < 98 → IsOtherBit (slice_get s i) x
        → told_of rules (slice_set s i x)
        ≡ if compares_seconds rules.sbs c then Told.Fault PortFault.Sbs else Told.Claim c }
    // At the four other elements that are no markers it is no matter.
    ensures unread { (rules : Rules) (s : List Symbol) (c : Claim) (i : ℕ) (x : Symbol)
        → told_of rules s ≡ Told.Claim c → Contains unread_places i
        → IsOtherBit (slice_get s i) x → told_of rules (slice_set s i x) ≡ Told.Claim c }
{}

/// Limits take votes, and nothing else: what is told within them is a claim exactly if it is one
/// without them and lies within. Anything else stands as it is.
pub fn limits_only_take_claims()
    ensures claim { (limits : Option Limits) (rules : Rules) (s : List Symbol) (c : Claim)
        → (told_within limits rules s ≡ Told.Claim c)
        ↔ ((told_of rules s ≡ Told.Claim c) × IsWithin limits s c) }
    // Those that go without saying.
    ensures least { (rules : Rules) (s : List Symbol)
        → told_within (Some (record { not_before = 0; poor_from = 10 })) rules s
        ≡ told_of rules s }
{}
