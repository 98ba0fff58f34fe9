//! Laws of a port that hears through a synchroniser, over the definitions. They have no code.

ghost use Rattle.std.specs.Prelude.{◌≡◌, ◌⊎◌, ◌<◌, ◌≤◌, ◌+◌, ◌*◌, ◌/◌, ◌%◌, ◌^◌, ℕ, suc, List, [], length};
ghost use Rattle.irig_frame.specs.declared.symbol.Symbol.{Symbol};
ghost use Rattle.irig_sync.specs.declared.sync.Sync.{Sync};
ghost use Rattle.irig_sync.specs.Edges.{IsClock};
ghost use Rattle.irig_sync.specs.Sync.{idle_of};
ghost use Rattle.irig_sync.specs.Lines.{Pulse, IsSyncOf, IsSoon, place_after, symbols_of_last};
ghost use Rattle.irig_sync.specs.FaultyLines.{ArePulsesBefore, ArePulsesLeft, HasOneFault, HasOneFaultInAHundred, LeavesTheNext};
ghost use Rattle.irig_port.specs.Told.{told_of};
ghost use Rattle.irig_port.specs.Hearing.{IsHearing, IsOfRun, heard_of_last};
ghost use Rattle.irig_port.specs.OwnClaims.{TellsClaims, IsFaultOrOwn};

use crate::told::Told;
use irig_time::{Claim, Rules};

/// What [`hear`](crate::hear) keeps begins with an empty port and
/// [`Sync::none`](irig_sync::Sync::none), and stands too if the port is emptied, as at a tick, and
/// if the line is told to be idle.
pub fn hearing_goes_on()
    ensures first { (s : Sync) (now : ℕ) → IsSyncOf s [] → IsHearing [] s [] now }
    ensures emptied { (heard : List Symbol) (s : Sync) (pulses : List Pulse) (now : ℕ)
        → IsHearing heard s pulses now → IsHearing [] s pulses now }
    ensures idle { (heard : List Symbol) (s : Sync) (pulses : List Pulse) (now time : ℕ)
        → IsHearing heard s pulses now → now ≤ time → IsSoon now time
        → IsHearing heard (idle_of s (time % 2 ^ 32)) pulses time }
{}

/// A claim is carried by the last hundred pulses that were in step, each but the first on time
/// behind the one before, and by nothing else. What came behind them was out of step.
pub fn claims_are_of_a_run()
    ensures { (rules : Rules) (claim : Claim) (heard : List Symbol) (s : Sync)
        (pulses : List Pulse) (now : ℕ) → IsHearing heard s pulses now
        → told_of rules heard ≡ Told.Claim claim → IsOfRun rules claim heard s.place pulses }
{}

/// One fault is never untrue: of a line of frames of which one pulse was lost, late, early,
/// doubled, cut in two or of another width, or to which one was added, a port tells at any time a
/// fault, silence, or the claim of the frame that it heard.
///
/// The clock may drift, as in [`irig_sync::no_slip`], here and in the laws below.
pub fn one_fault_is_never_untrue()
    ensures once { (rules : Rules) (line : ℕ → Symbol) (claims : ℕ → Claim)
        (edges : ℕ → ℕ) (off d : ℕ) (heard : List Symbol) (s : Sync) (pulses : List Pulse)
        (now : ℕ) → TellsClaims rules line claims → IsClock d off edges
        → HasOneFault line edges off pulses → IsHearing heard s pulses now
        → IsFaultOrOwn line claims heard (told_of rules heard) }
    // Or one of each hundred pulses in a row.
    ensures again { (rules : Rules) (line : ℕ → Symbol) (claims : ℕ → Claim)
        (edges : ℕ → ℕ) (off d : ℕ) (heard : List Symbol) (s : Sync) (pulses : List Pulse)
        (now : ℕ) → TellsClaims rules line claims → IsClock d off edges
        → HasOneFaultInAHundred line edges off pulses → IsHearing heard s pulses now
        → IsFaultOrOwn line claims heard (told_of rules heard) }
{}

/// Lost pulses are never untrue, however many are lost: a port tells a fault, silence, or the claim
/// of the frame that it heard.
pub fn lost_pulses_are_never_untrue()
    ensures { (rules : Rules) (line : ℕ → Symbol) (claims : ℕ → Claim) (edges : ℕ → ℕ)
        (off d k : ℕ) (heard : List Symbol) (s : Sync) (pulses : List Pulse) (now : ℕ)
        → TellsClaims rules line claims → IsClock d off edges
        → ArePulsesLeft line edges off k pulses → IsHearing heard s pulses now
        → IsFaultOrOwn line claims heard (told_of rules heard) }
{}

/// A port that was not emptied since a frame began holds the symbols of as many last pulses as the
/// place says.
pub fn a_port_holds_its_place()
    ensures { (n : ℕ) (pulses : List Pulse) → 1 ≤ place_after pulses → place_after pulses ≤ n
        → heard_of_last n pulses ≡ symbols_of_last (place_after pulses) pulses }
{}

/// A fault costs no other frame: once a line of frames was heard for a hundred pulses, a port that
/// was not emptied within a frame tells the frame's claim at its end, before the fault and again
/// from the next frame on.
///
/// At a frame's last element the first of the next frame has to be left: see `LeavesTheNext`.
pub fn other_frames_are_told()
    ensures before { (rules : Rules) (line : ℕ → Symbol) (claims : ℕ → Claim)
        (edges : ℕ → ℕ) (off d n k : ℕ) (pulses : List Pulse) → TellsClaims rules line claims
        → IsClock d off edges → ArePulsesBefore line edges off (suc k) pulses
        → 100 < length pulses → k % 100 ≡ 99
        → 100 ≤ n → told_of rules (heard_of_last n pulses) ≡ Told.Claim (claims (k / 100)) }
    ensures behind { (rules : Rules) (line : ℕ → Symbol) (claims : ℕ → Claim)
        (edges : ℕ → ℕ) (off d n : ℕ) (pulses : List Pulse) → TellsClaims rules line claims
        → IsClock d off edges → (h : HasOneFault line edges off pulses)
        → (h.element % 100 < 99) ⊎ LeavesTheNext edges off d h.element h.fault h.before
        → 100 * (h.element / 100 + 1) ≤ h.element + length h.after
        → (h.element + length h.after) % 100 ≡ 99 → 100 ≤ n
        → told_of rules (heard_of_last n pulses)
        ≡ Told.Claim (claims ((h.element + length h.after) / 100)) }
{}
