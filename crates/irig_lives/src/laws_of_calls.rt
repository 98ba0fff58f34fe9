//! Laws that say when the conditions of a timekeeper's laws hold: exactly if functions say so, which
//! a test of a life can compute.

ghost use Rattle.std.specs.Prelude.{◌≡◌, ◌↔◌, ℕ, true, List, Some};
ghost use Rattle.irig_frame.specs.declared.symbol.Symbol.{Symbol};
ghost use Rattle.irig_sync.specs.Lines.{Pulse};
ghost use Rattle.irig_vote.specs.declared.redundancy.Redundancy.{Redundancy};
ghost use Rattle.irig_lines.specs.Lines.{ArePulsesLately};
ghost use Rattle.irig_timekeeper.specs.Life.{Call, AreInOrder, AreTrueLately, AreTrueAtTicks, AreTrueOver};
ghost use Rattle.irig_lives.specs.Decided.{in_order, are_lately, are_true_lately, are_true_at_ticks, are_true_over};

/// Functions say whether the calls of a device are in order, and whether its lines bring of late only
/// pulses of a given line of frames.
pub fn conditions_compute()
    ensures order { (start : ℕ) (redundancy : Redundancy) (calls : List Call)
        → AreInOrder start redundancy calls ↔ (in_order start redundancy calls ≡ true) }
    ensures line { (within : ℕ) (line : ℕ → Symbol) (edges : ℕ → ℕ) (now next : ℕ)
        (pulses : List Pulse)
        → ArePulsesLately within line edges now next pulses
        ↔ (are_lately within line edges now (Some next) pulses ≡ true) }
    ensures lines { (within : ℕ) (line : ℕ → Symbol) (edges : ℕ → ℕ) (next f now : ℕ)
        (calls : List Call)
        → AreTrueLately (λ at pulses. ArePulsesLately within line edges at next pulses) f now calls
        ↔ (are_true_lately (λ at pulses. are_lately within line edges at (Some next) pulses) f now calls
        ≡ true) }
    ensures ticks { (within : ℕ) (line : ℕ → Symbol) (edges : ℕ → ℕ) (next f : ℕ)
        (calls : List Call)
        → AreTrueAtTicks (λ at pulses. ArePulsesLately within line edges at next pulses) f calls
        ↔ (are_true_at_ticks (λ at pulses. are_lately within line edges at (Some next) pulses) f calls
        ≡ true) }
    ensures over { (within : ℕ) (line : ℕ → Symbol) (edges : ℕ → ℕ) (next f : ℕ)
        (calls before : List Call)
        → AreTrueOver (λ at pulses. ArePulsesLately within line edges at next pulses) f calls before
        ↔ (are_true_over (λ at pulses. are_lately within line edges at (Some next) pulses) f calls before
        ≡ true) }
{}
