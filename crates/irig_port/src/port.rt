//! What every port does.

ghost use Rattle.std.specs.Prelude.{◌≡◌, ◌==◌, ◌++◌, ◌<◌, ◌^◌, length, ℕ, List, []};
ghost use Rattle.irig_frame.specs.declared.symbol.Symbol.{Symbol};
ghost use Rattle.irig_frame.specs.declared.coded.Coded.{Coded};
ghost use Rattle.irig_frame.specs.Decoder.{IsCoded, Reads};
ghost use Rattle.irig_frame.specs.Encoder.{frame_of_coded};
ghost use Rattle.irig_frame.specs.Symbols.{symbol_of};
ghost use Rattle.irig_control.specs.Parity.{with_parity};
ghost use Rattle.irig_time.specs.declared.rules.Rules.{Rules};
ghost use Rattle.irig_time.specs.Seconds.{IsValid};
ghost use Rattle.irig_port.specs.Heard.{with_symbol, symbols_heard};
ghost use Rattle.irig_port.specs.Limits.{quality_in};
ghost use Rattle.irig_port.specs.Told.{told_of, IfClaim};

use crate::told::Told;
use irig_control::Parity;
use irig_frame::Coded;
use irig_time::Rules;

/// Takes pulses, and tells at an edge what they said.
///
/// A port keeps its rules, and stands for the symbols since it was last empty, 101 of them at most.
pub trait Port: Drop {
    // The port works by these rules and stands for these symbols, the oldest first. It may stand
    // for many lists at once: what a port keeps need not tell them apart.
    ghost stands_for: { Self → Rules → List Symbol → Type 0 };

    /// A port that was fed nothing, for frames that are read by these rules.
    fn fresh(rules: Rules) -> Self
        ensures { stands_for result rules [] };

    /// A port that was fed the 100 pulses of one frame: that of a value in range
    /// ([`irig_frame::in_range`]) whose parity bit and last three control bits are 0, with the
    /// parity.
    fn with_frame(rules: Rules, coded: &Coded, parity: Parity) -> Self
        requires value { IsCoded coded.now }
        requires unused { coded.now.control < 2 ^ 14 }
        ensures { stands_for result rules (with_parity parity (frame_of_coded coded.now)) };

    /// One pulse, `width_us` microseconds wide. From the 102nd on a pulse changes nothing.
    fn pulse(&mut self, width_us: u32)
        ensures { (rules : Rules) (s : List Symbol) → stands_for self.old rules s
            → stands_for self.new rules (with_symbol s (symbol_of width_us)) };

    /// Pulses, each of a width in microseconds, in their order, as [`Port::pulse`] takes each.
    fn pulses(&mut self, widths_us: &[u32])
        ensures { (rules : Rules) (w : List ℕ) → stands_for self.old rules (symbols_heard w)
            → stands_for self.new rules (symbols_heard (w ++ widths_us.now)) };

    /// What the pulses since the port was last empty tell. The port is then empty. A claim is of a
    /// [`valid`](irig_time::valid) second, whatever the port was fed.
    fn edge(&mut self) -> Told
        ensures told { (rules : Rules) (s : List Symbol) → stands_for self.old rules s
            → result ≡ told_of rules s }
        ensures valid { IfClaim result (λ claim. IsValid claim.at) }
        ensures empty { (rules : Rules) (s : List Symbol) → stands_for self.old rules s
            → stands_for self.new rules [] };

    /// Forgets the pulses. The port is then empty.
    fn clear(&mut self)
        ensures { (rules : Rules) (s : List Symbol) → stands_for self.old rules s
            → stands_for self.new rules [] };

    /// Whether the port is empty: it was fed nothing since its last edge, or since it was cleared.
    fn is_empty(&self) -> bool
        ensures { (rules : Rules) (s : List Symbol) → stands_for self.now rules s
            → result ≡ (length s == 0) };

    /// The time quality that the pulses say, if they are a frame; of others it is any number.
    fn quality(&self) -> u8
        ensures { (rules : Rules) (s : List Symbol) (coded : Coded)
            → stands_for self.now rules s → Reads s coded → result ≡ quality_in s };

    /// Takes over what another port heard, in place of its own pulses, and keeps its rules. The
    /// other is as it was, but that it may work out here what it will tell, so that each port that
    /// takes it over has the answer.
    fn take_over(&mut self, other: &mut Self)
        ensures heard { (rules others : Rules) (s heard : List Symbol)
            → stands_for self.old rules s → stands_for other.old others heard
            → stands_for self.new rules heard }
        ensures kept { (rules : Rules) (s : List Symbol) → stands_for other.old rules s
            → stands_for other.new rules s };
}
