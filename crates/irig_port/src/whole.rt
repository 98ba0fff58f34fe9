//! A port that keeps its symbols.

ghost use Rattle.std.specs.Prelude.{◌≡◌, ◌≤◌, List, length};
ghost use Rattle.irig_control.specs.Parity.{has_parity};
ghost use Rattle.irig_time.specs.Seconds.{IsValid};
ghost use Rattle.irig_port.specs.Told.{told_of, IfClaim};
ghost use Rattle.irig_port.specs.Early.{early_part};

use crate::port::Port;
use crate::told::{PortFault, Told};
use crate::verdict::tell_values;
use arrayvec::ArrayVec;
use irig_control::{Parity, encode_with_parity, parity_ok, unpack};
use irig_frame::{Coded, FrameFault, Symbol, classify, decode};
use irig_time::Rules;

/// A port that keeps the symbols that it was fed, 101 of them at most, and decodes them at the
/// edge.
#[derive(Drop)]
pub struct WholePort {
    rules: Rules,
    symbols: ArrayVec<Symbol, 101>,
}

impl Port for WholePort {
    ghost stands_for = { λ p rules s.
        (p.rules ≡ rules) × (p.symbols.items ≡ s) × (length s ≤ 101) };

    fn fresh(rules: Rules) -> Self {
        WholePort {
            rules,
            symbols: ArrayVec::new(),
        }
    }

    fn with_frame(rules: Rules, coded: &Coded, parity: Parity) -> Self {
        let mut symbols = ArrayVec::new();
        symbols
            .try_extend_from_slice(&encode_with_parity(coded, parity))
            .unwrap();
        WholePort { rules, symbols }
    }

    fn pulse(&mut self, width_us: u32) {
        if !self.symbols.is_full() {
            self.symbols.push(classify(width_us));
        }
    }

    fn pulses(&mut self, widths_us: &[u32]) {
        for &width_us in widths_us {
            self.pulse(width_us);
        }
    }

    fn edge(&mut self) -> Told {
        let told = tell(&self.rules, self.symbols.as_slice());
        self.symbols.clear();
        told
    }

    fn clear(&mut self) {
        self.symbols.clear();
    }

    fn is_empty(&self) -> bool {
        self.symbols.is_empty()
    }

    fn quality(&self) -> u8 {
        match decode(self.symbols.as_slice()) {
            Ok(coded) => unpack(coded.control).quality,
            Err(_) => 15,
        }
    }

    fn take_over(&mut self, other: &mut Self) {
        self.symbols.clear();
        self.symbols
            .try_extend_from_slice(other.symbols.as_slice())
            .unwrap();
    }
}

fn tell(rules: &Rules, symbols: &[Symbol]) -> Told
    ensures told { result ≡ told_of rules.now symbols.now }
    ensures valid { IfClaim result (λ claim. IsValid claim.at) }
{
    if symbols.is_empty() {
        return Told::Silence;
    }
    let values = decode(symbols);
    if let Some(fault) = early_fault(&values) {
        return Told::Fault(PortFault::Frame(fault));
    }
    if !has_right_parity(symbols, rules.parity) {
        return Told::Fault(PortFault::Parity);
    }
    tell_values(rules, values)
}

/// The fault of a frame, if it is one that goes before the parity.
fn early_fault(values: &Result<Coded, FrameFault>) -> Option<FrameFault>
    ensures { result ≡ early_part values.now }
{
    match values {
        Ok(_) | Err(FrameFault::Digit(_) | FrameFault::Range(_)) => None,
        Err(fault) => Some(*fault),
    }
}

fn has_right_parity(symbols: &[Symbol], parity: Parity) -> bool
    requires { length symbols.now ≡ 100 }
    ensures { result ≡ has_parity parity symbols.now }
{
    let mut frame = [Symbol::Zero; 100];
    frame.copy_from_slice(symbols);
    parity_ok(&frame, parity)
}
