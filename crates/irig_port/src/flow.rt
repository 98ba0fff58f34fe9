//! A port that keeps a tally and no symbol.

ghost use Rattle.std.specs.Prelude.{◌≡◌, ◌≤◌, List};
ghost use Rattle.std.specs.Option.{ForSome};
ghost use Rattle.irig_frame.specs.declared.symbol.Symbol.{Symbol};
ghost use Rattle.irig_time.specs.Seconds.{IsValid};
ghost use Rattle.irig_time.specs.declared.rules.Rules.{Rules};
ghost use Rattle.irig_port.specs.Told.{told_of, IfClaim};
ghost use Rattle.irig_port.specs.Tallies.{tally_told};

use crate::port::Port;
use crate::tally::Tally;
use crate::told::Told;
use irig_control::{Parity, unpack};
use irig_frame::Coded;
use irig_time::Rules;

/// A port that keeps what its symbols come to, a [`Tally`].
#[derive(Drop)]
pub struct FlowPort {
    rules: Rules,
    tally: Tally,
    /// What the port tells, if it was worked out since the last pulse.
    cached: Option<Told>,
    ghost few: { tally.count ≤ 101 },
    ghost whole: { ForSome cached (λ told. tally.count ≡ 100) },
    ghost right: { ForSome cached (λ told. told ≡ tally_told rules tally) },
    ghost valid: { ForSome cached (λ told. ∥ IfClaim told (λ claim. IsValid claim.at) ∥₁) },
}

impl Port for FlowPort {
    ghost use Rattle.irig_port.specs.Numbers.{Numbers};

    ghost stands_for = { Numbers };

    fn fresh(rules: Rules) -> Self {
        FlowPort {
            rules,
            tally: Tally::none(),
            cached: None,
        }
    }

    fn with_frame(rules: Rules, coded: &Coded, parity: Parity) -> Self {
        FlowPort {
            rules,
            tally: Tally::of_value(coded, parity),
            cached: None,
        }
    }

    #[inline]
    fn pulse(&mut self, width_us: u32) {
        if self.tally.count == 100 {
            self.cached = None;
        }
        self.tally.add(width_us);
    }

    fn pulses(&mut self, widths_us: &[u32]) {
        self.cached = None;
        self.tally.add_all(widths_us);
    }

    fn edge(&mut self) -> Told {
        if self.is_empty() {
            return Told::Silence;
        }
        let told = self.tell();
        self.clear();
        told
    }

    fn clear(&mut self) {
        self.tally = Tally::none();
        self.cached = None;
    }

    fn is_empty(&self) -> bool {
        self.tally.count == 0
    }

    fn quality(&self) -> u8 {
        unpack(self.tally.control_word()).quality
    }

    fn take_over(&mut self, other: &mut Self) {
        other.work_out();
        self.tally = other.tally;
        self.cached = other.cached_by(self.rules);
    }
}

impl FlowPort {
    ghost use Rattle.irig_port.specs.Numbers.{Numbers};

    fn tell(&self) -> Told
        ensures told { (rules : Rules) (s : List Symbol) → Numbers self.now rules s
            → result ≡ told_of rules s }
        ensures valid { IfClaim result (λ claim. IsValid claim.at) }
    {
        match self.cached {
            Some(told) => told,
            None => self.tally.tell(&self.rules),
        }
    }

    // What a frame tells by these rules, if that was worked out.
    fn cached_by(&self, rules: Rules) -> Option<Told>
        ensures whole { ForSome result (λ told. self.now.tally.count ≡ 100) }
        ensures right { ForSome result (λ told. told ≡ tally_told rules self.now.tally) }
        ensures valid { ForSome result
            (λ told. ∥ IfClaim told (λ claim. IsValid claim.at) ∥₁) }
    {
        if self.rules == rules {
            self.cached
        } else {
            None
        }
    }

    // Keeps what a whole frame tells; the rest is told at no cost.
    fn work_out(&mut self)
        ensures { (rules : Rules) (s : List Symbol) → Numbers self.old rules s
            → Numbers self.new rules s }
    {
        if self.tally.count == 100 && self.cached.is_none() {
            self.cached = Some(self.tally.tell(&self.rules));
        }
    }
}
