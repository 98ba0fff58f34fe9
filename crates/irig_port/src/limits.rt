//! Limits beyond which a right frame has no vote.

ghost use Rattle.std.specs.Prelude.{◌≡◌, List, []};
ghost use Rattle.irig_frame.specs.declared.symbol.Symbol.{Symbol};
ghost use Rattle.irig_time.specs.declared.rules.Rules.{Rules};
ghost use Rattle.irig_time.specs.Seconds.{IsValid};
ghost use Rattle.irig_port.specs.Limits.{limited, tally_told_within, told_within};
ghost use Rattle.irig_port.specs.Tallies.{IsTallyOf};
ghost use Rattle.irig_port.specs.Told.{IfClaim};

use crate::port::Port;
use crate::tally::Tally;
use crate::told::{PortFault, Told};
use irig_control::unpack;
use irig_time::Rules;

/// Limits beyond which a right frame has no vote.
///
/// They refuse what all clocks of a plant may get wrong at once: a year that the code does not
/// send, and a count of GPS weeks that begins anew.
#[derive(Clone, Copy, PartialEq, Eq)]
pub struct Limits {
    /// The first day that a frame may claim, counted from 2000-01-01 as day 0. An earlier claim is
    /// the fault [`PortFault::Early`].
    pub not_before: u32,
    /// The time quality from which a frame has no vote, and is [`Told::Poor`]. That of 10 and more
    /// has none in any case.
    pub poor_from: u8,
}

/// What is told by a frame of this quality within these limits.
fn limited(limits: Limits, quality: u8, told: Told) -> Told
    ensures { result ≡ limited limits quality told }
{
    match told {
        Told::Claim(_) if limits.poor_from <= quality => Told::Poor(quality),
        Told::Claim(claim) if claim.at.day < limits.not_before => Told::Fault(PortFault::Early),
        told => told,
    }
}

impl Tally {
    /// What the symbols tell, by the rules and within limits, if there are any. A claim is of a
    /// [`valid`](irig_time::valid) second.
    pub fn tell_within(&self, rules: &Rules, limits: Option<Limits>) -> Told
        ensures exact { result ≡ tally_told_within limits rules.now self.now }
        ensures told { (s : List Symbol) → IsTallyOf self.now s
            → result ≡ told_within limits rules.now s }
        ensures valid { IfClaim result (λ claim. IsValid claim.at) }
    {
        let told = self.tell(rules);
        match limits {
            None => told,
            Some(limits) => limited(limits, unpack(self.control_word()).quality, told),
        }
    }
}

// Each tick asks each port, so that a call costs a reader's second more than what it does.
/// What the pulses of a port tell within limits, if there are any; the port is then empty, as
/// behind [`Port::edge`].
#[inline]
pub fn edge_within<P: Port>(port: &mut P, limits: Option<Limits>) -> Told
    ensures told { (rules : Rules) (s : List Symbol) → P.stands_for port.old rules s
        → result ≡ told_within limits rules s }
    ensures valid { IfClaim result (λ claim. IsValid claim.at) }
    ensures empty { (rules : Rules) (s : List Symbol) → P.stands_for port.old rules s
        → P.stands_for port.new rules [] }
{
    let Some(limits) = limits else {
        return port.edge();
    };
    let quality = port.quality();
    limited(limits, quality, port.edge())
}
