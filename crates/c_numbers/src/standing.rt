//! How ports stand to a vote.

ghost use Rattle.std.specs.Prelude.{◌≡◌, ◌≤◌};
ghost use Rattle.c_numbers.specs.Standings.{bit_of, is_voted, mask_of, standing_if, standings_to};

use irig_port::Told;
use irig_time::Claim;
use irig_vote::{Redundancy, Tells};

/// How what a port tells stands to the vote.
#[derive(Clone, Copy, PartialEq, Eq)]
pub(crate) enum Standing {
    /// It heard nothing, or is not there.
    Silent,
    /// It tells the claim that was voted.
    Agreed,
    /// It tells another claim, or one while none was voted.
    Differed,
    /// It tells a fault.
    Faulty,
    /// It tells a quality without a vote.
    Poor,
}

/// How five ports stand to a vote.
#[derive(Clone, Copy)]
pub(crate) struct Standings {
    pub(crate) a: Standing,
    pub(crate) b: Standing,
    pub(crate) c: Standing,
    pub(crate) d: Standing,
    pub(crate) e: Standing,
}

impl Standings {
    /// Of ports that tell this, to this vote.
    pub(crate) fn of(tells: &Tells, redundancy: Redundancy, vote: Option<Claim>) -> Standings
        ensures { result ≡ standings_to vote tells.now redundancy }
    {
        let ports = redundancy.ports();
        Standings {
            a: standing_if(0 < ports, vote, &tells.a),
            b: standing_if(1 < ports, vote, &tells.b),
            c: standing_if(2 < ports, vote, &tells.c),
            d: standing_if(3 < ports, vote, &tells.d),
            e: standing_if(4 < ports, vote, &tells.e),
        }
    }

    /// The ports that stand so: bit p is port p.
    pub(crate) fn mask(&self, standing: Standing) -> u8
        ensures { result ≡ mask_of standing self.now }
    {
        bit(standing, self.a)
            + 2 * bit(standing, self.b)
            + 4 * bit(standing, self.c)
            + 8 * bit(standing, self.d)
            + 16 * bit(standing, self.e)
    }
}

fn bit(one: Standing, other: Standing) -> u8
    ensures value { result ≡ bit_of one other }
    ensures few { result ≤ 1 }
{
    u8::from(one == other)
}

fn standing_if(is_there: bool, vote: Option<Claim>, told: &Told) -> Standing
    ensures { result ≡ standing_if is_there vote told.now }
{
    if !is_there {
        return Standing::Silent;
    }
    match told {
        Told::Silence => Standing::Silent,
        Told::Fault(_) => Standing::Faulty,
        Told::Poor(_) => Standing::Poor,
        Told::Claim(claim) if is_voted(vote, claim) => Standing::Agreed,
        Told::Claim(_) => Standing::Differed,
    }
}

fn is_voted(vote: Option<Claim>, claim: &Claim) -> bool
    ensures { result ≡ is_voted vote claim.now }
{
    match vote {
        Some(voted) => voted == *claim,
        None => false,
    }
}
