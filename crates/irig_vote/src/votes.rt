//! The voices in a vote, and the vote.

ghost use Rattle.std.specs.Prelude.{◌≡◌, ◌↔◌, ◌+◌, ◌-◌, ◌*◌, ◌<◌, ◌≤◌, Some, length};
ghost use Rattle.irig_time.specs.declared.claim.Claim.{Claim};
ghost use Rattle.irig_vote.specs.declared.redundancy.Redundancy.TheVariants.{Three, Five};
ghost use Rattle.irig_vote.specs.Vote.{is_told, carriers, f_of, first_told, ports_of, vote_of};

use crate::redundancy::Redundancy;
use irig_port::Told;
use irig_time::Claim;

/// What each port of a reader tells at an edge. Of one port only `a` is there, of three
/// `d` and `e` are not.
#[derive(Clone, Copy, PartialEq, Eq)]
pub struct Tells {
    /// The port of generator 0, or the only one.
    pub a: Told,
    /// The port of generator 1.
    pub b: Told,
    /// The port of generator 2.
    pub c: Told,
    /// The port of generator 3.
    pub d: Told,
    /// The port of generator 4.
    pub e: Told,
}

/// The claim that f + 1 ports tell, second and mark both: `a` alone under `One`, two of `a`, `b`, `c`
/// under `Three`, three of all five under `Five`. None if there is no such claim.
#[tactic(auto, unfolding(crate::specs::Vote::vote_of))]
pub fn vote(tells: &Tells, redundancy: Redundancy) -> Option<Claim>
    ensures value { result ≡ vote_of tells.now redundancy }
    ensures counts { (claim : Claim) → (result ≡ Some claim)
        ↔ (f_of redundancy + 1 ≤ carriers claim (ports_of tells.now redundancy)) }
{
    match redundancy {
        Redundancy::One => claim_told_by(1, &[tells.a]),
        Redundancy::Three => vote_of_three(tells),
        Redundancy::Five => vote_of_five(tells),
    }
}

// Mostly the first ports agree, and then no other has to be looked at.
#[inline(always)]
fn vote_of_three(tells: &Tells) -> Option<Claim>
    ensures { result ≡ vote_of tells.now Three }
{
    if let Told::Claim(claim) = &tells.a
        && tells_claim(&tells.b, claim)
    {
        return Some(*claim);
    }
    claim_told_by(2, &[tells.a, tells.b, tells.c])
}

#[inline(always)]
fn vote_of_five(tells: &Tells) -> Option<Claim>
    ensures { result ≡ vote_of tells.now Five }
{
    if let Told::Claim(claim) = &tells.a
        && tells_claim(&tells.b, claim)
        && tells_claim(&tells.c, claim)
    {
        return Some(*claim);
    }
    claim_told_by(3, &[tells.a, tells.b, tells.c, tells.d, tells.e])
}

// The claim that at least `enough` of the ports tell, if that is more than half of them.
#[inline(never)]
fn claim_told_by(enough: usize, ports: &[Told]) -> Option<Claim>
    requires { length ports.now < 2 * enough }
    ensures value { result ≡ first_told (enough - 1) ports.now ports.now }
    ensures counts { (claim : Claim)
        → (result ≡ Some claim) ↔ (enough ≤ carriers claim ports.now) }
{
    for told in ports {
        let Told::Claim(claim) = told else {
            continue;
        };
        if carriers(claim, ports) >= enough {
            return Some(*claim);
        }
    }
    None
}

fn carriers(claim: &Claim, ports: &[Told]) -> usize
    ensures { result ≡ carriers claim.now ports.now }
{
    ports.iter().filter(|told| tells_claim(told, claim)).count()
}

fn tells_claim(told: &Told, claim: &Claim) -> bool
    ensures { result ≡ is_told claim.now told.now }
{
    match told {
        Told::Claim(other) => other == claim,
        _ => false,
    }
}
