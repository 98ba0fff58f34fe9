//! Laws of the vote over its definitions, for the crates above. They have no code.

ghost use Rattle.std.specs.Prelude.{◌≡◌, ◌↔◌, ◌+◌, ◌*◌, ◌≤◌, ℕ, true, Some, List, length};
ghost use Rattle.irig_time.specs.Claims.{same_claim};
ghost use Rattle.irig_vote.specs.Vote.{is_told, carriers, others, f_of, ports_in, ports_of, vote_of};

use crate::redundancy::Redundancy;
use crate::votes::Tells;
use irig_port::Told;
use irig_time::Claim;

/// The tests by which the vote counts are what they say: two claims are the same exactly if they
/// are equal, and a port is counted for a claim exactly if it tells that claim.
pub fn equal_claims()
    ensures same { (c d : Claim) → (same_claim c d ≡ true) ↔ (c ≡ d) }
    ensures told { (c : Claim) (told : Told)
        → (is_told c told ≡ true) ↔ (told ≡ Told.Claim c) }
{}

/// Of 2f + 1 ports, at most one claim is told by f + 1. A reader has 2f + 1 ports.
pub fn one_vote()
    ensures one { (f : ℕ) (ports : List Told) (c d : Claim) → length ports ≤ 2 * f + 1
        → f + 1 ≤ carriers c ports → f + 1 ≤ carriers d ports → c ≡ d }
    ensures ports { (tells : Tells) (redundancy : Redundancy)
        → length (ports_of tells redundancy) ≡ ports_in redundancy }
    ensures number { (redundancy : Redundancy) → ports_in redundancy ≡ 2 * f_of redundancy + 1 }
{}

/// The vote is the claim that f + 1 ports tell.
pub fn vote_is()
    ensures { (t : Tells) (r : Redundancy) (claim : Claim)
        → (vote_of t r ≡ Some claim) ↔ (f_of r + 1 ≤ carriers claim (ports_of t r)) }
{}

/// If at most f ports tell another claim than this one, no other is voted.
pub fn few_others()
    ensures { (t : Tells) (r : Redundancy) (c d : Claim) → others c (ports_of t r) ≤ f_of r
        → vote_of t r ≡ Some d → d ≡ c }
{}
