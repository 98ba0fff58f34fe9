//! What a frame claims, in numbers.

ghost use Rattle.std.specs.Prelude.{◌≡◌};
ghost use Rattle.c_numbers.specs.Numbers.{claim_for, claim_in};

use crate::state::mark_number;
use irig_time::{Claim, UtcSecond};

/// What a frame claims.
#[repr(C)]
#[derive(Clone, Copy, Drop)]
pub struct IrigClaim {
    /// The UTC second that begins with the frame.
    pub at: UtcSecond,
    /// What it says of the leap at the end of that day: 0 nothing, 1 that there is none, 2 an
    /// insertion, 3 a deletion.
    pub mark: u8,
}

/// A claim of nothing, in zeros.
pub const NO_CLAIM: IrigClaim = IrigClaim {
    at: UtcSecond { day: 0, sod: 0 },
    mark: 0,
};

/// A claim as C holds it.
pub fn claim_for_c(claim: &Claim) -> IrigClaim
    ensures value { result ≡ claim_for claim.now }
    ensures back { claim_in result ≡ claim.now }
{
    IrigClaim {
        at: claim.at,
        mark: mark_number(claim.mark),
    }
}
