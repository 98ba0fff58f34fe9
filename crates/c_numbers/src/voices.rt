//! What ports told at an edge, beside the vote.

ghost use Rattle.std.specs.Prelude.{◌≡◌};
ghost use Rattle.c_numbers.specs.Voices.{voices_to};

use crate::standing::{Standing, Standings};
use crate::zone::{Zone, sent_by, worst_of, zone_sent_by};
use irig_port::Tally;
use irig_time::{Claim, Sense};
use irig_vote::{Redundancy, Tells};

/// How the ports stand to the vote, bit p of each mask port p, and what the frames of those that
/// agree say beside the time.
#[derive(Clone, Copy)]
pub struct Voices {
    /// The ports that told the claim that was voted.
    pub agreed: u8,
    /// Those that told another claim, or one while none was voted.
    pub differed: u8,
    /// Those that told a fault.
    pub faulty: u8,
    /// Those that told a quality without a vote.
    pub poor: u8,
    /// The worst of those that agree, 15 if there is no vote.
    pub quality: u8,
    /// The zone that so many of them are of as a vote takes.
    pub zone: Option<Zone>,
}

/// The voices of ports that tell this, beside this vote, and heard frames by these numbers.
#[inline(never)]
pub fn voices_of(
    tells: &Tells,
    redundancy: Redundancy,
    vote: Option<Claim>,
    sense: Sense,
    ports: &[Tally; 5],
) -> Voices
    ensures { result ≡ voices_to vote tells.now redundancy sense ports.now }
{
    let standings = Standings::of(tells, redundancy, vote);
    let sent = sent_by(&standings, sense, ports);
    Voices {
        agreed: standings.mask(Standing::Agreed),
        differed: standings.mask(Standing::Differed),
        faulty: standings.mask(Standing::Faulty),
        poor: standings.mask(Standing::Poor),
        quality: match vote {
            Some(_) => worst_of(&sent),
            None => 15,
        },
        zone: zone_sent_by(usize::from(redundancy.f()) + 1, &sent),
    }
}
