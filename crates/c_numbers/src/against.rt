//! Which ports contradict what a reader holds.

ghost use Rattle.std.specs.Prelude.{◌≡◌, ◌≤◌};
ghost use Rattle.c_numbers.specs.Against.{against_of, bit_against, held_by, is_against};

use irig_port::Told;
use irig_reader::State;
use irig_time::UtcSecond;
use irig_vote::{Redundancy, Tells};

/// The second to which a reader has come, if it has anything to go on.
pub fn held_by(state: &State) -> Option<UtcSecond>
    ensures { result ≡ held_by state.now }
{
    match state {
        State::Idle => None,
        State::Acquiring(hold, _) | State::Locked(hold) => Some(hold.now()),
    }
}

/// The ports that tell another second than this one, if there is one: bit p is port p.
pub fn against_hold(held: Option<UtcSecond>, tells: &Tells, redundancy: Redundancy) -> u8
    ensures { result ≡ against_of held tells.now redundancy }
{
    let Some(held) = held else {
        return 0;
    };
    bit_against(redundancy, held, 0, 1, &tells.a)
        + bit_against(redundancy, held, 1, 2, &tells.b)
        + bit_against(redundancy, held, 2, 4, &tells.c)
        + bit_against(redundancy, held, 3, 8, &tells.d)
        + bit_against(redundancy, held, 4, 16, &tells.e)
}

fn bit_against(redundancy: Redundancy, held: UtcSecond, port: u8, bit: u8, told: &Told) -> u8
    ensures value { result ≡ bit_against redundancy held port bit told.now }
    ensures few { result ≤ bit }
{
    if port < redundancy.ports() && is_against(held, told) {
        bit
    } else {
        0
    }
}

fn is_against(held: UtcSecond, told: &Told) -> bool
    ensures { result ≡ is_against held told.now }
{
    match told {
        Told::Claim(claim) => claim.at != held,
        _ => false,
    }
}
