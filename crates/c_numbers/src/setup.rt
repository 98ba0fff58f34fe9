//! How a reader is set up.

ghost use Rattle.std.specs.Prelude.{◌≡◌, ◌↔◌, ◌<◌, ◌≤◌, IsTrue};
ghost use Rattle.c_numbers.specs.Numbers.{parity_in, sense_in};
ghost use Rattle.c_numbers.specs.Setups.{rules_in, reader_rules_in, redundancy_in, limits_in, keeper_limits_in, IsPort, IsSetup, IsKeeperSetup};

use irig_control::Parity;
use irig_port::Limits;
use irig_reader::{ReaderRules, in_range};
use irig_time::{LAST_DAY, Rules, SbsUse, Sense};
use irig_vote::Redundancy;

/// The rules of the frames, and of the reader.
#[repr(C)]
#[derive(Clone, Copy, Drop)]
pub struct IrigSetup {
    /// 0 is even, 1 odd.
    pub parity: u8,
    /// 0 adds the offset to the coded time, 1 subtracts it.
    pub sense: u8,
    /// 0 compares the straight binary seconds, 1 ignores them.
    pub sbs: u8,
    /// 0 is three ports, 1 five, 2 one.
    pub redundancy: u8,
    /// The votes after which it announces, 1 to 60.
    pub lock_after: u8,
    /// The edges without a vote at which it goes on announcing, 0 to 1,000,000.
    pub holdover: u32,
    /// The first day that a frame may claim, counted from 2000-01-01 as day 0, at most
    /// [`LAST_DAY`].
    pub not_before: u16,
    /// The time quality from which a frame has no vote: of a reader 1 to 10, and 0 is 10; of a
    /// timekeeper 1 to 8, and 0 is 7.
    pub poor_from: u8,
}

/// The parity with this number: 0 is even, any other odd.
pub fn parity_of(number: u8) -> Parity
    ensures { result ≡ parity_in number }
{
    match number {
        0 => Parity::Even,
        _ => Parity::Odd,
    }
}

/// What becomes of the offset: 0 adds it, any other number subtracts it.
pub fn sense_of(number: u8) -> Sense
    ensures { result ≡ sense_in number }
{
    match number {
        0 => Sense::Add,
        _ => Sense::Subtract,
    }
}

/// The rules by which frames are read.
pub fn rules_of(setup: &IrigSetup) -> Rules
    ensures { result ≡ rules_in setup.now }
{
    Rules {
        parity: parity_of(setup.parity),
        sense: sense_of(setup.sense),
        sbs: if setup.sbs == 0 {
            SbsUse::Check
        } else {
            SbsUse::Ignore
        },
    }
}

/// The rules of the reader.
pub fn reader_rules_of(setup: &IrigSetup) -> ReaderRules
    ensures { result ≡ reader_rules_in setup.now }
{
    ReaderRules {
        lock_after: setup.lock_after,
        holdover: setup.holdover,
    }
}

/// The limits of what has a vote in a reader, if it names any.
pub fn limits_of(setup: &IrigSetup) -> Option<Limits>
    ensures { result ≡ limits_in setup.now }
{
    if setup.not_before == 0 && setup.poor_from == 0 {
        return None;
    }
    Some(Limits {
        not_before: u32::from(setup.not_before),
        poor_from: if setup.poor_from == 0 {
            10
        } else {
            setup.poor_from
        },
    })
}

/// The limits of what has a vote in a timekeeper, which has some in any case.
#[tactic(auto, unfolding(crate::specs::Setups::keeper_limits_in))]
pub fn keeper_limits_of(setup: &IrigSetup) -> Limits
    ensures value { result ≡ keeper_limits_in setup.now }
    ensures few { IsKeeperSetup setup.now → result.poor_from ≤ 8 }
{
    Limits {
        not_before: u32::from(setup.not_before),
        poor_from: if setup.poor_from == 0 {
            7
        } else {
            setup.poor_from
        },
    }
}

/// How many ports it has. A number without a meaning is one port.
pub fn redundancy_of(setup: &IrigSetup) -> Redundancy
    ensures { result ≡ redundancy_in setup.now }
{
    match setup.redundancy {
        0 => Redundancy::Three,
        1 => Redundancy::Five,
        _ => Redundancy::One,
    }
}

/// Whether there is such a port.
#[inline]
pub fn is_port(setup: &IrigSetup, port: u8) -> bool
    ensures { IsTrue result ↔ IsPort setup.now port }
{
    match setup.redundancy {
        0 => port < 3,
        1 => port < 5,
        2 => port < 1,
        _ => false,
    }
}

/// Whether each number has a meaning, and the rules are in range.
pub fn is_setup(setup: &IrigSetup) -> bool
    ensures { IsTrue result ↔ IsSetup setup.now }
{
    setup.parity <= 1
        && setup.sense <= 1
        && setup.sbs <= 1
        && setup.redundancy <= 2
        && in_range(&reader_rules_of(setup))
        && u32::from(setup.not_before) <= LAST_DAY
        && setup.poor_from <= 10
}

/// Whether a timekeeper may have the setup: it is one, and `poor_from` is at most 8.
pub fn is_keeper_setup(setup: &IrigSetup) -> bool
    ensures { IsTrue result ↔ IsKeeperSetup setup.now }
{
    is_setup(setup) && setup.poor_from <= 8
}
