//! What a reader says, and what a port tells, in numbers.

ghost use Rattle.std.specs.Prelude.{◌≡◌};
ghost use Rattle.c_numbers.specs.Controls.{flag_in};
ghost use Rattle.c_numbers.specs.Reports.{report_in, voices_in, number_of_lock, count_of_lock, number_of_cause, told_in};

use crate::claim::{IrigClaim, NO_CLAIM, claim_for_c};
use crate::fault::fault_code;
use crate::voices::Voices;
use crate::zone::Zone;
use irig_port::Told;
use irig_reader::{Cause, Lock, Report};
use irig_time::UtcSecond;

/// What a reader says at an edge.
#[repr(C)]
#[derive(Clone, Copy, Drop)]
pub struct IrigReport {
    /// 1 if it announces the second, 0 if it is silent.
    pub announces: u8,
    /// 0 unlocked, 1 acquiring, 2 locked, 3 holdover.
    pub lock: u8,
    /// 0 voted, 1 held, 2 acquiring, 3 no vote, 4 expired, 5 leap guard, 6 jump, 7 range end.
    pub cause: u8,
    /// The ports that told the claim that was voted: bit p is port p.
    pub agreed: u8,
    /// The votes so far while it is acquiring, the edges since the last vote in holdover, else 0.
    pub lock_count: u32,
    /// The day of the second, or 0.
    pub day: u32,
    /// The second of that day, or 0.
    pub sod: u32,
    /// The ports that told another claim, or one while none was voted.
    pub differed: u8,
    /// The ports that told a fault.
    pub faulty: u8,
    /// The ports that told a quality without a vote.
    pub poor: u8,
    /// The worst quality of the frames of the ports that agreed, 0 to 9; 15 if none was voted.
    pub quality: u8,
    /// 1 if so many of these frames as a vote takes are of one zone, else 0.
    pub has_local: u8,
    /// Local time minus UTC in that zone, in half hours, or 0.
    pub local_half_hours: i8,
    /// 1 if it is daylight saving time there, else 0.
    pub dst: u8,
    /// The ports that told another second than the one to which the reader had come, 0 if it had
    /// nothing to go on.
    pub against_hold: u8,
}

/// What a port tells.
#[repr(C)]
#[derive(Clone, Copy, Drop)]
pub struct IrigTold {
    /// 0 silence, 1 a fault, 2 a quality without a vote, 3 a claim.
    pub kind: u8,
    /// Of 2 the quality, 1 to 15, else 0.
    pub quality: u8,
    /// The number of the fault, or 0.
    pub fault: u32,
    /// The claim, or zeros.
    pub claim: IrigClaim,
}

/// A report as C is given it, what the ports told, and which of them are against the hold.
pub fn report_for_c(report: &Report, voices: &Voices, against_hold: u8) -> IrigReport
    ensures report { report_in result ≡ report.now }
    ensures voices { voices_in result ≡ voices.now }
    ensures against { result.against_hold ≡ against_hold }
{
    let utc = match report.announce {
        Some(utc) => utc,
        None => UtcSecond { day: 0, sod: 0 },
    };
    let zone = match voices.zone {
        Some(zone) => zone,
        None => NO_ZONE,
    };
    IrigReport {
        announces: u8::from(report.announce.is_some()),
        lock: lock_number(report.lock),
        cause: cause_number(report.cause),
        agreed: voices.agreed,
        lock_count: lock_count(report.lock),
        day: utc.day,
        sod: utc.sod,
        differed: voices.differed,
        faulty: voices.faulty,
        poor: voices.poor,
        quality: voices.quality,
        has_local: u8::from(voices.zone.is_some()),
        local_half_hours: zone.local_half_hours,
        dst: u8::from(zone.dst),
        against_hold,
    }
}

const NO_ZONE: Zone = Zone {
    local_half_hours: 0,
    dst: false,
};

/// The number of a lock.
pub fn lock_number(lock: Lock) -> u8
    ensures { result ≡ number_of_lock lock }
{
    match lock {
        Lock::Unlocked => 0,
        Lock::Acquiring(_) => 1,
        Lock::Locked => 2,
        Lock::Holdover(_) => 3,
    }
}

/// The votes or edges that a lock has, or 0.
pub fn lock_count(lock: Lock) -> u32
    ensures { result ≡ count_of_lock lock }
{
    match lock {
        Lock::Unlocked | Lock::Locked => 0,
        Lock::Acquiring(count) => u32::from(count),
        Lock::Holdover(age) => age,
    }
}

/// The number of a cause.
pub fn cause_number(cause: Cause) -> u8
    ensures { result ≡ number_of_cause cause }
{
    match cause {
        Cause::Voted => 0,
        Cause::Held => 1,
        Cause::Acquiring => 2,
        Cause::NoVote => 3,
        Cause::Expired => 4,
        Cause::LeapGuard => 5,
        Cause::Jump => 6,
        Cause::RangeEnd => 7,
    }
}

const SILENCE: IrigTold = IrigTold {
    kind: 0,
    quality: 0,
    fault: 0,
    claim: NO_CLAIM,
};

/// What a port tells, as C is given it.
pub fn told_for_c(told: &Told) -> IrigTold
    ensures { result ≡ told_in told.now }
{
    match told {
        Told::Silence => SILENCE,
        Told::Fault(fault) => IrigTold {
            kind: 1,
            fault: fault_code(*fault),
            ..SILENCE
        },
        Told::Poor(quality) => IrigTold {
            kind: 2,
            quality: *quality,
            ..SILENCE
        },
        Told::Claim(claim) => IrigTold {
            kind: 3,
            claim: claim_for_c(claim),
            ..SILENCE
        },
    }
}
