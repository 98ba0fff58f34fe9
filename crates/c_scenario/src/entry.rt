//! An entry of a log in numbers.

ghost use Rattle.std.specs.Prelude.{◌≡◌};
ghost use Rattle.c_scenario.specs.Entries.{any_verdict_of, claim_or_zeros, entry_for, station_verdict_of, verdict_by, verdict_of, verdict_on_devices};

use crate::stretch::second_of;
use c_numbers::{
    IrigClaim, IrigTold, NO_CLAIM, cause_number, claim_for_c, lock_count, lock_number, told_for_c,
};
use irig_plant::{Audit, Entry};
use irig_scenario::ScenarioOutcome;
use irig_scene::{Outcome, SceneFault};
use irig_station::Audit as StationAudit;
use irig_station_scene::StationOutcome;
use irig_time::Claim;
use report_run::EitherOutcome;

/// What a reader said at an edge, and what its ports told.
#[repr(C)]
#[derive(Clone, Copy, Drop)]
pub struct IrigEntry {
    /// The edge: at its n-th tick a reader is at edge n.
    pub edge: u64,
    /// The line of the scenario that asked for the tick, from 1.
    pub line: u64,
    /// What a port tells there of a true frame, or zeros.
    pub truth: IrigClaim,
    /// What its ports told; silence of those that it does not have.
    pub told: [IrigTold; 5],
    /// The votes so far while it is acquiring, the edges since the last vote in holdover, else 0.
    pub lock_count: u32,
    /// The day of the second that it announces, or 0.
    pub day: u32,
    /// The second of that day, or 0.
    pub sod: u32,
    /// The reader, by its place in the plant line, 0 to 15.
    pub reader: u8,
    /// 1 if it announces the second, 0 if it is silent.
    pub announces: u8,
    /// 0 unlocked, 1 acquiring, 2 locked, 3 holdover.
    pub lock: u8,
    /// 0 voted, 1 held, 2 acquiring, 3 no vote, 4 expired, 5 leap guard, 6 jump, 7 range end.
    pub cause: u8,
    /// How many ports it has, 3 or 5.
    pub ports: u8,
    /// 0 if no second is true there.
    pub has_truth: u8,
}

/// Whether the premises of a run held: zeros if a line is refused.
#[repr(C)]
#[derive(Clone, Copy, Drop)]
pub struct IrigVerdict {
    /// The first edge at which the premises did not hold, or 0.
    pub edge: u64,
    /// 0 none, 1 they held, 2 they were broken at an edge, 3 a leap table is false, 4 a device's
    /// counter drifts more than its setting says.
    pub kind: u8,
    /// The reader or device whose edge, table or counter that is, or 0.
    pub reader: u8,
}

/// An entry as C is given it, without its line.
pub(crate) fn entry_for_c(entry: &Entry) -> IrigEntry
    ensures { result ≡ entry_for entry.now }
{
    let second = second_of(entry.report.announce);
    let ports = &entry.told;
    IrigEntry {
        edge: entry.edge,
        line: 0,
        truth: claim_or_zeros(&entry.truth),
        told: [
            told_for_c(&ports.a),
            told_for_c(&ports.b),
            told_for_c(&ports.c),
            told_for_c(&ports.d),
            told_for_c(&ports.e),
        ],
        lock_count: lock_count(entry.report.lock),
        day: second.day,
        sod: second.sod,
        reader: entry.reader,
        announces: u8::from(entry.report.announce.is_some()),
        lock: lock_number(entry.report.lock),
        cause: cause_number(entry.report.cause),
        ports: entry.redundancy.ports(),
        has_truth: u8::from(entry.truth.is_some()),
    }
}

fn claim_or_zeros(claim: &Option<Claim>) -> IrigClaim
    ensures { result ≡ claim_or_zeros claim.now }
{
    match claim {
        Some(claim) => claim_for_c(claim),
        None => NO_CLAIM,
    }
}

/// The verdict on a run of readers that ended so.
pub(crate) fn verdict_for_c(answer: &Result<Outcome, SceneFault>) -> IrigVerdict
    ensures { result ≡ verdict_of answer.now }
{
    match answer {
        Err(_) => NO_VERDICT,
        Ok(outcome) => verdict_by(outcome.audit),
    }
}

/// The verdict on a run that ended so, whatever its plant has.
pub(crate) fn verdict_on_any(answer: &Result<ScenarioOutcome, SceneFault>) -> IrigVerdict
    ensures { result ≡ any_verdict_of answer.now }
{
    match answer {
        Err(_) => NO_VERDICT,
        Ok(EitherOutcome::First(outcome)) => verdict_by(outcome.audit),
        Ok(EitherOutcome::Second(outcome)) => verdict_on_devices(outcome.audit),
    }
}

/// The verdict on a run of devices that ended so.
pub(crate) fn verdict_on_station(answer: &Result<StationOutcome, SceneFault>) -> IrigVerdict
    ensures { result ≡ station_verdict_of answer.now }
{
    match answer {
        Err(_) => NO_VERDICT,
        Ok(outcome) => verdict_on_devices(outcome.audit),
    }
}

const NO_VERDICT: IrigVerdict = IrigVerdict {
    edge: 0,
    kind: 0,
    reader: 0,
};

fn verdict_by(audit: Audit) -> IrigVerdict
    ensures { result ≡ verdict_by audit }
{
    let (kind, reader, edge) = match audit {
        Audit::Kept => (1, 0, 0),
        Audit::Broken { reader, edge } => (2, reader, edge),
        Audit::FalseTable { reader } => (3, reader, 0),
    };
    IrigVerdict { edge, kind, reader }
}

fn verdict_on_devices(audit: StationAudit) -> IrigVerdict
    ensures { result ≡ verdict_on_devices audit }
{
    let (kind, reader, edge) = match audit {
        StationAudit::Kept => (1, 0, 0),
        StationAudit::Broken { device, edge } => (2, device, edge),
        StationAudit::FalseTable { device } => (3, device, 0),
        StationAudit::Drift { device } => (4, device, 0),
    };
    IrigVerdict { edge, kind, reader }
}
