//! What a frame tells once its elements and its parity are right.

ghost use Rattle.std.specs.Prelude.{◌≡◌};
ghost use Rattle.std.specs.Result.{ForOk};
ghost use Rattle.irig_frame.specs.Decoder.{IsCoded};
ghost use Rattle.irig_time.specs.Seconds.{IsValid};
ghost use Rattle.irig_port.specs.Told.{is_sbs_wrong, coded_told, values_told, IfClaim};

use crate::told::{PortFault, Told};
use irig_control::unpack;
use irig_frame::{Coded, FrameFault};
use irig_time::{Rules, SbsUse, claim_of};

/// What the values of a frame tell, or the fault of its first wrong field.
pub(crate) fn tell_values(rules: &Rules, values: Result<Coded, FrameFault>) -> Told
    requires { ForOk values IsCoded }
    ensures told { result ≡ values_told rules.now values }
    ensures valid { IfClaim result (λ claim. IsValid claim.at) }
{
    match values {
        Err(fault) => Told::Fault(PortFault::Frame(fault)),
        Ok(coded) => tell_coded(rules, &coded),
    }
}

#[tactic(auto, unfolding(crate::specs::Told::coded_told))]
fn tell_coded(rules: &Rules, coded: &Coded) -> Told
    requires { IsCoded coded.now }
    ensures told { result ≡ coded_told rules.now coded.now }
    ensures valid { IfClaim result (λ claim. IsValid claim.at) }
{
    if has_wrong_sbs(rules.sbs, coded) {
        return Told::Fault(PortFault::Sbs);
    }
    let control = unpack(coded.control);
    match claim_of(coded, &control, rules.sense) {
        Err(fault) => Told::Fault(PortFault::Time(fault)),
        Ok(_) if control.quality >= 10 => Told::Poor(control.quality),
        Ok(claim) => Told::Claim(claim),
    }
}

fn has_wrong_sbs(usage: SbsUse, coded: &Coded) -> bool
    requires { IsCoded coded.now }
    ensures { result ≡ is_sbs_wrong usage coded.now }
{
    let second_of_day = u32::from(coded.hour) * 3600
        + u32::from(coded.minute) * 60
        + u32::from(coded.second);
    match usage {
        SbsUse::Check => coded.second < 60 && coded.sbs != second_of_day,
        SbsUse::Ignore => false,
    }
}
