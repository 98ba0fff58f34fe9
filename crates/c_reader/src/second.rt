//! Seconds of UTC.

ghost use Rattle.std.specs.Prelude.{◌≡◌, ◌↔◌, ◌≤◌, ◌⊎◌, Some, None, Ok, unsigned_abs};
ghost use Rattle.irig_frame.specs.Decoder.{IsCoded};
ghost use Rattle.irig_control.specs.Control.{IsControl};
ghost use Rattle.irig_time.specs.Seconds.{IsValid};
ghost use Rattle.irig_time.specs.Next.{next_of};
ghost use Rattle.irig_time.specs.CodedTime.{IsCodedOf};
ghost use Rattle.irig_time.specs.Claims.{claim_by};
ghost use Rattle.irig_time.specs.Texts.{IsText};
ghost use Rattle.c_numbers.specs.Numbers.{mark_in, sense_in, claim_in, code_of_claim};
ghost use Rattle.c_numbers.specs.Controls.{control_in};

use c_numbers::{
    IrigClaim, IrigControl, OUT_OF_RANGE, claim_for_c, control_of_c, fault_code, mark_of, sense_of,
};
use irig_frame::Coded;
use irig_port::PortFault;
use irig_time::{UtcSecond, claim_of, coded_of, next, read_text, valid, write_text};

/// Gives the second after a second, by what is said of the leap at the end of its day, a mark as
/// in [`IrigClaim`]. 26 if the mark is none of these, the second is none from 2000-01-02 to
/// 2099-12-30, or none is known to follow.
#[unsafe(no_mangle)]
pub extern "C" fn irig_c_second_next(second: &UtcSecond, mark: u8, following: &mut UtcSecond) -> u32
    ensures next { result ≡ 0
        → (mark ≤ 3)
        × (IsValid second.now × (next_of second.now (mark_in mark) ≡ Some following.new)) }
    ensures none { (result ≡ 0 → ⊥)
        → mark ≤ 3 → IsValid second.now → next_of second.now (mark_in mark) ≡ None }
    ensures refused { (result ≡ 0 → ⊥) → following.new ≡ following.old }
{
    if !valid(second) || mark > 3 {
        return OUT_OF_RANGE;
    }
    match next(*second, mark_of(mark)) {
        Some(utc) => {
            *following = utc;
            0
        }
        None => OUT_OF_RANGE,
    }
}

/// Writes the text of a second, `YYYY-MM-DDTHH:MM:SSZ` without an end. 26 if the second is none
/// from 2000-01-02 to 2099-12-30.
#[unsafe(no_mangle)]
pub extern "C" fn irig_c_second_write(second: &UtcSecond, text: &mut [u8; 20]) -> u32
    ensures answer { (result ≡ 0) ↔ IsValid second.now }
    ensures text { result ≡ 0 → IsText second.now text.new }
    ensures refused { (result ≡ 0 → ⊥) → text.new ≡ text.old }
{
    if !valid(second) {
        return OUT_OF_RANGE;
    }
    *text = write_text(second);
    0
}

/// Reads the text of a second, as [`irig_c_second_write`] writes it. 26 if it is no such text.
#[unsafe(no_mangle)]
pub extern "C" fn irig_c_second_read(text: &[u8], second: &mut UtcSecond) -> u32
    ensures read { result ≡ 0 → IsValid second.new × IsText second.new text.now }
    ensures none { (result ≡ 0 → ⊥)
        → (u : UtcSecond) → IsValid u → IsText u text.now → ⊥ }
    ensures refused { (result ≡ 0 → ⊥) → second.new ≡ second.old }
{
    match read_text(text) {
        Some(utc) => {
            *second = utc;
            0
        }
        None => OUT_OF_RANGE,
    }
}

/// Gives the coded time of a second in a zone, -31 to 31 half hours from UTC, with control bits 0.
/// 26 if the second or the zone is out of its range.
#[unsafe(no_mangle)]
pub extern "C" fn irig_c_coded_of(
    second: &UtcSecond,
    local_half_hours: i8,
    coded: &mut Coded,
) -> u32
    ensures answer { (result ≡ 0) ↔ (IsValid second.now × (unsigned_abs local_half_hours ≤ 31)) }
    ensures coded { result ≡ 0 → IsCodedOf second.now local_half_hours coded.new }
    ensures refused { (result ≡ 0 → ⊥) → coded.new ≡ coded.old }
{
    if !valid(second) || local_half_hours.unsigned_abs() > 31 {
        return OUT_OF_RANGE;
    }
    *coded = coded_of(second, local_half_hours);
    0
}

/// Says which second of UTC a coded time claims with these control bits, if the offset is added
/// if `sense` is 0, and subtracted if it is 1. 26 if a value is out of its range, or the number of
/// a fault of the time.
#[unsafe(no_mangle)]
pub extern "C" fn irig_c_claim_of(
    coded: &Coded,
    control: &IrigControl,
    sense: u8,
    claim: &mut IrigClaim,
) -> u32
    ensures answer { sense ≤ 1 → IsCoded coded.now → IsControl (control_in control.now)
        → result ≡ code_of_claim (claim_by (sense_in sense) coded.now (control_in control.now)) }
    ensures claim { result ≡ 0
        → ((sense ≤ 1) × (IsCoded coded.now × IsControl (control_in control.now)))
        × (claim_by (sense_in sense) coded.now (control_in control.now) ≡ Ok (claim_in claim.new)) }
    ensures refused { (result ≡ 0 → ⊥) → claim.new ≡ claim.old }
{
    let control = control_of_c(control);
    if sense > 1 || !irig_frame::in_range(coded) || !irig_control::in_range(&control) {
        return OUT_OF_RANGE;
    }
    match claim_of(coded, &control, sense_of(sense)) {
        Ok(claimed) => {
            *claim = claim_for_c(&claimed);
            0
        }
        Err(fault) => fault_code(PortFault::Time(fault)),
    }
}
