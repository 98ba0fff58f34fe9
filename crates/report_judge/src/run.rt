//! A recording is read from a device, and judged.

ghost use Rattle.std.specs.Prelude.{◌≡◌, ◌≢◌, ◌↔◌, Err, IfErr, IfOk, IfSome, false, true};
ghost use Rattle.std.specs.Io.KnownBytes.{IsAtEnd};
ghost use Rattle.irig_device.specs.Watched.{device_of, has_failed};
ghost use Rattle.report_judge.specs.Readings.{JudgedWhole, RefusedBy};

use crate::asked::Asked;
use crate::fault::JudgeFault;
use crate::hearing::Judged;
use crate::reading::Reading;
use irig_device::Watched;
use std::alloc::Global;
use std::io::Read;

// How many bytes are read at once at most.
const PIECE: usize = 16_384;

/// Reads a recording to its end, and answers the verdict on the lines that are asked for.
///
/// What is refused is refused by the first bytes that are at fault. `Read` if the device fails.
pub fn judge<I: Read>(
    alloc: Global,
    input: &mut Watched<I>,
    asked: &Asked<'_>,
) -> Result<Judged, JudgeFault>
    requires whole { has_failed input.old ≡ false }
    ensures judged { IfOk result (λ judged. IfSome (I.remaining (device_of input.old))
        (λ text. JudgedWhole asked.now text judged)) }
    ensures end { IfOk result (λ _. IfSome (I.remaining (device_of input.old))
        (λ _. IsAtEnd (I.remaining (device_of input.new)))) }
    ensures refused { IfErr result (λ fault. fault ≢ JudgeFault.Read
        → IfSome (I.remaining (device_of input.old))
        (λ text. RefusedBy asked.now text fault)) }
    ensures read { (result ≡ Err JudgeFault.Read) ↔ (has_failed input.new ≡ true) }
{
    let mut piece = [0; PIECE];
    let mut reading = Reading::new();
    for _piece in 0..u64::MAX {
        let count = input.read_some(&mut piece)?;
        if count == 0 {
            let judged = reading.end(alloc)?;
            return Ok(judged);
        }
        reading = reading.read(alloc, asked, piece.split_at(count).0)?;
    }
    Err(JudgeFault::Endless)
}
