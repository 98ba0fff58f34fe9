//! A single file of a disturbance record is read from a device, and judged.

ghost use Rattle.std.specs.Prelude.{◌≡◌, ◌≢◌, ◌↔◌, ◌++◌, Err, IfErr, IfOk, IfSome, List, ℕ, box_value, false, true};
ghost use Rattle.irig_device.specs.Watched.{device_of, has_failed};
ghost use Rattle.record_single.specs.Singles.{limited};
ghost use Rattle.record_stamp.specs.Codes.{IsZoneOf};
ghost use Rattle.report_judge.specs.declared.asked.Asked.{Asked as AskedOf};
ghost use Rattle.report_judge.specs.Singles.{HasOpened, HasReadHead, HasReadPart, IsOpened, JudgedSingle, SingleRefused, SingleRefusedFrom, less};

use crate::asked::Asked;
use crate::fault::JudgeFault;
use crate::hearing::Judged;
use crate::record::Record;
use irig_device::Watched;
use record_single::Head;
use std::alloc::Global;
use std::io::Read;

// How many bytes are read at once at most.
const PIECE: usize = 16_384;

// Where a single file is read.
#[derive(Drop)]
enum Part {
    // Above its samples.
    Above(Head),
    // In its samples. What the lines have heard is large.
    Below(Box<Below>),
}

// The samples of a single file.
#[derive(Drop)]
struct Below {
    record: Record,
    // How many bytes are still to come, if that is said.
    left: Option<u64>,
}

/// Reads a single file of a disturbance record to the end of its samples, and answers the verdict on
/// the lines that are asked for.
///
/// What is refused is refused by the first line of the configuration that is at fault, and else by
/// the first sample; before either if there are no samples. `Read` if the device fails.
pub fn judge_single<I: Read>(
    alloc: Global,
    input: &mut Watched<I>,
    asked: &Asked<'_>,
) -> Result<Judged, JudgeFault>
    requires whole { has_failed input.old ≡ false }
    requires zone { IsZoneOf asked.now.zone }
    ensures judged { IfOk result (λ judged. IfSome (I.remaining (device_of input.old))
        (λ file. JudgedSingle asked.now file judged)) }
    ensures refused { IfErr result (λ fault. fault ≢ JudgeFault.Read
        → IfSome (I.remaining (device_of input.old))
        (λ file. SingleRefused asked.now file fault)) }
    ensures read { (result ≡ Err JudgeFault.Read) ↔ (has_failed input.new ≡ true) }
    ensures other { result ≢ Err JudgeFault.ReadSamples }
{
    let mut piece = [0; PIECE];
    let mut part = Part::Above(Head::new(alloc));
    for _piece in 0..u64::MAX {
        let count = input.read_some(&mut piece)?;
        if count == 0 {
            let judged = end(alloc, asked, part)?;
            return Ok(judged);
        }
        part = read(alloc, asked, part, piece.split_at(count).0)?;
    }
    Err(JudgeFault::Endless)
}

// Reads the next piece.
fn read(alloc: Global, asked: &Asked<'_>, part: Part, bytes: &[u8]) -> Result<Part, JudgeFault>
    ensures reads { IfOk result (λ next. (file : List ℕ) → HasReadPart asked.now file part
        → HasReadPart asked.now (file ++ bytes.now) next) }
    ensures refuses { IfErr result (λ fault. (file : List ℕ) → HasReadPart asked.now file part
        → SingleRefusedFrom asked.now (file ++ bytes.now) fault) }
    ensures device { result ≢ Err JudgeFault.Read }
    ensures samples_device { result ≢ Err JudgeFault.ReadSamples }
{
    match part {
        Part::Above(head) => {
            let next = read_above(alloc, asked, head, bytes)?;
            Ok(next)
        }
        Part::Below(mut below) => {
            below.read(bytes)?;
            Ok(Part::Below(below))
        }
    }
}

// Reads on above the samples, and maybe into them.
fn read_above(
    alloc: Global,
    asked: &Asked<'_>,
    mut head: Head,
    bytes: &[u8],
) -> Result<Part, JudgeFault>
    ensures reads { IfOk result (λ next. (file : List ℕ) → HasReadHead file head
        → HasReadPart asked.now (file ++ bytes.now) next) }
    ensures refuses { IfErr result (λ fault. (file : List ℕ) → HasReadHead file head
        → SingleRefusedFrom asked.now (file ++ bytes.now) fault) }
    ensures device { result ≢ Err JudgeFault.Read }
    ensures samples_device { result ≢ Err JudgeFault.ReadSamples }
{
    let Some(found) = head.read(alloc, bytes)? else {
        return Ok(Part::Above(head));
    };
    let mut below = begin(alloc, asked, head, found.count)?;
    below.read(bytes.split_at(found.taken).1)?;
    Ok(Part::Below(below))
}

// The samples begin, of so many bytes if that is said.
#[inline(never)]
fn begin(
    alloc: Global,
    asked: &Asked<'_>,
    head: Head,
    count: Option<u64>,
) -> Result<Box<Below>, JudgeFault>
    ensures reads { IfOk result (λ below. (file : List ℕ) → IsOpened file head count
        → HasOpened asked.now file (box_value below)) }
    ensures refuses { IfErr result (λ fault. (file : List ℕ) → IsOpened file head count
        → SingleRefusedFrom asked.now file fault) }
    ensures device { result ≢ Err JudgeFault.Read }
    ensures samples_device { result ≢ Err JudgeFault.ReadSamples }
{
    let config = head.config(alloc)?;
    let record = Record::new(alloc, config, asked)?;
    match Box::new(
        alloc,
        Below {
            record,
            left: count,
        },
    ) {
        Ok(below) => Ok(below),
        Err(_) => Err(JudgeFault::Memory),
    }
}

// The file has ended: the verdict.
fn end(alloc: Global, asked: &Asked<'_>, part: Part) -> Result<Judged, JudgeFault>
    requires { IsZoneOf asked.now.zone }
    ensures judged { IfOk result (λ judged. (file : List ℕ) → HasReadPart asked.now file part
        → JudgedSingle asked.now file judged) }
    ensures refuses { IfErr result (λ fault. (file : List ℕ) → HasReadPart asked.now file part
        → SingleRefused asked.now file fault) }
    ensures device { result ≢ Err JudgeFault.Read }
    ensures samples_device { result ≢ Err JudgeFault.ReadSamples }
{
    match part {
        Part::Above(_) => Err(JudgeFault::NoSamples),
        Part::Below(below) => {
            let judged = Box::into_inner(below).record.end(alloc, asked)?;
            Ok(judged)
        }
    }
}

impl Below {
    // Some bytes, of which those behind the samples are passed over.
    fn read(&mut self, bytes: &[u8]) -> Result<(), JudgeFault>
        ensures reads { IfOk result (λ _. (asked : AskedOf) (file : List ℕ)
            → HasOpened asked file self.old → HasOpened asked (file ++ bytes.now) self.new) }
        ensures refuses { IfErr result (λ fault. (asked : AskedOf) (file : List ℕ)
            → HasOpened asked file self.old
            → SingleRefusedFrom asked (file ++ bytes.now) fault) }
        ensures device { result ≢ Err JudgeFault.Read }
        ensures samples_device { result ≢ Err JudgeFault.ReadSamples }
    {
        self.record.read(limited(self.left, bytes))?;
        self.left = less(self.left, bytes.len());
        Ok(())
    }
}

// Those of so many bytes, or all.
fn limited(left: Option<u64>, bytes: &[u8]) -> &[u8]
    ensures { result.now ≡ limited left bytes.now }
{
    match left {
        Some(left) if left < bytes.len() as u64 => bytes.split_at(left as usize).0,
        _ => bytes,
    }
}

fn less(left: Option<u64>, count: usize) -> Option<u64>
    ensures { result ≡ less left count }
{
    match left {
        Some(left) => Some(left.saturating_sub(count as u64)),
        None => None,
    }
}
