//! Lines that are read, and their limits.

ghost use Rattle.std.specs.Prelude.{◌≡◌, IfOk, IfErr, OnErr, ◌||◌};
ghost use Rattle.irig_device.specs.Lines.{GivesLine, GivesPart};
ghost use Rattle.irig_device.specs.Watched.{device_of, has_failed};
ghost use Rattle.report_run.specs.Faults.{IsFaultOfReading, says_read};
ghost use Rattle.report_run.specs.Lines.{is_blank, limit_of, too_long};

use crate::fault::SceneFault;
use irig_device::{LineEnd, ReadFault, Watched};
use std::io::BufRead;
use text_faults::Refusal;

/// The last line that is run.
pub const MAX_LINES: u64 = 1_000_000;

// The longest line that is run, in bytes without its newline.
const MAX_LINE: usize = 65536;

/// How many bytes of a line are read at most before it is known to be refused.
pub fn limit_of(number: u64) -> usize
    ensures { result ≡ limit_of number }
{
    if number > MAX_LINES { 0 } else { MAX_LINE }
}

/// Reads the next line into `line`, without its newline, no further than to its newline or one byte
/// above the limit. `Read` if the input failed, `Memory` if there was none.
pub fn read_line<R: BufRead>(
    input: &mut Watched<R>,
    limit: usize,
    line: &mut Vec<u8>,
) -> Result<LineEnd, SceneFault>
    ensures line { IfOk result (λ end. GivesLine end limit line.new.items
        (R.remaining (device_of input.old)) (R.remaining (device_of input.new))) }
    ensures part { OnErr result
        (GivesPart (R.remaining (device_of input.old)) (R.remaining (device_of input.new))) }
    ensures fault { IfErr result IsFaultOfReading }
    ensures note { has_failed input.new ≡ (has_failed input.old || says_read result) }
{
    match input.read_line(limit, line) {
        Ok(end) => Ok(end),
        Err(ReadFault::Device) => Err(SceneFault::Read),
        Err(ReadFault::Memory) => Err(SceneFault::Memory),
    }
}

/// Whether a line is skipped: it has blanks, tabs and carriage returns alone, or nothing.
pub fn is_blank(line: &[u8]) -> bool
    ensures { result ≡ is_blank line.now }
{
    line.iter()
        .all(|byte| *byte == b' ' || *byte == b'\t' || *byte == b'\r')
}

/// The refusal of a line that is longer than its limit.
pub fn too_long(number: u64) -> Refusal
    ensures { result ≡ too_long number }
{
    if number > MAX_LINES {
        Refusal::TooManyLines
    } else {
        Refusal::TooLong
    }
}
