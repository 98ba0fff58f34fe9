//! Texts that are written to the output.

ghost use Rattle.std.specs.Prelude.{◌≡◌, ◌||◌};
ghost use Rattle.irig_device.specs.Watched.{device_of, has_failed};
ghost use Rattle.report_log.specs.Text.{refusal_text};
ghost use Rattle.report_run.specs.Faults.{WroteRefusal, WroteText, failed_write, is_write_fault};

use crate::fault::SceneFault;
use crate::stop::Failure;
use irig_device::Watched;
use report_log::push_refusal;
use std::alloc::Global;
use std::io::Write;
use text_faults::Refusal;

/// Writes the refusal of a line, and answers it; or what failed meanwhile, `Write` or `Memory`.
pub fn refuse<W: Write>(
    alloc: Global,
    number: u64,
    refusal: Refusal,
    output: &mut Watched<W>,
) -> SceneFault
    ensures wrote { WroteRefusal result number refusal
        (W.contents (device_of output.old)) (W.contents (device_of output.new)) }
    ensures note { has_failed output.new ≡ (has_failed output.old || is_write_fault result) }
{
    match write_refusal(alloc, number, refusal, output) {
        Ok(()) => SceneFault::Refused {
            line: number,
            refusal,
        },
        Err(failure) => SceneFault::from(failure),
    }
}

fn write_refusal<W: Write>(
    alloc: Global,
    line: u64,
    refusal: Refusal,
    output: &mut Watched<W>,
) -> Result<(), Failure>
    ensures wrote { WroteText result
        (W.contents (device_of output.old)) (W.contents (device_of output.new))
        (refusal_text line refusal) }
    ensures note { has_failed output.new ≡ (has_failed output.old || failed_write result) }
{
    let mut text = String::new(alloc);
    if push_refusal(&mut text, line, refusal).is_err() {
        return Err(Failure::Memory);
    }
    write_text(output, text.as_str())
}

/// Writes a text.
pub fn write_text<W: Write>(output: &mut Watched<W>, text: &str) -> Result<(), Failure>
    ensures wrote { WroteText result
        (W.contents (device_of output.old)) (W.contents (device_of output.new)) text.now }
    ensures note { has_failed output.new ≡ (has_failed output.old || failed_write result) }
{
    let written = output.write_all(text.as_bytes());
    written.map_err(|_| Failure::Write)
}
