//! A recording is judged, and its verdict written.

ghost use Rattle.std.specs.Prelude.{◌≡◌, ◌≢◌, ◌↔◌, Err, false, true};
ghost use Rattle.irig_device.specs.Watched.{device_of, has_failed};
ghost use Rattle.irig_main.specs.Serving.{JudgesFile, JudgesRecording, ShowsJudged, asked_of};

use crate::fault::Fault;
use crate::request::{open, write};
use cli_words::Judging;
use irig_device::Watched;
use report_judge::{Asked, Judged, judge};
use std::alloc::Global;
use std::io;
use std::io::{BufRead, Write};
use std::rt::Files;

/// Judges the recording on an input, the standard one or a FILE that was opened, and writes the verdict.
/// Neither device may have failed before.
///
/// `Recording` if it is refused, and then nothing is written; `Undecided` if the verdict decides nothing;
/// `Read` if the input can't be read to its end, `Write` if the output fails; `Memory` if there was none.
// What else is asked for needs none of the stack that a judge takes.
#[inline(never)]
pub(crate) fn judge_input<I: BufRead, O: Write>(
    alloc: Global,
    judging: Judging<'_>,
    input: &mut Watched<I>,
    output: &mut Watched<O>,
) -> Result<(), Fault>
    requires input_whole { has_failed input.old ≡ false }
    requires output_whole { has_failed output.old ≡ false }
    ensures judged { JudgesRecording judging.entry result
        (I.remaining (device_of input.old)) (I.remaining (device_of input.new))
        (O.contents (device_of output.old)) (O.contents (device_of output.new)) }
    ensures write { (result ≡ Err Fault.Write) ↔ (has_failed output.new ≡ true) }
    ensures read { (result ≡ Err Fault.Read) ↔ (has_failed input.new ≡ true) }
    ensures time { result ≢ Err Fault.BadTime }
    ensures frame { result ≢ Err Fault.BadFrameText }
{
    match judge(alloc, input, &asked_of(judging)) {
        Ok(judged) => show(&judged, output),
        Err(fault) => Err(Fault::from(fault)),
    }
}

/// How a recording is judged that is asked for so.
pub(crate) fn asked_of<'a>(judging: Judging<'a>) -> Asked<'a>
    ensures { result ≡ asked_of judging.entry }
{
    Asked {
        channels: judging.channels,
        glitch_us: judging.glitch_us,
        rules: judging.rules,
        zone: judging.zone,
        threshold: judging.threshold,
        as_json: judging.as_json,
    }
}

/// Writes the verdict, which is the answer if it decides nothing.
pub(crate) fn show<O: Write>(judged: &Judged, output: &mut Watched<O>) -> Result<(), Fault>
    requires { has_failed output.old ≡ false }
    ensures shown { ShowsJudged judged.now result
        (O.contents (device_of output.old)) (O.contents (device_of output.new)) }
    ensures write { (result ≡ Err Fault.Write) ↔ (has_failed output.new ≡ true) }
{
    write(output, judged.text.as_str().as_bytes())?;
    if judged.is_decided {
        Ok(())
    } else {
        Err(Fault::Undecided)
    }
}

/// The same of the recording in a file; `Open` if it can't be opened.
pub(crate) fn judge_file<R: Files + AllocGlobal, O: Write>(
    rt: &R,
    judging: Judging<'_>,
    path: &str,
    output: &mut Watched<O>,
) -> Result<(), Fault>
    requires { has_failed output.old ≡ false }
    ensures judged { JudgesFile R.File.remaining judging.entry result
        (O.contents (device_of output.old)) (O.contents (device_of output.new)) }
    ensures write { (result ≡ Err Fault.Write) ↔ (has_failed output.new ≡ true) }
    ensures time { result ≢ Err Fault.BadTime }
    ensures frame { result ≢ Err Fault.BadFrameText }
{
    match open(rt, path) {
        Ok(mut input) => judge_input(rt.alloc(), judging, &mut input, output),
        Err(error) if error.kind() == io::ErrorKind::OutOfMemory => Err(Fault::Memory),
        Err(error) => Err(Fault::Open(error)),
    }
}
