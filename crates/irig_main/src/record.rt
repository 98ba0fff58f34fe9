//! A disturbance record is judged, and its verdict written.

ghost use Rattle.std.specs.Prelude.{◌≡◌, ◌≢◌, ◌↔◌, Err, false, true};
ghost use Rattle.cli_words.specs.Requests.{IsJudging};
ghost use Rattle.irig_device.specs.Watched.{device_of, has_failed};
ghost use Rattle.irig_main.specs.Serving.{JudgesBeside, JudgesFiles, JudgesPair, JudgesSingle, JudgesSingleFile};

use crate::fault::Fault;
use crate::judge::{asked_of, show};
use crate::path::path_beside;
use crate::request::open;
use cli_words::Judging;
use irig_device::Watched;
use report_judge::{judge_record, judge_single};
use std::alloc::Global;
use std::io;
use std::io::{BufRead, Write};
use std::rt::Files;

/// Judges the record whose configuration is in a file, with the samples in the file beside it, and
/// writes the verdict. The output may not have failed before.
///
/// `Recording` if it is refused, and then nothing is written; `Undecided` if the verdict decides
/// nothing; `Open` and `OpenSamples` if a file can't be opened, `Read` and `ReadSamples` if one
/// can't be read to its end, `Write` if the output fails; `Memory` if there was none.
pub(crate) fn judge_files<R: Files + AllocGlobal, O: Write>(
    rt: &R,
    judging: Judging<'_>,
    path: &str,
    output: &mut Watched<O>,
) -> Result<(), Fault>
    requires in_range { IsJudging judging }
    requires output_whole { has_failed output.old ≡ false }
    ensures judged { JudgesFiles R.File.remaining judging.entry result
        (O.contents (device_of output.old)) (O.contents (device_of output.new)) }
    ensures write { (result ≡ Err Fault.Write) ↔ (has_failed output.new ≡ true) }
    ensures time { result ≢ Err Fault.BadTime }
    ensures frame { result ≢ Err Fault.BadFrameText }
{
    let samples = path_beside(rt.alloc(), path, "dat")?;
    match open(rt, path) {
        Ok(mut config) => judge_beside(rt, judging, &mut config, samples.as_str(), output),
        Err(error) if error.kind() == io::ErrorKind::OutOfMemory => Err(Fault::Memory),
        Err(error) => Err(Fault::Open(error)),
    }
}

// With the samples in a file.
fn judge_beside<R: Files + AllocGlobal, C: BufRead, O: Write>(
    rt: &R,
    judging: Judging<'_>,
    config: &mut Watched<C>,
    samples: &str,
    output: &mut Watched<O>,
) -> Result<(), Fault>
    requires in_range { IsJudging judging }
    requires config_whole { has_failed config.old ≡ false }
    requires output_whole { has_failed output.old ≡ false }
    ensures judged { JudgesBeside R.File.remaining judging.entry result
        (C.remaining (device_of config.old))
        (O.contents (device_of output.old)) (O.contents (device_of output.new)) }
    ensures write { (result ≡ Err Fault.Write) ↔ (has_failed output.new ≡ true) }
    ensures time { result ≢ Err Fault.BadTime }
    ensures frame { result ≢ Err Fault.BadFrameText }
{
    match open(rt, samples) {
        Ok(mut data) => judge_pair(rt.alloc(), judging, config, &mut data, output),
        Err(error) if error.kind() == io::ErrorKind::OutOfMemory => Err(Fault::Memory),
        Err(error) => Err(Fault::OpenSamples(error)),
    }
}

// With these samples. What else is asked for needs none of the stack that a judge takes.
#[inline(never)]
fn judge_pair<C: BufRead, D: BufRead, O: Write>(
    alloc: Global,
    judging: Judging<'_>,
    config: &mut Watched<C>,
    data: &mut Watched<D>,
    output: &mut Watched<O>,
) -> Result<(), Fault>
    requires in_range { IsJudging judging }
    requires config_whole { has_failed config.old ≡ false }
    requires data_whole { has_failed data.old ≡ false }
    requires output_whole { has_failed output.old ≡ false }
    ensures judged { JudgesPair judging.entry result
        (C.remaining (device_of config.old)) (D.remaining (device_of data.old))
        (O.contents (device_of output.old)) (O.contents (device_of output.new)) }
    ensures write { (result ≡ Err Fault.Write) ↔ (has_failed output.new ≡ true) }
    ensures time { result ≢ Err Fault.BadTime }
    ensures frame { result ≢ Err Fault.BadFrameText }
{
    match judge_record(alloc, config, data, &asked_of(judging)) {
        Ok(judged) => show(&judged, output),
        Err(fault) => Err(Fault::from(fault)),
    }
}

/// The same of the record that is a single file.
pub(crate) fn judge_single_file<R: Files + AllocGlobal, O: Write>(
    rt: &R,
    judging: Judging<'_>,
    path: &str,
    output: &mut Watched<O>,
) -> Result<(), Fault>
    requires in_range { IsJudging judging }
    requires output_whole { has_failed output.old ≡ false }
    ensures judged { JudgesSingleFile R.File.remaining judging.entry result
        (O.contents (device_of output.old)) (O.contents (device_of output.new)) }
    ensures write { (result ≡ Err Fault.Write) ↔ (has_failed output.new ≡ true) }
    ensures time { result ≢ Err Fault.BadTime }
    ensures frame { result ≢ Err Fault.BadFrameText }
{
    match open(rt, path) {
        Ok(mut input) => judge_whole(rt.alloc(), judging, &mut input, output),
        Err(error) if error.kind() == io::ErrorKind::OutOfMemory => Err(Fault::Memory),
        Err(error) => Err(Fault::Open(error)),
    }
}

// That this device gives.
#[inline(never)]
fn judge_whole<I: BufRead, O: Write>(
    alloc: Global,
    judging: Judging<'_>,
    input: &mut Watched<I>,
    output: &mut Watched<O>,
) -> Result<(), Fault>
    requires in_range { IsJudging judging }
    requires input_whole { has_failed input.old ≡ false }
    requires output_whole { has_failed output.old ≡ false }
    ensures judged { JudgesSingle judging.entry result
        (I.remaining (device_of input.old))
        (O.contents (device_of output.old)) (O.contents (device_of output.new)) }
    ensures write { (result ≡ Err Fault.Write) ↔ (has_failed output.new ≡ true) }
    ensures time { result ≢ Err Fault.BadTime }
    ensures frame { result ≢ Err Fault.BadFrameText }
{
    match judge_single(alloc, input, &asked_of(judging)) {
        Ok(judged) => show(&judged, output),
        Err(fault) => Err(Fault::from(fault)),
    }
}
