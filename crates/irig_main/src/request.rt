//! What a request asks for, done.

ghost use Rattle.std.specs.Prelude.{◌≡◌, ◌≢◌, ◌↔◌, ◌⊎◌, Err, IfOk, false, true};
ghost use Rattle.std.specs.Io.Buffered.{reader_remaining};
ghost use Rattle.cli_words.specs.Requests.{IsJudging, IsRequest};
ghost use Rattle.irig_device.specs.Watched.{device_of, has_failed};
ghost use Rattle.text_frame.specs.Frame.{IsFrameOptions};
ghost use Rattle.irig_main.specs.Paths.{ending_of};
ghost use Rattle.irig_main.specs.Serving.{
  AreOfFile,
  IsUnknownWord,
  Judges,
  JudgesPath,
  Plays,
  Serves,
  ShowsFrame,
  ShowsMeaning,
  ShowsReading,
  Wrote,
  is_input,
  reads_input,
};

use crate::fault::Fault;
use crate::judge::{judge_file, judge_input};
use crate::path::{Ending, ending_of};
use crate::play::{play_file, play_input};
use crate::record::{judge_files, judge_single_file};
use cli_words::{Judging, Request, Source, Wanted};
use irig_device::Watched;
use irig_time::Rules;
use std::alloc::Global;
use std::io::{BufRead, BufReader, Write};
use std::rt::Files;
use std::{fs, io};
use text_frame::{FrameOptions, frame_lines, frame_text};
use text_words::{explanation, why_no_word};

// Without options a log shows announcements alone.
const PLAIN_LOG: Wanted<'static> = Wanted::Log {
    all: false,
    ports: false,
};

/// Does what is asked for: plays a scenario and writes its log, what its readers or devices hear, or who
/// lied in it; judges a recording; writes a frame or what one says; or explains a word. Neither device may
/// have failed before.
///
/// `Samples` if FILE has the samples of a record and not its configuration, and then nothing is
/// written; `BadTime` if TIME is the text of no second, `BadFrameText` if FRAME has a letter of no
/// symbol, `CommandLine` if WORD is none that is explained, and then nothing is written; `Refused`
/// if a line of the scenario is refused, which the standard error then explains; `Recording` if a
/// recording is refused, and nothing is written; `Undecided` if its verdict, which is written,
/// decides nothing; `Open` if FILE can't be opened, `Read` if it can't be read to its end,
/// `OpenSamples` and `ReadSamples` of the samples beside it, `Write` if the output fails; `Memory`
/// if there was none.
pub fn serve<'a, R: Files + Eprint + AllocGlobal, I: BufRead, O: Write>(
    rt: &R,
    request: Request<'a>,
    input: &mut Watched<I>,
    output: &mut Watched<O>,
) -> Result<(), Fault>
    requires in_range { IsRequest request }
    requires input_whole { has_failed input.old ≡ false }
    requires output_whole { has_failed output.old ≡ false }
    ensures served { Serves R.File.remaining request.entry result
        (I.remaining (device_of input.old)) (I.remaining (device_of input.new))
        (O.contents (device_of output.old)) (O.contents (device_of output.new)) }
    ensures write { (result ≡ Err Fault.Write) ↔ (has_failed output.new ≡ true) }
    ensures read { reads_input request.entry ≡ true
        → (result ≡ Err Fault.Read) ↔ (has_failed input.new ≡ true) }
    ensures unread { reads_input request.entry ≡ false → input.new ≡ input.old }
    ensures unwritten { (result ≡ Err Fault.BadTime) ⊎ (result ≡ Err Fault.BadFrameText)
        → output.new ≡ output.old }
{
    match request {
        Request::Plain => play_input(rt, PLAIN_LOG, input, output),
        Request::Play { wanted, source } => play(rt, wanted, source, input, output),
        Request::Judge { judging, source } => judge(rt, judging, source, input, output),
        Request::Frame { time, options } => show_frame(time, &options, output),
        Request::Read { frame, rules } => show_reading(rt.alloc(), frame, rules, output),
        Request::Explain { word } => show_meaning(rt.alloc(), word, output),
    }
}

fn play<'a, R: Files + Eprint + AllocGlobal, I: BufRead, O: Write>(
    rt: &R,
    wanted: Wanted<'_>,
    source: Source<'a>,
    input: &mut Watched<I>,
    output: &mut Watched<O>,
) -> Result<(), Fault>
    requires input_whole { has_failed input.old ≡ false }
    requires output_whole { has_failed output.old ≡ false }
    ensures played { Plays R.File.remaining wanted.entry source.entry result
        (I.remaining (device_of input.old)) (I.remaining (device_of input.new))
        (O.contents (device_of output.old)) (O.contents (device_of output.new)) }
    ensures write { (result ≡ Err Fault.Write) ↔ (has_failed output.new ≡ true) }
    ensures read { is_input source.entry ≡ true
        → (result ≡ Err Fault.Read) ↔ (has_failed input.new ≡ true) }
    ensures unread { is_input source.entry ≡ false → input.new ≡ input.old }
    ensures time { result ≢ Err Fault.BadTime }
    ensures frame { result ≢ Err Fault.BadFrameText }
{
    match source {
        Source::Input => play_input(rt, wanted, input, output),
        Source::File(path) => play_file(rt, wanted, path, output),
    }
}

fn judge<R: Files + AllocGlobal, I: BufRead, O: Write>(
    rt: &R,
    judging: Judging<'_>,
    source: Source<'_>,
    input: &mut Watched<I>,
    output: &mut Watched<O>,
) -> Result<(), Fault>
    requires in_range { IsJudging judging }
    requires input_whole { has_failed input.old ≡ false }
    requires output_whole { has_failed output.old ≡ false }
    ensures judged { Judges R.File.remaining judging.entry source.entry result
        (I.remaining (device_of input.old)) (I.remaining (device_of input.new))
        (O.contents (device_of output.old)) (O.contents (device_of output.new)) }
    ensures write { (result ≡ Err Fault.Write) ↔ (has_failed output.new ≡ true) }
    ensures read { is_input source.entry ≡ true
        → (result ≡ Err Fault.Read) ↔ (has_failed input.new ≡ true) }
    ensures unread { is_input source.entry ≡ false → input.new ≡ input.old }
    ensures time { result ≢ Err Fault.BadTime }
    ensures frame { result ≢ Err Fault.BadFrameText }
{
    match source {
        Source::Input => judge_input(rt.alloc(), judging, input, output),
        Source::File(path) => judge_path(rt, judging, path, output),
    }
}

fn judge_path<R: Files + AllocGlobal, O: Write>(
    rt: &R,
    judging: Judging<'_>,
    path: &str,
    output: &mut Watched<O>,
) -> Result<(), Fault>
    requires in_range { IsJudging judging }
    requires output_whole { has_failed output.old ≡ false }
    ensures judged { JudgesPath R.File.remaining (ending_of path.now) judging.entry result
        (O.contents (device_of output.old)) (O.contents (device_of output.new)) }
    ensures write { (result ≡ Err Fault.Write) ↔ (has_failed output.new ≡ true) }
    ensures time { result ≢ Err Fault.BadTime }
    ensures frame { result ≢ Err Fault.BadFrameText }
{
    match ending_of(path) {
        Ending::Configuration => judge_files(rt, judging, path, output),
        Ending::Samples => Err(Fault::Samples),
        Ending::Single => judge_single_file(rt, judging, path, output),
        Ending::Other => judge_file(rt, judging, path, output),
    }
}

/// Opens a file to be read.
pub(crate) fn open<R: Files + AllocGlobal>(
    rt: &R,
    path: &str,
) -> io::Result<Watched<BufReader<R::File>>>
    ensures whole { IfOk result (λ input. has_failed input ≡ false) }
    ensures bytes { IfOk result (λ input. AreOfFile R.File.remaining
        (reader_remaining R.File.remaining (device_of input))) }
{
    let file = fs::open(rt, path)?;
    Ok(Watched::new(BufReader::new(rt.alloc(), file)?))
}

fn show_frame<O: Write>(
    time: &str,
    options: &FrameOptions,
    output: &mut Watched<O>,
) -> Result<(), Fault>
    requires in_range { IsFrameOptions options.now }
    requires whole { has_failed output.old ≡ false }
    ensures shown { ShowsFrame time.now options.now result
        (O.contents (device_of output.old)) (O.contents (device_of output.new)) }
    ensures write { (result ≡ Err Fault.Write) ↔ (has_failed output.new ≡ true) }
    ensures unwritten { result ≡ Err Fault.BadTime → output.new ≡ output.old }
    ensures other { result ≢ Err Fault.BadFrameText }
{
    match frame_text(time.as_bytes(), options) {
        Ok(text) => write(output, &text),
        Err(fault) => Err(Fault::from(fault)),
    }
}

fn show_reading<O: Write>(
    alloc: Global,
    frame: &str,
    rules: Rules,
    output: &mut Watched<O>,
) -> Result<(), Fault>
    requires { has_failed output.old ≡ false }
    ensures shown { ShowsReading rules frame.now result
        (O.contents (device_of output.old)) (O.contents (device_of output.new)) }
    ensures write { (result ≡ Err Fault.Write) ↔ (has_failed output.new ≡ true) }
    ensures unwritten { result ≡ Err Fault.BadFrameText → output.new ≡ output.old }
    ensures other { result ≢ Err Fault.BadTime }
{
    match frame_lines(alloc, frame.as_bytes(), rules) {
        Ok(lines) => write(output, lines.as_str().as_bytes()),
        Err(fault) => Err(Fault::from(fault)),
    }
}

fn show_meaning<O: Write>(alloc: Global, word: &str, output: &mut Watched<O>) -> Result<(), Fault>
    requires { has_failed output.old ≡ false }
    ensures shown { ShowsMeaning result
        (O.contents (device_of output.old)) (O.contents (device_of output.new)) }
    ensures write { (result ≡ Err Fault.Write) ↔ (has_failed output.new ≡ true) }
    ensures time { result ≢ Err Fault.BadTime }
    ensures frame { result ≢ Err Fault.BadFrameText }
{
    match explanation(alloc, word) {
        Ok(Some(text)) => write(output, text.as_str().as_bytes()),
        Ok(None) => Err(unknown_word(alloc, word)),
        Err(_) => Err(Fault::Memory),
    }
}

fn unknown_word(alloc: Global, word: &str) -> Fault
    ensures { IsUnknownWord result }
{
    match why_no_word(alloc, word) {
        Ok(text) => Fault::CommandLine(text),
        Err(_) => Fault::Memory,
    }
}

/// Writes all of a text, or a prefix of it before the output fails.
pub(crate) fn write<O: Write>(output: &mut Watched<O>, text: &[u8]) -> Result<(), Fault>
    requires { has_failed output.old ≡ false }
    ensures wrote { Wrote text.now result
        (O.contents (device_of output.old)) (O.contents (device_of output.new)) }
    ensures write { (result ≡ Err Fault.Write) ↔ (has_failed output.new ≡ true) }
{
    match output.write_all(text) {
        Ok(()) => Ok(()),
        Err(_) => Err(Fault::Write),
    }
}
