//! All lines, from the first to the last.

ghost use Rattle.std.specs.Prelude.{◌≡◌, ◌↔◌, ◌++◌, [], Err, IfErr, None, OnOk, Option, false, true};
ghost use Rattle.irig_device.specs.Watched.{device_of, has_failed};
ghost use Rattle.report_run.specs.declared.stop.Failure.TheVariants.{Memory};
ghost use Rattle.report_run.specs.Runs.{IsAt, RanTo};
ghost use Rattle.report_run.specs.Starts.{noted_at};

use crate::fault::SceneFault;
use crate::line::{run_last, run_line, stop};
use crate::play::Play;
use crate::read::{limit_of, read_line, too_long};
use crate::stop::Failure;
use irig_device::{LineEnd, Watched};
use std::alloc::Global;
use std::io::{BufRead, Write};

/// A run that came to its end.
#[derive(Drop)]
pub struct LinesRun<T: Play> {
    /// How it ended.
    pub answer: Result<T::Outcome, SceneFault>,
    /// What played; none before the first line that is not blank.
    pub player: Option<T>,
    /// If entries are counted: how many there were as each line began, and perhaps behind the last.
    pub starts: Vec<u64>,
    /// The line that was read last.
    pub line: Vec<u8>,
}

/// Plays the lines of the input one after another. What is said of each line is written before the
/// next is read.
///
/// Neither device may have failed before. `Refused` if a line is refused; `Read` if the input failed,
/// `Write` if the output did; `Memory` if there was none. What was written until then stands, and
/// after `Read`, `Write` or `Memory` nothing more is written.
pub fn run_lines<T: Play, R: BufRead, W: Write>(
    alloc: Global,
    asked: T::Asked,
    input: &mut Watched<R>,
    output: &mut Watched<W>,
) -> LinesRun<T>
    requires input_whole { has_failed input.old ≡ false }
    requires output_whole { has_failed output.old ≡ false }
    ensures ran { RanTo T.language T.ends T.entries (T.stands_for asked) T.counts
        (T.texts asked) result.answer result.player result.starts.items
        (R.remaining (device_of input.old)) (R.remaining (device_of input.new))
        (W.contents (device_of output.old)) (W.contents (device_of output.new)) }
    ensures read { (result.answer ≡ Err SceneFault.Read) ↔ (has_failed input.new ≡ true) }
    ensures write { (result.answer ≡ Err SceneFault.Write) ↔ (has_failed output.new ≡ true) }
{
    let mut line = Vec::new(alloc);
    let mut starts = Vec::new(alloc);
    let mut player: Option<T> = None;
    let answer = play_lines(
        alloc,
        asked,
        &mut line,
        &mut player,
        &mut starts,
        input,
        output,
    );
    LinesRun {
        answer,
        player,
        starts,
        line,
    }
}

fn play_lines<T: Play, R: BufRead, W: Write>(
    alloc: Global,
    asked: T::Asked,
    line: &mut Vec<u8>,
    player: &mut Option<T>,
    starts: &mut Vec<u64>,
    input: &mut Watched<R>,
    output: &mut Watched<W>,
) -> Result<T::Outcome, SceneFault>
    requires none { player.old ≡ None }
    requires new { starts.old.items ≡ [] }
    requires input_whole { has_failed input.old ≡ false }
    requires output_whole { has_failed output.old ≡ false }
    ensures ran { RanTo T.language T.ends T.entries (T.stands_for asked) T.counts
        (T.texts asked) result player.new starts.new.items
        (R.remaining (device_of input.old)) (R.remaining (device_of input.new))
        (W.contents (device_of output.old)) (W.contents (device_of output.new)) }
    ensures read { (result ≡ Err SceneFault.Read) ↔ (has_failed input.new ≡ true) }
    ensures write { (result ≡ Err SceneFault.Write) ↔ (has_failed output.new ≡ true) }
{
    let mut number = 1;
    loop {
        note_start(player, starts)?;
        match read_line(input, limit_of(number), line)? {
            LineEnd::Newline => {
                run_line(alloc, asked, player, number, line, output)?;
                number += 1;
            }
            LineEnd::TooLong => {
                return Err(stop(alloc, asked, player, number, too_long(number), output));
            }
            LineEnd::EndOfInput => return run_last(alloc, asked, player, number, line, output),
        }
    }
}

// Takes note that a line begins.
fn note_start<T: Play>(player: &Option<T>, starts: &mut Vec<u64>) -> Result<(), Failure>
    ensures noted { OnOk result ((asked : T.Asked) (at : Option T.Scene)
        → IsAt (T.stands_for asked) player.now at
        → starts.new.items ≡ starts.old.items ++ noted_at T.entries T.counts at) }
    ensures memory { IfErr result (λ failure. failure ≡ Memory) }
{
    if !T::counts() {
        return Ok(());
    }
    let count = match player {
        Some(player) => player.count(),
        None => 0,
    };
    match starts.push(count) {
        Ok(()) => Ok(()),
        Err(_) => Err(Failure::Memory),
    }
}
