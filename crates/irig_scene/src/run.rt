//! A scenario from its first line to its last.

ghost use Rattle.std.specs.Prelude.{◌≡◌, ◌↔◌, Err, None, Option, false, true};
ghost use Rattle.irig_device.specs.Watched.{has_failed};
ghost use Rattle.report_run.specs.Runs.{IsAt};
ghost use Rattle.irig_scene.specs.Scene.{Scene};
ghost use Rattle.irig_scene.specs.Explained.{IsExplained, refusal_in, refusal_said};
ghost use Rattle.irig_scene.specs.WholeRun.{left, written};
ghost use Rattle.irig_scene.specs.ListenerRuns.{IsPlayerAt, RanFor, RanTo};

use crate::listener::Listener;
use crate::outcome::Outcome;
use crate::player::Player;
use crate::refused_line::RefusedLine;
use irig_device::Watched;
use irig_port::Port;
use report_run::{LinesRun, SceneFault, run_lines};
use std::alloc::Global;
use std::io::{BufRead, Write};
use text_faults::Refusal;

/// A run that came to its end.
#[derive(Drop)]
pub struct Run<L> {
    /// How it ended, as of [`run_to`].
    pub answer: Result<Outcome, SceneFault>,
    /// Who listened; none before the plant line.
    pub listener: Option<L>,
    /// If entries are counted: how many there were as each line began, and perhaps behind the last.
    pub starts: Vec<u64>,
    /// What explains the refusal, if a line is refused.
    pub refused: Option<RefusedLine>,
}

/// Plays the lines of the input as a run does, and writes what this kind of listener says in place
/// of the log. What is said of each line is written before the next is read.
///
/// Neither device may have failed before. `Refused` if a line is refused, as a run refuses it;
/// `refused` is then what explains it, else it is left as it was. `Read` if the input failed,
/// `Write` if the output did; `Memory` if there was none. What was written until then stands, and
/// after `Read`, `Write` or `Memory` nothing more is written. A writer that holds bytes back is the
/// caller's to flush.
pub fn run_to<L: Listener, P: Port, R: BufRead, W: Write>(
    alloc: Global,
    asked: L::Asked,
    input: &mut Watched<R>,
    output: &mut Watched<W>,
    refused: &mut Option<RefusedLine>,
) -> Result<Outcome, SceneFault>
    requires input_whole { has_failed input.old ≡ false }
    requires output_whole { has_failed output.old ≡ false }
    ensures ran { RanFor (L.texts asked) result
        (left R.remaining input.old) (left R.remaining input.new)
        (written W.contents output.old) (written W.contents output.new) }
    ensures read { (result ≡ Err SceneFault.Read) ↔ (has_failed input.new ≡ true) }
    ensures write { (result ≡ Err SceneFault.Write) ↔ (has_failed output.new ≡ true) }
    ensures refused { IsExplained result refused.old refused.new }
{
    let Run {
        answer,
        refused: explained,
        ..
    } = run_listening::<L, P, R, W>(alloc, asked, input, output);
    if explained.is_some() {
        *refused = explained;
    }
    answer
}

/// What [`run_to`] does, for a listener that is asked what it heard.
pub fn run_listening<L: Listener, P: Port, R: BufRead, W: Write>(
    alloc: Global,
    asked: L::Asked,
    input: &mut Watched<R>,
    output: &mut Watched<W>,
) -> Run<L>
    requires input_whole { has_failed input.old ≡ false }
    requires output_whole { has_failed output.old ≡ false }
    ensures ran { RanTo (L.stands_for asked) L.counts (L.texts asked) result.answer result.listener
        result.starts.items
        (left R.remaining input.old) (left R.remaining input.new)
        (written W.contents output.old) (written W.contents output.new) }
    ensures read { (result.answer ≡ Err SceneFault.Read) ↔ (has_failed input.new ≡ true) }
    ensures write { (result.answer ≡ Err SceneFault.Write) ↔ (has_failed output.new ≡ true) }
    ensures refused { IsExplained result.answer None result.refused }
{
    let LinesRun {
        answer,
        player,
        starts,
        line,
    } = run_lines::<Player<L, P>, R, W>(alloc, asked, input, output);
    let (listener, refused) = end_player(alloc, refusal_of(&answer), line, player);
    Run {
        answer,
        listener,
        starts,
        refused,
    }
}

fn refusal_of(answer: &Result<Outcome, SceneFault>) -> Option<Refusal>
    ensures { result ≡ refusal_said answer.now }
{
    match answer {
        Err(SceneFault::Refused { refusal, .. }) => Some(*refusal),
        _ => None,
    }
}

// Who listened to a player, and what explains the refusal of this line, if it was refused.
fn end_player<L: Listener, P: Port>(
    alloc: Global,
    refusal: Option<Refusal>,
    line: Vec<u8>,
    player: Option<Player<L, P>>,
) -> (Option<L>, Option<RefusedLine>)
    ensures listener { (asked : L.Asked) (at : Option Scene)
        → IsAt (IsPlayerAt (L.stands_for asked)) player at
        → IsAt (L.stands_for asked) result.0 at }
    ensures refused { refusal_in result.1 ≡ refusal }
{
    match player {
        Some(player) => {
            let (listener, refused) = player.end(alloc, refusal, line);
            (Some(listener), refused)
        }
        None => match refusal {
            Some(refusal) => (None, Some(RefusedLine::before_plant(alloc, refusal, line))),
            None => (None, None),
        },
    }
}
