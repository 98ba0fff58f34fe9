//! A scenario that is listened to, from its first line to its last.

ghost use Rattle.std.specs.Prelude.{◌≡◌, ◌↔◌, ◌&&◌, false, true, Err, None, Option, option_map};
ghost use Rattle.irig_device.specs.Watched.{has_failed};
ghost use Rattle.report_run.specs.Runs.{IsAt};
ghost use Rattle.report_run.specs.Choice.{StandsForEither};
ghost use Rattle.irig_scene.specs.ListenerRuns.{IsPlayerAt};
ghost use Rattle.irig_scene.specs.WholeRun.{left, written};
ghost use Rattle.irig_station_scene.specs.StationRuns.{IsStationPlayerAt};
ghost use Rattle.irig_scenario.specs.AnyScenario.{AnyScene, HasHeard, any_texts};
ghost use Rattle.irig_scenario.specs.WhyRefused.{IsExplainedAs, explained_by};

use crate::refused::{WhyRefused, refusal_of, why_of_devices, why_of_readers};
use indexmap::IndexSet;
use irig_device::Watched;
use irig_port::{FlowPort, Port};
use irig_scene::{Listener, Outcome, Player, RefusedLine, SceneFault};
use irig_station_scene::{StationListener, StationOutcome, StationPlayer};
use report_run::{Either, EitherOutcome, LinesRun, run_lines};
use scenario_devices::is_station_line;
use std::alloc::Global;
use std::io::{BufRead, Write};
use text_faults::Refusal;

/// How a run without a refusal ends: of a plant of readers, or of one of devices.
pub type ScenarioOutcome = EitherOutcome<Outcome, StationOutcome>;

// What plays a scenario: its first line says which.
type AnyPlayer<L, M, P> = Either<Player<L, P>, StationPlayer<M, P>>;

/// A run of a scenario that came to its end.
#[derive(Drop)]
pub struct ScenarioRun<L, M> {
    /// How it ended.
    pub answer: Result<ScenarioOutcome, SceneFault>,
    /// Who listened, to readers or to devices; none before the first line that is not blank.
    pub listener: Option<Either<L, M>>,
    /// What explains the refusal, if a line is refused.
    pub refused: Option<WhyRefused>,
}

/// Plays the lines of the input as a run does, whatever the plant has, and writes what one of these
/// listeners says in place of the log: the first of readers, the second of devices. What is said of
/// each line is written before the next is read.
///
/// Neither device may have failed before. `Refused` if a line is refused, as a run refuses it. `Read`
/// if the input failed, `Write` if the output did; `Memory` if there was none. What was written until
/// then stands, and after `Read`, `Write` or `Memory` nothing more is written. A writer that holds
/// bytes back is the caller's to flush.
pub fn listen_to_scenario<L: Listener, M: StationListener<Asked = L::Asked>, R: BufRead, W: Write>(
    alloc: Global,
    asked: L::Asked,
    input: &mut Watched<R>,
    output: &mut Watched<W>,
) -> ScenarioRun<L, M>
    requires input_whole { has_failed input.old ≡ false }
    requires output_whole { has_failed output.old ≡ false }
    ensures heard { HasHeard (L.stands_for asked) (M.stands_for asked) (L.counts && false)
        (any_texts (L.texts asked) (M.texts asked)) result.answer result.listener
        (left R.remaining input.old) (left R.remaining input.new)
        (written W.contents output.old) (written W.contents output.new) }
    ensures read { (result.answer ≡ Err SceneFault.Read) ↔ (has_failed input.new ≡ true) }
    ensures write { (result.answer ≡ Err SceneFault.Write) ↔ (has_failed output.new ≡ true) }
    ensures refused { IsExplainedAs result.answer None result.refused }
{
    let LinesRun {
        answer,
        player,
        line,
        ..
    } = run_lines::<AnyPlayer<L, M, FlowPort>, R, W>(alloc, asked, input, output);
    let (listener, refused) = end_player(alloc, refusal_of(&answer), line, player);
    ScenarioRun {
        answer,
        listener,
        refused,
    }
}

// Who listened to a player, and what explains the refusal of this line, if it was refused.
fn end_player<L: Listener, M: StationListener<Asked = L::Asked>, P: Port>(
    alloc: Global,
    refusal: Option<Refusal>,
    line: Vec<u8>,
    player: Option<AnyPlayer<L, M, P>>,
) -> (Option<Either<L, M>>, Option<WhyRefused>)
    ensures listener { (asked : L.Asked) (at : Option AnyScene)
        → IsAt (StandsForEither (IsPlayerAt (L.stands_for asked))
        (IsStationPlayerAt M.hears (M.stands_for asked))) player at
        → IsAt (StandsForEither (L.stands_for asked) (M.stands_for asked)) result.0 at }
    ensures refused { option_map explained_by result.1 ≡ refusal }
{
    match player {
        Some(Either::First(player)) => {
            let (listener, line) = player.end(alloc, refusal, line);
            (Some(Either::First(listener)), why_of_readers(line))
        }
        Some(Either::Second(player)) => {
            let (listener, names, lines) = player.into_parts();
            let why = why_of_devices(alloc, refusal, line, names, lines);
            (Some(Either::Second(listener)), why)
        }
        None => (None, why_of_first(alloc, refusal, line)),
    }
}

// What explains that the first line is refused, if it is.
fn why_of_first(alloc: Global, refusal: Option<Refusal>, line: Vec<u8>) -> Option<WhyRefused>
    ensures { option_map explained_by result ≡ refusal }
{
    let refusal = refusal?;
    match is_station_line(alloc, line.as_slice()) {
        Ok(false) => Some(WhyRefused::Line(RefusedLine::before_plant(alloc, refusal, line))),
        Ok(true) => Some(WhyRefused::OfDevices(RefusedLine::before_plant(alloc, refusal, line))),
        Err(_) => Some(WhyRefused::Cause(refusal)),
    }
}
