//! A scenario with devices that is listened to, from its first line to its last.

ghost use Rattle.std.specs.Prelude.{◌≡◌, Option, false};
ghost use Rattle.irig_device.specs.Watched.{device_of, has_failed};
ghost use Rattle.report_run.specs.Runs.{IsAt};
ghost use Rattle.irig_station_scene.specs.StationHeard.{HasHeardStation};
ghost use Rattle.irig_station_scene.specs.StationRuns.{IsStationPlayerAt};
ghost use Rattle.irig_station_scene.specs.StationScenes.{StationScene};

use crate::listener::StationListener;
use crate::outcome::StationOutcome;
use crate::player::StationPlayer;
use indexmap::IndexSet;
use irig_device::Watched;
use irig_port::{FlowPort, Port};
use report_run::{LinesRun, SceneFault, run_lines};
use std::alloc::Global;
use std::io::{BufRead, Write};

/// A run of a scenario with devices that came to its end.
#[derive(Drop)]
pub struct StationRun<L> {
    /// How it ended.
    pub answer: Result<StationOutcome, SceneFault>,
    /// Who listened; none before the plant line.
    pub listener: Option<L>,
    /// The names of the devices; none before the plant line.
    pub names: IndexSet<String>,
    /// How many lines lead to each; 0 before the plant line.
    pub lines: u8,
    /// If a line is refused: its bytes, as far as they were read.
    pub line: Vec<u8>,
}

/// Plays the lines of the input as those of a plant of devices, and writes what this kind of listener
/// says in place of the log. A plant line of another version is refused, as `Version`.
///
/// Neither device may have failed before. `Refused` if a line is refused. `Read` if the input failed,
/// `Write` if the output did; `Memory` if there was none.
pub fn listen_to_station<L: StationListener, R: BufRead, W: Write>(
    alloc: Global,
    asked: L::Asked,
    input: &mut Watched<R>,
    output: &mut Watched<W>,
) -> StationRun<L>
    requires input_whole { has_failed input.old ≡ false }
    requires output_whole { has_failed output.old ≡ false }
    ensures { HasHeardStation (L.stands_for asked) (L.texts asked) result.answer result.listener
        (R.remaining (device_of input.old)) (R.remaining (device_of input.new))
        (W.contents (device_of output.old)) (W.contents (device_of output.new)) }
{
    let LinesRun {
        answer,
        player,
        line,
        ..
    } = run_lines::<StationPlayer<L, FlowPort>, R, W>(alloc, asked, input, output);
    let (listener, names, lines) = end_player(alloc, player);
    StationRun {
        answer,
        listener,
        names,
        lines,
        line,
    }
}

// Who listened to a player, the names of its devices, and how many lines lead to each.
fn end_player<L: StationListener, P: Port>(
    alloc: Global,
    player: Option<StationPlayer<L, P>>,
) -> (Option<L>, IndexSet<String>, u8)
    ensures { (asked : L.Asked) (at : Option StationScene)
        → IsAt (IsStationPlayerAt L.hears (L.stands_for asked)) player at
        → IsAt (L.stands_for asked) result.0 at }
{
    match player {
        Some(player) => {
            let (listener, names, lines) = player.into_parts();
            (Some(listener), names, lines)
        }
        None => (None, IndexSet::new(alloc), 0),
    }
}
