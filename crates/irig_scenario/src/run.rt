//! The log of a scenario, from its first line to its last.

ghost use Rattle.std.specs.Prelude.{◌≡◌, false};
ghost use Rattle.irig_device.specs.Watched.{has_failed};
ghost use Rattle.irig_scenario.specs.Scenarios.{RunsScenarioTruly};
ghost use Rattle.irig_scenario.specs.WhyRefused.{IsExplainedAs};

use crate::listen::{ScenarioOutcome, ScenarioRun, listen_to_scenario};
use crate::refused::WhyRefused;
use irig_device::Watched;
use irig_scene::{Log, SceneFault, Shown};
use irig_station_scene::StationLog;
use std::alloc::Global;
use std::io::{BufRead, Write};

/// Runs the lines of the input, and writes what each gives before the next is read. The version of
/// the first line that is not blank says whether its plant has readers or devices.
///
/// Neither device may have failed before. `Refused` if a line is refused; `refused` is then what
/// explains it, else it is left as it was. `Read` if the input failed, `Write` if the output did;
/// `Memory` if there was none. What was written until then stands, and after `Read`, `Write` or
/// `Memory` nothing more is written. A writer that holds bytes back is the caller's to flush.
pub fn run_scenario<R: BufRead, W: Write>(
    alloc: Global,
    input: &mut Watched<R>,
    output: &mut Watched<W>,
    shown: Shown,
    refused: &mut Option<WhyRefused>,
) -> Result<ScenarioOutcome, SceneFault>
    requires input_whole { has_failed input.old ≡ false }
    requires output_whole { has_failed output.old ≡ false }
    ensures runs { RunsScenarioTruly R.remaining W.contents shown result
        input.old input.new output.old output.new }
    ensures refused { IsExplainedAs result refused.old refused.new }
{
    let ScenarioRun {
        answer,
        refused: explained,
        ..
    } = listen_to_scenario::<Log, StationLog, R, W>(alloc, shown, input, output);
    if explained.is_some() {
        *refused = explained;
    }
    answer
}
