//! A scenario from its first line to its last.

ghost use Rattle.std.specs.Prelude.{◌≡◌, ◌↔◌, Err, false, true};
ghost use Rattle.irig_device.specs.Watched.{has_failed};
ghost use Rattle.irig_scene.specs.WholeRun.{left, written};
ghost use Rattle.irig_scenario.specs.WhyRefused.{IsExplainedAs};
ghost use Rattle.report_flat.specs.Flattening.{RanEither, WroteTheLog};

use crate::record::Recorder;
use crate::rows::Rows;
use irig_device::Watched;
use irig_scenario::{ScenarioOutcome, ScenarioRun, WhyRefused, listen_to_scenario};
use irig_scene::SceneFault;
use std::alloc::Global;
use std::io::{BufRead, Write};

/// Writes a scenario out as what its readers or devices hear. Of readers: the plant line as it stands,
/// and for each event in order the pulses that it brings to a port, a tick or a restart. Of devices: a
/// row of what the columns have, and a row of each pulse when a device has heard it. What each line
/// gives is written before the next is read.
///
/// The log of what is written of readers is the log of the scenario, if it has no more than 1,000,000
/// lines. Neither device may have failed before. `Refused` if a line is refused, as a run refuses it;
/// its refusal is then written as the last line, and `refused` is what explains it, else it is left as
/// it was. `Read` if the input failed, `Write` if the output did; `Memory` if there was none. What
/// was written until then stands. A writer that holds bytes back is the caller's to flush.
pub fn flatten<R: BufRead, W: Write>(
    alloc: Global,
    input: &mut Watched<R>,
    output: &mut Watched<W>,
    refused: &mut Option<WhyRefused>,
) -> Result<ScenarioOutcome, SceneFault>
    requires input_whole { has_failed input.old ≡ false }
    requires output_whole { has_failed output.old ≡ false }
    ensures same_log { WroteTheLog result (left R.remaining input.old)
        (written W.contents output.old) (written W.contents output.new) }
    ensures ran { RanEither result (left R.remaining input.old) (left R.remaining input.new)
        (written W.contents output.old) (written W.contents output.new) }
    ensures read { (result ≡ Err SceneFault.Read) ↔ (has_failed input.new ≡ true) }
    ensures write { (result ≡ Err SceneFault.Write) ↔ (has_failed output.new ≡ true) }
    ensures refused { IsExplainedAs result refused.old refused.new }
{
    let ScenarioRun {
        answer,
        refused: explained,
        ..
    } = listen_to_scenario::<Recorder, Rows, R, W>(alloc, (), input, output);
    if explained.is_some() {
        *refused = explained;
    }
    answer
}
