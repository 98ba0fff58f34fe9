//! A scenario from its first line to its last.

ghost use Rattle.std.specs.Prelude.{◌≡◌, ◌↔◌, Err, false, true};
ghost use Rattle.irig_device.specs.Watched.{has_failed};
ghost use Rattle.irig_scenario.specs.WhyRefused.{IsExplainedAs};
ghost use Rattle.irig_scene.specs.WholeRun.{left, written};
ghost use Rattle.report_blame.specs.Blaming.{RanBlame};

use crate::observer::Observer;
use irig_device::Watched;
use irig_scenario::{ScenarioOutcome, ScenarioRun, WhyRefused, listen_to_scenario};
use irig_scene::SceneFault;
use std::alloc::Global;
use std::io::{BufRead, Write};

/// Plays the lines of the input as a run does, and writes, in place of the log, who lied and what it
/// cost.
///
/// A line for each stretch of ticks at which a port of a reader told one kind of wrong, and for each
/// silence of a reader, as soon as it ends; after the last line of the input those that are open,
/// the totals of each reader and port, and the last line of the run's log. What each line ends is
/// written before the next is read, and no more is kept than the open stretches and the counts.
/// Of a plant of devices a device is a reader, its lines are the ports, and each second that it told
/// is a tick at the true edge to which it lies nearest. Behind the totals of a device that announced
/// a second comes a line of how far off the edges of its announced seconds lay, in microseconds, and
/// of the greatest bound.
/// `lines` has the names of recorded lines, with a comma between them: then a port is called by the
/// name of its line, and what is not the second of the scenario is said to be unlike most lines, as
/// nobody knows more. It is empty of a scenario that is no recording.
///
/// Neither device may have failed before. `Refused` if a line is refused, as a run refuses it;
/// `refused` is then what explains it, else it is left as it was. `Read` if the input failed,
/// `Write` if the output did; `Memory` if there was none. What was written until then stands, and
/// after `Read`, `Write` or `Memory` nothing more is written. A writer that holds bytes back is the
/// caller's to flush.
pub fn blame<R: BufRead, W: Write>(
    alloc: Global,
    lines: &str,
    input: &mut Watched<R>,
    output: &mut Watched<W>,
    refused: &mut Option<WhyRefused>,
) -> Result<ScenarioOutcome, SceneFault>
    requires input_whole { has_failed input.old ≡ false }
    requires output_whole { has_failed output.old ≡ false }
    ensures ran { RanBlame lines.now result (left R.remaining input.old) (left R.remaining input.new)
        (written W.contents output.old) (written W.contents output.new) }
    ensures read { (result ≡ Err SceneFault.Read) ↔ (has_failed input.new ≡ true) }
    ensures write { (result ≡ Err SceneFault.Write) ↔ (has_failed output.new ≡ true) }
    ensures refused { IsExplainedAs result refused.old refused.new }
{
    let ScenarioRun {
        answer,
        refused: explained,
        ..
    } = listen_to_scenario::<Observer, Observer, R, W>(alloc, lines, input, output);
    if explained.is_some() {
        *refused = explained;
    }
    answer
}
