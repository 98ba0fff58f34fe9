//! A scenario is played, and what is wanted of it is written.

ghost use Rattle.std.specs.Prelude.{◌≡◌, ◌↔◌, Err, false, true};
ghost use Rattle.irig_device.specs.Watched.{device_of, has_failed};
ghost use Rattle.irig_scene.specs.WholeRun.{left, written};
ghost use Rattle.irig_main.specs.Serving.{PlaysFile, PlaysScene, Writes};
ghost use Rattle.irig_main.specs.Status.{ended};

use crate::explain::tell_refusal;
use crate::fault::Fault;
use crate::request::open;
use cli_words::Wanted;
use irig_device::Watched;
use irig_scenario::{WhyRefused, run_scenario};
use irig_scene::{SceneFault, Shown};
use report_blame::blame;
use report_flat::flatten;
use std::alloc::Global;
use std::io;
use std::io::{BufRead, Write};
use std::rt::Files;

/// Plays the scenario on an input, the standard one or a FILE that was opened, and writes what is
/// wanted of it. Neither device may have failed before.
///
/// `Refused` if a line of it is refused, which the standard error then explains; `Read` if the
/// input can't be read to its end, `Write` if the output fails; `Memory` if there was none.
pub fn play_input<R: Eprint + AllocGlobal, I: BufRead, O: Write>(
    rt: &R,
    wanted: Wanted<'_>,
    input: &mut Watched<I>,
    output: &mut Watched<O>,
) -> Result<(), Fault>
    requires input_whole { has_failed input.old ≡ false }
    requires output_whole { has_failed output.old ≡ false }
    ensures played { PlaysScene wanted.entry result
        (I.remaining (device_of input.old)) (I.remaining (device_of input.new))
        (O.contents (device_of output.old)) (O.contents (device_of output.new)) }
    ensures write { (result ≡ Err Fault.Write) ↔ (has_failed output.new ≡ true) }
    ensures read { (result ≡ Err Fault.Read) ↔ (has_failed input.new ≡ true) }
{
    let mut refused = None;
    match write_wanted(rt.alloc(), wanted, input, output, &mut refused) {
        Ok(()) => Ok(()),
        Err(fault) => {
            tell_refusal(rt, fault, &refused);
            Err(Fault::from(fault))
        }
    }
}

fn write_wanted<I: BufRead, O: Write>(
    alloc: Global,
    wanted: Wanted<'_>,
    input: &mut Watched<I>,
    output: &mut Watched<O>,
    refused: &mut Option<WhyRefused>,
) -> Result<(), SceneFault>
    requires input_whole { has_failed input.old ≡ false }
    requires output_whole { has_failed output.old ≡ false }
    ensures wrote { Writes wanted.entry result
        (left I.remaining input.old) (left I.remaining input.new)
        (written O.contents output.old) (written O.contents output.new) }
    ensures read { (result ≡ Err SceneFault.Read) ↔ (has_failed input.new ≡ true) }
    ensures write { (result ≡ Err SceneFault.Write) ↔ (has_failed output.new ≡ true) }
{
    match wanted {
        Wanted::Log { all, ports } => {
            let answer = run_scenario(alloc, input, output, Shown { all, ports }, refused);
            end_of(answer)
        }
        Wanted::Flat => {
            let answer = flatten(alloc, input, output, refused);
            end_of(answer)
        }
        Wanted::Blame { lines } => {
            let answer = blame(alloc, lines, input, output, refused);
            end_of(answer)
        }
    }
}

// How a run ended, without its outcome.
fn end_of<T: Copy>(answer: Result<T, SceneFault>) -> Result<(), SceneFault>
    ensures { result ≡ ended answer }
{
    match answer {
        Ok(_) => Ok(()),
        Err(fault) => Err(fault),
    }
}

/// The same of the scenario in a file; `Open` if it can't be opened.
pub(crate) fn play_file<R: Files + Eprint + AllocGlobal, O: Write>(
    rt: &R,
    wanted: Wanted<'_>,
    path: &str,
    output: &mut Watched<O>,
) -> Result<(), Fault>
    requires { has_failed output.old ≡ false }
    ensures played { PlaysFile R.File.remaining wanted.entry result
        (O.contents (device_of output.old)) (O.contents (device_of output.new)) }
    ensures write { (result ≡ Err Fault.Write) ↔ (has_failed output.new ≡ true) }
{
    match open(rt, path) {
        Ok(mut input) => play_input(rt, wanted, &mut input, output),
        Err(error) if error.kind() == io::ErrorKind::OutOfMemory => Err(Fault::Memory),
        Err(error) => Err(Fault::Open(error)),
    }
}
