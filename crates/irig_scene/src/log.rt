//! The log, as a listener.

ghost use Rattle.std.specs.Prelude.{◌≡◌, ◌++◌, OnOk, false, string_bytes};
ghost use Rattle.irig_device.specs.Watched.{has_failed};
ghost use Rattle.report_log.specs.Text.{entries_alone};
ghost use Rattle.irig_scene.specs.Explained.{IsExplained};
ghost use Rattle.irig_scene.specs.WholeRun.{RunsTruly};

use crate::listener::Listener;
use crate::outcome::Outcome;
use crate::refused_line::RefusedLine;
use crate::run::run_to;
use indexmap::IndexSet;
use irig_device::Watched;
use irig_plant::{Entry, Event, Plant};
use irig_port::{FlowPort, Port};
use report_log::{ReportText, Shown, push_audit, push_entries, push_ticks};
use report_run::SceneFault;
use std::alloc::{AllocError, Global};
use std::io::{BufRead, Write};

/// The text of the last report, since readers that tick together mostly say the same.
#[derive(Drop)]
pub struct Log {
    last: ReportText,
}

impl Listener for Log {
    ghost use Rattle.std.specs.Prelude.{⊤};
    ghost use Rattle.irig_scene.specs.LogTexts.{log_texts};

    type Asked = Shown;

    ghost texts = { log_texts };

    ghost stands_for = { λ shown log x. ⊤ };

    ghost counts = { false };

    fn counts() -> bool {
        false
    }

    fn count(&self) -> u64 {
        0
    }

    fn new(
        alloc: Global,
        _shown: Shown,
        _names: &IndexSet<String>,
        _ports: u8,
    ) -> Result<Log, AllocError> {
        let last = ReportText::new(alloc);
        Ok(Log { last })
    }

    fn echoes_plant_line(_shown: Shown) -> bool {
        false
    }

    #[inline(always)]
    fn push_event<P: Port>(
        &mut self,
        shown: Shown,
        _plant: &Plant<P>,
        names: &IndexSet<String>,
        _event: &Event,
        entries: &[Entry],
        text: &mut String,
    ) -> Result<(), AllocError> {
        if shown.ports {
            push_ticks(text, &mut self.last, names, entries, shown)
        } else {
            push_entries(text, &mut self.last, names, entries, shown)
        }
    }

    fn push_last<P: Port>(
        &self,
        _shown: Shown,
        plant: &Plant<P>,
        names: &IndexSet<String>,
        refused: bool,
        text: &mut String,
    ) -> Result<(), AllocError> {
        if refused {
            return Ok(());
        }
        push_audit(text, names, plant.audit())
    }
}

/// Runs the lines of the input, and writes what each gives before the next is read.
pub fn run_scene<R: BufRead, W: Write>(
    alloc: Global,
    input: &mut Watched<R>,
    output: &mut Watched<W>,
    all: bool,
) -> Result<Outcome, SceneFault>
    requires input_whole { has_failed input.old ≡ false }
    requires output_whole { has_failed output.old ≡ false }
    ensures { RunsTruly R.remaining W.contents (entries_alone all) result
        input.old input.new output.old output.new }
{
    run_scene_over::<FlowPort, R, W>(alloc, input, output, all)
}

/// What [`run_scene`] does, with readers whose ports are of this kind, which makes no difference.
pub fn run_scene_over<P: Port, R: BufRead, W: Write>(
    alloc: Global,
    input: &mut Watched<R>,
    output: &mut Watched<W>,
    all: bool,
) -> Result<Outcome, SceneFault>
    requires input_whole { has_failed input.old ≡ false }
    requires output_whole { has_failed output.old ≡ false }
    ensures { RunsTruly R.remaining W.contents (entries_alone all) result
        input.old input.new output.old output.new }
{
    let shown = Shown { all, ports: false };
    run_to::<Log, P, R, W>(alloc, shown, input, output, &mut None)
}

/// What [`run_scene`] does, and with `ports` it is written after each tick what its ports told.
///
/// If a line is refused, `refused` is then what explains it; else it is left as it was.
pub fn run_scene_shown<R: BufRead, W: Write>(
    alloc: Global,
    input: &mut Watched<R>,
    output: &mut Watched<W>,
    shown: Shown,
    refused: &mut Option<RefusedLine>,
) -> Result<Outcome, SceneFault>
    requires input_whole { has_failed input.old ≡ false }
    requires output_whole { has_failed output.old ≡ false }
    ensures runs { RunsTruly R.remaining W.contents shown result
        input.old input.new output.old output.new }
    ensures refused { IsExplained result refused.old refused.new }
{
    run_to::<Log, FlowPort, R, W>(alloc, shown, input, output, refused)
}
