//! A scenario from its first line to its last.

ghost use Rattle.std.specs.Prelude.{◌≡◌, ℕ, List, None, IfOk};
ghost use Rattle.irig_scenario.specs.WhyRefused.{IsExplainedAs};
ghost use Rattle.report_found.specs.Runs.{FoundIn, HasFound};

use crate::finder::Finder;
use crate::finding::Finding;
use irig_device::Watched;
use irig_scenario::{ScenarioOutcome, ScenarioRun, WhyRefused, listen_to_scenario};
use irig_scene::SceneFault;
use report_run::Either;
use std::alloc::{AllocError, Global};

/// What a scenario comes to.
#[derive(Drop)]
pub struct Found {
    /// How its run ended.
    pub answer: Result<ScenarioOutcome, SceneFault>,
    /// All that is found, up to a refusal, each where its reader's next tick ends it, and
    /// then those that are open, reader by reader; nothing if the run failed.
    pub findings: Vec<Finding>,
    /// What explains the refusal, if a line is refused.
    pub refused: Option<WhyRefused>,
}

/// Plays the lines of a text as a run does, and answers, in place of its log, who lied and what it
/// cost: stretches in which a port did not tell the true claim, silences and untrue seconds of
/// readers. Of a plant of devices a device is a reader, its lines are the ports, and each second that
/// it told is a tick at the true edge to which it lies nearest. `Write` or `Memory` if there was no
/// memory.
pub fn find(alloc: Global, text: &[u8]) -> Found
    ensures found { FoundIn result.answer result.findings.items text.now }
    ensures refused { IsExplainedAs result.answer None result.refused }
{
    let mut input = Watched::new(text);
    let mut output = Watched::new(Vec::new(alloc));
    let run = listen_to_scenario::<Finder, Finder, &[u8], Vec<u8>>(
        alloc,
        (),
        &mut input,
        &mut output,
    );
    found_by(alloc, run)
}

fn found_by(alloc: Global, run: ScenarioRun<Finder, Finder>) -> Found
    ensures found { (text : List ℕ) → HasFound text run
        → FoundIn result.answer result.findings.items text }
    ensures refused { IsExplainedAs run.answer None run.refused
        → IsExplainedAs result.answer None result.refused }
{
    let ScenarioRun {
        answer,
        listener,
        refused,
    } = run;
    match findings_of(alloc, &answer, listener) {
        Ok(findings) => Found {
            answer,
            findings,
            refused,
        },
        Err(_) => Found {
            answer: Err(SceneFault::Memory),
            findings: Vec::new(alloc),
            refused: None,
        },
    }
}

// What a listener found; nothing if the run failed.
fn findings_of(
    alloc: Global,
    answer: &Result<ScenarioOutcome, SceneFault>,
    listener: Option<Either<Finder, Finder>>,
) -> Result<Vec<Finding>, AllocError>
    ensures { (text : List ℕ) (run : ScenarioRun Finder Finder) → HasFound text run
        → run.answer ≡ answer.now → run.listener ≡ listener
        → IfOk result (λ findings. FoundIn answer.now findings.items text) }
{
    match (answer, listener) {
        (Ok(_) | Err(SceneFault::Refused { .. }), Some(Either::First(finder))) => {
            finder.into_findings()
        }
        (Ok(_) | Err(SceneFault::Refused { .. }), Some(Either::Second(finder))) => {
            finder.into_findings()
        }
        _ => Ok(Vec::new(alloc)),
    }
}
