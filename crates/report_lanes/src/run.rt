//! A scenario from its first line to its last.

ghost use Rattle.std.specs.Prelude.{◌≡◌, ℕ, List, None, IfOk};
ghost use Rattle.irig_scenario.specs.WhyRefused.{IsExplainedAs};
ghost use Rattle.report_lanes.specs.Runs.{DrawnIn, HasDrawn};

use crate::drawer::Drawer;
use crate::lane::Lane;
use irig_device::Watched;
use irig_scenario::{ScenarioOutcome, ScenarioRun, WhyRefused, listen_to_scenario};
use irig_scene::SceneFault;
use report_run::Either;
use std::alloc::{AllocError, Global};

/// What a scenario shows.
#[derive(Drop)]
pub struct Drawn {
    /// How its run ended.
    pub answer: Result<ScenarioOutcome, SceneFault>,
    /// All that is to be seen, up to a refusal: each lane where its reader's next tick ends it, and
    /// each mark at its tick, and then the lanes that are open, reader by reader; nothing if the run
    /// failed.
    pub lanes: Vec<Lane>,
    /// What explains the refusal, if a line is refused.
    pub refused: Option<WhyRefused>,
}

/// Plays the lines of a text as a run does, and answers, in place of its log, what a picture of it
/// shows: how readers stood and what their ports told, as runs of edges, and marks where a month
/// ended or a leap second came. Of a plant of devices a device is a reader, its lines are the ports,
/// and its edges are the true ones to which those of the seconds that it told lie nearest. `Write` or
/// `Memory` if there was no memory.
pub fn draw(alloc: Global, text: &[u8]) -> Drawn
    ensures drawn { DrawnIn result.answer result.lanes.items text.now }
    ensures refused { IsExplainedAs result.answer None result.refused }
{
    let mut input = Watched::new(text);
    let mut output = Watched::new(Vec::new(alloc));
    let run = listen_to_scenario::<Drawer, Drawer, &[u8], Vec<u8>>(
        alloc,
        (),
        &mut input,
        &mut output,
    );
    drawn_by(alloc, run)
}

fn drawn_by(alloc: Global, run: ScenarioRun<Drawer, Drawer>) -> Drawn
    ensures drawn { (text : List ℕ) → HasDrawn text run
        → DrawnIn result.answer result.lanes.items text }
    ensures refused { IsExplainedAs run.answer None run.refused
        → IsExplainedAs result.answer None result.refused }
{
    let ScenarioRun {
        answer,
        listener,
        refused,
    } = run;
    match lanes_of(alloc, &answer, listener) {
        Ok(lanes) => Drawn {
            answer,
            lanes,
            refused,
        },
        Err(_) => Drawn {
            answer: Err(SceneFault::Memory),
            lanes: Vec::new(alloc),
            refused: None,
        },
    }
}

// What a listener drew; nothing if the run failed.
fn lanes_of(
    alloc: Global,
    answer: &Result<ScenarioOutcome, SceneFault>,
    listener: Option<Either<Drawer, Drawer>>,
) -> Result<Vec<Lane>, AllocError>
    ensures { (text : List ℕ) (run : ScenarioRun Drawer Drawer) → HasDrawn text run
        → run.answer ≡ answer.now → run.listener ≡ listener
        → IfOk result (λ lanes. DrawnIn answer.now lanes.items text) }
{
    match (answer, listener) {
        (Ok(_) | Err(SceneFault::Refused { .. }), Some(Either::First(drawer))) => {
            drawer.into_lanes()
        }
        (Ok(_) | Err(SceneFault::Refused { .. }), Some(Either::Second(drawer))) => {
            drawer.into_lanes()
        }
        _ => Ok(Vec::new(alloc)),
    }
}
