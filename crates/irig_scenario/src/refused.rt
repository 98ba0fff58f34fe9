//! What explains a refusal.

ghost use Rattle.std.specs.Prelude.{◌≡◌, option_map};
ghost use Rattle.irig_scene.specs.Explained.{refusal_in};
ghost use Rattle.irig_scenario.specs.WhyRefused.{explained_by, refusal_answered};

use indexmap::IndexSet;
use irig_scene::{RefusedLine, SceneFault};
use std::alloc::Global;
use text_faults::Refusal;

/// Why a line was refused.
#[derive(Drop)]
pub enum WhyRefused {
    /// The line of a plant of readers, and where the plant then stood.
    Line(RefusedLine),
    /// The line of a plant of devices, which have these names. There are as many edges as generators;
    /// their numbers say nothing.
    OfDevices(RefusedLine),
    /// The refusal alone, since there was no memory to see what the line is.
    Cause(Refusal),
}

/// What explains a refusal of a plant of readers, if a line of it is refused.
pub fn why_of_readers(line: Option<RefusedLine>) -> Option<WhyRefused>
    ensures { option_map explained_by result ≡ refusal_in line }
{
    match line {
        Some(line) => Some(WhyRefused::Line(line)),
        None => None,
    }
}

/// What explains a refusal of a plant of devices with these names and so many lines to each, if this
/// line of it is refused.
pub fn why_of_devices(
    alloc: Global,
    refusal: Option<Refusal>,
    line: Vec<u8>,
    names: IndexSet<String>,
    lines: u8,
) -> Option<WhyRefused>
    ensures { option_map explained_by result ≡ refusal }
{
    Some(WhyRefused::OfDevices(RefusedLine {
        refusal: refusal?,
        line,
        names,
        edges: none_begun(alloc, lines),
    }))
}

// An edge for each of so many generators; none without memory for them.
fn none_begun(alloc: Global, lines: u8) -> Vec<u64> {
    match vec![in alloc; 0; usize::from(lines)] {
        Ok(edges) => edges,
        Err(_) => Vec::new(alloc),
    }
}

/// The refusal that a run ended with, if it was one.
pub fn refusal_of<T>(answer: &Result<T, SceneFault>) -> Option<Refusal>
    ensures { result ≡ refusal_answered answer.now }
{
    match answer {
        Err(SceneFault::Refused { refusal, .. }) => Some(*refusal),
        _ => None,
    }
}
