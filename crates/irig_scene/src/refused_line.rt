//! What explains a refused line.

ghost use Rattle.std.specs.Prelude.{◌≡◌};

use indexmap::IndexSet;
use irig_gen::Generator;
use std::alloc::Global;
use text_faults::Refusal;

/// A line that was refused, and where the plant then stood.
#[derive(Drop)]
pub struct RefusedLine {
    /// Why it was refused.
    pub refusal: Refusal,
    /// The bytes of the refused line, as far as they were read. If the input ended without a plant
    /// line: those of the last line, if it has no newline.
    pub line: Vec<u8>,
    /// The readers' names, in order; none before the plant line.
    pub names: IndexSet<String>,
    /// The edge of each generator; none before the plant line, and none without memory for them.
    pub edges: Vec<u64>,
}

impl RefusedLine {
    /// A line before there is a plant.
    pub fn before_plant(alloc: Global, refusal: Refusal, line: Vec<u8>) -> RefusedLine
        ensures { result.refusal ≡ refusal }
    {
        RefusedLine {
            refusal,
            line,
            names: IndexSet::new(alloc),
            edges: Vec::new(alloc),
        }
    }

    /// A line of a plant whose readers have these names, and whose generators stand so.
    pub(crate) fn of_plant(
        alloc: Global,
        refusal: Refusal,
        line: Vec<u8>,
        names: IndexSet<String>,
        generators: &[Generator],
    ) -> RefusedLine
        ensures { result.refusal ≡ refusal }
    {
        RefusedLine {
            refusal,
            line,
            names,
            edges: edges_of(alloc, generators),
        }
    }
}

fn edges_of(alloc: Global, generators: &[Generator]) -> Vec<u64> {
    let mut edges = Vec::new(alloc);
    for generator in generators {
        if edges.push(generator.edge()).is_err() {
            return Vec::new(alloc);
        }
    }
    edges
}
