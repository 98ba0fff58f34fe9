//! What plays lines.

ghost use Rattle.std.specs.Prelude.{◌≡◌, ◌||◌, Bool, ℕ, true};
ghost use Rattle.irig_device.specs.Watched.{device_of, has_failed};
ghost use Rattle.report_run.specs.Faults.{WroteText, failed_write, stopped_write};
ghost use Rattle.report_run.specs.Meanings.{Language};
ghost use Rattle.report_run.specs.Runs.{Begins, TakesNext};
ghost use Rattle.report_run.specs.Texts.{Stays, Texts, last_of};

use crate::stop::{Failure, Stop};
use irig_device::Watched;
use std::alloc::Global;
use std::io::Write;

/// What plays the lines of a scenario one after another, and writes what it says of them.
pub trait Play: Drop {
    /// What it is asked for.
    type Asked: Copy;
    /// How a run without a refusal ends.
    type Outcome: Copy;

    // What the lines that were played leave.
    ghost Scene: { Type 0 };

    // What lines mean.
    ghost language: { Language Scene };

    // What it says of them.
    ghost texts: { Self.Asked → Texts Scene };

    // It stands as this scene leaves it.
    ghost stands_for: { Self.Asked → Self → Scene → Type 0 };

    // So many lines that leave this scene end so.
    ghost ends: { Scene → ℕ → Self.Outcome → Type 0 };

    // How many entries the log of a scene has.
    ghost entries: { Scene → ℕ };

    // It counts them.
    ghost counts: { Bool };

    /// Whether it counts entries.
    fn counts() -> bool
        ensures { result ≡ counts };

    /// How many entries there were so far, if it counts them.
    fn count(&self) -> u64
        ensures { (asked : Self.Asked) (x : Scene) → counts ≡ true → stands_for asked self.now x
            → result ≡ entries x };

    /// Begins by the first line that is not blank, and writes what is said of it; or why not.
    fn begin<W: Write>(
        alloc: Global,
        asked: Self::Asked,
        line: &[u8],
        output: &mut Watched<W>,
    ) -> Result<Self, Stop>
        ensures begins { Begins language (stands_for asked) (texts asked) line.now result
            (W.contents (device_of output.old)) (W.contents (device_of output.new)) }
        ensures note { has_failed output.new ≡ (has_failed output.old || stopped_write result) };

    /// Plays a further line that is not blank, up to what is refused, and writes what is said of it.
    fn take<W: Write>(
        &mut self,
        alloc: Global,
        asked: Self::Asked,
        line: &[u8],
        output: &mut Watched<W>,
    ) -> Result<(), Stop>
        ensures takes { TakesNext language (stands_for asked) (texts asked) self.old line.now result
            self.new (W.contents (device_of output.old)) (W.contents (device_of output.new)) }
        ensures note { has_failed output.new ≡ (has_failed output.old || stopped_write result) };

    /// Writes what comes last: what is open, if a line is refused, and else what ends the text.
    fn write_last<W: Write>(
        &self,
        alloc: Global,
        asked: Self::Asked,
        refused: bool,
        output: &mut Watched<W>,
    ) -> Result<(), Failure>
        ensures wrote { (x : Scene) → stands_for asked self.now x → WroteText result
            (W.contents (device_of output.old)) (W.contents (device_of output.new))
            (last_of (texts asked) refused x) }
        ensures note { has_failed output.new ≡ (has_failed output.old || failed_write result) };

    /// How the run ends after so many lines.
    fn outcome(&self, lines: u64) -> Self::Outcome
        ensures { (asked : Self.Asked) (x : Scene) → stands_for asked self.now x
            → ends x lines result };

    // What is said stays.
    ghost stays: { (asked : Self.Asked) → Stays language (texts asked) };
}
