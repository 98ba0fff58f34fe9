//! The entries of a run, and the lines that asked for them.

ghost use Rattle.std.specs.Prelude.{◌≡◌, ◌+◌, ◌≤◌, ℕ, List, drop, length};
ghost use Rattle.c_scenario.specs.Entries.{begun, entries_of, lined};
ghost use Rattle.c_scenario.specs.EntryRuns.{HasHeardEntries, first_of};
ghost use Rattle.c_scenario.specs.Runs.{HasWholeLog, status_of, written_over};

use crate::entry::{IrigEntry, entry_for_c};
use crate::run::status_of;
use indexmap::IndexSet;
use irig_device::Watched;
use irig_plant::{Entry, Event, Plant};
use irig_port::{FlowPort, Port};
use irig_scene::{Listener, READ_FAILED, Run, run_listening};
use std::alloc::{AllocError, Global};

/// The entries that were heard so far, without their lines.
#[derive(Drop)]
pub(crate) struct EntryLog {
    pub(crate) entries: Vec<IrigEntry>,
}

impl Listener for EntryLog {
    ghost use Rattle.std.specs.Prelude.{true};
    ghost use Rattle.irig_scene.specs.Texts.{no_texts};
    ghost use Rattle.c_scenario.specs.EntryRuns.{HoldsEntries};

    type Asked = ();

    ghost texts = { λ asked. no_texts };

    ghost stands_for = { λ asked log x. HoldsEntries log x };

    ghost counts = { true };

    fn counts() -> bool {
        true
    }

    fn count(&self) -> u64 {
        self.entries.len() as u64
    }

    fn new(
        alloc: Global,
        _asked: (),
        _names: &IndexSet<String>,
        _ports: u8,
    ) -> Result<EntryLog, AllocError> {
        Ok(EntryLog {
            entries: Vec::new(alloc),
        })
    }

    fn echoes_plant_line(_asked: ()) -> bool {
        false
    }

    fn push_event<P: Port>(
        &mut self,
        _asked: (),
        _plant: &Plant<P>,
        _names: &IndexSet<String>,
        _event: &Event,
        entries: &[Entry],
        _text: &mut String,
    ) -> Result<(), AllocError> {
        if let Some(entry) = first_entry(entries) {
            self.entries.push(entry)?;
        }
        Ok(())
    }

    fn push_last<P: Port>(
        &self,
        _asked: (),
        _plant: &Plant<P>,
        _names: &IndexSet<String>,
        _refused: bool,
        _text: &mut String,
    ) -> Result<(), AllocError> {
        Ok(())
    }
}

fn first_entry(entries: &[Entry]) -> Option<IrigEntry>
    ensures { result ≡ first_of entries.now }
{
    match entries {
        [entry, ..] => Some(entry_for_c(entry)),
        [] => None,
    }
}

/// A run of the text, which keeps its entries.
pub(crate) fn hear_text(alloc: Global, text: &[u8]) -> Run<EntryLog>
    ensures { HasHeardEntries text.now result }
{
    let mut input = Watched::new(text);
    let mut output = Watched::new(Vec::new(alloc));
    run_listening::<EntryLog, FlowPort, &[u8], Vec<u8>>(alloc, (), &mut input, &mut output)
}

/// Writes the entries of a run over the beginning of `room`, as many as it has room for, and answers
/// how many there are; none if the run failed.
pub(crate) fn write_entries(room: &mut [IrigEntry], run: &Run<EntryLog>) -> usize
    ensures entries { (text : List ℕ) → HasHeardEntries text run.now
        → HasWholeLog (status_of run.now.answer)
        → room.new ≡ written_over room.old (entries_of text) }
    ensures count { (text : List ℕ) → HasHeardEntries text run.now
        → HasWholeLog (status_of run.now.answer) → result ≡ length (entries_of text) }
    ensures unchanged { 4 ≤ status_of run.now.answer → room.new ≡ room.old }
{
    if status_of(&run.answer) >= READ_FAILED {
        return 0;
    }
    match &run.listener {
        Some(log) => {
            write_lined(room, &log.entries, &run.starts);
            log.entries.len()
        }
        None => 0,
    }
}

// Writes entries over the beginning of `room`, as many as it has room for, each with the line that
// asked for it, by how many entries there were where each line began.
fn write_lined(room: &mut [IrigEntry], entries: &[IrigEntry], starts: &[u64])
    ensures { room.new ≡ written_over room.old (lined starts.now 0 entries.now) }
{
    let mut line = 0;
    for index in 0..room.len().min(entries.len()) {
        line = lines_begun(starts, line, index as u64);
        room[index] = IrigEntry {
            line: line as u64,
            ..entries[index]
        };
    }
}

// How many lines began with at most so many entries, if these did.
fn lines_begun(starts: &[u64], these: usize, count: u64) -> usize
    requires some { these ≤ length starts.now }
    requires begun { begun starts.now count ≡ these + begun (drop these starts.now) count }
    ensures { result ≡ begun starts.now count }
{
    let mut lines = these;
    while lines < starts.len() && starts[lines] <= count {
        lines += 1;
    }
    lines
}
