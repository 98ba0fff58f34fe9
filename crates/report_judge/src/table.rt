//! The rows of a table, judged as they come.

ghost use Rattle.std.specs.Prelude.{◌≡◌, ◌<◌, ◌≤◌, ◌++◌, All, IsTrue, IfErr, IfOk, List, length, ℕ};
ghost use Rattle.record_table.specs.Heads.{is_over};
ghost use Rattle.record_table.specs.declared.clock.Clock.{Clock};
ghost use Rattle.record_table.specs.declared.head.Stage.TheVariants.{Below};
ghost use Rattle.record_table.specs.Tables.{HeadFaultFits, IsBelow, IsReady};
ghost use Rattle.report_judge.specs.declared.asked.Asked.{Asked as AskedOf};
ghost use Rattle.report_judge.specs.declared.fault.JudgeFault.TheVariants.{Table as TableFault};
ghost use Rattle.report_judge.specs.Forms.{begins_table};
ghost use Rattle.report_judge.specs.Readings.{RefusedBy, RefusedFrom};
ghost use Rattle.report_judge.specs.Tables.{HasReadRows, HasReadTitle, JudgedTable};

use crate::asked::Asked;
use crate::channels::places_named;
use crate::fault::JudgeFault;
use crate::hearing::{Hearing, Judged};
use crate::names::{column_names, listed, names_at};
use record_cells::Threshold;
use record_table::{Changes, Fault, Head, HeadFault};
use std::alloc::Global;

/// A table below its line of names.
#[derive(Drop)]
pub(crate) struct Rows {
    names: Vec<Vec<u8>>,
    changes: Changes,
    hearing: Hearing,
}

impl Rows {
    /// What follows a head that is over.
    #[inline(never)]
    pub(crate) fn new(alloc: Global, asked: &Asked<'_>, head: Head) -> Result<Rows, JudgeFault>
        requires { IsTrue (is_over head.stage) }
        ensures reads { IfOk result (λ rows. (text : List ℕ) → HasReadTitle text head
            → HasReadRows asked.now text rows) }
        ensures refuses { IfErr result (λ fault. (text : List ℕ) → HasReadTitle text head
            → RefusedFrom asked.now text fault) }
    {
        sound(&head)?;
        let all = column_names(alloc, head.names())?;
        let places = match places_named(all.as_slice(), asked.channels) {
            Ok(places) => places,
            Err(fault) => {
                let there = listed(alloc, all.as_slice())?;
                return Err(JudgeFault::Columns(fault, there));
            }
        };
        let names = names_at(alloc, all.as_slice(), places.as_slice())?;
        let changes = changes_by(alloc, head, asked.threshold, places.as_slice())?;
        let hearing = Hearing::new(alloc, places.len(), asked)?;
        Ok(Rows {
            names,
            changes,
            hearing,
        })
    }

    /// Some bytes of rows.
    pub(crate) fn read(&mut self, bytes: &[u8]) -> Result<(), Fault>
        ensures reads { IfOk result (λ _. (asked : AskedOf) (text : List ℕ)
            → HasReadRows asked text self.old → HasReadRows asked (text ++ bytes.now) self.new) }
        ensures refuses { IfErr result (λ fault. (asked : AskedOf) (text : List ℕ)
            → HasReadRows asked text self.old
            → RefusedFrom asked (text ++ bytes.now) (TableFault fault)) }
    {
        let mut rest = bytes;
        while !rest.is_empty() {
            let taken = self.changes.read(rest)?;
            self.hearing.hear(taken.levels);
            rest = rest.split_at(taken.count).1;
        }
        Ok(())
    }

    /// The table has ended: the verdict.
    pub(crate) fn end(self, alloc: Global) -> Result<Judged, JudgeFault>
        ensures judged { IfOk result (λ judged. (asked : AskedOf) (text : List ℕ)
            → IsTrue (begins_table text) → HasReadRows asked text self
            → JudgedTable asked text judged) }
        ensures refuses { IfErr result (λ fault. (asked : AskedOf) (text : List ℕ)
            → HasReadRows asked text self → RefusedBy asked text fault) }
    {
        let Rows {
            names,
            changes,
            mut hearing,
        } = self;
        let end = changes.end()?;
        hearing.hear(end.before);
        hearing.hear(end.levels);
        hearing.end(end.time_ns);
        let judged = hearing.judged(alloc, names.as_slice(), "")?;
        Ok(judged)
    }
}

// What follows a head: of voltages by a threshold, or of levels.
fn changes_by(
    alloc: Global,
    head: Head,
    threshold: Option<Threshold>,
    chosen: &[usize],
) -> Result<Changes, HeadFault>
    requires few { length chosen.now ≤ 5 }
    requires places { All (λ place. place < length head.names.items) chosen.now }
    ensures says { IfOk result (λ changes. (clock : Clock) → head.stage ≡ Below clock
        → IsBelow head threshold chosen.now clock changes) }
    ensures ready { IfOk result (λ changes. IsReady head) }
    ensures fault { IfErr result (λ fault. HeadFaultFits head fault) }
{
    match threshold {
        Some(threshold) => Changes::by_threshold(alloc, head, threshold, chosen),
        None => Changes::new(alloc, head, chosen),
    }
}

// Rows are read below this head.
fn sound(head: &Head) -> Result<(), HeadFault>
    ensures ready { IfOk result (λ _. IsReady head.now) }
    ensures fault { IfErr result (λ fault. HeadFaultFits head.now fault) }
{
    match head.fault() {
        Some(fault) => Err(fault),
        None => Ok(()),
    }
}
