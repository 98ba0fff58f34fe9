//! A recording that comes in pieces.

ghost use Rattle.std.specs.Prelude.{◌≡◌, ◌++◌, [], IsTrue, IfErr, IfOk, List, ℕ};
ghost use Rattle.record_vcd.specs.Sections.{is_over};
ghost use Rattle.report_judge.specs.declared.asked.Asked.{Asked as AskedOf};
ghost use Rattle.report_judge.specs.declared.fault.JudgeFault.TheVariants.{Dump};
ghost use Rattle.report_judge.specs.Readings.{HasReadBelow, HasReadHead, HasReadTo, JudgedDump, JudgedWhole, RefusedBy, RefusedFrom};
ghost use Rattle.report_judge.specs.Forms.{begins_dump, begins_table};
ghost use Rattle.report_judge.specs.Tables.{HasReadTitle};

use crate::asked::Asked;
use crate::channels::places_named;
use crate::fault::JudgeFault;
use crate::hearing::{Hearing, Judged};
use crate::names::{listed, names_at, wire_names};
use crate::table::Rows;
use record_vcd::{Changes, Fault, Head, HeadFault};
use std::alloc::{AllocError, Global};

/// A recording as far as it was read.
#[derive(Drop)]
pub struct Reading {
    stage: Stage,
}

// Where it is read.
#[derive(Drop)]
enum Stage {
    // Nothing was read.
    Start,
    // In the head of a value change dump.
    Head(Head),
    // Below it. What the lines have heard is large, and moves with a Reading.
    Below(Box<Below>),
    // Above the rows of a table.
    Title(record_table::Head),
    // In its rows.
    Rows(Box<Rows>),
}

// A value change dump below its head.
#[derive(Drop)]
struct Below {
    names: Vec<Vec<u8>>,
    changes: Changes,
    hearing: Hearing,
}

impl Reading {
    /// One of which nothing was read.
    pub fn new() -> Reading
        ensures { (asked : AskedOf) → HasReadTo asked [] result.stage }
    {
        Reading {
            stage: Stage::Start,
        }
    }

    /// Reads the next piece.
    pub fn read(self, alloc: Global, asked: &Asked<'_>, bytes: &[u8]) -> Result<Reading, JudgeFault>
        ensures reads { IfOk result (λ reading. (text : List ℕ)
            → HasReadTo asked.now text self.stage
            → HasReadTo asked.now (text ++ bytes.now) reading.stage) }
        ensures refuses { IfErr result (λ fault. (text : List ℕ)
            → HasReadTo asked.now text self.stage
            → RefusedFrom asked.now (text ++ bytes.now) fault) }
    {
        let stage = match self.stage {
            Stage::Start => start(alloc, asked, bytes)?,
            Stage::Head(head) => read_head(alloc, asked, head, bytes)?,
            Stage::Below(mut below) => {
                below.read(bytes)?;
                Stage::Below(below)
            }
            Stage::Title(head) => read_title(alloc, asked, head, bytes)?,
            Stage::Rows(mut rows) => {
                rows.read(bytes)?;
                Stage::Rows(rows)
            }
        };
        Ok(Reading { stage })
    }

    /// The recording has ended: its verdict.
    pub fn end(self, alloc: Global) -> Result<Judged, JudgeFault>
        ensures judged { IfOk result (λ judged. (asked : AskedOf) (text : List ℕ)
            → HasReadTo asked text self.stage → JudgedWhole asked text judged) }
        ensures refuses { IfErr result (λ fault. (asked : AskedOf) (text : List ℕ)
            → HasReadTo asked text self.stage
            → RefusedBy asked text fault) }
    {
        match self.stage {
            Stage::Start => Err(JudgeFault::Empty),
            Stage::Head(_) => Err(JudgeFault::Head(HeadFault::Unended)),
            Stage::Below(below) => Box::into_inner(below).end(alloc),
            Stage::Title(_) => Err(JudgeFault::Title(record_table::HeadFault::Unended)),
            Stage::Rows(rows) => Box::into_inner(rows).end(alloc),
        }
    }
}

// The first piece shows the form.
fn start(alloc: Global, asked: &Asked<'_>, bytes: &[u8]) -> Result<Stage, JudgeFault>
    ensures reads { IfOk result (HasReadTo asked.now bytes.now) }
    ensures refuses { IfErr result (RefusedFrom asked.now bytes.now) }
{
    if bytes.is_empty() {
        return Ok(Stage::Start);
    }
    let stage = if begins_dump(bytes) {
        read_head(alloc, asked, Head::new(alloc), bytes)?
    } else {
        read_title(alloc, asked, record_table::Head::new(alloc), bytes)?
    };
    Ok(stage)
}

// Whether a value change dump may begin so: with a word of its head, or a blank.
fn begins_dump(bytes: &[u8]) -> bool
    ensures { result ≡ begins_dump bytes.now }
{
    match bytes {
        [first, ..] => *first == b'$' || first.is_ascii_whitespace(),
        [] => false,
    }
}

fn read_head(
    alloc: Global,
    asked: &Asked<'_>,
    mut head: Head,
    bytes: &[u8],
) -> Result<Stage, JudgeFault>
    ensures reads { IfOk result (λ stage. (text : List ℕ) → HasReadHead text head
        → IsTrue (begins_dump (text ++ bytes.now))
        → HasReadTo asked.now (text ++ bytes.now) stage) }
    ensures refuses { IfErr result (λ fault. (text : List ℕ) → HasReadHead text head
        → RefusedFrom asked.now (text ++ bytes.now) fault) }
{
    let taken = head.read(alloc, bytes)?;
    if !taken.is_over {
        return Ok(Stage::Head(head));
    }
    let mut below = Below::new(alloc, asked, head)?;
    below.read(bytes.split_at(taken.count).1)?;
    match Box::new(alloc, below) {
        Ok(below) => Ok(Stage::Below(below)),
        Err(_) => Err(JudgeFault::Memory),
    }
}

fn read_title(
    alloc: Global,
    asked: &Asked<'_>,
    mut head: record_table::Head,
    bytes: &[u8],
) -> Result<Stage, JudgeFault>
    ensures reads { IfOk result (λ stage. (text : List ℕ) → HasReadTitle text head
        → IsTrue (begins_table (text ++ bytes.now))
        → HasReadTo asked.now (text ++ bytes.now) stage) }
    ensures refuses { IfErr result (λ fault. (text : List ℕ) → HasReadTitle text head
        → RefusedFrom asked.now (text ++ bytes.now) fault) }
{
    let taken = head.read(alloc, bytes)?;
    if !taken.is_over {
        return Ok(Stage::Title(head));
    }
    let mut rows = Rows::new(alloc, asked, head)?;
    rows.read(bytes.split_at(taken.count).1)?;
    match Box::new(alloc, rows) {
        Ok(rows) => Ok(Stage::Rows(rows)),
        Err(_) => Err(JudgeFault::Memory),
    }
}

impl Below {
    // What follows a head that is over.
    #[inline(never)]
    fn new(alloc: Global, asked: &Asked<'_>, head: Head) -> Result<Below, JudgeFault>
        requires { IsTrue (is_over head.section) }
        ensures reads { IfOk result (λ below. (text : List ℕ) → HasReadHead text head
            → HasReadBelow asked.now text below) }
        ensures refuses { IfErr result (λ fault. (text : List ℕ) → HasReadHead text head
            → RefusedFrom asked.now text fault) }
    {
        let all = wire_names(alloc, head.wires())?;
        let places = match places_named(all.as_slice(), asked.channels) {
            Ok(places) => places,
            Err(fault) => {
                let there = listed(alloc, all.as_slice())?;
                return Err(JudgeFault::Channels(fault, there));
            }
        };
        let names = names_at(alloc, all.as_slice(), places.as_slice())?;
        let changes = Changes::new(alloc, head, places.as_slice())?;
        let hearing = Hearing::new(alloc, places.len(), asked)?;
        Ok(Below {
            names,
            changes,
            hearing,
        })
    }

    fn read(&mut self, bytes: &[u8]) -> Result<(), Fault>
        ensures reads { IfOk result (λ _. (asked : AskedOf) (text : List ℕ)
            → HasReadBelow asked text self.old → HasReadBelow asked (text ++ bytes.now) self.new) }
        ensures refuses { IfErr result (λ fault. (asked : AskedOf) (text : List ℕ)
            → HasReadBelow asked text self.old
            → RefusedFrom asked (text ++ bytes.now) (Dump fault)) }
    {
        let mut rest = bytes;
        while !rest.is_empty() {
            let taken = self.changes.read(rest)?;
            self.hearing.hear(taken.levels);
            rest = rest.split_at(taken.count).1;
        }
        Ok(())
    }

    fn end(self, alloc: Global) -> Result<Judged, JudgeFault>
        ensures judged { IfOk result (λ judged. (asked : AskedOf) (text : List ℕ)
            → IsTrue (begins_dump text) → HasReadBelow asked text self
            → JudgedDump asked text judged) }
        ensures refuses { IfErr result (λ fault. (asked : AskedOf) (text : List ℕ)
            → HasReadBelow asked text self → RefusedBy asked text fault) }
    {
        let Below {
            names,
            changes,
            mut hearing,
        } = self;
        let end = changes.end()?;
        hearing.hear(end.levels);
        hearing.end(end.time_ns);
        let judged = hearing.judged(alloc, names.as_slice(), "")?;
        Ok(judged)
    }
}
