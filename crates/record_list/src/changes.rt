//! Rows, in pieces.

ghost use Rattle.std.specs.Prelude.{◌≡◌, ℕ, List, [], ◌∷◌, ◌++◌, take, length, Some, None, IfOk, IfSome, IfErr, MatchResult, ◌<◌, ◌≤◌};
ghost use Rattle.record_text.specs.Lines.{lines_on};
ghost use Rattle.record_list.specs.declared.now.Now.{Now as NowOf};
ghost use Rattle.record_list.specs.Changes.{Said, changes_of, kept, refusal, said, said_until, step, until};
ghost use Rattle.record_list.specs.Pulses.{unended};
ghost use Rattle.record_list.specs.Changes.Said.{Refused};
ghost use Rattle.record_list.specs.Changes.Step.{Goes, Refuses};
ghost use Rattle.record_list.specs.Lists.{FaultSays, HearsAs, Leads, line_of, reading_by, said_last, to_come, to_come_by};

use crate::chosen::Chosen;
use crate::now::{Fault, ListFault, Now, Placed, Seen};
use crate::pulse::{Pulse, seen_at};
use crate::row::{Reason, row_of};
use record_cells::is_remark;
use record_levels::Levels;
use record_text::Lines;
use std::alloc::{AllocError, Global};

/// How many pulses are kept at most.
const MOST_PULSES: usize = 2_048;

/// All times lie before, in nanoseconds.
const END_NS: u64 = 3_600_000_000_000_000;

/// How many bytes were taken, and the levels that are sure by them.
#[derive(Clone, Copy)]
pub struct Taken {
    /// From the front. All of them, if there are no levels, and maybe none, if there are.
    pub count: usize,
    /// The next ones.
    pub levels: Option<Levels>,
}

/// What is said at the end of a list.
#[derive(Clone, Copy)]
pub enum Last {
    /// The next levels, which others may follow.
    Levels(Levels),
    /// The recording ends at this time, in nanoseconds, when its last pulse does.
    Ends(u64),
}

/// The rows of a list, as far as they were read.
#[derive(Drop)]
pub struct Changes {
    chosen: Chosen,
    above: u64,
    lines: Lines,
    here: Now,
    pulses: Vec<Pulse>,
    refusal: Option<Fault>,
}

impl Changes {
    /// What follows the line of names, which is the line of that number, of up to five ports. The
    /// levels of the first one are the bit of 1.
    pub fn new(
        alloc: Global,
        lines: Lines,
        above: u64,
        ports: &[u64],
    ) -> Result<Changes, AllocError>
        requires { length ports.now ≤ 5 }
        ensures { IfOk result (λ changes. (more : List ℕ) → to_come changes more
            ≡ changes_of (reading_by above ports.now) (lines_on lines more)) }
    {
        Ok(Changes {
            chosen: Chosen::new(alloc, ports)?,
            above,
            lines,
            here: Now::start(),
            pulses: Vec::new(alloc),
            refusal: None,
        })
    }

    /// Reads on to where levels are sure, or to the end of these bytes. What was refused is refused
    /// again at each call. After a failure of memory nothing is to be read.
    pub fn read(&mut self, bytes: &[u8]) -> Result<Taken, ListFault>
        ensures within { IfOk result (λ taken. taken.count ≤ length bytes.now) }
        ensures all { IfOk result (λ taken. taken.levels ≡ None → taken.count ≡ length bytes.now) }
        ensures goes_on { self.old.here.at_ns ≤ self.new.here.at_ns }
        ensures later { IfOk result (λ taken.
            IfSome taken.levels (λ levels. self.old.here.at_ns < self.new.here.at_ns)) }
        ensures says { IfOk result (λ taken.
            Leads self.old (take taken.count bytes.now) taken.levels self.new) }
        ensures refuses { IfErr result (λ fault. (more : List ℕ)
            → FaultSays fault (to_come self.old (bytes.now ++ more))) }
    {
        if let Some(fault) = self.refusal {
            return Err(ListFault::Refused(fault));
        }
        let mut count = 0;
        while count < bytes.len() {
            let levels = self.next();
            if levels.is_some() {
                return Ok(Taken { count, levels });
            }
            let (_, rest) = bytes.split_at(count);
            let next = self.lines.next(rest);
            count += next.count;
            if let Some(number) = next.ended {
                self.hear(number)?;
            }
        }
        let levels = self.next();
        Ok(Taken { count, levels })
    }

    /// The text has ended: the next levels, or the end, which is the last that is said.
    pub fn last(&mut self) -> Result<Last, ListFault>
        ensures { MatchResult result
            (λ last. to_come self.old [] ≡ said_last last (to_come self.new []))
            (λ fault. FaultSays fault (to_come self.old [])) }
    {
        if let Some(fault) = self.refusal {
            return Err(ListFault::Refused(fault));
        }
        if let Some(levels) = self.next() {
            return Ok(Last::Levels(levels));
        }
        if !self.lines.text().is_empty() {
            let number = self.lines.number();
            self.hear(number)?;
            if let Some(levels) = self.next() {
                return Ok(Last::Levels(levels));
            }
        }
        self.ended()
    }

    // No row follows, and all levels are sure.
    fn ended(&mut self) -> Result<Last, ListFault>
        requires goes { self.old.refusal ≡ None }
        requires none { self.old.lines.text.items ≡ [] }
        requires past { until self.old.here ≤ self.old.here.at_ns }
        ensures { MatchResult result
            (λ last. to_come self.old [] ≡ said_last last (to_come self.new []))
            (λ fault. FaultSays fault (to_come self.old [])) }
    {
        if !self.here.is_begun {
            return Err(refused(self.above, Reason::NoRow));
        }
        let seen = next_of(self.pulses.as_slice(), self.here, END_NS);
        self.here = seen.now;
        match seen.levels {
            Some(levels) => Ok(Last::Levels(levels)),
            None => Ok(Last::Ends(self.here.end_ns)),
        }
    }

    // The next levels that are sure, if there are some.
    fn next(&mut self) -> Option<Levels>
        requires { self.old.refusal ≡ None }
        ensures says { (more : List ℕ)
            → to_come self.old more ≡ said result ++ to_come self.new more }
        ensures past { result ≡ None → until self.new.here ≤ self.new.here.at_ns }
        ensures goes_on { self.old.here.at_ns ≤ self.new.here.at_ns }
        ensures later { IfSome result (λ levels. self.old.here.at_ns < self.new.here.at_ns) }
        ensures lines { self.new.lines ≡ self.old.lines }
        ensures goes { self.new.refusal ≡ None }
    {
        let seen = next_of(self.pulses.as_slice(), self.here, self.here.until());
        self.here = seen.now;
        seen.levels
    }

    // A line of this number has ended, before which all levels that were sure were said.
    fn hear(&mut self, number: u64) -> Result<(), ListFault>
        requires goes { self.old.refusal ≡ None }
        requires past { until self.old.here ≤ self.old.here.at_ns }
        ensures says { IfOk result (λ _. (more : List ℕ)
            → to_come_by (Some number) self.old more ≡ to_come self.new more) }
        ensures goes { IfOk result (λ _. self.new.refusal ≡ None) }
        ensures cleared { IfOk result (λ _. self.new.lines.text.items ≡ []) }
        ensures goes_on { self.old.here.at_ns ≤ self.new.here.at_ns }
        ensures refuses { IfErr result (λ fault. (more : List ℕ)
            → FaultSays fault (to_come_by (Some number) self.old more)) }
    {
        let heard = self.judge(number);
        self.lines.clear();
        match heard {
            Ok(()) => Ok(()),
            Err(fault) => {
                if let ListFault::Refused(refusal) = fault {
                    self.refusal = Some(refusal);
                }
                Err(fault)
            }
        }
    }

    // What a line makes of the pulses.
    fn judge(&mut self, number: u64) -> Result<(), ListFault>
        ensures hears { HearsAs (step self.old.chosen.ports.items self.old.pulses.items
            self.old.here (line_of self.old number)) result self.new.pulses.items self.new.here }
        ensures goes_on { self.old.here.at_ns ≤ self.new.here.at_ns }
        ensures ports { self.new.chosen.ports.items ≡ self.old.chosen.ports.items }
        ensures above { self.new.above ≡ self.old.above }
        ensures lines { self.new.lines ≡ self.old.lines }
        ensures goes { self.new.refusal ≡ self.old.refusal }
    {
        let line = self.lines.text();
        if is_remark(line) {
            return Ok(());
        }
        let ports = self.chosen.ports.as_slice();
        match self.here.place(ports, row_of(line)) {
            Ok(placed) => self.keep(number, placed),
            Err(reason) => Err(refused(number, reason)),
        }
    }

    // Of the pulses that have not ended there is one more.
    fn keep(&mut self, line: u64, placed: Placed) -> Result<(), ListFault>
        ensures hears { HearsAs (kept (unended self.old.pulses.items self.old.here.at_ns)
            placed.now line placed.pulse) result self.new.pulses.items self.new.here }
        ensures goes_on { IfOk result (λ _. self.new.here ≡ placed.now) }
        ensures stays { IfErr result (λ _. self.new.here ≡ self.old.here) }
        ensures ports { self.new.chosen.ports.items ≡ self.old.chosen.ports.items }
        ensures above { self.new.above ≡ self.old.above }
        ensures lines { self.new.lines ≡ self.old.lines }
        ensures goes { self.new.refusal ≡ self.old.refusal }
    {
        let at_ns = self.here.at_ns;
        self.pulses.retain(|pulse| at_ns < pulse.to_ns);
        if placed.pulse.bit != 0 {
            if self.pulses.len() >= MOST_PULSES {
                return Err(refused(line, Reason::Many));
            }
            if self.pulses.push(placed.pulse).is_err() {
                return Err(ListFault::Memory);
            }
        }
        self.here = placed.now;
        Ok(())
    }
}

fn refused(line: u64, reason: Reason) -> ListFault
    ensures { result ≡ ListFault.Refused (refusal line reason) }
{
    ListFault::Refused(Fault { line, reason })
}

// The next levels that pulses say before a time, if there are some.
fn next_of(pulses: &[Pulse], now: Now, until_ns: u64) -> Seen
    ensures says { (others : NowOf → List Said) → said_until until_ns pulses.now now others
        ≡ said result.levels ++ said_until until_ns pulses.now result.now others }
    ensures past { result.levels ≡ None → until_ns ≤ result.now.at_ns }
    ensures goes_on { now.at_ns ≤ result.now.at_ns }
    ensures later { IfSome result.levels (λ levels. now.at_ns < result.now.at_ns) }
    ensures begun { result.now.is_begun ≡ now.is_begun }
    ensures newest { result.now.newest_ns ≡ now.newest_ns }
    ensures end { result.now.end_ns ≡ now.end_ns }
{
    let mut now = now;
    while now.at_ns < until_ns {
        let seen = now.see(seen_at(pulses, now.at_ns, until_ns));
        if seen.levels.is_some() {
            return seen;
        }
        now = seen.now;
    }
    Seen { levels: None, now }
}
