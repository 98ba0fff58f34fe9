//! Rows, in pieces.

ghost use Rattle.std.specs.Prelude.{◌≡◌, ℕ, All, List, [], ◌∷◌, ◌++◌, take, length, Some, None, IfOk, IfSome, IfErr, MatchResult, IsSome, ◌<◌, ◌≤◌};
ghost use Rattle.record_table.specs.Changes.{HasLevels, Said, ended, said, said_by, step};
ghost use Rattle.record_table.specs.Changes.Said.{Change, Refused, Ends};
ghost use Rattle.record_table.specs.Tables.{HeadFaultFits, IsBelow, IsReady, Leads, line_of, reading_of, to_come, to_come_by};
ghost use Rattle.record_table.specs.declared.head.Stage.TheVariants.{Below};

use crate::chosen::Chosen;
use crate::clock::Clock;
use crate::head::{Head, HeadFault, Stage};
use crate::now::{Fault, Now, Step};
use crate::row::{Plan, Reason, row_of};
use record_cells::{Threshold, is_remark};
use record_levels::Levels;
use record_text::Lines;
use std::alloc::Global;

/// How many bytes were taken, and the levels that they say.
#[derive(Clone, Copy)]
pub struct Taken {
    /// From the front. All of them, if there are no levels.
    pub count: usize,
    /// The levels at the time before, if the last row of them went on to a later one.
    pub levels: Option<Levels>,
}

/// What is said at the end of a table.
#[derive(Clone, Copy)]
pub struct End {
    /// The levels at the time before the last row, if that goes on to a later one.
    pub before: Option<Levels>,
    /// The levels at the time of the last row, unless they are those before it.
    pub levels: Option<Levels>,
    /// The time of the last row, at which the recording ends, in nanoseconds.
    pub time_ns: u64,
}

/// The rows of a table, as far as they were read.
#[derive(Drop)]
pub struct Changes {
    plan: Plan,
    chosen: Chosen,
    above: u64,
    lines: Lines,
    here: Now,
    refusal: Option<Fault>,
}

impl Changes {
    /// What follows a head, of up to five of its channels, which are chosen by their places among
    /// [`Head::names`]. The levels of the first chosen are the bit of 1.
    pub fn new(alloc: Global, head: Head, chosen: &[usize]) -> Result<Changes, HeadFault>
        requires few { length chosen.now ≤ 5 }
        requires places { All (λ place. place < length head.names.items) chosen.now }
        ensures says { IfOk result (λ changes. (clock : Clock) → head.stage ≡ Below clock
            → IsBelow head None chosen.now clock changes) }
        ensures ready { IfOk result (λ changes. IsReady head) }
        ensures fault { IfErr result (λ fault. HeadFaultFits head fault) }
    {
        Changes::of(alloc, head, None, chosen)
    }

    /// The same of a table of voltages: a line is high above the threshold. It keeps its level
    /// while it is off the threshold by no more than a tenth of the most that it ever was.
    pub fn by_threshold(
        alloc: Global,
        head: Head,
        threshold: Threshold,
        chosen: &[usize],
    ) -> Result<Changes, HeadFault>
        requires few { length chosen.now ≤ 5 }
        requires places { All (λ place. place < length head.names.items) chosen.now }
        ensures says { IfOk result (λ changes. (clock : Clock) → head.stage ≡ Below clock
            → IsBelow head (Some threshold) chosen.now clock changes) }
        ensures ready { IfOk result (λ changes. IsReady head) }
        ensures fault { IfErr result (λ fault. HeadFaultFits head fault) }
    {
        Changes::of(alloc, head, Some(threshold), chosen)
    }

    fn of(
        alloc: Global,
        head: Head,
        threshold: Option<Threshold>,
        chosen: &[usize],
    ) -> Result<Changes, HeadFault>
        requires { length chosen.now ≤ 5 }
        ensures says { IfOk result (λ changes. (clock : Clock) → head.stage ≡ Below clock
            → IsBelow head threshold chosen.now clock changes) }
        ensures ready { IfOk result (λ changes. IsReady head) }
        ensures fault { IfErr result (λ fault. HeadFaultFits head fault) }
    {
        let clock = match head.stage {
            Stage::Below(clock) => clock,
            Stage::Above => return Err(HeadFault::Unended),
            Stage::Refused(refusal) => return Err(HeadFault::Refused(refusal)),
        };
        let chosen = Chosen::new(alloc, chosen)?;
        Ok(Changes {
            plan: Plan {
                clock,
                threshold,
                columns: head.names.len(),
            },
            chosen,
            above: head.above,
            lines: head.lines,
            here: Now::start(),
            refusal: None,
        })
    }

    /// How long before the time of 0 the recording begins, in nanoseconds: its times are counted
    /// from the first row, if that stands at a time below 0. It is 0 before the first row.
    pub fn start_ns(&self) -> u64
        ensures { result ≡ self.now.here.start_ns }
    {
        self.here.start_ns
    }

    /// Reads on to a row that goes on to a later time, if levels are to be said at the one before,
    /// or to the end of these bytes. What was refused is refused again at each call.
    pub fn read(&mut self, bytes: &[u8]) -> Result<Taken, Fault>
        ensures within { IfOk result (λ taken. taken.count ≤ length bytes.now) }
        ensures some { IfOk result (λ taken. IfSome taken.levels (λ levels. 0 < taken.count)) }
        ensures all { IfOk result (λ taken. taken.levels ≡ None → taken.count ≡ length bytes.now) }
        ensures says { IfOk result (λ taken.
            Leads self.old (take taken.count bytes.now) taken.levels self.new) }
        ensures refuses { IfErr result (λ fault. (more : List ℕ)
            → to_come self.old (bytes.now ++ more) ≡ Refused fault ∷ []) }
        ensures stays { IfErr result (λ fault. self.new.refusal ≡ Some fault) }
    {
        if let Some(fault) = self.refusal {
            return Err(fault);
        }
        let mut count = 0;
        while count < bytes.len() {
            let (_, rest) = bytes.split_at(count);
            let next = self.lines.next(rest);
            count += next.count;
            if let Some(number) = next.ended {
                let levels = self.hear(number)?;
                if levels.is_some() {
                    return Ok(Taken { count, levels });
                }
            }
        }
        Ok(Taken {
            count,
            levels: None,
        })
    }

    /// The text has ended: what the last line says, and the last levels.
    pub fn end(mut self) -> Result<End, Fault>
        ensures { MatchResult result
            (λ end. to_come self [] ≡ said end.before ++ (said end.levels ++ Ends end.time_ns ∷ []))
            (λ fault. to_come self [] ≡ Refused fault ∷ []) }
    {
        if let Some(fault) = self.refusal {
            return Err(fault);
        }
        let number = self.lines.number();
        if self.lines.text().is_empty() {
            return self.ended(None);
        }
        let before = self.hear(number)?;
        self.ended(before)
    }

    // No row follows after these levels.
    fn ended(&self, before: Option<Levels>) -> Result<End, Fault>
        requires { IfSome before (λ _. IsSome self.now.here.levels_ns) }
        ensures before { IfOk result (λ end. end.before ≡ before) }
        ensures ends { IfOk result (λ end.
            ended self.now.above self.now.here ≡ said end.levels ++ Ends end.time_ns ∷ []) }
        ensures none { IfErr result (λ _. before ≡ None) }
        ensures refuses { IfErr result (λ fault.
            ended self.now.above self.now.here ≡ Refused fault ∷ []) }
    {
        if self.here.levels_ns.is_none() {
            return Err(Fault {
                line: self.above,
                reason: Reason::NoRow,
            });
        }
        Ok(End {
            before,
            levels: self.here.due(),
            time_ns: self.here.time_ns,
        })
    }

    // A line of this number has ended: the levels that it says.
    fn hear(&mut self, number: u64) -> Result<Option<Levels>, Fault>
        requires { self.old.refusal ≡ None }
        ensures says { IfOk result (λ levels. (more : List ℕ)
            → to_come_by (Some number) self.old more ≡ said levels ++ to_come self.new more) }
        ensures goes { IfOk result (λ levels. self.new.refusal ≡ None) }
        ensures cleared { IfOk result (λ levels. self.new.lines.text.items ≡ []) }
        ensures some { IfOk result (λ levels.
            IfSome levels (λ _. IsSome self.new.here.levels_ns)) }
        ensures refuses { IfErr result (λ fault. (more : List ℕ)
            → to_come_by (Some number) self.old more ≡ Refused fault ∷ []) }
        ensures stays { IfErr result (λ fault. self.new.refusal ≡ Some fault) }
    {
        let step = self.judged(number);
        self.lines.clear();
        match step {
            Step::Goes(now) => {
                self.here = now;
                Ok(None)
            }
            Step::Says(levels, now) => {
                self.here = now;
                Ok(Some(levels))
            }
            Step::Refuses(fault) => {
                self.refusal = Some(fault);
                Err(fault)
            }
        }
    }

    // What a line makes of the levels.
    fn judged(&self, number: u64) -> Step
        ensures step { result ≡ step (reading_of self.now) self.now.here (line_of self.now number) }
        ensures some { HasLevels result }
    {
        let line = self.lines.text();
        if is_remark(line) {
            return Step::Goes(self.here);
        }
        let chosen = self.chosen.places.as_slice();
        let row = row_of(self.plan, chosen, self.here, line);
        self.here.hear(number, row)
    }
}
