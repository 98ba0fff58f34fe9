//! What stands above the rows.

ghost use Rattle.std.specs.Prelude.{◌≡◌, ℕ, List, [], ◌∷◌, ◌++◌, take, length, IfOk, IsFalse, Some, None, ◌≤◌};
ghost use Rattle.record_table.specs.Heads.{head_end, head_end_by, is_over, remarked, step, text_on, titled_by, top, value_of};
ghost use Rattle.record_table.specs.Tables.{IsAtTop, LeadsOn, fault_of};
ghost use Rattle.record_table.specs.declared.head.HeadFault.TheVariants.{Memory};

use crate::clock::Clock;
use crate::name::Name;
use crate::title::{HeadReason, HeadRefusal, names_of, title_clock};
use record_cells::{is_remark, list_text, rate_of, rate_text};
use record_text::{Lines, without_mark};
use std::alloc::{AllocError, Global};

/// Why no rows are read below a head.
#[derive(Clone, Copy, PartialEq, Eq, Drop)]
pub enum HeadFault {
    /// There was no memory.
    Memory,
    /// The text ends before the end of the line of names.
    Unended,
    /// A line is wrong.
    Refused(HeadRefusal),
}

impl From<AllocError> for HeadFault {
    ghost from_gives = { λ _ fault. fault ≡ Memory };

    fn from(_: AllocError) -> HeadFault {
        HeadFault::Memory
    }
}

/// How many bytes of a head were taken, and whether it is over.
#[derive(Clone, Copy)]
pub struct HeadTaken {
    /// From the front. All of them, unless the head is over.
    pub count: usize,
    /// Whether the line of names was read, or a line was refused. What follows is for
    /// [`crate::Changes`].
    pub is_over: bool,
}

/// How far a head was read.
#[derive(Clone, Copy)]
pub(crate) enum Stage {
    /// Not to the line of names.
    Above,
    /// To its end.
    Below(Clock),
    Refused(HeadRefusal),
}

/// What stands above the rows of a table, as far as it was read.
#[derive(Drop)]
pub struct Head {
    pub(crate) lines: Lines,
    rate: Option<u128>,
    list: Vec<u8>,
    pub(crate) names: Vec<Name>,
    pub(crate) stage: Stage,
    pub(crate) above: u64,
}

impl Head {
    /// A head of which nothing was read.
    pub fn new(alloc: Global) -> Head
        ensures { IsAtTop result }
    {
        Head {
            lines: Lines::new(),
            rate: None,
            list: Vec::new(alloc),
            names: Vec::new(alloc),
            stage: Stage::Above,
            above: 0,
        }
    }

    /// The names of the channels, in the order of their columns. None before the head is over, or
    /// if it is refused.
    pub fn names(&self) -> &[Name]
        ensures { result.now ≡ self.now.names.items }
    {
        self.names.as_slice()
    }

    /// Why no rows are read below this head, if so.
    pub fn fault(&self) -> Option<HeadFault>
        ensures { result ≡ fault_of self.now.stage }
    {
        match self.stage {
            Stage::Above => Some(HeadFault::Unended),
            Stage::Below(_) => None,
            Stage::Refused(refusal) => Some(HeadFault::Refused(refusal)),
        }
    }

    /// Reads on to the end of the head, or of these bytes. After a failure nothing is to be read.
    pub fn read(&mut self, alloc: Global, bytes: &[u8]) -> Result<HeadTaken, AllocError>
        ensures within { IfOk result (λ taken. taken.count ≤ length bytes.now) }
        ensures over { IfOk result (λ taken. taken.is_over ≡ is_over self.new.stage) }
        ensures all { IfOk result (λ taken. IsFalse taken.is_over
            → taken.count ≡ length bytes.now) }
        ensures says { IfOk result (λ taken.
            LeadsOn self.old (take taken.count bytes.now) self.new) }
    {
        let mut count = 0;
        while count < bytes.len() && !self.is_over() {
            let (_, rest) = bytes.split_at(count);
            let next = self.lines.next(rest);
            count += next.count;
            if let Some(number) = next.ended {
                self.hear(alloc, number)?;
            }
        }
        Ok(HeadTaken {
            count,
            is_over: self.is_over(),
        })
    }

    fn is_over(&self) -> bool
        ensures { result ≡ is_over self.now.stage }
    {
        !matches!(self.stage, Stage::Above)
    }

    // A line of this number has ended.
    fn hear(&mut self, alloc: Global, number: u64) -> Result<(), AllocError>
        requires { IsFalse (is_over self.old.stage) }
        ensures { IfOk result (λ _. (more : List ℕ)
            → head_end_by (Some number) self.old more ≡ head_end self.new more) }
    {
        self.take_line(alloc, number)?;
        self.lines.clear();
        Ok(())
    }

    // What a line makes of the head.
    fn take_line(&mut self, alloc: Global, number: u64) -> Result<(), AllocError>
        ensures value { IfOk result (λ _. value_of self.new
            ≡ step (value_of self.old) number self.old.lines.text.items) }
        ensures lines { self.new.lines ≡ self.old.lines }
    {
        let line = text_on(number, self.lines.text());
        if is_remark(line) {
            if let Some(text) = rate_text(line) {
                let rate = rate_of(text);
                self.take_rate(number, rate);
            } else if let Some(list) = list_text(line) {
                self.list = copied(alloc, list)?;
            }
            return Ok(());
        }
        let clock = title_clock(self.rate, line);
        if let Ok(clock) = clock {
            self.names = names_of(alloc, clock, line, self.list.as_slice())?;
        }
        self.take_clock(number, clock);
        Ok(())
    }

    fn take_rate(&mut self, number: u64, rate: Option<u128>)
        ensures value { value_of self.new ≡ remarked (value_of self.old) number rate }
        ensures lines { self.new.lines ≡ self.old.lines }
    {
        match rate {
            Some(_) => self.rate = rate,
            None => {
                self.stage = Stage::Refused(HeadRefusal {
                    line: number,
                    reason: HeadReason::Rate,
                });
            }
        }
    }

    fn take_clock(&mut self, number: u64, clock: Result<Clock, HeadReason>)
        ensures value { value_of self.new ≡ titled_by (value_of self.old) number clock }
        ensures lines { self.new.lines ≡ self.old.lines }
    {
        self.above = number;
        self.stage = match clock {
            Ok(clock) => Stage::Below(clock),
            Err(reason) => Stage::Refused(HeadRefusal {
                line: number,
                reason,
            }),
        };
    }
}

fn copied(alloc: Global, text: &[u8]) -> Result<Vec<u8>, AllocError>
    ensures { IfOk result (λ copy. copy.items ≡ text.now) }
{
    let mut copy = Vec::new(alloc);
    copy.extend_from_slice(text)?;
    Ok(copy)
}

// The text of a line; the first one may begin with a mark.
fn text_on(number: u64, text: &[u8]) -> &[u8]
    ensures { result.now ≡ text_on number text.now }
{
    if number == 1 {
        without_mark(text)
    } else {
        text
    }
}
