//! Rows, one after another.

ghost use Rattle.std.specs.Prelude.{◌≡◌, ◌+◌, ◌∷◌, ◌++◌, ◌≤◌, [], IfNone, IfOk, IfSome, IfErr, List, MatchResult, None, length};
ghost use Rattle.record_text.specs.Lines.{Line};
ghost use Rattle.record_comtrade.specs.Data.{FaultSays, said};
ghost use Rattle.record_comtrade.specs.declared.reader.DataFault.TheVariants.{Refused as IsRefused};
ghost use Rattle.record_comtrade.specs.Samples.{next_count};
ghost use Rattle.record_comtrade.specs.Samples.Said.{Ends, Refused};
ghost use Rattle.record_samples.specs.Rows.{fields_in, from_field, is_blank, levels_in, levels_of, line_says, lines_after, row_fault, row_of, step_of};

use crate::channels::Channels;
use crate::fields::{cut, fields_in};
use crate::lines::Lines;
use crate::row::{Row, number_by, time_by};
use record_comtrade::{
    Clock, Config, DataFault, Mark, Now, Rate, Reason, RowFault, RowField, SampleFault, Step,
    clock_of, last_of, time_of,
};
use record_levels::Levels;
use record_text::{field_of, trimmed};
use std::alloc::{AllocError, Global};

/// The most bytes of a line.
pub(crate) const LONGEST_ROW: usize = 67_108_864;

/// Samples in rows as far as they were read.
#[derive(Drop)]
pub(crate) struct Course {
    pub(crate) rates: Vec<Rate>,
    pub(crate) clock: Clock,
    /// How many fields stand before the digital ones.
    pub(crate) offset: usize,
    /// How many fields a row has at least.
    pub(crate) fields: usize,
    pub(crate) channels: Channels,
    /// The lines, if some of them are on analog channels.
    pub(crate) mixed: Option<Lines>,
    pub(crate) here: Now,
    pub(crate) refusal: Option<SampleFault>,
    ghost few: { length rates.items ≤ 999 },
    ghost places: { offset ≤ 2000000 },
}

impl Course {
    ghost use Rattle.record_samples.specs.Records.{IsCourseOf};
    ghost use Rattle.record_samples.specs.Readers.{IsAfter, course_says, plan_of, row_says};

    /// Those of a configuration, of which nothing was read.
    pub(crate) fn new(
        alloc: Global,
        config: &Config,
        chosen: &[usize],
        mixed: Option<Lines>,
    ) -> Result<Course, AllocError>
        ensures { IfOk result (λ course. IsCourseOf config.now chosen.now mixed course) }
    {
        let counts = config.counts();
        let mut rates = Vec::new(alloc);
        rates.extend_from_slice(config.rates())?;
        let offset = 2 + counts.analogs as usize;
        Ok(Course {
            rates,
            clock: clock_of(config),
            offset,
            fields: offset + counts.digitals as usize,
            channels: Channels::new(alloc, chosen)?,
            mixed,
            here: Now::start(),
            refusal: None,
        })
    }

    /// A whole line, with its number: the levels that it says.
    pub(crate) fn hear(&mut self, number: u64, line: &[u8]) -> Result<Option<Levels>, DataFault>
        requires goes { self.old.refusal ≡ None }
        ensures goes { IfOk result (λ levels. self.new.refusal ≡ None) }
        ensures says { IfOk result (λ levels. (lines : List Line)
            → course_says self.old (record { text = line.now; number = number } ∷ lines)
            ≡ said levels ++ course_says self.new lines) }
        ensures refuses { IfErr result (λ fault. (lines : List Line)
            → FaultSays fault (course_says self.old (record { text = line.now; number = number } ∷ lines))) }
    {
        let (before, digital) = cut(line, self.offset);
        match self.says(line, before, digital) {
            Ok(Some(row)) => match self.take(row, line, digital) {
                Ok(levels) => Ok(levels),
                Err(fault) => Err(fault),
            },
            Ok(None) => Ok(None),
            Err(field) => Err(self.refuse(number, field)),
        }
    }

    /// A line can't be read.
    pub(crate) fn refuse(&mut self, number: u64, field: RowField) -> DataFault
        ensures { result ≡ IsRefused (row_fault self.old.here number field) }
    {
        let reason = Reason::Row(RowFault {
            line: number,
            field,
        });
        let fault = SampleFault {
            sample: self.here.next_count(),
            reason,
        };
        self.refusal = Some(fault);
        DataFault::Refused(fault)
    }

    /// The samples have ended: when the recording ends, in nanoseconds.
    pub(crate) fn end(&self) -> Result<u64, SampleFault>
        ensures { MatchResult result
            (λ time. course_says self.now [] ≡ Ends time ∷ [])
            (λ fault. course_says self.now [] ≡ Refused fault ∷ []) }
    {
        if let Some(fault) = self.refusal {
            return Err(fault);
        }
        let here = self.here;
        if here.is_before(last_of(self.rates.as_slice())) {
            return Err(here.refused(Reason::Last));
        }
        let time = time_of(self.rates.as_slice(), self.clock, here.first, here.here);
        match here.ended(time) {
            Ok(time_ns) => Ok(time_ns),
            Err(fault) => Err(fault),
        }
    }

    // What a line says, whose digital fields are these, after so many others.
    fn says(&self, line: &[u8], before: usize, digital: &[u8]) -> Result<Option<Row>, RowField>
        requires text { digital.now ≡ from_field self.now.offset line.now }
        requires count { before + fields_in digital.now ≡ fields_in line.now }
        requires few { before ≤ 2000000 }
        ensures says { result ≡ line_says (plan_of self.now) self.now.fields
            (next_count self.now.here) self.now.mixed line.now }
        ensures levels { IfOk result (λ row. IfSome row (λ row. IfNone self.now.mixed
            (levels_of self.now.channels.chosen.items digital.now ≡ Ok row.high))) }
    {
        if line.len() > LONGEST_ROW {
            return Err(RowField::Line);
        }
        if is_blank(line) {
            return Ok(None);
        }
        match self.row_of(line, before, digital) {
            Ok(row) => Ok(Some(row)),
            Err(field) => Err(field),
        }
    }

    fn row_of(&self, line: &[u8], before: usize, digital: &[u8]) -> Result<Row, RowField>
        requires text { digital.now ≡ from_field self.now.offset line.now }
        requires count { before + fields_in digital.now ≡ fields_in line.now }
        requires few { before ≤ 2000000 }
        ensures row { result ≡ row_of (plan_of self.now) self.now.fields
            (next_count self.now.here) self.now.mixed line.now }
        ensures levels { IfOk result (λ row. IfNone self.now.mixed
            (levels_of self.now.channels.chosen.items digital.now ≡ Ok row.high)) }
    {
        let Some(number) = number_by(self.here.next_count(), field_of(line, 0)) else {
            return Err(RowField::Number);
        };
        let Some(time) = time_by(field_of(line, 1)) else {
            return Err(RowField::Time);
        };
        match self.levels_in(line, before, digital) {
            Ok(high) => Ok(Row {
                mark: Mark { number, time },
                high,
            }),
            Err(field) => Err(field),
        }
    }

    // The levels on a line, whose digital fields are these.
    fn levels_in(&self, line: &[u8], before: usize, digital: &[u8]) -> Result<u8, RowField>
        requires text { digital.now ≡ from_field self.now.offset line.now }
        requires count { before + fields_in digital.now ≡ fields_in line.now }
        requires few { before ≤ 2000000 }
        ensures levels { result ≡ levels_in (plan_of self.now) self.now.fields
            self.now.mixed line.now }
        ensures digital { IfOk result (λ high. IfNone self.now.mixed
            (levels_of self.now.channels.chosen.items digital.now ≡ Ok high)) }
    {
        let Some(lines) = &self.mixed else {
            return self.channels.levels_in(before, digital, self.fields);
        };
        if before + fields_in(digital) < self.fields {
            return Err(RowField::Few);
        }
        match lines.heard_row(self.offset, line) {
            Ok(lines) => Ok(lines.levels()),
            Err(field) => Err(field),
        }
    }

    // A sample of this line, which has these digital fields.
    fn take(&mut self, row: Row, line: &[u8], digital: &[u8]) -> Result<Option<Levels>, DataFault>
        requires goes { self.old.refusal ≡ None }
        requires levels { IfNone self.old.mixed
            (levels_of self.old.channels.chosen.items digital.now ≡ Ok row.high) }
        ensures goes { IfOk result (λ levels. self.new.refusal ≡ None) }
        ensures says { IfOk result (λ levels. (lines : List Line)
            → row_says self.old row (lines_after (plan_of self.old) self.old.mixed line.now) lines
            ≡ said levels ++ course_says self.new lines) }
        ensures refuses { IfErr result (λ fault. (lines : List Line) → FaultSays fault
            (row_says self.old row (lines_after (plan_of self.old) self.old.mixed line.now) lines)) }
    {
        let step = self.step(row);
        self.learn(row.high, line, digital)?;
        match step {
            Step::Goes(now) => {
                self.here = now;
                Ok(None)
            }
            Step::Says(levels, now) => {
                self.here = now;
                Ok(Some(levels))
            }
            Step::Refuses(fault) => {
                self.refusal = Some(fault);
                Err(DataFault::Refused(fault))
            }
        }
    }

    // The last sample has these levels, and is on this line with these digital fields.
    fn learn(&mut self, high: u8, line: &[u8], digital: &[u8]) -> Result<(), AllocError>
        requires { IfNone self.old.mixed
            (levels_of self.old.channels.chosen.items digital.now ≡ Ok high) }
        ensures mixed { IfOk result (λ _. self.new.mixed
            ≡ lines_after (plan_of self.old) self.old.mixed line.now) }
        ensures high { IfOk result (λ _. self.new.channels.high ≡ high) }
        ensures same { IsAfter self.old self.new }
    {
        let Some(lines) = self.mixed else {
            return self.channels.learn(digital, high);
        };
        if let Ok(after) = lines.heard_row(self.offset, line) {
            self.mixed = Some(after);
        }
        self.channels.set(high);
        Ok(())
    }

    // What it makes of the levels.
    fn step(&self, row: Row) -> Step
        ensures { result ≡ step_of (plan_of self.now) self.now.here self.now.channels.high row }
    {
        let now = self.here.counted(row.mark);
        if self.here.count != 0 && self.channels.high == row.high {
            return Step::Goes(now);
        }
        let time = time_of(self.rates.as_slice(), self.clock, now.first, now.here);
        now.said(row.high, time)
    }
}

fn is_blank(line: &[u8]) -> bool
    ensures { result ≡ is_blank line.now }
{
    trimmed(line).is_empty()
}
