//! Samples in text, in pieces.

ghost use Rattle.std.specs.Prelude.{◌≡◌, ◌∷◌, ◌+◌, ◌++◌, ◌<◌, ◌≤◌, ℕ, [], IfErr, IfOk, IfSome, IsFalse, IsTrue, List, None, length, take};
ghost use Rattle.record_comtrade.specs.Data.{FaultSays, said};
ghost use Rattle.record_text.specs.Lines.{Line, next_number};
ghost use Rattle.record_samples.specs.Rows.{begins_rest, end_in};

use crate::course::{Course, LONGEST_ROW};
use crate::fields::end_in;
use crate::lines::Lines;
use crate::samples::End;
use record_comtrade::{Config, DataFault, RowField, SampleFault, Taken};
use record_levels::Levels;
use std::alloc::{AllocError, Global};

/// A text as far as it was read: the line that is open, with its number from 1, and the samples
/// before it.
#[derive(Drop)]
pub(crate) struct Rows {
    pub(crate) begun: Vec<u8>,
    pub(crate) number: u64,
    pub(crate) is_after_cr: bool,
    pub(crate) course: Course,
    ghost few: { length begun.items ≤ 67108864 },
}

impl Rows {
    ghost use Rattle.record_samples.specs.Readers.{IsEnd, RowsLead, closed_says, course_says, open_line, rows_to_come};
    ghost use Rattle.record_samples.specs.Records.{IsRowsOf};

    /// The samples of a configuration, of which nothing was read.
    pub(crate) fn new(
        alloc: Global,
        config: &Config,
        chosen: &[usize],
        mixed: Option<Lines>,
    ) -> Result<Rows, AllocError>
        ensures { IfOk result (λ rows. IsRowsOf config.now chosen.now mixed rows) }
    {
        let course = Course::new(alloc, config, chosen, mixed)?;
        Ok(Rows {
            begun: Vec::new(alloc),
            number: 1,
            is_after_cr: false,
            course,
        })
    }

    /// Reads on to a sample with other levels, or to the end of these bytes.
    pub(crate) fn read(&mut self, bytes: &[u8]) -> Result<Taken, DataFault>
        ensures within { IfOk result (λ taken. taken.count ≤ length bytes.now) }
        ensures some { IfOk result (λ taken. IfSome taken.levels (λ levels. 0 < taken.count)) }
        ensures all { IfOk result (λ taken. taken.levels ≡ None → taken.count ≡ length bytes.now) }
        ensures says { IfOk result (λ taken.
            RowsLead self.old (take taken.count bytes.now) taken.levels self.new) }
        ensures refuses { IfErr result (λ fault. (more : List ℕ)
            → FaultSays fault (rows_to_come self.old (bytes.now ++ more))) }
    {
        if let Some(fault) = self.course.refusal {
            return Err(DataFault::Refused(fault));
        }
        let mut count = 0;
        while count < bytes.len() {
            let (_, rest) = bytes.split_at(count);
            let taken = self.next(rest)?;
            count += taken.count;
            if taken.levels.is_some() {
                return Ok(Taken {
                    count,
                    levels: taken.levels,
                });
            }
        }
        Ok(Taken {
            count,
            levels: None,
        })
    }

    /// The text has ended: what the line says that is open, and when the recording ends.
    pub(crate) fn end(mut self) -> Result<End, DataFault>
        ensures { IsEnd result (rows_to_come self []) }
    {
        if let Some(fault) = self.course.refusal {
            return Err(DataFault::Refused(fault));
        }
        let levels = self.last()?;
        match self.course.end() {
            Ok(time_ns) => Ok(End { levels, time_ns }),
            Err(fault) => Err(DataFault::Refused(fault)),
        }
    }

    // What the line says that is open.
    fn last(&mut self) -> Result<Option<Levels>, DataFault>
        requires goes { self.old.course.refusal ≡ None }
        ensures says { IfOk result (λ levels. rows_to_come self.old []
            ≡ said levels ++ course_says self.new.course []) }
        ensures refuses { IfErr result (λ fault. FaultSays fault (rows_to_come self.old [])) }
    {
        let line = self.begun.as_slice();
        if line.is_empty() {
            return Ok(None);
        }
        match self.course.hear(self.number, line) {
            Ok(levels) => Ok(levels),
            Err(fault) => Err(fault),
        }
    }

    // A line more, or all of these bytes if none ends among them.
    fn next(&mut self, bytes: &[u8]) -> Result<Taken, DataFault>
        requires some { 0 < length bytes.now }
        requires goes { self.old.course.refusal ≡ None }
        ensures within { IfOk result (λ taken. taken.count ≤ length bytes.now) }
        ensures some { IfOk result (λ taken. 0 < taken.count) }
        ensures goes { IfOk result (λ taken. self.new.course.refusal ≡ None) }
        ensures says { IfOk result (λ taken.
            RowsLead self.old (take taken.count bytes.now) taken.levels self.new) }
        ensures refuses { IfErr result (λ fault. (more : List ℕ)
            → FaultSays fault (rows_to_come self.old (bytes.now ++ more))) }
    {
        if self.is_rest(bytes) {
            self.is_after_cr = false;
            return Ok(Taken {
                count: 1,
                levels: None,
            });
        }
        let count = end_in(bytes);
        if count < bytes.len() {
            let is_cr = bytes[count] == b'\r';
            let levels = match self.close(bytes.split_at(count).0, is_cr) {
                Ok(levels) => levels,
                Err(fault) => return Err(fault),
            };
            return Ok(Taken {
                count: count + 1,
                levels,
            });
        }
        self.open(bytes)?;
        Ok(Taken {
            count,
            levels: None,
        })
    }

    // The LF of a CR LF.
    fn is_rest(&self, bytes: &[u8]) -> bool
        ensures { result ≡ begins_rest self.now.is_after_cr bytes.now }
    {
        self.is_after_cr && matches!(bytes, [b'\n', ..])
    }

    // Bytes within a line.
    fn open(&mut self, bytes: &[u8]) -> Result<(), DataFault>
        requires within { end_in bytes.now ≡ length bytes.now }
        requires some { 0 < length bytes.now }
        requires goes { self.old.course.refusal ≡ None }
        ensures goes { IfOk result (λ _. self.new.course.refusal ≡ None) }
        ensures says { IfOk result (λ _. RowsLead self.old bytes.now None self.new) }
        ensures refuses { IfErr result (λ fault. (more : List ℕ)
            → FaultSays fault (rows_to_come self.old (bytes.now ++ more))) }
    {
        let fits = extend(&mut self.begun, bytes)?;
        if !fits {
            return Err(self.course.refuse(self.number, RowField::Line));
        }
        self.is_after_cr = false;
        Ok(())
    }

    // The last bytes of a line, and whether a CR ends it.
    fn close(&mut self, front: &[u8], is_cr: bool) -> Result<Option<Levels>, DataFault>
        requires goes { self.old.course.refusal ≡ None }
        ensures goes { IfOk result (λ _. self.new.course.refusal ≡ None) }
        ensures says { IfOk result (λ levels. (more : List ℕ)
            → closed_says self.old front.now is_cr more ≡ said levels ++ rows_to_come self.new more) }
        ensures refuses { IfErr result (λ fault. (more : List ℕ)
            → FaultSays fault (closed_says self.old front.now is_cr more)) }
    {
        let number = self.number;
        let levels = self.hear(front)?;
        self.number = next_number(number);
        self.is_after_cr = is_cr;
        Ok(levels)
    }

    // The line that is open goes on with these bytes, and is whole then.
    fn hear(&mut self, front: &[u8]) -> Result<Option<Levels>, DataFault>
        requires goes { self.old.course.refusal ≡ None }
        ensures goes { IfOk result (λ _. self.new.course.refusal ≡ None) }
        ensures none { IfOk result (λ _. self.new.begun.items ≡ []) }
        ensures says { IfOk result (λ levels. (lines : List Line)
            → course_says self.old.course (open_line self.old front.now ∷ lines)
            ≡ said levels ++ course_says self.new.course lines) }
        ensures refuses { IfErr result (λ fault. (lines : List Line)
            → FaultSays fault (course_says self.old.course (open_line self.old front.now ∷ lines))) }
    {
        let begun = self.begun.as_slice();
        if begun.is_empty() {
            return match self.course.hear(self.number, front) {
                Ok(levels) => Ok(levels),
                Err(fault) => Err(fault),
            };
        }
        let fits = extend(&mut self.begun, front)?;
        if !fits {
            return Err(self.course.refuse(self.number, RowField::Line));
        }
        match self.course.hear(self.number, self.begun.as_slice()) {
            Ok(levels) => {
                self.begun.clear();
                Ok(levels)
            }
            Err(fault) => Err(fault),
        }
    }
}

fn next_number(number: u64) -> u64
    ensures { result ≡ next_number number }
{
    if number < u64::MAX {
        number + 1
    } else {
        number
    }
}

// Whether a line that goes on with these bytes has room, and has them then.
fn extend(line: &mut Vec<u8>, bytes: &[u8]) -> Result<bool, AllocError>
    requires { length line.old.items ≤ 67108864 }
    ensures few { length line.new.items ≤ 67108864 }
    ensures items { IfOk result (λ fits. IsTrue fits → line.new.items ≡ line.old.items ++ bytes.now) }
    ensures long { IfOk result (λ fits. IsFalse fits
        → 67108864 < length line.old.items + length bytes.now) }
{
    if bytes.len() > LONGEST_ROW - line.len() {
        return Ok(false);
    }
    line.extend_from_slice(bytes)?;
    Ok(true)
}
