//! Samples that are numbers, of which analog channels are chosen, in pieces.

ghost use Rattle.std.specs.Prelude.{◌≡◌, ◌+◌, ◌++◌, ◌<◌, ◌≤◌, ℕ, [], ◌∷◌, IfErr, IfOk, IfSome, IsTrue, List, MatchResult, None, length, take};
ghost use Rattle.record_comtrade.specs.Data.{FaultSays, said};
ghost use Rattle.record_comtrade.specs.Records.{are_numbers};
ghost use Rattle.record_comtrade.specs.Samples.Said.{Ends, Refused};
ghost use Rattle.record_samples.specs.Lines.{heard};
ghost use Rattle.record_samples.specs.Mixed.{step_to};

use crate::lines::Lines;
use record_comtrade::{
    Clock, Config, DataFault, Form, Now, Rate, Reason, SampleFault, Step, Taken, clock_of, last_of,
    mark_of, offset_of, size_of, time_of,
};
use record_levels::Levels;
use std::alloc::{AllocError, Global};

/// Samples as far as they were read, and the levels of the lines.
#[derive(Drop)]
pub(crate) struct Mixed {
    pub(crate) rates: Vec<Rate>,
    pub(crate) clock: Clock,
    pub(crate) form: Form,
    /// Where the digital channels of a sample begin.
    pub(crate) offset: usize,
    /// How many bytes a sample has.
    pub(crate) size: usize,
    pub(crate) lines: Lines,
    /// The beginning of a sample.
    pub(crate) begun: Vec<u8>,
    pub(crate) here: Now,
    pub(crate) refusal: Option<SampleFault>,
    ghost few: { length rates.items ≤ 999 },
    ghost is_begun: { length begun.items < size },
    ghost inside: { offset ≤ size },
}

impl Mixed {
    ghost use Rattle.record_samples.specs.Readers.{MixedLead, mixed_to_come, numbers_plan};
    ghost use Rattle.record_samples.specs.Records.{IsMixedOf};

    /// The samples of a configuration, of which nothing was read.
    pub(crate) fn new(alloc: Global, config: &Config, lines: Lines) -> Result<Mixed, AllocError>
        ensures { IfOk result (λ mixed. IsMixedOf config.now lines mixed) }
    {
        let mut rates = Vec::new(alloc);
        rates.extend_from_slice(config.rates())?;
        Ok(Mixed {
            rates,
            clock: clock_of(config),
            form: config.tail().form,
            offset: offset_of(config),
            size: size_of(config),
            lines,
            begun: Vec::new(alloc),
            here: Now::start(),
            refusal: None,
        })
    }

    /// Reads on to a sample with other levels, or to the end of these bytes.
    pub(crate) fn read(&mut self, bytes: &[u8]) -> Result<Taken, DataFault>
        ensures within { IfOk result (λ taken. taken.count ≤ length bytes.now) }
        ensures some { IfOk result (λ taken. IfSome taken.levels (λ levels. 0 < taken.count)) }
        ensures all { IfOk result (λ taken. taken.levels ≡ None → taken.count ≡ length bytes.now) }
        ensures says { IfOk result (λ taken.
            MixedLead self.old (take taken.count bytes.now) taken.levels self.new) }
        ensures refuses { IfErr result (λ fault. (more : List ℕ)
            → FaultSays fault (mixed_to_come self.old (bytes.now ++ more))) }
    {
        if let Some(fault) = self.refusal {
            return Err(DataFault::Refused(fault));
        }
        let mut count = 0;
        while count < bytes.len() {
            let (_, rest) = bytes.split_at(count);
            let taken = self.next(rest)?;
            count += taken.count;
            if taken.levels.is_some() {
                return Ok(Taken {
                    count,
                    levels: taken.levels,
                });
            }
        }
        Ok(Taken {
            count,
            levels: None,
        })
    }

    /// The samples have ended: the time of the last one in nanoseconds.
    pub(crate) fn end(self) -> Result<u64, SampleFault>
        ensures { MatchResult result
            (λ time. mixed_to_come self [] ≡ Ends time ∷ [])
            (λ fault. mixed_to_come self [] ≡ Refused fault ∷ []) }
    {
        if let Some(fault) = self.refusal {
            return Err(fault);
        }
        let here = self.here;
        if here.is_before(last_of(self.rates.as_slice())) {
            return Err(here.refused(Reason::Last));
        }
        let time = time_of(self.rates.as_slice(), self.clock, here.first, here.here);
        match here.ended(time) {
            Ok(time_ns) => Ok(time_ns),
            Err(fault) => Err(fault),
        }
    }

    // A sample more, or all of these bytes if they end within one.
    fn next(&mut self, bytes: &[u8]) -> Result<Taken, DataFault>
        requires some { 0 < length bytes.now }
        requires goes { self.old.refusal ≡ None }
        ensures within { IfOk result (λ taken. taken.count ≤ length bytes.now) }
        ensures some { IfOk result (λ taken. 0 < taken.count) }
        ensures goes { IfOk result (λ taken. self.new.refusal ≡ None) }
        ensures says { IfOk result (λ taken.
            MixedLead self.old (take taken.count bytes.now) taken.levels self.new) }
        ensures refuses { IfErr result (λ fault. (more : List ℕ)
            → FaultSays fault (mixed_to_come self.old (bytes.now ++ more))) }
    {
        let count = self.room();
        if bytes.len() < count {
            self.begun.extend_from_slice(bytes)?;
            return Ok(Taken {
                count: bytes.len(),
                levels: None,
            });
        }
        let (front, _) = bytes.split_at(count);
        let levels = if self.begun.is_empty() {
            self.hear(front)?
        } else {
            self.hear_open(front)?
        };
        Ok(Taken { count, levels })
    }

    // How many bytes end the sample that was begun.
    fn room(&self) -> usize
        ensures { result + length self.now.begun.items ≡ self.now.size }
    {
        self.size - self.begun.len()
    }

    // The sample that was begun ends with these bytes.
    fn hear_open(&mut self, bytes: &[u8]) -> Result<Option<Levels>, DataFault>
        requires whole { length self.old.begun.items + length bytes.now ≡ self.old.size }
        requires goes { self.old.refusal ≡ None }
        ensures goes { IfOk result (λ levels. self.new.refusal ≡ None) }
        ensures says { IfOk result (λ levels. MixedLead self.old bytes.now levels self.new) }
        ensures refuses { IfErr result (λ fault. (more : List ℕ)
            → FaultSays fault (mixed_to_come self.old (bytes.now ++ more))) }
    {
        let sample = joined(&mut self.begun, bytes)?;
        match self.hear(sample.as_slice()) {
            Ok(levels) => Ok(levels),
            Err(fault) => Err(fault),
        }
    }

    // A whole sample.
    fn hear(&mut self, sample: &[u8]) -> Result<Option<Levels>, DataFault>
        requires whole { length sample.now ≡ self.old.size }
        requires none { self.old.begun.items ≡ [] }
        requires goes { self.old.refusal ≡ None }
        ensures goes { IfOk result (λ levels. self.new.refusal ≡ None) }
        ensures says { IfOk result (λ levels. MixedLead self.old sample.now levels self.new) }
        ensures refuses { IfErr result (λ fault. (more : List ℕ)
            → FaultSays fault (mixed_to_come self.old (sample.now ++ more))) }
    {
        let lines = self.lines.heard(self.form, self.offset, sample);
        let step = self.step_to(&lines, sample);
        self.lines = lines;
        match step {
            Step::Goes(now) => {
                self.here = now;
                Ok(None)
            }
            Step::Says(levels, now) => {
                self.here = now;
                Ok(Some(levels))
            }
            Step::Refuses(fault) => {
                self.refusal = Some(fault);
                Err(DataFault::Refused(fault))
            }
        }
    }

    // What a sample makes of the levels, after which the lines are these.
    fn step_to(&self, after: &Lines, sample: &[u8]) -> Step
        ensures { result ≡ step_to (numbers_plan self.now) self.now.here self.now.lines
            after.now sample.now }
    {
        let now = self.here.counted(mark_of(sample));
        let high = after.levels();
        if self.here.count != 0 && self.lines.levels() == high {
            return Step::Goes(now);
        }
        let time = time_of(self.rates.as_slice(), self.clock, now.first, now.here);
        now.said(high, time)
    }
}

// The bytes of a sample that was begun and goes on so, which is then begun no more.
fn joined(begun: &mut Vec<u8>, bytes: &[u8]) -> Result<Vec<u8>, AllocError>
    ensures items { IfOk result (λ sample. sample.items ≡ begun.old.items ++ bytes.now) }
    ensures none { IfOk result (λ _. begun.new.items ≡ []) }
    ensures few { length begun.new.items ≤ length begun.old.items }
{
    let alloc = *begun.allocator();
    let mut sample = Vec::new(alloc);
    sample.extend_from_slice(begun.as_slice())?;
    sample.extend_from_slice(bytes)?;
    begun.clear();
    Ok(sample)
}
