//! Samples of digital channels, read in pieces.

ghost use Rattle.std.specs.Prelude.{◌≡◌, ℕ, All, List, [], ◌∷◌, ◌++◌, take, length, Some, None, IfOk, IfSome, IfErr, MatchResult, IsTrue, true, false, nat_eq, ◌+◌, ◌<◌, ◌≤◌};
ghost use Rattle.record_comtrade.specs.Samples.{high_of, stays, step};
ghost use Rattle.record_comtrade.specs.Samples.Said.{Ends, Refused};
ghost use Rattle.record_comtrade.specs.Records.{IsDataOf, are_numbers};
ghost use Rattle.record_comtrade.specs.declared.reader.DataFault.TheVariants.{Memory};
ghost use Rattle.record_comtrade.specs.Data.{FaultSays, Leads, plan_of, to_come};

use crate::clock::{Reason, last_of, time_of};
use crate::data::Data;
use crate::layout::{clock_of, offset_of, size_of};
use crate::now::{Now, SampleFault, Step};
use crate::parts::Config;
use crate::sample::{high_of, mark_of};
use record_levels::Levels;
use std::alloc::{AllocError, Global};

/// Why samples are refused.
#[derive(Clone, Copy, PartialEq, Eq)]
pub enum DataFault {
    /// There was no memory.
    Memory,
    /// A sample is.
    Refused(SampleFault),
}

impl From<AllocError> for DataFault {
    ghost from_gives = { λ _ fault. fault ≡ Memory };

    fn from(_: AllocError) -> DataFault {
        DataFault::Memory
    }
}

/// How many bytes were taken, and the levels that they say.
#[derive(Clone, Copy)]
pub struct Taken {
    /// From the front. All of them, if there are no levels.
    pub count: usize,
    /// The levels at the last sample of them, if it is the first one or they are others than before.
    pub levels: Option<Levels>,
}

impl Data {
    /// The samples of a configuration, of which up to five digital channels are chosen by their places
    /// among them, from 0. The levels of the first chosen are the bit of 1.
    pub fn new(alloc: Global, config: &Config, chosen: &[usize]) -> Result<Data, AllocError>
        requires few { length chosen.now ≤ 5 }
        requires places { All (λ place. place < config.now.counts.digitals) chosen.now }
        requires numbers { IsTrue (are_numbers config.now.tail.form) }
        ensures { IfOk result (λ reader. IsDataOf config.now chosen.now reader) }
    {
        let mut rates = Vec::new(alloc);
        rates.extend_from_slice(config.rates.as_slice())?;
        let mut places = Vec::new(alloc);
        places.extend_from_slice(chosen)?;
        Ok(Data {
            rates,
            clock: clock_of(config),
            offset: offset_of(config),
            size: size_of(config),
            chosen: places,
            begun: Vec::new(alloc),
            digital: Vec::new(alloc),
            here: Now::start(),
            refusal: None,
        })
    }

    /// Reads on to a sample with other levels, or to the end of these bytes. What was refused is refused
    /// again at each call. After a failure of memory nothing is to be read.
    pub fn read(&mut self, bytes: &[u8]) -> Result<Taken, DataFault>
        ensures within { IfOk result (λ taken. taken.count ≤ length bytes.now) }
        ensures some { IfOk result (λ taken. IfSome taken.levels (λ levels. 0 < taken.count)) }
        ensures all { IfOk result (λ taken. taken.levels ≡ None → taken.count ≡ length bytes.now) }
        ensures says { IfOk result (λ taken.
            Leads self.old (take taken.count bytes.now) taken.levels self.new) }
        ensures refuses { IfErr result (λ fault. (more : List ℕ)
            → FaultSays fault (to_come self.old (bytes.now ++ more))) }
    {
        if let Some(fault) = self.refusal {
            return Err(DataFault::Refused(fault));
        }
        let mut count = 0;
        while count < bytes.len() {
            let (_, rest) = bytes.split_at(count);
            let taken = self.next(rest)?;
            count += taken.count;
            if taken.levels.is_some() {
                return Ok(Taken {
                    count,
                    levels: taken.levels,
                });
            }
        }
        Ok(Taken {
            count,
            levels: None,
        })
    }

    /// The samples have ended: the time of the last one in nanoseconds, at which the recording ends.
    pub fn end(self) -> Result<u64, SampleFault>
        ensures { MatchResult result
            (λ time. to_come self [] ≡ Ends time ∷ [])
            (λ fault. to_come self [] ≡ Refused fault ∷ []) }
    {
        if let Some(fault) = self.refusal {
            return Err(fault);
        }
        let here = self.here;
        if here.is_before(last_of(self.rates.as_slice())) {
            return Err(here.refused(Reason::Last));
        }
        let time = time_of(self.rates.as_slice(), self.clock, here.first, here.here);
        match here.ended(time) {
            Ok(time_ns) => Ok(time_ns),
            Err(fault) => Err(fault),
        }
    }

    // A sample more, or all of these bytes if they end within one.
    fn next(&mut self, bytes: &[u8]) -> Result<Taken, DataFault>
        requires some { 0 < length bytes.now }
        requires goes { self.old.refusal ≡ None }
        ensures within { IfOk result (λ taken. taken.count ≤ length bytes.now) }
        ensures some { IfOk result (λ taken. 0 < taken.count) }
        ensures goes { IfOk result (λ taken. self.new.refusal ≡ None) }
        ensures says { IfOk result (λ taken.
            Leads self.old (take taken.count bytes.now) taken.levels self.new) }
        ensures refuses { IfErr result (λ fault. (more : List ℕ)
            → FaultSays fault (to_come self.old (bytes.now ++ more))) }
    {
        let count = self.room();
        if bytes.len() < count {
            self.begun.extend_from_slice(bytes)?;
            return Ok(Taken {
                count: bytes.len(),
                levels: None,
            });
        }
        let (front, _) = bytes.split_at(count);
        let levels = if self.begun.is_empty() {
            self.hear(front)?
        } else {
            self.hear_open(front)?
        };
        Ok(Taken { count, levels })
    }

    // How many bytes end the sample that was begun.
    fn room(&self) -> usize
        ensures { result + length self.now.begun.items ≡ self.now.size }
    {
        self.size - self.begun.len()
    }

    // The sample that was begun ends with these bytes.
    fn hear_open(&mut self, bytes: &[u8]) -> Result<Option<Levels>, DataFault>
        requires whole { length self.old.begun.items + length bytes.now ≡ self.old.size }
        requires goes { self.old.refusal ≡ None }
        ensures goes { IfOk result (λ levels. self.new.refusal ≡ None) }
        ensures says { IfOk result (λ levels. Leads self.old bytes.now levels self.new) }
        ensures refuses { IfErr result (λ fault. (more : List ℕ)
            → FaultSays fault (to_come self.old (bytes.now ++ more))) }
    {
        let sample = joined(&mut self.begun, bytes)?;
        match self.hear(sample.as_slice()) {
            Ok(levels) => Ok(levels),
            Err(fault) => Err(fault),
        }
    }

    // A whole sample.
    fn hear(&mut self, sample: &[u8]) -> Result<Option<Levels>, DataFault>
        requires whole { length sample.now ≡ self.old.size }
        requires none { self.old.begun.items ≡ [] }
        requires goes { self.old.refusal ≡ None }
        ensures goes { IfOk result (λ levels. self.new.refusal ≡ None) }
        ensures says { IfOk result (λ levels. Leads self.old sample.now levels self.new) }
        ensures refuses { IfErr result (λ fault. (more : List ℕ)
            → FaultSays fault (to_come self.old (sample.now ++ more))) }
    {
        let (_, digital) = sample.split_at(self.offset);
        if self.is_as_before(digital) {
            self.here = self.here.counted(mark_of(sample));
            return Ok(None);
        }
        let step = self.judged(sample);
        set(&mut self.digital, digital)?;
        match step {
            Step::Goes(now) => {
                self.here = now;
                Ok(None)
            }
            Step::Says(levels, now) => {
                self.here = now;
                Ok(Some(levels))
            }
            Step::Refuses(fault) => {
                self.refusal = Some(fault);
                Err(DataFault::Refused(fault))
            }
        }
    }

    // Whether these are the digital channels of the sample before, as they are of most.
    fn is_as_before(&self, digital: &[u8]) -> bool
        ensures { result ≡ true
            → (nat_eq self.now.here.count 0 ≡ false) × (digital.now ≡ self.now.digital.items) }
    {
        self.here.count > 0 && digital == self.digital.as_slice()
    }

    // What a sample makes of the levels.
    fn judged(&self, sample: &[u8]) -> Step
        requires { length sample.now ≡ self.now.size }
        ensures { result ≡ step (plan_of self.now) self.now.here self.now.digital.items sample.now }
    {
        let (_, digital) = sample.split_at(self.offset);
        let now = self.here.counted(mark_of(sample));
        if self.stays(digital) {
            return Step::Goes(now);
        }
        let chosen = self.chosen.as_slice();
        let high = high_of(chosen, digital);
        let rates = self.rates.as_slice();
        let time = time_of(rates, self.clock, now.first, now.here);
        now.said(high, time)
    }

    // Whether the levels stay with these digital channels.
    fn stays(&self, digital: &[u8]) -> bool
        ensures { result ≡ stays self.now.here.count
            (high_of self.now.chosen.items self.now.digital.items)
            (high_of self.now.chosen.items digital.now) }
    {
        let chosen = self.chosen.as_slice();
        self.here.count > 0 && high_of(chosen, self.digital.as_slice()) == high_of(chosen, digital)
    }
}

// The bytes of a sample that was begun and goes on so, which is then begun no more.
fn joined(begun: &mut Vec<u8>, bytes: &[u8]) -> Result<Vec<u8>, AllocError>
    ensures items { IfOk result (λ sample. sample.items ≡ begun.old.items ++ bytes.now) }
    ensures none { IfOk result (λ _. begun.new.items ≡ []) }
    ensures few { length begun.new.items ≤ length begun.old.items }
{
    let alloc = *begun.allocator();
    let mut sample = Vec::new(alloc);
    sample.extend_from_slice(begun.as_slice())?;
    sample.extend_from_slice(bytes)?;
    begun.clear();
    Ok(sample)
}

// The bytes are those of a text.
fn set(bytes: &mut Vec<u8>, text: &[u8]) -> Result<(), AllocError>
    ensures { IfOk result (λ _. bytes.new.items ≡ text.now) }
{
    bytes.clear();
    bytes.extend_from_slice(text)?;
    Ok(())
}
