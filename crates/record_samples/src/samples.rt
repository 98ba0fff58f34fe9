//! Samples in either form.

ghost use Rattle.std.specs.Prelude.{◌≡◌, ◌++◌, ◌<◌, ◌≤◌, ℕ, [], All, IfErr, IfOk, IfSome, List, None, length, take};
ghost use Rattle.record_comtrade.specs.Data.{FaultSays};
ghost use Rattle.record_samples.specs.Readers.{IsEnd, Leads, to_come};
ghost use Rattle.record_samples.specs.Records.{IsSamplesOf};
ghost use Rattle.record_samples.specs.Records.Chosen.{OfDigitals, OfLines};

use crate::lines::Lines;
use crate::mixed::Mixed;
use crate::rows::Rows;
use record_comtrade::{Config, Data, DataFault, Taken};
use record_levels::Levels;
use std::alloc::{AllocError, Global};

/// What is said at the end of a recording.
#[derive(Clone, Copy)]
pub struct End {
    /// The levels at the last sample, if it stands on a line of a text without an end, and if it is
    /// the first one or they are others than before.
    pub levels: Option<Levels>,
    /// The time of the last sample, at which the recording ends, in nanoseconds after the first.
    pub time_ns: u64,
}

/// Samples as far as they were read: numbers, or rows of a text.
#[derive(Drop)]
pub struct Samples {
    kind: Kind,
}

// What they are.
#[derive(Drop)]
enum Kind {
    OfNumbers(Data),
    OfMixed(Mixed),
    OfRows(Rows),
}

impl Samples {
    /// The samples of a configuration, of which up to five digital channels are chosen by their
    /// places among them, from 0. The levels of the first chosen are the bit of 1.
    pub fn new(alloc: Global, config: &Config, chosen: &[usize]) -> Result<Samples, AllocError>
        requires few { length chosen.now ≤ 5 }
        requires places { All (λ place. place < config.now.counts.digitals) chosen.now }
        ensures { IfOk result (λ samples. IsSamplesOf config.now (OfDigitals chosen.now) samples) }
    {
        let kind = if config.tail().form.are_numbers() {
            Kind::OfNumbers(Data::new(alloc, config, chosen)?)
        } else {
            Kind::OfRows(Rows::new(alloc, config, chosen, None)?)
        };
        Ok(Samples { kind })
    }

    /// The samples of a configuration, of which these lines are read, which may be on analog
    /// channels. Digital channels alone are read faster by [`Samples::new`].
    pub fn of_lines(alloc: Global, config: &Config, lines: Lines) -> Result<Samples, AllocError>
        ensures { IfOk result (λ samples. IsSamplesOf config.now (OfLines lines) samples) }
    {
        let kind = if config.tail().form.are_numbers() {
            Kind::OfMixed(Mixed::new(alloc, config, lines)?)
        } else {
            Kind::OfRows(Rows::new(alloc, config, &[], Some(lines))?)
        };
        Ok(Samples { kind })
    }

    /// Reads on to a sample with other levels, or to the end of these bytes. What was refused is
    /// refused again at each call. After a failure of memory nothing is to be read.
    pub fn read(&mut self, bytes: &[u8]) -> Result<Taken, DataFault>
        ensures within { IfOk result (λ taken. taken.count ≤ length bytes.now) }
        ensures some { IfOk result (λ taken. IfSome taken.levels (λ levels. 0 < taken.count)) }
        ensures all { IfOk result (λ taken. taken.levels ≡ None → taken.count ≡ length bytes.now) }
        ensures says { IfOk result (λ taken.
            Leads self.old (take taken.count bytes.now) taken.levels self.new) }
        ensures refuses { IfErr result (λ fault. (more : List ℕ)
            → FaultSays fault (to_come self.old (bytes.now ++ more))) }
    {
        match &mut self.kind {
            Kind::OfNumbers(numbers) => numbers.read(bytes),
            Kind::OfMixed(mixed) => mixed.read(bytes),
            Kind::OfRows(rows) => rows.read(bytes),
        }
    }

    /// The samples have ended: the levels at the last one, if they were not said yet, and its time.
    /// So it is where the last line of a text has no end.
    pub fn end(self) -> Result<End, DataFault>
        ensures { IsEnd result (to_come self []) }
    {
        match self.kind {
            Kind::OfNumbers(numbers) => match numbers.end() {
                Ok(time_ns) => Ok(End {
                    levels: None,
                    time_ns,
                }),
                Err(fault) => Err(DataFault::Refused(fault)),
            },
            Kind::OfMixed(mixed) => match mixed.end() {
                Ok(time_ns) => Ok(End {
                    levels: None,
                    time_ns,
                }),
                Err(fault) => Err(DataFault::Refused(fault)),
            },
            Kind::OfRows(rows) => rows.end(),
        }
    }
}
