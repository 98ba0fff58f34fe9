//! The levels as they stand, and what a sample makes of them.

ghost use Rattle.std.specs.Prelude.{◌≡◌, ◌<◌, None, MatchResult};
ghost use Rattle.record_comtrade.specs.Samples.{counted, ended_by, fault_of, is_before, next_count, refused, said_by_time, start};
ghost use Rattle.record_comtrade.specs.Samples.Said.{Ends, Refused};

use crate::clock::{Mark, Reason};
use record_levels::{Levels, TimeFault, time_fault};

/// Nanoseconds of 1,000 hours.
const END_NS: u64 = 3_600_000_000_000_000;

/// Why samples are refused, and where.
#[derive(Clone, Copy, PartialEq, Eq)]
pub struct SampleFault {
    /// How many samples there are up to this one.
    pub sample: u64,
    /// What is wrong with it.
    pub reason: Reason,
}

/// The samples so far.
#[derive(Clone, Copy)]
pub struct Now {
    /// How many there were. It stays at 2^64 - 1.
    pub count: u64,
    /// The first of them.
    pub first: Mark,
    /// The last of them.
    pub here: Mark,
    /// The time of the last levels that were said, in nanoseconds after the first sample.
    pub levels_ns: Option<u64>,
}

/// What a sample makes of them.
#[derive(Clone, Copy)]
pub enum Step {
    /// The levels stay, and the samples are these now.
    Goes(Now),
    /// These are the levels from here on.
    Says(Levels, Now),
    /// The sample is refused.
    Refuses(SampleFault),
}

impl Now {
    /// Before the first sample.
    pub fn start() -> Now
        ensures { result ≡ start }
    {
        let none = Mark { number: 0, time: 0 };
        Now {
            count: 0,
            first: none,
            here: none,
            levels_ns: None,
        }
    }

    /// How many samples there are with one more. It stays at 2^64 - 1.
    pub fn next_count(self) -> u64
        ensures { result ≡ next_count self }
    {
        if self.count < u64::MAX {
            self.count + 1
        } else {
            self.count
        }
    }

    /// With a sample more.
    pub fn counted(self, here: Mark) -> Now
        ensures { result ≡ counted self here }
    {
        Now {
            count: self.next_count(),
            first: if self.count == 0 { here } else { self.first },
            here,
            levels_ns: self.levels_ns,
        }
    }

    /// What these levels are at that time in nanoseconds, which may have a fault: a change, or the
    /// refusal of the last sample. The first line has the bit of 1.
    pub fn said(self, high: u8, time_ns: Result<u128, Reason>) -> Step
        ensures { result ≡ said_by_time self high time_ns }
    {
        match time_ns {
            Ok(time_ns) => match self.fault_of(time_ns) {
                Some(fault) => Step::Refuses(self.refused(Reason::Time(fault))),
                None => {
                    let time_ns = time_ns as u64;
                    let levels = Levels { time_ns, high };
                    let levels_ns = Some(time_ns);
                    Step::Says(levels, Now { levels_ns, ..self })
                }
            },
            Err(reason) => Step::Refuses(self.refused(reason)),
        }
    }

    /// When the recording ends, in nanoseconds, if it goes on to that time; or why it does not.
    pub fn ended(self, time_ns: Result<u128, Reason>) -> Result<u64, SampleFault>
        ensures { MatchResult result
            (λ time. ended_by self time_ns ≡ Ends time)
            (λ fault. ended_by self time_ns ≡ Refused fault) }
    {
        match time_ns {
            Ok(time_ns) => match self.fault_of(time_ns) {
                Some(fault) => Err(self.refused(Reason::Time(fault))),
                None => Ok(time_ns as u64),
            },
            Err(reason) => Err(self.refused(reason)),
        }
    }

    /// Whether there are fewer samples, and none with that number.
    pub fn is_before(self, last: u64) -> bool
        ensures { result ≡ is_before self last }
    {
        self.count.max(u64::from(self.here.number)) < last.max(1)
    }

    /// A fault of the last sample.
    pub fn refused(self, reason: Reason) -> SampleFault
        ensures { result ≡ refused self reason }
    {
        SampleFault {
            sample: self.count,
            reason,
        }
    }

    // Why a recording does not go on with a time.
    fn fault_of(self, time_ns: u128) -> Option<TimeFault>
        ensures fault { result ≡ fault_of self time_ns }
        ensures few { result ≡ None → time_ns < 3600000000000000 }
    {
        if time_ns >= u128::from(END_NS) {
            Some(TimeFault::Beyond)
        } else {
            let come_to = self.levels_ns.unwrap_or(0);
            time_fault(come_to, self.levels_ns, time_ns as u64)
        }
    }
}
