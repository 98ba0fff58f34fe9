//! The levels as they stand, and what a word makes of them.

ghost use Rattle.std.specs.Prelude.{◌≡◌, ◌<◌, ◌^◌};
ghost use Rattle.record_vcd.specs.Meanings.{HasPlace};
ghost use Rattle.record_vcd.specs.Changes.{due, gone_on, heard, start, time_by, with_level};

use crate::meaning::Meaning;
use record_levels::{Levels, TimeFault, time_fault};

/// Why a dump is refused below its head.
#[derive(Clone, Copy, PartialEq, Eq)]
pub enum Reason {
    /// A word that begins with `#` is no number below 2^64, or one whose time does not fit.
    BadTime,
    /// A time that no recording goes on with.
    Time(TimeFault),
}

/// Why a dump is refused below its head, and where.
#[derive(Clone, Copy, PartialEq, Eq)]
pub struct Fault {
    /// The line of the word, from 1 at the top of the dump.
    pub line: u64,
    /// What is wrong with it.
    pub reason: Reason,
}

/// The levels as they stand.
#[derive(Clone, Copy)]
pub(crate) struct Now {
    pub(crate) time_ns: u64,
    pub(crate) high: u8,
    /// Whether a level was said at this time.
    pub(crate) is_due: bool,
    /// The time of the last level that was said.
    pub(crate) levels_ns: Option<u64>,
}

/// What a word makes of them.
#[derive(Clone, Copy)]
pub(crate) enum Step {
    Goes(Now),
    Says(Levels, Now),
    Refuses(Fault),
}

impl Now {
    /// At the beginning: all low, at the time 0.
    pub(crate) fn start() -> Now
        ensures { result ≡ start }
    {
        Now {
            time_ns: 0,
            high: 0,
            is_due: false,
            levels_ns: None,
        }
    }

    /// The levels of this time, if one was said.
    pub(crate) fn due(self) -> Option<Levels>
        ensures { result ≡ due self }
    {
        if self.is_due {
            Some(Levels {
                time_ns: self.time_ns,
                high: self.high,
            })
        } else {
            None
        }
    }

    /// What a word on this line makes of the levels.
    pub(crate) fn hear(self, line: u64, meaning: Meaning) -> Step
        requires { HasPlace meaning }
        ensures { result ≡ heard self line meaning }
    {
        match meaning {
            Meaning::Time(next_ns) => {
                let fault = time_fault(self.time_ns, self.levels_ns, next_ns);
                self.go_on(line, fault, next_ns)
            }
            Meaning::BadTime => Step::Refuses(Fault {
                line,
                reason: Reason::BadTime,
            }),
            Meaning::Level { place, is_high } => Step::Goes(Now {
                high: with_level(self.high, place, is_high),
                is_due: true,
                levels_ns: Some(self.time_ns),
                ..self
            }),
            Meaning::Nothing => Step::Goes(self),
        }
    }

    fn go_on(self, line: u64, fault: Option<TimeFault>, next_ns: u64) -> Step
        ensures { result ≡ time_by self line fault next_ns }
    {
        match fault {
            Some(fault) => Step::Refuses(Fault {
                line,
                reason: Reason::Time(fault),
            }),
            None => self.go_to(next_ns),
        }
    }

    fn go_to(self, next_ns: u64) -> Step
        ensures { result ≡ gone_on self next_ns }
    {
        if self.is_due && self.time_ns < next_ns {
            Step::Says(
                Levels {
                    time_ns: self.time_ns,
                    high: self.high,
                },
                Now {
                    time_ns: next_ns,
                    is_due: false,
                    ..self
                },
            )
        } else {
            Step::Goes(Now {
                time_ns: next_ns,
                ..self
            })
        }
    }
}

fn with_level(high: u8, place: u8, is_high: bool) -> u8
    requires { place < 5 }
    ensures { result ≡ with_level high place is_high }
{
    let bit = bit_of(place);
    if is_high {
        high | bit
    } else {
        high & (255 - bit)
    }
}

fn bit_of(place: u8) -> u8
    requires { place < 5 }
    ensures { result ≡ 2 ^ place }
{
    1 << place
}
