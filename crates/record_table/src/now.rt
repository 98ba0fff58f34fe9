//! The levels as they stand, and what a row makes of them.

ghost use Rattle.std.specs.Prelude.{◌≡◌, IsSome};
ghost use Rattle.record_table.specs.Changes.{HasLevels, counted, due, gone_on, heard, heard_at, heard_since, since, start, start_by, with_high};
ghost use Rattle.record_text.specs.Lines.{next_number};

use crate::row::{Reason, Row, Stand};
use crate::when::{END_NS, When};
use record_levels::{Levels, TimeFault, time_fault};

/// Why a table is refused below its names, and where.
#[derive(Clone, Copy, PartialEq, Eq)]
pub struct Fault {
    /// The line, from 1 at the top of the table.
    pub line: u64,
    /// What is wrong with it.
    pub reason: Reason,
}

/// The levels as they stand.
#[derive(Clone, Copy)]
pub(crate) struct Now {
    /// How many rows there were.
    pub(crate) rows: u64,
    /// The whole time of one sample, or 0 if none was seen.
    pub(crate) step: u64,
    /// How long before the time of 0 the recording begins.
    pub(crate) start_ns: u64,
    /// How the lines stood at the last row.
    pub(crate) stand: Stand,
    pub(crate) time_ns: u64,
    pub(crate) high: u8,
    /// Whether the levels at this time are still to be said.
    pub(crate) is_due: bool,
    /// The time of the last levels that were others than before.
    pub(crate) levels_ns: Option<u64>,
}

/// What a row makes of them.
#[derive(Clone, Copy)]
pub(crate) enum Step {
    Goes(Now),
    Says(Levels, Now),
    Refuses(Fault),
}

impl Now {
    /// Before the first row.
    pub(crate) fn start() -> Now
        ensures { result ≡ start }
    {
        Now {
            rows: 0,
            step: 0,
            start_ns: 0,
            stand: Stand::start(),
            time_ns: 0,
            high: 0,
            is_due: false,
            levels_ns: None,
        }
    }

    /// The levels of this time, if they are still to be said.
    pub(crate) fn due(self) -> Option<Levels>
        ensures { result ≡ due self }
    {
        if self.is_due {
            Some(Levels {
                time_ns: self.time_ns,
                high: self.high,
            })
        } else {
            None
        }
    }

    /// What a row on this line makes of the levels.
    pub(crate) fn hear(self, line: u64, row: Result<Row, Reason>) -> Step
        ensures step { result ≡ heard self line row }
        ensures some { HasLevels result }
    {
        match row {
            Err(reason) => Step::Refuses(Fault { line, reason }),
            Ok(row) => {
                let now = self.counted(row);
                now.hear_since(line, row.stand.high, since(now.start_ns, row.when))
            }
        }
    }

    fn counted(self, row: Row) -> Now
        ensures { result ≡ counted self row }
    {
        Now {
            rows: next_number(self.rows),
            step: row.step,
            stand: row.stand,
            start_ns: if self.rows == 0 {
                start_by(row.when)
            } else {
                self.start_ns
            },
            ..self
        }
    }

    fn hear_since(self, line: u64, high: u8, time_ns: Result<u64, TimeFault>) -> Step
        ensures step { result ≡ heard_since self line high time_ns }
        ensures some { HasLevels result }
    {
        match time_ns {
            Err(fault) => Step::Refuses(Fault {
                line,
                reason: Reason::Time(fault),
            }),
            Ok(time_ns) => {
                let fault = time_fault(self.time_ns, self.levels_ns, time_ns);
                self.hear_at(line, high, time_ns, fault)
            }
        }
    }

    fn hear_at(self, line: u64, high: u8, time_ns: u64, fault: Option<TimeFault>) -> Step
        ensures step { result ≡ heard_at self line high time_ns fault }
        ensures some { HasLevels result }
    {
        match fault {
            Some(fault) => Step::Refuses(Fault {
                line,
                reason: Reason::Time(fault),
            }),
            None => self.go_on(high, time_ns),
        }
    }

    fn go_on(self, high: u8, time_ns: u64) -> Step
        ensures step { result ≡ gone_on self high time_ns }
        ensures some { HasLevels result }
    {
        if self.is_due && self.time_ns < time_ns {
            let levels = Levels {
                time_ns: self.time_ns,
                high: self.high,
            };
            let next = Now {
                time_ns,
                is_due: false,
                ..self
            };
            Step::Says(levels, next.with_high(high))
        } else {
            Step::Goes(Now { time_ns, ..self }.with_high(high))
        }
    }

    fn with_high(self, high: u8) -> Now
        ensures now { result ≡ with_high self high }
        ensures some { IsSome result.levels_ns }
    {
        if self.levels_ns.is_some() && self.high == high {
            self
        } else {
            Now {
                high,
                is_due: true,
                levels_ns: Some(self.time_ns),
                ..self
            }
        }
    }
}

fn start_by(when: When) -> u64
    ensures { result ≡ start_by when }
{
    match when {
        When::Before(time_ns) => time_ns,
        When::After(_) => 0,
    }
}

// How long after the beginning a time is.
fn since(start_ns: u64, when: When) -> Result<u64, TimeFault>
    ensures { result ≡ since start_ns when }
{
    match when {
        When::Before(time_ns) if time_ns <= start_ns => Ok(start_ns - time_ns),
        When::Before(_) => Err(TimeFault::Back),
        When::After(time_ns) => match start_ns.checked_add(time_ns) {
            Some(sum) if sum < END_NS => Ok(sum),
            _ => Err(TimeFault::Beyond),
        },
    }
}

fn next_number(number: u64) -> u64
    ensures { result ≡ next_number number }
{
    if number < u64::MAX {
        number + 1
    } else {
        number
    }
}
