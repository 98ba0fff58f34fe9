//! By what rows have their times.

ghost use Rattle.std.specs.Prelude.{◌≡◌};
ghost use Rattle.record_table.specs.Rows.{cells_of, counted_time, step_by, step_time, time_cell, time_of, with_step};

use crate::row::Reason;
use crate::when::{When, when_by_rate, when_of};
use record_cells::{Unit, unquoted};
use record_levels::TimeFault;
use record_text::{after_comma, field_of, number_of};

/// By what rows have their times.
#[derive(Clone, Copy, PartialEq, Eq)]
pub enum Clock {
    /// The first column has them, in this unit.
    Times(Unit),
    /// A row is a sample, of so many millionths a second.
    Rate(u128),
    /// The first column has whole times, and a remark says the rate of samples, in millionths a
    /// second. sigrok cuts the time of one sample to a whole number, and multiplies that. So the
    /// first row is the first sample, and its time is that of one. A time that is not whole is in
    /// this unit.
    Steps(Unit, u128),
}

/// The time of a row, and the whole time of one sample, which is 0 where none was seen.
#[derive(Clone, Copy)]
pub(crate) struct Timed {
    pub(crate) when: When,
    pub(crate) step: u64,
}

impl Clock {
    /// When a row is, where so many stand above it, in which that step was seen.
    pub(crate) fn time_of(self, rows: u64, step: u64, line: &[u8]) -> Result<Timed, Reason>
        ensures { result ≡ time_of self rows step line.now }
    {
        match self {
            Clock::Times(unit) => with_step(step, when_of(unit, time_cell(line))),
            Clock::Rate(rate) => with_step(step, when_by_rate(rows, rate)),
            Clock::Steps(unit, rate) => counted_time(unit, rate, step, time_cell(line)),
        }
    }

    /// The cells of a row that are levels.
    pub(crate) fn cells_of(self, line: &[u8]) -> &[u8]
        ensures { result.now ≡ cells_of self line.now }
    {
        match self {
            Clock::Times(_) | Clock::Steps(..) => after_comma(line),
            Clock::Rate(_) => line,
        }
    }
}

fn time_cell(line: &[u8]) -> &[u8]
    ensures { result.now ≡ time_cell line.now }
{
    unquoted(field_of(line, 0))
}

fn with_step(step: u64, when: Result<When, Reason>) -> Result<Timed, Reason>
    ensures { result ≡ with_step step when }
{
    match when {
        Ok(when) => Ok(Timed { when, step }),
        Err(reason) => Err(reason),
    }
}

// The time of a cell that is whole counts steps.
fn counted_time(unit: Unit, rate: u128, step: u64, cell: &[u8]) -> Result<Timed, Reason>
    ensures { result ≡ counted_time unit rate step cell.now }
{
    match number_of(cell) {
        Some(count) => step_time(rate, step_by(step, count), count),
        None => with_step(step, when_of(unit, cell)),
    }
}

// The first count is one step.
fn step_by(step: u64, count: u64) -> u64
    ensures { result ≡ step_by step count }
{
    if step == 0 { count } else { step }
}

fn step_time(rate: u128, step: u64, count: u64) -> Result<Timed, Reason>
    ensures { result ≡ step_time rate step count }
{
    if step == 0 {
        Err(Reason::NoStep)
    } else if count < step {
        Err(Reason::Time(TimeFault::Back))
    } else {
        with_step(step, when_by_rate(count / step - 1, rate))
    }
}
