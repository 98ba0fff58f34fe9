//! When a sample was.

ghost use Rattle.std.specs.Prelude.{◌≡◌, ◌<◌, ◌≤◌, length};
ghost use Rattle.record_comtrade.specs.Samples.{last_of};
ghost use Rattle.record_comtrade.specs.Times.{all_steps, end_of, have_steps, part_fs, time_by_own, time_by_rates, time_fs, time_of};

use crate::parts::Rate;
use record_levels::TimeFault;

/// Where a sample stands: its number and its own time.
#[derive(Clone, Copy, PartialEq, Eq)]
pub struct Mark {
    /// Of the sample.
    pub number: u32,
    /// In units of its own; 2^32 - 1 if it has none.
    pub time: u32,
}

/// The unit of samples' own times.
#[derive(Clone, Copy, PartialEq, Eq)]
pub struct Clock {
    /// What a unit is multiplied by, in millionths.
    pub(crate) multiple: u64,
    /// Whether a unit is a nanosecond; else it is a microsecond.
    pub(crate) is_fine: bool,
}

/// Why a sample is refused.
#[derive(Clone, Copy, PartialEq, Eq)]
pub enum Reason {
    /// It has no time of its own, and a rate is 0.
    NoTime,
    /// Its time is none with which a recording goes on.
    Time(TimeFault),
    /// It is the last, and the configuration says that there are more.
    Last,
    /// It stands in a row of a text that can't be read.
    Row(RowFault),
}

/// A row that can't be read.
#[derive(Clone, Copy, PartialEq, Eq)]
pub struct RowFault {
    /// Its line in the text of the samples, from 1.
    pub line: u64,
    /// What of it.
    pub field: RowField,
}

/// What of a row can't be read.
#[derive(Clone, Copy, PartialEq, Eq)]
pub enum RowField {
    /// The line is too long: it has more than 67,108,864 bytes.
    Line,
    /// The first field, the number of the sample, is neither empty nor digits of a number below
    /// 2^32; or it is empty, and there are 2^32 samples or more.
    Number,
    /// The second field, the sample's time, is neither empty nor digits of a number below 2^32 - 1.
    Time,
    /// There are fewer fields than the two and one for each channel.
    Few,
    /// The field of the digital channel at this place among them, from 0, is neither 0 nor 1.
    Level(usize),
    /// The field of the analog channel at this place among them, from 0, is neither missing nor a
    /// decimal number less than 1,000,000,000 off 0.
    Value(usize),
}

/// When a sample was, in nanoseconds after the first; or that it has no time, or an earlier one.
pub fn time_of(rates: &[Rate], clock: Clock, first: Mark, here: Mark) -> Result<u128, Reason>
    requires few { length rates.now ≤ 999 }
    ensures { result ≡ time_of rates.now clock first here }
{
    if have_steps(rates) {
        time_by_rates(rates, first.number, here.number)
    } else {
        time_by_own(clock, first.time, here.time)
    }
}

fn time_by_rates(rates: &[Rate], first: u32, here: u32) -> Result<u128, Reason>
    requires few { length rates.now ≤ 999 }
    ensures { result ≡ time_by_rates rates.now first here }
{
    if here < first {
        Err(Reason::Time(TimeFault::Back))
    } else {
        Ok(time_fs(rates, first, here) / 1_000_000)
    }
}

fn time_by_own(clock: Clock, first: u32, here: u32) -> Result<u128, Reason>
    ensures { result ≡ time_by_own clock first here }
{
    if here == u32::MAX {
        Err(Reason::NoTime)
    } else if here < first {
        Err(Reason::Time(TimeFault::Back))
    } else {
        let time = u128::from(here - first) * u128::from(clock.multiple);
        Ok(if clock.is_fine {
            time / 1_000_000
        } else {
            time / 1_000
        })
    }
}

fn have_steps(rates: &[Rate]) -> bool
    ensures { result ≡ have_steps rates.now }
{
    !rates.is_empty() && all_steps(rates)
}

fn all_steps(rates: &[Rate]) -> bool
    ensures { result ≡ all_steps rates.now }
{
    for rate in rates {
        if rate.millionths == 0 {
            return false;
        }
    }
    true
}

// From one sample to another in femtoseconds.
fn time_fs(rates: &[Rate], from: u32, to: u32) -> u128
    requires few { length rates.now ≤ 999 }
    ensures { result ≡ time_fs rates.now from to }
{
    let mut time = 0u128;
    let mut here = u64::from(from);
    for (at, rate) in rates.iter().enumerate() {
        let end = end_of(rate, rates.len() - (at + 1), u64::from(to));
        time += part_fs(end.saturating_sub(here), rate.millionths);
        here = here.max(rate.last);
    }
    time
}

fn end_of(rate: &Rate, left: usize, to: u64) -> u64
    ensures end { result ≡ end_of rate.now left to }
    ensures few { result ≤ to }
{
    if left == 0 { to } else { to.min(rate.last) }
}

fn part_fs(steps: u64, millionths: u64) -> u128
    requires few { steps < 4294967296 }
    ensures part { result ≡ part_fs steps millionths }
    ensures few { result ≤ 4294967296000000000000000000000 }
{
    if millionths == 0 {
        0
    } else {
        u128::from(steps) * 1_000_000_000_000_000_000_000 / u128::from(millionths)
    }
}

/// The number of the last sample of the last rate, or 0 where there are no rates.
pub fn last_of(rates: &[Rate]) -> u64
    ensures { result ≡ last_of rates.now }
{
    let mut last = 0;
    for rate in rates {
        last = rate.last;
    }
    last
}
