//! The line of names.

ghost use Rattle.std.specs.Prelude.{◌≡◌, ◌≤◌, ◌-◌, ◌+◌, IfOk, length, true, false};
ghost use Rattle.record_table.specs.Titles.{all_are, bytes_of, clock_of, first_place, is_nameless, names_from, names_in, numbered_from, title_clock, title_names};

use crate::clock::Clock;
use crate::name::{Name, add, add_numbered};
use record_cells::{Column, column_of, columns_in, unquoted};
use record_text::{LONGEST_LINE, field_of};
use std::alloc::{AllocError, Global};

/// Why a table is refused for what stands above its rows, in the order in which faults are
/// answered.
#[derive(Clone, Copy, PartialEq, Eq)]
pub enum HeadReason {
    /// A remark says a rate of samples that is none, as `; Samplerate: fast`.
    Rate,
    /// The line of names has 1,024 bytes or more.
    Long,
    /// The unit of the first column, in brackets, is none of s, ms, us, ns, ps and fs.
    Unit,
    /// The first column has no times by its name, and no remark above says the rate of samples.
    NoTimes,
    /// No channel has a name, as where no comma parts the columns.
    NoChannel,
}

/// Why a table is refused for what stands above its rows, and where.
#[derive(Clone, Copy, PartialEq, Eq)]
pub struct HeadRefusal {
    /// The line, from 1 at the top of the table.
    pub line: u64,
    /// What is wrong with it.
    pub reason: HeadReason,
}

/// By what rows have their times, below this line of names and a remark of this rate.
pub(crate) fn title_clock(rate: Option<u128>, line: &[u8]) -> Result<Clock, HeadReason>
    ensures { result ≡ title_clock rate line.now }
{
    if line.len() >= LONGEST_LINE {
        return Err(HeadReason::Long);
    }
    match clock_of(column_of(unquoted(field_of(line, 0))), rate) {
        Ok(clock) if names_in(clock, line) == 0 => Err(HeadReason::NoChannel),
        Ok(clock) => Ok(clock),
        Err(reason) => Err(reason),
    }
}

fn clock_of(column: Column, rate: Option<u128>) -> Result<Clock, HeadReason>
    ensures { result ≡ clock_of column rate }
{
    match column {
        Column::Unknown => Err(HeadReason::Unit),
        Column::Times(unit) => Ok(match rate {
            Some(rate) => Clock::Steps(unit, rate),
            None => Clock::Times(unit),
        }),
        Column::Levels => match rate {
            Some(rate) => Ok(Clock::Rate(rate)),
            None => Err(HeadReason::NoTimes),
        },
    }
}

// The first place at which a channel may stand.
fn first_place(clock: Clock) -> usize
    ensures place { result ≡ first_place clock }
    ensures few { result ≤ 1 }
{
    match clock {
        Clock::Times(_) | Clock::Steps(..) => 1,
        Clock::Rate(_) => 0,
    }
}

/// How many channels have names.
pub(crate) fn names_in(clock: Clock, line: &[u8]) -> usize
    ensures count { result ≡ names_in clock line.now }
    ensures few { result ≤ length line.now + 1 }
{
    columns_in(line).saturating_sub(first_place(clock))
}

/// The names of the channels of a line, where a remark lists those names.
pub(crate) fn names_of(
    alloc: Global,
    clock: Clock,
    line: &[u8],
    list: &[u8],
) -> Result<Vec<Name>, AllocError>
    ensures { IfOk result (λ names. bytes_of names.items ≡ title_names clock line.now list.now) }
{
    let names = names_at(alloc, first_place(clock), names_in(clock, line), line)?;
    if !is_nameless(names.as_slice()) {
        Ok(names)
    } else if !list.is_empty() && columns_in(list) == names.len() {
        names_at(alloc, 0, columns_in(list), list)
    } else {
        numbered(alloc, names.len())
    }
}

// The names of so many cells from a place on.
fn names_at(alloc: Global, first: usize, count: usize, line: &[u8]) -> Result<Vec<Name>, AllocError>
    requires { first + count ≤ length line.now + 2 }
    ensures { IfOk result (λ names. bytes_of names.items ≡ names_from first count line.now) }
{
    let mut names = Vec::new(alloc);
    for at in 0..count {
        add(alloc, &mut names, unquoted(field_of(line, first + at)))?;
    }
    Ok(names)
}

// Whether all names are sigrok's word for each, or empty.
fn is_nameless(names: &[Name]) -> bool
    ensures { result ≡ is_nameless (bytes_of names.now) }
{
    all_are(names, b"logic") || all_are(names, b"")
}

fn all_are(names: &[Name], word: &[u8]) -> bool
    ensures { result ≡ all_are (bytes_of names.now) word.now }
{
    for name in names {
        if name.bytes.as_slice() != word {
            return false;
        }
    }
    true
}

// So many names of a D and a number, from 0.
fn numbered(alloc: Global, count: usize) -> Result<Vec<Name>, AllocError>
    ensures { IfOk result (λ names. bytes_of names.items ≡ numbered_from 0 count) }
{
    let mut names = Vec::new(alloc);
    for at in 0..count {
        add_numbered(alloc, &mut names, at)?;
    }
    Ok(names)
}
