//! The leaps that a reader knows beforehand.

ghost use Rattle.std.specs.Prelude.{◌≡◌, ◌≤◌, [], Some, None, length, MatchResult};
ghost use Rattle.irig_time.specs.declared.second.TheConstants.{LAST_DAY};
ghost use Rattle.irig_time.specs.Tables.{TableValue, table, table_mark, entry_fault, first_entry_fault, table_fault};

use crate::calendar::month_end;
use crate::leap::{Leap, leap_on};
use crate::mark::Mark;
use crate::second::{FIRST_DAY, LAST_DAY};
use arrayvec::ArrayVec;
use std::marker::Model;

/// Leaps that are known beforehand, at month ends up to some day.
///
/// A [`LeapTable`] is one; whoever keeps a table in another way says here what it says.
pub trait Leaps {
    // The table that it stands for.
    ghost says: { Self → TableValue };

    /// What is known of the leap at the end of the day, at most [`LAST_DAY`]: unspoken if it is
    /// not a month's last or lies past the table's end.
    fn mark(&self, day: u32) -> Mark
        requires { day ≤ LAST_DAY }
        ensures { result ≡ table_mark (says self.now) day };
}

/// Why there is no such table, in the order in which faults are answered.
#[derive(Clone, Copy, PartialEq, Eq)]
pub enum TableFault {
    /// The table ends after [`LAST_DAY`].
    TableEnd,
    /// There are more than 64 leaps.
    TableLong,
    /// A leap's day is not a month's last day from 1 to the table's end.
    TableDay,
    /// A leap's day stands earlier in the list.
    TableTwice,
}

/// The leaps at all month ends up to a day, at most 64. It takes no memory.
#[derive(Drop)]
pub struct LeapTable {
    until: u32,
    leaps: ArrayVec<(u32, Leap), 64>,
}

impl Model for LeapTable {
    ghost use Rattle.irig_time.specs.Tables.{TableValue, table};
    ghost use Rattle.std.specs.Prelude.{◌≤◌, length};

    ghost Value = { TableValue };

    ghost view = { λ t. table t.until t.leaps.items };

    ghost invariant = { λ t. length t.leaps.items ≤ 64 };
}

impl LeapTable {
    /// The table that ends with the day `until` and has these leaps, each with its day.
    ///
    /// `TableEnd`, then `TableLong`; then for each leap in the list's order `TableDay` and
    /// `TableTwice`.
    pub fn new(until: u32, leaps: &[(u32, Leap)]) -> Result<LeapTable, TableFault>
        ensures { MatchResult result
            (λ t. (table_fault until leaps.now ≡ None) × (t ≡ table until leaps.now))
            (λ e. table_fault until leaps.now ≡ Some e) }
    {
        if let Some(fault) = table_fault(until, leaps) {
            return Err(fault);
        }
        Ok(LeapTable {
            until,
            leaps: copied(leaps),
        })
    }

    /// The table that speaks of no day: it ends with day 0.
    pub fn empty() -> LeapTable
        ensures { result ≡ table 0 [] }
    {
        LeapTable {
            until: 0,
            leaps: ArrayVec::new(),
        }
    }

    /// An equal table.
    pub fn copy(&self) -> LeapTable
        ensures { result ≡ self.now }
    {
        LeapTable {
            until: self.until,
            leaps: copied(&self.leaps),
        }
    }

    /// The last day of which the table speaks; 0, which is not served, if it speaks of none.
    pub fn until(&self) -> u32
        ensures { result ≡ self.now.until }
    {
        self.until
    }

    /// What the table says of the end of the day, at most [`LAST_DAY`]: unspoken if it is not a
    /// month's last or lies past the table's end.
    pub fn mark(&self, day: u32) -> Mark
        requires { day ≤ LAST_DAY }
        ensures { result ≡ table_mark self.now day }
    {
        if day > self.until {
            return Mark::Unspoken;
        }
        if !month_end(day) {
            return Mark::Unspoken;
        }
        Mark::from(leap_on(&self.leaps, day))
    }
}

impl Leaps for LeapTable {
    ghost says = { λ t. t };

    fn mark(&self, day: u32) -> Mark {
        LeapTable::mark(self, day)
    }
}

/// The fault that [`LeapTable::new`] answers of these, if any.
pub fn table_fault(until: u32, leaps: &[(u32, Leap)]) -> Option<TableFault>
    ensures { result ≡ table_fault until leaps.now }
{
    if until > LAST_DAY {
        return Some(TableFault::TableEnd);
    }
    if leaps.len() > 64 {
        return Some(TableFault::TableLong);
    }
    first_entry_fault(until, leaps)
}

fn first_entry_fault(until: u32, leaps: &[(u32, Leap)]) -> Option<TableFault>
    requires { until ≤ LAST_DAY }
    ensures { result ≡ first_entry_fault until [] leaps.now }
{
    for i in 0..leaps.len() {
        if let Some(fault) = entry_fault(until, &leaps[..i], leaps[i].0) {
            return Some(fault);
        }
    }
    None
}

/// What is wrong with a day of a table up to `until`, behind these entries: `TableDay` if it is
/// outside the days served, after `until` or not a month's last, `TableTwice` if an entry has it.
// Each test by itself, as in the definition.
pub fn entry_fault(until: u32, before: &[(u32, Leap)], day: u32) -> Option<TableFault>
    requires { until ≤ LAST_DAY }
    ensures { result ≡ entry_fault until before.now day }
{
    if day < FIRST_DAY {
        return Some(TableFault::TableDay);
    }
    if day > until {
        return Some(TableFault::TableDay);
    }
    if !month_end(day) {
        return Some(TableFault::TableDay);
    }
    if leap_on(before, day).is_some() {
        Some(TableFault::TableTwice)
    } else {
        None
    }
}

fn copied(leaps: &[(u32, Leap)]) -> ArrayVec<(u32, Leap), 64>
    requires { length leaps.now ≤ 64 }
    ensures { result.items ≡ leaps.now }
{
    let mut copy = ArrayVec::new();
    for leap in leaps {
        copy.push(*leap);
    }
    copy
}
