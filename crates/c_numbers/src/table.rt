//! The leaps that a reader knows beforehand.

ghost use Rattle.std.specs.Prelude.{◌≡◌, ◌↔◌, ◌≤◌, ◌<◌, [], IsTrue, length, map, min, take};
ghost use Rattle.irig_time.specs.Timelines.{leap_of};
ghost use Rattle.c_numbers.specs.LeapTables.{are_kinds, leap_in, table_in, HasKinds, IsTable, code_of_table};

use crate::fault::table_code;
use arrayvec::ArrayVec;
use irig_time::{LAST_DAY, Leap, Leaps, Mark, TableFault, month_end};

/// A leap second at the end of a day.
#[repr(C)]
#[derive(Clone, Copy, Drop)]
pub struct IrigLeap {
    /// The day, counted from 2000-01-01 as day 0.
    pub day: u32,
    /// 0 is inserted, 1 deleted.
    pub kind: u32,
}

/// The leaps at all month ends up to a day.
#[repr(C)]
#[derive(Clone, Copy, Drop)]
pub struct IrigTable {
    /// The last day of which it speaks.
    pub until: u32,
    /// How many leaps count, 64 at most.
    pub len: u32,
    /// The leaps, the first ones first.
    pub leaps: [IrigLeap; 64],
}

impl Leaps for IrigTable {
    ghost use Rattle.c_numbers.specs.LeapTables.{table_in};

    ghost says = { table_in };

    fn mark(&self, day: u32) -> Mark {
        if day > self.until {
            return Mark::Unspoken;
        }
        if !month_end(day) {
            return Mark::Unspoken;
        }
        Mark::from(leap_on(self.listed(), day))
    }
}

impl IrigTable {
    // The leaps that count.
    fn listed(&self) -> &[IrigLeap]
        ensures leaps { map leap_in result.now ≡ (table_in self.now).leaps }
        ensures few { length result.now ≤ 64 }
        ensures first { result.now ≡ take (min self.now.len 64) self.now.leaps }
    {
        let count = (self.len as usize).min(64);
        &self.leaps[..count]
    }
}

fn leap_on(leaps: &[IrigLeap], day: u32) -> Option<Leap>
    ensures { result ≡ leap_of (map leap_in leaps.now) day }
{
    for leap in leaps {
        if leap.day == day {
            return Some(kind_of(*leap));
        }
    }
    None
}

fn kind_of(leap: IrigLeap) -> Leap
    ensures { result ≡ (leap_in leap).1 }
{
    match leap.kind {
        0 => Leap::Insert,
        _ => Leap::Delete,
    }
}

/// Whether the kind of each leap that counts has a meaning.
pub fn has_kinds(table: &IrigTable) -> bool
    ensures { IsTrue result ↔ HasKinds table.now }
{
    are_kinds(table.listed())
}

fn are_kinds(leaps: &[IrigLeap]) -> bool
    ensures { result ≡ are_kinds leaps.now }
{
    for leap in leaps {
        if leap.kind > 1 {
            return false;
        }
    }
    true
}

/// 0, or the number of the table's first fault.
pub fn table_fault(table: &IrigTable) -> u32
    ensures answer { result ≡ code_of_table table.now }
    ensures table { (result ≡ 0) ↔ IsTable table.now }
{
    if table.until > LAST_DAY {
        return table_code(TableFault::TableEnd);
    }
    if table.len > 64 {
        return table_code(TableFault::TableLong);
    }
    let mut pairs = ArrayVec::new();
    list(&mut pairs, table.listed());
    match irig_time::table_fault(table.until, &pairs) {
        None => 0,
        Some(fault) => table_code(fault),
    }
}

// Into a list that lies with the caller, for the sake of the stack.
fn list(pairs: &mut ArrayVec<(u32, Leap), 64>, leaps: &[IrigLeap])
    requires empty { pairs.old.items ≡ [] }
    requires few { length leaps.now ≤ 64 }
    ensures { pairs.new.items ≡ map leap_in leaps.now }
{
    for leap in leaps {
        pairs.push((leap.day, kind_of(*leap)));
    }
}
