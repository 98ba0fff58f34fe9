//! The unit of times.

ghost use Rattle.std.specs.Prelude.{◌≡◌, ◌≤◌};
ghost use Rattle.record_cells.specs.Units.{bracketed, column_of, is_time, power_of, unit_called, unit_of, unit_told};

use crate::cells::before;

/// The unit of the times of a table.
#[derive(Clone, Copy, PartialEq, Eq)]
pub enum Unit {
    /// A second.
    Second,
    /// A thousandth of a second.
    Millisecond,
    /// A millionth.
    Microsecond,
    /// A thousandth of that.
    Nanosecond,
    /// A millionth of that.
    Picosecond,
    /// A thousandth of a picosecond.
    Femtosecond,
}

impl Unit {
    /// How many femtoseconds it has, as a power of 10.
    pub fn power(self) -> u64
        ensures power { result ≡ power_of self }
        ensures few { result ≤ 15 }
    {
        match self {
            Unit::Second => 15,
            Unit::Millisecond => 12,
            Unit::Microsecond => 9,
            Unit::Nanosecond => 6,
            Unit::Picosecond => 3,
            Unit::Femtosecond => 0,
        }
    }
}

/// What the first column of a table is.
#[derive(Clone, Copy, PartialEq, Eq)]
pub enum Column {
    /// A channel.
    Levels,
    /// Times.
    Times(Unit),
    /// Times in a unit that is not known.
    Unknown,
}

/// What a column is by its name.
pub fn column_of(name: &[u8]) -> Column
    ensures { result ≡ column_of name.now }
{
    match unit_called(name) {
        Some(unit) => Column::Times(unit),
        None if is_time(name) => unit_told(bracketed(name)),
        None => Column::Levels,
    }
}

// The unit whose name is the column's.
fn unit_called(name: &[u8]) -> Option<Unit>
    ensures { result ≡ unit_called name.now }
{
    if name.eq_ignore_ascii_case(b"seconds") {
        Some(Unit::Second)
    } else if name.eq_ignore_ascii_case(b"milliseconds") {
        Some(Unit::Millisecond)
    } else if name.eq_ignore_ascii_case(b"microseconds") {
        Some(Unit::Microsecond)
    } else if name.eq_ignore_ascii_case(b"nanoseconds") {
        Some(Unit::Nanosecond)
    } else if name.eq_ignore_ascii_case(b"picoseconds") {
        Some(Unit::Picosecond)
    } else if name.eq_ignore_ascii_case(b"femtoseconds") {
        Some(Unit::Femtosecond)
    } else {
        None
    }
}

// Whether a name begins with the word time.
fn is_time(name: &[u8]) -> bool
    ensures { result ≡ is_time name.now }
{
    name.len() >= 4 && name.split_at(4).0.eq_ignore_ascii_case(b"time")
}

// The first bracket, and what stands in it.
fn bracketed(name: &[u8]) -> &[u8]
    ensures { result.now ≡ bracketed name.now }
{
    let (_, behind) = name.split_at(before(b'[', b'(', name));
    behind.split_at(before(b']', b')', behind)).0
}

fn unit_told(bracketed: &[u8]) -> Column
    ensures { result ≡ unit_told bracketed.now }
{
    match bracketed {
        [] => Column::Times(Unit::Second),
        [_, unit @ ..] => match unit_of(unit) {
            Some(unit) => Column::Times(unit),
            None => Column::Unknown,
        },
    }
}

// The unit of this name. The micro sign is one of two of Unicode.
fn unit_of(name: &[u8]) -> Option<Unit>
    ensures { result ≡ unit_of name.now }
{
    match name {
        b"s" => Some(Unit::Second),
        b"ms" => Some(Unit::Millisecond),
        b"us" | [194, 181, b's'] | [206, 188, b's'] => Some(Unit::Microsecond),
        b"ns" => Some(Unit::Nanosecond),
        b"ps" => Some(Unit::Picosecond),
        b"fs" => Some(Unit::Femtosecond),
        _ => None,
    }
}
