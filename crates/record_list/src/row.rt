//! What a row says.

ghost use Rattle.std.specs.Prelude.{◌≡◌, ◌≤◌, ◌<◌, length};
ghost use Rattle.record_list.specs.Rows.{below_word, row_by, row_of, span_ahead, span_at, span_back, span_by, span_of};

use crate::now::Now;
use record_cells::columns_in;
use record_levels::TimeFault;
use record_text::{LONGEST_LINE, field_of, number_of};

/// Why a row is refused.
#[derive(Clone, Copy, PartialEq, Eq)]
pub enum Reason {
    /// Its line has 1,024 bytes or more.
    Long,
    /// It has so many columns, and not three.
    Columns(usize),
    /// Its port is no number below 2^64.
    Port,
    /// Its time is no number of microseconds below 2^64.
    Rise,
    /// Its width is no number of microseconds below 2^32.
    Width,
    /// Its time lies back by more than a second, or by a counter of 32 bits ahead by more than 4,000
    /// seconds; or its pulse ends 1,000 hours after the counter's 0, or later.
    Time(TimeFault),
    /// More than 2,048 pulses would be kept that begin or end within a second.
    Many,
    /// No row stands below the line of names.
    NoRow,
}

/// A row as it is written.
#[derive(Clone, Copy)]
pub(crate) struct Row {
    pub(crate) port: u64,
    pub(crate) rise_us: u64,
    pub(crate) width_us: u64,
}

/// From when to when a pulse lasts.
#[derive(Clone, Copy)]
pub(crate) struct Span {
    pub(crate) from_ns: u64,
    pub(crate) to_ns: u64,
}

// What a word of 32 bits has no room for.
const WORD: u64 = 4_294_967_296;
// How far a row lies back at most, and ahead by a counter that may have wrapped.
const BACK_US: u64 = 1_000_000;

const AHEAD_US: u64 = 4_000_000_000;
// All times lie before.
const END_US: u64 = 3_600_000_000_000;

/// What a line says.
pub(crate) fn row_of(line: &[u8]) -> Result<Row, Reason>
    ensures { result ≡ row_of line.now }
{
    if line.len() >= LONGEST_LINE {
        return Err(Reason::Long);
    }
    let columns = columns_in(line);
    if columns != 3 {
        return Err(Reason::Columns(columns));
    }
    row_by(
        number_of(field_of(line, 0)),
        number_of(field_of(line, 1)),
        below_word(number_of(field_of(line, 2))),
    )
}

fn row_by(port: Option<u64>, rise: Option<u64>, width: Option<u64>) -> Result<Row, Reason>
    ensures { result ≡ row_by port rise width }
{
    match (port, rise, width) {
        (None, _, _) => Err(Reason::Port),
        (Some(_), None, _) => Err(Reason::Rise),
        (Some(_), Some(_), None) => Err(Reason::Width),
        (Some(port), Some(rise_us), Some(width_us)) => Ok(Row {
            port,
            rise_us,
            width_us,
        }),
    }
}

fn below_word(number: Option<u64>) -> Option<u64>
    ensures { result ≡ below_word number }
{
    match number {
        Some(number) if number < WORD => Some(number),
        _ => None,
    }
}

/// From when to when the pulse of a row lasts, by the newest before it.
pub(crate) fn span_of(now: Now, row: Row) -> Result<Span, Reason>
    ensures { result ≡ span_of now row }
{
    if now.is_begun {
        span_by(now.newest_ns / 1_000, row)
    } else {
        span_at(row.rise_us, row.width_us)
    }
}

// Whatever has no room in 32 bits is of a counter that does not wrap.
fn span_by(newest_us: u64, row: Row) -> Result<Span, Reason>
    requires { newest_us ≤ 18446744073709551 }
    ensures { result ≡ span_by newest_us row }
{
    if row.rise_us < WORD {
        let ahead_us = (row.rise_us + (WORD - newest_us % WORD)) % WORD;
        span_ahead(newest_us, ahead_us, row.width_us)
    } else if row.rise_us.saturating_add(BACK_US) < newest_us {
        Err(Reason::Time(TimeFault::Back))
    } else {
        span_at(row.rise_us, row.width_us)
    }
}

// A row that lies so far ahead by a counter, or what the counter lacks back.
fn span_ahead(newest_us: u64, ahead_us: u64, width_us: u64) -> Result<Span, Reason>
    requires newest { newest_us ≤ 18446744073709551 }
    requires ahead { ahead_us < 4294967296 }
    ensures { result ≡ span_ahead newest_us ahead_us width_us }
{
    if ahead_us <= AHEAD_US {
        span_at(newest_us + ahead_us, width_us)
    } else if WORD - ahead_us <= BACK_US {
        span_back(newest_us, WORD - ahead_us, width_us)
    } else {
        Err(Reason::Time(TimeFault::Back))
    }
}

fn span_at(from_us: u64, width_us: u64) -> Result<Span, Reason>
    ensures { result ≡ span_at from_us width_us }
{
    span_back(from_us, 0, width_us)
}

// What lies before the counter's 0 is left out.
fn span_back(newest_us: u64, back_us: u64, width_us: u64) -> Result<Span, Reason>
    ensures { result ≡ span_back newest_us back_us width_us }
{
    let to_us = newest_us.saturating_add(width_us);
    if to_us < END_US {
        Ok(Span {
            from_ns: newest_us.saturating_sub(back_us) * 1_000,
            to_ns: to_us.saturating_sub(back_us) * 1_000,
        })
    } else {
        Err(Reason::Time(TimeFault::Beyond))
    }
}
