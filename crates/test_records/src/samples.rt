//! Samples in rows of a text, in records of three editions. What is expected is that of
//! `tools/tests/test_comtrade.py`, where another implementation reads them.

use record_comtrade::{Config, ConfigText, DataFault, Reason, RowField};
use record_levels::Levels;
use record_samples::Samples;
use std::alloc::{AllocError, Global};
use std::test::Fail;

// Of 1991, at 4 kHz: a channel of volts, of which one number is missing, and two digital ones. A byte ends
// the file.
const OLD: &[u8] =
    b"Bay 7,12\n3,1A,2D\n1,IRIG V,,,V,0.5,-1,0,-32767,32767\n1,IRIG1,0\n2,IRIG2,1\n60\n1\n4000,4\n11/24/26,09:30:00.250000\n11/24/26,09:30:00.250500\nASCII\n";

const OLD_ROWS: &[u8] =
    b"     1,         0,    -4, 0, 1\n     2,       250,     6, 1, 1\n     3,       500,      , 1, 0\n     4,       750,    16, 0, 1\n\x1a";

// Of 1999: blanks round fields, and 1,000 and then 500 samples a second.
const NEW: &[u8] =
    b" Bay 7 , recorder , 1999\n 2 , 0A , 2D\n 1 , IRIG1 , , , 0\n 2 , , , , 0\n 50\n 2\n 1000 , 2\n 500 , 4\n 24/11/2026 , 09:30:00.25\n 24/11/2026 , 09:30:00.25\n ascii\n 1\n";

const NEW_ROWS: &[u8] = b"1,0,0,0\r\n2,1000, 1 , 0\r\n3,3000,1,1\r\n4,,0,1\r\n";

// Of 2013 without a rate: by times in nanoseconds, each three units of them.
const FREE: &[u8] =
    b"Bay 7,recorder,2013\n2,0A,2D\n1,IRIG1,,,0\n2,IRIG2,,,0\n50\n0\n0,3\n24/11/2026,15:00:00.123456789\n24/11/2026,15:00:00.123456789\nASCII\n3\n+5h30,x\nB,3\n";

fn config_of(alloc: Global, bytes: &[u8]) -> Option<Config> {
    let mut text = ConfigText::new(alloc);
    if text.read(alloc, bytes).is_err() {
        return None;
    }
    match text.end(alloc) {
        Ok(config) => Some(config),
        Err(_) => None,
    }
}

fn push_levels(text: &mut String, levels: Option<Levels>) -> Result<(), AllocError> {
    match levels {
        Some(levels) => write!(text, "{} {}\n", levels.time_ns, levels.high),
        None => Ok(()),
    }
}

fn push_fault(text: &mut String, fault: DataFault) -> Result<(), AllocError> {
    match fault {
        DataFault::Memory => Err(AllocError),
        DataFault::Refused(fault) => match fault.reason {
            Reason::Row(row) => {
                let field = match row.field {
                    RowField::Line => 0,
                    RowField::Number => 1,
                    RowField::Time => 2,
                    RowField::Few => 3,
                    RowField::Level(place) | RowField::Value(place) => place.saturating_add(4),
                };
                write!(text, "refused {} {} {field}\n", fault.sample, row.line)
            }
            Reason::NoTime => write!(text, "no time {}\n", fault.sample),
            Reason::Time(_) => write!(text, "time {}\n", fault.sample),
            Reason::Last => write!(text, "last {}\n", fault.sample),
        },
    }
}

// Whether all of these bytes were taken.
fn take(samples: &mut Samples, text: &mut String, bytes: &[u8]) -> Result<bool, AllocError> {
    let mut rest = bytes;
    for _call in 0..=bytes.len() {
        if rest.is_empty() {
            break;
        }
        match samples.read(rest) {
            Ok(taken) => {
                push_levels(text, taken.levels)?;
                rest = rest.split_at(taken.count).1;
            }
            Err(fault) => {
                push_fault(text, fault)?;
                return Ok(false);
            }
        }
    }
    Ok(true)
}

fn push_end(text: &mut String, samples: Samples) -> Result<(), AllocError> {
    match samples.end() {
        Ok(end) => {
            push_levels(text, end.levels)?;
            write!(text, "end {}\n", end.time_ns)
        }
        Err(fault) => push_fault(text, fault),
    }
}

// What the first two digital channels say, read in two pieces, of which the first has so many bytes.
fn said_of(
    alloc: Global,
    configuration: &[u8],
    rows: &[u8],
    count: usize,
) -> Result<String, AllocError> {
    let mut text = String::new(alloc);
    let Some(config) = config_of(alloc, configuration) else {
        return Ok(text);
    };
    if config.counts().digitals < 2 || rows.len() < count {
        return Ok(text);
    }
    let mut samples = Samples::new(alloc, &config, &[0, 1])?;
    let (first, second) = rows.split_at(count);
    if take(&mut samples, &mut text, first)? && take(&mut samples, &mut text, second)? {
        push_end(&mut text, samples)?;
    }
    Ok(text)
}

#[test]
fn rows_of_1991_end_with_a_byte_of_their_own(rt: HostRuntime) -> Result<(), Fail> {
    let text = said_of(rt.alloc(), OLD, OLD_ROWS, 0)?;
    assert!(rt; text.as_str() == "0 2\n250000 3\n500000 1\n750000 2\nend 750000\n");
    Ok(())
}

#[test]
fn rows_of_1999_are_cut_anywhere(rt: HostRuntime) -> Result<(), Fail> {
    for count in 0..=NEW_ROWS.len() {
        let text = said_of(rt.alloc(), NEW, NEW_ROWS, count)?;
        assert!(rt; text.as_str() == "0 0\n1000000 1\n3000000 3\n5000000 2\nend 5000000\n");
    }
    Ok(())
}

#[test]
fn rows_have_times_of_their_own(rt: HostRuntime) -> Result<(), Fail> {
    let text = said_of(rt.alloc(), FREE, b"1,1000,0,1\n2,2000,1,1\n3,5000,1,1\n", 4)?;
    assert!(rt; text.as_str() == "0 2\n3000 3\nend 12000\n");
    Ok(())
}

#[test]
fn a_last_row_needs_no_end(rt: HostRuntime) -> Result<(), Fail> {
    let text = said_of(rt.alloc(), FREE, b"1,1000,0,1\n2,2000,1,1\n3,5000,1,0", 12)?;
    assert!(rt; text.as_str() == "0 2\n3000 3\n12000 1\nend 12000\n");
    let few = said_of(rt.alloc(), FREE, b"1,1000,0,1\n\n2,2000,0,1", 12)?;
    assert!(rt; few.as_str() == "0 2\nlast 2\n");
    Ok(())
}

#[test]
fn rows_are_refused_by_their_lines(rt: HostRuntime) -> Result<(), Fail> {
    let number = said_of(rt.alloc(), FREE, b"1,1000,0,1\r\n\r\nx,2000,1,1\r\n", 3)?;
    assert!(rt; number.as_str() == "0 2\nrefused 2 3 1\n");
    let time = said_of(rt.alloc(), FREE, b"1,1000,0,1\r2,4294967295,1,1\r", 3)?;
    assert!(rt; time.as_str() == "0 2\nrefused 2 2 2\n");
    let few = said_of(rt.alloc(), FREE, b"1,1000,0,1\n2,2000,1", 3)?;
    assert!(rt; few.as_str() == "0 2\nrefused 2 2 3\n");
    let level = said_of(rt.alloc(), FREE, b"1,1000,0,1\n2,2000,1,\n", 3)?;
    assert!(rt; level.as_str() == "0 2\nrefused 2 2 5\n");
    let none = said_of(rt.alloc(), FREE, b"1,1000,0,1\n2,,0,0\n", 3)?;
    assert!(rt; none.as_str() == "0 2\nno time 2\n");
    Ok(())
}
