//! Tables, from their bytes to the levels that they say.

ghost use Rattle.std.specs.Prelude.{◌<◌};

use record_cells::Threshold;
use record_table::{Changes, Fault, Head, HeadFault, Name};
use std::alloc::{AllocError, Global};
use std::test::Fail;

// From 12 us before its trigger on, and without an end of its last line.
const ANALYSED: &[u8] =
    b"\xef\xbb\xbfTime [s],\"Clock 0\", Clock 1\n-0.000012000,0,1\n0.009988,1,1\n1.5e-02,1,0\n0.0200004,1,0";

const SAMPLED: &[u8] =
    b"; Channels (2/8): left, right\r\n; Samplerate: 1 kHz\r\nlogic,logic\r\n0,1\r\n0,1\r\n1,1\r\n";

const REFUSED: &[u8] = b"time,a,b\n1,0,0\n2,1,0\n3,1,high\n4,x,0\n";

// A slow edge with noise about 1.5 V, after one that shows the swing.
const VOLTS: &[u8] =
    b"Time (ms),A,B\n0,3.5,\n1,-5.0e-1,\n2,1.4,\n3,1.6,\n4,1.45,\n5,1.75,\n6,3.5,\n";

const NO_TIMES: &[u8] = b"; by hand\nUp,Down\n0,1\n";

// Adds levels that were read, or the line that is refused.
fn push_piece(text: &mut String, changes: &mut Changes, piece: &[u8]) -> Result<(), AllocError> {
    let mut rest = piece;
    for _call in 0..piece.len() {
        match changes.read(rest) {
            Ok(taken) => {
                if let Some(levels) = taken.levels {
                    write!(text, "{} {}, ", levels.time_ns, levels.high)?;
                }
                rest = rest.split_at(taken.count).1;
            }
            Err(_) => return Ok(()),
        }
    }
    Ok(())
}

fn push_end(text: &mut String, changes: Changes) -> Result<(), AllocError> {
    match changes.end() {
        Ok(end) => {
            for levels in [end.before, end.levels] {
                if let Some(levels) = levels {
                    write!(text, "{} {}, ", levels.time_ns, levels.high)?;
                }
            }
            write!(text, "ends {}", end.time_ns)
        }
        Err(Fault { line, .. }) => write!(text, "line {line}"),
    }
}

fn push_names(text: &mut String, names: &[Name]) -> Result<(), AllocError> {
    for name in names {
        for byte in name.bytes.as_slice() {
            text.push(char::from(*byte))?;
        }
        text.push_str("; ")?;
    }
    Ok(())
}

// What a table of volts says of its first channel.
fn said_of_volts(alloc: Global, table: &[u8]) -> Result<String, AllocError> {
    let mut text = String::new(alloc);
    let mut head = Head::new(alloc);
    let taken = head.read(alloc, table)?;
    let Some(threshold) = Threshold::of(b"1.5") else {
        return Ok(text);
    };
    if head.names().is_empty() {
        return Ok(text);
    }
    if let Ok(mut changes) = Changes::by_threshold(alloc, head, threshold, &[0]) {
        push_piece(&mut text, &mut changes, table.split_at(taken.count).1)?;
        push_end(&mut text, changes)?;
    }
    Ok(text)
}

// The names of a table, and what it says of the first two, read in pieces of so many bytes.
fn said_of(alloc: Global, table: &[u8], size: usize) -> Result<String, AllocError>
    requires { 0 < size }
{
    let mut text = String::new(alloc);
    let mut head = Head::new(alloc);
    let taken = head.read(alloc, table)?;
    if let Some(HeadFault::Refused(refusal)) = head.fault() {
        write!(&mut text, "head {}", refusal.line)?;
        return Ok(text);
    }
    push_names(&mut text, head.names())?;
    if head.names().len() < 2 {
        return Ok(text);
    }
    if let Ok(mut changes) = Changes::new(alloc, head, &[0, 1]) {
        for piece in table.split_at(taken.count).1.chunks(size) {
            push_piece(&mut text, &mut changes, piece)?;
        }
        write!(&mut text, "from {}, ", changes.start_ns())?;
        push_end(&mut text, changes)?;
    }
    Ok(text)
}

#[test]
fn a_table_says_levels_after_its_first_row(rt: HostRuntime) -> Result<(), Fail> {
    let said = "Clock 0; Clock 1; 0 2, 10000000 3, from 12000, 15012000 1, ends 20012400";
    let whole = said_of(rt.alloc(), ANALYSED, 1_000)?;
    assert!(rt; whole.as_str() == said);
    let bytes = said_of(rt.alloc(), ANALYSED, 1)?;
    assert!(rt; bytes.as_str() == said);
    Ok(())
}

#[test]
fn a_row_is_a_sample(rt: HostRuntime) -> Result<(), Fail> {
    let text = said_of(rt.alloc(), SAMPLED, 7)?;
    assert!(rt; text.as_str() == "left; right; 0 2, from 0, 2000000 3, ends 2000000");
    Ok(())
}

#[test]
fn a_line_is_refused(rt: HostRuntime) -> Result<(), Fail> {
    let rows = said_of(rt.alloc(), REFUSED, 5)?;
    assert!(rt; rows.as_str() == "a; b; 1000000000 0, from 0, line 4");
    let head = said_of(rt.alloc(), NO_TIMES, 5)?;
    assert!(rt; head.as_str() == "head 2");
    Ok(())
}

#[test]
fn a_slow_edge_is_one(rt: HostRuntime) -> Result<(), Fail> {
    let text = said_of_volts(rt.alloc(), VOLTS)?;
    assert!(rt; text.as_str() == "0 1, 1000000 0, 5000000 1, ends 6000000");
    Ok(())
}
