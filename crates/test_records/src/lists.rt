//! Lists of pulses, from their bytes to the levels that they say.

ghost use Rattle.std.specs.Prelude.{◌<◌};

use record_list::{Changes, Fault, Last, ListFault};
use record_text::Lines;
use std::alloc::{AllocError, Global};
use std::test::Fail;

// By a counter that wraps, of a third port too. The second row lies 6 us back.
const PRINTED: &[u8] =
    b"0,4294966296,5000\n1,4294966290,8000\n2,4294966400,10\n; by hand\n0,8704,2000\n0,2500000,1";

// The third row lies 2 s back.
const BACK: &[u8] = b"0,5000000,8000\n1,6500000,8000\n0,4500000,8000\n";

const EMPTY: &[u8] = b"; none\n";

// Adds levels that are sure by a piece.
fn push_piece(text: &mut String, changes: &mut Changes, piece: &[u8]) -> Result<(), AllocError> {
    let mut rest = piece;
    for _call in 0..1_000 {
        match changes.read(rest) {
            Ok(taken) => {
                let Some(levels) = taken.levels else {
                    return Ok(());
                };
                write!(text, "{} {}, ", levels.time_ns / 1_000, levels.high)?;
                rest = rest.split_at(taken.count).1;
            }
            Err(_) => return Ok(()),
        }
    }
    Ok(())
}

// Adds those at the end, or the line that is refused.
fn push_end(text: &mut String, changes: &mut Changes) -> Result<(), AllocError> {
    for _call in 0..1_000 {
        match changes.last() {
            Ok(Last::Levels(levels)) => {
                write!(text, "{} {}, ", levels.time_ns / 1_000, levels.high)?;
            }
            Ok(Last::Ends(time_ns)) => return write!(text, "ends {}", time_ns / 1_000),
            Err(ListFault::Refused(Fault { line, .. })) => return write!(text, "line {line}"),
            Err(ListFault::Memory) => return Err(AllocError),
        }
    }
    Ok(())
}

// What a list says of ports 0 and 1 in microseconds, read in pieces of so many bytes.
fn said_of(alloc: Global, list: &[u8], size: usize) -> Result<String, AllocError>
    requires { 0 < size }
{
    let mut text = String::new(alloc);
    let mut changes = Changes::new(alloc, Lines::new(), 7, &[0, 1])?;
    for piece in list.chunks(size) {
        push_piece(&mut text, &mut changes, piece)?;
    }
    push_end(&mut text, &mut changes)?;
    Ok(text)
}

#[test]
fn a_list_says_levels_in_order(rt: HostRuntime) -> Result<(), Fail> {
    let said =
        "4293966296 0, 4294966290 2, 4294966296 3, 4294971296 2, 4294974290 0, 4294976000 1, 4294978000 0, 4297467296 1, 4297467297 0, ends 4297467297";
    let whole = said_of(rt.alloc(), PRINTED, 1_000)?;
    assert!(rt; whole.as_str() == said);
    let bytes = said_of(rt.alloc(), PRINTED, 1)?;
    assert!(rt; bytes.as_str() == said);
    Ok(())
}

#[test]
fn a_row_far_back_is_refused(rt: HostRuntime) -> Result<(), Fail> {
    let rows = said_of(rt.alloc(), BACK, 5)?;
    assert!(rt; rows.as_str() == "4000000 0, 5000000 1, 5008000 0, line 3");
    let none = said_of(rt.alloc(), EMPTY, 5)?;
    assert!(rt; none.as_str() == "line 7");
    Ok(())
}
