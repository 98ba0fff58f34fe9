//! How a line of a reader ends, and what its buffer shows of it.

ghost use Rattle.std.specs.Prelude.{◌≤◌, IfOk, OnErr, vec_len};
ghost use Rattle.std.specs.Io.KnownBytes.{Keeps};
ghost use Rattle.irig_device.specs.Lines.{GivesMore, Shows};

use memchr::memchr;
use std::io::BufRead;

/// How a line ends.
#[derive(Clone, Copy, PartialEq, Eq)]
pub enum LineEnd {
    /// With its newline.
    Newline,
    /// With the input.
    EndOfInput,
    /// It doesn't: it was read no further than to see that it is too long.
    TooLong,
}

/// Why a line was not read.
#[derive(Clone, Copy, PartialEq, Eq)]
pub enum ReadFault {
    /// A call of the device failed or was interrupted.
    Device,
    /// There was no memory for the line.
    Memory,
}

/// Adds to a line what one `fill_buf` shows of it, and answers how the line ends, if it does.
pub(crate) fn read_part<R: BufRead>(
    reader: &mut R,
    limit: usize,
    line: &mut Vec<u8>,
) -> Result<Option<LineEnd>, ReadFault>
    requires { vec_len line.old ≤ limit }
    ensures more { IfOk result (λ end. GivesMore end limit line.old.items line.new.items
        (R.remaining reader.old) (R.remaining reader.new)) }
    ensures fault { OnErr result (Keeps (R.remaining reader.old) (R.remaining reader.new)) }
{
    let Ok(available) = reader.fill_buf() else {
        return Err(ReadFault::Device);
    };
    let (count, end) = part_of(available, limit - line.len());
    if line.extend_from_slice(&available[..count]).is_err() {
        return Err(ReadFault::Memory);
    }
    let has_newline = end == Some(LineEnd::Newline);
    reader.consume(if has_newline { count + 1 } else { count });
    Ok(end)
}

// How many of these bytes belong to a line that has room for so many, and how it ends, if it does.
fn part_of(bytes: &[u8], room: usize) -> (usize, Option<LineEnd>)
    ensures { Shows result.1 bytes.now room result.0 }
{
    let part = &bytes[..bytes.len().min(room.saturating_add(1))];
    match memchr(b'\n', part) {
        Some(place) => (place, Some(LineEnd::Newline)),
        None if bytes.is_empty() => (0, Some(LineEnd::EndOfInput)),
        None if part.len() > room => (part.len(), Some(LineEnd::TooLong)),
        None => (part.len(), None),
    }
}
