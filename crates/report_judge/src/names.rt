//! The names of the channels of a recording.

ghost use Rattle.std.specs.Prelude.{◌≡◌, ◌+◌, ◌<◌, ◌≤◌, ◌∷◌, ◌++◌, [], All, IfOk, length};
ghost use Rattle.record_comtrade.specs.Reads.{value_of};
ghost use Rattle.record_table.specs.Titles.{bytes_of};
ghost use Rattle.record_vcd.specs.Sections.{wires_of};
ghost use Rattle.report_judge.specs.Channels.{names_of, texts_of};
ghost use Rattle.report_judge.specs.Records.{channel_names, digital_names, name_or_number};

use record_comtrade::Config;
use record_table::Name;
use record_vcd::Wire;
use std::alloc::{AllocError, Global};

// So many names are said at most.
const MOST_NAMES: usize = 32;

/// The names of wires.
pub(crate) fn wire_names(alloc: Global, wires: &[Wire]) -> Result<Vec<Vec<u8>>, AllocError>
    ensures names { IfOk result (λ names. texts_of names.items ≡ names_of (wires_of wires.now)) }
    ensures many { IfOk result (λ names. length names.items ≡ length wires.now) }
{
    let mut names = Vec::new(alloc);
    for wire in wires {
        keep(alloc, &mut names, wire.name.as_slice())?;
    }
    Ok(names)
}

/// The names of the channels of a table.
pub(crate) fn column_names(alloc: Global, columns: &[Name]) -> Result<Vec<Vec<u8>>, AllocError>
    ensures names { IfOk result (λ names. texts_of names.items ≡ bytes_of columns.now) }
    ensures many { IfOk result (λ names. length names.items ≡ length columns.now) }
{
    let mut names = Vec::new(alloc);
    for column in columns {
        keep(alloc, &mut names, column.bytes.as_slice())?;
    }
    Ok(names)
}

/// The names of the digital channels of a record: D and its number, from 1, where a channel has
/// none.
pub(crate) fn digital_names(alloc: Global, config: &Config) -> Result<Vec<Vec<u8>>, AllocError>
    ensures names { IfOk result (λ names.
        texts_of names.items ≡ digital_names (value_of config.now)) }
    ensures many { IfOk result (λ names. length names.items ≡ config.now.counts.digitals) }
{
    let mut names = Vec::new(alloc);
    for place in 0..config.counts().digitals as usize {
        keep_named(alloc, &mut names, "D", place, config.digital_name(place))?;
    }
    Ok(names)
}

/// The names of all channels of a record, digital ones first: A and its number, from 1, where an
/// analog channel has none.
pub(crate) fn channel_names(alloc: Global, config: &Config) -> Result<Vec<Vec<u8>>, AllocError>
    ensures names { IfOk result (λ names.
        texts_of names.items ≡ channel_names (value_of config.now)) }
    ensures many { IfOk result (λ names.
        length names.items ≡ config.now.counts.digitals + config.now.counts.analogs) }
{
    let mut names = digital_names(alloc, config)?;
    for place in 0..config.counts().analogs as usize {
        keep_named(alloc, &mut names, "A", place, config.analog_field(place, 1))?;
    }
    Ok(names)
}

// Adds the name of the channel at a place, or this letter and its number.
fn keep_named(
    alloc: Global,
    names: &mut Vec<Vec<u8>>,
    letter: &str,
    place: usize,
    name: &[u8],
) -> Result<(), AllocError>
    requires { place ≤ 1999998 }
    ensures names { IfOk result (λ _. texts_of names.new.items
        ≡ texts_of names.old.items ++ name_or_number letter.now place name.now ∷ []) }
    ensures many { IfOk result (λ _. length names.new.items ≡ length names.old.items + 1) }
{
    if !name.is_empty() {
        return keep(alloc, names, name);
    }
    let number = place + 1;
    let name = format!(in alloc; "{letter}{number}")?;
    keep(alloc, names, name.as_str().as_bytes())
}

// Adds a name.
fn keep(alloc: Global, names: &mut Vec<Vec<u8>>, name: &[u8]) -> Result<(), AllocError>
    ensures names { IfOk result (λ _. texts_of names.new.items
        ≡ texts_of names.old.items ++ name.now ∷ []) }
    ensures many { IfOk result (λ _. length names.new.items ≡ length names.old.items + 1) }
{
    let mut bytes = Vec::new(alloc);
    bytes.extend_from_slice(name)?;
    names.push(bytes)?;
    Ok(())
}

/// Those of the channels at these places.
pub(crate) fn names_at(
    alloc: Global,
    names: &[Vec<u8>],
    places: &[usize],
) -> Result<Vec<Vec<u8>>, AllocError>
    requires { All (λ place. place < length names.now) places.now }
{
    let mut chosen = Vec::new(alloc);
    for &place in places {
        keep(alloc, &mut chosen, names[place].as_slice())?;
    }
    Ok(chosen)
}

/// Some names with a comma between two, as they can be printed.
pub(crate) fn listed(alloc: Global, names: &[Vec<u8>]) -> Result<String, AllocError> {
    let mut text = String::new(alloc);
    for (at, name) in names.iter().enumerate() {
        if at == MOST_NAMES {
            write!(text, " and {} more", names.len() - at)?;
            return Ok(text);
        }
        if at > 0 {
            text.push_str(", ")?;
        }
        push_name(&mut text, name.as_slice())?;
    }
    Ok(text)
}

/// Adds a name that may be of any bytes, as it can be printed: what is no plain ASCII, and the backslash, as
/// `\xNN`. It fails only if there is no memory.
pub fn push_name(text: &mut String, name: &[u8]) -> Result<(), AllocError> {
    for &byte in name {
        if (0x20..0x7f).contains(&byte) && byte != b'\\' {
            text.push(char::from(byte))?;
        } else {
            write!(text, "\\x{byte:02x}")?;
        }
    }
    Ok(())
}
