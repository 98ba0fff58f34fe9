//! What a section of a head says.

ghost use Rattle.std.specs.Prelude.{◌≡◌, ◌≤◌, IfOk, length, option_map};
ghost use Rattle.record_vcd.specs.Sections.{digits_in, joined, keeps, scale_of, scaled, section_of, texts_of, unit_by, unit_of, wire_of, wire_value};

use crate::unit::{Part, Unit};
use crate::wire::{Wire, copied};
use record_text::number_of;
use std::alloc::{AllocError, Global};

/// The longest code of a wire: with its level it is a word that was kept whole.
const LONGEST_CODE: usize = 254;

/// Where a head is: which section is open.
#[derive(Clone, Copy)]
pub(crate) enum Section {
    Between,
    Timescale,
    Var,
    Definitions,
    Other,
    /// The head has ended.
    Over,
}

/// A word of a section.
#[derive(Drop)]
pub(crate) struct Text {
    pub(crate) bytes: Vec<u8>,
}

/// The section that a word opens.
pub(crate) fn section_of(word: &[u8]) -> Section
    ensures { result ≡ section_of word.now }
{
    if word == b"$timescale".as_slice() {
        Section::Timescale
    } else if word == b"$var".as_slice() {
        Section::Var
    } else if word == b"$enddefinitions".as_slice() {
        Section::Definitions
    } else {
        Section::Other
    }
}

/// Whether the words of a section say something.
pub(crate) fn keeps(section: Section) -> bool
    ensures { result ≡ keeps section }
{
    matches!(section, Section::Timescale | Section::Var)
}

/// The unit that the words of a timescale name.
pub(crate) fn unit_of(texts: &[Text]) -> Option<Unit>
    ensures { result ≡ unit_of (texts_of texts.now) }
{
    match texts {
        [both] => {
            let (digits, unit) = both
                .bytes
                .as_slice()
                .split_at(digits_in(both.bytes.as_slice()));
            unit_by(number_of(digits), unit)
        }
        [digits, unit] => unit_by(number_of(digits.bytes.as_slice()), unit.bytes.as_slice()),
        _ => None,
    }
}

// How many digits a word begins with.
fn digits_in(word: &[u8]) -> usize
    ensures count { result ≡ digits_in word.now }
    ensures within { result ≤ length word.now }
{
    for (at, byte) in word.iter().enumerate() {
        if !byte.is_ascii_digit() {
            return at;
        }
    }
    word.len()
}

fn unit_by(number: Option<u64>, unit: &[u8]) -> Option<Unit>
    ensures { result ≡ unit_by number unit.now }
{
    match number {
        Some(number) => scaled(number, scale_of(unit)),
        None => None,
    }
}

fn scaled(number: u64, scale: Option<Unit>) -> Option<Unit>
    ensures { result ≡ scaled number scale }
{
    match scale {
        Some(scale) if number > 0 => match number.checked_mul(scale.times) {
            Some(times) => Some(Unit {
                times,
                part: scale.part,
            }),
            None => None,
        },
        _ => None,
    }
}

// The unit of this name.
fn scale_of(name: &[u8]) -> Option<Unit>
    ensures { result ≡ scale_of name.now }
{
    let (times, part) = match name {
        b"s" => (1_000_000_000, Part::Whole),
        b"ms" => (1_000_000, Part::Whole),
        b"us" => (1_000, Part::Whole),
        b"ns" => (1, Part::Whole),
        b"ps" => (1, Part::Thousandth),
        b"fs" => (1, Part::Millionth),
        _ => return None,
    };
    Some(Unit { times, part })
}

/// The wire that the words of a variable name, if it has one bit: its type, its size, its code and the
/// words of its name.
pub(crate) fn wire_of(alloc: Global, texts: &[Text]) -> Result<Option<Wire>, AllocError>
    ensures { IfOk result (λ wire. option_map wire_value wire ≡ wire_of (texts_of texts.now)) }
{
    match texts {
        [_, size, code, first, others @ ..] => {
            if size.bytes.as_slice() == b"1".as_slice() && code.bytes.len() <= LONGEST_CODE {
                let name = joined(alloc, first.bytes.as_slice(), others)?;
                let code = copied(alloc, code.bytes.as_slice())?;
                Ok(Some(Wire { name, code }))
            } else {
                Ok(None)
            }
        }
        _ => Ok(None),
    }
}

// Words with a blank between two.
fn joined(alloc: Global, first: &[u8], others: &[Text]) -> Result<Vec<u8>, AllocError>
    ensures { IfOk result (λ name. name.items ≡ joined first.now (texts_of others.now)) }
{
    let mut name = copied(alloc, first)?;
    for text in others {
        name.push(b' ')?;
        name.extend_from_slice(text.bytes.as_slice())?;
    }
    Ok(name)
}
