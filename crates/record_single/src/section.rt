//! Lines that begin a section.

ghost use Rattle.std.specs.Prelude.{◌≡◌, ◌+◌, ◌≤◌, IfNone, IfSome, None, Some, length};
ghost use Rattle.record_single.specs.Sections.{after_word, between_dashes, is_of, place_in, section_by, section_of, section_with, with_count};

use record_text::{number_of, trimmed};

/// What stands below a line that begins a section.
#[derive(Clone, Copy)]
pub(crate) enum Section {
    /// A configuration.
    Config,
    /// Samples, and of how many bytes, if that is said.
    Samples(Option<u64>),
    /// Anything else.
    Other,
}

/// The section that a line begins.
pub(crate) fn section_of(line: &[u8]) -> Option<Section>
    ensures { result ≡ section_of line.now }
{
    let Some(text) = between_dashes(line) else {
        return None;
    };
    match after_word(trimmed(text), b"file type:") {
        Some(kind) => section_by(trimmed(kind)),
        None => None,
    }
}

// What stands between the three dashes at the beginning of a line and three others.
fn between_dashes(line: &[u8]) -> Option<&[u8]>
    ensures some { IfSome result (λ text. between_dashes line.now ≡ Some text.now) }
    ensures none { IfNone result (between_dashes line.now ≡ None) }
{
    let Some(behind) = after_word(line, b"---") else {
        return None;
    };
    let (text, rest) = behind.split_at(place_in(b'-', behind));
    match after_word(rest, b"---") {
        Some(_) => Some(text),
        None => None,
    }
}

// What stands behind a word, in letters of either case, if a text begins so.
fn after_word<'a>(text: &'a [u8], word: &[u8]) -> Option<&'a [u8]>
    ensures some { IfSome result (λ rest. after_word text.now word.now ≡ Some rest.now) }
    ensures none { IfNone result (after_word text.now word.now ≡ None) }
{
    if text.len() < word.len() {
        return None;
    }
    let (front, rest) = text.split_at(word.len());
    if front.eq_ignore_ascii_case(word) {
        Some(rest)
    } else {
        None
    }
}

// The section of this kind, as `DAT BINARY: 172`.
fn section_by(kind: &[u8]) -> Option<Section>
    ensures { result ≡ section_by kind.now }
{
    let (name, number) = kind.split_at(place_in(b':', kind));
    match number {
        [] => Some(section_with(name, None)),
        [_, count @ ..] => match number_of(trimmed(count)) {
            Some(count) => Some(section_with(name, Some(count))),
            None => None,
        },
    }
}

fn section_with(name: &[u8], count: Option<u64>) -> Section
    ensures { result ≡ section_with name.now count }
{
    if is_of(name, b"CFG") {
        Section::Config
    } else if is_of(name, b"DAT") {
        Section::Samples(count)
    } else {
        Section::Other
    }
}

// Whether the first word of a text is this one.
fn is_of(text: &[u8], word: &[u8]) -> bool
    ensures { result ≡ is_of text.now word.now }
{
    match after_word(text, word) {
        Some([next, ..]) => next.is_ascii_whitespace(),
        Some([]) => true,
        None => false,
    }
}

/// How many bytes of a text stand before the first one that is this.
pub(crate) fn place_in(byte: u8, text: &[u8]) -> usize
    ensures count { result ≡ place_in byte text.now }
    ensures within { result ≤ length text.now }
{
    for (at, other) in text.iter().enumerate() {
        if *other == byte {
            return at;
        }
    }
    text.len()
}
