//! The keys of a plain line with what stands there, one after another, by their tokens. None of
//! what is written otherwise, or out of range.

ghost use Rattle.std.specs.Prelude.{◌≡◌, ◌≤◌, ℕ, [], ◌∷◌, IfSome, IsTrue, MatchOption, length};
ghost use Rattle.std.specs.List.{position};
ghost use Rattle.std.specs.Str.{bytes_eq};
ghost use Rattle.json.specs.Reads.{token_of};
ghost use Rattle.json.specs.Token.{begin_array, end_object, key, number, string};
ghost use Rattle.scenario_json.specs.Fields.{natural_most};
ghost use Rattle.scenario_json.specs.Keys.{key_value, texts_of};
ghost use Rattle.scenario_values.specs.Forms.{g};
ghost use Rattle.scenario_line.specs.PlainLine.{IsKind, IsNatural, IsRawHead, IsReader, do_and};

use crate::widths::width_in;
use indexmap::IndexSet;
use json::{Reader, Token};
use scenario_json::{Key, Kind};
use scenario_values::{G, R, WIDTHS};

fn next<'a>(reader: &mut Reader<'a>) -> Option<Token<'a>>
    ensures { MatchOption result ((reader.old ≡ []) × (reader.new ≡ []))
        (λ t. reader.old ≡ token_of t ∷ reader.new) }
{
    reader.next()
}

fn is_key(reader: &mut Reader<'_>, name: &str) -> bool
    ensures { IsTrue result → reader.old ≡ key name.now ∷ reader.new }
{
    match next(reader) {
        Some(Token::Key(key)) => key == name,
        _ => false,
    }
}

fn text_at<'a>(reader: &mut Reader<'a>, name: &str) -> Option<&'a str>
    ensures { IfSome result (λ s. reader.old ≡ key name.now ∷ string s.now ∷ reader.new) }
{
    if !is_key(reader, name) {
        return None;
    }
    match next(reader) {
        Some(Token::String(text)) => Some(text),
        _ => None,
    }
}

fn number_at<'a>(reader: &mut Reader<'a>, name: &str) -> Option<&'a str>
    ensures { IfSome result (λ s. reader.old ≡ key name.now ∷ number s.now ∷ reader.new) }
{
    if !is_key(reader, name) {
        return None;
    }
    match next(reader) {
        Some(Token::Number(text)) => Some(text),
        _ => None,
    }
}

fn is_list_at(reader: &mut Reader<'_>, name: &str) -> bool
    ensures { IsTrue result → reader.old ≡ key name.now ∷ begin_array ∷ reader.new }
{
    is_key(reader, name) && matches!(next(reader), Some(Token::BeginArray))
}

/// Whether the line ends here.
#[inline(never)]
pub fn is_end(reader: Reader<'_>) -> bool
    ensures { IsTrue result → reader.entry ≡ end_object ∷ [] }
{
    let mut rest = reader;
    matches!(next(&mut rest), Some(Token::EndObject)) && next(&mut rest).is_none()
}

/// The word of `do`, with which a line begins.
pub fn word_in<'a>(reader: &mut Reader<'a>) -> Option<&'a str>
    ensures { IfSome result (λ word. reader.old ≡ do_and word.now reader.new) }
{
    let Some(Token::BeginObject) = next(reader) else {
        return None;
    };
    text_at(reader, "do")
}

/// The word of a fault's `kind`.
pub fn kind_in<'a>(reader: &mut Reader<'a>) -> Option<&'a str>
    ensures { IfSome result (λ word. IsKind reader.old word.now reader.new) }
{
    text_at(reader, "kind")
}

/// The number at a key of kind `Natural`, of 32 bits at most.
pub fn natural_in(reader: &mut Reader<'_>, key: Key) -> Option<u32>
    ensures value { IfSome result (λ n. IsNatural (key_value key) reader.old n reader.new) }
    ensures most { IfSome result (λ n. n ≤ natural_most key.kind) }
{
    let text = number_at(reader, key.name)?;
    let number = width_in(text)?;
    match key.kind {
        Kind::Natural(least, most) if least <= u64::from(number) && u64::from(number) <= most => {
            Some(number)
        }
        _ => None,
    }
}

/// The number of a generator.
pub fn generator_in(reader: &mut Reader<'_>) -> Option<u8>
    ensures { IfSome result (λ n. IsNatural g reader.old n reader.new) }
{
    Some(natural_in(reader, G)? as u8)
}

/// The place of a reader by its name, from 0 on among at most 16 `names`.
pub fn reader_in(reader: &mut Reader<'_>, names: &IndexSet<String>) -> Option<u8>
    requires { length names.now.keys ≤ 16 }
    ensures { IfSome result (λ place.
        IsReader (texts_of names.now.keys) reader.old place reader.new) }
{
    let name = text_at(reader, R.name)?;
    Some(place_of(names, name)? as u8)
}

/// What stands before the widths of a `raw` line, and what follows. The reader comes and goes by
/// value, since so its fields stay in registers while the widths are read.
#[inline(never)]
pub fn raw_head_in<'a>(names: &IndexSet<String>, reader: Reader<'a>) -> Option<(u8, u8, Reader<'a>)>
    requires { length names.now.keys ≤ 16 }
    ensures { IfSome result (λ head.
        IsRawHead (texts_of names.now.keys) reader.entry head.0 head.1 head.2) }
{
    let mut rest = reader;
    let g = generator_in(&mut rest)?;
    let r = reader_in(&mut rest, names)?;
    if is_list_at(&mut rest, WIDTHS.name) {
        Some((g, r, rest))
    } else {
        None
    }
}

fn place_of(names: &IndexSet<String>, name: &str) -> Option<usize>
    requires { length names.now.keys ≤ 16 }
    ensures place { result ≡ position (λ n. bytes_eq name.now n) (texts_of names.now.keys) }
    ensures few { IfSome result (λ place. place ≤ 16) }
{
    names.get_index_of(name)
}
