//! Remarks.

ghost use Rattle.std.specs.Prelude.{◌≡◌, IfSome, IfNone, Some, None};
ghost use Rattle.record_cells.specs.Remarks.{after_word, begins_remark, behind_bracket, behind_meta, is_remark, list_text, rate_text, said_in};

use crate::cells::before;
use record_text::trimmed;

/// Whether a line is a remark: it is empty, or begins with `;`, `#`, `%` or `META`.
pub fn is_remark(line: &[u8]) -> bool
    ensures { result ≡ is_remark line.now }
{
    begins_remark(line) || trimmed(line).is_empty()
}

fn begins_remark(line: &[u8]) -> bool
    ensures { result ≡ begins_remark line.now }
{
    matches!(
        line,
        [b';' | b'#' | b'%', ..] | [b'M', b'E', b'T', b'A', ..]
    )
}

/// The text of the rate of samples, if the remark says one.
pub fn rate_text(line: &[u8]) -> Option<&[u8]>
    ensures some { IfSome result (λ text. rate_text line.now ≡ Some text.now) }
    ensures none { IfNone result (rate_text line.now ≡ None) }
{
    after_word(said_in(line), b"samplerate:")
}

/// The names that a remark lists, as `; Channels (..): left, right`.
pub fn list_text(line: &[u8]) -> Option<&[u8]>
    ensures some { IfSome result (λ text. list_text line.now ≡ Some text.now) }
    ensures none { IfNone result (list_text line.now ≡ None) }
{
    match after_word(said_in(line), b"channels (") {
        Some(text) => behind_bracket(text),
        None => None,
    }
}

// What stands behind the first bracket that ends, and a colon.
fn behind_bracket(text: &[u8]) -> Option<&[u8]>
    ensures some { IfSome result (λ list. behind_bracket text.now ≡ Some list.now) }
    ensures none { IfNone result (behind_bracket text.now ≡ None) }
{
    match text.split_at(before(b')', b')', text)).1 {
        [b')', b':', list @ ..] => Some(list),
        _ => None,
    }
}

// What a remark says behind its sign.
fn said_in(line: &[u8]) -> &[u8]
    ensures { result.now ≡ said_in line.now }
{
    match line {
        [b';' | b'#' | b'%', rest @ ..] => trimmed(rest),
        _ => trimmed(behind_meta(line)),
    }
}

fn behind_meta(line: &[u8]) -> &[u8]
    ensures { result.now ≡ behind_meta line.now }
{
    match line {
        [b'M', b'E', b'T', b'A', rest @ ..] => rest,
        _ => &[],
    }
}

// What stands after a word at the beginning of a text.
fn after_word<'a>(text: &'a [u8], word: &[u8]) -> Option<&'a [u8]>
    ensures some { IfSome result (λ rest. after_word text.now word.now ≡ Some rest.now) }
    ensures none { IfNone result (after_word text.now word.now ≡ None) }
{
    if text.len() < word.len() {
        return None;
    }
    let (front, rest) = text.split_at(word.len());
    if front.eq_ignore_ascii_case(word) {
        Some(trimmed(rest))
    } else {
        None
    }
}
