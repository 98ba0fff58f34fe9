//! Plain lists of widths, by their tokens.

ghost use Rattle.std.specs.Prelude.{◌≡◌, ◌≤◌, [], ◌∷◌, IfSome, Some, take};
ghost use Rattle.scenario_line.specs.PlainLine.{plain_widths, width_of};

use json::{Reader, Token};

/// How many widths a list has at most.
pub const MOST: usize = 1000;

/// Takes the widths to the end of their list: how many there are, and what follows. The reader
/// comes by value, since so its fields stay in registers.
#[tactic(auto, using(crate::proofs::RawLoops::taken))]
pub fn widths_in<'a>(reader: Reader<'a>, widths: &mut [u32; MOST]) -> Option<(usize, Reader<'a>)>
    ensures value { IfSome result (λ found.
        plain_widths reader.entry ≡ Some (take found.0 widths.new, found.1)) }
    ensures most { IfSome result (λ found. found.0 ≤ 1000) }
{
    let mut rest = reader;
    for count in 0..MOST {
        match rest.next() {
            Some(Token::Number(text)) => widths[count] = width_in(text)?,
            Some(Token::EndArray) => return Some((count, rest)),
            _ => return None,
        }
    }
    if rest.take_end_array() {
        Some((MOST, rest))
    } else {
        None
    }
}

/// A number of 32 bits by its text. Most have four digits, and these are read at once.
#[inline(always)]
pub fn width_in(text: &str) -> Option<u32>
    ensures { IfSome result (λ n. width_of text.now ≡ Some n) }
{
    match text.as_bytes() {
        [a, b, c, d] => four_digits(*a, *b, *c, *d),
        _ => any_digits(text),
    }
}

#[inline(always)]
#[tactic(auto, using(crate::proofs::RawNumbers::four))]
fn four_digits(a: u8, b: u8, c: u8, d: u8) -> Option<u32>
    ensures { IfSome result (λ n. width_of (a ∷ b ∷ c ∷ d ∷ []) ≡ Some n) }
{
    if a.is_ascii_digit() && b.is_ascii_digit() && c.is_ascii_digit() && d.is_ascii_digit() {
        let thousands = (u32::from(a) - 48) * 1000 + (u32::from(b) - 48) * 100;
        Some(thousands + (u32::from(c) - 48) * 10 + (u32::from(d) - 48))
    } else {
        None
    }
}

#[inline(never)]
#[tactic(auto, using(crate::proofs::RawNumbers::parsed))]
fn any_digits(text: &str) -> Option<u32>
    ensures { IfSome result (λ n. width_of text.now ≡ Some n) }
{
    if *text.as_bytes().first()? == b'+' {
        return None;
    }
    match text.parse::<u32>() {
        Ok(number) => Some(number),
        Err(_) => None,
    }
}
