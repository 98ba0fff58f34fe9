//! What a word below the head says.

ghost use Rattle.std.specs.Prelude.{◌≡◌, ◌<◌, IfSome};
ghost use Rattle.record_vcd.specs.Meanings.{codes_of, level_at, level_word, meaning, HasPlace, skip_after, skip_in_remark, ticks_of, time_word};

use crate::chosen::Chosen;
use crate::unit::Unit;
use record_text::{LONGEST_WORD, number_of};

/// What a word says.
#[derive(Clone, Copy)]
pub(crate) enum Meaning {
    /// The time from here on, in nanoseconds.
    Time(u64),
    /// A time that is no number, or does not fit.
    BadTime,
    /// A level of a wire, by its place among those chosen, 0 to 4.
    Level { place: u8, is_high: bool },
    /// Anything else.
    Nothing,
}

/// What is left out after a word.
#[derive(Clone, Copy)]
pub(crate) enum Skip {
    Nothing,
    /// The code after a value of several bits, or a real one.
    Code,
    /// A remark, up to `$end`.
    Remark,
}

/// What a word says of these wires.
pub(crate) fn meaning_of(chosen: &Chosen, unit: Unit, word: &[u8]) -> Meaning
    ensures means { result ≡ meaning (codes_of chosen.now.wires.items) unit word.now }
    ensures place { HasPlace result }
{
    match word {
        [] => Meaning::Nothing,
        [b'#', digits @ ..] => time_word(unit, ticks_of(digits)),
        [letter, code @ ..] => match level_at(*letter) {
            Some(is_high) => level_word(chosen.place_of(code), is_high),
            None => Meaning::Nothing,
        },
    }
}

fn ticks_of(digits: &[u8]) -> Option<u64>
    ensures { result ≡ ticks_of digits.now }
{
    if digits.len() < LONGEST_WORD - 1 {
        number_of(digits)
    } else {
        None
    }
}

fn time_word(unit: Unit, ticks: Option<u64>) -> Meaning
    ensures means { result ≡ time_word unit ticks }
    ensures place { HasPlace result }
{
    match ticks {
        Some(ticks) => match unit.time_of(ticks) {
            Some(time_ns) => Meaning::Time(time_ns),
            None => Meaning::BadTime,
        },
        None => Meaning::BadTime,
    }
}

fn level_at(letter: u8) -> Option<bool>
    ensures { result ≡ level_at letter }
{
    match letter {
        b'1' => Some(true),
        b'0' | b'x' | b'X' | b'z' | b'Z' => Some(false),
        _ => None,
    }
}

fn level_word(place: Option<u8>, is_high: bool) -> Meaning
    requires { IfSome place (λ p. p < 5) }
    ensures means { result ≡ level_word place is_high }
    ensures place { HasPlace result }
{
    match place {
        Some(place) => Meaning::Level { place, is_high },
        None => Meaning::Nothing,
    }
}

/// What is left out after a word that says something.
pub(crate) fn skip_after(word: &[u8]) -> Skip
    ensures { result ≡ skip_after word.now }
{
    match word {
        [b'b' | b'B' | b'r' | b'R', ..] => Skip::Code,
        _ if word == b"$comment".as_slice() => Skip::Remark,
        _ => Skip::Nothing,
    }
}

/// What is left out after a word of a remark.
pub(crate) fn skip_in_remark(word: &[u8]) -> Skip
    ensures { result ≡ skip_in_remark word.now }
{
    if word == b"$end".as_slice() {
        Skip::Nothing
    } else {
        Skip::Remark
    }
}
