//! A frame as text, and what it says.

ghost use Rattle.std.specs.Prelude.{◌≡◌, ◌↔◌, ◌≤◌, ◌++◌, Err, IfErr, IfOk, List, OnErr, OnOk, length, string_bytes, take};
ghost use Rattle.irig_frame.specs.declared.symbol.Symbol.{Symbol};
ghost use Rattle.text_frame.specs.Letters.{Shows, ShowsNoSymbols};
ghost use Rattle.text_frame.specs.Reading.{IsReadingOf, clock_text, coded_line, reading_text, with_zeros};

use crate::told::{push_told, told_by};
use arrayvec::ArrayVec;
use irig_frame::{Coded, Symbol, decode};
use irig_time::Rules;
use std::alloc::{AllocError, Global};

/// Why nothing is said of a text.
#[derive(Clone, Copy, PartialEq, Eq)]
pub enum ReadingFault {
    /// It has a letter of no symbol.
    BadFrameText,
    /// There was no memory.
    Memory,
}

/// What the frame says: the line of the time that it codes, if it codes one, and the line of what a
/// port of these rules tells of it; `BadFrameText` if the text has a letter of no symbol, `Memory`
/// if there was none.
pub fn frame_lines(alloc: Global, text: &[u8], rules: Rules) -> Result<String, ReadingFault>
    ensures lines { IfOk result (λ lines. IsReadingOf rules text.now (string_bytes lines)) }
    ensures bad_text { (result ≡ Err ReadingFault.BadFrameText)
        ↔ ShowsNoSymbols text.now }
{
    let symbols = symbols_of(text)?;
    let mut lines = String::new(alloc);
    match push_reading(&mut lines, rules, symbols.as_slice()) {
        Ok(()) => Ok(lines),
        Err(_) => Err(ReadingFault::Memory),
    }
}

// The symbols, or the first 101 of them, which are enough to see that there are too many.
fn symbols_of(text: &[u8]) -> Result<ArrayVec<Symbol, 101>, ReadingFault>
    ensures ok { IfOk result (λ kept. (symbols : List Symbol) × Shows text.now symbols
        × (kept.items ≡ take 101 symbols)) }
    ensures err { OnErr result (ShowsNoSymbols text.now) }
    ensures kind { IfErr result (λ fault. fault ≡ ReadingFault.BadFrameText) }
{
    let mut symbols = ArrayVec::new();
    for letter in text {
        if *letter == b' ' {
            continue;
        }
        let Some(symbol) = Symbol::from_letter(*letter) else {
            return Err(ReadingFault::BadFrameText);
        };
        if !symbols.is_full() {
            symbols.push(symbol);
        }
    }
    Ok(symbols)
}

// Adds the lines of what the symbols say.
fn push_reading(text: &mut String, rules: Rules, symbols: &[Symbol]) -> Result<(), AllocError>
    requires { length symbols.now ≤ 101 }
    ensures { OnOk result (string_bytes text.new
        ≡ string_bytes text.old ++ reading_text rules symbols.now) }
{
    if let Ok(coded) = decode(symbols) {
        push_coded(text, &coded)?;
    }
    push_told(text, told_by(rules, symbols))
}

// Adds the line of the time that a frame codes.
#[tactic(auto, unfolding(crate::specs::Reading::coded_line))]
fn push_coded(text: &mut String, coded: &Coded) -> Result<(), AllocError>
    ensures { OnOk result (string_bytes text.new
        ≡ string_bytes text.old ++ coded_line coded.now) }
{
    let year = 2000 + u16::from(coded.year);
    write!(text, "coded {year}-")?;
    push_three_digits(text, coded.day)?;
    text.push_str(" ")?;
    push_clock(text, coded)?;
    let Coded { control, sbs, .. } = *coded;
    write!(text, " control {control} sbs {sbs}\n")
}

// Adds the time of day, as HH:MM:SS.
#[tactic(auto, unfolding(crate::specs::Reading::clock_text))]
fn push_clock(text: &mut String, coded: &Coded) -> Result<(), AllocError>
    ensures { OnOk result (string_bytes text.new
        ≡ string_bytes text.old ++ clock_text coded.now) }
{
    push_two_digits(text, coded.hour)?;
    text.push_str(":")?;
    push_two_digits(text, coded.minute)?;
    text.push_str(":")?;
    push_two_digits(text, coded.second)
}

fn push_two_digits(text: &mut String, number: u8) -> Result<(), AllocError>
    ensures { OnOk result (string_bytes text.new
        ≡ string_bytes text.old ++ with_zeros 2 number) }
{
    write!(text, "{number:02}")
}

fn push_three_digits(text: &mut String, number: u16) -> Result<(), AllocError>
    ensures { OnOk result (string_bytes text.new
        ≡ string_bytes text.old ++ with_zeros 3 number) }
{
    write!(text, "{number:03}")
}
