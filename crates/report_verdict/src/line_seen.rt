//! What was seen on a line, as a text.

ghost use Rattle.std.specs.Prelude.{◌≡◌, ◌++◌, ◌∷◌, ◌<◌, ◌^◌, [], string_bytes, OnOk};
ghost use Rattle.report_verdict.specs.LineText.{byte_text, code_text, count_line, drift_line, drift_text, drift_word, hex_digit, inverted_text, is_plain, label_text, line_name, line_text, mean_us, name_text, oddity_line, oddity_words, spread_line, tenths_line, tenths_ppm, times_text, widths_text};

use crate::number_text::push_thousandths;
use record_pulses::{Oddity, Seen, Spread, Widths};
use std::alloc::AllocError;

const SECOND_US: u128 = 1_000_000;

/// A line of a recording, and what was seen on it.
#[derive(Clone, Copy)]
pub struct LineSeen<'a> {
    /// Its name, by whoever made the recording.
    pub name: &'a [u8],
    /// Whether its pulses are low.
    pub is_inverted: bool,
    /// What its pulses are.
    pub seen: &'a Seen,
}

/// Pushes the name of a line, by its number, or that number if nothing is known of the line.
pub(crate) fn push_line_name(
    text: &mut String,
    lines: &[LineSeen<'_>],
    line: u8,
) -> Result<(), AllocError>
    ensures { OnOk result (string_bytes text.new
        ≡ string_bytes text.old ++ line_name lines.now line) }
{
    match lines.get(usize::from(line)) {
        Some(seen) => push_name(text, seen.name),
        None => write!(text, "line {line}"),
    }
}

/// Pushes a name that may be of any bytes: those that are no plain ASCII, and the backslash, as `\xNN`.
pub(crate) fn push_name(text: &mut String, name: &[u8]) -> Result<(), AllocError>
    ensures { OnOk result (string_bytes text.new ≡ string_bytes text.old ++ name_text name.now) }
{
    for byte in name {
        push_byte(text, *byte)?;
    }
    Ok(())
}

fn push_byte(text: &mut String, byte: u8) -> Result<(), AllocError>
    ensures { OnOk result (string_bytes text.new ≡ string_bytes text.old ++ byte_text byte) }
{
    if is_plain(byte) {
        text.push(char::from(byte))
    } else {
        push_code(text, byte)
    }
}

// Pushes a byte as `\xNN`.
fn push_code(text: &mut String, byte: u8) -> Result<(), AllocError>
    ensures { OnOk result (string_bytes text.new ≡ string_bytes text.old ++ code_text byte) }
{
    text.push_str("\\x")?;
    push_digit(text, byte / 16)?;
    push_digit(text, byte % 16)
}

/// Pushes a hexadecimal digit.
pub(crate) fn push_digit(text: &mut String, number: u8) -> Result<(), AllocError>
    requires { number < 16 }
    ensures { OnOk result (string_bytes text.new
        ≡ string_bytes text.old ++ hex_digit number ∷ []) }
{
    text.push(char::from(hex_digit(number)))
}

fn hex_digit(number: u8) -> u8
    requires { number < 16 }
    ensures digit { result ≡ hex_digit number }
    ensures ascii { result < 128 }
{
    if number < 10 {
        b'0' + number
    } else {
        b'a' + (number - 10)
    }
}

/// Whether a byte is plain ASCII, and no backslash.
pub(crate) fn is_plain(byte: u8) -> bool
    ensures { result ≡ is_plain byte }
{
    (0x20..0x7f).contains(&byte) && byte != b'\\'
}

/// Pushes what was seen on a line.
pub(crate) fn push_line(text: &mut String, line: &LineSeen<'_>) -> Result<(), AllocError>
    ensures { OnOk result (string_bytes text.new ≡ string_bytes text.old ++ line_text line.now) }
{
    push_counts(text, line)?;
    push_widths(text, &line.seen.widths)?;
    push_spread(text, "gap ", &line.seen.gaps_in_step)?;
    push_drift(text, line.seen)?;
    push_oddity(text, line.seen.oddity())
}

#[tactic(auto, unfolding(crate::specs::LineText::count_line))]
fn push_counts(text: &mut String, line: &LineSeen<'_>) -> Result<(), AllocError>
    ensures { OnOk result (string_bytes text.new ≡ string_bytes text.old ++ count_line line.now) }
{
    let pulses = line.seen.counts.pulses;
    let frames = line.seen.counts.frames;
    let out_of_step = line.seen.counts.out_of_step;
    let end = inverted_word(line.is_inverted);
    push_name(text, line.name)?;
    write!(
        text,
        ": {pulses} pulses, {frames} frames, {out_of_step} out of step{end}"
    )
}

fn inverted_word(is_inverted: bool) -> &'static str
    ensures { result.now ≡ inverted_text is_inverted }
{
    if is_inverted { ", inverted\n" } else { "\n" }
}

#[tactic(auto, unfolding(crate::specs::LineText::widths_text))]
fn push_widths(text: &mut String, widths: &Widths) -> Result<(), AllocError>
    ensures { OnOk result (string_bytes text.new
        ≡ string_bytes text.old ++ widths_text widths.now) }
{
    push_spread(text, "0   ", &widths.zero)?;
    push_spread(text, "1   ", &widths.one)?;
    push_spread(text, "P   ", &widths.marker)?;
    push_spread(text, "?   ", &widths.bad)
}

#[tactic(auto, unfolding(crate::specs::LineText::spread_line))]
fn push_spread(text: &mut String, label: &str, spread: &Spread) -> Result<(), AllocError>
    ensures { OnOk result (string_bytes text.new
        ≡ string_bytes text.old ++ spread_line label.now spread.now) }
{
    let count = spread.count;
    if count == 0 {
        return Ok(());
    }
    write!(text, "    {label}{count}  ")?;
    push_times(text, spread)?;
    text.push_str("\n")
}

#[tactic(auto, unfolding(crate::specs::LineText::times_text))]
fn push_times(text: &mut String, spread: &Spread) -> Result<(), AllocError>
    ensures { OnOk result (string_bytes text.new ≡ string_bytes text.old ++ times_text spread.now) }
{
    push_thousandths(text, spread.least_us)?;
    text.push_str(" to ")?;
    push_thousandths(text, spread.most_us)?;
    text.push_str(" ms, mean ")?;
    push_thousandths(text, mean_us(spread))
}

// To the nearest microsecond; of no times 0.
fn mean_us(spread: &Spread) -> u64
    ensures { result ≡ mean_us spread.now }
{
    if spread.count == 0 {
        0
    } else {
        spread.sum_us.saturating_add(spread.count / 2) / spread.count
    }
}

// How much longer or shorter the line's seconds are than those of the recorder: from frame to frame, or
// where no frame follows another by the pulses in step.
fn push_drift(text: &mut String, seen: &Seen) -> Result<(), AllocError>
    ensures { OnOk result (string_bytes text.new ≡ string_bytes text.old ++ drift_text seen.now) }
{
    if seen.counts.frames == 0 {
        Ok(())
    } else if seen.seconds.count == 0 {
        let gaps = &seen.gaps_in_step;
        push_drift_of(text, 100 * u128::from(gaps.sum_us), gaps.count)
    } else {
        push_drift_of(text, u128::from(seen.seconds.sum_us), seen.seconds.count)
    }
}

// That of so many seconds that are together so long.
fn push_drift_of(text: &mut String, sum_us: u128, count: u64) -> Result<(), AllocError>
    requires { sum_us < 2 ^ 72 }
    ensures { OnOk result (string_bytes text.new
        ≡ string_bytes text.old ++ drift_line sum_us count) }
{
    if count == 0 {
        return Ok(());
    }
    let tenths = tenths_ppm(sum_us, count);
    let is_shorter = tenths > 0 && sum_us < u128::from(count) * SECOND_US;
    push_tenths(text, tenths, drift_word(is_shorter))
}

#[tactic(auto, unfolding(crate::specs::LineText::tenths_line))]
fn push_tenths(text: &mut String, tenths: u64, word: &str) -> Result<(), AllocError>
    ensures { OnOk result (string_bytes text.new
        ≡ string_bytes text.old ++ tenths_line tenths word.now) }
{
    let whole = tenths / 10;
    let tenth = tenths % 10;
    write!(
        text,
        "    a second is {whole}.{tenth} ppm {word} than one of the recorder\n"
    )
}

fn drift_word(is_shorter: bool) -> &'static str
    ensures { result.now ≡ drift_word is_shorter }
{
    if is_shorter { "shorter" } else { "longer" }
}

// To the nearest tenth of a part in a million.
fn tenths_ppm(sum_us: u128, count: u64) -> u64
    requires sum { sum_us < 2 ^ 72 }
    requires some { 0 < count }
    ensures { result ≡ tenths_ppm sum_us count }
{
    let count = u128::from(count);
    let off_us = sum_us.abs_diff(count * SECOND_US);
    ((10 * off_us + count / 2) / count).min(u128::from(u64::MAX)) as u64
}

fn push_oddity(text: &mut String, oddity: Option<Oddity>) -> Result<(), AllocError>
    ensures { OnOk result (string_bytes text.new ≡ string_bytes text.old ++ oddity_line oddity) }
{
    match oddity {
        Some(oddity) => push_words(text, oddity_words(oddity)),
        None => Ok(()),
    }
}

#[tactic(auto, unfolding(crate::specs::LineText::label_text))]
fn push_words(text: &mut String, words: &str) -> Result<(), AllocError>
    ensures { OnOk result (string_bytes text.new ≡ string_bytes text.old ++ label_text words.now) }
{
    write!(text, "    {words}\n")
}

fn oddity_words(oddity: Oddity) -> &'static str
    ensures { result.now ≡ oddity_words oddity }
{
    match oddity {
        Oddity::Silent => "nothing is on it",
        Oddity::Single => "one pulse alone is on it",
        Oddity::Filtered =>
            "no pulse of 2 ms is on it: a filter of its input, of milliseconds, takes them away",
        Oddity::Uneven => "its pulses are not 10 ms apart: another code, or a modulated one",
        Oddity::NeverBegins => "no frame begins: never do two markers follow each other",
        Oddity::NeverWhole =>
            "frames begin, and none has a hundred pulses, each 10 ms after the one before",
        Oddity::Bare =>
            "its year and control bits are all 0, as of a clock without those of IEEE 1344",
    }
}
