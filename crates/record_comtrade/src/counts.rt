//! The first two lines.

ghost use Rattle.std.specs.Prelude.{◌≡◌, ◌+◌, ◌≤◌, length, slice_get, IfNone, IfOk, IfSome, None, Some};
ghost use Rattle.record_comtrade.specs.Texts.{texts_of};
ghost use Rattle.record_comtrade.specs.Configs.{at_most, count_of, counts_of, digits_in, edition_of, fault_at, is_letter};
ghost use Rattle.record_comtrade.specs.declared.fault.Field.TheVariants.{Missing};

use crate::fault::{Fault, Field};
use crate::parts::Counts;
use crate::text::Text;
use record_text::{field_of, number_of};

/// The line at a place, from 0.
pub(crate) fn line_at(lines: &[Text], place: usize) -> Option<&[u8]>
    ensures some { IfSome result (λ line. slice_get (texts_of lines.now) place ≡ Some line.now) }
    ensures none { IfNone result (slice_get (texts_of lines.now) place ≡ None) }
{
    match lines.get(place) {
        Some(text) => Some(text.bytes.as_slice()),
        None => None,
    }
}

/// That the text ends before a line.
pub(crate) fn missing(lines: &[Text]) -> Fault
    ensures { result ≡ fault_at (length (texts_of lines.now)) Missing }
{
    Fault::at(lines.len(), Field::Missing)
}

/// A number up to the most.
pub(crate) fn at_most(most: u64, number: Option<u64>) -> Option<u64>
    ensures says { result ≡ at_most most number }
    ensures few { IfSome result (λ n. n ≤ most) }
{
    match number {
        Some(number) if number <= most => Some(number),
        _ => None,
    }
}

/// The edition and the numbers of channels.
pub(crate) fn counts_of(lines: &[Text]) -> Result<Counts, Fault>
    ensures says { result ≡ counts_of (texts_of lines.now) }
    ensures few { IfOk result (λ counts. counts.analogs + counts.digitals ≤ 1999998) }
{
    let Some(station) = line_at(lines, 0) else {
        return Err(missing(lines));
    };
    let Some(edition) = edition_of(field_of(station, 2)) else {
        return Err(Fault::at(0, Field::Edition));
    };
    let Some(channels) = line_at(lines, 1) else {
        return Err(missing(lines));
    };
    let Some(analogs) = count_of(field_of(channels, 1)) else {
        return Err(Fault::at(1, Field::AnalogCount));
    };
    let Some(digitals) = count_of(field_of(channels, 2)) else {
        return Err(Fault::at(1, Field::DigitalCount));
    };
    Ok(Counts {
        edition,
        analogs,
        digitals,
    })
}

fn edition_of(text: &[u8]) -> Option<u64>
    ensures { result ≡ edition_of text.now }
{
    match text {
        [] => Some(1991),
        _ => at_most(9_999, number_of(text)),
    }
}

fn count_of(text: &[u8]) -> Option<u64>
    ensures says { result ≡ count_of text.now }
    ensures few { IfSome result (λ n. n ≤ 999999) }
{
    let (digits, letter) = text.split_at(digits_in(text));
    if is_letter(letter) {
        at_most(999_999, number_of(digits))
    } else {
        None
    }
}

// How many digits a text begins with.
fn digits_in(text: &[u8]) -> usize
    ensures count { result ≡ digits_in text.now }
    ensures within { result ≤ length text.now }
{
    for (at, byte) in text.iter().enumerate() {
        if !byte.is_ascii_digit() {
            return at;
        }
    }
    text.len()
}

fn is_letter(text: &[u8]) -> bool
    ensures { result ≡ is_letter text.now }
{
    matches!(text, [] | [b'A' | b'a' | b'D' | b'd'])
}
