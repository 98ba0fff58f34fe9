//! What stands below the rates.

ghost use Rattle.std.specs.Prelude.{◌≡◌, ◌<◌};
ghost use Rattle.record_comtrade.specs.Texts.{texts_of};
ghost use Rattle.record_comtrade.specs.Configs.{form_of, multiple_of, tail_of, text_at};

use crate::counts::{line_at, missing};
use crate::fault::{Fault, Field};
use crate::parts::{Form, Tail};
use crate::text::Text;
use record_text::{field_of, millionths_of};

/// The form and the multiple, where the first stamp has the line at that place.
pub(crate) fn tail_of(lines: &[Text], place: usize) -> Result<Tail, Fault>
    requires { place < 5000000 }
    ensures { result ≡ tail_of (texts_of lines.now) place }
{
    let Some(line) = line_at(lines, place + 2) else {
        return Err(missing(lines));
    };
    let Some(form) = form_of(field_of(line, 0)) else {
        return Err(Fault::at(place + 2, Field::Samples));
    };
    let Some(multiple) = multiple_of(field_of(text_at(lines, place + 3), 0)) else {
        return Err(Fault::at(place + 3, Field::Multiple));
    };
    Ok(Tail { form, multiple })
}

/// The line at a place, or an empty one.
pub(crate) fn text_at(lines: &[Text], place: usize) -> &[u8]
    ensures { result.now ≡ text_at (texts_of lines.now) place }
{
    match lines.get(place) {
        Some(text) => text.bytes.as_slice(),
        None => &[],
    }
}

fn form_of(text: &[u8]) -> Option<Form>
    ensures { result ≡ form_of text.now }
{
    if text.eq_ignore_ascii_case(b"ASCII") {
        Some(Form::Ascii)
    } else if text.eq_ignore_ascii_case(b"BINARY") {
        Some(Form::Binary)
    } else if text.eq_ignore_ascii_case(b"BINARY32") {
        Some(Form::Binary32)
    } else if text.eq_ignore_ascii_case(b"FLOAT32") {
        Some(Form::Float32)
    } else {
        None
    }
}

fn multiple_of(text: &[u8]) -> Option<u64>
    ensures { result ≡ multiple_of text.now }
{
    match text {
        [] => Some(1_000_000),
        _ => millionths_of(text),
    }
}
