//! What is wrong with the TIME or the FRAME of a command line.

use crate::draft::Draft;
use crate::reason::Reason;
use crate::time::reason_in_form;
use std::alloc::{AllocError, Global};

/// Why a text names no UTC second of those that are served, in one line. Fails for lack of memory
/// alone.
pub fn why_no_time(alloc: Global, text: &str) -> Result<String, AllocError> {
    let mut draft = Draft::new(alloc);
    draft.quoted(text);
    match reason_in_form(text.as_bytes()) {
        Some(reason) => {
            draft.push(": ");
            draft.push(reason);
        }
        None => draft.push(" is not of the form YYYY-MM-DDTHH:MM:SSZ, as 2016-12-31T23:59:59Z"),
    }
    let Reason { text, .. } = draft.end(None)?;
    Ok(text)
}

/// Which character of a text is no symbol of a frame, and at which place, in one line. Fails
/// only if there is no memory.
pub fn why_no_frame(alloc: Global, text: &str) -> Result<String, AllocError> {
    let mut draft = Draft::new(alloc);
    if let Some((place, letter)) = first_other(text) {
        draft.push("character ");
        draft.number(place as i128);
        draft.push(" is ");
        draft.letter(letter);
        draft.push("; ");
    }
    draft.push("P, 0, 1, ? and blanks may stand there");
    let Reason { text, .. } = draft.end(None)?;
    Ok(text)
}

// The first character that is no symbol, and which it is, from 1.
fn first_other(text: &str) -> Option<(usize, char)> {
    let mut place: usize = 0;
    for letter in text.chars() {
        place = place.saturating_add(1);
        if !is_letter(letter) {
            return Some((place, letter));
        }
    }
    None
}

fn is_letter(letter: char) -> bool {
    matches!(letter, 'P' | '0' | '1' | '?' | ' ')
}
