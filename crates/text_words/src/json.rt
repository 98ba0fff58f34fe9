//! Where a line stops being JSON.

ghost use Rattle.std.specs.Prelude.{◌≡◌, IfOk, None};

use crate::draft::Draft;
use crate::mistake::{help_at, name_of, open_levels, other_encoding, other_file, why_cut};
use crate::reason::Reason;
use serde_json::Error;
use std::alloc::{AllocError, Global};

// How many brackets may be open in a line.
const MOST_LEVELS: usize = 127;

/// Where a line, for which the reader of JSON has this error, stops being one JSON value, and what
/// helps. It names no object. Fails only if there is no memory.
pub fn reason_of_json(alloc: Global, error: &Error, line: &[u8]) -> Result<Reason, AllocError>
    ensures { IfOk result (λ reason. reason.place ≡ None) }
{
    let mut draft = Draft::new(alloc);
    push_no_json(&mut draft, error, line);
    draft.end(None)
}

/// The reason of a line that is too long, behind its cause: what it is, if that is plainly no line
/// of a scenario. It names no object. Fails only if there is no memory.
pub fn reason_of_long_line(alloc: Global, cause: &str, line: &[u8]) -> Result<Reason, AllocError>
    ensures { IfOk result (λ reason. reason.place ≡ None) }
{
    let mut text = Draft::new(alloc);
    text.push(cause);
    if let Some(kind) = other_file(line) {
        text.push("; ");
        text.push(kind);
    }
    text.end(None)
}

fn push_no_json(draft: &mut Draft, error: &Error, line: &[u8]) {
    if let Some(kind) = other_encoding(line).or(other_file(line)) {
        push_place(draft, 1);
        draft.push(kind);
    } else if error.is_eof() {
        push_place(draft, line.len());
        draft.push(why_cut(line));
    } else {
        push_stop(draft, error.column(), line);
    }
}

// The place, counted from 1.
fn push_place(draft: &mut Draft, place: usize) {
    let start = draft.mark();
    draft.push("byte ");
    draft.number(place as i128);
    draft.parts.place = draft.since(start);
    draft.push(": ");
}

// What stands where reading stopped. Of a bracket that is too deep that is the byte behind it.
fn push_stop(draft: &mut Draft, place: usize, line: &[u8]) {
    let at = place.saturating_sub(1);
    let before = line.get(..at).unwrap_or(line);
    let levels = open_levels(before);
    if levels > MOST_LEVELS {
        push_found(draft, at, line);
        draft.push("; a line is nested at most 127 deep");
    } else {
        push_found(draft, place, line);
        draft.push(help_at(levels, before, line.get(before.len()..).unwrap_or(&[])));
    }
}

fn push_found(draft: &mut Draft, place: usize, line: &[u8]) {
    push_place(draft, place);
    let start = draft.mark();
    let rest = line.get(place.saturating_sub(1)..).unwrap_or(&[]);
    match (name_of(rest), rest) {
        (Some(name), _) => draft.push(name),
        (None, [byte, ..]) => draft.byte(*byte),
        (None, []) => draft.push("the end"),
    }
    draft.parts.value = draft.since(start);
    draft.push(" cannot stand here");
}
