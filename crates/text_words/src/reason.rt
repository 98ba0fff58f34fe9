//! Why a line is refused, and where in that text its parts stand.

ghost use Rattle.std.specs.Prelude.{◌≡◌, IfOk, None};

use crate::draft::Draft;
use crate::path::JsonPath;
use std::alloc::{AllocError, Global};

/// Bytes of a text, from the first up to before the last; none if the two are the same.
#[derive(Clone, Copy)]
pub struct Span {
    /// The first byte, from 0.
    pub start: usize,
    /// One behind the last.
    pub end: usize,
}

impl Span {
    /// No bytes.
    pub const NONE: Span = Span { start: 0, end: 0 };
}

/// Where in the text of a reason its parts stand; a part that it does not have is empty.
#[derive(Clone, Copy)]
pub struct Parts {
    /// The object of the line, as `readers[0]`, or the byte behind which it is no JSON, as
    /// `byte 12`; empty for the line's own object.
    pub place: Span,
    /// The key in that object, in quotes.
    pub key: Span,
    /// What stands there.
    pub value: Span,
    /// What may stand there.
    pub allowed: Span,
}

impl Parts {
    /// No parts.
    pub const NONE: Parts = Parts {
        place: Span::NONE,
        key: Span::NONE,
        value: Span::NONE,
        allowed: Span::NONE,
    };
}

/// Why a line is refused, in one line of text.
#[derive(Drop)]
pub struct Reason {
    /// The place, what stands there, and what may stand there.
    pub text: String,
    /// The object that it names; none if it names none.
    pub place: Option<JsonPath>,
    /// Where these stand in the text.
    pub parts: Parts,
}

/// The reason that a text says, which names no place. Fails only if there is no memory.
pub fn reason_of_cause(alloc: Global, cause: &str) -> Result<Reason, AllocError>
    ensures { IfOk result (λ reason. reason.place ≡ None) }
{
    let mut draft = Draft::new(alloc);
    draft.push(cause);
    draft.end(None)
}
