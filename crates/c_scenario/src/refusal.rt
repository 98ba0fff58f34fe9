//! A refusal for C.

ghost use Rattle.std.specs.Prelude.{◌≡◌};

use text_refusal::{Parts, Span};

/// Bytes of a text, from the first up to before the last; none if the two are the same.
#[repr(C)]
#[derive(Clone, Copy, Drop)]
pub struct IrigSpan {
    /// The first byte, from 0.
    pub start: usize,
    /// One behind the last.
    pub end: usize,
}

/// Why a scenario is refused: zeros if it is not.
#[repr(C)]
#[derive(Clone, Copy, Drop)]
pub struct IrigRefusal {
    /// The line, from 1.
    pub line: u64,
    /// How many bytes the reason has; 0 if there was no memory for it.
    pub whole: usize,
    /// In the reason: the object of the line, as `readers[0]`, or the byte behind which it is no
    /// JSON; empty for the line's own object.
    pub place: IrigSpan,
    /// The key in that object, in quotes.
    pub key: IrigSpan,
    /// What stands there.
    pub value: IrigSpan,
    /// What may stand there.
    pub allowed: IrigSpan,
    /// The number of the refusal, 11 to 16, 19 to 35 or 37.
    pub number: u8,
}

impl From<Span> for IrigSpan {
    fn from(span: Span) -> IrigSpan {
        IrigSpan {
            start: span.start,
            end: span.end,
        }
    }
}

impl IrigRefusal {
    /// The refusal of a line with this number, for which the reason has so many bytes.
    pub(crate) fn new(line: u64, number: u8, whole: usize, parts: Parts) -> IrigRefusal
        ensures line { result.line ≡ line }
        ensures number { result.number ≡ number }
    {
        IrigRefusal {
            line,
            whole,
            place: IrigSpan::from(parts.place),
            key: IrigSpan::from(parts.key),
            value: IrigSpan::from(parts.value),
            allowed: IrigSpan::from(parts.allowed),
            number,
        }
    }
}
