//! How far a list was read.

ghost use Rattle.std.specs.Prelude.{◌≡◌, ◌≤◌, length};
ghost use Rattle.record_list.specs.Changes.{heard, placed, placed_at, seen, start, until};

use crate::chosen::bit_of;
use crate::pulse::{Look, Pulse};
use crate::row::{Reason, Row, Span, span_of};
use record_levels::Levels;

/// Why a list is refused, and where.
#[derive(Clone, Copy, PartialEq, Eq)]
pub struct Fault {
    /// The line, from 1 at the top of the text.
    pub line: u64,
    /// What is wrong with it.
    pub reason: Reason,
}

/// Why nothing more is read.
#[derive(Clone, Copy, PartialEq, Eq)]
pub enum ListFault {
    /// There was no memory.
    Memory,
    /// A line is refused.
    Refused(Fault),
}

// A row that lies back by more than this is refused.
const BACK_NS: u64 = 1_000_000_000;

/// How far the levels were said, and what is known of the rows.
#[derive(Clone, Copy)]
pub(crate) struct Now {
    /// Whether there was a row.
    pub(crate) is_begun: bool,
    /// The levels before this time were said.
    pub(crate) at_ns: u64,
    /// The last ones, if any were.
    pub(crate) high: Option<u8>,
    /// When the newest pulse rose.
    pub(crate) newest_ns: u64,
    /// When the last pulse ended.
    pub(crate) end_ns: u64,
}

/// What is made of levels that were looked at.
#[derive(Clone, Copy)]
pub(crate) struct Seen {
    /// Those, unless they are the last ones.
    pub(crate) levels: Option<Levels>,
    pub(crate) now: Now,
}

/// The pulse of a row, and how far the list is read with it.
#[derive(Clone, Copy)]
pub(crate) struct Placed {
    pub(crate) now: Now,
    pub(crate) pulse: Pulse,
}

impl Now {
    /// Before the first row.
    pub(crate) fn start() -> Now
        ensures { result ≡ start }
    {
        Now {
            is_begun: false,
            at_ns: 0,
            high: None,
            newest_ns: 0,
            end_ns: 0,
        }
    }

    /// The levels before this time are sure.
    pub(crate) fn until(self) -> u64
        ensures { result ≡ until self }
    {
        self.newest_ns.saturating_sub(BACK_NS)
    }

    /// These levels stand from here to the next time.
    pub(crate) fn see(self, look: Look) -> Seen
        ensures { result ≡ seen self look.high look.next_ns }
    {
        let levels = if self.high == Some(look.high) {
            None
        } else {
            Some(Levels {
                time_ns: self.at_ns,
                high: look.high,
            })
        };
        Seen {
            levels,
            now: Now {
                at_ns: look.next_ns,
                high: Some(look.high),
                ..self
            },
        }
    }

    /// With a row more, where these ports are chosen.
    pub(crate) fn place(self, ports: &[u64], row: Result<Row, Reason>) -> Result<Placed, Reason>
        requires { length ports.now ≤ 5 }
        ensures { result ≡ placed ports.now self row }
    {
        match row {
            Ok(row) => self.place_at(bit_of(ports, row.port), span_of(self, row)),
            Err(reason) => Err(reason),
        }
    }

    fn place_at(self, bit: u8, span: Result<Span, Reason>) -> Result<Placed, Reason>
        ensures { result ≡ placed_at self bit span }
    {
        match span {
            Ok(span) => Ok(Placed {
                now: self.hear(span),
                pulse: Pulse {
                    bit,
                    from_ns: span.from_ns,
                    to_ns: span.to_ns,
                },
            }),
            Err(reason) => Err(reason),
        }
    }

    fn hear(self, span: Span) -> Now
        ensures { result ≡ heard self span }
    {
        let newest_ns = self.newest_ns.max(span.from_ns);
        Now {
            is_begun: true,
            at_ns: if self.is_begun {
                self.at_ns
            } else {
                self.at_ns.max(span.from_ns.saturating_sub(BACK_NS))
            },
            newest_ns,
            end_ns: self.end_ns.max(span.to_ns),
            ..self
        }
    }
}
