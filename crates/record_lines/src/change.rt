//! Changes that wait to be played.

ghost use Rattle.std.specs.Prelude.{◌≡◌, ◌≤◌, ◌<◌, ◌+◌, [], ◌∷◌, ◌++◌, IfOk, IsTrue, length, vec_capacity};

use record_pulses::Edge;
use std::alloc::{AllocError, Global};

/// How many changes wait at most.
const MOST: usize = 4_096;

/// For so many there has to be room before more of a recording is heard.
const ROOM: usize = 10;

/// A change of a recorded line, without glitches.
#[derive(Clone, Copy)]
pub(crate) struct Change {
    pub(crate) line: u8,
    pub(crate) time_ns: u64,
    pub(crate) is_high: bool,
    ghost there: { line < 5 },
}

impl Change {
    ghost use Rattle.record_lines.specs.Changes.{edge_of};

    pub(crate) fn of(line: u8, edge: Edge) -> Change
        requires { line < 5 }
        ensures line { result.line ≡ line }
        ensures edge { edge_of result ≡ edge }
    {
        Change {
            line,
            time_ns: edge.time_ns,
            is_high: edge.is_high,
        }
    }

    pub(crate) fn edge(&self) -> Edge
        ensures { result ≡ edge_of self.now }
    {
        Edge {
            time_ns: self.time_ns,
            is_high: self.is_high,
        }
    }
}

impl Default for Change {
    ghost is_default = { λ change. change.line ≡ 0 };

    fn default() -> Change {
        Change {
            line: 0,
            time_ns: 0,
            is_high: false,
        }
    }
}

/// Changes, in the order in which they came, of which the first were played. They have their memory from
/// the first on, so that none is lost for the lack of it.
#[derive(Drop)]
pub(crate) struct Held {
    pub(crate) changes: Vec<Change>,
    pub(crate) played: usize,
    ghost few: { played ≤ length changes.items },
    ghost most: { length changes.items ≤ 4096 },
    ghost memory: { 4096 ≤ vec_capacity changes },
}

impl Held {
    ghost use Rattle.record_lines.specs.Helds.{has_room, room};

    pub(crate) fn new(alloc: Global) -> Result<Held, AllocError>
        ensures nothing { IfOk result (λ held. held.changes.items ≡ []) }
        ensures room { IfOk result (λ held. room held ≡ 4096) }
    {
        Ok(Held {
            changes: Vec::with_capacity(alloc, MOST)?,
            played: 0,
        })
    }

    /// Whether there is room for what a recording says at one time.
    pub(crate) fn has_room(&self) -> bool
        ensures { result ≡ has_room self.now }
    {
        self.changes.len() + ROOM <= MOST
    }

    /// One more, if there is room.
    pub(crate) fn push(&mut self, change: Change)
        ensures changes { 0 < room self.old
            → self.new.changes.items ≡ self.old.changes.items ++ change ∷ [] }
        ensures played { self.new.played ≡ self.old.played }
        ensures room { room self.old ≤ room self.new + 1 }
    {
        if self.changes.len() < MOST {
            let _ = self.changes.push(change);
        }
    }

    /// All were played.
    pub(crate) fn clear(&mut self)
        ensures nothing { self.new.changes.items ≡ [] }
        ensures room { room self.new ≡ 4096 }
    {
        self.changes.clear();
        self.played = 0;
    }
}
