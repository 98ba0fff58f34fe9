//! Lanes of a picture: edges at which something stood alike, and marks.

ghost use Rattle.std.specs.Prelude.{◌≡◌};
ghost use Rattle.report_lanes.specs.Lanes.{same_lock, are_alike, grown, ended};

use irig_reader::{Cause, Lock};
use report_found::{Kind, same_cause};

/// What is to be seen of a reader.
#[derive(Clone, Copy)]
pub enum Shows {
    /// How it stood, and why. The count of the lock is that of the first edge.
    Stood(Lock, Cause),
    /// What one of its ports told, 0 to 4.
    Told(u8, Kind),
    /// What came at the edge.
    Mark(Mark),
}

/// What comes at an edge, by the true seconds.
#[derive(Clone, Copy, PartialEq, Eq)]
pub enum Mark {
    /// A leap second begins, 23:59:60.
    LeapSecond,
    /// A month begins, and the last second of the one before, 23:59:59, was left out.
    DeletedSecond,
    /// A month begins.
    MonthEnd,
}

/// Edges of a reader, one after another, at which something is alike. Of a device these are the edges
/// of seconds that it told one after another: an edge between them that it did not tell belongs to
/// the lane, and behind a restart one may come again.
#[derive(Clone, Copy)]
pub struct Lane {
    /// The reader or device, by its place in the plant line, 0 to 15.
    pub reader: u8,
    /// The first edge.
    pub first: u64,
    /// The last edge.
    pub last: u64,
    /// What is to be seen.
    pub shows: Shows,
}

impl Shows {
    /// Whether it is the same, but for counts.
    pub fn is_like(&self, other: &Shows) -> bool
        ensures { result ≡ are_alike self.now other.now }
    {
        match (self, other) {
            (Shows::Stood(lock, cause), Shows::Stood(next, other)) => {
                same_lock(*lock, *next) && same_cause(*cause, *other)
            }
            (Shows::Told(_, kind), Shows::Told(_, other)) => kind.is(*other),
            _ => false,
        }
    }
}

fn same_lock(lock: Lock, other: Lock) -> bool
    ensures { result ≡ same_lock lock other }
{
    match (lock, other) {
        (Lock::Unlocked, Lock::Unlocked)
        | (Lock::Acquiring(_), Lock::Acquiring(_))
        | (Lock::Locked, Lock::Locked)
        | (Lock::Holdover(_), Lock::Holdover(_)) => true,
        _ => false,
    }
}

/// The lane that is open after an edge at which this is to be seen.
pub(crate) fn grown(before: Option<Lane>, now: Lane) -> Lane
    ensures { result ≡ grown before now }
{
    match before {
        Some(lane) if lane.shows.is_like(&now.shows) => Lane {
            last: now.last,
            ..lane
        },
        _ => now,
    }
}

/// The lane that such an edge ends.
pub(crate) fn ended(before: Option<Lane>, now: &Lane) -> Option<Lane>
    ensures { result ≡ ended before now.now }
{
    match before {
        Some(lane) if lane.shows.is_like(&now.shows) => None,
        _ => before,
    }
}
