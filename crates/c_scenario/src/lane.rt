//! What a picture shows, in numbers.

ghost use Rattle.std.specs.Prelude.{◌≡◌, map};
ghost use Rattle.c_scenario.specs.Lanes.{mark_number, lane_for};
ghost use Rattle.c_scenario.specs.Runs.{written_over};

use crate::stretch::kind_of;
use c_numbers::{cause_number, lock_number};
use report_lanes::{Lane, Mark, Shows};

/// Edges of a reader, one after another, at which something is alike.
#[repr(C)]
#[derive(Clone, Copy, Drop)]
pub struct IrigLane {
    /// The first edge.
    pub first_edge: u64,
    /// The last edge.
    pub last_edge: u64,
    /// 1 how the reader stood, 2 what a port told, 3 what came at the edge.
    pub kind: u8,
    /// The reader, by its place in the plant line, 0 to 15.
    pub reader: u8,
    /// Of kind 2: the port, 0 to 4.
    pub port: u8,
    /// Of kind 1 the lock, as of an entry. Of kind 2 what the port told: 0 the truth, and else as of a
    /// stretch. Of kind 3 1 a leap second, 2 a deleted second, where a month ends too, 3 a month's end.
    pub state: u8,
    /// Of kind 1: why, as of an entry.
    pub cause: u8,
}

/// Writes lanes over the beginning of `room`, as many as it has room for.
pub(crate) fn write_lanes(room: &mut [IrigLane], lanes: &[Lane])
    ensures { room.new ≡ written_over room.old (map lane_for lanes.now) }
{
    for index in 0..room.len().min(lanes.len()) {
        room[index] = lane_for_c(&lanes[index]);
    }
}

fn lane_for_c(lane: &Lane) -> IrigLane
    ensures { result ≡ lane_for lane.now }
{
    let (kind, port, state, cause) = match lane.shows {
        Shows::Stood(lock, cause) => (1, 0, lock_number(lock), cause_number(cause)),
        Shows::Told(port, kind) => (2, port, kind_of(kind), 0),
        Shows::Mark(mark) => (3, 0, mark_number(mark), 0),
    };
    IrigLane {
        first_edge: lane.first,
        last_edge: lane.last,
        kind,
        reader: lane.reader,
        port,
        state,
        cause,
    }
}

fn mark_number(mark: Mark) -> u8
    ensures { result ≡ mark_number mark }
{
    match mark {
        Mark::LeapSecond => 1,
        Mark::DeletedSecond => 2,
        Mark::MonthEnd => 3,
    }
}
