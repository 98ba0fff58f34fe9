//! Ticks that find nothing to do.

ghost use Rattle.std.specs.Prelude.{◌≡◌, IsTrue};
ghost use Rattle.c_lines.specs.Quiet.{are_quiet, is_quiet_line};
ghost use Rattle.c_keeper.specs.Quiet.{is_quiet, IsAtRest};
ghost use Rattle.c_keeper.specs.Timekeepers.{HasShortInterval};

use crate::anchors::are_young;
use crate::timekeeper::{IrigTimekeeper, edge_of};
use c_lines::are_quiet;
use irig_lines::edges_own;

/// Whether a tick has nothing to tell and leaves the timekeeper as it is, as most do that come
/// often: no line keeps a frame that could vote, none becomes idle, what is seen of none is gone, and
/// no second has come by the own counter.
pub fn is_quiet(timekeeper: &IrigTimekeeper, now_us: u32) -> bool
    ensures value { result ≡ is_quiet timekeeper.now now_us }
    ensures rest { HasShortInterval timekeeper.now → IsTrue result
        → IsAtRest timekeeper.now now_us }
{
    // What the proof has to know of a number that is not read here.
    prove!(timekeeper.begin_us <= u32::MAX);
    // Whether one has come does not depend on what was learned.
    edges_own(None, edge_of(timekeeper), now_us) == 0
        && are_young(timekeeper.has_interval, &timekeeper.anchors)
        && are_quiet(&timekeeper.lines, now_us)
}
