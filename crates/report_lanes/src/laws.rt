//! What is proved of the definitions. It has no code.

ghost use Rattle.std.specs.Prelude.{◌≡◌, ℕ, List, Some, IfSome, is_some, true};
ghost use Rattle.report_found.specs.declared.stretch.Stretch.{Stretch as StretchOf};
ghost use Rattle.report_found.specs.declared.tick.Tick.{Tick as TickOf};
ghost use Rattle.report_found.specs.Stretches.{stretch_of};
ghost use Rattle.report_lanes.specs.Lanes.{lane_of, stood_at, told_at};
ghost use Rattle.report_lanes.specs.LongestRuns.{IsLongest, IsOfStretch};

use crate::lane::Lane;

/// The open lane of a reader, and that of one of its ports, is the longest run of the reader's newest
/// ticks at which it stood alike, or the port told alike, from its first edge to its last.
pub fn lanes_are_longest_runs()
    ensures stood { (ts : List TickOf) (lane : Lane) → lane_of stood_at ts ≡ Some lane
        → IsLongest stood_at ts lane }
    ensures told { (port : ℕ) (ts : List TickOf) (lane : Lane)
        → lane_of (told_at port) ts ≡ Some lane → IsLongest (told_at port) ts lane }
{}

/// Where a port has an open stretch, by what blame finds, its open lane is of the same kind, with the
/// same edges.
pub fn stretches_are_lanes()
    ensures same { (port : ℕ) (ts : List TickOf) (s : StretchOf) → stretch_of port ts ≡ Some s
        → IfSome (lane_of (told_at port) ts) (IsOfStretch port s) }
    ensures some { (port : ℕ) (ts : List TickOf) (s : StretchOf) → stretch_of port ts ≡ Some s
        → is_some (lane_of (told_at port) ts) ≡ true }
{}
