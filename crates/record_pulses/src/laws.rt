//! Laws of lines over their definitions. They have no code.

ghost use Rattle.std.specs.Prelude.{◌≡◌, ℕ, ◌++◌, Bool, List, reverse};
ghost use Rattle.irig_sync.specs.Lines.{AreOnTime};
ghost use Rattle.record_pulses.specs.Glitches.{AreInOrder, IsSteady, without_glitches};
ghost use Rattle.record_pulses.specs.Pulses.{AreInTurn, IsOnLine, IsOneOf, pulses_of};
ghost use Rattle.record_pulses.specs.Views.{heard, place_now};

use crate::edge::{Edge, Pulse};

/// A line without glitches has none: of changes in order of time those that come out are in order of
/// time, each is to the other level, and each level that ends has lasted as long as is asked. So those
/// that came out so far are in turn, as [`Pulses`](crate::Pulses) and [`Looks`](crate::Looks) ask for.
pub fn a_steady_line_has_no_glitches()
    ensures steady { (shortest : ℕ) (edges : List Edge) → AreInOrder edges
        → IsSteady shortest (without_glitches shortest edges) }
    ensures in_turn { (shortest : ℕ) (first rest : List Edge)
        → IsSteady shortest (first ++ rest) → AreInTurn (reverse first) }
{}

/// Each pulse is between two changes in a row of the line: it begins with the one to the polarity's
/// level and ends with the one to the other level. The line has the polarity's level from the pulse's
/// rise until its end, and the pulse's numbers are within half a microsecond of what was recorded.
pub fn pulses_are_on_the_line()
    ensures { (polarity : Bool) (edges : List Edge) (pulse : Pulse) → AreInTurn edges
        → IsOneOf pulse (pulses_of polarity edges) → IsOnLine polarity edges pulse }
{}

/// A frame is whole when its pulses came in step: of the hundred that end it each but the first rose 9 to
/// 11 ms after the one before.
pub fn a_whole_frame_is_in_step()
    ensures { (pulses : List Pulse) → place_now pulses ≡ 100 → AreOnTime 100 (heard pulses) }
{}
