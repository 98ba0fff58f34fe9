//! Laws of the synchroniser over its definitions. They have no code.

ghost use Rattle.std.specs.Prelude.{◌≡◌, ◌↔◌, ◌⊎◌, ◌<◌, ◌≤◌, ◌+◌, ◌-◌, ◌*◌, ◌/◌, ◌%◌, ◌^◌, ℕ, suc, true, List, [], ◌∷◌, length};
ghost use Rattle.irig_frame.specs.declared.symbol.Symbol.{Symbol};
ghost use Rattle.irig_frame.specs.Decoder.{Reads};
ghost use Rattle.irig_sync.specs.declared.sync.Sync.{Sync};
ghost use Rattle.irig_sync.specs.Edges.{IsClock};
ghost use Rattle.irig_sync.specs.Sync.{is_on_time, clock_gap, place_of, pulse_of, idle_of};
ghost use Rattle.irig_sync.specs.Lines.{Pulse, pulse_at, IsSyncOf, IsInTurn, place_after, AreOnTime, ArePlacesFrom, IsTrueLine, IsTimeOf, StandAt, IsAfter, IsSyncAt, IsSoon};
ghost use Rattle.irig_sync.specs.FaultyLines.{ArePulsesBefore, HasOneFault, LeavesTheNext};

use irig_frame::Coded;

/// A pulse more: what [`Sync::pulse`](crate::Sync::pulse) leaves is of the pulses with this one, if
/// less than a turn of the clock lies between.
pub fn one_pulse_more()
    ensures { (s : Sync) (pulses : List Pulse) (time width : ℕ) → IsSyncOf s pulses
        → IsInTurn pulses time
        → IsSyncOf (pulse_of s (time % 2 ^ 32) width) (pulse_at time width ∷ pulses) }
{}

/// What is counted came on time: of as many last pulses as the place says, each but the first came
/// on time behind the one before. So in step no pulse was lost, and none came between.
pub fn counted_are_on_time()
    ensures { (pulses : List Pulse) → AreOnTime (place_after pulses) pulses }
{}

/// Of a line of true frames no hundred symbols in a row but a whole frame read as a time.
pub fn no_rotation()
    ensures { (line : ℕ → Symbol) (k : ℕ) (s : List Symbol) (c : Coded)
        → IsTrueLine line → StandAt line k s → Reads s c → k % 100 ≡ 0 }
{}

/// From any state, on a line of true frames that is heard from its a-th element on, each pulse from
/// the 101st on is counted as the element that it is: so each frame that begins then is whole.
pub fn found_after_101_pulses()
    ensures { (line : ℕ → Symbol) (a : ℕ) (places : ℕ → ℕ) → IsTrueLine line
        → ArePlacesFrom line a places → (k : ℕ) → a + 100 ≤ k → places k ≡ k % 100 + 1 }
{}

/// A pulse of a line that comes behind another one, whatever was lost between, is on time exactly
/// if it is that of the next element: so no loss moves a symbol. (Less than a turn of the clock
/// lies between: see [`no_wrap`].)
///
/// The clock may drift by d us a second, if pulses rise less than `off` us from their elements'
/// times, and twice `off` and a hundredth of d, rounded up, come to 1,001 at most: so they may lie
/// less than 500 us off if it drifts by 100 us at most. An element's time is measured between the
/// edges round it, so that the drift moves none.
pub fn no_slip()
    ensures { (edges : ℕ → ℕ) (off d j k before time : ℕ) → IsClock d off edges
        → IsTimeOf edges off j before → IsTimeOf edges off k time → j < k → time - before < 2 ^ 32
        → (is_on_time (clock_gap (before % 2 ^ 32) (time % 2 ^ 32)) ≡ true) ↔ (k ≡ j + 1) }
{}

/// The clock's wrap never shows: if [`Sync::idle`](crate::Sync::idle) is called at least once in
/// half an hour, each pulse has the place that it would have by a clock that does not wrap, however
/// long the line was silent.
pub fn no_wrap()
    ensures first { (s : Sync) (now : ℕ) → IsSyncOf s [] → IsSyncAt s [] now }
    ensures place { (s : Sync) (pulses : List Pulse) (now time width : ℕ) → IsSyncAt s pulses now
        → IsAfter pulses time → IsSoon now time → place_of s (time % 2 ^ 32) width
        ≡ place_after (pulse_at time width ∷ pulses) }
    ensures pulse { (s : Sync) (pulses : List Pulse) (now time width : ℕ) → IsSyncAt s pulses now
        → IsAfter pulses time → IsSoon now time
        → IsSyncAt (pulse_of s (time % 2 ^ 32) width) (pulse_at time width ∷ pulses) time }
    ensures idle { (s : Sync) (pulses : List Pulse) (now time : ℕ) → IsSyncAt s pulses now
        → now ≤ time → IsSoon now time → IsSyncAt (idle_of s (time % 2 ^ 32)) pulses time }
{}

/// A fault costs the places of its own frame alone: on a line of true frames, heard for a hundred
/// pulses, each pulse has the place of its element, and it has so again from the next frame's first
/// pulse on if one pulse was lost, or other ones came in its place.
///
/// At a frame's last element the first of the next frame has to be left: see `LeavesTheNext`. The
/// clock may drift, as in [`no_slip`].
pub fn a_fault_costs_its_own_frame()
    ensures in_step { (line : ℕ → Symbol) (edges : ℕ → ℕ) (off d k : ℕ) (p : Pulse)
        (ps : List Pulse) → IsTrueLine line → IsClock d off edges
        → ArePulsesBefore line edges off (suc k) (p ∷ ps) → 100 ≤ length ps
        → place_after (p ∷ ps) ≡ k % 100 + 1 }
    ensures behind { (line : ℕ → Symbol) (edges : ℕ → ℕ) (off d : ℕ) (pulses : List Pulse)
        → IsTrueLine line → IsClock d off edges → (h : HasOneFault line edges off pulses)
        → (h.element % 100 < 99) ⊎ LeavesTheNext edges off d h.element h.fault h.before
        → 100 * (h.element / 100 + 1) ≤ h.element + length h.after
        → place_after pulses ≡ (h.element + length h.after) % 100 + 1 }
{}
