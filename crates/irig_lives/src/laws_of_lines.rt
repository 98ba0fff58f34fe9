//! Laws of what a device says of its lines.

ghost use Rattle.std.specs.Prelude.{◌≡◌, ◌-◌, ◌<◌, ℕ, List, ◌∷◌, false};
ghost use Rattle.irig_time.specs.Timelines.{TimelineValue};
ghost use Rattle.irig_lines.specs.Lines.{IsTrueLately};
ghost use Rattle.irig_timekeeper.specs.Life.{Call, Made, AreInOrder, LivesTruly, last_tick, life_of, pulses_on};
ghost use Rattle.irig_timekeeper.specs.Life.Call.{Tick};
ghost use Rattle.irig_timekeeper.specs.States.{state_of};
ghost use Rattle.irig_timekeeper.specs.LineTruths.{is_untrue, IsSaidRightly};

/// What is said of lines is so: of every life in which at each tick all but at most f lines were true
/// in the last 1.2 s, no line that was true since 2.7 s before the last tick is said to be uneven, apart
/// or to differ; and of any line what is said is so.
pub fn what_is_said_of_lines_is_so()
    // Behind a tick.
    ensures tick { (t : TimelineValue) (edges : ℕ → ℕ) (made : Made) (start now line : ℕ)
        (calls : List Call)
        → LivesTruly (IsTrueLately made.clock.within.us) t edges made start (Tick now ∷ calls)
        → line < 5
        → IsTrueLately made.clock.within.us made.rules t edges (now - 1500000) (pulses_on line calls)
        → is_untrue (state_of made.clock (life_of made (Tick now ∷ calls)).state line) ≡ false }
    // And behind each pulse since, while a tick could come.
    ensures life { (t : TimelineValue) (edges : ℕ → ℕ) (made : Made) (start now line : ℕ)
        (calls : List Call)
        → LivesTruly (IsTrueLately made.clock.within.us) t edges made start calls
        → AreInOrder start made.clock.redundancy (Tick now ∷ calls) → line < 5
        → IsTrueLately made.clock.within.us made.rules t edges (last_tick start calls - 1500000)
        (pulses_on line calls)
        → is_untrue (state_of made.clock (life_of made calls).state line) ≡ false }
    // Of any line a frame is false that is said to be, and so are uneven and silent ones; one that agrees
    // claims a true second, and ends near its edge.
    ensures said { (t : TimelineValue) (edges : ℕ → ℕ) (made : Made) (start now line : ℕ)
        (calls : List Call)
        → LivesTruly (IsTrueLately made.clock.within.us) t edges made start calls
        → AreInOrder start made.clock.redundancy (Tick now ∷ calls) → line < 5
        → IsSaidRightly made.clock (life_of made calls).state made.rules t edges
        (last_tick start calls) (pulses_on line calls)
        (state_of made.clock (life_of made calls).state line) }
{}
