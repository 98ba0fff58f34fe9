//! Laws of oscillators and lines over their definitions, for the crates above. They have no code.

ghost use Rattle.std.specs.Prelude.{◌≡◌, ◌↔◌, ◌⊎◌, ◌<◌, ◌≤◌, ◌+◌, ◌*◌, ◌/◌, ℕ, ℤ, unsigned_abs, List, Option, None, Some};
ghost use Rattle.irig_wires.specs.Oscillator.{counter_at, edges_by, rate_of, time_of};
ghost use Rattle.irig_wires.specs.Wires.{ended, late_at, most_late_us, wire_at, with_wire};
ghost use Rattle.irig_wires.specs.Happenings.{next_end, coming_of};
ghost use Rattle.irig_wires.specs.Order.{ComesFirst, EndsFirst, IsNotBefore, IsOnItsWay, NoneEndsBefore, behind_end};
ghost use Rattle.irig_wires.specs.Calls.{AreApart, AreBy, AreElements, AreOnLines, Call, IsLeftAlone, IsNotBack, LineCall, as_sent, brought, called, called_on, calls_on, carried, sendings, wire_after, wires_after};
ghost use Rattle.irig_wires.specs.Calls.Call.{Take};

use crate::wire::{Flight, Wire};
use crate::wires::{Coming, Ending, Happening, Wires};

/// An oscillator counts evenly. What gains or loses no more than d microseconds a second counts no more
/// than d more or less in each. The counter does not go back, and shows its rate more a second later. At
/// the beginning of each second of true time nothing is rounded. Over any time it counts what the rate
/// says, rounded down, or one more.
pub fn an_oscillator_counts_evenly()
    ensures rate { (gain : ℤ) (d : ℕ) → unsigned_abs gain ≤ d
        → (1000000 ≤ rate_of gain + d) × (rate_of gain ≤ 1000000 + d) }
    ensures forward { (first rate s t : ℕ) → s ≤ t
        → counter_at first rate s ≤ counter_at first rate t }
    ensures second { (first rate t : ℕ)
        → counter_at first rate (t + 1000000) ≡ counter_at first rate t + rate }
    ensures edges { (first rate n : ℕ)
        → edges_by first rate n ≡ counter_at first rate (n * 1000000) }
    ensures span { (first rate t d : ℕ)
        → (counter_at first rate t + d * rate / 1000000 ≤ counter_at first rate (t + d))
        × (counter_at first rate (t + d) ≤ counter_at first rate t + d * rate / 1000000 + 1) }
{}

/// A counter shows a count or more exactly from the count's first time on.
pub fn a_count_has_its_first_time()
    ensures { (first rate count time : ℕ) → 0 < rate
        → (count ≤ counter_at first rate time) ↔ (time_of first rate count ≤ time) }
{}

/// What is done with one line of a device changes that line alone: each is what its own calls make of
/// it.
pub fn lines_are_apart()
    ensures own { (wires : Wires) (line : ℕ) (wire : Wire) → line < 5
        → wire_at (with_wire wires line wire) line ≡ wire }
    ensures others { (wires : Wires) (line : ℕ) (wire : Wire) (other : ℕ) → line < 5 → other < 5
        → ¬ (other ≡ line) → wire_at (with_wire wires line wire) other ≡ wire_at wires other }
    ensures each { (late : List ℕ) (calls : List LineCall) (line : ℕ) → line < 5
        → AreOnLines calls → wire_at (wires_after late calls) line
        ≡ wire_after (late_at late line) (calls_on line calls) }
{}

/// A line never has two pulses at once, whatever is sent or added: what is on its way stays until
/// it has ended and is taken. By calls in order of time each pulse has ended when the next one
/// rises.
pub fn a_line_has_one_pulse_at_a_time()
    ensures stays { (call : Call) (wire : Wire) (flight : Flight) → wire.flight ≡ Some flight
        → ((called call wire).flight ≡ Some flight)
        ⊎ ((now : ℕ) × (call ≡ Take now) × (flight.end_us ≤ now)) }
    ensures apart { (late time : ℕ) (calls : List Call) → AreBy time calls
        → AreApart time (brought late calls) }
    ensures next { (late time : ℕ) (calls : List Call) (flight : Flight) → AreBy time calls
        → (wire_after late calls).flight ≡ Some flight
        → AreApart flight.rise_us (brought late calls) }
{}

/// A line that is left alone loses no element of a time code, and each rises exactly so many
/// microseconds after it was sent as the line is late: its cable is in, nothing is added by hand,
/// and pulses of 8 ms at most are sent 10 ms apart or more.
pub fn a_line_left_alone_loses_none()
    ensures { (late : ℕ) (calls : List Call) → late ≤ most_late_us → IsLeftAlone late calls
        → AreElements (sendings calls) → carried late calls ≡ as_sent late (sendings calls) }
{}

/// What `next` answers comes first of all that is to come, and nothing else does; of ends alone the
/// first is `next_end`, by its definition. When generators send next, no line has a pulse that has
/// ended and was not taken.
pub fn what_comes_next_comes_first()
    ensures next { (wires : Wires) (tick : Option ℕ) (send : ℕ) (coming : Coming)
        → ComesFirst wires tick send coming ↔ (coming ≡ coming_of wires tick send) }
    ensures sends { (wires : Wires) (tick : Option ℕ) (send line : ℕ) → line < 5
        → (coming_of wires tick send).what ≡ Happening.Send
        → ended send (wire_at wires line).flight ≡ None }
    ensures end { (wires : Wires) (ending : Ending)
        → EndsFirst wires ending ↔ (next_end wires ≡ Some ending) }
    ensures none { (wires : Wires) → next_end wires ≡ None → (line : ℕ) (flight : Flight)
        → ¬ IsOnItsWay wires line flight }
{}

/// Time does not go back. If none of all that is to come lies before now, what happens next does not
/// either; and no call that is made from now on brings an end before now. So a pulse is taken at its
/// very end, and by calls in order of time pulses are taken in the order of their ends; those of one
/// time by the number of their line.
pub fn time_does_not_go_back()
    ensures next { (wires : Wires) (tick : Option ℕ) (send now : ℕ) → NoneEndsBefore wires now
        → IsNotBefore tick now → now ≤ send → now ≤ (coming_of wires tick send).time_us }
    ensures kept { (wires : Wires) (on : LineCall) (time : ℕ) → on.line < 5
        → IsNotBack time on.call → NoneEndsBefore wires time
        → NoneEndsBefore (called_on on wires) time }
    ensures taken { (wires : Wires) (line now : ℕ) (flight : Flight) → line < 5
        → NoneEndsBefore wires now → ended now (wire_at wires line).flight ≡ Some flight
        → flight.end_us ≡ now }
    ensures row { (wires : Wires) (first next : Ending) → next_end wires ≡ Some first
        → next_end (behind_end wires first) ≡ Some next
        → (first.flight.end_us ≤ next.flight.end_us)
        × (first.flight.end_us ≡ next.flight.end_us → first.line < next.line) }
{}
