//! Laws of an audit over its definitions. They have no code.

ghost use Rattle.std.specs.Prelude.{◌≡◌, ◌↔◌, ◌∷◌, ◌%◌, ◌^◌, ◌<◌, ◌≤◌, ◌+◌, ◌*◌, ℕ, Bool, List, Some, count_by, true, false};
ghost use Rattle.std.specs.List.{range_with_len};
ghost use Rattle.irig_frame.specs.declared.symbol.Symbol.{Symbol};
ghost use Rattle.irig_sync.specs.Lines.{Pulse};
ghost use Rattle.irig_time.specs.Timelines.{TimelineValue};
ghost use Rattle.irig_vote.specs.Vote.{f_of};
ghost use Rattle.irig_lines.specs.Exactness.{most_within_us};
ghost use Rattle.irig_lines.specs.Lines.{ArePulsesLately, IsTrueLately};
ghost use Rattle.irig_timekeeper.specs.Keeping.{answer_at, stamp_at};
ghost use Rattle.irig_timekeeper.specs.Truth.{IsStampedTruly, IsToldInHoldover};
ghost use Rattle.irig_timekeeper.specs.Life.{Call, Made, AreInOrder, LivesTruly, life_of, pulses_on};
ghost use Rattle.irig_timekeeper.specs.Life.Call.{Tick};
ghost use Rattle.irig_timekeeper.specs.Lived.{MadeOf};
ghost use Rattle.irig_lives.specs.Decided.{in_order};
ghost use Rattle.irig_wires.specs.Oscillator.{counter_at, edges_by};
ghost use Rattle.irig_witness.specs.Elements.{IsLateLine, KeepsRate};
ghost use Rattle.irig_witness.specs.Witness.{AreSameBefore, HaveEnded, KeepsPremises, TrueLines, is_doubted, is_kept, lines_by};
ghost use Rattle.irig_witness.specs.Promise.{IsStampedInTime, IsTrueDevice, IsTrueSetup, lines_of};
ghost use Rattle.irig_witness.specs.Devices.{IsDeviceOf, edges_of};

use crate::device::Device;
use irig_lines::ClockRules;
use irig_port::Port;
use irig_time::UtcSecond;
use irig_timekeeper::{Beat, Stamp};
use irig_vote::Redundancy;

/// An audit is right: let a device be what its setting says, and the lines true beside which its
/// calls are audited. If the audit is kept, the device has lived as the laws of a timekeeper ask.
pub fn an_audit_is_right()
    ensures lives { (t : TimelineValue) (x : TrueLines) (made : Made) (start : ℕ)
        (calls : List Call) → IsTrueDevice t made.rules made.clock made.table x
        → is_kept made.clock x start calls ≡ true
        → LivesTruly (IsTrueLately made.clock.within.us) t x.edges made start calls }
    // So each second that is announced is the true one, and its told edge lies near it.
    ensures tells { (t : TimelineValue) (x : TrueLines) (made : Made) (start now : ℕ)
        (calls : List Call) (beat : Beat) (u : UtcSecond)
        → IsTrueDevice t made.rules made.clock made.table x
        → is_kept made.clock x start (Tick now ∷ calls) ≡ true
        → answer_at (life_of made calls) (now % 2 ^ 32) ≡ Some beat
        → beat.report.announce ≡ Some u
        → IsToldInHoldover t x.edges 0 0 made.clock now beat u }
    // And each stamp names its instant that is asked for at a time at which a tick could come, of
    // an event of the half hour before.
    ensures stamps { (t : TimelineValue) (x : TrueLines) (made : Made) (start time now : ℕ)
        (calls : List Call) (stamp : Stamp) → IsTrueDevice t made.rules made.clock made.table x
        → is_kept made.clock x start calls ≡ true
        → in_order start made.clock.redundancy (Tick now ∷ calls) ≡ true
        → time ≤ now → now ≤ time + 1800000000
        → stamp_at (life_of made calls) (time % 2 ^ 32) ≡ Some stamp
        → IsStampedTruly t x.edges 0 time stamp }
{}

/// A device vouches for what it says, by what a plant line says of it alone: the timeline, a
/// counter that keeps to its rate, and a leap table that is true, or a holdover of at most 57
/// seconds. Whatever its generators sent, and whatever else happened to it, if its audit is kept
/// beside what they sent, each second that it announces is the true one, and its told edge lies
/// near it.
pub fn a_device_vouches()
    ensures tells { (t : TimelineValue) (sent : ℕ → ℕ → List (List Symbol)) (first rate : ℕ)
        (made : Made) (start now : ℕ) (calls : List Call) (beat : Beat) (u : UtcSecond)
        → IsTrueSetup t rate made.clock made.table
        → is_kept made.clock (lines_of made.rules t sent first rate) start (Tick now ∷ calls) ≡ true
        → answer_at (life_of made calls) (now % 2 ^ 32) ≡ Some beat
        → beat.report.announce ≡ Some u
        → IsToldInHoldover t (edges_by first rate) 0 0 made.clock now beat u }
    // By true time: a stamp of the instant so many microseconds behind T(n) names one that lies no
    // further from it than its bound and the drift of two seconds.
    ensures stamps { (t : TimelineValue) (sent : ℕ → ℕ → List (List Symbol))
        (first rate n tau : ℕ) (made : Made) (start now : ℕ) (calls : List Call) (stamp : Stamp)
        → IsTrueSetup t rate made.clock made.table → tau < 1000000
        → is_kept made.clock (lines_of made.rules t sent first rate) start calls ≡ true
        → in_order start made.clock.redundancy (Tick now ∷ calls) ≡ true
        → counter_at first rate (n * 1000000 + tau) ≤ now
        → now ≤ counter_at first rate (n * 1000000 + tau) + 1800000000
        → stamp_at (life_of made calls) (counter_at first rate (n * 1000000 + tau) % 2 ^ 32)
        ≡ Some stamp
        → IsStampedInTime t made.clock.drift_us n tau stamp }
    // Two devices stamp one instant alike, each with a counter, lines, ticks and a setting of its
    // own: their stamps differ by the sum of their bounds at most, and the drift of two seconds of
    // each.
    ensures together { (t : TimelineValue) (d e n tau : ℕ) (one two : Stamp)
        → (by_one : IsStampedInTime t d n tau one) → (by_two : IsStampedInTime t e n tau two)
        → by_one.m * 1000000 + one.offset_us
        ≤ by_two.m * 1000000 + two.offset_us + one.bound_us + two.bound_us + 2 * d + 2 * e }
{}

/// No alarm too many: a line whose pulses of the last 1.2 s are those of the line that the audit
/// compares it with, each so near its place as the setting says, is not doubted.
pub fn an_audit_doubts_no_true_line()
    ensures { (d first rate within : ℕ) (symbol : ℕ → ℕ → Symbol) (redundancy : Redundancy)
        (start line now k : ℕ) (calls : List Call) → KeepsRate d rate → within ≤ most_within_us
        → AreInOrder start redundancy calls
        → ArePulsesLately within (symbol line) (edges_by first rate) now k (pulses_on line calls)
        → is_doubted within (lines_by symbol first rate) calls now line ≡ false }
{}

/// An audit is exact: beside lines of whatever symbols, by a counter that keeps a rate, it is kept
/// exactly if calls were in order, and at each tick all but at most f lines had brought in the last
/// 1.2 s only pulses of their elements, in order, each so near its place as the setting says.
pub fn an_audit_is_exact()
    ensures { (d first rate : ℕ) (symbol : ℕ → ℕ → Symbol) (clock : ClockRules) (start : ℕ)
        (calls : List Call) → KeepsRate d rate
        → KeepsPremises clock (lines_by symbol first rate) start calls
        ↔ (is_kept clock (lines_by symbol first rate) start calls ≡ true) }
{}

/// A late line is true: let its pulses come in order, each between `least` and `most` microseconds
/// of true time behind its element's begin, and let the device take a delay of `taken` off. If they
/// are then less than `within` - 1 microseconds off, by true time, they are those of a true line.
pub fn a_late_line_is_true()
    ensures line { (d first rate within now : ℕ) (line : ℕ → Symbol) (pulses : List Pulse)
        → KeepsRate d rate → (late : IsLateLine within line first rate pulses)
        → ArePulsesLately within line (edges_by first rate) now late.next pulses }
    // So an audit of calls in order is kept, however often the device ticks, if all but at most f
    // of its lines are so late, each by itself.
    ensures kept { (d first rate start : ℕ) (symbol : ℕ → ℕ → Symbol) (clock : ClockRules)
        (calls : List Call) (untrue : ℕ → Bool) → KeepsRate d rate
        → AreInOrder start clock.redundancy calls
        → count_by untrue (range_with_len 0 5) ≤ f_of clock.redundancy
        → ((line : ℕ) → line < 5 → untrue line ≡ false
        → IsLateLine clock.within.us (symbol line) first rate (pulses_on line calls))
        → is_kept clock (lines_by symbol first rate) start calls ≡ true }
{}

/// An audit asks only of what has begun: beside lines that differ in no second which begins before a
/// time, it is the same, if each pulse has ended by that time and no line has a bad one. For a pulse
/// that is so near an element of a later second is less than 450 us wide, so as wide as no symbol.
pub fn an_audit_asks_of_what_has_begun<P: Port>(device: &Device<P>)
    ensures kept { (first rate time start : ℕ) (symbol other : ℕ → ℕ → Symbol)
        (clock : ClockRules) (calls : List Call)
        → AreSameBefore (edges_by first rate) time symbol other → HaveEnded time calls
        → is_kept clock (lines_by symbol first rate) start calls
        ≡ is_kept clock (lines_by other first rate) start calls }
    // So a device of which only seconds are known that have begun is one beside all of them.
    ensures same { (time start : ℕ) (symbol other : ℕ → ℕ → Symbol) (made : MadeOf)
        (calls : List Call) → AreSameBefore (edges_of device.now) time symbol other
        → HaveEnded time calls → IsDeviceOf device.now made symbol start calls
        → IsDeviceOf device.now made other start calls }
{}

/// An audit that is kept was kept before each call.
pub fn a_kept_audit_was_kept()
    ensures { (clock : ClockRules) (x : TrueLines) (start : ℕ) (call : Call) (calls : List Call)
        → is_kept clock x start (call ∷ calls) ≡ true → is_kept clock x start calls ≡ true }
{}
