//! The audit of a device, as it goes.

ghost use Rattle.std.specs.Prelude.{◌≡◌, ◌≤◌, ◌<◌, ◌∷◌, ◌^◌, if◌then◌else◌, [], ℕ, List};
ghost use Rattle.irig_sync.specs.Edges.{element_at};
ghost use Rattle.irig_vote.specs.Vote.{ports_in};
ghost use Rattle.irig_timekeeper.specs.Life.{Call};
ghost use Rattle.irig_timekeeper.specs.Life.Call.{Hear, Tick};
ghost use Rattle.irig_frame.specs.declared.symbol.Symbol.{Symbol};
ghost use Rattle.irig_lines.specs.Exactness.{most_within_us};
ghost use Rattle.irig_witness.specs.Witness.{IsSaidOf, TrueLines, after_rise};

use crate::line::{LineWitness, Risen, hear_most, hear_rise, new_witness};
use irig_lines::{ClockRules, is_pulse};

/// The audit of a device so far. Its times are those of the device's counter, which does not wrap
/// here.
#[derive(Clone, Copy)]
pub struct Watch {
    pub(crate) a: LineWitness,
    pub(crate) b: LineWitness,
    pub(crate) c: LineWitness,
    pub(crate) d: LineWitness,
    pub(crate) e: LineWitness,
    pub(crate) last_tick: u64,
    pub(crate) is_kept: bool,
    ghost small: { last_tick < 2 ^ 56 },
}

impl Watch {
    ghost use Rattle.irig_witness.specs.Watches as watches;
    ghost use Rattle.irig_witness.specs.Watches.{IsWatchOf};
    ghost use Rattle.irig_witness.specs.Unfinished as unfinished;
    ghost use Rattle.irig_witness.specs.Unfinished.{WatchesUnfinished, after_more};

    /// Of a device whose life begins at a time, less than 2^56: it was made or restarted.
    pub fn new(start: u64) -> Self
        requires { start < 2 ^ 56 }
        ensures { (c : ClockRules) (x : TrueLines) → IsWatchOf result c x start [] }
    {
        Watch {
            a: new_witness(),
            b: new_witness(),
            c: new_witness(),
            d: new_witness(),
            e: new_witness(),
            last_tick: start,
            is_kept: true,
        }
    }

    /// Whether the calls so far kept the premises: they were in order, and at each tick at most f
    /// lines were untrue.
    pub fn is_kept(&self) -> bool
        ensures { result ≡ self.now.is_kept }
    {
        self.is_kept
    }

    /// Hears a pulse on a line, with what a true line has there.
    pub fn hear(&mut self, clock: &ClockRules, line: u8, pulse: Risen)
        requires line { line < ports_in clock.now.redundancy }
        requires rise { pulse.rise < 2 ^ 58 }
        requires element { pulse.element < 2 ^ 58 }
        requires begins { pulse.begins < 2 ^ 58 }
        ensures { (x : TrueLines) (start : ℕ) (calls : List Call)
            → IsWatchOf self.old clock.now x start calls → pulse.element ≡ x.near pulse.rise
            → pulse.begins ≡ element_at x.edges pulse.element
            → IsSaidOf (x.symbol line) pulse.element pulse.width_us pulse.symbol
            → IsWatchOf self.new clock.now x start (Hear line pulse.rise pulse.width_us ∷ calls) }
    {
        if !is_pulse(pulse.width_us) {
            return;
        }
        let is_kept = self.kept_at_pulse(line, pulse.rise);
        self.hear_rise(line, clock.within.us(), pulse);
        self.is_kept = is_kept;
    }

    fn hear_rise(&mut self, line: u8, within_us: u32, pulse: Risen)
        requires within { within_us ≤ most_within_us }
        requires rise { pulse.rise < 2 ^ 58 }
        requires element { pulse.element < 2 ^ 58 }
        requires begins { pulse.begins < 2 ^ 58 }
        ensures { (symbols : ℕ → Symbol) (edges : ℕ → ℕ)
            → pulse.begins ≡ element_at edges pulse.element
            → IsSaidOf symbols pulse.element pulse.width_us pulse.symbol
            → self.new ≡ watches.with_witness self.old line
            (after_rise within_us symbols edges (watches.witness_at self.old line) pulse.element
            pulse.rise pulse.width_us) }
    {
        match line {
            0 => hear_rise(&mut self.a, within_us, pulse),
            1 => hear_rise(&mut self.b, within_us, pulse),
            2 => hear_rise(&mut self.c, within_us, pulse),
            3 => hear_rise(&mut self.d, within_us, pulse),
            _ => hear_rise(&mut self.e, within_us, pulse),
        }
    }

    /// Whether a frame that begins at an element, with a pulse that rises then, may be told by
    /// [`hear_unfinished`](Self::hear_unfinished): that element is yet to come, and the pulse is told in
    /// order.
    pub fn may_begin(&self, line: u8, rise: u64, element: u64) -> bool
        requires { rise < 2 ^ 58 }
        ensures { result ≡ unfinished.may_begin self.now line rise element }
    {
        self.witness_at(line).next <= element && self.may_hear(line, rise)
    }

    /// Hears all pulses of a frame but its last one on a line, at once: they are those of a true line
    /// from `element` on, and the last of them rose at `last`.
    pub fn hear_unfinished(&mut self, line: u8, element: u64, last: u64)
        requires line { line < 5 }
        requires element { element < 2 ^ 58 }
        requires rise { last < 2 ^ 58 }
        ensures on { WatchesUnfinished self.old self.new line element last }
        ensures others { (other : ℕ) → other < 5 → ¬ (other ≡ line)
            → watches.witness_at self.new other ≡ watches.witness_at self.old other }
        ensures tick { self.new.last_tick ≡ self.old.last_tick }
    {
        self.hear_most(line, element, last);
    }

    fn hear_most(&mut self, line: u8, element: u64, last: u64)
        requires element { element < 2 ^ 58 }
        requires rise { last < 2 ^ 58 }
        ensures { self.new ≡ watches.with_witness self.old line
            (after_more (watches.witness_at self.old line) 98 element last) }
    {
        match line {
            0 => hear_most(&mut self.a, element, last),
            1 => hear_most(&mut self.b, element, last),
            2 => hear_most(&mut self.c, element, last),
            3 => hear_most(&mut self.d, element, last),
            _ => hear_most(&mut self.e, element, last),
        }
    }

    /// Hears of a tick.
    pub fn tick(&mut self, clock: &ClockRules, now: u64)
        requires { now < 2 ^ 56 }
        ensures { (x : TrueLines) (start : ℕ) (calls : List Call)
            → IsWatchOf self.old clock.now x start calls
            → IsWatchOf self.new clock.now x start (Tick now ∷ calls) }
    {
        self.is_kept = self.kept_at_tick(clock.redundancy.f(), now);
        self.last_tick = now;
    }

    /// Whether a tick that comes now is in order.
    pub fn may_tick(&self, now: u64) -> bool
        requires { now < 2 ^ 56 }
        ensures { result ≡ watches.may_tick self.now now }
    {
        self.last_tick <= now
            && now + 504_000 < self.last_tick + 1_800_000_000
            && self.rose_by(now + 4_000)
    }

    fn rose_by(&self, time: u64) -> bool
        ensures { result ≡ watches.rose_by self.now time }
    {
        self.a.rise <= time
            && self.b.rise <= time
            && self.c.rise <= time
            && self.d.rise <= time
            && self.e.rise <= time
    }

    fn kept_at_pulse(&self, line: u8, rise: u64) -> bool
        requires { rise < 2 ^ 58 }
        ensures { result ≡ watches.kept_at_pulse self.now line rise }
    {
        self.is_kept && self.may_hear(line, rise)
    }

    fn kept_at_tick(&self, f: u8, now: u64) -> bool
        requires { now < 2 ^ 56 }
        ensures { result ≡ watches.kept_at_tick self.now f now }
    {
        self.is_kept && self.may_tick(now) && self.doubted(now) <= f
    }

    fn may_hear(&self, line: u8, rise: u64) -> bool
        requires { rise < 2 ^ 58 }
        ensures { result ≡ watches.may_hear self.now line rise }
    {
        self.witness_at(line).rise <= rise && self.last_tick <= rise + 500_000
    }

    fn doubted(&self, now: u64) -> u8
        ensures { result ≡ watches.doubted_in self.now now }
    {
        one_if(now < self.a.clear)
            + one_if(now < self.b.clear)
            + one_if(now < self.c.clear)
            + one_if(now < self.d.clear)
            + one_if(now < self.e.clear)
    }

    fn witness_at(&self, line: u8) -> LineWitness
        ensures { result ≡ watches.witness_at self.now line }
    {
        match line {
            0 => self.a,
            1 => self.b,
            2 => self.c,
            3 => self.d,
            _ => self.e,
        }
    }
}

fn one_if(is_so: bool) -> u8
    ensures { result ≡ (if is_so then 1 else 0) }
{
    if is_so { 1 } else { 0 }
}
