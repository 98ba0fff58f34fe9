//! A timekeeper that hears lines while time passes.

ghost use Rattle.std.specs.Prelude.{◌≡◌, ◌<◌, ◌≤◌, ◌+◌, ◌%◌, ◌^◌, IfSome, MatchResult, None, Some};
ghost use Rattle.irig_lines.specs.Delays.{corrected, delay_at};
ghost use Rattle.irig_lines.specs.Refusals.{clock_fault};
ghost use Rattle.irig_reader.specs.Rules.{IsReaderRules};
ghost use Rattle.record_lines.specs.Times.{next_tick, risen_at};

use crate::rises::Rises;
use crate::told::{ToldSecond, low, told_by};
use irig_lines::{ClockFault, ClockRules, delay_at, is_pulse};
use irig_port::Port;
use irig_time::{LeapTable, Rules};
use irig_timekeeper::Timekeeper;

// It is ticked no sooner after its last tick, so that a stretch of time takes no more ticks than it has
// milliseconds.
const SOONEST_US: u64 = 1_000;

// And no later: while it knows no edge, each frame of a line that is heard alone names a time a second
// later.
const LATEST_US: u64 = 2_000_000;

// How far ahead of where time stands a pulse may rise at its clock.
const AHEAD_US: u64 = 4_000;

/// A timekeeper that hears lines while time passes, and is ticked as it asks: no sooner than 1 ms after
/// its last tick, and 2 s after it at the latest.
///
/// Its times are in microseconds of a counter of 64 bits that does not wrap, and less than 2^56. The
/// timekeeper is told them by 32 bits.
#[derive(Drop)]
pub struct Receiver<P: Port> {
    pub(crate) keeper: Timekeeper<P>,
    pub(crate) clock: ClockRules,
    pub(crate) rises: Rises,
    pub(crate) ticked_us: u64,
    pub(crate) now_us: u64,
    pub(crate) due_us: u64,
    ghost same: { keeper.clock ≡ clock },
    ghost small: { now_us < 2 ^ 56 },
    ghost gone: { ticked_us ≤ now_us },
    ghost due: { now_us ≤ due_us },
    ghost soonest: { ticked_us + 1000 ≤ due_us },
    ghost latest: { due_us ≤ ticked_us + 2000000 },
}

impl<P: Port> Receiver<P> {
    ghost use Rattle.record_lines.specs.Receivers.{IsNewReceiver, may_hear, told_rise};
    ghost use Rattle.record_lines.specs.Passing.{HearsOn, IsTickedLater, StandsAt, TicksOn, TicksUntil};

    /// A receiver to which nothing was told, where time stands at `start_us`, with reader's rules that are
    /// [`in_range`](irig_reader::in_range); or the first fault of its setup, by
    /// [`clock_fault`](irig_lines::clock_fault).
    pub fn new(
        rules: Rules,
        clock: ClockRules,
        table: LeapTable,
        start_us: u64,
    ) -> Result<Self, ClockFault>
        requires rules { IsReaderRules clock.reader_rules }
        requires start { start_us < 2 ^ 56 }
        ensures { MatchResult result
            (λ receiver. IsNewReceiver receiver (record {
              rules = rules;
              clock = clock;
              table = table;
            }) start_us)
            (λ fault. clock_fault clock.reader_rules clock.drift_us clock.wander_ppb ≡ Some fault) }
    {
        let keeper = Timekeeper::new(rules, clock, table)?;
        let wait_us = keeper.wait(low(start_us));
        Ok(Receiver {
            keeper,
            clock,
            rises: Rises::new(),
            ticked_us: start_us,
            now_us: start_us,
            due_us: next_tick(start_us, start_us, wait_us),
        })
    }

    /// Where time stands.
    pub fn now_us(&self) -> u64
        ensures { result ≡ self.now.now_us }
    {
        self.now_us
    }

    /// Time passes to another, less than 2^56, or to the first tick until then that tells a second, which
    /// is answered: then it is called again. `None` once time stands there. A time before where time
    /// stands changes nothing.
    pub fn pass_to(&mut self, time_us: u64) -> Option<ToldSecond>
        requires { time_us < 2 ^ 56 }
        ensures ticks { TicksUntil self.old self.new result }
        ensures stands { StandsAt self.old self.new time_us result }
        ensures before { time_us < self.old.now_us → (result ≡ None) × (self.new ≡ self.old) }
        ensures later { IsTickedLater self.old self.new result }
        ensures set { self.new.clock ≡ self.old.clock }
    {
        if time_us < self.now_us {
            return None;
        }
        let told = self.tick_until(time_us);
        if told.is_none() {
            self.now_us = time_us;
        }
        told
    }

    // The ticks that are due by then, up to one that tells a second.
    fn tick_until(&mut self, time_us: u64) -> Option<ToldSecond>
        requires small { time_us < 2 ^ 56 }
        requires forward { self.old.now_us ≤ time_us }
        ensures ticks { TicksUntil self.old self.new result }
        ensures none { result ≡ None → (self.new.now_us ≤ time_us) × (time_us < self.new.due_us) }
        ensures some { IfSome result (λ told. (self.new.now_us ≡ told.at_us) × (told.at_us ≤ time_us)) }
        ensures later { IsTickedLater self.old self.new result }
        ensures set { self.new.clock ≡ self.old.clock }
    {
        // each tick comes a millisecond after the one before at the soonest
        for _ in 0..time_us / SOONEST_US + 1 {
            if time_us < self.due_us {
                return None;
            }
            let told = self.tick();
            if told.is_some() {
                return told;
            }
        }
        None
    }

    // The tick that is due.
    fn tick(&mut self) -> Option<ToldSecond>
        requires { self.old.due_us < 2 ^ 56 }
        ensures ticks { TicksOn self.old self.new result }
        ensures at { IfSome result (λ told. told.at_us ≡ self.old.due_us) }
        ensures now { self.new.now_us ≡ self.old.due_us }
        ensures later { self.old.due_us + 1000 ≤ self.new.due_us }
        ensures ticked { self.new.ticked_us ≡ self.old.due_us }
        ensures set { self.new.clock ≡ self.old.clock }
    {
        let at_us = self.due_us;
        let ticked = self.keeper.tick_with_vote(low(at_us));
        let wait_us = self.keeper.wait(low(at_us));
        self.ticked_us = at_us;
        self.now_us = at_us;
        self.due_us = next_tick(at_us, at_us, wait_us);
        told_by(at_us, ticked)
    }

    /// A pulse on a line that has ended by where time stands: its place in its frame, 1 to 100, or 0 out
    /// of step. It rose at `rise_us`, and is `width_us` microseconds wide.
    ///
    /// What is not in order is not told, and nothing changes: a line that is not there, what is half a
    /// second wide or wider, a rise more than 4 ms ahead of where time stands, and one that by its clock lies
    /// so far ahead, before the one told last of its line, or more than half a second before the last
    /// tick.
    pub fn hear(&mut self, line: u8, rise_us: u64, width_us: u32) -> u8
        ensures hears { HearsOn self.old self.new line rise_us width_us result }
        ensures ticked { self.new.ticked_us ≡ self.old.ticked_us }
        ensures set { self.new.clock ≡ self.old.clock }
    {
        let Some(rise) = self.told_rise(line, rise_us, width_us) else {
            return 0;
        };
        self.rises.set(line, rise);
        let place = self.keeper.hear(line, low(rise_us), width_us);
        if place == 100 {
            let wait_us = self.keeper.wait(low(self.now_us));
            self.due_us = next_tick(self.ticked_us, self.now_us, wait_us);
        }
        place
    }

    // When a pulse rose at its clock, if it may be told.
    fn told_rise(&self, line: u8, rise_us: u64, width_us: u32) -> Option<u64>
        ensures value { result ≡ told_rise self.now line rise_us width_us }
        ensures low { IfSome result (λ risen.
            corrected (rise_us % 2 ^ 32) (delay_at self.now.clock.delays line) ≡ risen % 2 ^ 32) }
    {
        let is_pulse = line < self.clock.redundancy.ports() && is_pulse(width_us);
        if !is_pulse || self.now_us + AHEAD_US < rise_us {
            return None;
        }
        let rise = risen_at(rise_us, delay_at(&self.clock.delays, line))?;
        if self.may_hear(line, rise) {
            Some(rise)
        } else {
            None
        }
    }

    fn may_hear(&self, line: u8, rise: u64) -> bool
        ensures { result ≡ may_hear self.now line rise }
    {
        rise <= self.now_us + AHEAD_US
            && self.rises.at(line) <= rise
            && self.ticked_us <= rise + 500_000
    }
}

// When a pulse rose at its clock, by how late its line is; none before the counter began.
fn risen_at(rise_us: u64, delay_us: i16) -> Option<u64>
    requires { rise_us < 2 ^ 60 }
    ensures value { result ≡ risen_at rise_us delay_us }
    ensures low { IfSome result (λ risen. corrected (rise_us % 2 ^ 32) delay_us ≡ risen % 2 ^ 32) }
{
    let by_us = u64::from(delay_us.unsigned_abs());
    if delay_us < 0 {
        Some(rise_us + by_us)
    } else {
        rise_us.checked_sub(by_us)
    }
}

// When it is ticked next that was ticked last then, and asks at a time to wait so long.
fn next_tick(ticked_us: u64, now_us: u64, wait_us: u32) -> u64
    requires ticked { ticked_us ≤ now_us }
    requires now { now_us < 2 ^ 56 }
    ensures { result ≡ next_tick ticked_us now_us wait_us }
{
    let asked_us = now_us + u64::from(wait_us);
    asked_us
        .max(ticked_us + SOONEST_US)
        .min(ticked_us + LATEST_US)
}
