//! A device that is audited as it goes.

ghost use Rattle.std.specs.Prelude.{◌≡◌, ◌<◌, ◌≤◌, ◌∷◌, ◌%◌, ◌^◌, ◌+◌, ◌&&◌, [], true, ℕ, List, None, Some, MatchResult};
ghost use Rattle.irig_frame.specs.declared.symbol.Symbol.{Symbol};
ghost use Rattle.irig_lines.specs.Delays.{corrected, delay_at};
ghost use Rattle.irig_lines.specs.Refusals.{clock_fault};
ghost use Rattle.irig_reader.specs.Rules.{IsReaderRules};
ghost use Rattle.irig_timekeeper.specs.Clock.{SaysOfUtc, TellsOfUtc};
ghost use Rattle.irig_timekeeper.specs.Keepers.{ForKeeping};
ghost use Rattle.irig_timekeeper.specs.Keeping.{answer_at, place_told, stamp_at};
ghost use Rattle.irig_timekeeper.specs.Life.{Call};
ghost use Rattle.irig_timekeeper.specs.Life.Call.{Tick};
ghost use Rattle.irig_timekeeper.specs.Lived.{MadeOf};
ghost use Rattle.irig_timekeeper.specs.Stamps.{StampsOfUtc};
ghost use Rattle.irig_vote.specs.Vote.{ports_in};
ghost use Rattle.irig_lives.specs.Decided.{in_order};

use crate::elements::{begins, element_near};
use crate::line::Risen;
use crate::watch::Watch;
use irig_frame::Symbol;
use irig_lines::{ClockFault, ClockRules, delay_at};
use irig_port::Port;
use irig_time::{LeapTable, Rules};
use irig_timekeeper::{Beat, Stamp, Timekeeper};
use irig_wires::Oscillator;

// How long it is without a tick at most that is ticked as it asks: while it knows no edge, each frame of
// a line that is heard alone names a time a second later.
const LONGEST_US: u64 = 2_000_000;

/// A simulated device: a timekeeper by a counter of which the true rate is known, and its audit.
///
/// Its times are those of that counter in 64 bits, where it does not wrap, and less than 2^56. The
/// timekeeper is told them by 32 bits.
#[derive(Drop)]
pub struct Device<P: Port> {
    pub(crate) keeper: Timekeeper<P>,
    pub(crate) clock: ClockRules,
    pub(crate) oscillator: Oscillator,
    pub(crate) watch: Watch,
    ghost same: { keeper.clock ≡ clock },
}

impl<P: Port> Device<P> {
    ghost use Rattle.irig_witness.specs.Devices.{HearsOn, IsDeviceOf, IsSetAs, StampsTruly, TellsTruly, TicksOn, element_on, lines_on, risen_on, wait_until_asked};
    ghost use Rattle.irig_witness.specs.Witness.{is_kept};
    ghost use Rattle.irig_witness.specs.Watches.{may_tick};
    ghost use Rattle.irig_witness.specs.Unfinished.{HearsUnfinished, takes_frame};

    /// A device to which nothing has happened, and whose life begins at a time, with reader's rules
    /// that are [`in_range`](irig_reader::in_range); or the first fault of its setup, by
    /// [`clock_fault`](irig_lines::clock_fault).
    pub fn new(
        rules: Rules,
        clock: ClockRules,
        table: LeapTable,
        oscillator: Oscillator,
        start: u64,
    ) -> Result<Self, ClockFault>
        requires rules { IsReaderRules clock.reader_rules }
        requires start { start < 2 ^ 56 }
        ensures { MatchResult result
            (λ device. (device.clock ≡ clock) × (device.oscillator ≡ oscillator)
            × ((symbol : ℕ → ℕ → Symbol) → IsDeviceOf device (record {
              rules = rules;
              clock = clock;
              table = table;
            }) symbol start []))
            (λ fault. clock_fault clock.reader_rules clock.drift_us clock.wander_ppb ≡ Some fault) }
    {
        let keeper = Timekeeper::new(rules, clock, table)?;
        Ok(Device {
            keeper,
            clock,
            oscillator,
            watch: Watch::new(start),
        })
    }

    /// Of which element of its line alone a pulse may be that rises then: the one whose symbol
    /// [`hear`](Self::hear) asks for.
    pub fn element(&self, line: u8, rise_us: u64) -> u64
        requires late { 32768 ≤ rise_us }
        requires small { rise_us + 32768 < 2 ^ 56 }
        ensures value { result ≡ element_on self.now line rise_us }
        ensures small { result < 2 ^ 43 }
    {
        let rise = self.risen_on(line, rise_us);
        element_near(self.oscillator, rise)
    }

    /// A pulse on a line, once it has ended, to the timekeeper and to its audit: its place in its
    /// frame, 1 to 100, or 0 out of step. It rises at the device at `rise_us`, and is `width_us`
    /// microseconds wide. `element` is its [`element`](Self::element), at which a true line has
    /// `symbol`. Of a pulse that is as wide as no symbol, any but [`Bad`](Symbol::Bad) will do.
    pub fn hear(
        &mut self,
        line: u8,
        rise_us: u64,
        width_us: u32,
        element: u64,
        symbol: Symbol,
    ) -> u8
        requires line { line < ports_in self.old.clock.redundancy }
        requires element { element ≡ element_on self.old line rise_us }
        requires few { element < 2 ^ 43 }
        requires late { 32768 ≤ rise_us }
        requires small { rise_us + 32768 < 2 ^ 56 }
        ensures on { HearsOn self.old self.new line rise_us width_us symbol }
        ensures place { ForKeeping self.old.keeper (λ k. result
            ≡ place_told k line (risen_on self.old line rise_us % 2 ^ 32) width_us) }
        ensures set { IsSetAs self.new self.old }
    {
        let pulse = Risen {
            rise: self.risen_on(line, rise_us),
            width_us,
            element,
            begins: begins(self.oscillator, element),
            symbol,
        };
        self.watch.hear(&self.clock, line, pulse);
        self.keeper.hear(line, low(rise_us), width_us)
    }

    /// Whether a frame that begins at `element`, with a pulse that rises at `rise_us`, may be told by
    /// [`hear_unfinished`](Self::hear_unfinished): the line's last pulse was a marker, or it is idle;
    /// that element is yet to come; and its pulse is told in order.
    pub fn takes_frame(&self, line: u8, rise_us: u64, element: u64) -> bool
        requires line { line < 5 }
        requires late { 32768 ≤ rise_us }
        requires small { rise_us + 32768 < 2 ^ 56 }
        ensures { result ≡ takes_frame self.now line (risen_on self.now line rise_us) element }
    {
        let rise = self.risen_on(line, rise_us);
        self.keeper.may_begin(line) && self.watch.may_begin(line, rise, element)
    }

    /// All pulses of a frame but its last one on a line, at once: as [`hear`](Self::hear) of each, in
    /// order, if the line [`takes_frame`](Self::takes_frame). The first rises at the device at
    /// `first_us` and the last of them at `last_us`; each comes on time behind the one before. Their
    /// widths show the same symbols as these 99, of which the first is a marker, no two in a row are,
    /// and the last is none. They are those of a true line from `element` on.
    pub fn hear_unfinished(
        &mut self,
        line: u8,
        first_us: u64,
        last_us: u64,
        element: u64,
        widths_us: &[u32],
    )
        requires line { line < ports_in self.old.clock.redundancy }
        requires late { 32768 ≤ first_us }
        requires late_last { 32768 ≤ last_us }
        requires small { first_us + 32768 < 2 ^ 56 }
        requires small_last { last_us + 32768 < 2 ^ 56 }
        requires element { element < 2 ^ 43 }
        requires takes { takes_frame self.old line (risen_on self.old line first_us) element ≡ true }
        ensures on { HearsUnfinished self.old self.new line first_us last_us element widths_us.now }
        ensures others { (other rise element : ℕ) → other < 5 → ¬ (other ≡ line)
            → takes_frame self.new other rise element ≡ takes_frame self.old other rise element }
        ensures set { IsSetAs self.new self.old }
    {
        // what the timekeeper takes the first rise to be
        prove!(self.risen_on(line, first_us) < 1 << 56);
        let last = self.risen_on(line, last_us);
        self.watch.hear_unfinished(line, element, last);
        self.keeper
            .hear_unfinished(line, low(first_us), low(last_us), widths_us);
    }

    // When a pulse rose at its clock.
    fn risen_on(&self, line: u8, rise_us: u64) -> u64
        requires late { 32768 ≤ rise_us }
        requires small { rise_us + 32768 < 2 ^ 56 }
        ensures value { result ≡ risen_on self.now line rise_us }
        ensures low { corrected (rise_us % 2 ^ 32) (delay_at self.now.clock.delays line)
            ≡ result % 2 ^ 32 }
        ensures small { result < 2 ^ 56 }
    {
        let delay_us = delay_at(&self.clock.delays, line);
        let by_us = u64::from(delay_us.unsigned_abs());
        if delay_us < 0 {
            rise_us + by_us
        } else {
            rise_us - by_us
        }
    }

    /// A tick, of the timekeeper and of its audit: what is said of a second, if an edge has come
    /// since the last one.
    pub fn tick(&mut self, now: u64) -> Option<Beat>
        requires { now < 2 ^ 56 }
        ensures on { TicksOn self.old self.new now }
        ensures answer { ForKeeping self.old.keeper (λ k. result ≡ answer_at k (now % 2 ^ 32)) }
        ensures valid { SaysOfUtc result }
        ensures told { TellsOfUtc result }
        ensures set { IsSetAs self.new self.old }
        // the law `a_device_vouches`
        ensures truth { TellsTruly self.old self.new now result }
    {
        self.watch.tick(&self.clock, now);
        self.keeper.tick(low(now))
    }

    /// The stamp of an event at a time, by the seconds that were announced last.
    pub fn stamp(&self, time: u64) -> Option<Stamp>
        ensures value { ForKeeping self.now.keeper (λ k. result ≡ stamp_at k (time % 2 ^ 32)) }
        ensures valid { StampsOfUtc result }
        // the law `a_device_vouches`
        ensures truth { StampsTruly self.now time result }
    {
        self.keeper.stamp(low(time))
    }

    /// As new: another life begins, at a time.
    pub fn restart(&mut self, start: u64)
        requires { start < 2 ^ 56 }
        ensures on { (made : MadeOf) (symbol : ℕ → ℕ → Symbol) (before : ℕ) (calls : List Call)
            → IsDeviceOf self.old made symbol before calls
            → IsDeviceOf self.new made symbol start [] }
        ensures set { IsSetAs self.new self.old }
    {
        self.watch = Watch::new(start);
        self.keeper.restart();
    }

    /// Whether the calls of this life kept the premises.
    pub fn is_kept(&self) -> bool
        ensures value { result ≡ self.now.watch.is_kept }
        ensures exact { (made : MadeOf) (symbol : ℕ → ℕ → Symbol) (start : ℕ) (calls : List Call)
            → IsDeviceOf self.now made symbol start calls
            → result ≡ is_kept made.clock (lines_on self.now symbol) start calls }
    {
        self.watch.is_kept()
    }

    /// Whether a tick that comes now is in order.
    pub fn may_tick(&self, now: u64) -> bool
        requires { now < 2 ^ 56 }
        ensures value { result ≡ may_tick self.now.watch now }
        ensures exact { (made : MadeOf) (symbol : ℕ → ℕ → Symbol) (start : ℕ) (calls : List Call)
            → IsDeviceOf self.now made symbol start calls
            → in_order start made.clock.redundancy (Tick now ∷ calls)
            ≡ (result && in_order start made.clock.redundancy calls) }
    {
        self.watch.may_tick(now)
    }

    /// How long until it is ticked, in microseconds, if that comes as it asks: until a tick has
    /// something to do, if no call comes before it, and 2 s behind the last tick at the latest.
    pub fn wait(&self, now: u64) -> u32
        ensures { (made : MadeOf) (symbol : ℕ → ℕ → Symbol) (start : ℕ) (calls : List Call)
            → IsDeviceOf self.now made symbol start calls
            → result ≡ wait_until_asked made start calls now }
    {
        let left_us = (self.watch.last_tick + LONGEST_US).saturating_sub(now);
        u64::from(self.keeper.wait(low(now))).min(left_us) as u32
    }
}

// By a counter of 32 bits.
fn low(time: u64) -> u32
    ensures { result ≡ time % 2 ^ 32 }
{
    (time % 4_294_967_296) as u32
}
