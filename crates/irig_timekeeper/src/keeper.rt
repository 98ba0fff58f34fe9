//! A timekeeper.

ghost use Rattle.std.specs.Prelude.{◌≡◌, ◌<◌, ◌≤◌, ◌+◌, ◌-◌, ◌*◌, ◌%◌, ◌^◌, false, ℕ, List, [], ◌∷◌, IfOk, MatchResult, None, Option, Some};
ghost use Rattle.irig_frame.specs.declared.symbol.Symbol.{Symbol};
ghost use Rattle.irig_sync.specs.Sync.{place_of};
ghost use Rattle.irig_time.specs.declared.rules.Rules.{Rules};
ghost use Rattle.irig_time.specs.Seconds.{IsValid};
ghost use Rattle.irig_port.specs.Limits.{quality_in, told_within};
ghost use Rattle.irig_port.specs.Told.{IfClaim};
ghost use Rattle.irig_port.specs.Hearing.{heard_at};
ghost use Rattle.irig_vote.specs.Vote.{ports_in};
ghost use Rattle.irig_reader.specs.Rule.{count_of};
ghost use Rattle.irig_reader.specs.Rules.{IsReaderRules};
ghost use Rattle.irig_lines.specs.Steps.{line_at, line_heard, whole_frame, AreKeptOfUtc, IsKeptOfUtc, AreNewLines};
ghost use Rattle.irig_timekeeper.specs.Clock.{AnnouncedOfUtc, AreSmall, SaysOfUtc, TellsOfUtc, claim_voted};
ghost use Rattle.irig_timekeeper.specs.Stamps.{StampsOfUtc};
ghost use Rattle.irig_lines.specs.Intervals.{IsShort};
ghost use Rattle.irig_lines.specs.Paces.{IsSound};
ghost use Rattle.irig_lines.specs.Exactness.{most_drift_us, most_vote_us, most_held_us};

use crate::clock::{Beat, ClockState, Ticked, clock_of_nothing, tick, wait_of};
use crate::stamp::{Stamp, stamp_of};
use crate::states::{LineState, state_of};
use irig_lines::{
    ClockFault, ClockRules, KeptFrame, Line, Pace, Rate, clock_fault, corrected, delay_at,
    is_pulse, rate_of, whole_frame,
};
use irig_port::{Limits, Port, Told, edge_within, hear};
use irig_time::{LeapTable, Rules};

/// A device that keeps time by one line, three or five. It knows no timeline.
///
/// Times are in microseconds of the device's free-running counter, which wraps at 2^32.
#[derive(Drop)]
pub struct Timekeeper<P: Port> {
    pub(crate) a: P,
    pub(crate) b: P,
    pub(crate) c: P,
    pub(crate) d: P,
    pub(crate) e: P,
    pub(crate) rules: Rules,
    pub(crate) clock: ClockRules,
    pub(crate) table: LeapTable,
    pub(crate) state: ClockState,
    ghost steady: { clock.drift_us ≤ most_drift_us },
    ghost counting: { count_of state.reader < clock.reader_rules.lock_after },
    ghost small: { state.bound_us ≤ most_vote_us },
    ghost known: { IsShort state.interval },
    ghost paced: { IsSound state.pace },
    ghost valid: { ∥ AreKeptOfUtc state.lines ∥₁ },
    ghost ended: { AreSmall state },
    ghost announced: { ∥ AnnouncedOfUtc state ∥₁ },
}

impl<P: Port> Timekeeper<P> {
    ghost use Rattle.irig_lines.specs.Refusals.{clock_fault};
    ghost use Rattle.irig_lines.specs.Delays.{corrected, delay_at};
    ghost use Rattle.irig_timekeeper.specs.States.{state_of};
    ghost use Rattle.irig_timekeeper.specs.LineTruths.{is_untrue, IsSaidRightly};
    ghost use Rattle.irig_timekeeper.specs.Keeping.{place_told, one_pulse_more, after_pulse, after_tick, answer_at, vote_at, restarted, heard_by, with_heard, wait_at, stamp_at, rate_at};
    ghost use Rattle.irig_timekeeper.specs.Keepers.{IsKeeping, IsNew, ForKeeping, Goes};
    ghost use Rattle.irig_timekeeper.specs.Life.{Call, AreInOrder, device_of, last_tick, pulses_on};
    ghost use Rattle.irig_timekeeper.specs.Life.Call.{Hear, Tick};
    ghost use Rattle.irig_timekeeper.specs.Lived.{MadeOf, HasLived, LivesWell, made_with};
    ghost use Rattle.irig_timekeeper.specs.Carried.{IsCarried};
    ghost use Rattle.irig_timekeeper.specs.Rows.{AreToldLast};
    ghost use Rattle.irig_timekeeper.specs.Doubts.{SaysTheRule};
    ghost use Rattle.irig_lines.specs.Lines.{IsTrueLately};
    ghost use Rattle.irig_timekeeper.specs.Truth.{KnowsEnd, IsToldInHoldover, IsStampedTruly};
    ghost use Rattle.irig_timekeeper.specs.Measures.{IsMeasured};
    ghost use Rattle.irig_timekeeper.specs.Learning.{IsLearned};
    ghost use Rattle.irig_lines.specs.declared.lines.Vote.{Vote};
    ghost use Rattle.irig_time.specs.Timelines.{TimelineValue, IsSecond};
    ghost use Rattle.irig_time.specs.TimelineFaults.{IsTimeline};
    ghost use Rattle.irig_time.specs.declared.claim.Claim.{Claim};
    ghost use Rattle.irig_time.specs.declared.second.UtcSecond.{UtcSecond};

    /// A timekeeper to which nothing has happened, with reader's rules that are
    /// [`in_range`](irig_reader::in_range); or the setup's [`first fault`](clock_fault).
    pub fn new(rules: Rules, clock: ClockRules, table: LeapTable) -> Result<Self, ClockFault>
        requires { IsReaderRules clock.reader_rules }
        ensures new { MatchResult result
            (λ keeper. (clock_fault clock.reader_rules clock.drift_us clock.wander_ppb ≡ None)
            × IsNew keeper rules clock table)
            (λ fault. clock_fault clock.reader_rules clock.drift_us clock.wander_ppb ≡ Some fault) }
        ensures lived { IfOk result (λ keeper. HasLived keeper (record {
          rules = rules;
          clock = clock;
          table = table;
        }) []) }
    {
        if let Some(fault) = clock_fault(clock.reader_rules, clock.drift_us, clock.wander_ppb) {
            return Err(fault);
        }
        Ok(Timekeeper {
            a: P::fresh(rules),
            b: P::fresh(rules),
            c: P::fresh(rules),
            d: P::fresh(rules),
            e: P::fresh(rules),
            rules,
            clock,
            table,
            state: clock_of_nothing(),
        })
    }

    /// A pulse on a line, once it has ended, each line's in order, and before any tick of half a
    /// second or more after it rose: its place in its frame, 1 to 100, or 0 out of step. It rose at
    /// `rise_us`, and is `width_us` microseconds wide. The line is 0 of one, 0 to 2 of three, 0 to 4
    /// of five. What the laws say of the rise of a pulse is so of the time at which it rose by its
    /// clock: the line's delay is taken off.
    ///
    /// What is half a second wide or wider is no pulse: 0 is answered, and nothing changes.
    pub fn hear(&mut self, line: u8, rise_us: u32, width_us: u32) -> u8
        requires { line < ports_in self.old.clock.redundancy }
        ensures place { ForKeeping self.old (λ k. result ≡ place_told k line
            (corrected rise_us (delay_at k.clock.delays line)) width_us) }
        ensures heard { Goes self.old self.new (λ k. after_pulse k line
            (corrected rise_us (delay_at k.clock.delays line)) width_us) }
        ensures lived { (made : MadeOf) (calls : List Call) (rise : ℕ) → HasLived self.old made calls
            → corrected rise_us (delay_at made.clock.delays line) ≡ rise % 2 ^ 32
            → HasLived self.new made (Hear line rise width_us ∷ calls) }
        ensures lines { self.new.clock ≡ self.old.clock }
    {
        if is_pulse(width_us) {
            let rise_us = corrected(rise_us, delay_at(&self.clock.delays, line));
            self.hear_pulse(line, rise_us, width_us)
        } else {
            0
        }
    }

    // A pulse at a port, and on its line.
    fn hear_pulse(&mut self, port: u8, rise_us: u32, width_us: u32) -> u8
        requires { port < ports_in self.old.clock.redundancy }
        ensures place { result
            ≡ place_of (line_at self.old.state.lines port).sync rise_us width_us }
        ensures heard { Goes self.old self.new (λ k. one_pulse_more k port rise_us width_us) }
        ensures lines { self.new.clock ≡ self.old.clock }
    {
        match port {
            0 => hear_line(
                &self.clock,
                self.rules,
                &mut self.a,
                &mut self.state.lines.a,
                rise_us,
                width_us,
            ),
            1 => hear_line(
                &self.clock,
                self.rules,
                &mut self.b,
                &mut self.state.lines.b,
                rise_us,
                width_us,
            ),
            2 => hear_line(
                &self.clock,
                self.rules,
                &mut self.c,
                &mut self.state.lines.c,
                rise_us,
                width_us,
            ),
            3 => hear_line(
                &self.clock,
                self.rules,
                &mut self.d,
                &mut self.state.lines.d,
                rise_us,
                width_us,
            ),
            _ => hear_line(
                &self.clock,
                self.rules,
                &mut self.e,
                &mut self.state.lines.e,
                rise_us,
                width_us,
            ),
        }
    }

    /// To be called at any time, as often as one likes, and at least once in 29 minutes, but with
    /// no time before the last tick's or more than 4 ms before the rise of a pulse that was told:
    /// what is said of a second, if an edge has come since the last one.
    pub fn tick(&mut self, now_us: u32) -> Option<Beat>
        ensures answer { ForKeeping self.old (λ k. result ≡ answer_at k now_us) }
        ensures valid { SaysOfUtc result }
        ensures told { TellsOfUtc result }
        ensures after { Goes self.old self.new (λ k. after_tick k now_us) }
        ensures lived { (made : MadeOf) (calls : List Call) (now : ℕ) → HasLived self.old made calls
            → now_us ≡ now % 2 ^ 32 → HasLived self.new made (Tick now ∷ calls) }
        // the law `a_device_tells_the_truth`
        ensures life { (t : TimelineValue) (edges : ℕ → ℕ) (made : MadeOf) (start now : ℕ)
            (calls : List Call) (beat : Beat) (u : UtcSecond) → HasLived self.old made calls
            → now_us ≡ now % 2 ^ 32
            → LivesWell (IsTrueLately made.clock.within.us) t edges made start (Tick now ∷ calls)
            → result ≡ Some beat → beat.report.announce ≡ Some u
            → IsToldInHoldover t edges 0 0 made.clock now beat u }
        // While lines are true nothing is in doubt (`what_strays_is_not_held`).
        ensures rule { (t : TimelineValue) (edges : ℕ → ℕ) (made : MadeOf) (start now : ℕ)
            (calls : List Call) (beat : Beat) → HasLived self.old made calls
            → now_us ≡ now % 2 ^ 32
            → LivesWell (IsTrueLately made.clock.within.us) t edges made start (Tick now ∷ calls)
            → result ≡ Some beat → ForKeeping self.old (λ k. SaysTheRule k now_us beat) }
        // the law `a_right_table_guards_its_leaps`, whatever lines carry
        ensures guarded { (t : TimelineValue) (n : ℕ) (vote : Vote) (beat : Beat) (u : UtcSecond)
            → IsTimeline t → self.old.clock.prefers_frames ≡ false → result ≡ Some beat
            → beat.report.announce ≡ Some u
            → ForKeeping self.old (λ k. vote_at k now_us ≡ Some vote → IsSecond t n vote.claim.at
            → KnowsEnd t k.table vote.claim.at.day → IsSecond t (n + 1) u) }
        ensures lines { self.new.clock ≡ self.old.clock }
    {
        tick(&self.clock, &self.table, &mut self.state, now_us).beat
    }

    /// As [`tick`](Self::tick), with the claim on which lines agree at it, if they do.
    pub fn tick_with_vote(&mut self, now_us: u32) -> Ticked
        ensures answer { ForKeeping self.old (λ k. result.beat ≡ answer_at k now_us) }
        ensures vote { ForKeeping self.old (λ k. result.vote ≡ claim_voted (vote_at k now_us)) }
        ensures valid { SaysOfUtc result.beat }
        ensures told { TellsOfUtc result.beat }
        ensures after { Goes self.old self.new (λ k. after_tick k now_us) }
        ensures lived { (made : MadeOf) (calls : List Call) (now : ℕ) → HasLived self.old made calls
            → now_us ≡ now % 2 ^ 32 → HasLived self.new made (Tick now ∷ calls) }
        // More than f lines were told a whole frame of the claim, whatever else they were told: the
        // law `votes_are_carried`.
        ensures carried { (made : MadeOf) (start now : ℕ) (calls : List Call) (claim : Claim)
            → HasLived self.old made calls → now_us ≡ now % 2 ^ 32
            → AreInOrder start made.clock.redundancy (Tick now ∷ calls) → result.vote ≡ Some claim
            → IsCarried made.clock made.rules claim now (λ line. pulses_on line calls) }
        ensures lines { self.new.clock ≡ self.old.clock }
    {
        tick(&self.clock, &self.table, &mut self.state, now_us)
    }

    /// How long until a tick has something to do, if no call comes before it, in microseconds: at
    /// most 1,006,000 at a time at which a tick may come.
    pub fn wait(&self, now_us: u32) -> u32
        ensures value { ForKeeping self.now (λ k. result ≡ wait_at k now_us) }
        ensures most { (made : MadeOf) (start now : ℕ) (calls : List Call)
            → HasLived self.now made calls → now_us ≡ now % 2 ^ 32
            → AreInOrder start made.clock.redundancy (Tick now ∷ calls) → result ≤ 1006000 }
    {
        wait_of(&self.clock, &self.state, now_us)
    }

    /// How many votes contradicted what all votes before them had said, since it was made or
    /// restarted: the interval in which the edge lay by those, carried on by the drift, had nothing
    /// in common with that of the vote. A second that is counted without a vote counts too, if more
    /// than f lines keep a frame that lasted too long or too short. There is none while all lines
    /// but f are true and the counter is as steady as the setup says. It turns over at 2^32.
    pub fn strays(&self) -> u32
        ensures value { ForKeeping self.now (λ k. result ≡ k.state.strays) }
        // the law `votes_do_not_stray`
        ensures none { (t : TimelineValue) (edges : ℕ → ℕ) (made : MadeOf) (start : ℕ)
            (calls : List Call) → HasLived self.now made calls
            → LivesWell (IsTrueLately made.clock.within.us) t edges made start calls → result ≡ 0 }
    {
        self.state.strays
    }

    /// How long seconds are by the device's own counter: the mean of the last so many, 1 to 2,000,
    /// lies between the least and the most that are told, while all lines but f are true and the
    /// counter is as steady as the setup says. At both ends of this time a true edge lies in an
    /// interval that votes left; by the lengths of these over the time, and by 2 ns, the least and
    /// the most differ at most. None until a second was counted behind the first vote, or behind the
    /// vote that sets the first anchor after a stray (`strays`); while no interval is known; and once
    /// both anchors are more than 2,000 s old.
    pub fn rate(&self) -> Option<Rate>
        ensures value { ForKeeping self.now (λ k. result ≡ rate_at k) }
        // the law `what_is_measured_is_so`
        ensures truth { (t : TimelineValue) (edges : ℕ → ℕ) (made : MadeOf) (start : ℕ)
            (calls : List Call) (rate : Rate) → HasLived self.now made calls
            → LivesWell (IsTrueLately made.clock.within.us) t edges made start calls
            → result ≡ Some rate
            → IsMeasured edges (last_tick start calls) self.now.state.edge_us rate }
    {
        rate_of(self.state.interval, self.state.anchors)
    }

    /// What it has learned of its counter, by which it holds over: how long each of the next seconds is, if
    /// all lines but f were true, and the counter is as steady as the setup says and wanders no more than
    /// its `wander_ppb`. None until votes 1,000 s apart have taught it, after a stray (`strays`), once the
    /// holdover has ended, and by a `wander_ppb` of 0.
    pub fn pace(&self) -> Option<Pace>
        ensures value { ForKeeping self.now (λ k. result ≡ k.state.pace) }
        // the law `what_is_learned_is_so`
        ensures truth { (t : TimelineValue) (edges : ℕ → ℕ) (made : MadeOf) (start : ℕ)
            (calls : List Call) (pace : Pace) → HasLived self.now made calls
            → LivesWell (IsTrueLately made.clock.within.us) t edges made start calls
            → result ≡ Some pace
            → IsLearned edges (last_tick start calls) self.now.state.edge_us pace }
    {
        self.state.pace
    }

    /// The time of an event, if it lies behind the edge of the last second that was told, or behind
    /// that of the one before, and these were announced. The one before no longer serves if a vote
    /// then announced nothing, as at a jump. None, if the event lies more than a second and the
    /// error of the edge behind it; but the one before serves up to the last one's edge, if there is
    /// no second between.
    pub fn stamp(&self, time_us: u32) -> Option<Stamp>
        ensures value { ForKeeping self.now (λ k. result ≡ stamp_at k time_us) }
        ensures valid { StampsOfUtc result }
        // the law `stamps_are_true`
        ensures truth { (t : TimelineValue) (edges : ℕ → ℕ) (made : MadeOf) (start time now : ℕ)
            (calls : List Call) (stamp : Stamp) → HasLived self.now made calls
            → time_us ≡ time % 2 ^ 32 → LivesWell (IsTrueLately made.clock.within.us) t edges made start calls
            → AreInOrder start made.clock.redundancy (Tick now ∷ calls)
            → time ≤ now → now ≤ time + 1800000000 → result ≡ Some stamp
            → IsStampedTruly t edges 0 time stamp }
        // Between the two seconds that were told last no event is without a stamp, if both were
        // announced and none was missed between, nor up to a second and its error behind the last.
        ensures none_lost { (t : TimelineValue) (edges : ℕ → ℕ) (made : MadeOf)
            (start time edge next : ℕ) (calls : List Call) (beat then : Beat) (u v : UtcSecond)
            → (lived : HasLived self.now made calls) → time_us ≡ time % 2 ^ 32
            → LivesWell (IsTrueLately made.clock.within.us) t edges made start calls
            → AreToldLast (device_of (made_with made lived.lines lived.fresh)) calls beat then edge next
            → beat.report.announce ≡ Some u → then.report.announce ≡ Some v → then.missed ≡ 0
            → edge ≤ time → time ≤ next + 1000000 + then.bound_us
            → (stamp : Stamp) × (result ≡ Some stamp) }
    {
        stamp_of(self.state.last, self.state.before, time_us)
    }

    /// What a line is, as of the last tick and the pulses since. It is by the edges that were told
    /// last, and the second that ended at each.
    pub fn line(&self, line: u8) -> LineState
        requires { line < ports_in self.now.clock.redundancy }
        ensures value { ForKeeping self.now (λ k. result ≡ state_of k.clock k.state line) }
        // While all lines but f are true, none is said to be uneven, apart or to differ that was
        // true since 2.7 s before the last tick.
        ensures truth { (t : TimelineValue) (edges : ℕ → ℕ) (made : MadeOf) (start now : ℕ)
            (calls : List Call) → HasLived self.now made calls
            → LivesWell (IsTrueLately made.clock.within.us) t edges made start calls
            → AreInOrder start made.clock.redundancy (Tick now ∷ calls)
            → IsTrueLately made.clock.within.us made.rules t edges (last_tick start calls - 1500000)
            (pulses_on line calls) → is_untrue result ≡ false }
        // And what is said of any line is so.
        ensures said { (t : TimelineValue) (edges : ℕ → ℕ) (made : MadeOf) (start now : ℕ)
            (calls : List Call) → HasLived self.now made calls
            → LivesWell (IsTrueLately made.clock.within.us) t edges made start calls
            → AreInOrder start made.clock.redundancy (Tick now ∷ calls)
            → IsSaidRightly made.clock self.now.state made.rules t edges (last_tick start calls)
            (pulses_on line calls) result }
    {
        state_of(&self.clock, &self.state, line)
    }

    /// As new.
    pub fn restart(&mut self)
        ensures forgotten { Goes self.old self.new (λ k. restarted k self.new.state.lines) }
        ensures new { AreNewLines self.new.state.lines }
        ensures lived { (made : MadeOf) (calls : List Call) → HasLived self.old made calls
            → HasLived self.new made [] }
        ensures lines { self.new.clock ≡ self.old.clock }
    {
        self.a.clear();
        self.b.clear();
        self.c.clear();
        self.d.clear();
        self.e.clear();
        self.state = clock_of_nothing();
    }
}

// A pulse on a line and at its port; at a frame's last one the line keeps what the port tells. It stands
// where a device hears its pulses one by one, and takes a quarter of that time where it is called.
#[inline(always)]
fn hear_line<P: Port>(
    clock: &ClockRules,
    rules: Rules,
    port: &mut P,
    line: &mut Line,
    rise_us: u32,
    width_us: u32,
) -> u8
    requires valid { IsKeptOfUtc line.old.frame }
    requires steady { clock.now.drift_us ≤ most_drift_us }
    ensures place { result ≡ place_of line.old.sync rise_us width_us }
    ensures line { (r : Rules) (s : List Symbol) → P.stands_for port.old r s → rules ≡ r
        → line.new ≡ line_heard clock.now line.old rise_us width_us
        (told_within (Some clock.now.limits.limits) r (heard_at result s width_us))
        (quality_in (heard_at result s width_us)) }
    ensures heard { (r : Rules) (s : List Symbol) → P.stands_for port.old r s
        → P.stands_for port.new r (heard_at result s width_us) }
    ensures valid { IsKeptOfUtc line.new.frame }
{
    let place = hear(port, &mut line.sync, rise_us, width_us);
    line.is_heard = true;
    if place == 1 {
        line.begin_us = rise_us;
    }
    if place == 100 {
        let frame = frame_told(clock, rules, port, line.begin_us, rise_us);
        line.frame = Some(frame);
        line.seen = Some(frame);
    }
    place
}

// The frame whose first and last pulses rose then, as a port tells it; it keeps what it heard.
fn frame_told<P: Port>(
    clock: &ClockRules,
    rules: Rules,
    port: &mut P,
    begin_us: u32,
    rise_us: u32,
) -> KeptFrame
    requires { clock.now.drift_us ≤ most_drift_us }
    ensures frame { (r : Rules) (s : List Symbol) → P.stands_for port.old r s → rules ≡ r
        → result ≡ whole_frame clock.now begin_us rise_us
        (told_within (Some clock.now.limits.limits) r s) (quality_in s) }
    ensures kept { (r : Rules) (s : List Symbol) → P.stands_for port.old r s
        → P.stands_for port.new r s }
    ensures valid { IsKeptOfUtc (Some result) }
{
    let quality = port.quality();
    let told = told_by(rules, clock.limits.limits(), port);
    whole_frame(clock, begin_us, rise_us, told, quality)
}

// What a port would tell; it keeps what it heard.
fn told_by<P: Port>(rules: Rules, limits: Limits, port: &mut P) -> Told
    ensures told { (r : Rules) (s : List Symbol) → P.stands_for port.old r s → rules ≡ r
        → result ≡ told_within (Some limits) r s }
    ensures kept { (r : Rules) (s : List Symbol) → P.stands_for port.old r s
        → P.stands_for port.new r s }
    ensures valid { IfClaim result (λ claim. IsValid claim.at) }
{
    let mut other = P::fresh(rules);
    other.take_over(port);
    edge_within(&mut other, Some(limits))
}
