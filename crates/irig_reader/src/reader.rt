//! A reader with its ports.

ghost use Rattle.std.specs.Prelude.{◌≡◌, ◌+◌, ◌%◌, ◌^◌, ◌<◌, ◌≤◌, ◌==◌, ◌∷◌, IfSome, Some, ℕ, List, [], length, true, false};
ghost use Rattle.irig_frame.specs.declared.symbol.Symbol.{Symbol};
ghost use Rattle.irig_sync.specs.Sync.{flag, is_marker, place_of};
ghost use Rattle.irig_sync.specs.Lines.{Pulse, pulse_at, IsAfter, IsSoon};
ghost use Rattle.irig_port.specs.Heard.{symbols_heard};
ghost use Rattle.irig_port.specs.Hearing.{heard_at, IsHearing};
ghost use Rattle.irig_time.specs.declared.second.UtcSecond.{UtcSecond};
ghost use Rattle.irig_time.specs.Seconds.{IsValid};
ghost use Rattle.irig_time.specs.Timelines.{TimelineValue, IsSecond};
ghost use Rattle.irig_time.specs.TimelineFaults.{IsTimeline};
ghost use Rattle.irig_vote.specs.Vote.{ports_in, AreOfUtc};
ghost use Rattle.irig_reader.specs.Rule.{count_of, step_of};
ghost use Rattle.irig_reader.specs.Rules.{IsReaderRules};
ghost use Rattle.irig_reader.specs.Clean.{IsClean};
ghost use Rattle.irig_reader.specs.declared.report.Cause.TheVariants as Cause;

use crate::report::Report;
use crate::rule::{State, step_of};
use crate::rules::ReaderRules;
use irig_port::{Limits, Port, edge_within, hear};
use irig_sync::Sync;
use irig_time::{Claim, LeapTable, Rules};
use irig_vote::{Redundancy, Tells, vote};
use std::mem;

/// What a tick answers.
#[derive(Clone, Copy, PartialEq, Eq)]
pub struct Ticked {
    /// What the reader says.
    pub report: Report,
    /// What its ports told.
    pub told: Tells,
}

/// A reader with one port, three or five. It knows no timeline.
///
/// Of one port `b` to `e` are fed nothing, of three `d` and `e`.
#[derive(Drop)]
pub struct Reader<P: Port> {
    a: P,
    b: P,
    c: P,
    d: P,
    e: P,
    reader_rules: ReaderRules,
    table: LeapTable,
    pub(crate) redundancy: Redundancy,
    limits: Option<Limits>,
    state: State,
    ghost counting: { count_of state < reader_rules.lock_after },
}

impl<P: Port> Reader<P> {
    ghost use Rattle.irig_reader.specs.History.{ReaderHistory, new_history, limited_history, no_pulses, after_pulse, after_pulses, after_hearing, told_at_tick, report_at_tick, after_tick, after_restart, fed_to};
    ghost use Rattle.irig_reader.specs.Readers.{Advances, ForReaderHistory, HasReaderHistory};

    /// A reader to which nothing has happened, with rules that are [`in_range`](crate::in_range).
    pub fn fresh(
        rules: Rules,
        reader_rules: ReaderRules,
        table: LeapTable,
        redundancy: Redundancy,
    ) -> Self
        requires { IsReaderRules reader_rules }
        ensures unfed { HasReaderHistory result (new_history rules reader_rules table redundancy) }
        ensures ports { result.redundancy ≡ redundancy }
    {
        Reader::fresh_within(rules, reader_rules, table, redundancy, None)
    }

    /// The same, whose ports give no frame a vote that does not lie within the limits, if there are
    /// any ([`edge_within`]).
    pub fn fresh_within(
        rules: Rules,
        reader_rules: ReaderRules,
        table: LeapTable,
        redundancy: Redundancy,
        limits: Option<Limits>,
    ) -> Self
        requires { IsReaderRules reader_rules }
        ensures unfed { HasReaderHistory result
            (limited_history limits (new_history rules reader_rules table redundancy)) }
        ensures ports { result.redundancy ≡ redundancy }
    {
        Reader {
            a: P::fresh(rules),
            b: P::fresh(rules),
            c: P::fresh(rules),
            d: P::fresh(rules),
            e: P::fresh(rules),
            reader_rules,
            table,
            redundancy,
            limits,
            state: State::Idle,
        }
    }

    /// A pulse at one of the ports, `width_us` microseconds wide. The port is 0 of one, 0 to 2 of
    /// three, 0 to 4 of five.
    pub fn pulse(&mut self, port: u8, width_us: u32)
        requires { port < ports_in self.old.redundancy }
        ensures fed { Advances self.old self.new (λ h. after_pulse h port width_us) }
        ensures ports { self.new.redundancy ≡ self.old.redundancy }
    {
        match port {
            0 => self.a.pulse(width_us),
            1 => self.b.pulse(width_us),
            2 => self.c.pulse(width_us),
            3 => self.d.pulse(width_us),
            _ => self.e.pulse(width_us),
        }
    }

    /// Pulses at one of the ports, one after another, as [`Reader::pulse`] takes each.
    pub fn pulses(&mut self, port: u8, widths_us: &[u32])
        requires { port < ports_in self.old.redundancy }
        ensures fed { Advances self.old self.new (λ h. after_pulses h port widths_us.now) }
        ensures ports { self.new.redundancy ≡ self.old.redundancy }
    {
        match port {
            0 => self.a.pulses(widths_us),
            1 => self.b.pulses(widths_us),
            2 => self.c.pulses(widths_us),
            3 => self.d.pulses(widths_us),
            _ => self.e.pulses(widths_us),
        }
    }

    /// A pulse of the line at one of the ports, through the line's synchroniser: its place in its
    /// frame, 1 to 100, or 0 out of step. It rose at `rise_us`, in microseconds of a clock that
    /// wraps at 2^32, and is `width_us` microseconds wide.
    ///
    /// The port is emptied where a frame begins, and is fed what has a place: so what it claims at
    /// a tick is carried by the last hundred pulses that were in step
    /// ([`a_claim_is_of_a_run`](crate::a_claim_is_of_a_run)). To be ticked as a
    /// second begins, behind the hundredth pulse of a frame and before the first of the next has
    /// ended; [`Sync::idle`] keeps the clock's wrap from showing.
    pub fn hear(&mut self, port: u8, sync: &mut Sync, rise_us: u32, width_us: u32) -> u8
        requires { port < ports_in self.old.redundancy }
        ensures place { result ≡ place_of sync.old rise_us width_us }
        ensures few { result ≤ 100 }
        ensures sync { sync.new ≡ record {
          rise_us = rise_us;
          place = result;
          was_marker = flag (is_marker width_us);
        } }
        ensures fed { Advances self.old self.new (λ h. after_hearing h port result width_us) }
        ensures ports { self.new.redundancy ≡ self.old.redundancy }
        ensures run { (heard : List Symbol) (pulses : List Pulse) (now time : ℕ)
            → IsHearing heard sync.old pulses now → rise_us ≡ time % 2 ^ 32
            → IsAfter pulses time → IsSoon now time
            → IsHearing (heard_at result heard width_us) sync.new
            (pulse_at time width_us ∷ pulses) time }
        // That is what the port stands for, by what was fed to it.
        ensures stands { (h : ReaderHistory)
            → symbols_heard (fed_to (after_hearing h port result width_us).fed port)
            ≡ heard_at result (symbols_heard (fed_to h.fed port)) width_us }
    {
        match port {
            0 => hear(&mut self.a, sync, rise_us, width_us),
            1 => hear(&mut self.b, sync, rise_us, width_us),
            2 => hear(&mut self.c, sync, rise_us, width_us),
            3 => hear(&mut self.d, sync, rise_us, width_us),
            _ => hear(&mut self.e, sync, rise_us, width_us),
        }
    }

    /// All the pulses that another port heard, at one of the reader's ports, if that is empty: it
    /// takes them over at once. Answers whether it was; if not, nothing happens. The other port
    /// still tells what it did.
    #[inline(always)]
    pub fn take_over(&mut self, port: u8, heard: &mut P) -> bool
        requires { port < ports_in self.old.redundancy }
        ensures answer { ForReaderHistory self.old (λ h.
            result ≡ (length (fed_to h.fed port) == 0)) }
        ensures fed { result ≡ true → (rules : Rules) (widths : List ℕ)
            → P.stands_for heard.old rules (symbols_heard widths)
            → Advances self.old self.new (λ h. after_pulses h port widths) }
        ensures unchanged { result ≡ false → Advances self.old self.new (λ h. h) }
        ensures kept { (rules : Rules) (s : List Symbol)
            → P.stands_for heard.old rules s → P.stands_for heard.new rules s }
        ensures ports { self.new.redundancy ≡ self.old.redundancy }
    {
        match port {
            0 => take_if_empty(&mut self.a, heard),
            1 => take_if_empty(&mut self.b, heard),
            2 => take_if_empty(&mut self.c, heard),
            3 => take_if_empty(&mut self.d, heard),
            _ => take_if_empty(&mut self.e, heard),
        }
    }

    /// One edge: the vote over what the ports tell, and what the rule makes of it. The ports are
    /// then empty. What is announced, and what any port claims, is a [`valid`](irig_time::valid)
    /// second.
    #[inline(never)]
    pub fn tick(&mut self) -> Ticked
        ensures told { ForReaderHistory self.old (λ h. result.told ≡ told_at_tick h) }
        ensures report { ForReaderHistory self.old (λ h. result.report ≡ report_at_tick h) }
        ensures after { Advances self.old self.new after_tick }
        ensures ports { self.new.redundancy ≡ self.old.redundancy }
        ensures valid { IfSome result.report.announce IsValid }
        ensures claims { AreOfUtc result.told }
        // A second that is announced by the vote of a clean edge is the true one, whatever came
        // before.
        ensures truth { (t : TimelineValue) (n : ℕ) (u : UtcSecond) → IsTimeline t
            → IsClean t n result.told self.old.redundancy → result.report.cause ≡ Cause.Voted
            → result.report.announce ≡ Some u → IsSecond t (n + 1) u }
    {
        let told = Tells {
            a: edge_within(&mut self.a, self.limits),
            b: edge_within(&mut self.b, self.limits),
            c: edge_within(&mut self.c, self.limits),
            d: edge_within(&mut self.d, self.limits),
            e: edge_within(&mut self.e, self.limits),
        };
        let vote = vote(&told, self.redundancy);
        let report = self.go_on(vote);
        Ticked { report, told }
    }

    /// What [`Reader::tick`] does if all ports are empty, which then tell silence: what the reader
    /// says. It spares a caller who knows what they tell the copies of it.
    pub fn tick_silent(&mut self) -> Report
        requires { ForReaderHistory self.old (λ h. h.fed ≡ no_pulses) }
        ensures report { ForReaderHistory self.old (λ h. result ≡ report_at_tick h) }
        ensures after { Advances self.old self.new after_tick }
        ensures ports { self.new.redundancy ≡ self.old.redundancy }
        ensures valid { IfSome result.announce IsValid }
    {
        self.go_on(None)
    }

    /// Yes only if all ports are empty: they then tell silence, and there is no vote.
    pub fn heard_nothing(&self) -> bool
        ensures { result ≡ true → ForReaderHistory self.now (λ h. h.fed ≡ no_pulses) }
    {
        self.a.is_empty()
            && self.b.is_empty()
            && self.c.is_empty()
            && self.d.is_empty()
            && self.e.is_empty()
    }

    // What the rule makes of a vote, or of none.
    fn go_on(&mut self, vote: Option<Claim>) -> Report
        requires { IfSome vote (λ claim. IsValid claim.at) }
        ensures report { result
            ≡ (step_of self.old.reader_rules self.old.table self.old.state vote).report }
        ensures votes { Advances self.old self.new (λ h. record h { votes = vote ∷ h.votes }) }
        ensures ports { self.new.redundancy ≡ self.old.redundancy }
        ensures valid { IfSome result.announce IsValid }
    {
        let state = mem::replace(&mut self.state, State::Idle);
        let step = step_of(self.reader_rules, &self.table, state, vote);
        self.state = step.state;
        step.report
    }

    /// Clears the ports, and forgets what was voted.
    pub fn restart(&mut self)
        ensures forgotten { Advances self.old self.new after_restart }
        ensures ports { self.new.redundancy ≡ self.old.redundancy }
    {
        self.a.clear();
        self.b.clear();
        self.c.clear();
        self.d.clear();
        self.e.clear();
        self.state = State::Idle;
    }
}

// A port that is empty takes over what another heard. Answers whether it was.
fn take_if_empty<P: Port>(port: &mut P, heard: &mut P) -> bool
    ensures answer { (rules : Rules) (s : List Symbol)
        → P.stands_for port.old rules s → result ≡ (length s == 0) }
    ensures empty { result ≡ true → (rules : Rules) (s : List Symbol)
        → P.stands_for port.old rules s → s ≡ [] }
    ensures taken { result ≡ true → (rules others : Rules) (s t : List Symbol)
        → P.stands_for port.old rules s → P.stands_for heard.old others t
        → P.stands_for port.new rules t }
    ensures unchanged { result ≡ false → port.new ≡ port.old }
    ensures kept { (rules : Rules) (s : List Symbol)
        → P.stands_for heard.old rules s → P.stands_for heard.new rules s }
{
    if !port.is_empty() {
        return false;
    }
    port.take_over(heard);
    true
}
