//! A generator.

ghost use Rattle.std.specs.Prelude.{◌≡◌, ◌+◌, ◌<◌, ℕ, true, Some, None, unwrap_or, IfSome, MatchResult};
ghost use Rattle.std.specs.Option.{option_map};
ghost use Rattle.irig_time.specs.declared.second.UtcSecond.{UtcSecond};
ghost use Rattle.irig_time.specs.Timelines.{second_at};
ghost use Rattle.irig_gen.specs.Faults.{sent_edge};
ghost use Rattle.irig_gen.specs.Frames.{gen, IsFrameOrNone, IsSent};
ghost use Rattle.irig_gen.specs.Sent.{IsValueSent, ShowSame, frame_of, frame_of_value, last_sent, sent_of};
ghost use Rattle.irig_time.specs.TimelineFaults.{IsTimeline};
ghost use Rattle.irig_gen.specs.Refusals.{gen_refusal};

use crate::control::{any_ends, control_at};
use crate::fault::{GenFault, control_with_fault, edge_sent};
use crate::zone::{Change, Zone, all_fit, in_order, zone_at};
use irig_control::encode_with_parity;
use irig_frame::{Coded, Symbol};
use irig_time::{Rules, Timeline, UtcSecond, value_of_second};
use std::alloc::Global;
use std::marker::Model;

/// Why there is no such generator, in the order in which refusals are answered.
#[derive(Clone, Copy, PartialEq, Eq)]
pub enum GenRefusal {
    /// A zone, the first or a change's, is not -31 to 31 half hours ahead of UTC.
    Offset,
    /// A change is not at the first second of a UTC minute of a day served, or not later than the
    /// one before.
    Changes,
    /// There was no memory.
    Memory,
}

/// What sends a frame at each edge.
#[derive(Drop)]
pub struct Generator {
    zone: Zone,
    changes: Vec<Change>,
    rules: Rules,
    edge: u64,
    fault: Option<GenFault>,
    since: u64,
}

impl Model for Generator {
    ghost use Rattle.irig_gen.specs.Frames.{GeneratorValue, gen};
    ghost use Rattle.irig_gen.specs.Refusals.{IsGenerator};

    ghost Value = { GeneratorValue };

    ghost view = { λ g. gen g.zone g.changes.items g.rules g.edge g.fault g.since };

    ghost invariant = { λ g.
        IsGenerator (gen g.zone g.changes.items g.rules g.edge g.fault g.since) };
}

impl Generator {
    /// The generator with this first zone and these changes, at edge 0 and without fault.
    ///
    /// `Offset` of any zone comes before `Changes`, and `Memory` last.
    pub fn new(
        alloc: Global,
        zone: Zone,
        changes: &[Change],
        rules: Rules,
    ) -> Result<Generator, GenRefusal>
        ensures { MatchResult result
            (λ g. (gen_refusal zone changes.now ≡ None)
            × (g ≡ gen zone changes.now rules 0 None 0))
            (λ e. e ≡ unwrap_or (gen_refusal zone changes.now) GenRefusal.Memory) }
    {
        if !all_fit(&zone, changes) {
            return Err(GenRefusal::Offset);
        }
        if !in_order(changes) {
            return Err(GenRefusal::Changes);
        }
        match Vec::from_slice(alloc, changes) {
            Ok(changes) => Ok(Generator {
                zone,
                changes,
                rules,
                edge: 0,
                fault: None,
                since: 0,
            }),
            Err(_) => Err(GenRefusal::Memory),
        }
    }

    /// Yes only if the other generator now sends the same: the frame of the same edge, by the same
    /// fault and rules, and its clock shows the same of that second.
    pub fn sends_as(&self, other: &Generator, timeline: &Timeline) -> bool
        ensures { result ≡ true
            → sent_of self.now timeline.now ≡ sent_of other.now timeline.now }
    {
        if !self.stands_as(other) {
            return false;
        }
        if self.is_plain_as(other) {
            return true;
        }
        match self.second_sent(timeline) {
            Some(utc) => self.shows_as(other, &utc),
            None => true,
        }
    }

    fn stands_as(&self, other: &Generator) -> bool
        ensures edge { result ≡ true → last_sent self.now ≡ last_sent other.now }
        ensures fault { result ≡ true → self.now.fault ≡ other.now.fault }
        ensures rules { result ≡ true → self.now.rules ≡ other.now.rules }
    {
        if !is_same_fault(self.fault, other.fault) {
            return false;
        }
        if !are_same_rules(self.rules, other.rules) {
            return false;
        }
        let edge = edge_sent(self.fault, self.edge, self.since);
        is_same_edge(edge, edge_sent(other.fault, other.edge, other.since))
    }

    // Whether both stay in one zone: then no second has to be looked up.
    fn is_plain_as(&self, other: &Generator) -> bool
        ensures { result ≡ true → (u : UtcSecond) → ShowSame self.now other.now u }
    {
        if !self.changes.is_empty() {
            return false;
        }
        if !other.changes.is_empty() {
            return false;
        }
        is_same_zone(self.zone, other.zone)
    }

    fn shows_as(&self, other: &Generator, utc: &UtcSecond) -> bool
        ensures { result ≡ true → ShowSame self.now other.now utc.now }
    {
        let zone = zone_at(self.zone, &self.changes, utc);
        if !is_same_zone(zone, zone_at(other.zone, &other.changes, utc)) {
            return false;
        }
        any_ends(utc, &self.changes) == any_ends(utc, &other.changes)
    }

    // The second whose frame is sent, if there is one.
    fn second_sent(&self, timeline: &Timeline) -> Option<UtcSecond>
        ensures { (edge : ℕ)
            → sent_edge self.now.fault self.now.edge self.now.since ≡ Some edge
            → result ≡ second_at timeline.now edge }
    {
        timeline.at(edge_sent(self.fault, self.edge, self.since)?)
    }

    /// The edge at which the generator stands.
    pub fn edge(&self) -> u64
        ensures { result ≡ self.now.edge }
    {
        self.edge
    }

    /// Goes to the next edge, if there is one below 2^64.
    pub fn step(&mut self)
        requires { self.old.edge < u64.MAX }
        ensures { self.new ≡ record self.old { edge = self.old.edge + 1 } }
    {
        self.edge += 1;
    }

    /// Sets a fault, in place of any earlier one.
    pub fn fault(&mut self, fault: GenFault)
        ensures { self.new ≡ record self.old { fault = Some fault; since = self.old.edge } }
    {
        self.fault = Some(fault);
        self.since = self.edge;
    }

    /// Ends the fault.
    pub fn repair(&mut self)
        ensures { self.new ≡ record self.old { fault = None } }
    {
        self.fault = None;
    }

    /// The frame of an edge without fault; none if the timeline has no second for it.
    pub fn frame_at(&self, timeline: &Timeline, edge: u64) -> Option<[Symbol; 100]>
        ensures frame { IsFrameOrNone None self.now timeline.now edge result }
        ensures value { result ≡ frame_of None self.now timeline.now edge }
    {
        self.frame_by(timeline, edge, None)
    }

    /// The frame that is now sent, by the fault if there is one.
    pub fn frame(&self, timeline: &Timeline) -> Option<[Symbol; 100]>
        ensures frame { IsSent self.now timeline.now result }
        ensures value { result ≡ sent_of self.now timeline.now }
    {
        let coded = self.value(timeline)?;
        Some(encode_with_parity(&coded, self.rules.parity))
    }

    /// What the frame that is now sent reads as, but for its parity bit, which is 0.
    pub fn value(&self, timeline: &Timeline) -> Option<Coded>
        ensures frame { IsSent self.now timeline.now (option_map (frame_of_value self.now) result) }
        ensures value { option_map (frame_of_value self.now) result
            ≡ sent_of self.now timeline.now }
        ensures in_range { IfSome result IsValueSent }
    {
        let edge = edge_sent(self.fault, self.edge, self.since)?;
        self.value_by(timeline, edge, self.fault)
    }

    /// The rules by which its frames are made.
    pub fn rules(&self) -> Rules
        ensures { result ≡ self.now.rules }
    {
        self.rules
    }

    fn frame_by(
        &self,
        timeline: &Timeline,
        edge: u64,
        fault: Option<GenFault>,
    ) -> Option<[Symbol; 100]>
        ensures frame { IsFrameOrNone fault self.now timeline.now edge result }
        ensures value { result ≡ frame_of fault self.now timeline.now edge }
    {
        let coded = self.value_by(timeline, edge, fault)?;
        Some(encode_with_parity(&coded, self.rules.parity))
    }

    /// What the frame of an edge reads as, with the control bits that a fault makes of the true
    /// ones.
    fn value_by(&self, timeline: &Timeline, edge: u64, fault: Option<GenFault>) -> Option<Coded>
        ensures sound { IsTimeline timeline.now }
        ensures frame { IsFrameOrNone fault self.now timeline.now edge
            (option_map (frame_of_value self.now) result) }
        ensures value { option_map (frame_of_value self.now) result
            ≡ frame_of fault self.now timeline.now edge }
        ensures in_range { IfSome result IsValueSent }
    {
        let utc = timeline.at(edge)?;
        let zone = zone_at(self.zone, &self.changes, &utc);
        let leap = timeline.leap(utc.day);
        let control = control_at(self.rules.sense, zone, &self.changes, leap, &utc);
        let sent = control_with_fault(fault, control);
        Some(value_of_second(&utc, zone.half_hours, &sent))
    }
}

fn is_same_fault(one: Option<GenFault>, other: Option<GenFault>) -> bool
    ensures { result ≡ true → one ≡ other }
{
    one == other
}

fn is_same_edge(one: Option<u64>, other: Option<u64>) -> bool
    ensures { result ≡ true → one ≡ other }
{
    one == other
}

fn is_same_zone(one: Zone, other: Zone) -> bool
    ensures { result ≡ true → one ≡ other }
{
    one == other
}

fn are_same_rules(one: Rules, other: Rules) -> bool
    ensures { result ≡ true → one ≡ other }
{
    one == other
}
