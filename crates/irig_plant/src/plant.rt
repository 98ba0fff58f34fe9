//! A plant and its events.

ghost use Rattle.std.specs.Prelude.{◌≡◌, ◌<◌, All, [], IfSome, IfOk, IfErr, OnOk, OnErr, length, take, drop, slice_get, vec_len, None, true, if◌then◌else◌, ℕ, slice_index_or};
ghost use Rattle.irig_time.specs.TimelineFaults.{timeline_fault};
ghost use Rattle.irig_time.specs.Timelines.{truth_at};
ghost use Rattle.irig_vote.specs.Vote.{ports_in};
ghost use Rattle.irig_plant.specs.Sound.{IsSound, IsToldSoundly};

use crate::audit::{Audit, first_audit};
use crate::entry::Entry;
use crate::event::Event;
use crate::fault::{PlantFault, Refused};
use crate::setup::ReaderSetup;
use crate::truth::Truth;
use irig_gen::Generator;
use irig_port::Port;
use irig_reader::Reader;
use irig_time::{Rules, Timeline};
use irig_vote::Redundancy;
use std::alloc::{AllocError, Global};

/// A reader, and how often it ticked.
#[derive(Drop)]
pub(crate) struct TickedReader<P: Port> {
    pub reader: Reader<P>,
    pub ticks: u64,
}

/// Generators, the readers that they feed, and what was logged of the readers.
#[derive(Drop)]
pub struct Plant<P: Port> {
    pub(crate) timeline: Timeline,
    /// What is true at the edge at which a reader last ticked.
    pub(crate) truth: Truth,
    pub(crate) rules: Rules,
    pub(crate) redundancy: Redundancy,
    pub(crate) generators: Vec<Generator>,
    /// For each generator a port that heard just what it now sends, once that was carried.
    pub(crate) cached_ports: Vec<Option<P>>,
    pub(crate) readers: Vec<TickedReader<P>>,
    pub(crate) log: Vec<Entry>,
    pub(crate) audit: Audit,
    ghost fed: { vec_len generators ≡ ports_in redundancy },
    ghost carried: { vec_len cached_ports ≡ vec_len generators },
    ghost wired: { All (λ x. x.reader.redundancy ≡ redundancy) readers.items },
    ghost timed: { timeline_fault timeline.start timeline.leaps ≡ None },
    ghost true_there: { truth.claim ≡ truth_at timeline truth.number },
    ghost sound: { ∥ All IsSound log.items ∥₁ },
    ghost claimed: { ∥ All IsToldSoundly log.items ∥₁ },
    ghost known: { All (λ e. e.reader < vec_len readers) log.items },
}

impl<P: Port> Plant<P> {
    ghost use Rattle.irig_gen.specs.Frames.{GeneratorValue};
    ghost use Rattle.irig_plant.specs.Schedule.{setup, generator_at, log_of};
    ghost use Rattle.irig_plant.specs.Runs.{events_after, AreAccepted, IsRefused};
    ghost use Rattle.irig_plant.specs.Audits.{audit_of};
    ghost use Rattle.irig_plant.specs.Truth.{AnnouncesTruth, GivesNoFalseAlarm};
    ghost use Rattle.irig_plant.specs.Exactly.{AnnouncesWhenHeld, HasItsLock, HasItsCause};
    ghost use Rattle.irig_plant.specs.History.{AreGenerators, AreReaders, AreNew, beginning, with_events, with_cleared_log, HasPlantHistory, ForHistory, ForEntries, Becomes, Accepts, Follows, RefusesAtLast, Keeps};

    /// A plant over this timeline, with these generators, all of whose readers read by the same
    /// rules.
    ///
    /// There must be three or five generators, made with these rules, at edge 0 and without fault,
    /// and 1 to 16 readers whose rules are [`in_range`](irig_reader::in_range). The plant keeps
    /// copies of their tables. `Memory` if there is none.
    pub fn new(
        alloc: Global,
        timeline: Timeline,
        generators: Vec<Generator>,
        rules: Rules,
        readers: &[ReaderSetup],
    ) -> Result<Self, PlantFault>
        requires generators { AreGenerators rules generators.items }
        requires readers { AreReaders readers.now }
        ensures stands { IfOk result (λ p.
            HasPlantHistory p (beginning (setup timeline generators.items rules readers.now))) }
        ensures memory { IfErr result (λ fault. fault ≡ PlantFault.Memory) }
    {
        let redundancy = Redundancy::of_ports(generators.len());
        let audit = first_audit(&timeline, readers);
        let cached_ports = Self::no_cached_ports(alloc, generators.len())?;
        let ticked = Self::new_readers(alloc, rules, redundancy, readers)?;
        let truth = Truth::of(&timeline, 0);
        Ok(Plant {
            timeline,
            truth,
            rules,
            redundancy,
            generators,
            cached_ports,
            readers: ticked,
            log: Vec::new(alloc),
            audit,
        })
    }

    // So many generators of which nothing was carried.
    fn no_cached_ports(alloc: Global, count: usize) -> Result<Vec<Option<P>>, AllocError>
        ensures count { IfOk result (λ cached_ports. vec_len cached_ports ≡ count) }
        ensures none { IfOk result (λ cached_ports.
            All (λ cached_port. cached_port ≡ None) cached_ports.items) }
    {
        let mut cached_ports = Vec::new(alloc);
        for _ in 0..count {
            cached_ports.push(None)?;
        }
        Ok(cached_ports)
    }

    fn new_readers(
        alloc: Global,
        rules: Rules,
        redundancy: Redundancy,
        readers: &[ReaderSetup],
    ) -> Result<Vec<TickedReader<P>>, AllocError>
        requires { AreReaders readers.now }
        ensures count { IfOk result (λ ticked. vec_len ticked ≡ length readers.now) }
        ensures new { IfOk result (λ ticked. AreNew rules redundancy readers.now ticked.items) }
        ensures wired { IfOk result (λ ticked.
            All (λ x. x.reader.redundancy ≡ redundancy) ticked.items) }
    {
        let mut ticked = Vec::new(alloc);
        for setup in readers {
            let reader = Reader::fresh(rules, setup.rules, setup.table.copy(), redundancy);
            ticked.push(TickedReader { reader, ticks: 0 })?;
        }
        Ok(ticked)
    }

    // It stands in the loop over a second's events, with carries, which are the most of them.
    /// Takes one event, or answers the first refusal that applies and changes nothing. Refusals
    /// come in the order of [`PlantFault`]. Only a tick asks for memory, for its entry.
    #[inline(always)]
    pub fn apply(&mut self, event: &Event) -> Result<(), PlantFault>
        ensures accepted { OnOk result (Accepts self.old event.now) }
        ensures stands { OnOk result (Follows self.old event.now self.new) }
        ensures refused { IfErr result (RefusesAtLast self.old event.now) }
        ensures unchanged { OnErr result (Keeps self.old self.new) }
    {
        match event {
            Event::GenEdge(g) => self.step(*g),
            Event::Tick(r) => self.tick(*r),
            Event::Carry { g, r } => self.carry(*g, *r),
            Event::Damage { g, r, at, width } => self.damage(*g, *r, *at, *width),
            Event::Replay { g, r, edge } => self.replay(*g, *r, *edge),
            Event::Raw { g, r, widths } => self.raw(*g, *r, widths),
            Event::Fault { g, kind } => self.fault(*g, *kind),
            Event::Repair(g) => self.repair(*g),
            Event::Restart(r) => self.restart(*r),
        }
    }

    /// Events in order, up to the first that is refused; those before it stand.
    pub fn run(&mut self, events: &[Event]) -> Result<(), Refused>
        ensures accepted { OnOk result
            (ForHistory self.old (λ h. AreAccepted h.setup events.now h.events)) }
        ensures stands { OnOk result (Becomes self.old self.new (with_events events.now)) }
        ensures index { IfErr result (λ e. e.index < length events.now) }
        ensures accepted_before { IfErr result (λ e. ForHistory self.old (λ h.
            AreAccepted h.setup (take e.index events.now) h.events)) }
        ensures refused { IfErr result (λ e. ForHistory self.old (λ h.
            IfSome (slice_get events.now e.index) (λ event.
            IsRefused h.setup event (events_after (take e.index events.now) h.events) e.fault))) }
        ensures stands_before { IfErr result (λ e.
            Becomes self.old self.new (with_events (take e.index events.now))) }
    {
        for (index, event) in events.iter().enumerate() {
            if let Err(fault) = self.apply(event) {
                return Err(Refused { index, fault });
            }
        }
        Ok(())
    }

    /// What the readers said and their ports told, in order, since the log was last cleared. What
    /// they announced are [`valid`](irig_time::valid) seconds, as is what ports claimed, and those
    /// of their edges if the premises held. Then
    /// none gives a false alarm, each announces exactly if its edge is held, and its lock and its
    /// cause are those that the events give.
    pub fn log(&self) -> &[Entry]
        // the log of the plant's events, without the entries that were cleared
        ensures entries { ForHistory self.now (λ h.
            result.now ≡ drop h.shown (log_of h.setup h.events)) }
        // the headline: T of its edge or nothing, under its reader's premises
        ensures truth { ForEntries self.now result.now AnnouncesTruth }
        // under them no jump, the end of the range only without T, a guard only at a guard edge
        ensures calm { ForEntries self.now result.now GivesNoFalseAlarm }
        // under them, if T exists, it announces exactly if its edge is held, with the lock and the
        // cause that the events give
        ensures exactly { ForEntries self.now result.now AnnouncesWhenHeld }
        ensures lock { ForEntries self.now result.now HasItsLock }
        ensures cause { ForEntries self.now result.now HasItsCause }
        // whatever happened, its second is valid, what ports claimed too, and its reader exists
        ensures valid { All IsSound result.now }
        ensures claims { All IsToldSoundly result.now }
        ensures readers { ForHistory self.now (λ h.
            All (λ e. e.reader < length h.setup.readers) result.now) }
    {
        self.log.as_slice()
    }

    /// Empties the log, and changes nothing else.
    pub fn clear_log(&mut self)
        ensures { Becomes self.old self.new with_cleared_log }
    {
        self.log.clear();
    }

    /// The generators, as the events left them.
    pub fn generators(&self) -> &[Generator]
        ensures count { ForHistory self.now (λ h.
            length result.now ≡ length h.setup.generators) }
        ensures stand { ForHistory self.now (λ h. (g : ℕ) (other : GeneratorValue)
            → g < length h.setup.generators
            → slice_index_or result.now g other ≡ generator_at h.setup g h.events) }
    {
        self.generators.as_slice()
    }

    /// Whether the premises held so far, and if not the first place at which they broke.
    pub fn audit(&self) -> Audit
        ensures { ForHistory self.now (λ h. result ≡ audit_of h.setup h.events) }
    {
        self.audit
    }
}
