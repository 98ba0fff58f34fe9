//! What a plant does with each kind of event.

ghost use Rattle.std.specs.Prelude.{◌≡◌, ◌<◌, ◌≤◌, ◌+◌, [], IfErr, OnOk, OnErr, unwrap_or, vec_len, Some, None, true};
ghost use Rattle.irig_plant.specs.SilentTicks.{silent_ports};

use crate::audit::{TickOfReader, audit_after};
use crate::entry::Entry;
use crate::event::{Event, Widths};
use crate::fault::PlantFault;
use crate::plant::Plant;
use crate::pulses::{pulses, with_damage};
use irig_gen::GenFault;
use irig_port::{Port, Told};
use irig_reader::{Report, Ticked};
use irig_time::Claim;
use irig_vote::{Redundancy, Tells};

impl<P: Port> Plant<P> {
    ghost use Rattle.irig_plant.specs.Refusals.{unless_reader, unless_generator};
    ghost use Rattle.irig_plant.specs.Schedule.{pulses_sent};
    ghost use Rattle.irig_plant.specs.History.{ForHistory, Accepts, Does, Follows, RefusesAtLast, Keeps};

    pub(crate) fn step(&mut self, g: u8) -> Result<(), PlantFault>
        ensures { Does self.old (Event.GenEdge g) self.new result }
    {
        self.has_generator(g)?;
        let next = self.generators[g as usize].edge().saturating_add(1);
        if self.timeline.at(next).is_none() {
            return Err(PlantFault::EndOfYears);
        }
        let generator = &mut self.generators[g as usize];
        generator.step();
        self.cached_ports[g as usize] = None;
        Ok(())
    }

    // The room for its entry comes before the effect: a tick that wants memory changes nothing.
    pub(crate) fn tick(&mut self, r: u8) -> Result<(), PlantFault>
        ensures accepted { OnOk result (Accepts self.old (Event.Tick r)) }
        ensures stands { OnOk result (Follows self.old (Event.Tick r) self.new) }
        ensures refused { IfErr result (RefusesAtLast self.old (Event.Tick r)) }
        ensures unchanged { OnErr result (Keeps self.old self.new) }
    {
        self.has_reader(r)?;
        let ticks = self.readers[r as usize].ticks;
        let Some(truth) = self.truth.at(&self.timeline, ticks) else {
            return Err(PlantFault::EndOfYears);
        };
        self.log.reserve(1)?;
        let edge = ticks + 1;
        let tick = TickOfReader { reader: r, edge };
        let ticked_reader = &mut self.readers[r as usize];
        ticked_reader.ticks = edge;
        if ticked_reader.reader.heard_nothing() {
            let report = ticked_reader.reader.tick_silent();
            let entry = silent_entry(tick, report, self.redundancy, truth);
            self.log.push_reserved(entry);
            return Ok(());
        }
        let Ticked { report, told } = ticked_reader.reader.tick();
        self.audit = audit_after(self.audit, tick, truth, &told, self.redundancy);
        self.log.push_reserved(Entry {
            reader: r,
            edge,
            report,
            redundancy: self.redundancy,
            told,
            truth: Some(truth),
        });
        Ok(())
    }

    #[inline(always)]
    pub(crate) fn carry(&mut self, g: u8, r: u8) -> Result<(), PlantFault>
        ensures { Does self.old (Event.Carry g r) self.new result }
    {
        self.has_port(g, r)?;
        if self.brings_nothing(g) {
            return Ok(());
        }
        if !self.carry_cached_port(g, r) {
            self.carry_pulses(g, r);
        }
        Ok(())
    }

    // Whether it is known that a generator now sends no pulse.
    fn brings_nothing(&self, g: u8) -> bool
        requires { g < vec_len self.now.generators }
        ensures { result ≡ true → ForHistory self.now (λ h.
            pulses_sent h.setup g h.events ≡ []) }
    {
        match &self.cached_ports[g as usize] {
            Some(cached_port) => cached_port.is_empty(),
            None => false,
        }
    }

    // Apart from `carry`, since a function clears the room of its locals before it begins.
    fn carry_pulses(&mut self, g: u8, r: u8)
        requires generator { g < vec_len self.old.generators }
        requires reader { r < vec_len self.old.readers }
        ensures { Follows self.old (Event.Carry g r) self.new }
    {
        let sent = self.sent(g);
        self.deliver(g, r, pulses(&sent));
    }

    pub(crate) fn damage(&mut self, g: u8, r: u8, at: u8, width: u32) -> Result<(), PlantFault>
        ensures { Does self.old (Event.Damage g r at width) self.new result }
    {
        self.has_port(g, r)?;
        let sent = with_damage(self.sent(g), at, width);
        self.deliver(g, r, pulses(&sent));
        Ok(())
    }

    pub(crate) fn replay(&mut self, g: u8, r: u8, edge: u64) -> Result<(), PlantFault>
        ensures { Does self.old (Event.Replay g r edge) self.new result }
    {
        self.has_port(g, r)?;
        if edge > self.generators[g as usize].edge() {
            return Err(PlantFault::FutureReplay);
        }
        let sent = self.sent_at(g, edge);
        self.deliver(g, r, pulses(&sent));
        Ok(())
    }

    pub(crate) fn raw(&mut self, g: u8, r: u8, widths: &Widths) -> Result<(), PlantFault>
        ensures { Does self.old (Event.Raw g r widths.now) self.new result }
    {
        self.has_port(g, r)?;
        self.deliver(g, r, widths.as_slice());
        Ok(())
    }

    pub(crate) fn fault(&mut self, g: u8, kind: GenFault) -> Result<(), PlantFault>
        ensures { Does self.old (Event.Fault g kind) self.new result }
    {
        self.has_generator(g)?;
        let generator = &mut self.generators[g as usize];
        generator.fault(kind);
        self.cached_ports[g as usize] = None;
        Ok(())
    }

    pub(crate) fn repair(&mut self, g: u8) -> Result<(), PlantFault>
        ensures { Does self.old (Event.Repair g) self.new result }
    {
        self.has_generator(g)?;
        let generator = &mut self.generators[g as usize];
        generator.repair();
        self.cached_ports[g as usize] = None;
        Ok(())
    }

    pub(crate) fn restart(&mut self, r: u8) -> Result<(), PlantFault>
        ensures { Does self.old (Event.Restart r) self.new result }
    {
        self.has_reader(r)?;
        let ticked_reader = &mut self.readers[r as usize];
        ticked_reader.reader.restart();
        Ok(())
    }

    fn has_reader(&self, r: u8) -> Result<(), PlantFault>
        ensures ok { OnOk result (r < vec_len self.now.readers) }
        ensures err { IfErr result (λ fault.
            (fault ≡ PlantFault.NoSuchReader) × (vec_len self.now.readers ≤ r)) }
    {
        if usize::from(r) < self.readers.len() {
            Ok(())
        } else {
            Err(PlantFault::NoSuchReader)
        }
    }

    fn has_generator(&self, g: u8) -> Result<(), PlantFault>
        ensures ok { OnOk result (g < vec_len self.now.generators) }
        ensures err { IfErr result (λ fault.
            (fault ≡ PlantFault.NoSuchGenerator) × (vec_len self.now.generators ≤ g)) }
    {
        if usize::from(g) < self.generators.len() {
            Ok(())
        } else {
            Err(PlantFault::NoSuchGenerator)
        }
    }

    fn has_port(&self, g: u8, r: u8) -> Result<(), PlantFault>
        ensures reader { OnOk result (r < vec_len self.now.readers) }
        ensures generator { OnOk result (g < vec_len self.now.generators) }
        ensures refused { IfErr result (λ fault. ForHistory self.now (λ h.
            unless_reader h.setup r (unless_generator h.setup g None) ≡ Some fault)) }
    {
        self.has_reader(r)?;
        self.has_generator(g)
    }
}

// What is logged of a tick at which every port is silent.
fn silent_entry(tick: TickOfReader, report: Report, redundancy: Redundancy, truth: Claim) -> Entry
    ensures { result ≡ record {
      reader = tick.reader;
      edge = tick.edge;
      report = report;
      redundancy = redundancy;
      told = silent_ports;
      truth = Some truth;
    } }
{
    Entry {
        reader: tick.reader,
        edge: tick.edge,
        report,
        redundancy,
        told: Tells {
            a: Told::Silence,
            b: Told::Silence,
            c: Told::Silence,
            d: Told::Silence,
            e: Told::Silence,
        },
        truth: Some(truth),
    }
}
