//! What a station does with events that happen at the present instant.

ghost use Rattle.std.specs.Prelude.{◌≡◌, ◌≤◌, ◌<◌, false, vec_len, IfErr, OnOk};
ghost use Rattle.irig_station.specs.Stations.{IsLineRefusal, PlaysEvent};

use crate::audit::audit_seen;
use crate::entry::Entry;
use crate::event::Event;
use crate::fault::StationFault;
use crate::seen::see;
use crate::station::Station;
use irig_gen::GenFault;
use irig_port::Port;

/// A line is at most so late.
const MOST_LATE_US: u16 = 1999;

impl<P: Port> Station<P> {
    /// Takes one event, or answers why it is refused, the first reason in the order of
    /// [`StationFault`]. A refused event changes nothing; but of a stretch of time what passes
    /// before the end of the years has happened. Behind `Memory` the station is of no use: it
    /// answers `Memory` to each further event.
    pub fn apply(&mut self, event: &Event) -> Result<(), StationFault>
        ensures { PlaysEvent self.old event.now self.new result }
    {
        if self.is_spent {
            return Err(StationFault::Memory);
        }
        let result = self.take(event);
        if let Err(StationFault::Memory) = result {
            self.is_spent = true;
        }
        result
    }

    fn take(&mut self, event: &Event) -> Result<(), StationFault>
        requires { self.old.is_spent ≡ false }
        ensures { PlaysEvent self.old event.now self.new result }
    {
        match *event {
            Event::Pass(us) => self.pass(us),
            Event::Fault { g, kind } => self.fault(g, kind),
            Event::Repair(g) => self.repair(g),
            Event::Pull { g, r } => self.pull(g, r),
            Event::Plug { g, r } => self.plug(g, r),
            Event::Late { g, r, us } => self.be_late(g, r, us),
            Event::Pulse { g, r, width_us } => self.pulse(g, r, width_us),
            Event::Tick(r) => self.tick(r),
            Event::Restart(r) => self.restart(r),
            Event::Stamp { r, ago_us } => self.stamp(r, ago_us),
        }
    }

    fn fault(&mut self, g: u8, kind: GenFault) -> Result<(), StationFault>
        requires { self.old.is_spent ≡ false }
        ensures { PlaysEvent self.old (Event.Fault g kind) self.new result }
    {
        self.has_generator(g)?;
        let generator = &mut self.generators[g as usize];
        generator.fault(kind);
        Ok(())
    }

    fn repair(&mut self, g: u8) -> Result<(), StationFault>
        requires { self.old.is_spent ≡ false }
        ensures { PlaysEvent self.old (Event.Repair g) self.new result }
    {
        self.has_generator(g)?;
        let generator = &mut self.generators[g as usize];
        generator.repair();
        Ok(())
    }

    fn pull(&mut self, g: u8, r: u8) -> Result<(), StationFault>
        requires { self.old.is_spent ≡ false }
        ensures { PlaysEvent self.old (Event.Pull g r) self.new result }
    {
        self.has_line(g, r)?;
        let device = &mut self.devices[r as usize];
        device.pull(g);
        Ok(())
    }

    fn plug(&mut self, g: u8, r: u8) -> Result<(), StationFault>
        requires { self.old.is_spent ≡ false }
        ensures { PlaysEvent self.old (Event.Plug g r) self.new result }
    {
        self.has_line(g, r)?;
        let device = &mut self.devices[r as usize];
        device.plug(g);
        Ok(())
    }

    fn be_late(&mut self, g: u8, r: u8, us: u16) -> Result<(), StationFault>
        requires { self.old.is_spent ≡ false }
        ensures { PlaysEvent self.old (Event.Late g r us) self.new result }
    {
        self.has_line(g, r)?;
        let device = &mut self.devices[r as usize];
        device.be_late(g, us.min(MOST_LATE_US));
        Ok(())
    }

    fn pulse(&mut self, g: u8, r: u8, width_us: u32) -> Result<(), StationFault>
        requires { self.old.is_spent ≡ false }
        ensures { PlaysEvent self.old (Event.Pulse g r width_us) self.new result }
    {
        self.has_line(g, r)?;
        let device = &mut self.devices[r as usize];
        device.add(g, width_us);
        Ok(())
    }

    fn tick(&mut self, r: u8) -> Result<(), StationFault>
        requires { self.old.is_spent ≡ false }
        ensures { PlaysEvent self.old (Event.Tick r) self.new result }
    {
        self.has_device(r)?;
        let edge = self.now_us / 1_000_000;
        let device = &mut self.devices[r as usize];
        device.tick()?;
        see(device, r, edge, &mut self.log, &mut self.audit)?;
        Ok(())
    }

    fn restart(&mut self, r: u8) -> Result<(), StationFault>
        requires { self.old.is_spent ≡ false }
        ensures { PlaysEvent self.old (Event.Restart r) self.new result }
    {
        self.has_device(r)?;
        let device = &mut self.devices[r as usize];
        device.restart();
        Ok(())
    }

    fn stamp(&mut self, r: u8, ago_us: u32) -> Result<(), StationFault>
        requires { self.old.is_spent ≡ false }
        ensures { PlaysEvent self.old (Event.Stamp r ago_us) self.new result }
    {
        self.has_device(r)?;
        let Some(time_us) = self.now_us.checked_sub(u64::from(ago_us)) else {
            return Err(StationFault::BeforeStart);
        };
        if self.log.reserve(1).is_err() {
            return Err(StationFault::Memory);
        }
        let device = &self.devices[r as usize];
        let may = device.may_stamp(time_us);
        let stamp = device.stamp(time_us);
        self.audit = audit_seen(self.audit, r, self.now_us / 1_000_000, may);
        self.log.push_reserved(Entry::Stamped {
            device: r,
            time_us,
            stamp,
        });
        Ok(())
    }

    fn has_device(&self, r: u8) -> Result<(), StationFault>
        ensures ok { OnOk result (r < vec_len self.now.devices) }
        ensures err { IfErr result (λ fault.
            (fault ≡ StationFault.NoSuchDevice) × (vec_len self.now.devices ≤ r)) }
    {
        if usize::from(r) < self.devices.len() {
            Ok(())
        } else {
            Err(StationFault::NoSuchDevice)
        }
    }

    fn has_generator(&self, g: u8) -> Result<(), StationFault>
        ensures ok { OnOk result (g < vec_len self.now.generators) }
        ensures err { IfErr result (λ fault.
            (fault ≡ StationFault.NoSuchGenerator) × (vec_len self.now.generators ≤ g)) }
    {
        if usize::from(g) < self.generators.len() {
            Ok(())
        } else {
            Err(StationFault::NoSuchGenerator)
        }
    }

    fn has_line(&self, g: u8, r: u8) -> Result<(), StationFault>
        ensures device { OnOk result (r < vec_len self.now.devices) }
        ensures generator { OnOk result (g < vec_len self.now.generators) }
        ensures refused { IfErr result (λ fault. IsLineRefusal g r (vec_len self.now.generators)
            (vec_len self.now.devices) fault) }
    {
        self.has_device(r)?;
        self.has_generator(g)
    }
}
