//! What becomes of a station while true time passes.

ghost use Rattle.std.specs.Prelude.{◌≡◌, ◌≤◌, ◌<◌, ◌*◌, ◌^◌, ◌⊎◌, false, true, IfErr, OnOk, ℕ};
ghost use Rattle.irig_station.specs.StationSetups.{StationSetup};
ghost use Rattle.irig_station.specs.StationStandings.{StationStanding, has_begun_if_due, has_begun_second, lacks_second, part_gone};
ghost use Rattle.irig_station.specs.Stations.{IsStationAt, LetGo, PlaysEvent};

use crate::event::Event;
use crate::fault::StationFault;
use crate::frames::{lines_of, step_all, truths_of};
use crate::seen::see;
use crate::station::Station;
use irig_port::Port;
use irig_simulated::Second;
use std::alloc::AllocError;

impl<P: Port> Station<P> {
    pub(crate) fn pass(&mut self, us: u64) -> Result<(), StationFault>
        requires { self.old.is_spent ≡ false }
        ensures { PlaysEvent self.old (Event.Pass us) self.new result }
    {
        let mut left_us = us;
        for _ in 0..us / 1_000_000 + 2 {
            if left_us == 0 {
                break;
            }
            self.begin_if_due()?;
            let part_us = left_us.min(self.begun * 1_000_000 - self.now_us);
            self.pass_part(self.now_us + part_us)?;
            left_us -= part_us;
        }
        Ok(())
    }

    // If it is time for a second, it begins.
    fn begin_if_due(&mut self) -> Result<(), StationFault>
        requires { self.old.is_spent ≡ false }
        ensures whole { self.new.is_spent ≡ false }
        ensures due { OnOk result (self.new.now_us < self.new.begun * 1000000) }
        ensures stands { OnOk result ((s : StationSetup) (x : StationStanding) (shown : LetGo)
            → IsStationAt self.old s x shown → (lacks_second s x ≡ false)
            × IsStationAt self.new s (has_begun_if_due s x) shown) }
        ensures refused { IfErr result (λ fault. (s : StationSetup) (x : StationStanding)
            (shown : LetGo) → IsStationAt self.old s x shown → (fault ≡ StationFault.Memory)
            ⊎ ((fault ≡ StationFault.EndOfYears) × (lacks_second s x ≡ true)
            × IsStationAt self.new s x shown)) }
    {
        if self.now_us < self.begun * 1_000_000 {
            return Ok(());
        }
        if self.timeline.at(self.begun).is_none() {
            return Err(StationFault::EndOfYears);
        }
        self.begin_second()?;
        Ok(())
    }

    // A second begins, for which the timeline has one.
    fn begin_second(&mut self) -> Result<(), AllocError>
        requires whole { self.old.is_spent ≡ false }
        requires early { self.old.begun < 2 ^ 32 }
        requires due { self.old.now_us ≡ self.old.begun * 1000000 }
        ensures whole { self.new.is_spent ≡ false }
        ensures due { OnOk result (self.new.now_us < self.new.begun * 1000000) }
        ensures stands { OnOk result ((s : StationSetup) (x : StationStanding) (shown : LetGo)
            → IsStationAt self.old s x shown
            → IsStationAt self.new s (has_begun_second s x) shown) }
    {
        let lines = lines_of::<P>(self.alloc, self.rules, &self.timeline, &self.generators)?;
        let before = truths_of(self.alloc, &self.second.lines)?;
        step_all(&mut self.generators);
        self.second = Second {
            number: self.begun,
            lines,
            before,
        };
        self.begun += 1;
        Ok(())
    }

    // Device after device passes on to a time. Until all have, they stand at different ones.
    fn pass_part(&mut self, stop_us: u64) -> Result<(), AllocError>
        requires whole { self.old.is_spent ≡ false }
        requires begun { self.old.now_us < self.old.begun * 1000000 }
        requires forward { self.old.now_us ≤ stop_us }
        requires within { stop_us ≤ self.old.begun * 1000000 }
        ensures whole { OnOk result (self.new.is_spent ≡ false) }
        ensures stands { OnOk result ((s : StationSetup) (x : StationStanding) (shown : LetGo)
            → IsStationAt self.old s x shown
            → IsStationAt self.new s (part_gone s stop_us x) shown) }
    {
        let edge = self.now_us / 1_000_000;
        self.is_spent = true;
        for r in 0..self.devices.len() {
            let device = &mut self.devices[r];
            device.play(&self.second, stop_us, r as u8, &mut self.heard)?;
            see(device, r as u8, edge, &mut self.log, &mut self.audit)?;
        }
        self.now_us = stop_us;
        self.is_spent = false;
        Ok(())
    }
}
