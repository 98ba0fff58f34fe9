//! What a picture shows, as a listener keeps it.

ghost use Rattle.std.specs.Prelude.{◌≡◌, ◌++◌, ◌<◌, ◌≤◌, ◌∷◌, All, ℕ, List, IfOk, OnOk, None, length, reverse, vec_len, slice_index_or};
ghost use Rattle.irig_plant.specs.Sound.{IsToldSoundly};
ghost use Rattle.irig_plant.specs.Refusals.{refusal};
ghost use Rattle.irig_scene.specs.Listening.{Gave};
ghost use Rattle.irig_scene.specs.Scene.{Scene, scene};
ghost use Rattle.irig_station.specs.declared.entry.Entry.{Entry as EntryOf};
ghost use Rattle.irig_station.specs.Stations.{IsStationAt, LetGo};
ghost use Rattle.irig_station.specs.StationSetups.{StationSetup};
ghost use Rattle.irig_station.specs.StationStandings.{StationStanding};
ghost use Rattle.irig_station.specs.ValidEntries.{IsOfDevice, IsValidEntry};
ghost use Rattle.irig_station_scene.specs.StationScenes.{StationScene};
ghost use Rattle.report_found.specs.declared.tick.Tick.{Tick as TickOf};
ghost use Rattle.report_found.specs.Books.{with_tick};
ghost use Rattle.report_lanes.specs.Scenes.{lanes_in};

use crate::gather::{push_ended, push_open};
use crate::lane::Lane;
use crate::reader::ReaderLanes;
use indexmap::IndexSet;
use irig_plant::{Entry, Event, Plant};
use irig_port::Port;
use irig_scene::Listener;
use irig_station::{Entry as StationEntry, Station};
use irig_station_scene::StationListener;
use report_found::{Tick, first_tick, tick_of_told};
use std::alloc::{AllocError, Global};

/// The open lanes of a plant's readers, or devices, each of which has so many ports, and all that
/// ended.
#[derive(Drop)]
pub(crate) struct Drawer {
    readers: Vec<ReaderLanes>,
    ports: u8,
    lanes: Vec<Lane>,
    ghost few: { vec_len readers ≤ 16 },
}

impl Listener for Drawer {
    ghost use Rattle.std.specs.Prelude.{false};
    ghost use Rattle.irig_scene.specs.Texts.{no_texts};
    ghost use Rattle.report_lanes.specs.Runs.{IsDrawerAt};

    type Asked = ();

    ghost texts = { λ asked. no_texts };

    ghost stands_for = { λ asked drawer x. IsDrawerAt drawer x };

    ghost counts = { false };

    fn counts() -> bool {
        false
    }

    fn count(&self) -> u64 {
        0
    }

    fn new(
        alloc: Global,
        _asked: (),
        names: &IndexSet<String>,
        ports: u8,
    ) -> Result<Drawer, AllocError> {
        let readers = vec![in alloc; ReaderLanes::new(); names.len()]?;
        Ok(Drawer {
            readers,
            ports,
            lanes: Vec::new(alloc),
        })
    }

    fn echoes_plant_line(_asked: ()) -> bool {
        false
    }

    fn push_event<P: Port>(
        &mut self,
        _asked: (),
        _plant: &Plant<P>,
        _names: &IndexSet<String>,
        _event: &Event,
        entries: &[Entry],
        _text: &mut String,
    ) -> Result<(), AllocError> {
        match first_tick(entries) {
            Some(tick) => self.take(&tick),
            None => Ok(()),
        }
    }

    fn push_last<P: Port>(
        &self,
        _asked: (),
        _plant: &Plant<P>,
        _names: &IndexSet<String>,
        _refused: bool,
        _text: &mut String,
    ) -> Result<(), AllocError> {
        Ok(())
    }
}

impl StationListener for Drawer {
    ghost use Rattle.std.specs.Prelude.{false};
    ghost use Rattle.irig_station_scene.specs.StationStays.{quiet_reads, quiet_stays};
    ghost use Rattle.irig_station_scene.specs.StationTexts.{quiet_texts};
    ghost use Rattle.report_lanes.specs.DeviceRuns.{HasDrawnSoFar, IsDrawerAtStation};

    type Asked = ();

    ghost texts = { λ asked. quiet_texts };

    ghost hears = { false };

    ghost stands_for = { λ asked drawer x. IsDrawerAtStation drawer x };

    ghost stays = { λ asked. quiet_stays };

    ghost reads = { λ asked. quiet_reads (λ drawer plan entries.
        HasDrawnSoFar drawer plan.setup (reverse entries)) };

    fn hears() -> bool {
        false
    }

    fn first(_asked: ()) -> &'static str {
        ""
    }

    fn new(
        alloc: Global,
        _asked: (),
        names: &IndexSet<String>,
        lines: u8,
    ) -> Result<Drawer, AllocError> {
        let readers = vec![in alloc; ReaderLanes::new(); names.len()]?;
        Ok(Drawer {
            readers,
            ports: lines,
            lanes: Vec::new(alloc),
        })
    }

    fn push_event<P: Port>(
        &mut self,
        _asked: (),
        station: &Station<P>,
        _names: &IndexSet<String>,
        entries: &[StationEntry],
        _text: &mut String,
    ) -> Result<(), AllocError> {
        self.take_all(station, entries)
    }

    fn push_last<P: Port>(
        &self,
        _asked: (),
        _station: &Station<P>,
        _names: &IndexSet<String>,
        _refused: bool,
        _text: &mut String,
    ) -> Result<(), AllocError> {
        Ok(())
    }
}

impl Drawer {
    ghost use Rattle.report_lanes.specs.OpenLanes.{AreOpen};
    ghost use Rattle.report_lanes.specs.Runs.{IsDrawerAt};
    ghost use Rattle.report_lanes.specs.Lanes.{ended_lanes, open_of};
    ghost use Rattle.report_lanes.specs.DeviceRuns.{HasDrawnSoFar, IsDrawerAtStation};
    ghost use Rattle.report_lanes.specs.DeviceScenes.{lanes_in_station};

    // Takes what devices told.
    fn take_all<P: Port>(
        &mut self,
        station: &Station<P>,
        entries: &[StationEntry],
    ) -> Result<(), AllocError>
        requires { All IsValidEntry entries.now }
        ensures { OnOk result ((s : StationSetup) (x : StationStanding) (shown : LetGo)
            (before : List EntryOf) → IsStationAt station.now s x shown
            → All (IsOfDevice (length s.devices)) entries.now → HasDrawnSoFar self.old s before
            → HasDrawnSoFar self.new s (reverse entries.now ++ before)) }
    {
        for entry in entries {
            self.take_told(station, entry)?;
        }
        Ok(())
    }

    fn take_told<P: Port>(
        &mut self,
        station: &Station<P>,
        entry: &StationEntry,
    ) -> Result<(), AllocError>
        requires { IsValidEntry entry.now }
        ensures { OnOk result ((s : StationSetup) (x : StationStanding) (shown : LetGo)
            (before : List EntryOf) → IsStationAt station.now s x shown
            → IsOfDevice (length s.devices) entry.now → HasDrawnSoFar self.old s before
            → HasDrawnSoFar self.new s (entry.now ∷ before)) }
    {
        match tick_of_told(station, entry) {
            Some(tick) => self.take(&tick),
            None => Ok(()),
        }
    }

    // Takes a tick of a reader: pushes what it ends and marks.
    fn take(&mut self, tick: &Tick) -> Result<(), AllocError>
        ensures ports { self.new.ports ≡ self.old.ports }
        ensures lanes { OnOk result ((readers : ℕ) (ticks : ℕ → List TickOf)
            → AreOpen self.old readers ticks → tick.now.entry.reader < readers
            → self.new.lanes.items ≡ self.old.lanes.items
            ++ ended_lanes self.old.ports (open_of (ticks tick.now.entry.reader)) tick.now) }
        ensures readers { OnOk result ((readers : ℕ) (ticks : ℕ → List TickOf)
            → AreOpen self.old readers ticks → tick.now.entry.reader < readers
            → AreOpen self.new readers (with_tick tick.now ticks)) }
    {
        let reader = tick.entry.reader as usize;
        if reader < self.readers.len() {
            let before = self.readers[reader];
            push_ended(&mut self.lanes, self.ports, &before, tick)?;
            self.readers[reader] = before.after(tick);
        }
        Ok(())
    }

    /// All that ended, and then all that is open.
    pub(crate) fn into_lanes(self) -> Result<Vec<Lane>, AllocError>
        ensures readers { (x : Scene) → IsDrawerAt self x
            → IfOk result (λ lanes. lanes.items ≡ lanes_in x) }
        ensures devices { (x : StationScene) → IsDrawerAtStation self x
            → IfOk result (λ lanes. lanes.items ≡ lanes_in_station x) }
    {
        let Drawer {
            readers,
            ports,
            mut lanes,
            ..
        } = self;
        for reader in &readers {
            push_open(&mut lanes, ports, reader)?;
        }
        Ok(lanes)
    }
}
