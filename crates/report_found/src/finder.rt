//! Who lied, and what it cost, as a listener keeps it.

ghost use Rattle.std.specs.Prelude.{◌≡◌, ◌++◌, ◌∷◌, ℕ, All, List, IfOk, OnOk, length, reverse};
ghost use Rattle.irig_scene.specs.Scene.{Scene};
ghost use Rattle.irig_station.specs.declared.entry.Entry.{Entry as EntryOf};
ghost use Rattle.irig_station.specs.Stations.{IsStationAt, LetGo};
ghost use Rattle.irig_station.specs.StationSetups.{StationSetup};
ghost use Rattle.irig_station.specs.StationStandings.{StationStanding};
ghost use Rattle.irig_station.specs.ValidEntries.{IsOfDevice, IsValidEntry};
ghost use Rattle.irig_station_scene.specs.StationScenes.{StationScene};
ghost use Rattle.report_found.specs.DeviceRuns.{HasFoundSoFar, IsFinderAtStation};
ghost use Rattle.report_found.specs.DeviceScenes.{found_in_station};
ghost use Rattle.report_found.specs.Scenes.{found_in};
ghost use Rattle.report_found.specs.Runs.{IsFinderAt};

use crate::book::Book;
use crate::finding::Finding;
use crate::told::tick_of_told;
use indexmap::IndexSet;
use irig_plant::{Entry, Event, Plant};
use irig_port::Port;
use irig_scene::Listener;
use irig_station::{Entry as StationEntry, Station};
use irig_station_scene::StationListener;
use std::alloc::{AllocError, Global};

/// Keeps the accounts of a plant's readers, or devices, and all that ended.
#[derive(Drop)]
pub(crate) struct Finder {
    book: Book,
    findings: Vec<Finding>,
}

impl Listener for Finder {
    ghost use Rattle.std.specs.Prelude.{false};
    ghost use Rattle.irig_scene.specs.Texts.{no_texts};

    type Asked = ();

    ghost texts = { λ asked. no_texts };

    ghost stands_for = { λ asked finder x. IsFinderAt finder x };

    ghost counts = { false };

    fn counts() -> bool {
        false
    }

    fn count(&self) -> u64 {
        0
    }

    fn new(
        alloc: Global,
        _asked: (),
        names: &IndexSet<String>,
        ports: u8,
    ) -> Result<Finder, AllocError> {
        let book = Book::new(alloc, names.len(), ports)?;
        Ok(Finder {
            book,
            findings: Vec::new(alloc),
        })
    }

    fn echoes_plant_line(_asked: ()) -> bool {
        false
    }

    fn push_event<P: Port>(
        &mut self,
        _asked: (),
        _plant: &Plant<P>,
        _names: &IndexSet<String>,
        _event: &Event,
        entries: &[Entry],
        _text: &mut String,
    ) -> Result<(), AllocError> {
        self.book.take(&mut self.findings, entries)
    }

    fn push_last<P: Port>(
        &self,
        _asked: (),
        _plant: &Plant<P>,
        _names: &IndexSet<String>,
        _refused: bool,
        _text: &mut String,
    ) -> Result<(), AllocError> {
        Ok(())
    }
}

impl StationListener for Finder {
    ghost use Rattle.std.specs.Prelude.{false};
    ghost use Rattle.irig_station_scene.specs.StationStays.{quiet_reads, quiet_stays};
    ghost use Rattle.irig_station_scene.specs.StationTexts.{quiet_texts};

    type Asked = ();

    ghost texts = { λ asked. quiet_texts };

    ghost hears = { false };

    ghost stands_for = { λ asked finder x. IsFinderAtStation finder x };

    ghost stays = { λ asked. quiet_stays };

    ghost reads = { λ asked. quiet_reads (λ finder plan entries.
        HasFoundSoFar finder plan.setup (reverse entries)) };

    fn hears() -> bool {
        false
    }

    fn first(_asked: ()) -> &'static str {
        ""
    }

    fn new(
        alloc: Global,
        _asked: (),
        names: &IndexSet<String>,
        lines: u8,
    ) -> Result<Finder, AllocError> {
        let book = Book::new(alloc, names.len(), lines)?;
        Ok(Finder {
            book,
            findings: Vec::new(alloc),
        })
    }

    fn push_event<P: Port>(
        &mut self,
        _asked: (),
        station: &Station<P>,
        _names: &IndexSet<String>,
        entries: &[StationEntry],
        _text: &mut String,
    ) -> Result<(), AllocError> {
        self.take_all(station, entries)
    }

    fn push_last<P: Port>(
        &self,
        _asked: (),
        _station: &Station<P>,
        _names: &IndexSet<String>,
        _refused: bool,
        _text: &mut String,
    ) -> Result<(), AllocError> {
        Ok(())
    }
}

impl Finder {
    // Takes what devices told.
    fn take_all<P: Port>(
        &mut self,
        station: &Station<P>,
        entries: &[StationEntry],
    ) -> Result<(), AllocError>
        requires { All IsValidEntry entries.now }
        ensures { OnOk result ((s : StationSetup) (x : StationStanding) (shown : LetGo)
            (before : List EntryOf) → IsStationAt station.now s x shown
            → All (IsOfDevice (length s.devices)) entries.now → HasFoundSoFar self.old s before
            → HasFoundSoFar self.new s (reverse entries.now ++ before)) }
    {
        for entry in entries {
            self.take(station, entry)?;
        }
        Ok(())
    }

    fn take<P: Port>(
        &mut self,
        station: &Station<P>,
        entry: &StationEntry,
    ) -> Result<(), AllocError>
        requires { IsValidEntry entry.now }
        ensures { OnOk result ((s : StationSetup) (x : StationStanding) (shown : LetGo)
            (before : List EntryOf) → IsStationAt station.now s x shown
            → IsOfDevice (length s.devices) entry.now → HasFoundSoFar self.old s before
            → HasFoundSoFar self.new s (entry.now ∷ before)) }
    {
        match tick_of_told(station, entry) {
            Some(tick) => self.book.take_tick(&mut self.findings, &tick),
            None => Ok(()),
        }
    }

    /// All that ended, and then all that is open.
    pub(crate) fn into_findings(self) -> Result<Vec<Finding>, AllocError>
        ensures readers { (x : Scene) → IsFinderAt self x
            → IfOk result (λ findings. findings.items ≡ found_in x) }
        ensures devices { (x : StationScene) → IsFinderAtStation self x
            → IfOk result (λ findings. findings.items ≡ found_in_station x) }
    {
        let Finder { book, mut findings } = self;
        book.push_open(&mut findings)?;
        Ok(findings)
    }
}
