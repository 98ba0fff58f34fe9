//! Who lied, and what it cost, as a listener tells it.

ghost use Rattle.std.specs.Prelude.{◌≡◌, ◌++◌, ◌∷◌, [], ℕ, All, List, OnOk, length, reverse};
ghost use Rattle.irig_station.specs.declared.entry.Entry.{Entry as EntryOf};
ghost use Rattle.irig_station.specs.Stations.{IsStationAt, LetGo};
ghost use Rattle.irig_station.specs.StationSetups.{StationSetup};
ghost use Rattle.irig_station.specs.StationStandings.{StationStanding};
ghost use Rattle.irig_station.specs.ValidEntries.{IsOfDevice, IsValidEntry};
ghost use Rattle.report_found.specs.Soundness.{IsSoundFinding};
ghost use Rattle.report_blame.specs.DeviceRuns.{HasSeen, HasSeenSince};

use crate::reach::Reaches;
use crate::text::{push_book_totals, push_findings};
use indexmap::IndexSet;
use irig_plant::{Entry, Event, Plant};
use irig_port::Port;
use irig_scene::Listener;
use irig_station::{Entry as StationEntry, Station};
use irig_station_scene::{StationListener, push_station_audit};
use report_found::{Book, Finding, tick_of_told};
use report_log::push_audit;
use std::alloc::{AllocError, Global};
use std::marker::PhantomData;

/// Keeps the accounts of a plant's readers, or devices, and what the last event ended; of devices
/// also how far off their seconds lay.
#[derive(Drop)]
pub(crate) struct Observer<'a> {
    alloc: Global,
    book: Book,
    reaches: Reaches,
    ended: Vec<Finding>,
    lines: PhantomData<&'a str>,
}

impl<'a> Listener for Observer<'a> {
    ghost use Rattle.std.specs.Prelude.{false};
    ghost use Rattle.report_blame.specs.BlameText.{blame_texts};
    ghost use Rattle.report_found.specs.Runs.{IsBookAt};

    // The names of recorded lines.
    type Asked = &'a str;

    ghost texts = { λ asked. blame_texts asked.now };

    ghost stands_for = { λ asked observer x. IsBookAt observer.book x };

    ghost counts = { false };

    fn counts() -> bool
        ensures { result ≡ false }
    {
        false
    }

    fn count(&self) -> u64 {
        0
    }

    fn new(
        alloc: Global,
        _asked: &'a str,
        names: &IndexSet<String>,
        ports: u8,
    ) -> Result<Observer<'a>, AllocError> {
        let book = Book::new(alloc, names.len(), ports)?;
        let reaches = Reaches::new(alloc, 0)?;
        Ok(Observer {
            alloc,
            book,
            reaches,
            ended: Vec::new(alloc),
            lines: PhantomData,
        })
    }

    fn echoes_plant_line(_asked: &'a str) -> bool {
        false
    }

    fn push_event<P: Port>(
        &mut self,
        asked: &'a str,
        _plant: &Plant<P>,
        names: &IndexSet<String>,
        _event: &Event,
        entries: &[Entry],
        text: &mut String,
    ) -> Result<(), AllocError> {
        self.ended.clear();
        self.book.take(&mut self.ended, entries)?;
        push_findings(text, asked, names, &self.ended)?;
        Ok(())
    }

    fn push_last<P: Port>(
        &self,
        asked: &'a str,
        plant: &Plant<P>,
        names: &IndexSet<String>,
        refused: bool,
        text: &mut String,
    ) -> Result<(), AllocError> {
        let mut open = Vec::new(self.alloc);
        self.book.push_open(&mut open)?;
        push_findings(text, asked, names, &open)?;
        push_book_totals(text, asked, names, &self.book, &[])?;
        if refused {
            return Ok(());
        }
        push_audit(text, names, plant.audit())
    }
}

impl<'a> StationListener for Observer<'a> {
    ghost use Rattle.std.specs.Prelude.{false};
    ghost use Rattle.irig_station_scene.specs.StationStays.{reads_log};
    ghost use Rattle.report_found.specs.DeviceScenes.{ended_by_entries};
    ghost use Rattle.report_blame.specs.BlameStays.{blame_stays};
    ghost use Rattle.report_blame.specs.BlameText.{station_blame_texts};
    ghost use Rattle.report_blame.specs.DeviceRuns.{IsObserverAtStation};
    ghost use Rattle.report_blame.specs.Text.{findings_text};

    type Asked = &'a str;

    ghost texts = { λ asked. station_blame_texts asked.now };

    ghost hears = { false };

    ghost stands_for = { λ asked observer x. IsObserverAtStation observer x };

    ghost stays = { λ asked. blame_stays asked.now };

    ghost reads = { λ asked. reads_log
        (λ observer plan entries. HasSeen observer plan.setup (reverse entries))
        (λ plan entries. findings_text asked.now plan.names
        (ended_by_entries plan.setup (reverse entries))) };

    fn hears() -> bool
        ensures { result ≡ false }
    {
        false
    }

    fn first(_asked: &'a str) -> &'static str {
        ""
    }

    fn new(
        alloc: Global,
        _asked: &'a str,
        names: &IndexSet<String>,
        lines: u8,
    ) -> Result<Observer<'a>, AllocError> {
        let book = Book::new(alloc, names.len(), lines)?;
        let reaches = Reaches::new(alloc, names.len())?;
        Ok(Observer {
            alloc,
            book,
            reaches,
            ended: Vec::new(alloc),
            lines: PhantomData,
        })
    }

    fn push_event<P: Port>(
        &mut self,
        asked: &'a str,
        station: &Station<P>,
        names: &IndexSet<String>,
        entries: &[StationEntry],
        text: &mut String,
    ) -> Result<(), AllocError> {
        self.take_all(station, entries)?;
        push_findings(text, asked, names, &self.ended)?;
        Ok(())
    }

    fn push_last<P: Port>(
        &self,
        asked: &'a str,
        station: &Station<P>,
        names: &IndexSet<String>,
        refused: bool,
        text: &mut String,
    ) -> Result<(), AllocError> {
        let mut open = Vec::new(self.alloc);
        self.book.push_open(&mut open)?;
        push_findings(text, asked, names, &open)?;
        push_book_totals(text, asked, names, &self.book, self.reaches.all())?;
        if refused {
            return Ok(());
        }
        push_station_audit(text, names, station.audit())
    }
}

impl<'a> Observer<'a> {
    // Takes what devices told, and keeps what that ends.
    fn take_all<P: Port>(
        &mut self,
        station: &Station<P>,
        entries: &[StationEntry],
    ) -> Result<(), AllocError>
        requires { All IsValidEntry entries.now }
        ensures seen { OnOk result ((s : StationSetup) (x : StationStanding) (shown : LetGo)
            (before : List EntryOf) → IsStationAt station.now s x shown
            → All (IsOfDevice (length s.devices)) entries.now → HasSeen self.old s before
            → HasSeenSince self.new s before (reverse entries.now)) }
        ensures sound { OnOk result (All IsSoundFinding self.new.ended.items) }
    {
        self.ended.clear();
        for entry in entries {
            self.take(station, entry)?;
        }
        Ok(())
    }

    fn take<P: Port>(
        &mut self,
        station: &Station<P>,
        entry: &StationEntry,
    ) -> Result<(), AllocError>
        requires { IsValidEntry entry.now }
        ensures seen { OnOk result ((s : StationSetup) (x : StationStanding) (shown : LetGo)
            (before newest : List EntryOf) → IsStationAt station.now s x shown
            → IsOfDevice (length s.devices) entry.now → HasSeenSince self.old s before newest
            → HasSeenSince self.new s before (entry.now ∷ newest)) }
        ensures sound { OnOk result (All IsSoundFinding self.old.ended.items
            → All IsSoundFinding self.new.ended.items) }
    {
        self.reaches.take(entry);
        match tick_of_told(station, entry) {
            Some(tick) => self.book.take_tick(&mut self.ended, &tick),
            None => Ok(()),
        }
    }
}
