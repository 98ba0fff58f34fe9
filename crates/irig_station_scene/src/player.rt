//! A station that plays the events of lines, and its listener.

ghost use Rattle.std.specs.Prelude.{◌≡◌, ◌<◌, ◌≤◌, length};
ghost use Rattle.irig_station_scene.specs.StationScenes.{refusal_of_fault};

use crate::listener::StationListener;
use indexmap::IndexSet;
use irig_device::Watched;
use irig_port::Port;
use irig_station::{Audit, Event, Station, StationFault};
use report_run::{Failure, write_text};
use scenario_devices::{BuiltStation, event_of_station_line};
use std::alloc::Global;
use std::io::Write;
use text_faults::{LineFault, Refusal};

/// A station, the names of its devices, and who listens to it.
#[derive(Drop)]
pub struct StationPlayer<L, P: Port> {
    listener: L,
    station: Station<P>,
    names: IndexSet<String>,
    // How many lines lead to each device.
    lines: u8,
    ghost few: { length names.keys ≤ 16 },
}

impl<L: StationListener, P: Port> StationPlayer<L, P> {
    ghost use Rattle.std.specs.Prelude.{◌||◌, ◌++◌, [], ℕ, List, IfErr, IfOk, OnOk, string_bytes, vec_len};
    ghost use Rattle.irig_device.specs.Watched.{device_of, has_failed};
    ghost use Rattle.irig_plant.specs.History.{AreGenerators};
    ghost use Rattle.irig_station.specs.declared.event.Event.{Event as EventOf};
    ghost use Rattle.irig_station.specs.StationStandings.{left_of_second};
    ghost use Rattle.irig_station.specs.Stations.{all_let_go};
    ghost use Rattle.text_faults.specs.Refusals.{IsUnlessMemory};
    ghost use Rattle.scenario_devices.specs.StationEvents.{event_in_station_line};
    ghost use Rattle.scenario_devices.specs.StationLine.{HasDevices, StationPlan, station_of};
    ghost use Rattle.report_run.specs.declared.stop.Failure.TheVariants.{Memory};
    ghost use Rattle.report_run.specs.Faults.{WroteText, failed_write};
    ghost use Rattle.report_run.specs.Texts.{last_of};
    ghost use Rattle.irig_station_scene.specs.StationScenes.{StationScene, event_in_scene, standing_in, station_audit, station_scene};
    ghost use Rattle.irig_station_scene.specs.StationRuns.{IsStationPlayerAt, IsStationPlayerPast, PlaysEventOf};

    /// The player of a station to which nothing has happened.
    pub(crate) fn new(
        alloc: Global,
        asked: L::Asked,
        line: BuiltStation,
    ) -> Result<StationPlayer<L, P>, Failure>
        requires generators { AreGenerators line.rules line.generators.items }
        requires devices { HasDevices line }
        requires names { length line.names.keys ≡ vec_len line.devices }
        ensures stands { IfOk result (λ player. IsStationPlayerAt L.hears (L.stands_for asked)
            player (station_scene (station_of line) [])) }
        ensures quiet { OnOk result ((plan : StationPlan)
            → (L.texts asked).said (station_scene plan []) ≡ []) }
        ensures memory { IfErr result (λ failure. failure ≡ Memory) }
    {
        let BuiltStation {
            timeline,
            generators,
            rules,
            devices,
            names,
        } = line;
        let lines = generators.len() as u8;
        let Ok(listener) = L::new(alloc, asked, &names, lines) else {
            return Err(Failure::Memory);
        };
        match Station::new(alloc, timeline, generators, rules, &devices, L::hears()) {
            Ok(station) => Ok(StationPlayer {
                listener,
                station,
                names,
                lines,
            }),
            Err(_) => Err(Failure::Memory),
        }
    }

    /// What a line after the plant line says.
    pub(crate) fn event_of_line(&self, alloc: Global, line: &[u8]) -> Result<Event, LineFault>
        ensures { (asked : L.Asked) (x : StationScene)
            → IsStationPlayerAt L.hears (L.stands_for asked) self.now x
            → IsUnlessMemory (λ e. e) (event_in_station_line x.plan.names line.now) result }
    {
        event_of_station_line(alloc, &self.names, line)
    }

    /// Plays an event, whose entries alone then stand in the log, and answers its refusal, if it
    /// was refused. `Memory` if there was none.
    pub(crate) fn play(&mut self, event: &Event) -> Result<Option<Refusal>, Failure>
        ensures plays { PlaysEventOf self.old event.now result self.new }
        ensures listener { self.new.listener ≡ self.old.listener }
        ensures memory { IfErr result (λ failure. failure ≡ Memory) }
    {
        self.station.clear_log();
        let Err(fault) = self.station.apply(event) else {
            return Ok(None);
        };
        match refusal_of_fault(fault) {
            Some(refusal) => Ok(Some(refusal)),
            None => Err(Failure::Memory),
        }
    }

    /// How many microseconds are left of the station's present second; where one ends, a whole one.
    pub(crate) fn left_us(&self) -> u64
        ensures some { 0 < result }
        ensures most { result ≤ 1000000 }
        ensures value { (asked : L.Asked) (x : StationScene)
            → IsStationPlayerAt L.hears (L.stands_for asked) self.now x
            → result ≡ left_of_second (standing_in x) }
    {
        self.station.left_us()
    }

    /// What is said of an event that was played, whose entries stand in the log. `Memory` if there
    /// was none.
    pub(crate) fn hear(&mut self, alloc: Global, asked: L::Asked) -> Result<String, Failure>
        ensures said { IfOk result (λ text. (x : StationScene) (e : EventOf)
            → L.stands_for asked self.old.listener x
            → IsStationPlayerPast (all_let_go L.hears (standing_in x)) self.old
            (event_in_scene x e).scene
            → (L.texts asked).said (event_in_scene x e).scene
            ≡ (L.texts asked).said x ++ string_bytes text) }
        ensures stands { OnOk result ((x : StationScene) (e : EventOf)
            → L.stands_for asked self.old.listener x
            → IsStationPlayerPast (all_let_go L.hears (standing_in x)) self.old
            (event_in_scene x e).scene
            → IsStationPlayerAt L.hears (L.stands_for asked) self.new (event_in_scene x e).scene) }
        ensures memory { IfErr result (λ failure. failure ≡ Memory) }
    {
        let mut text = String::new(alloc);
        let entries = self.station.log();
        match self
            .listener
            .push_event(asked, &self.station, &self.names, entries, &mut text)
        {
            Ok(()) => Ok(text),
            Err(_) => Err(Failure::Memory),
        }
    }

    /// Writes what comes last: what is open, if a line is refused, and else what ends the text.
    pub(crate) fn write_end<W: Write>(
        &self,
        alloc: Global,
        asked: L::Asked,
        refused: bool,
        output: &mut Watched<W>,
    ) -> Result<(), Failure>
        ensures wrote { (x : StationScene)
            → IsStationPlayerAt L.hears (L.stands_for asked) self.now x → WroteText result
            (W.contents (device_of output.old)) (W.contents (device_of output.new))
            (last_of (L.texts asked) refused x) }
        ensures note { has_failed output.new ≡ (has_failed output.old || failed_write result) }
    {
        let mut text = String::new(alloc);
        if self
            .listener
            .push_last(asked, &self.station, &self.names, refused, &mut text)
            .is_err()
        {
            return Err(Failure::Memory);
        }
        write_text(output, text.as_str())
    }

    /// The audit so far.
    pub(crate) fn audit(&self) -> Audit
        ensures { (asked : L.Asked) (x : StationScene)
            → IsStationPlayerAt L.hears (L.stands_for asked) self.now x → result ≡ station_audit x }
    {
        self.station.audit()
    }

    /// Who listened, the names of the devices, and how many lines lead to each.
    pub fn into_parts(self) -> (L, IndexSet<String>, u8)
        ensures { result.0 ≡ self.listener }
    {
        let StationPlayer {
            listener,
            names,
            lines,
            ..
        } = self;
        (listener, names, lines)
    }
}

// The refusal of a line whose event is refused so; none if there was no memory.
fn refusal_of_fault(fault: StationFault) -> Option<Refusal>
    ensures { result ≡ refusal_of_fault fault }
{
    match fault {
        StationFault::NoSuchDevice => Some(Refusal::NoSuchReader),
        StationFault::NoSuchGenerator => Some(Refusal::NoSuchGenerator),
        StationFault::BeforeStart => Some(Refusal::BeforeStart),
        StationFault::EndOfYears => Some(Refusal::EndOfYears),
        StationFault::Memory => None,
    }
}
