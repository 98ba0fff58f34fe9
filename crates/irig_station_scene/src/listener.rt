//! What every listener of a station does.

ghost use Rattle.std.specs.Prelude.{All, Bool, ◌≡◌, ◌++◌, [], ◌≤◌, ℕ, List, IfOk, OnOk, length, string_bytes};
ghost use Rattle.report_log.specs.Text.{texts_of};
ghost use Rattle.report_run.specs.Texts.{Texts, last_of};
ghost use Rattle.irig_station.specs.ValidEntries.{IsValidEntry};
ghost use Rattle.irig_station.specs.declared.event.Event.{Event};
ghost use Rattle.scenario_devices.specs.StationLine.{StationPlan};
ghost use Rattle.irig_station_scene.specs.StationListening.{HasHappened, IsStationOf, NamesStation, ReadsView, SaysMore, StaysBehind};
ghost use Rattle.irig_station_scene.specs.StationScenes.{StationScene, event_in_scene, station_scene};

use indexmap::IndexSet;
use irig_port::Port;
use irig_station::{Entry, Station};
use std::alloc::{AllocError, Global};

/// What is said of a scenario with devices while it is played. It adds to a text, and changes
/// nothing of the station.
pub trait StationListener: Drop {
    /// What is asked for.
    type Asked: Copy;

    // What it says.
    ghost texts: { Self.Asked → Texts StationScene };

    // It is to be shown the pulses that devices hear.
    ghost hears: { Bool };

    // It stands as this scene leaves it.
    ghost stands_for: { Self.Asked → Self → StationScene → Type 0 };

    /// Whether it is to be shown the pulses that devices hear. Then the station keeps those of each
    /// event.
    fn hears() -> bool
        ensures { result ≡ hears };

    /// What it says first, whatever the plant line is.
    fn first(asked: Self::Asked) -> &'static str
        ensures { (line : List ℕ) → (texts asked).first line ≡ result.now };

    /// The listener of a station to which nothing has happened, whose devices have these names, 16
    /// at most, and so many lines each. Nothing more is said before the first event.
    fn new(
        alloc: Global,
        asked: Self::Asked,
        names: &IndexSet<String>,
        lines: u8,
    ) -> Result<Self, AllocError>
        requires { length names.now.keys ≤ 16 }
        ensures stands { IfOk result (λ listener. (x : StationScene)
            → IsStationOf (texts_of names.now.keys) lines x → stands_for asked listener x) }
        ensures quiet { (plan : StationPlan) → (texts asked).said (station_scene plan []) ≡ [] };

    /// Adds what is said of an event that has just happened, also if it was refused, and of which
    /// these entries were logged.
    fn push_event<P: Port>(
        &mut self,
        asked: Self::Asked,
        station: &Station<P>,
        names: &IndexSet<String>,
        entries: &[Entry],
        text: &mut String,
    ) -> Result<(), AllocError>
        requires names { length names.now.keys ≤ 16 }
        requires valid { All IsValidEntry entries.now }
        ensures said { OnOk result ((x : StationScene) (e : Event) → stands_for asked self.old x
            → HasHappened hears station.now (texts_of names.now.keys) entries.now e x
            → SaysMore (texts asked) x (event_in_scene x e).scene
            (string_bytes text.old) (string_bytes text.new)) }
        ensures stands { OnOk result ((x : StationScene) (e : Event) → stands_for asked self.old x
            → HasHappened hears station.now (texts_of names.now.keys) entries.now e x
            → stands_for asked self.new (event_in_scene x e).scene) };

    /// Adds what comes last: what is open, if a line is refused, and else what ends the text.
    fn push_last<P: Port>(
        &self,
        asked: Self::Asked,
        station: &Station<P>,
        names: &IndexSet<String>,
        refused: bool,
        text: &mut String,
    ) -> Result<(), AllocError>
        ensures { OnOk result ((x : StationScene) → stands_for asked self.now x
            → NamesStation station.now (texts_of names.now.keys) x
            → string_bytes text.new
            ≡ string_bytes text.old ++ last_of (texts asked) refused x) };

    // What is said stays.
    ghost stays: { (asked : Self.Asked) → StaysBehind (texts asked).said };

    // It knows where the station stands, and no event that led there.
    ghost reads: { (asked : Self.Asked) → ReadsView (stands_for asked) (texts asked).said };
}
