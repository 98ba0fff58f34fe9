//! What every listener does.

ghost use Rattle.std.specs.Prelude.{All, ◌≡◌, ◌++◌, [], ◌∷◌, ◌≤◌, ℕ, Bool, true, Some, if◌then◌else◌, List, IfOk, OnOk, codes, length, string_bytes};
ghost use Rattle.irig_plant.specs.Sound.{IsSound, IsToldSoundly};
ghost use Rattle.report_log.specs.Text.{texts_of};
ghost use Rattle.irig_scene.specs.Scene.{Scene, entries_in, scene};
ghost use Rattle.irig_scene.specs.Texts.{Texts, last_of};
ghost use Rattle.irig_scene.specs.Listening.{Gave, HasTaken, IsPlantOf, Names};

use indexmap::IndexSet;
use irig_plant::{Entry, Event, Plant};
use irig_port::Port;
use std::alloc::{AllocError, Global};

/// What is said of a scenario while it is played. It adds to a text, and sees no device.
pub trait Listener: Drop {
    /// What is asked for.
    type Asked: Copy;

    // What it says.
    ghost texts: { Self.Asked → Texts };

    // It stands as this scene leaves it.
    ghost stands_for: { Self.Asked → Self → Scene → Type 0 };

    // It counts entries.
    ghost counts: { Bool };

    /// Whether it counts entries.
    fn counts() -> bool
        ensures { result ≡ counts };

    /// How many entries there were so far, if it counts them.
    fn count(&self) -> u64
        ensures { (asked : Self.Asked) (x : Scene) → counts ≡ true → stands_for asked self.now x
            → result ≡ entries_in x };

    /// The listener of a plant to which nothing has happened, whose readers have these names, 16 at
    /// most, and so many ports each.
    fn new(
        alloc: Global,
        asked: Self::Asked,
        names: &IndexSet<String>,
        ports: u8,
    ) -> Result<Self, AllocError>
        requires { length names.now.keys ≤ 16 }
        ensures { IfOk result (λ listener. (x : Scene)
            → IsPlantOf (texts_of names.now.keys) ports x → stands_for asked listener x) };

    /// Whether the plant line is written as it stands, or nothing is said of it.
    fn echoes_plant_line(asked: Self::Asked) -> bool
        ensures { (line : List ℕ) → (texts asked).first line
            ≡ if result then line ++ codes "\n" else [] };

    /// Adds what is said of an event that the plant has just taken, and that gave these entries: one, if
    /// it was a tick, and else none.
    fn push_event<P: Port>(
        &mut self,
        asked: Self::Asked,
        plant: &Plant<P>,
        names: &IndexSet<String>,
        event: &Event,
        entries: &[Entry],
        text: &mut String,
    ) -> Result<(), AllocError>
        requires names { length names.now.keys ≤ 16 }
        requires sound { All IsSound entries.now }
        requires told { All IsToldSoundly entries.now }
        ensures said { OnOk result ((x : Scene) → stands_for asked self.old x
            → HasTaken plant.now (texts_of names.now.keys) event.now x
            → Gave event.now x entries.now
            → string_bytes text.new
            ≡ string_bytes text.old ++ (texts asked).event x.plan event.now x.events) }
        ensures stands { OnOk result ((x : Scene) → stands_for asked self.old x
            → HasTaken plant.now (texts_of names.now.keys) event.now x
            → Gave event.now x entries.now
            → stands_for asked self.new (scene x.plan (event.now ∷ x.events))) };

    /// Adds what comes last: what is open, if a line is refused, and else what ends the text.
    fn push_last<P: Port>(
        &self,
        asked: Self::Asked,
        plant: &Plant<P>,
        names: &IndexSet<String>,
        refused: bool,
        text: &mut String,
    ) -> Result<(), AllocError>
        ensures { OnOk result ((x : Scene) → stands_for asked self.now x
            → Names plant.now (texts_of names.now.keys) x
            → string_bytes text.new
            ≡ string_bytes text.old ++ last_of (texts asked) refused x) };
}
