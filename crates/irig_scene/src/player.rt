//! A plant that plays the events of lines, its listener, and the text that is yet to be written.

ghost use Rattle.std.specs.Prelude.{◌≡◌, ◌↔◌, ◌<◌, ◌≤◌, ◌∷◌, [], false, true, Some, IfOk, IfErr, OnOk, length, string_bytes, ◌||◌, vec_len};
ghost use Rattle.irig_device.specs.Watched.{device_of, has_failed};
ghost use Rattle.report_run.specs.declared.stop.Failure.TheVariants.{Memory};
ghost use Rattle.irig_scene.specs.Explained.{refusal_in};
ghost use Rattle.report_run.specs.Faults.{WroteText, failed_write, stopped_write};
ghost use Rattle.irig_scene.specs.Scene.{Scene};
ghost use Rattle.irig_scene.specs.Texts.{last_of};
ghost use Rattle.irig_scene.specs.ListenerRuns.{Adds, IsStageAt, max_held, text_in};

use crate::listener::Listener;
use crate::refused_line::RefusedLine;
use crate::stepped::SteppedPlant;
use indexmap::IndexSet;
use irig_device::Watched;
use irig_plant::{Audit, Event, Plant};
use irig_port::Port;
use report_run::{Failure, Stop, write_text};
use scenario_line::{BuiltPlant, Command, EventReader, second_of};
use std::alloc::Global;
use std::io::Write;
use text_faults::{LineFault, Refusal};

// A second is played only while less bytes than these are yet to be written.
const MAX_HELD: usize = 8192;

/// A plant, what reads the lines of its events, its listener, and what is yet to be written.
#[derive(Drop)]
pub(crate) struct Stage<L, P: Port> {
    listener: L,
    plant: SteppedPlant<P>,
    lines: EventReader,
    text: String,
}

impl<L: Listener, P: Port> Stage<L, P> {
    // Plays an event, and adds what is said of it to the text. It stands in the loop over a second's
    // events, and so do the calls that it makes.
    #[inline(always)]
    fn play(&mut self, asked: L::Asked, event: &Event) -> Result<(), Stop>
        ensures { Adds (IsStageAt (L.stands_for asked)) (L.texts asked)
            self.old (event.now ∷ []) result self.new (text_in self.old) (text_in self.new) }
    {
        self.plant.step(event)?;
        let plant = self.plant.plant();
        let names = self.lines.names();
        match self
            .listener
            .push_event(asked, plant, names, event, plant.log(), &mut self.text)
        {
            Ok(()) => Ok(()),
            Err(_) => Err(Stop::Failed(Failure::Memory)),
        }
    }

    // Whether the text has to be written before a second is played.
    fn is_full(&self) -> bool
        ensures { (result ≡ false) ↔ (length (text_in self.now) < max_held) }
    {
        self.text.len() >= MAX_HELD
    }

    // Writes the text, and lets it go.
    fn write<W: Write>(&mut self, output: &mut Watched<W>) -> Result<(), Failure>
        ensures wrote { WroteText result
            (W.contents (device_of output.old)) (W.contents (device_of output.new))
            (text_in self.old) }
        ensures empty { OnOk result (text_in self.new ≡ []) }
        ensures plant { self.new.plant ≡ self.old.plant }
        ensures lines { self.new.lines ≡ self.old.lines }
        ensures listener { self.new.listener ≡ self.old.listener }
        ensures note { has_failed output.new ≡ (has_failed output.old || failed_write result) }
    {
        write_text(output, self.text.as_str())?;
        self.text.clear();
        Ok(())
    }
}

// Plays the events of a second one after another, up to one that is refused.
#[inline(never)]
fn play_all<L: Listener, P: Port>(
    stage: &mut Stage<L, P>,
    asked: L::Asked,
    events: &[Event],
) -> Result<(), Stop>
    requires room { length (text_in stage.old) < max_held }
    ensures { Adds (IsStageAt (L.stands_for asked)) (L.texts asked)
        stage.old events.now result stage.new (text_in stage.old) (text_in stage.new) }
{
    for event in events {
        stage.play(asked, event)?;
    }
    Ok(())
}

/// A stage, and the events of its plant's whole second.
#[derive(Drop)]
pub struct Player<L, P: Port> {
    stage: Stage<L, P>,
    second: Vec<Event>,
}

impl<L: Listener, P: Port> Player<L, P> {
    ghost use Rattle.irig_plant.specs.History.{AreGenerators, AreReaders};
    ghost use Rattle.irig_plant.specs.WholeSecond.{times};
    ghost use Rattle.text_faults.specs.Refusals.{IsUnlessMemory};
    ghost use Rattle.scenario_line.specs.EventLine.{command_in_line};
    ghost use Rattle.scenario_line.specs.PlantLine.{plan_of};
    ghost use Rattle.irig_scene.specs.Scene.{scene, entries_in, audit_in, events_of, second_in};
    ghost use Rattle.irig_scene.specs.ListenerRuns.{IsPlayerAt, PlaysAsked, held_by};

    /// The player of a plant to which nothing has happened.
    pub(crate) fn new(
        alloc: Global,
        asked: L::Asked,
        line: BuiltPlant,
    ) -> Result<Player<L, P>, Failure>
        requires generators { AreGenerators line.rules line.generators.items }
        requires readers { AreReaders line.readers.items }
        requires names { length line.names.keys ≡ vec_len line.readers }
        ensures stands { IfOk result (λ player.
            IsPlayerAt (L.stands_for asked) player
            (scene (plan_of line) [])) }
        ensures empty { IfOk result (λ player. held_by player ≡ []) }
        ensures memory { IfErr result (λ failure. failure ≡ Memory) }
    {
        let BuiltPlant {
            timeline,
            generators,
            rules,
            readers,
            names,
        } = line;
        let ports = generators.len() as u8;
        let second = second_of(alloc, ports, readers.len() as u8);
        let plant = Plant::new(alloc, timeline, generators, rules, &readers);
        let listener = L::new(alloc, asked, &names, ports);
        let (Ok(plant), Ok(second), Ok(listener)) = (plant, second, listener) else {
            return Err(Failure::Memory);
        };
        let Ok(lines) = EventReader::new(alloc, names) else {
            return Err(Failure::Memory);
        };
        let stage = Stage {
            listener,
            plant: SteppedPlant::new(plant),
            lines,
            text: String::new(alloc),
        };
        Ok(Player { stage, second })
    }

    /// What a line after the plant line asks for.
    pub(crate) fn event_of_line(&mut self, alloc: Global, line: &[u8]) -> Result<Command, LineFault>
        ensures said { (asked : L.Asked) (x : Scene)
            → IsPlayerAt (L.stands_for asked) self.old x
            → IsUnlessMemory (λ c. c) (command_in_line x.plan.names line.now) result }
        ensures stands { (asked : L.Asked) (x : Scene)
            → IsPlayerAt (L.stands_for asked) self.old x
            → IsPlayerAt (L.stands_for asked) self.new x }
    {
        self.stage.lines.event_of_line(alloc, line)
    }

    /// Writes what comes last: what is open, if a line is refused, and else what ends the text.
    pub(crate) fn write_end<W: Write>(
        &self,
        alloc: Global,
        asked: L::Asked,
        refused: bool,
        output: &mut Watched<W>,
    ) -> Result<(), Failure>
        ensures wrote { (x : Scene)
            → IsPlayerAt (L.stands_for asked) self.now x
            → WroteText result
            (W.contents (device_of output.old)) (W.contents (device_of output.new))
            (last_of (L.texts asked) refused x) }
        ensures note { has_failed output.new ≡ (has_failed output.old || failed_write result) }
    {
        let Stage {
            listener,
            plant,
            lines,
            ..
        } = &self.stage;
        let mut text = String::new(alloc);
        if listener
            .push_last(asked, plant.plant(), lines.names(), refused, &mut text)
            .is_err()
        {
            return Err(Failure::Memory);
        }
        write_text(output, text.as_str())
    }

    /// The audit so far.
    pub(crate) fn audit(&self) -> Audit
        ensures { (asked : L.Asked) (x : Scene)
            → IsPlayerAt (L.stands_for asked) self.now x
            → result ≡ audit_in x }
    {
        self.stage.plant.plant().audit()
    }

    /// How many entries there were so far, if the listener counts them.
    pub(crate) fn entries(&self) -> u64
        ensures { (asked : L.Asked) (x : Scene) → L.counts ≡ true
            → IsPlayerAt (L.stands_for asked) self.now x
            → result ≡ entries_in x }
    {
        self.stage.listener.count()
    }

    /// The listener, and what explains the refusal of this line, if it was refused.
    pub fn end(
        self,
        alloc: Global,
        refusal: Option<Refusal>,
        line: Vec<u8>,
    ) -> (L, Option<RefusedLine>)
        ensures listener { result.0 ≡ self.stage.listener }
        ensures refused { refusal_in result.1 ≡ refusal }
    {
        let Player { stage, .. } = self;
        let Stage {
            listener,
            plant,
            lines,
            ..
        } = stage;
        let Some(refusal) = refusal else {
            return (listener, None);
        };
        let generators = plant.plant().generators();
        let refused = RefusedLine::of_plant(alloc, refusal, line, lines.into_names(), generators);
        (listener, Some(refused))
    }

    /// Plays what a line asks for, up to an event that is refused, and writes what is said of it.
    pub(crate) fn play_command<W: Write>(
        &mut self,
        asked: L::Asked,
        command: Command,
        output: &mut Watched<W>,
    ) -> Result<(), Stop>
        ensures plays { PlaysAsked (IsPlayerAt (L.stands_for asked))
            (L.texts asked) self.old (λ plan. events_of plan command) result self.new
            (W.contents (device_of output.old)) (W.contents (device_of output.new)) }
        ensures note { has_failed output.new ≡ (has_failed output.old || stopped_write result) }
    {
        match command {
            Command::Event(event) => self.play_event(asked, event, output),
            Command::Seconds(count) => self.play_seconds(asked, count, output),
        }
    }

    // Plays an event, and writes what is said of it.
    fn play_event<W: Write>(
        &mut self,
        asked: L::Asked,
        event: Event,
        output: &mut Watched<W>,
    ) -> Result<(), Stop>
        ensures plays { PlaysAsked (IsPlayerAt (L.stands_for asked))
            (L.texts asked) self.old (λ plan. event ∷ []) result self.new
            (W.contents (device_of output.old)) (W.contents (device_of output.new)) }
        ensures note { has_failed output.new ≡ (has_failed output.old || stopped_write result) }
    {
        self.stage.text.clear();
        match self.stage.play(asked, &event) {
            Ok(()) => {}
            Err(Stop::Refused(refusal)) => {
                self.stage.write(output)?;
                return Err(Stop::Refused(refusal));
            }
            Err(Stop::Failed(failure)) => return Err(Stop::Failed(failure)),
        }
        Ok(self.stage.write(output)?)
    }

    // Plays whole seconds, up to a refused event, and writes what is said of several at once.
    fn play_seconds<W: Write>(
        &mut self,
        asked: L::Asked,
        count: u32,
        output: &mut Watched<W>,
    ) -> Result<(), Stop>
        ensures plays { PlaysAsked (IsPlayerAt (L.stands_for asked))
            (L.texts asked) self.old (λ plan. times count (second_in plan)) result self.new
            (W.contents (device_of output.old)) (W.contents (device_of output.new)) }
        ensures note { has_failed output.new ≡ (has_failed output.old || stopped_write result) }
    {
        self.stage.text.clear();
        for _ in 0..count {
            match play_all(&mut self.stage, asked, &self.second) {
                Ok(()) => {}
                Err(Stop::Refused(refusal)) => {
                    self.stage.write(output)?;
                    return Err(Stop::Refused(refusal));
                }
                Err(Stop::Failed(failure)) => return Err(Stop::Failed(failure)),
            }
            if self.stage.is_full() {
                self.stage.write(output)?;
            }
        }
        Ok(self.stage.write(output)?)
    }
}
