//! A plant and its listener, as they play the lines of a scenario.

ghost use Rattle.std.specs.Prelude.{◌≡◌, ◌||◌};
ghost use Rattle.irig_device.specs.Watched.{device_of, has_failed};
ghost use Rattle.report_run.specs.Faults.{WroteText, failed_write};
ghost use Rattle.irig_scene.specs.ListenerRuns.{IsPlayerAt};
ghost use Rattle.irig_scene.specs.Run.{Ends};
ghost use Rattle.irig_scene.specs.Scene.{Scene, scenario, entries_in};
ghost use Rattle.irig_scene.specs.Stays.{said_stays};
ghost use Rattle.irig_scene.specs.Texts.{of_scenes};

use crate::listener::Listener;
use crate::outcome::Outcome;
use crate::player::Player;
use irig_device::Watched;
use irig_port::Port;
use report_run::{Failure, Play, Stop, write_text};
use scenario_line::plant_of_line;
use std::alloc::Global;
use std::io::Write;

impl<L: Listener, P: Port> Play for Player<L, P> {
    type Asked = L::Asked;

    type Outcome = Outcome;

    ghost Scene = { Scene };

    ghost language = { scenario };

    ghost texts = { λ asked. of_scenes (L.texts asked) };

    ghost stands_for = { λ asked. IsPlayerAt (L.stands_for asked) };

    ghost ends = { Ends };

    ghost entries = { entries_in };

    ghost counts = { L.counts };

    ghost stays = { λ asked. said_stays (L.texts asked) };

    fn counts() -> bool {
        L::counts()
    }

    fn count(&self) -> u64 {
        self.entries()
    }

    fn begin<W: Write>(
        alloc: Global,
        asked: L::Asked,
        line: &[u8],
        output: &mut Watched<W>,
    ) -> Result<Self, Stop> {
        let plant = plant_of_line(alloc, line)?;
        let player = Player::new(alloc, asked, plant)?;
        write_first::<L, W>(asked, line, output)?;
        Ok(player)
    }

    fn take<W: Write>(
        &mut self,
        alloc: Global,
        asked: L::Asked,
        line: &[u8],
        output: &mut Watched<W>,
    ) -> Result<(), Stop> {
        let command = self.event_of_line(alloc, line)?;
        self.play_command(asked, command, output)
    }

    fn write_last<W: Write>(
        &self,
        alloc: Global,
        asked: L::Asked,
        refused: bool,
        output: &mut Watched<W>,
    ) -> Result<(), Failure> {
        self.write_end(alloc, asked, refused, output)
    }

    fn outcome(&self, lines: u64) -> Outcome {
        Outcome {
            lines,
            audit: self.audit(),
        }
    }
}

// Writes what is said of the plant line.
fn write_first<L: Listener, W: Write>(
    asked: L::Asked,
    line: &[u8],
    output: &mut Watched<W>,
) -> Result<(), Failure>
    ensures wrote { WroteText result
        (W.contents (device_of output.old)) (W.contents (device_of output.new))
        ((L.texts asked).first line.now) }
    ensures note { has_failed output.new ≡ (has_failed output.old || failed_write result) }
{
    if !L::echoes_plant_line(asked) {
        return Ok(());
    }
    match output.write_all(line) {
        Ok(()) => write_text(output, "\n"),
        Err(_) => Err(Failure::Write),
    }
}
