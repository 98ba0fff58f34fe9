//! A station and its listener, as they play the lines of a scenario.

ghost use Rattle.std.specs.Prelude.{false};
ghost use Rattle.scenario_devices.specs.StationLine.{is_station_line};
ghost use Rattle.irig_station_scene.specs.StationRuns.{IsStationPlayerAt, StationEnds};
ghost use Rattle.irig_station_scene.specs.StationScenes.{StationScene, station_entries, station_scenario};
ghost use Rattle.irig_station_scene.specs.StationStays.{stays_in_lines};

use crate::listener::StationListener;
use crate::outcome::StationOutcome;
use crate::player::StationPlayer;
use irig_device::Watched;
use irig_port::Port;
use report_run::{Chosen, Failure, Play, Stop, write_text};
use scenario_devices::{is_station_line, station_of_line};
use std::alloc::{AllocError, Global};
use std::io::Write;

impl<L: StationListener, P: Port> Play for StationPlayer<L, P> {
    type Asked = L::Asked;

    type Outcome = StationOutcome;

    ghost Scene = { StationScene };

    ghost language = { station_scenario };

    ghost texts = { L.texts };

    ghost stands_for = { λ asked. IsStationPlayerAt L.hears (L.stands_for asked) };

    ghost ends = { StationEnds };

    ghost entries = { station_entries };

    ghost counts = { false };

    ghost stays = { λ asked. stays_in_lines (L.texts asked) (L.stays asked) };

    fn counts() -> bool {
        false
    }

    fn count(&self) -> u64 {
        0
    }

    fn begin<W: Write>(
        alloc: Global,
        asked: L::Asked,
        line: &[u8],
        output: &mut Watched<W>,
    ) -> Result<Self, Stop> {
        let station = station_of_line(alloc, line)?;
        let player = StationPlayer::new(alloc, asked, station)?;
        write_text(output, L::first(asked))?;
        Ok(player)
    }

    fn take<W: Write>(
        &mut self,
        alloc: Global,
        asked: L::Asked,
        line: &[u8],
        output: &mut Watched<W>,
    ) -> Result<(), Stop> {
        let event = self.event_of_line(alloc, line)?;
        self.play_event(alloc, asked, &event, output)
    }

    fn write_last<W: Write>(
        &self,
        alloc: Global,
        asked: L::Asked,
        refused: bool,
        output: &mut Watched<W>,
    ) -> Result<(), Failure> {
        self.write_end(alloc, asked, refused, output)
    }

    fn outcome(&self, lines: u64) -> StationOutcome {
        StationOutcome {
            lines,
            audit: self.audit(),
        }
    }
}

impl<L: StationListener, P: Port> Chosen for StationPlayer<L, P> {
    ghost is_chosen = { is_station_line };

    fn is_chosen(alloc: Global, line: &[u8]) -> Result<bool, AllocError> {
        is_station_line(alloc, line)
    }
}
