//! Events that are played, and what is said of them.

ghost use Rattle.std.specs.Prelude.{◌≡◌, ◌||◌};
ghost use Rattle.irig_device.specs.Watched.{device_of, has_failed};
ghost use Rattle.report_run.specs.Faults.{stopped_write};
ghost use Rattle.irig_station_scene.specs.StationRuns.{IsShort, TakesEvent};

use crate::listener::StationListener;
use crate::player::StationPlayer;
use irig_device::Watched;
use irig_port::Port;
use irig_station::Event;
use report_run::{Stop, write_text};
use std::alloc::Global;
use std::io::Write;

impl<L: StationListener, P: Port> StationPlayer<L, P> {
    /// Plays an event, up to where it is refused, and writes what is said of it.
    pub(crate) fn play_event<W: Write>(
        &mut self,
        alloc: Global,
        asked: L::Asked,
        event: &Event,
        output: &mut Watched<W>,
    ) -> Result<(), Stop>
        ensures takes { TakesEvent L.hears (L.stands_for asked) (L.texts asked) self.old event.now result
            self.new (W.contents (device_of output.old)) (W.contents (device_of output.new)) }
        ensures note { has_failed output.new ≡ (has_failed output.old || stopped_write result) }
    {
        match *event {
            Event::Pass(us) => self.play_stretch(alloc, asked, us, output),
            _ => self.play_at_once(alloc, asked, event, output),
        }
    }

    // Plays a stretch of time second by second: what was logged in one, and what was said of it,
    // is let go before the next is played.
    fn play_stretch<W: Write>(
        &mut self,
        alloc: Global,
        asked: L::Asked,
        us: u64,
        output: &mut Watched<W>,
    ) -> Result<(), Stop>
        ensures takes { TakesEvent L.hears (L.stands_for asked) (L.texts asked) self.old (Event.Pass us)
            result self.new (W.contents (device_of output.old))
            (W.contents (device_of output.new)) }
        ensures note { has_failed output.new ≡ (has_failed output.old || stopped_write result) }
    {
        let mut left_us = us;
        while left_us > 0 {
            let part_us = left_us.min(self.left_us());
            self.play_at_once(alloc, asked, &Event::Pass(part_us), output)?;
            left_us -= part_us;
        }
        Ok(())
    }

    // Of a stretch of time at most a second is played at once, since all that was logged is held.
    fn play_at_once<W: Write>(
        &mut self,
        alloc: Global,
        asked: L::Asked,
        event: &Event,
        output: &mut Watched<W>,
    ) -> Result<(), Stop>
        requires { IsShort event.now }
        ensures takes { TakesEvent L.hears (L.stands_for asked) (L.texts asked) self.old event.now result
            self.new (W.contents (device_of output.old)) (W.contents (device_of output.new)) }
        ensures note { has_failed output.new ≡ (has_failed output.old || stopped_write result) }
    {
        let refusal = self.play(event)?;
        let text = self.hear(alloc, asked)?;
        write_text(output, text.as_str())?;
        match refusal {
            None => Ok(()),
            Some(refusal) => Err(Stop::Refused(refusal)),
        }
    }
}
