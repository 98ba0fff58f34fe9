//! What devices told in a run.

ghost use Rattle.std.specs.Prelude.{◌≡◌, ◌++◌, ◌≤◌, ℕ, List, OnOk, length, map};
ghost use Rattle.c_scenario.specs.Runs.{HasWholeLog, status_of, written_over};
ghost use Rattle.c_scenario.specs.Told.{device_entry_for, told_of};
ghost use Rattle.c_scenario.specs.ToldRuns.{HasHeardTold};

use crate::run::{status_of, write_over};
use crate::told::{IrigDeviceEntry, device_entry_for_c};
use indexmap::IndexSet;
use irig_device::Watched;
use irig_port::Port;
use irig_scene::READ_FAILED;
use irig_station::{Entry, Station};
use irig_station_scene::{StationListener, StationRun, listen_to_station};
use std::alloc::{AllocError, Global};

/// What was told so far.
#[derive(Drop)]
pub(crate) struct ToldLog {
    pub(crate) entries: Vec<IrigDeviceEntry>,
}

impl StationListener for ToldLog {
    ghost use Rattle.std.specs.Prelude.{false};
    ghost use Rattle.irig_station_scene.specs.StationStays.{quiet_reads, quiet_stays};
    ghost use Rattle.irig_station_scene.specs.StationTexts.{quiet_texts};
    ghost use Rattle.c_scenario.specs.ToldRuns.{HoldsTold};

    type Asked = ();

    ghost texts = { λ asked. quiet_texts };

    ghost hears = { false };

    ghost stands_for = { λ asked log x. HoldsTold log x };

    ghost stays = { λ asked. quiet_stays };

    ghost reads = { λ asked. quiet_reads (λ log plan entries.
        log.entries.items ≡ map device_entry_for entries) };

    fn hears() -> bool {
        false
    }

    fn first(_asked: ()) -> &'static str {
        ""
    }

    fn new(
        alloc: Global,
        _asked: (),
        _names: &IndexSet<String>,
        _lines: u8,
    ) -> Result<ToldLog, AllocError> {
        Ok(ToldLog {
            entries: Vec::new(alloc),
        })
    }

    fn push_event<P: Port>(
        &mut self,
        _asked: (),
        _station: &Station<P>,
        _names: &IndexSet<String>,
        entries: &[Entry],
        _text: &mut String,
    ) -> Result<(), AllocError> {
        push_told(&mut self.entries, entries)
    }

    fn push_last<P: Port>(
        &self,
        _asked: (),
        _station: &Station<P>,
        _names: &IndexSet<String>,
        _refused: bool,
        _text: &mut String,
    ) -> Result<(), AllocError> {
        Ok(())
    }
}

fn push_told(told: &mut Vec<IrigDeviceEntry>, entries: &[Entry]) -> Result<(), AllocError>
    ensures { OnOk result (told.new.items
        ≡ told.old.items ++ map device_entry_for entries.now) }
{
    for entry in entries {
        told.push(device_entry_for_c(entry))?;
    }
    Ok(())
}

/// A run of the text, which keeps what devices told.
pub(crate) fn hear_devices(alloc: Global, text: &[u8]) -> StationRun<ToldLog>
    ensures { HasHeardTold text.now result }
{
    let mut input = Watched::new(text);
    let mut output = Watched::new(Vec::new(alloc));
    listen_to_station::<ToldLog, &[u8], Vec<u8>>(alloc, (), &mut input, &mut output)
}

/// Writes what was told in a run over the beginning of `room`, as much as it has room for, and answers
/// how much there is; none if the run failed.
pub(crate) fn write_told(room: &mut [IrigDeviceEntry], run: &StationRun<ToldLog>) -> usize
    ensures entries { (text : List ℕ) → HasHeardTold text run.now
        → HasWholeLog (status_of run.now.answer)
        → room.new ≡ written_over room.old (told_of text) }
    ensures count { (text : List ℕ) → HasHeardTold text run.now
        → HasWholeLog (status_of run.now.answer) → result ≡ length (told_of text) }
    ensures unchanged { 4 ≤ status_of run.now.answer → room.new ≡ room.old }
    ensures none { 4 ≤ status_of run.now.answer → result ≡ 0 }
{
    if status_of(&run.answer) >= READ_FAILED {
        return 0;
    }
    match &run.listener {
        Some(log) => {
            write_over(room, &log.entries);
            log.entries.len()
        }
        None => 0,
    }
}
