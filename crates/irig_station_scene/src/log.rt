//! The log, as a listener.

use crate::listener::StationListener;
use crate::text::{push_station_audit, push_station_entries};
use indexmap::IndexSet;
use irig_port::Port;
use irig_station::{Entry, Station};
use report_log::Shown;
use std::alloc::{AllocError, Global};

/// Writes the line of each entry, and at the end whether the premises held.
#[derive(Drop)]
pub struct StationLog {}

impl StationListener for StationLog {
    ghost use Rattle.std.specs.Prelude.{false, ⊤};
    ghost use Rattle.irig_station_scene.specs.StationStays.{log_stays, reads_log};
    ghost use Rattle.irig_station_scene.specs.StationText.{station_text};
    ghost use Rattle.irig_station_scene.specs.StationTexts.{station_texts};

    type Asked = Shown;

    ghost texts = { λ shown. station_texts shown.all };

    ghost hears = { false };

    ghost stands_for = { λ shown log x. ⊤ };

    ghost stays = { λ shown. log_stays shown.all };

    ghost reads = { λ shown. reads_log (λ log plan entries. ⊤)
        (λ plan. station_text plan.names shown.all) };

    fn hears() -> bool {
        false
    }

    fn first(_shown: Shown) -> &'static str {
        ""
    }

    fn new(
        _alloc: Global,
        _shown: Shown,
        _names: &IndexSet<String>,
        _lines: u8,
    ) -> Result<StationLog, AllocError> {
        Ok(StationLog {})
    }

    fn push_event<P: Port>(
        &mut self,
        shown: Shown,
        _station: &Station<P>,
        names: &IndexSet<String>,
        entries: &[Entry],
        text: &mut String,
    ) -> Result<(), AllocError> {
        push_station_entries(text, names, entries, shown.all)
    }

    fn push_last<P: Port>(
        &self,
        _shown: Shown,
        station: &Station<P>,
        names: &IndexSet<String>,
        refused: bool,
        text: &mut String,
    ) -> Result<(), AllocError> {
        if refused {
            return Ok(());
        }
        push_station_audit(text, names, station.audit())
    }
}
