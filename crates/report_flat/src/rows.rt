//! What devices hear, as rows.

ghost use Rattle.std.specs.Prelude.{◌≡◌, ◌++◌, OnOk, string_bytes};
ghost use Rattle.report_log.specs.Text.{texts_of};
ghost use Rattle.report_flat.specs.RowText.{field_text, row_text, rows_text};

use indexmap::IndexSet;
use irig_port::Port;
use irig_simulated::HeardPulse;
use irig_station::{Entry, Station};
use irig_station_scene::StationListener;
use report_log::{name_at, push_number};
use std::alloc::{AllocError, Global};

/// Says which pulses devices hear. It keeps nothing.
#[derive(Drop)]
pub(crate) struct Rows {}

impl StationListener for Rows {
    ghost use Rattle.std.specs.Prelude.{true, ⊤};
    ghost use Rattle.report_flat.specs.RowStays.{rows_read, rows_stay};
    ghost use Rattle.report_flat.specs.RowText.{row_texts};

    type Asked = ();

    ghost texts = { λ asked. row_texts };

    ghost hears = { true };

    ghost stands_for = { λ asked rows x. ⊤ };

    ghost stays = { λ asked. rows_stay };

    ghost reads = { λ asked. rows_read };

    fn hears() -> bool {
        true
    }

    fn first(_asked: ()) -> &'static str {
        "device,port,rise_us,width_us\n"
    }

    fn new(
        _alloc: Global,
        _asked: (),
        _names: &IndexSet<String>,
        _lines: u8,
    ) -> Result<Rows, AllocError> {
        Ok(Rows {})
    }

    fn push_event<P: Port>(
        &mut self,
        _asked: (),
        station: &Station<P>,
        names: &IndexSet<String>,
        _entries: &[Entry],
        text: &mut String,
    ) -> Result<(), AllocError> {
        push_rows(text, names, station.heard())
    }

    fn push_last<P: Port>(
        &self,
        _asked: (),
        _station: &Station<P>,
        _names: &IndexSet<String>,
        _refused: bool,
        _text: &mut String,
    ) -> Result<(), AllocError> {
        Ok(())
    }
}

// Adds a row of each pulse.
#[tactic(auto, unfolding(crate::specs::RowText::rows_text))]
fn push_rows(
    text: &mut String,
    names: &IndexSet<String>,
    pulses: &[HeardPulse],
) -> Result<(), AllocError>
    ensures { OnOk result (string_bytes text.new
        ≡ string_bytes text.old ++ rows_text (texts_of names.now.keys) pulses.now) }
{
    for pulse in pulses {
        push_row(text, name_at(names, pulse.device), *pulse)?;
    }
    Ok(())
}

#[tactic(auto, unfolding(crate::specs::RowText::row_text))]
fn push_row(text: &mut String, name: &str, pulse: HeardPulse) -> Result<(), AllocError>
    ensures { OnOk result (string_bytes text.new
        ≡ string_bytes text.old ++ row_text name.now pulse) }
{
    text.push_str(name)?;
    push_field(text, u64::from(pulse.line))?;
    push_field(text, pulse.rise_us)?;
    push_field(text, pulse.end_us.saturating_sub(pulse.rise_us))?;
    text.push_str("\n")
}

fn push_field(text: &mut String, number: u64) -> Result<(), AllocError>
    ensures { OnOk result (string_bytes text.new ≡ string_bytes text.old ++ field_text number) }
{
    text.push_str(",")?;
    push_number(text, number)
}
