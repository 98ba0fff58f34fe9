//! What readers hear of events, as lines.

ghost use Rattle.std.specs.Prelude.{◌≡◌, ◌++◌, false, OnOk, string_bytes};
ghost use Rattle.report_log.specs.Text.{texts_of};
ghost use Rattle.irig_scene.specs.Listening.{HasTaken};
ghost use Rattle.irig_scene.specs.Scene.{Scene};
ghost use Rattle.report_flat.specs.FlatText.{heard_text, line_text};
ghost use Rattle.report_flat.specs.Recording.{pulses_at};

use crate::line_text::{push_pulses, push_restart, push_tick};
use indexmap::IndexSet;
use irig_plant::{Entry, Event, Plant};
use irig_port::Port;
use irig_scene::Listener;
use std::alloc::{AllocError, Global};

/// Says what readers hear. It keeps nothing.
#[derive(Drop)]
pub(crate) struct Recorder {}

impl Listener for Recorder {
    ghost use Rattle.std.specs.Prelude.{⊤};
    ghost use Rattle.report_flat.specs.FlatText.{flat_texts};

    type Asked = ();

    ghost texts = { λ asked. flat_texts };

    ghost stands_for = { λ asked recorder x. ⊤ };

    ghost counts = { false };

    fn counts() -> bool {
        false
    }

    fn count(&self) -> u64 {
        0
    }

    fn new(
        _alloc: Global,
        _asked: (),
        _names: &IndexSet<String>,
        _ports: u8,
    ) -> Result<Recorder, AllocError> {
        Ok(Recorder {})
    }

    fn echoes_plant_line(_asked: ()) -> bool {
        true
    }

    fn push_event<P: Port>(
        &mut self,
        _asked: (),
        plant: &Plant<P>,
        names: &IndexSet<String>,
        event: &Event,
        _entries: &[Entry],
        text: &mut String,
    ) -> Result<(), AllocError> {
        push_heard(text, names, plant, event)
    }

    fn push_last<P: Port>(
        &self,
        _asked: (),
        _plant: &Plant<P>,
        _names: &IndexSet<String>,
        _refused: bool,
        _text: &mut String,
    ) -> Result<(), AllocError> {
        Ok(())
    }
}

// Pushes the line of what readers heard of an event that the plant has just taken.
fn push_heard<P: Port>(
    text: &mut String,
    names: &IndexSet<String>,
    plant: &Plant<P>,
    event: &Event,
) -> Result<(), AllocError>
    ensures { OnOk result ((x : Scene)
        → HasTaken plant.now (texts_of names.now.keys) event.now x
        → string_bytes text.new
        ≡ string_bytes text.old ++ heard_text x.plan.names x.plan.setup event.now x.events) }
{
    match event {
        Event::Tick(r) => push_tick(text, names, *r),
        Event::Restart(r) => push_restart(text, names, *r),
        Event::Raw { g, r, widths } => push_some(text, names, *g, *r, widths.as_slice()),
        Event::Carry { g, r } | Event::Damage { g, r, .. } | Event::Replay { g, r, .. } => {
            match plant.frame_brought(event) {
                Some(widths) => push_some(text, names, *g, *r, &widths),
                None => Ok(()),
            }
        }
        Event::GenEdge(_) | Event::Fault { .. } | Event::Repair(_) => Ok(()),
    }
}

// Pushes the line of pulses, if there are some.
fn push_some(
    text: &mut String,
    names: &IndexSet<String>,
    g: u8,
    r: u8,
    widths: &[u32],
) -> Result<(), AllocError>
    ensures { OnOk result (string_bytes text.new ≡ string_bytes text.old
        ++ line_text (texts_of names.now.keys) (pulses_at g r widths.now)) }
{
    if widths.is_empty() {
        Ok(())
    } else {
        push_pulses(text, names, g, r, widths)
    }
}
