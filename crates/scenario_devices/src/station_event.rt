//! Lines after a plant line of version 4.

ghost use Rattle.std.specs.Prelude.{◌≡◌, ◌≤◌, IfOk, length};
ghost use Rattle.serde_json.specs.View.{view};
ghost use Rattle.scenario_json.specs.Keys.{texts_of};
ghost use Rattle.text_faults.specs.Refusals.{IsUnlessMemory};
ghost use Rattle.scenario_devices.specs.StationEvents.{station_event_of, event_in_station_object, event_in_station_line, IsStationEvent};

use crate::station_form::{
    AGO, LATENESS_US, PASSING_US, StationAction, station_action_of, station_keys_of,
};
use indexmap::IndexSet;
use irig_station::Event;
use scenario_json::has_form;
use scenario_line::{fault_of_form, generator_at, number_at, reader_in};
use scenario_values::{N, WIDTH, value_of};
use serde_json::Value;
use std::alloc::Global;
use text_faults::{LineFault, Refusal};

fn station_event_of(
    names: &IndexSet<String>,
    action: StationAction,
    value: &Value,
) -> Result<Event, Refusal>
    requires { length names.now.keys ≤ 16 }
    ensures said { result ≡ station_event_of (texts_of names.now.keys) action (view value.now) }
    ensures range { IfOk result IsStationEvent }
{
    let event = match action {
        StationAction::Pass => Event::Pass(number_at(PASSING_US, value)?),
        StationAction::Seconds => Event::Pass(number_at(N, value)? * 1_000_000),
        StationAction::Fault(kind) => Event::Fault {
            g: generator_at(value)?,
            kind: fault_of_form(kind, value)?,
        },
        StationAction::Repair => Event::Repair(generator_at(value)?),
        StationAction::Pull => Event::Pull {
            g: generator_at(value)?,
            r: reader_in(names, value)?,
        },
        StationAction::Plug => Event::Plug {
            g: generator_at(value)?,
            r: reader_in(names, value)?,
        },
        StationAction::Late => Event::Late {
            g: generator_at(value)?,
            us: number_at(LATENESS_US, value)? as u16,
            r: reader_in(names, value)?,
        },
        StationAction::Pulse => Event::Pulse {
            g: generator_at(value)?,
            width_us: number_at(WIDTH, value)? as u32,
            r: reader_in(names, value)?,
        },
        StationAction::Tick => Event::Tick(reader_in(names, value)?),
        StationAction::Restart => Event::Restart(reader_in(names, value)?),
        StationAction::Stamp => Event::Stamp {
            ago_us: number_at(AGO, value)? as u32,
            r: reader_in(names, value)?,
        },
    };
    Ok(event)
}

#[tactic(auto, unfolding(crate::specs::StationEvents::event_in_station_object))]
fn event_in_station_object(names: &IndexSet<String>, value: &Value) -> Result<Event, Refusal>
    requires { length names.now.keys ≤ 16 }
    ensures said { result ≡ event_in_station_object (texts_of names.now.keys) (view value.now) }
    ensures range { IfOk result IsStationEvent }
{
    let action = station_action_of(value).ok_or(Refusal::Shape)?;
    if !has_form(station_keys_of(action), value) {
        return Err(Refusal::Shape);
    }
    station_event_of(names, action, value)
}

/// What a line after a plant line of version 4 asks for, by the names of the station's devices in
/// order, at most 16. A generator's number is not compared with how many there are.
///
/// `Refused` with the first reason in the order of docs/FAULTS.md, `Memory` if there was none.
#[tactic(auto, unfolding(crate::specs::StationEvents::event_in_station_line))]
pub fn event_of_station_line(
    alloc: Global,
    names: &IndexSet<String>,
    line: &[u8],
) -> Result<Event, LineFault>
    requires { length names.now.keys ≤ 16 }
    ensures said { IsUnlessMemory (λ x. x)
        (event_in_station_line (texts_of names.now.keys) line.now) result }
    ensures range { IfOk result IsStationEvent }
{
    let value = value_of(alloc, line)?;
    Ok(event_in_station_object(names, &value)?)
}
