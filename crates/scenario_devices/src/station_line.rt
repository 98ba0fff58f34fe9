//! A plant line of version 4: from its bytes to what a station is made of.

ghost use Rattle.std.specs.Prelude.{◌≡◌, ◌⊎◌, ◌≤◌, All, IfOk, length, vec_len, map};
ghost use Rattle.serde_json.specs.View.{view};
ghost use Rattle.irig_reader.specs.Rules.{IsReaderRules};
ghost use Rattle.irig_plant.specs.History.{AreGenerators};
ghost use Rattle.text_faults.specs.Refusals.{IsUnlessMemory};
ghost use Rattle.scenario_line.specs.PlantLine.{IsMadeUnlessMemory, first_of};
ghost use Rattle.scenario_devices.specs.StationLine.{AreStationValues, HasDevices, is_four, device_refusal, device_with, station_refusal, station_with, station_setup, station_in_object, station_in_line, station_of, has_version_four, is_station_line};

use crate::device_values::{DeviceValues, StationValues, devices_in, station_values};
use crate::station_shape::is_station;
use indexmap::IndexSet;
use irig_gen::Generator;
use irig_lines::clock_fault;
use irig_simulated::DeviceSetup;
use irig_time::{Rules, Timeline};
use scenario_json::whole_at;
use scenario_line::{make_generators, make_reader, make_timeline};
use scenario_values::{VERSION, names_among, value_of};
use serde_json::Value;
use std::alloc::{AllocError, Global};
use text_faults::{LineFault, Refusal};

/// What a station is made of, none of it refused, and the names of its devices.
#[derive(Drop)]
pub struct BuiltStation {
    /// The true seconds, from that of edge 0 on.
    pub timeline: Timeline,
    /// The generators, at edge 0 and without fault.
    pub generators: Vec<Generator>,
    /// How all frames are written and read.
    pub rules: Rules,
    /// The devices, with their tables; to each leads a line from each generator.
    pub devices: Vec<DeviceSetup>,
    /// The devices' names, in the same order, none twice.
    pub names: IndexSet<String>,
}

fn is_four(number: i128) -> bool
    ensures { result ≡ is_four number }
{
    matches!(number, 4)
}

/// Whether a first line is one for [`station_of_line`]: the JSON of an object whose `version` is 4.
/// What any other line is, or why it is refused, says
/// [`plant_of_line`](scenario_line::plant_of_line). Fails only if there is no memory.
#[tactic(auto, unfolding(crate::specs::StationLine::is_station_line))]
pub fn is_station_line(alloc: Global, line: &[u8]) -> Result<bool, AllocError>
    ensures { IfOk result (λ is. is ≡ is_station_line line.now) }
{
    match value_of(alloc, line) {
        Ok(value) => Ok(has_version_four(&value)),
        Err(LineFault::Refused(_)) => Ok(false),
        Err(LineFault::Memory) => Err(AllocError),
    }
}

/// Whether the `version` of a plant line is that of one with devices.
pub fn has_version_four(value: &Value) -> bool
    ensures { result ≡ has_version_four (view value.now) }
{
    matches!(whole_at(value, VERSION.name), Some(number) if is_four(number))
}

/// The station of a plant line of version 4: three or five generators, 1 to 16 devices, and as many
/// names.
///
/// `Refused` with the first reason in the order of docs/FAULTS.md, `Memory` if there was none. A
/// line of another version is refused as `Version`.
#[tactic(auto, unfolding(crate::specs::StationLine::station_in_line))]
pub fn station_of_line(alloc: Global, line: &[u8]) -> Result<BuiltStation, LineFault>
    ensures station { IsUnlessMemory station_of (station_in_line line.now) result }
    ensures generators { IfOk result (λ s. AreGenerators s.rules s.generators.items) }
    ensures devices { IfOk result HasDevices }
    ensures names { IfOk result (λ s. length s.names.keys ≡ vec_len s.devices) }
{
    let value = value_of(alloc, line)?;
    station_of_value(alloc, &value)
}

#[tactic(auto, unfolding(crate::specs::StationLine::station_in_object))]
fn station_of_value(alloc: Global, value: &Value) -> Result<BuiltStation, LineFault>
    ensures station { IsUnlessMemory station_of (station_in_object (view value.now)) result }
    ensures generators { IfOk result (λ s. AreGenerators s.rules s.generators.items) }
    ensures devices { IfOk result HasDevices }
    ensures names { IfOk result (λ s. length s.names.keys ≡ vec_len s.devices) }
{
    value.as_object().ok_or(Refusal::Shape)?;
    let number = whole_at(value, VERSION.name).ok_or(Refusal::Shape)?;
    if !is_four(number) {
        return Err(LineFault::Refused(Refusal::Version));
    }
    if !is_station(value) {
        return Err(LineFault::Refused(Refusal::Shape));
    }
    let values = station_values(alloc, value)?;
    let names = names_among(alloc, devices_in(value))?;
    station_with(alloc, &values, names)
}

fn station_with(
    alloc: Global,
    values: &StationValues,
    names: IndexSet<String>,
) -> Result<BuiltStation, LineFault>
    requires { AreStationValues values.now }
    ensures made { IsMadeUnlessMemory station_setup
        (station_refusal values.now) (station_with values.now) result }
    ensures generators { IfOk result (λ s. AreGenerators s.rules s.generators.items) }
    ensures devices { IfOk result HasDevices }
    ensures count { IfOk result (λ s. vec_len s.devices ≡ length values.now.devices) }
    ensures names { IfOk result (λ s. s.names ≡ names) }
{
    let plant = &values.plant;
    let timeline = make_timeline(alloc, plant)?;
    let generators = make_generators(alloc, plant.rules, &plant.generators)?;
    let devices = make_devices(alloc, &values.devices)?;
    Ok(BuiltStation {
        timeline,
        generators,
        rules: plant.rules,
        devices,
        names,
    })
}

fn make_devices(alloc: Global, values: &[DeviceValues]) -> Result<Vec<DeviceSetup>, LineFault>
    ensures { IsMadeUnlessMemory (λ v. v.items)
        (first_of (map device_refusal values.now)) (map device_with values.now) result }
{
    let mut devices = Vec::new(alloc);
    for value in values {
        devices.push(make_device(alloc, value)?)?;
    }
    Ok(devices)
}

fn make_device(alloc: Global, value: &DeviceValues) -> Result<DeviceSetup, LineFault>
    ensures { IsMadeUnlessMemory (λ d. d)
        (device_refusal value.now) (device_with value.now) result }
{
    let reader = make_reader(&value.reader)?;
    if clock_fault(reader.rules, value.drift_us, 0).is_some() {
        return Err(LineFault::Refused(Refusal::Drift));
    }
    Ok(DeviceSetup {
        rules: reader.rules,
        table: reader.table,
        drift_us: value.drift_us,
        gain_us: value.gain_us,
        counter: value.counter,
        late_us: Vec::from_slice(alloc, &value.late_us)?,
        ticking: value.ticking,
    })
}
