//! The values of a plant line of version 4.

ghost use Rattle.std.specs.Prelude.{◌≡◌, map, length};
ghost use Rattle.serde_json.specs.View.{view};
ghost use Rattle.scenario_json.specs.Json.{all_of};
ghost use Rattle.scenario_json.specs.Fields.{natural_in};
ghost use Rattle.text_faults.specs.Refusals.{FoundUnlessMemory};
ghost use Rattle.scenario_devices.specs.StationShape.{most_late};
ghost use Rattle.scenario_devices.specs.StationValues.{devices_in, gain_of, counter_of, ticking_of, late_of, lates_among, device_values, station_values};

use crate::station_shape::{COUNTER, DEVICES, DRIFT, GAIN, LATE, MOST_LATE, POLL};
use irig_simulated::Ticking;
use scenario_json::{integer_at, items_at, natural_at, natural_in};
use scenario_values::{PlantValues, ReaderValues, Version, reader_of, values_of};
use serde_json::Value;
use std::alloc::Global;
use std::marker::Model;
use text_faults::{LineFault, Refusal};

/// What a device is to be made of.
#[derive(Drop)]
pub struct DeviceValues {
    /// What it has as a reader.
    pub reader: ReaderValues,
    /// How many microseconds a second its counter may be wrong.
    pub drift_us: u32,
    /// How many microseconds its counter gains in each second.
    pub gain_us: i16,
    /// What its counter shows at edge 0.
    pub counter: u32,
    /// How late the line of each generator is, in microseconds.
    pub late_us: Vec<u16>,
    /// When it is ticked.
    pub ticking: Ticking,
}

impl Model for DeviceValues {
    ghost use Rattle.scenario_devices.specs.StationValues.{DeviceValues};

    ghost Value = { DeviceValues };

    ghost view = { λ d. record {
      reader = d.reader;
      drift = d.drift_us;
      gain = d.gain_us;
      counter = d.counter;
      late = d.late_us.items;
      ticking = d.ticking;
    } };
}

/// What a station is to be made of.
#[derive(Drop)]
pub struct StationValues {
    /// All but its devices, as of a plant without readers.
    pub plant: PlantValues,
    /// The devices.
    pub devices: Vec<DeviceValues>,
}

impl Model for StationValues {
    ghost use Rattle.scenario_devices.specs.StationValues.{StationValues};

    ghost Value = { StationValues };

    ghost view = { λ s. record { plant = s.plant; devices = s.devices.items } };
}

/// The values of a plant line of version 4, whose shape is right. `Value` if one of them is outside its
/// range, or a device has not as many numbers at `late` as there are generators; `Memory` if there was
/// none.
#[tactic(auto, unfolding(crate::specs::StationValues::station_values))]
pub fn station_values(alloc: Global, value: &Value) -> Result<StationValues, LineFault>
    ensures { FoundUnlessMemory (λ s. s) (station_values (view value.now)) result }
{
    let plant = values_of(alloc, Version::Three, value)?;
    let devices = all_devices(alloc, plant.generators.len(), devices_in(value))?;
    Ok(StationValues { plant, devices })
}

/// The objects of a plant line's devices; none if it has no list of them.
#[tactic(auto, unfolding(crate::specs::StationValues::devices_in))]
pub fn devices_in(value: &Value) -> &[Value]
    ensures { map view result.now ≡ devices_in (view value.now) }
{
    items_at(value, DEVICES.name).unwrap_or(&[])
}

fn all_devices(
    alloc: Global,
    generators: usize,
    values: &[Value],
) -> Result<Vec<DeviceValues>, LineFault>
    ensures { FoundUnlessMemory (λ v. v.items)
        (all_of (device_values generators) (map view values.now)) result }
{
    let mut devices = Vec::new(alloc);
    for value in values {
        devices.push(device_values(alloc, generators, value)?)?;
    }
    Ok(devices)
}

#[tactic(auto, unfolding(crate::specs::StationValues::device_values))]
fn device_values(alloc: Global, generators: usize, value: &Value) -> Result<DeviceValues, LineFault>
    ensures { FoundUnlessMemory (λ d. d) (device_values generators (view value.now)) result }
{
    let reader = reader_of(alloc, value)?;
    let drift_us = natural_at(DRIFT, value).ok_or(Refusal::Value)? as u32;
    let gain_us = gain_of(value).ok_or(Refusal::Value)?;
    let counter = counter_of(value).ok_or(Refusal::Value)?;
    let late_us = late_of(alloc, generators, value)?;
    let ticking = ticking_of(value).ok_or(Refusal::Value)?;
    Ok(DeviceValues {
        reader,
        drift_us,
        gain_us,
        counter,
        late_us,
        ticking,
    })
}

fn gain_of(value: &Value) -> Option<i16>
    ensures { result ≡ gain_of (view value.now) }
{
    match value.get(GAIN.name) {
        None => Some(0),
        Some(_) => Some(integer_at(GAIN, value)? as i16),
    }
}

fn counter_of(value: &Value) -> Option<u32>
    ensures { result ≡ counter_of (view value.now) }
{
    match value.get(COUNTER.name) {
        None => Some(0),
        Some(_) => Some(natural_at(COUNTER, value)? as u32),
    }
}

fn ticking_of(value: &Value) -> Option<Ticking>
    ensures { result ≡ ticking_of (view value.now) }
{
    match value.get(POLL.name) {
        None => Some(Ticking::ByWait),
        Some(_) => match natural_at(POLL, value)? {
            0 => Some(Ticking::ByHand),
            us => Some(Ticking::Each(us as u32)),
        },
    }
}

#[tactic(auto, unfolding(crate::specs::StationValues::late_of))]
fn late_of(alloc: Global, generators: usize, value: &Value) -> Result<Vec<u16>, LineFault>
    ensures { FoundUnlessMemory (λ v. v.items) (late_of generators (view value.now)) result }
{
    match value.get(LATE.name) {
        None => Ok(vec![in alloc; 0; generators]?),
        Some(_) => {
            let items = items_at(value, LATE.name).ok_or(Refusal::Value)?;
            lates_among(alloc, generators, items)
        }
    }
}

#[tactic(auto, unfolding(crate::specs::StationValues::lates_among))]
fn lates_among(alloc: Global, generators: usize, values: &[Value]) -> Result<Vec<u16>, LineFault>
    ensures { FoundUnlessMemory (λ v. v.items)
        (lates_among generators (map view values.now)) result }
{
    if values.len() == generators {
        all_lates(alloc, values)
    } else {
        Err(LineFault::Refused(Refusal::Value))
    }
}

fn all_lates(alloc: Global, values: &[Value]) -> Result<Vec<u16>, LineFault>
    ensures { FoundUnlessMemory (λ v. v.items)
        (all_of (natural_in most_late) (map view values.now)) result }
{
    let mut lates = Vec::new(alloc);
    for value in values {
        lates.push(late_in(value).ok_or(Refusal::Value)?)?;
    }
    Ok(lates)
}

#[tactic(auto, using(crate::proofs::RangeLaws::small))]
fn late_in(value: &Value) -> Option<u16>
    ensures { result ≡ natural_in most_late (view value.now) }
{
    Some(natural_in(MOST_LATE, value)? as u16)
}
