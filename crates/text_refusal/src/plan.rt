//! What is wrong with what a plant line says, if its form and its ranges are right.

ghost use Rattle.std.specs.Prelude.{◌≡◌, ◌≤◌, IfOk, IfSome, Some};
ghost use Rattle.serde_json.specs.View.{view};
ghost use Rattle.irig_time.specs.declared.second.TheConstants.{LAST_DAY};
ghost use Rattle.text_refusal.specs.Lines.{AreRefusedAt};
ghost use Rattle.text_refusal.specs.Refused.{change_refusal_at, drift_refusal, entry_fault_at, entry_refusal, leap_refusal, minute_before, refusal_at, refusal_in, station_refusal_at, table_refusal, zone_refusal};

use crate::place::{Plant, object_at};
use crate::walk::{Wrong, first_place};
use irig_gen::{Change, Zone, is_change_time, minute_number};
use irig_lines::clock_fault;
use irig_time::{LAST_DAY, LAST_NAMED_DAY, Leap, TableFault, entry_fault, leap_fault, month_end};
use scenario_devices::{DeviceValues, StationValues, station_values};
use scenario_values::{GeneratorValues, LOCAL, PlantValues, ReaderValues, Version, values_of};
use serde_json::Value;
use std::alloc::{AllocError, Global};
use text_faults::{LineFault, Refusal};
use text_words::{Expected, JsonPath, Misfit};

// ---- as what a place is refused

/// As what the values of a plant line are refused at a place, if they are.
#[tactic(auto, unfolding(crate::specs::Refused::refusal_at))]
pub(crate) fn refusal_at(values: &PlantValues, place: JsonPath) -> Option<Refusal>
    ensures { result ≡ refusal_at values.now place }
{
    match place {
        JsonPath::Line | JsonPath::Reader(_) => None,
        JsonPath::Leap(at) => leap_refusal(&values.leaps, at),
        JsonPath::Generator(at) => match values.generators.get(at) {
            Some(generator) => zone_refusal(generator.zone),
            None => None,
        },
        JsonPath::Change(above, at) => match values.generators.get(above) {
            Some(generator) => change_refusal_at(generator, at),
            None => None,
        },
        JsonPath::Table(at) => match values.readers.get(at) {
            Some(reader) => table_refusal(reader),
            None => None,
        },
        JsonPath::TableLeap(above, at) => match values.readers.get(above) {
            Some(reader) => entry_refusal(at, reader),
            None => None,
        },
    }
}

/// The same of a plant line with devices.
#[tactic(auto, unfolding(crate::specs::Refused::station_refusal_at))]
pub(crate) fn station_refusal_at(values: &StationValues, place: JsonPath) -> Option<Refusal>
    ensures { result ≡ station_refusal_at values.now place }
{
    match place {
        JsonPath::Reader(at) => drift_refusal(values.devices.get(at)?),
        JsonPath::Table(at) => table_refusal(&values.devices.get(at)?.reader),
        JsonPath::TableLeap(above, at) => entry_refusal(at, &values.devices.get(above)?.reader),
        JsonPath::Line => None,
        JsonPath::Leap(at) => refusal_at(&values.plant, JsonPath::Leap(at)),
        JsonPath::Generator(at) => refusal_at(&values.plant, JsonPath::Generator(at)),
        JsonPath::Change(above, at) => refusal_at(&values.plant, JsonPath::Change(above, at)),
    }
}

fn drift_refusal(device: &DeviceValues) -> Option<Refusal>
    ensures { result ≡ drift_refusal device.now }
{
    match clock_fault(device.reader.rules, device.drift_us, 0) {
        Some(_) => Some(Refusal::Drift),
        None => None,
    }
}

fn refusal_in(fault: LineFault) -> Option<Refusal>
    ensures { result ≡ refusal_in fault }
{
    match fault {
        LineFault::Refused(refusal) => Some(refusal),
        LineFault::Memory => None,
    }
}

fn leap_refusal(leaps: &[(u32, Leap)], at: usize) -> Option<Refusal>
    ensures { result ≡ leap_refusal leaps.now at }
{
    let (day, _) = leaps.get(at)?;
    refusal_in(LineFault::from(leap_fault(&leaps[..at], *day)?))
}

fn zone_refusal(zone: Zone) -> Option<Refusal>
    ensures { result ≡ zone_refusal zone }
{
    if zone.half_hours.unsigned_abs() <= 31 {
        None
    } else {
        Some(Refusal::Offset)
    }
}

fn change_refusal_at(generator: &GeneratorValues, at: usize) -> Option<Refusal>
    ensures { result ≡ change_refusal_at at generator.now }
{
    let change = generator.changes.get(at)?;
    if change.zone.half_hours.unsigned_abs() > 31 {
        return Some(Refusal::Offset);
    }
    let before = minute_before(&generator.changes, at);
    if is_change_time(&change.at) && before < minute_number(change.at) {
        None
    } else {
        Some(Refusal::Changes)
    }
}

// The minute of the change before this place, 0 for the first.
fn minute_before(changes: &[Change], at: usize) -> u64
    ensures { result ≡ minute_before changes.now at }
{
    if at == 0 {
        return 0;
    }
    match changes.get(at - 1) {
        Some(change) => minute_number(change.at),
        None => 0,
    }
}

fn table_refusal(reader: &ReaderValues) -> Option<Refusal>
    ensures { result ≡ table_refusal reader.now }
{
    if reader.until > LAST_DAY {
        Some(Refusal::TableEnd)
    } else if reader.leaps.len() > 64 {
        Some(Refusal::TableLong)
    } else {
        None
    }
}

fn entry_refusal(at: usize, reader: &ReaderValues) -> Option<Refusal>
    ensures { result ≡ entry_refusal at reader.now }
{
    if reader.until > LAST_DAY {
        return None;
    }
    Some(Refusal::from(entry_fault_at(reader.until, &reader.leaps, at)?))
}

fn entry_fault_at(until: u32, leaps: &[(u32, Leap)], at: usize) -> Option<TableFault>
    requires { until ≤ LAST_DAY }
    ensures { result ≡ entry_fault_at until leaps.now at }
{
    let (day, _) = leaps.get(at)?;
    entry_fault(until, &leaps[..at], *day)
}

// ---- the first place at which it is refused so

/// The first place at which what a plant line says, with its form and its ranges right, is refused
/// so, and what may stand there. Fails only if there is no memory.
pub(crate) fn find_in_plan(
    alloc: Global,
    plant: Plant,
    refusal: Refusal,
    value: &Value,
) -> Result<Option<Misfit<'_>>, AllocError>
    ensures { IfOk result (λ found. IfSome found
        (λ misfit. AreRefusedAt plant refusal (view value.now) misfit.place)) }
{
    match plant {
        Plant::Readers(version) => find_in_readers(alloc, version, refusal, value),
        Plant::Devices => find_in_devices(alloc, refusal, value),
    }
}

fn find_in_readers(
    alloc: Global,
    version: Version,
    refusal: Refusal,
    value: &Value,
) -> Result<Option<Misfit<'_>>, AllocError>
    ensures { IfOk result (λ found. IfSome found
        (λ misfit. AreRefusedAt (Plant.Readers version) refusal (view value.now) misfit.place)) }
{
    match values_of(alloc, version, value) {
        Ok(values) => Ok(find_in_values(version, refusal, &values, value)),
        Err(LineFault::Refused(_)) => Ok(None),
        Err(LineFault::Memory) => Err(AllocError),
    }
}

fn find_in_devices(
    alloc: Global,
    refusal: Refusal,
    value: &Value,
) -> Result<Option<Misfit<'_>>, AllocError>
    ensures { IfOk result (λ found. IfSome found
        (λ misfit. AreRefusedAt Plant.Devices refusal (view value.now) misfit.place)) }
{
    match station_values(alloc, value) {
        Ok(values) => Ok(find_in_station(refusal, &values, value)),
        Err(LineFault::Refused(_)) => Ok(None),
        Err(LineFault::Memory) => Err(AllocError),
    }
}

fn find_in_values<'a>(
    version: Version,
    refusal: Refusal,
    values: &PlantValues,
    value: &'a Value,
) -> Option<Misfit<'a>>
    ensures { IfSome result (λ misfit. refusal_at values.now misfit.place ≡ Some refusal) }
{
    let plant = Plant::Readers(version);
    let place = first_place(plant, Wrong::Values(refusal, values), value)?;
    if refusal_at(values, place) != Some(refusal) {
        return None;
    }
    let reader = match place {
        JsonPath::TableLeap(above, _) => values.readers.get(above),
        _ => None,
    };
    misfit_at(plant, refusal, reader, place, value)
}

fn find_in_station<'a>(
    refusal: Refusal,
    values: &StationValues,
    value: &'a Value,
) -> Option<Misfit<'a>>
    ensures { IfSome result (λ misfit. station_refusal_at values.now misfit.place ≡ Some refusal) }
{
    let place = first_place(Plant::Devices, Wrong::Station(refusal, values), value)?;
    if station_refusal_at(values, place) != Some(refusal) {
        return None;
    }
    let reader = match place {
        JsonPath::TableLeap(above, _) => reader_of(values.devices.get(above)),
        _ => None,
    };
    misfit_at(Plant::Devices, refusal, reader, place, value)
}

fn reader_of(device: Option<&DeviceValues>) -> Option<&ReaderValues> {
    Some(&device?.reader)
}

// What is refused so at a place, which is a leap of the table of this reader, if one is told.
fn misfit_at<'a>(
    plant: Plant,
    refusal: Refusal,
    reader: Option<&ReaderValues>,
    place: JsonPath,
    value: &'a Value,
) -> Option<Misfit<'a>>
    ensures { IfSome result (λ misfit. misfit.place ≡ place) }
{
    let object = object_at(plant, value, place)?;
    let (key, expected) = rule_of(refusal, is_late(reader, place));
    Some(Misfit::at(place, key, object, expected))
}

// The key whose value is refused so, and what may stand there; of a leap of a table, if it comes
// behind the table's end.
fn rule_of(refusal: Refusal, is_late: bool) -> (&'static str, Expected<'static>) {
    match refusal {
        Refusal::Offset => ("local", Expected::Ranged(LOCAL)),
        Refusal::Changes => (
            "at",
            Expected::Clause("the first second of a minute, later than the change before"),
        ),
        Refusal::OutOfYears => ("day", Expected::Text("2000-01-02 to 2099-12-30")),
        Refusal::TableEnd => ("until", Expected::Text("a day up to 2099-12-30")),
        Refusal::TableLong => ("leaps", Expected::Text("at most 64")),
        Refusal::Drift => (
            "holdover",
            Expected::Text("at most 490,000 / \"drift\" - 2 seconds"),
        ),
        Refusal::TableDay if is_late => ("day", Expected::Text("a day up to \"until\"")),
        Refusal::LeapNotMonthEnd | Refusal::TableDay => {
            ("day", Expected::Text("the last day of a month"))
        }
        _ => ("day", Expected::Text("a day that no leap before it has")),
    }
}

// Whether the leap of a table is at the end of a month, so that only the table's own end is before
// it.
fn is_late(reader: Option<&ReaderValues>, place: JsonPath) -> bool {
    if let JsonPath::TableLeap(_, at) = place
        && let Some(reader) = reader
        && let Some((day, _)) = reader.leaps.get(at)
    {
        *day <= LAST_NAMED_DAY && month_end(*day)
    } else {
        false
    }
}
