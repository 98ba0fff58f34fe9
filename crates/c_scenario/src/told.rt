//! What devices told, in numbers.

ghost use Rattle.std.specs.Prelude.{◌≡◌, ◌++◌, List, map, OnOk};
ghost use Rattle.c_scenario.specs.Told.{device_entry_for, stamp_record, told_record};

use crate::stretch::second_of;
use c_numbers::{cause_number, lock_count, lock_number};
use irig_simulated::ToldSecond;
use irig_station::Entry;
use irig_time::UtcSecond;
use irig_timekeeper::Stamp;

/// A second that a device told, or a stamp that it gave.
#[repr(C)]
#[derive(Clone, Copy, Drop)]
pub struct IrigDeviceEntry {
    /// Of a told second: the true edge to which it lies nearest, by the device's counter, or 0.
    pub edge: u64,
    /// Of a stamp: the instant, in microseconds of true time behind edge 0, or 0.
    pub instant_us: u64,
    /// Of a told second: how many microseconds of the counter it lies behind that edge, or 0.
    pub behind_us: u64,
    /// Of a told second: how many it lies before that edge, or 0.
    pub before_us: u64,
    /// Of a told second: the votes so far while it is acquiring, the edges since the last vote in
    /// holdover, else 0.
    pub lock_count: u32,
    /// The day of the second that is announced or stamped, or 0.
    pub day: u32,
    /// The second of that day, or 0.
    pub sod: u32,
    /// Of a stamp: how many microseconds of the counter the instant lies behind the told edge, or 0.
    pub offset_us: u32,
    /// How far off that second may begin, or the instant be, if one is named, else 0.
    pub bound_us: u32,
    /// The device, by its place in the plant line, 0 to 15.
    pub device: u8,
    /// 1 a told second, 2 a stamp.
    pub kind: u8,
    /// 1 if a second is announced, or a stamp is given, else 0.
    pub names: u8,
    /// Of a told second: 0 unlocked, 1 acquiring, 2 locked, 3 holdover.
    pub lock: u8,
    /// Of a told second: 0 voted, 1 held, 2 acquiring, 3 no vote, 4 expired, 5 leap guard, 6 jump,
    /// 7 range end.
    pub cause: u8,
}

/// An entry of a station's log as C is given it.
pub(crate) fn device_entry_for_c(entry: &Entry) -> IrigDeviceEntry
    ensures { result ≡ device_entry_for entry.now }
{
    match entry {
        Entry::Told { device, told } => told_record(*device, told),
        Entry::Stamped {
            device,
            time_us,
            stamp,
        } => stamp_record(*device, *time_us, *stamp),
    }
}

fn told_record(device: u8, told: &ToldSecond) -> IrigDeviceEntry
    ensures { result ≡ told_record device told.now }
{
    let report = told.beat.report;
    let second = second_of(report.announce);
    IrigDeviceEntry {
        edge: told.edge,
        instant_us: 0,
        behind_us: told.told_count.saturating_sub(told.edge_count),
        before_us: told.edge_count.saturating_sub(told.told_count),
        lock_count: lock_count(report.lock),
        day: second.day,
        sod: second.sod,
        offset_us: 0,
        bound_us: match report.announce {
            Some(_) => told.beat.bound_us,
            None => 0,
        },
        device,
        kind: 1,
        names: u8::from(report.announce.is_some()),
        lock: lock_number(report.lock),
        cause: cause_number(report.cause),
    }
}

fn stamp_record(device: u8, time_us: u64, stamp: Option<Stamp>) -> IrigDeviceEntry
    ensures { result ≡ stamp_record device time_us stamp }
{
    let (names, second, offset_us, bound_us) = match stamp {
        Some(stamp) => (1, stamp.second, stamp.offset_us, stamp.bound_us),
        None => (0, UtcSecond { day: 0, sod: 0 }, 0, 0),
    };
    IrigDeviceEntry {
        edge: 0,
        instant_us: time_us,
        behind_us: 0,
        before_us: 0,
        lock_count: 0,
        day: second.day,
        sod: second.sod,
        offset_us,
        bound_us,
        device,
        kind: 2,
        names,
        lock: 0,
        cause: 0,
    }
}
