//! The instant that the numbers of a stamp name.

ghost use Rattle.std.specs.Prelude.{◌≡◌, ◌≤◌, ◌<◌, ◌*◌, ◌+◌, IfOk, IfSome};
ghost use Rattle.irig_time.specs.declared.second.TheConstants.{FIRST_DAY, LAST_DAY};
ghost use Rattle.record_stamp.specs.Codes.{IsZone, IsZoneOf};
ghost use Rattle.record_stamp.specs.Instants.{IsClock, IsDate, IsStamp, day_in, instant_of, is_in_day, minute_in, order_of, utc_minute, zone_or_utc};
ghost use Rattle.irig_time.specs.Texts.{date_text, two};

use crate::parts::{ClockNumbers, DateNumbers};
use irig_time::{FIRST_DAY, LAST_DAY, UtcSecond, month_end, read_day};

/// In which order a date has its day and its month.
#[derive(Clone, Copy)]
pub(crate) enum Order {
    /// The day stands first.
    DayFirst,
    /// The month stands first.
    MonthFirst,
}

/// The time that a stamp says.
#[derive(Clone, Copy, PartialEq, Eq)]
pub struct Stamp {
    /// The second of UTC, from 2000-01-02 to 2099-12-30.
    pub at: UtcSecond,
    /// How much later, in nanoseconds below 1,000,000,000.
    pub nanoseconds: u32,
    /// The minutes that its text is ahead of UTC; none if that is not known, and it is read as UTC.
    pub zone_minutes: Option<i16>,
}

/// Why a stamp is no time, in the order in which faults are answered.
#[derive(Clone, Copy, PartialEq, Eq)]
pub enum StampFault {
    /// Its date is not three numbers, which slashes part: two up to 99, and a year up to 9,999.
    Date,
    /// Its time is not three numbers up to 99, which colons part, and maybe a point and up to nine digits
    /// that count.
    Clock,
    /// The years 2000 to 2099 have no such day.
    NoSuchDay,
    /// Its hour is above 23, its minute above 59, or its second above 60.
    NoSuchTime,
    /// It is not from 2000-01-02 to 2099-12-30 in UTC.
    OutOfYears,
    /// Its second is 60, and no UTC month ends there.
    Second60,
}

/// In which order a date of this edition has its day and its month.
pub(crate) fn order_of(edition: u64, date: DateNumbers) -> Order
    ensures { result ≡ order_of edition date }
{
    if (edition <= 1991 && date.first <= 12) || date.second > 12 {
        Order::MonthFirst
    } else {
        Order::DayFirst
    }
}

/// The time that these numbers name.
pub(crate) fn instant_of(
    order: Order,
    zone: Option<i16>,
    date: DateNumbers,
    clock: ClockNumbers,
) -> Result<Stamp, StampFault>
    requires zone { IsZoneOf zone }
    requires date { IsDate date }
    requires clock { IsClock clock }
    ensures says { result ≡ instant_of order zone date clock }
    ensures stamp { IfOk result IsStamp }
{
    let Some(day) = day_in(order, date) else {
        return Err(StampFault::NoSuchDay);
    };
    if !is_in_day(clock) {
        return Err(StampFault::NoSuchTime);
    }
    let minute = utc_minute(zone, day, clock);
    if minute < i64::from(FIRST_DAY) * 1440 || minute >= i64::from(LAST_DAY + 1) * 1440 {
        return Err(StampFault::OutOfYears);
    }
    minute_in(minute as u32, zone, clock)
}

// The day of a date, counted from 2000-01-01.
fn day_in(order: Order, date: DateNumbers) -> Option<u32>
    requires { IsDate date }
    ensures says { result ≡ day_in order date }
    ensures few { IfSome result (λ day. day ≤ 36524) }
{
    let (month, day) = match order {
        Order::DayFirst => (date.second, date.first),
        Order::MonthFirst => (date.first, date.second),
    };
    read_day(&date_text(date.year, month, day))
}

// YYYY-MM-DD.
fn date_text(year: u32, month: u32, day: u32) -> [u8; 10]
    requires year { year ≤ 9999 }
    requires month { month ≤ 99 }
    requires day { day ≤ 99 }
    ensures { result ≡ date_text year month day }
{
    let [y1, y2] = two(year / 100);
    let [y3, y4] = two(year % 100);
    let [m1, m2] = two(month);
    let [d1, d2] = two(day);
    [y1, y2, y3, y4, b'-', m1, m2, b'-', d1, d2]
}

fn two(number: u32) -> [u8; 2]
    requires { number ≤ 99 }
    ensures { result ≡ two number }
{
    [b'0' + (number / 10) as u8, b'0' + (number % 10) as u8]
}

fn is_in_day(clock: ClockNumbers) -> bool
    ensures { result ≡ is_in_day clock }
{
    clock.hour <= 23 && clock.minute <= 59 && clock.second <= 60
}

// The minute of UTC, counted from 2000-01-01.
fn utc_minute(zone: Option<i16>, day: u32, clock: ClockNumbers) -> i64
    requires zone { IsZoneOf zone }
    requires day { day ≤ 36524 }
    requires clock { IsClock clock }
    ensures { result ≡ utc_minute zone day clock }
{
    let minute = day * 1440 + clock.hour * 60 + clock.minute;
    i64::from(minute) - i64::from(zone_or_utc(zone))
}

fn zone_or_utc(zone: Option<i16>) -> i16
    requires { IsZoneOf zone }
    ensures says { result ≡ zone_or_utc zone }
    ensures range { IsZone result }
{
    match zone {
        Some(minutes) => minutes,
        None => 0,
    }
}

// In that minute of UTC, unless it is a second 60 where no month ends.
fn minute_in(minute: u32, zone: Option<i16>, clock: ClockNumbers) -> Result<Stamp, StampFault>
    requires first { FIRST_DAY * 1440 ≤ minute }
    requires last { minute < (LAST_DAY + 1) * 1440 }
    requires second { clock.second ≤ 60 }
    requires fraction { clock.nanoseconds < 1000000000 }
    ensures says { result ≡ minute_in minute zone clock }
    ensures stamp { IfOk result IsStamp }
{
    let day = minute / 1440;
    let minute_of_day = minute % 1440;
    if clock.second == 60 && !(minute_of_day == 1439 && month_end(day)) {
        return Err(StampFault::Second60);
    }
    let sod = minute_of_day * 60 + clock.second;
    Ok(Stamp {
        at: UtcSecond { day, sod },
        nanoseconds: clock.nanoseconds,
        zone_minutes: zone,
    })
}
