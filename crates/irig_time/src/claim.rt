//! What a frame claims about UTC.

ghost use Rattle.std.specs.Prelude.{◌≡◌, ◌≤◌, ◌<◌, ◌+◌, ◌*◌, IfOk};
ghost use Rattle.irig_frame.specs.Decoder.{IsCoded};
ghost use Rattle.irig_control.specs.Control.{IsControl};
ghost use Rattle.irig_time.specs.Seconds.{IsValid};
ghost use Rattle.irig_time.specs.declared.second.TheConstants.{FIRST_DAY, LAST_DAY};
ghost use Rattle.irig_time.specs.Days.{year_length};
ghost use Rattle.irig_time.specs.Claims.{utc_minute, frame_mark, claim_at, claim_by};

use crate::calendar::month_end;
use crate::mark::Mark;
use crate::rules::Sense;
use crate::second::{FIRST_DAY, LAST_DAY, UtcSecond};
use irig_control::Control;
use irig_frame::Coded;

/// What a frame claims: the second that it codes, and what it says of a leap.
#[derive(Clone, Copy, PartialEq, Eq)]
pub struct Claim {
    /// The UTC second that begins with the frame.
    pub at: UtcSecond,
    /// What the frame says of the leap at the end of that day; unspoken but in seconds 1 to 59 of
    /// 23:59 UTC on a month's last day.
    pub mark: Mark,
}

/// Why a coded time is no second of UTC, in the order in which faults are answered.
#[derive(Clone, Copy, PartialEq, Eq)]
pub enum TimeFault {
    /// Day 366 of a year that has 365.
    NoSuchDay,
    /// The UTC day is outside [`FIRST_DAY`] to [`LAST_DAY`], 2000-01-02 to 2099-12-30.
    OutOfYears,
    /// Second 60 elsewhere than in 23:59 UTC of a month's last day.
    Second60,
    /// 23:59:59 UTC of a month's last day, and the frame says that this second is deleted.
    DeletedSecond,
}

/// What a frame with these values claims, or the first fault.
///
/// Both arguments are in range ([`irig_frame::in_range`], [`irig_control::in_range`]). The UTC
/// minute is the coded minute plus or minus 30 for each half hour of offset, and the second is
/// unchanged. That the leap bits speak in the last minute alone is this project's profile of IEEE
/// 1344-1995.
pub fn claim_of(coded: &Coded, control: &Control, sense: Sense) -> Result<Claim, TimeFault>
    requires coded { IsCoded coded.now }
    requires control { IsControl control.now }
    ensures exact { result ≡ claim_by sense coded.now control.now }
    ensures valid { IfOk result (λ claim. IsValid claim.at) }
{
    claim_or_fault(coded, control, sense)
}

// Apart from `claim_of`, whose second clause follows from this one; the two faults of the years
// apart, so that each test is one of the definition.
fn claim_or_fault(coded: &Coded, control: &Control, sense: Sense) -> Result<Claim, TimeFault>
    requires coded { IsCoded coded.now }
    requires control { IsControl control.now }
    ensures { result ≡ claim_by sense coded.now control.now }
{
    if coded.day > year_length(coded.year) {
        return Err(TimeFault::NoSuchDay);
    }
    let minute = utc_minute_of(coded, control, sense);
    if minute < i64::from(FIRST_DAY) * 1440 {
        return Err(TimeFault::OutOfYears);
    }
    if minute >= i64::from(LAST_DAY + 1) * 1440 {
        return Err(TimeFault::OutOfYears);
    }
    claim_in(minute as u32, coded, control)
}

fn year_length(year: u8) -> u16
    ensures { result ≡ year_length year }
{
    if year % 4 == 0 { 366 } else { 365 }
}

#[tactic(auto, unfolding(crate::specs::Claims::utc_minute))]
fn utc_minute_of(coded: &Coded, control: &Control, sense: Sense) -> i64
    requires coded { IsCoded coded.now }
    requires control { IsControl control.now }
    ensures { result ≡ utc_minute sense coded.now control.now }
{
    let year = u32::from(coded.year);
    let day = year * 365 + (year + 3) / 4 + u32::from(coded.day) - 1;
    let coded_minute = day * 1440 + u32::from(coded.hour) * 60 + u32::from(coded.minute);
    let offset = i64::from(control.offset_half_hours) * 30;
    match sense {
        Sense::Add => i64::from(coded_minute) + offset,
        Sense::Subtract => i64::from(coded_minute) - offset,
    }
}

fn claim_in(minute: u32, coded: &Coded, control: &Control) -> Result<Claim, TimeFault>
    requires served { (FIRST_DAY * 1440 ≤ minute) × (minute < (LAST_DAY + 1) * 1440) }
    requires second { coded.now.second ≤ 60 }
    ensures { result ≡ claim_at minute coded.now control.now }
{
    let day = minute / 1440;
    let minute_of_day = minute % 1440;
    let is_last_minute = minute_of_day == 1439 && month_end(day);
    if coded.second == 60 && !is_last_minute {
        return Err(TimeFault::Second60);
    }
    let mark = mark_in(is_last_minute, coded.second, control);
    if coded.second == 59 && mark == Mark::Delete {
        return Err(TimeFault::DeletedSecond);
    }
    let sod = minute_of_day * 60 + u32::from(coded.second);
    Ok(Claim {
        at: UtcSecond { day, sod },
        mark,
    })
}

fn mark_in(is_last_minute: bool, second: u8, control: &Control) -> Mark
    ensures { result ≡ frame_mark is_last_minute second control.now }
{
    if !is_last_minute || second == 0 || second >= 60 {
        Mark::Unspoken
    } else if !control.leap_pending {
        Mark::NoLeap
    } else if control.leap_delete {
        Mark::Delete
    } else {
        Mark::Insert
    }
}
