//! Days and their dates, on `jiff_core`, the plain dates under `jiff`.

ghost use Rattle.std.specs.Prelude.{◌≡◌, ◌↔◌, ◌≤◌, ◌<◌, ◌+◌, ℕ, pos, IsTrue, IfSome, Some};
ghost use Rattle.jiff_core.specs.Date.{epoch_day};
ghost use Rattle.irig_time.specs.declared.second.TheConstants.{LAST_DAY};
ghost use Rattle.irig_time.specs.Days.{IsMonthEnd, is_month_end, IsDateOf, day_number, year_length};

use crate::second::LAST_NAMED_DAY;
use jiff_core::civil::Date;

// The days from the first date of `jiff_core`, -9999-01-01, to 2000-01-01.
const DAYS_TO_2000: u32 = 4_382_544;

/// Whether the day, counted from 2000-01-01 and at most 36524, is the last of its month.
pub fn month_end(day: u32) -> bool
    requires { day ≤ 36524 }
    ensures calendar { IsTrue result ↔ IsMonthEnd day }
    ensures test { day ≤ LAST_DAY → result ≡ is_month_end day }
{
    date_of(day + 1).day == 1
}

pub(crate) fn date_of(day: u32) -> Date
    requires { day ≤ 36525 }
    ensures { epoch_day result ≡ pos (day + 10957) }
{
    Date::from_days_since_min(DAYS_TO_2000 + day)
}

/// The year from 2000, and the place in it, from 1.
pub(crate) fn year_and_day(day: u32) -> (u8, u16)
    requires { day ≤ 36524 }
    ensures day { day_number result.0 result.1 ≡ day }
    ensures year { result.0 ≤ 99 }
    ensures place { (1 ≤ result.1) × (result.1 ≤ year_length result.0) }
{
    let date = date_of(day);
    ((date.year - 2000) as u8, date.day_of_year())
}

pub(crate) fn date_parts(day: u32) -> (u32, u32, u32)
    requires { day ≤ 36524 }
    ensures date { IsDateOf day (pos result.0) result.1 result.2 }
    ensures year { result.0 < 2100 }
    ensures month { result.1 ≤ 12 }
    ensures day { result.2 ≤ 31 }
{
    let date = date_of(day);
    (date.year as u32, u32::from(date.month), u32::from(date.day))
}

pub(crate) fn day_of(year: u32, month: u32, day: u32) -> Option<u32>
    requires { (year < 10000) × (month < 100) × (day < 100) }
    ensures found { (n : ℕ) → n ≤ 36524 → IsDateOf n (pos year) month day
        → result ≡ Some n }
    ensures bounded { IfSome result (λ n. n ≤ 36524) }
{
    match Date::new(year as i16, month as i8, day as i8) {
        Ok(found) => named_day(found),
        Err(_) => None,
    }
}

// The day of a date that has a text.
fn named_day(found: Date) -> Option<u32>
    ensures found { (n : ℕ) → n ≤ 36524 → epoch_day found ≡ pos (n + 10957)
        → result ≡ Some n }
    ensures bounded { IfSome result (λ n. n ≤ 36524) }
{
    let days = found.days_since_min().checked_sub(DAYS_TO_2000)?;
    if days <= LAST_NAMED_DAY {
        Some(days)
    } else {
        None
    }
}
