//! What the control bits of a second truly say.

ghost use Rattle.std.specs.Prelude.{◌≡◌, ◌≤◌, ◌==◌, true, unsigned_abs};
ghost use Rattle.std.specs.List.{list_any};
ghost use Rattle.irig_time.specs.Seconds.{minute_of};
ghost use Rattle.irig_gen.specs.ControlBits.{ends_minute, control_in, offset_sent};
ghost use Rattle.irig_gen.specs.Zones.{in_order};

use crate::zone::{Change, Zone, count_come, minute_at, minute_number};
use irig_control::Control;
use irig_time::{Leap, Sense, UtcSecond};

/// What the control bits say at the second, in this zone and on a day with this leap; quality 0.
pub(crate) fn control_at(
    sense: Sense,
    zone: Zone,
    changes: &[Change],
    leap: Option<Leap>,
    utc: &UtcSecond,
) -> Control
    requires zone { unsigned_abs zone.half_hours ≤ 31 }
    requires order { in_order 0 changes.now ≡ true }
    ensures { result ≡ control_in sense zone changes.now leap utc.now }
{
    let is_last = is_last_minute(utc);
    Control {
        leap_pending: leap.is_some() && is_last,
        leap_delete: matches!(leap, Some(Leap::Delete)) && is_last,
        dst_pending: any_ends(utc, changes),
        dst: zone.dst,
        offset_half_hours: offset(sense, zone.half_hours),
        quality: 0,
    }
}

fn is_last_minute(utc: &UtcSecond) -> bool
    ensures { result ≡ (minute_of utc.now == 1439) }
{
    utc.minute_of_day() == 1439
}

// The next change alone can come with the next minute.
pub(crate) fn any_ends(utc: &UtcSecond, changes: &[Change]) -> bool
    requires { in_order 0 changes.now ≡ true }
    ensures { result ≡ list_any (λ x. ends_minute utc.now x.at) changes.now }
{
    let minute = minute_at(utc);
    match changes.get(count_come(changes, minute)) {
        Some(next) => minute_number(next.at) == minute + 1,
        None => false,
    }
}

fn offset(sense: Sense, half_hours: i8) -> i8
    requires { unsigned_abs half_hours ≤ 31 }
    ensures { result ≡ offset_sent sense half_hours }
{
    match sense {
        Sense::Add => -half_hours,
        Sense::Subtract => half_hours,
    }
}
