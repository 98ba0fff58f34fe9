//! What a stamp says.

ghost use Rattle.std.specs.Prelude.{◌≡◌, IfOk};
ghost use Rattle.record_stamp.specs.Instants.{IsStamp, IsStampOf};
ghost use Rattle.record_stamp.specs.Codes.{IsZoneOf};
ghost use Rattle.record_stamp.specs.Stamps.{exchanged, meaning, other_order};

use crate::instant::{Order, Stamp, StampFault, instant_of, order_of};
use crate::parts::{DateNumbers, clock_numbers, date_numbers};

/// The time that a stamp says by its date and its time, two fields of a line, in a record of this edition,
/// whose times are so many minutes ahead of UTC: or why it is none.
pub fn meaning(
    edition: u64,
    zone: Option<i16>,
    date: &[u8],
    clock: &[u8],
) -> Result<Stamp, StampFault>
    requires { IsZoneOf zone }
    ensures says { result ≡ meaning edition zone date.now clock.now }
    ensures stamp { IfOk result IsStamp }
{
    let Some(date) = date_numbers(date) else {
        return Err(StampFault::Date);
    };
    let Some(clock) = clock_numbers(clock) else {
        return Err(StampFault::Clock);
    };
    instant_of(order_of(edition, date), zone, date, clock)
}

/// The time that it says with its day and month exchanged, if that is another one.
pub fn exchanged(edition: u64, zone: Option<i16>, date: &[u8], clock: &[u8]) -> Option<Stamp>
    requires { IsZoneOf zone }
    ensures says { result ≡ exchanged edition zone date.now clock.now }
    ensures stamp { IsStampOf result }
{
    let Some(date) = date_numbers(date) else {
        return None;
    };
    let Some(clock) = clock_numbers(clock) else {
        return None;
    };
    if date.first == date.second {
        return None;
    }
    let order = other_order(order_of(edition, date));
    match instant_of(order, zone, date, clock) {
        Ok(stamp) => Some(stamp),
        Err(_) => None,
    }
}

fn other_order(order: Order) -> Order
    ensures { result ≡ other_order order }
{
    match order {
        Order::DayFirst => Order::MonthFirst,
        Order::MonthFirst => Order::DayFirst,
    }
}
