//! Seconds, counted from the beginning of a day.

ghost use Rattle.std.specs.Prelude.{◌≡◌, ◌≤◌, IfSome, IsTrue};
ghost use Rattle.irig_time.specs.Seconds.{IsValid, is_valid};
ghost use Rattle.irig_time.specs.Timelines.{day_length, second_within};
ghost use Rattle.record_short.specs.Searches.{AreServed, if_served, listed, second_in, seconds_about, served};

use irig_time::{Leap, UtcSecond, relations_compute, valid};

/// Five seconds in a row, as far as they are served.
#[derive(Clone, Copy)]
pub(crate) struct Five {
    pub(crate) two_before: Option<UtcSecond>,
    pub(crate) before: Option<UtcSecond>,
    pub(crate) here: Option<UtcSecond>,
    pub(crate) after: Option<UtcSecond>,
    pub(crate) two_after: Option<UtcSecond>,
}

/// How many seconds a day has.
pub(crate) fn day_length(leap: Option<(u32, Leap)>, day: u32) -> u32
    ensures length { result ≡ day_length (listed leap) day }
    ensures least { 86399 ≤ result }
    ensures most { result ≤ 86401 }
{
    match leap {
        Some((at, leap)) if at == day => match leap {
            Leap::Insert => 86_401,
            Leap::Delete => 86_399,
        },
        _ => 86_400,
    }
}

/// The second of a number in a day or the two days after it, if it is served.
pub(crate) fn second_in(leap: Option<(u32, Leap)>, day: u32, number: u32) -> Option<UtcSecond>
    requires { day ≤ 36523 }
    ensures second { result ≡ second_in leap day number }
    ensures valid { IfSome result IsValid }
{
    served(second_within(leap, day, number))
}

fn served(second: Option<UtcSecond>) -> Option<UtcSecond>
    ensures second { result ≡ served second }
    ensures valid { IfSome result IsValid }
{
    match second {
        Some(second) => if_served(second),
        None => None,
    }
}

fn if_served(second: UtcSecond) -> Option<UtcSecond>
    ensures second { result ≡ if_served second }
    ensures valid { IfSome result IsValid }
{
    if is_served(&second) {
        Some(second)
    } else {
        None
    }
}

fn is_served(second: &UtcSecond) -> bool
    ensures value { result ≡ is_valid second.now }
    ensures valid { IsTrue result → IsValid second.now }
{
    relations_compute();
    valid(second)
}

fn second_within(leap: Option<(u32, Leap)>, day: u32, number: u32) -> Option<UtcSecond>
    requires { day ≤ 36523 }
    ensures { result ≡ second_within (listed leap) day 3 number }
{
    let length = day_length(leap, day);
    if number < length {
        return Some(UtcSecond { day, sod: number });
    }
    second_later(leap, day + 1, number - length)
}

fn second_later(leap: Option<(u32, Leap)>, day: u32, number: u32) -> Option<UtcSecond>
    requires { day ≤ 36524 }
    ensures { result ≡ second_within (listed leap) day 2 number }
{
    let length = day_length(leap, day);
    if number < length {
        return Some(UtcSecond { day, sod: number });
    }
    second_last(leap, day + 1, number - length)
}

fn second_last(leap: Option<(u32, Leap)>, day: u32, number: u32) -> Option<UtcSecond>
    ensures { result ≡ second_within (listed leap) day 1 number }
{
    if number < day_length(leap, day) {
        Some(UtcSecond { day, sod: number })
    } else {
        None
    }
}

/// The five seconds about one.
pub(crate) fn seconds_about(leap: Option<(u32, Leap)>, day: u32, number: u32) -> Five
    requires day { day ≤ 36523 }
    requires number { number ≤ 1000000 }
    ensures seconds { result ≡ seconds_about leap day number }
    ensures valid { AreServed result }
{
    Five {
        two_before: second_in(leap, day, number.saturating_sub(2)),
        before: second_in(leap, day, number.saturating_sub(1)),
        here: second_in(leap, day, number),
        after: second_in(leap, day, number + 1),
        two_after: second_in(leap, day, number + 2),
    }
}
