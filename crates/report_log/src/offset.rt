//! How far a second is from the true one.

ghost use Rattle.std.specs.Prelude.{◌≡◌};
ghost use Rattle.report_log.specs.Offsets.{place, seconds_after, offset_from, offset_between, same_offset};

use irig_time::UtcSecond;

/// How far a second is from another. One of the two numbers is 0.
#[derive(Clone, Copy)]
pub struct Offset {
    /// How many seconds it is after the other.
    pub ahead: u64,
    /// How many seconds it is before the other.
    pub behind: u64,
}

/// How far a second is from the true one, if there are both.
pub fn offset_between(truth: Option<UtcSecond>, told: Option<UtcSecond>) -> Option<Offset>
    ensures { result ≡ offset_between truth told }
{
    match (truth, told) {
        (Some(truth), Some(told)) => Some(offset_from(truth, told)),
        _ => None,
    }
}

/// How far a second is from the true one.
pub fn offset_from(truth: UtcSecond, told: UtcSecond) -> Offset
    ensures { result ≡ offset_from truth told }
{
    Offset {
        ahead: seconds_after(truth, told),
        behind: seconds_after(told, truth),
    }
}

// A day has 86,400 seconds, and one more if the first of the two is its 23:59:60.
fn seconds_after(first: UtcSecond, second: UtcSecond) -> u64
    ensures { result ≡ seconds_after first second }
{
    let extra = u64::from(first.sod == 86_400 && first.day < second.day);
    (place(second) + extra).saturating_sub(place(first))
}

fn place(second: UtcSecond) -> u64
    ensures { result ≡ place second }
{
    86_400 * u64::from(second.day) + u64::from(second.sod)
}

/// Whether two offsets are the same.
pub fn same_offset(one: Option<Offset>, other: Option<Offset>) -> bool
    ensures { result ≡ same_offset one other }
{
    match (one, other) {
        (Some(one), Some(other)) => one.ahead == other.ahead && one.behind == other.behind,
        (None, None) => true,
        _ => false,
    }
}
