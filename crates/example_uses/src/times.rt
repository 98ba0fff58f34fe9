//! Uses of `irig_time`.

ghost use Rattle.std.specs.Prelude.{◌≡◌, ◌<◌, ◌+◌, Some, option_map, IsTrue};
ghost use Rattle.irig_time.specs.Seconds.{IsValid};
ghost use Rattle.irig_time.specs.TextValues.{second_text};
ghost use Rattle.irig_time.specs.Timelines.{second_at};

use irig_time::{Timeline, UtcSecond, read_text, write_text};

/// The text of a timeline's n-th second, its leap seconds counted, if it has one.
pub fn text_at(timeline: &Timeline, number: u64) -> Option<[u8; 20]>
    ensures { option_map second_text (second_at timeline.now number) ≡ result }
{
    let utc = timeline.at(number)?;
    Some(write_text(&utc))
}

/// A second comes back from its own text.
pub fn through_text(utc: &UtcSecond) -> Option<UtcSecond>
    requires { IsValid utc.now }
    ensures { result ≡ Some utc.now }
{
    read_text(&write_text(utc))
}

/// Whether the second after a timeline's n-th one is a leap second.
pub fn is_leap_next(timeline: &Timeline, number: u64) -> bool
    requires { number < 4294967295 }
    ensures { IsTrue result → (u : UtcSecond)
        × (second_at timeline.now (number + 1) ≡ Some u) × (u.sod ≡ 86400) }
{
    match timeline.at(number + 1) {
        Some(utc) => utc.sod == 86400,
        None => false,
    }
}
