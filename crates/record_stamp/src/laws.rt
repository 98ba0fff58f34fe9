//! Laws of the word on a stamp, over its definitions. They have no code.

ghost use Rattle.std.specs.Prelude.{◌≡◌, ◌↔◌, ◌+◌, ◌*◌, ℕ, ℤ, pos, ◌-ℤ◌, Some};
ghost use Rattle.irig_time.specs.Timelines.{IsSecond, TimelineValue};
ghost use Rattle.record_stamp.specs.Late.{late_ns};
ghost use Rattle.record_stamp.specs.Word.{Explains, zone_reading};

use crate::late::Moment;
use crate::word::ZoneReading;

/// A stamp is late by what passes on a timeline: if it says the m-th second and the lines tell the n-th, by
/// m less n seconds, and by what both say beyond them. That is below 0 exactly if the stamp names an earlier
/// time, across a leap second too.
pub fn lateness_is_elapsed_time()
    ensures { (t : TimelineValue) (told truth : Moment) (m n : ℕ)
        → IsSecond t m told.at → IsSecond t n truth.at
        → late_ns t.leaps told truth
        ≡ pos (1000000000 * m + told.nanoseconds) -ℤ pos (1000000000 * n + truth.nanoseconds) }
{}

/// A zone is named exactly if it explains how late a stamp is: it is some half hours, and the stamp is then
/// within 60 s.
pub fn zones_explain()
    ensures { (late : ℤ) (reading : ZoneReading)
        → (zone_reading late ≡ Some reading) ↔ Explains late reading }
{}
