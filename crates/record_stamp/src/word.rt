//! The word on a stamp: by how much it is off, and what may explain it.

ghost use Rattle.std.specs.Prelude.{◌≡◌, ◌≤◌, unsigned_abs, IfSome, IsTrue};
ghost use Rattle.record_stamp.specs.Instants.{IsStamp, IsStampOf};
ghost use Rattle.record_stamp.specs.Late.{IsMoment, late_ns, leaps_of};
ghost use Rattle.record_stamp.specs.declared.word.TheConstants.{NEAR_NS};
ghost use Rattle.record_stamp.specs.Word.{IsReading, IsWord, agrees, exchanged_late, if_near, is_zone, nearest_zone, reading_in, step_ns, word_on, zone_late, zone_near, zone_reading, zone_word};

use crate::instant::Stamp;
use crate::late::{Moment, late_ns};
use irig_time::Leap;
use record_comtrade::Rate;

/// A stamp agrees with lines if it is off by no more than this and the step of a sample, in nanoseconds.
pub const AGREE_NS: u64 = 1_000_000;

/// An explanation leaves a stamp off by no more than this, in nanoseconds.
pub const NEAR_NS: u64 = 60_000_000_000;

/// A zone by which a stamp that names none would be near.
#[derive(Clone, Copy, PartialEq, Eq)]
pub struct ZoneReading {
    /// By how many minutes it would be ahead of UTC: some half hours from -12 h to 14 h, and not 0.
    pub zone_minutes: i16,
    /// By how many nanoseconds the stamp would then be late, at most 60 s either way.
    pub late_ns: i64,
}

/// What lines say of a stamp.
#[derive(Clone, Copy, PartialEq, Eq)]
pub struct Word {
    /// By how many nanoseconds the stamp is later than the lines tell, below 0 if it is earlier.
    pub late_ns: i64,
    /// Within how many nanoseconds it agrees.
    pub within_ns: u64,
    /// By how many it is late with its day and month exchanged, if that is at most 60 s either way.
    pub exchanged_ns: Option<i64>,
    /// As local time of which zone it is near, if it names no zone.
    pub zone: Option<ZoneReading>,
}

impl Word {
    /// Whether the stamp agrees: it is off by no more than a millisecond and the step of a sample.
    pub fn agrees(&self) -> bool
        ensures { result ≡ agrees self.now.within_ns self.now.late_ns }
    {
        self.late_ns.unsigned_abs() <= self.within_ns
    }
}

/// How long it is from a sample to the next one in nanoseconds, rounded down, by the first rate of a record;
/// 0 if it has none, or if that is 0.
pub fn step_ns(rates: &[Rate]) -> u64
    ensures says { result ≡ step_ns rates.now }
    ensures few { result ≤ 1000000000000000 }
{
    match rates {
        [rate, ..] if rate.millionths > 0 => 1_000_000_000_000_000 / rate.millionths,
        _ => 0,
    }
}

/// The word on a stamp, where the lines tell when its sample was. Beside it may be the time that it says
/// with its day and month exchanged, and a leap that is known of a day.
pub fn word_on(
    leap: Option<(u32, Leap)>,
    stamp: Stamp,
    exchanged: Option<Stamp>,
    truth: Moment,
    step_ns: u64,
) -> Word
    requires stamp { IsStamp stamp }
    requires exchanged { IsStampOf exchanged }
    requires truth { IsMoment truth }
    requires step { step_ns ≤ 1000000000000000 }
    ensures says { result ≡ word_on (leaps_of leap) stamp exchanged truth step_ns }
    ensures word { IsWord result }
{
    let late = late_ns(leap, stamp.moment(), truth);
    Word {
        late_ns: late,
        within_ns: AGREE_NS + step_ns,
        exchanged_ns: exchanged_late(leap, exchanged, truth),
        zone: zone_word(stamp.zone_minutes, late),
    }
}

fn exchanged_late(leap: Option<(u32, Leap)>, exchanged: Option<Stamp>, truth: Moment) -> Option<i64>
    requires exchanged { IsStampOf exchanged }
    requires truth { IsMoment truth }
    ensures says { result ≡ exchanged_late (leaps_of leap) exchanged truth }
    ensures near { IfSome result (λ late. unsigned_abs late ≤ NEAR_NS) }
{
    match exchanged {
        Some(stamp) => if_near(late_ns(leap, stamp.moment(), truth)),
        None => None,
    }
}

fn if_near(late: i64) -> Option<i64>
    ensures says { result ≡ if_near late }
    ensures near { IfSome result (λ late. unsigned_abs late ≤ NEAR_NS) }
{
    if late.unsigned_abs() <= NEAR_NS {
        Some(late)
    } else {
        None
    }
}

fn zone_word(zone: Option<i16>, late: i64) -> Option<ZoneReading>
    requires { unsigned_abs late ≤ 3155760002000000000 }
    ensures says { result ≡ zone_word zone late }
    ensures reading { IfSome result IsReading }
{
    match zone {
        Some(_) => None,
        None => zone_reading(late),
    }
}

fn zone_reading(late: i64) -> Option<ZoneReading>
    requires { unsigned_abs late ≤ 3155760002000000000 }
    ensures says { result ≡ zone_reading late }
    ensures reading { IfSome result IsReading }
{
    match zone_near(nearest_zone(late)) {
        Some(minutes) => reading_in(late, minutes),
        None => None,
    }
}

// In that zone, if it is near there.
fn reading_in(late: i64, minutes: i16) -> Option<ZoneReading>
    requires late { unsigned_abs late ≤ 3155760002000000000 }
    requires zone { unsigned_abs minutes ≤ 840 }
    ensures says { result ≡ reading_in late minutes }
    ensures reading { IfSome result IsReading }
{
    let late_ns = zone_late(late, minutes);
    if late_ns.unsigned_abs() <= NEAR_NS {
        Some(ZoneReading {
            zone_minutes: minutes,
            late_ns,
        })
    } else {
        None
    }
}

fn zone_late(late: i64, minutes: i16) -> i64
    requires late { unsigned_abs late ≤ 3155760002000000000 }
    requires zone { unsigned_abs minutes ≤ 840 }
    ensures { result ≡ zone_late late minutes }
{
    late - i64::from(minutes) * 60_000_000_000
}

fn zone_near(minutes: i64) -> Option<i16>
    ensures says { result ≡ zone_near minutes }
    ensures range { IfSome result (λ minutes. unsigned_abs minutes ≤ 840) }
{
    if is_zone(minutes) {
        Some(minutes as i16)
    } else {
        None
    }
}

fn is_zone(minutes: i64) -> bool
    ensures says { result ≡ is_zone minutes }
    ensures range { IsTrue result → unsigned_abs minutes ≤ 840 }
{
    -720 <= minutes && minutes <= 840 && minutes != 0
}

// The half hours nearest to so many nanoseconds, in minutes.
fn nearest_zone(late: i64) -> i64
    requires { unsigned_abs late ≤ 3155760002000000000 }
    ensures { result ≡ nearest_zone late }
{
    let half_hours = (late.unsigned_abs() + 900_000_000_000) / 1_800_000_000_000;
    let minutes = (30 * half_hours) as i64;
    if late < 0 { -minutes } else { minutes }
}
