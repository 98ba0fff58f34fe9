//! The time that a frame codes for a second of UTC, and the frame of the second.

ghost use Rattle.std.specs.Prelude.{◌≡◌, ◌<◌, ◌≤◌, ◌^◌, unsigned_abs};
ghost use Rattle.irig_frame.specs.Decoder.{IsCoded};
ghost use Rattle.irig_frame.specs.Encoder.{frame_of_coded};
ghost use Rattle.irig_control.specs.Control.{IsControl};
ghost use Rattle.irig_control.specs.Parity.{with_parity};
ghost use Rattle.irig_time.specs.Seconds.{IsValid};
ghost use Rattle.irig_time.specs.CodedTime.{IsCodedOf};
ghost use Rattle.irig_time.specs.Frames.{IsFrameOfSecond, frame_of_second};

use crate::calendar::year_and_day;
use crate::second::UtcSecond;
use irig_control::{Control, Parity, encode_with_parity, pack};
use irig_frame::{Coded, Symbol};

/// What a clock shows that is `local_half_hours` half hours ahead of UTC, -31 to 31, with the
/// straight binary seconds of that time and without control bits.
///
/// The second must be a [`valid`](crate::valid) one. A leap second lies inside the minute 23:59
/// UTC, so a coded minute is converted with 1440 minutes a day. The straight binary seconds are
/// 3600h + 60m + s of the coded time, also at second 60; that is this project's profile of IRIG
/// Standard 200-16.
pub fn coded_of(utc: &UtcSecond, local_half_hours: i8) -> Coded
    requires valid { IsValid utc.now }
    requires local { unsigned_abs local_half_hours ≤ 31 }
    ensures time { IsCodedOf utc.now local_half_hours result }
    ensures in_range { IsCoded result }
{
    let utc_minute = utc.minute_of_day();
    let second = utc.sod - utc_minute * 60;
    let coded_minute = (i64::from(utc.day * 1440 + utc_minute)
        + i64::from(local_half_hours) * 30) as u32;
    let (year, day) = year_and_day(coded_minute / 1440);
    let minute_of_day = coded_minute % 1440;
    Coded {
        second: second as u8,
        minute: (minute_of_day % 60) as u8,
        hour: (minute_of_day / 60) as u8,
        day,
        year,
        control: 0,
        sbs: minute_of_day * 60 + second,
    }
}

/// What the frame of a [`valid`](crate::valid) second reads as, but for its parity bit, which is 0:
/// with these control bits, by a clock `half_hours` half hours ahead of UTC, -31 to 31.
///
/// The control bits are in range ([`irig_control::in_range`]).
pub fn value_of_second(utc: &UtcSecond, half_hours: i8, control: &Control) -> Coded
    requires valid { IsValid utc.now }
    requires local { unsigned_abs half_hours ≤ 31 }
    requires control { IsControl control.now }
    ensures in_range { IsCoded result }
    ensures unused { result.control < 2 ^ 14 }
    ensures frame { (parity : Parity) → IsFrameOfSecond parity utc.now half_hours control.now
        (with_parity parity (frame_of_coded result)) }
    ensures value { (parity : Parity) → with_parity parity (frame_of_coded result)
        ≡ frame_of_second parity utc.now half_hours control.now }
{
    Coded {
        control: pack(control),
        ..coded_of(utc, half_hours)
    }
}

/// The frame of a [`valid`](crate::valid) second with these control bits, by a clock `half_hours`
/// half hours ahead of UTC, -31 to 31.
///
/// The control bits are in range ([`irig_control::in_range`]). The frame has the parity, and its
/// unused bits and elements are 0; that is this project's profile of IRIG Standard 200-16 and IEEE
/// 1344-1995.
pub fn frame_of_second(
    parity: Parity,
    utc: &UtcSecond,
    half_hours: i8,
    control: &Control,
) -> [Symbol; 100]
    requires valid { IsValid utc.now }
    requires local { unsigned_abs half_hours ≤ 31 }
    requires control { IsControl control.now }
    ensures frame { IsFrameOfSecond parity utc.now half_hours control.now result }
    ensures value { result ≡ frame_of_second parity utc.now half_hours control.now }
{
    encode_with_parity(&value_of_second(utc, half_hours, control), parity)
}
