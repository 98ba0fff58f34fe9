//! Stamps of events, in numbers.

ghost use Rattle.std.specs.Prelude.{◌≡◌, Some};
ghost use Rattle.c_keeper.specs.Seconds.{stamp_in};

use irig_timekeeper::Stamp;

/// The time of an event.
#[repr(C)]
#[derive(Clone, Copy, Drop)]
pub struct IrigStamp {
    /// The day of the second that had begun.
    pub day: u32,
    /// That second of the day.
    pub sod: u32,
    /// How long before the event it began, in microseconds of the device's counter.
    pub offset_us: u32,
    /// How far from the true instant the two may lie, in microseconds.
    pub bound_us: u32,
}

/// A stamp as C is given it.
pub fn stamp_for_c(stamp: &Stamp) -> IrigStamp
    ensures { stamp_in 0 result ≡ Some stamp.now }
{
    IrigStamp {
        day: stamp.second.day,
        sod: stamp.second.sod,
        offset_us: stamp.offset_us,
        bound_us: stamp.bound_us,
    }
}
