//! The time that a frame codes.

ghost use Rattle.std.specs.Prelude.{◌↔◌, IsTrue};
ghost use Rattle.irig_frame.specs.Decoder.{IsCoded};

/// The time and the further bits that a frame codes.
///
/// Source: IRIG Standard 200-16, format B: time of year, year, control functions, straight binary
/// seconds. Whether the year has the day is not asked here.
#[repr(C)]
#[derive(Clone, Copy, PartialEq, Eq)]
pub struct Coded {
    /// Second of the minute, 0 to 60; 60 is an inserted leap second.
    pub second: u8,
    /// Minute of the hour, 0 to 59.
    pub minute: u8,
    /// Hour of the day, 0 to 23.
    pub hour: u8,
    /// Day of the year, 1 to 366.
    pub day: u16,
    /// Year of the century, 0 to 99, for 2000 to 2099.
    pub year: u8,
    /// The 18 control bits, below 2^18, bit 0 from element 60.
    pub control: u32,
    /// The straight binary seconds, below 2^17, bit 0 from element 80.
    pub sbs: u32,
}

/// Whether a frame can code these values: each lies in the range that [`Coded`] gives.
pub fn in_range(coded: &Coded) -> bool
    ensures { IsTrue result ↔ IsCoded coded.now }
{
    coded.second <= 60
        && coded.minute <= 59
        && coded.hour <= 23
        && (1..=366).contains(&coded.day)
        && coded.year <= 99
        && coded.control < 1 << 18
        && coded.sbs < 1 << 17
}
