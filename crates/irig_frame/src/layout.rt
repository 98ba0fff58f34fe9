//! The fields of decimal digits, and where all fields of a frame lie: the tables of
//! `specs/FieldTable.antt`, for the code.

ghost use Rattle.std.specs.Prelude.{◌≡◌};
ghost use Rattle.irig_frame.specs.Decoder.{least, most};
ghost use Rattle.irig_frame.specs.FieldTable.{units_of, tens_of, hundreds_of, control_places, straight_binary_places, is_marker_place};

/// A field of decimal digits, in the order in which faults are answered.
///
/// Source: IRIG Standard 200-16, format B, the time-of-year subword and the year.
#[derive(Clone, Copy, PartialEq, Eq)]
pub enum Field {
    /// Seconds, 0 to 60.
    Second,
    /// Minutes, 0 to 59.
    Minute,
    /// Hours, 0 to 23.
    Hour,
    /// Day of the year, 1 to 366.
    Day,
    /// Year of the century, 0 to 99.
    Year,
}

impl Field {
    /// The least and the greatest value that a frame may code in the field.
    pub fn bounds(self) -> (u32, u32)
        ensures least { result.0 ≡ least self }
        ensures greatest { result.1 ≡ most self }
    {
        match self {
            Field::Second => (0, 60),
            Field::Minute => (0, 59),
            Field::Hour => (0, 23),
            Field::Day => (1, 366),
            Field::Year => (0, 99),
        }
    }
}

/// An element of the frame, and what a one there adds to its field.
#[derive(Clone, Copy)]
pub struct BitPosition {
    pub element: usize,
    pub weight: u32,
}

/// An array of places, each written `element: weight`.
macro_rules! places {
    ($($element:literal: $weight:literal),+ $(,)?) => {
        [$(BitPosition { element: $element, weight: $weight }),+]
    };
}

static SECOND_UNITS: [BitPosition; 4] = places![1: 1, 2: 2, 3: 4, 4: 8];

static SECOND_TENS: [BitPosition; 3] = places![6: 10, 7: 20, 8: 40];

static MINUTE_UNITS: [BitPosition; 4] = places![10: 1, 11: 2, 12: 4, 13: 8];

static MINUTE_TENS: [BitPosition; 3] = places![15: 10, 16: 20, 17: 40];

static HOUR_UNITS: [BitPosition; 4] = places![20: 1, 21: 2, 22: 4, 23: 8];

static HOUR_TENS: [BitPosition; 2] = places![25: 10, 26: 20];

static DAY_UNITS: [BitPosition; 4] = places![30: 1, 31: 2, 32: 4, 33: 8];

static DAY_TENS: [BitPosition; 4] = places![35: 10, 36: 20, 37: 40, 38: 80];

static DAY_HUNDREDS: [BitPosition; 2] = places![40: 100, 41: 200];

static YEAR_UNITS: [BitPosition; 4] = places![50: 1, 51: 2, 52: 4, 53: 8];

static YEAR_TENS: [BitPosition; 4] = places![55: 10, 56: 20, 57: 40, 58: 80];

static CONTROL: [BitPosition; 18] = places![
    60: 1, 61: 2, 62: 4, 63: 8, 64: 16, 65: 32, 66: 64, 67: 128, 68: 256,
    70: 512, 71: 1024, 72: 2048, 73: 4096, 74: 8192, 75: 16384, 76: 32768, 77: 65536, 78: 131072,
];

static STRAIGHT_BINARY: [BitPosition; 17] = places![
    80: 1, 81: 2, 82: 4, 83: 8, 84: 16, 85: 32, 86: 64, 87: 128, 88: 256,
    90: 512, 91: 1024, 92: 2048, 93: 4096, 94: 8192, 95: 16384, 96: 32768, 97: 65536,
];

pub(crate) fn units(field: Field) -> &'static [BitPosition]
    ensures { result.now ≡ units_of field }
{
    match field {
        Field::Second => &SECOND_UNITS,
        Field::Minute => &MINUTE_UNITS,
        Field::Hour => &HOUR_UNITS,
        Field::Day => &DAY_UNITS,
        Field::Year => &YEAR_UNITS,
    }
}

pub(crate) fn tens(field: Field) -> &'static [BitPosition]
    ensures { result.now ≡ tens_of field }
{
    match field {
        Field::Second => &SECOND_TENS,
        Field::Minute => &MINUTE_TENS,
        Field::Hour => &HOUR_TENS,
        Field::Day => &DAY_TENS,
        Field::Year => &YEAR_TENS,
    }
}

pub(crate) fn hundreds(field: Field) -> &'static [BitPosition]
    ensures { result.now ≡ hundreds_of field }
{
    match field {
        Field::Day => &DAY_HUNDREDS,
        _ => &[],
    }
}

pub(crate) fn control() -> &'static [BitPosition]
    ensures { result.now ≡ control_places }
{
    &CONTROL
}

pub(crate) fn straight_binary() -> &'static [BitPosition]
    ensures { result.now ≡ straight_binary_places }
{
    &STRAIGHT_BINARY
}

/// Whether the element, from 0, holds a marker: the reference marker at 0 or a position identifier
/// at 9, 19, .. and 99.
pub fn is_marker_place(element: usize) -> bool
    ensures { result ≡ is_marker_place element }
{
    element == 0 || element % 10 == 9
}
