//! The faults of a frame.

use crate::layout::Field;

/// What is wrong with a frame, in the order in which faults are answered.
#[derive(Clone, Copy, PartialEq, Eq)]
pub enum FrameFault {
    /// Fewer than 100 symbols: so many, 0 to 99.
    Short(u8),
    /// More than 100 symbols.
    Long,
    /// The lowest wrong element, 0 to 99, is a bad pulse.
    Pulse(u8),
    /// The lowest wrong element, 0 to 99, is a marker where data belongs, or data where a marker
    /// does.
    Marker(u8),
    /// The first wrong field has a decimal digit above 9.
    Digit(Field),
    /// The first wrong field has decimal digits, and a value out of its range.
    Range(Field),
}
