//! The objects of a scenario's line.

/// An object of a scenario's line.
#[derive(Clone, Copy)]
pub enum JsonPath {
    /// The line's own.
    Line,
    /// A leap of a plant line.
    Leap(usize),
    /// A generator.
    Generator(usize),
    /// A change of a generator's zone, after the generator.
    Change(usize, usize),
    /// A reader, or a device.
    Reader(usize),
    /// The table of one.
    Table(usize),
    /// A leap of the table of one, after it.
    TableLeap(usize, usize),
}
