//! Voltages, and the levels that they say by a threshold.

ghost use Rattle.std.specs.Prelude.{◌≡◌, ◌<◌, IfSome};
ghost use Rattle.record_cells.specs.Volts.{at_place, distance, greater, place_at, place_by, place_of, swung, threshold_of};

use crate::scale::scaled_below;
use record_text::decimal_of;

/// The place of 0 V: a place is so many billionths above -1,000,000,000.
const MIDDLE: u64 = 1_000_000_000_000_000_000;

/// A voltage above which a line is high, in the unit of its column.
#[derive(Clone, Copy, PartialEq, Eq)]
pub struct Threshold {
    pub(crate) place: u64,
}

impl Threshold {
    /// The voltage that a text spells, as `1.5` or `-2e-3`, to a billionth. None if it is no
    /// decimal number, or 1,000,000,000 or more off 0.
    pub fn of(text: &[u8]) -> Option<Threshold>
        ensures { result ≡ threshold_of text.now }
    {
        match place_of(text) {
            Some(place) => Some(Threshold { place }),
            None => None,
        }
    }

    /// The threshold at a place, of so many billionths above -1,000,000,000 or another beginning.
    pub fn at(place: u64) -> Threshold
        ensures { result ≡ at_place place }
    {
        Threshold { place }
    }

    /// Its place: so many billionths above -1,000,000,000.
    pub fn place(self) -> u64
        ensures { result ≡ place_at self }
    {
        self.place
    }
}

/// How far a line was off the threshold at most so far, in billionths, and its level.
#[derive(Clone, Copy)]
pub struct Swing {
    /// The most, in billionths of the unit of its column.
    pub most: u64,
    /// Whether it is high.
    pub is_high: bool,
}

impl Swing {
    /// With a voltage more: within a tenth of the most that it was off the threshold its level
    /// stays.
    pub fn swung(self, threshold: Threshold, place: u64) -> Swing
        ensures { result ≡ swung self threshold place }
    {
        let off = distance(threshold.place, place);
        let most = greater(self.most, off);
        let is_high = if u128::from(off) * 10 > u128::from(most) {
            threshold.place < place
        } else {
            self.is_high
        };
        Swing { most, is_high }
    }
}

/// The place of the voltage that a text spells.
pub fn place_of(text: &[u8]) -> Option<u64>
    ensures place { result ≡ place_of text.now }
    ensures few { IfSome result (λ place. place < 2000000000000000000) }
{
    match decimal_of(text) {
        Some(decimal) => place_by(
            decimal.is_minus,
            scaled_below(MIDDLE, decimal.number, decimal.up + 9, decimal.down),
        ),
        None => None,
    }
}

fn place_by(is_minus: bool, billionths: Option<u64>) -> Option<u64>
    requires { IfSome billionths (λ n. n < 1000000000000000000) }
    ensures place { result ≡ place_by is_minus billionths }
    ensures few { IfSome result (λ place. place < 2000000000000000000) }
{
    match billionths {
        Some(billionths) if is_minus => Some(MIDDLE - billionths),
        Some(billionths) => Some(MIDDLE + billionths),
        None => None,
    }
}

fn distance(a: u64, b: u64) -> u64
    ensures { result ≡ distance a b }
{
    if a <= b { b - a } else { a - b }
}

fn greater(a: u64, b: u64) -> u64
    ensures { result ≡ greater a b }
{
    if a <= b { b } else { a }
}
