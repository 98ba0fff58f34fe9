//! The level of an analog channel.

ghost use Rattle.std.specs.Prelude.{◌≡◌, ◌+◌, ◌≤◌, ◌<◌, IfSome};
ghost use Rattle.record_comtrade.specs.Reads.{value_of};
ghost use Rattle.record_analog.specs.Gauges.{gauge_of, heard};

use crate::factor::{addend_of, among_numbers, factor_of};
use crate::number::turned;
use crate::parts::Gauge;
use record_cells::{Swing, Threshold};
use record_comtrade::{Config, Fault, Field};

impl Gauge {
    /// Its place among the analog channels, from 0.
    pub fn place(self) -> usize
        ensures place { result ≡ self.place }
        ensures few { result < 4294967296 }
    {
        self.place as usize
    }

    /// Whether it is high.
    pub fn is_high(self) -> bool
        ensures { result ≡ self.swing.is_high }
    {
        self.swing.is_high
    }

    /// With one more number, by its place; it keeps its level if that is missing.
    pub fn heard(self, number: Option<u64>) -> Gauge
        requires { IfSome number (λ place. place ≤ 18000000000000000000) }
        ensures { result ≡ heard self number }
    {
        match number {
            Some(place) => Gauge {
                place: self.place,
                is_minus: self.is_minus,
                threshold: self.threshold,
                swing: self
                    .swing
                    .swung(self.threshold, turned(self.is_minus, place)),
            },
            None => self,
        }
    }
}

/// The analog channel at a place among those of a configuration, from 0, which is high above the
/// threshold, before any number; or that its factor or its addend can't be read.
pub fn gauge_of(config: &Config, place: usize, threshold: Threshold) -> Result<Gauge, Fault>
    requires { place < config.now.counts.analogs }
    ensures { result ≡ gauge_of (value_of config.now) place threshold }
{
    let Some(factor) = factor_of(config.analog_field(place, 5)) else {
        return Err(fault_of(place, Field::Factor));
    };
    let Some(addend) = addend_of(config.analog_field(place, 6)) else {
        return Err(fault_of(place, Field::Addend));
    };
    let number = among_numbers(factor, addend, threshold.place());
    Ok(Gauge {
        place: place as u32,
        is_minus: factor.is_minus,
        threshold: Threshold::at(number),
        swing: Swing {
            most: 0,
            is_high: false,
        },
    })
}

// A fault of the line of the channel at a place.
fn fault_of(place: usize, field: Field) -> Fault
    requires { place ≤ 1999998 }
    ensures { result ≡ record { line = place + 3; field = field } }
{
    Fault {
        line: place as u64 + 3,
        field,
    }
}
