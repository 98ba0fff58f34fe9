//! Lines on channels of either kind.

ghost use Rattle.std.specs.Prelude.{◌≡◌, ◌≤◌, ◌<◌, length, slice_get};
ghost use Rattle.record_comtrade.specs.Reads.{value_of};
ghost use Rattle.record_samples.specs.Lines.{analog_of, heard, heard_line, heard_row, level_of_line, levels, line_at, line_in_row, line_of, lines_of};

use crate::row::level_of;
use record_analog::{Gauge, gauge_of, number_in, text_number};
use record_cells::Threshold;
use record_comtrade::{Config, Fault, Form, RowField, bit_in};
use record_text::field_of;

/// A digital channel, and its level.
#[derive(Clone, Copy)]
pub struct Bit {
    pub(crate) place: u32,
    pub(crate) is_high: bool,
}

/// A line that is judged, by its channel.
#[derive(Clone, Copy)]
pub enum Line {
    /// It is none: fewer lines are judged.
    Unused,
    /// It is a digital channel.
    Digital(Bit),
    /// It is an analog one.
    Analog(Gauge),
}

/// Up to five lines, and their levels.
#[derive(Clone, Copy)]
pub struct Lines {
    pub(crate) first: Line,
    pub(crate) second: Line,
    pub(crate) third: Line,
    pub(crate) fourth: Line,
    pub(crate) fifth: Line,
}

/// Why a channel is no line.
#[derive(Clone, Copy, PartialEq, Eq)]
pub enum LineFault {
    /// The analog channel at this place among them, from 0, has no threshold.
    NoThreshold(usize),
    /// The line of an analog channel in the configuration is at fault.
    Config(Fault),
}

impl Lines {
    /// The channels at up to five places, of which the analog ones come after the digital ones, and
    /// are high above the threshold; before any sample. A place beyond all channels is no line.
    pub fn of(
        config: &Config,
        places: &[usize],
        threshold: Option<Threshold>,
    ) -> Result<Lines, LineFault>
        ensures { result ≡ lines_of (value_of config.now) threshold places.now }
    {
        let first = line_at(config, places, 0, threshold)?;
        let second = line_at(config, places, 1, threshold)?;
        let third = line_at(config, places, 2, threshold)?;
        let fourth = line_at(config, places, 3, threshold)?;
        let fifth = line_at(config, places, 4, threshold)?;
        Ok(Lines {
            first,
            second,
            third,
            fourth,
            fifth,
        })
    }

    /// Their levels, of which the first has the bit of 1.
    pub(crate) fn levels(&self) -> u8
        ensures { result ≡ levels self.now }
    {
        level_of_line(&self.first)
            + 2 * level_of_line(&self.second)
            + 4 * level_of_line(&self.third)
            + 8 * level_of_line(&self.fourth)
            + 16 * level_of_line(&self.fifth)
    }

    /// With a sample more, which is numbers.
    pub(crate) fn heard(&self, form: Form, offset: usize, sample: &[u8]) -> Lines
        requires { offset ≤ length sample.now }
        ensures { result ≡ heard form offset self.now sample.now }
    {
        let digital = sample.split_at(offset).1;
        Lines {
            first: heard_line(form, &self.first, sample, digital),
            second: heard_line(form, &self.second, sample, digital),
            third: heard_line(form, &self.third, sample, digital),
            fourth: heard_line(form, &self.fourth, sample, digital),
            fifth: heard_line(form, &self.fifth, sample, digital),
        }
    }

    /// With a sample more, which is a row with so many fields before its digital channels.
    pub(crate) fn heard_row(&self, offset: usize, row: &[u8]) -> Result<Lines, RowField>
        requires { offset ≤ 2000000 }
        ensures { result ≡ heard_row offset self.now row.now }
    {
        let first = line_in_row(offset, &self.first, row)?;
        let second = line_in_row(offset, &self.second, row)?;
        let third = line_in_row(offset, &self.third, row)?;
        let fourth = line_in_row(offset, &self.fourth, row)?;
        let fifth = line_in_row(offset, &self.fifth, row)?;
        Ok(Lines {
            first,
            second,
            third,
            fourth,
            fifth,
        })
    }
}

fn line_at(
    config: &Config,
    places: &[usize],
    at: usize,
    threshold: Option<Threshold>,
) -> Result<Line, LineFault>
    ensures { result ≡ line_at (value_of config.now) threshold (slice_get places.now at) }
{
    match places.get(at) {
        Some(place) => line_of(config, *place, threshold),
        None => Ok(Line::Unused),
    }
}

fn line_of(config: &Config, place: usize, threshold: Option<Threshold>) -> Result<Line, LineFault>
    ensures { result ≡ line_of (value_of config.now) threshold place }
{
    let counts = config.counts();
    let digitals = counts.digitals as usize;
    if place < digitals {
        return Ok(Line::Digital(Bit {
            place: place as u32,
            is_high: false,
        }));
    }
    if place - digitals < counts.analogs as usize {
        analog_of(config, place - digitals, threshold)
    } else {
        Ok(Line::Unused)
    }
}

fn analog_of(config: &Config, place: usize, threshold: Option<Threshold>) -> Result<Line, LineFault>
    requires { place < config.now.counts.analogs }
    ensures { result ≡ analog_of (value_of config.now) place threshold }
{
    let Some(threshold) = threshold else {
        return Err(LineFault::NoThreshold(place));
    };
    match gauge_of(config, place, threshold) {
        Ok(gauge) => Ok(Line::Analog(gauge)),
        Err(fault) => Err(LineFault::Config(fault)),
    }
}

fn level_of_line(line: &Line) -> u8
    ensures level { result ≡ level_of_line line.now }
    ensures few { result ≤ 1 }
{
    match line {
        Line::Unused => 0,
        Line::Digital(bit) => u8::from(bit.is_high),
        Line::Analog(gauge) => u8::from(gauge.is_high()),
    }
}

fn heard_line(form: Form, line: &Line, sample: &[u8], digital: &[u8]) -> Line
    ensures { result ≡ heard_line form line.now sample.now digital.now }
{
    match line {
        Line::Unused => Line::Unused,
        Line::Digital(bit) => Line::Digital(Bit {
            place: bit.place,
            is_high: bit_in(digital, bit.place as usize) == 1,
        }),
        Line::Analog(gauge) => Line::Analog(gauge.heard(number_in(form, sample, gauge.place()))),
    }
}

fn line_in_row(offset: usize, line: &Line, row: &[u8]) -> Result<Line, RowField>
    requires { offset ≤ 2000000 }
    ensures { result ≡ line_in_row offset line.now row.now }
{
    match line {
        Line::Unused => Ok(Line::Unused),
        Line::Digital(bit) => match level_of(field_of(row, offset + bit.place as usize)) {
            Some(level) => Ok(Line::Digital(Bit {
                place: bit.place,
                is_high: level == 1,
            })),
            None => Err(RowField::Level(bit.place as usize)),
        },
        Line::Analog(gauge) => match text_number(field_of(row, 2 + gauge.place())) {
            Some(number) => Ok(Line::Analog(gauge.heard(number))),
            None => Err(RowField::Value(gauge.place())),
        },
    }
}
