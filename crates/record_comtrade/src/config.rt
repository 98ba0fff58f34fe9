//! A configuration.

ghost use Rattle.std.specs.Prelude.{◌≡◌, ◌+◌, ◌≤◌, ◌<◌, length, IfOk, IfErr, IfSome, Ok};
ghost use Rattle.record_text.specs.Fields.{field};
ghost use Rattle.record_comtrade.specs.Texts.{texts_of};
ghost use Rattle.record_comtrade.specs.Reads.{FaultFits, value_of};
ghost use Rattle.record_comtrade.specs.Configs.{config_by, config_of, long_from, rates_place, text_at};

use crate::counts::counts_of;
use crate::fault::{ConfigFault, Fault, Field};
use crate::parts::{Config, Counts, Rate, Tail};
use crate::rates::{rate_lines, rates_of};
use crate::tail::{tail_of, text_at};
use crate::text::Text;
use record_text::field_of;
use std::alloc::Global;

impl Config {
    /// The year of the edition, and the numbers of channels.
    pub fn counts(&self) -> Counts
        ensures { result ≡ self.now.counts }
    {
        self.counts
    }

    /// The rates of samples, in the order of their last ones. None where samples have times of their own.
    pub fn rates(&self) -> &[Rate]
        ensures { result.now ≡ self.now.rates.items }
    {
        self.rates.as_slice()
    }

    /// How samples are stored, and the multiple of their own times.
    pub fn tail(&self) -> Tail
        ensures { result ≡ self.now.tail }
    {
        self.tail
    }

    /// A field of the line of an analog channel, by its place among them, from 0: field 1 is its name, 4 its
    /// unit, 5 its factor and 6 its addend.
    pub fn analog_field(&self, place: usize, at: usize) -> &[u8]
        requires { place < self.now.counts.analogs }
        ensures { result.now ≡ field at (text_at (texts_of self.now.lines.items) (2 + place)) }
    {
        field_of(text_at(self.lines.as_slice(), 2 + place), at)
    }

    /// The name of a digital channel, by its place among them, from 0. Where it is empty, callers write D and
    /// the number from 1.
    pub fn digital_name(&self, place: usize) -> &[u8]
        requires { place < self.now.counts.digitals }
        ensures { result.now ≡ field 1
            (text_at (texts_of self.now.lines.items) (2 + self.now.counts.analogs + place)) }
    {
        let line = 2 + self.counts.analogs as usize + place;
        field_of(text_at(self.lines.as_slice(), line), 1)
    }

    /// A field of a line below the rates: line 0 has the date and the time of the first sample (fields 0 and
    /// 1), line 1 those of the trigger, and since 2013 line 4 has the time code and the local code, and line 5
    /// the quality and the leap field. It is empty where the text has none.
    pub fn field_below(&self, line: usize, at: usize) -> &[u8]
        requires { line ≤ 5 }
        ensures { result.now ≡ field at
            (text_at (texts_of self.now.lines.items) (self.now.stamps + line)) }
    {
        field_of(text_at(self.lines.as_slice(), self.stamps + line), at)
    }

    /// Of these lines.
    pub(crate) fn of(alloc: Global, lines: Vec<Text>) -> Result<Config, ConfigFault>
        ensures says { IfOk result (λ config. config_of (texts_of lines.items) ≡ Ok (value_of config)) }
        ensures refuses { IfErr result (λ fault. FaultFits fault (config_of (texts_of lines.items))) }
    {
        if let Some(place) = long_line(lines.as_slice()) {
            return Err(ConfigFault::Refused(Fault::at(place, Field::Line)));
        }
        let counts = match counts_of(lines.as_slice()) {
            Ok(counts) => counts,
            Err(fault) => return Err(ConfigFault::Refused(fault)),
        };
        match rate_lines(lines.as_slice(), rates_place(counts)) {
            Ok(count) => Config::with_rates(alloc, lines, counts, count),
            Err(fault) => Err(ConfigFault::Refused(fault)),
        }
    }

    // With rates of so many lines.
    fn with_rates(
        alloc: Global,
        lines: Vec<Text>,
        counts: Counts,
        count: u64,
    ) -> Result<Config, ConfigFault>
        requires few { count ≤ 999 }
        requires channels { counts.analogs + counts.digitals ≤ 1999998 }
        ensures says { IfOk result (λ config.
            config_by (texts_of lines.items) counts count ≡ Ok (value_of config)) }
        ensures refuses { IfErr result (λ fault.
            FaultFits fault (config_by (texts_of lines.items) counts count)) }
    {
        let place = rates_place(counts) + 1;
        let rates = rates_of(alloc, lines.as_slice(), place, count)?;
        let stamps = place + count as usize;
        let tail = match tail_of(lines.as_slice(), stamps) {
            Ok(tail) => tail,
            Err(fault) => return Err(ConfigFault::Refused(fault)),
        };
        Ok(Config {
            lines,
            counts,
            rates,
            stamps,
            tail,
        })
    }
}

fn rates_place(counts: Counts) -> usize
    requires { counts.analogs + counts.digitals ≤ 1999998 }
    ensures { result ≡ rates_place counts }
{
    3 + (counts.analogs + counts.digitals) as usize
}

// The place of the first line that is too long.
fn long_line(lines: &[Text]) -> Option<usize>
    ensures says { result ≡ long_from 0 (texts_of lines.now) }
    ensures inside { IfSome result (λ place. place < length lines.now) }
{
    for (at, line) in lines.iter().enumerate() {
        if line.bytes.len() > 1_020 {
            return Some(at);
        }
    }
    None
}
