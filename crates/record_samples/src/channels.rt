//! The digital channels of the last sample.

ghost use Rattle.std.specs.Prelude.{◌≡◌, ◌≤◌, ◌+◌, IsTrue, IfOk, Ok, length};
ghost use Rattle.record_samples.specs.Rows.{fields_in, levels_if, levels_of};

use crate::fields::fields_in;
use crate::row::levels_of;
use record_comtrade::RowField;
use std::alloc::{AllocError, Global};

/// The channels that are chosen, by their places among the digital ones, and what was read of the
/// last sample: a further one of the same text has the same levels.
#[derive(Drop)]
pub(crate) struct Channels {
    pub(crate) chosen: Vec<usize>,
    pub(crate) high: u8,
    is_known: bool,
    text: Vec<u8>,
    fields: usize,
    ghost levels: { IsTrue is_known → levels_of chosen.items text.items ≡ Ok high },
    ghost count: { IsTrue is_known → fields_in text.items ≡ fields },
}

impl Channels {
    /// Those at these places, of no sample.
    pub(crate) fn new(alloc: Global, chosen: &[usize]) -> Result<Channels, AllocError>
        ensures chosen { IfOk result (λ channels. channels.chosen.items ≡ chosen.now) }
        ensures high { IfOk result (λ channels. channels.high ≡ 0) }
    {
        let mut places = Vec::new(alloc);
        places.extend_from_slice(chosen)?;
        Ok(Channels {
            chosen: places,
            high: 0,
            is_known: false,
            text: Vec::new(alloc),
            fields: 0,
        })
    }

    /// The levels in the digital fields of a line, before which there are so many others, unless it
    /// has fewer fields than it needs.
    pub(crate) fn levels_in(&self, before: usize, text: &[u8], needs: usize) -> Result<u8, RowField>
        requires { before ≤ 2000000 }
        ensures { result ≡ levels_if (before + fields_in text.now) needs self.now.chosen.items text.now }
    {
        if before + self.fields_of(text) < needs {
            Err(RowField::Few)
        } else {
            self.levels_of(text)
        }
    }

    #[tactic(auto, using(crate::proofs::FieldLaws::fields_few))]
    fn fields_of(&self, text: &[u8]) -> usize
        ensures count { result ≡ fields_in text.now }
        ensures few { result ≤ length text.now + 1 }
    {
        if self.knows(text) {
            self.fields
        } else {
            fields_in(text)
        }
    }

    fn levels_of(&self, text: &[u8]) -> Result<u8, RowField>
        ensures { result ≡ levels_of self.now.chosen.items text.now }
    {
        if self.knows(text) {
            Ok(self.high)
        } else {
            levels_of(self.chosen.as_slice(), text)
        }
    }

    /// The digital fields of the last sample are those of this text, with these levels.
    pub(crate) fn learn(&mut self, text: &[u8], high: u8) -> Result<(), AllocError>
        requires { levels_of self.old.chosen.items text.now ≡ Ok high }
        ensures chosen { self.new.chosen ≡ self.old.chosen }
        ensures high { IfOk result (λ _. self.new.high ≡ high) }
    {
        if self.knows(text) {
            return Ok(());
        }
        self.is_known = false;
        self.high = high;
        self.fields = fields_in(text);
        self.text.clear();
        self.text.extend_from_slice(text)?;
        self.is_known = true;
        Ok(())
    }

    /// The last sample has these levels, by other channels too.
    pub(crate) fn set(&mut self, high: u8)
        ensures chosen { self.new.chosen ≡ self.old.chosen }
        ensures high { self.new.high ≡ high }
    {
        self.is_known = false;
        self.high = high;
    }

    fn knows(&self, text: &[u8]) -> bool
        ensures { IsTrue result → IsTrue self.now.is_known × (text.now ≡ self.now.text.items) }
    {
        self.is_known && text == self.text.as_slice()
    }
}
