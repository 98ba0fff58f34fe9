//! The text of a configuration, in pieces.

ghost use Rattle.std.specs.Prelude.{◌≡◌, ℕ, List, [], IfOk, IfErr, Ok, Some};
ghost use Rattle.record_comtrade.specs.Texts.{config_lines, lines_to_come, lines_with, text_on, texts_of};
ghost use Rattle.record_comtrade.specs.Reads.{FaultFits, ReadsOn, value_of};
ghost use Rattle.record_comtrade.specs.Configs.{config_of};

use crate::fault::ConfigFault;
use crate::parts::Config;
use crate::text::{Text, keep};
use record_text::{Lines, without_mark};
use std::alloc::{AllocError, Global};

/// The text of a configuration as far as it was read: lines that end with CR LF, LF or CR, the first maybe
/// after a byte order mark.
#[derive(Drop)]
pub struct ConfigText {
    lines: Lines,
    texts: Vec<Text>,
}

impl ConfigText {
    /// A configuration of which nothing was read.
    pub fn new(alloc: Global) -> ConfigText
        ensures { (more : List ℕ) → lines_to_come result more ≡ config_lines more }
    {
        ConfigText {
            lines: Lines::new(),
            texts: Vec::new(alloc),
        }
    }

    /// Reads these bytes. After a failure nothing is to be read.
    pub fn read(&mut self, alloc: Global, bytes: &[u8]) -> Result<(), AllocError>
        ensures { IfOk result (λ _. ReadsOn self.old bytes.now self.new) }
    {
        let mut count = 0;
        while count < bytes.len() {
            let (_, rest) = bytes.split_at(count);
            let next = self.lines.next(rest);
            count += next.count;
            if let Some(number) = next.ended {
                self.keep(alloc, number)?;
            }
        }
        Ok(())
    }

    /// The text has ended: what it says.
    pub fn end(mut self, alloc: Global) -> Result<Config, ConfigFault>
        ensures says { IfOk result (λ config. config_of (lines_to_come self []) ≡ Ok (value_of config)) }
        ensures refuses { IfErr result (λ fault. FaultFits fault (config_of (lines_to_come self []))) }
    {
        self.last(alloc)?;
        Config::of(alloc, self.texts)
    }

    // The last line ends with the text.
    fn last(&mut self, alloc: Global) -> Result<(), AllocError>
        ensures { IfOk result (λ _. texts_of self.new.texts.items ≡ lines_to_come self.old []) }
    {
        let number = self.lines.number();
        if self.lines.text().is_empty() {
            return Ok(());
        }
        self.keep(alloc, number)?;
        Ok(())
    }

    // A line has ended.
    fn keep(&mut self, alloc: Global, number: u64) -> Result<(), AllocError>
        ensures lines { IfOk result (λ _. (more : List ℕ) → lines_with (Some number) self.old more
            ≡ lines_to_come self.new more) }
        ensures cleared { IfOk result (λ _. self.new.lines.text.items ≡ []) }
    {
        let text = text_on(number, self.lines.text());
        keep(alloc, &mut self.texts, text)?;
        self.lines.clear();
        Ok(())
    }
}

// The text of a line; the first one may begin with a mark.
fn text_on(number: u64, text: &[u8]) -> &[u8]
    ensures { result.now ≡ text_on number text.now }
{
    if number == 1 {
        without_mark(text)
    } else {
        text
    }
}
