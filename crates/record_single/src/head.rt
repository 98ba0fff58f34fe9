//! The configuration of a single file, in pieces.

ghost use Rattle.std.specs.Prelude.{◌≡◌, ◌+◌, ◌++◌, ◌<◌, ◌≤◌, [], IfErr, IfOk, IfSome, IfNone, Ok, length, take};
ghost use Rattle.record_comtrade.specs.Configs.{config_of};
ghost use Rattle.record_comtrade.specs.Reads.{FaultFits, value_of};
ghost use Rattle.record_comtrade.specs.Texts.{lines_to_come};
ghost use Rattle.record_single.specs.Heads.{Closes, Finds, GoesOn, IsAtTop, Leads};
ghost use Rattle.record_single.specs.declared.head.HeadFault.TheVariants.{Memory};

use crate::parts::Head;
use crate::section::{Section, place_in, section_of};
use record_comtrade::{Config, ConfigFault, ConfigText};
use std::alloc::{AllocError, Global};

// The most bytes of a line.
const LONGEST_LINE: usize = 67_108_864;

/// Why a single file is not read on.
#[derive(Clone, Copy, PartialEq, Eq)]
pub enum HeadFault {
    /// There was no memory.
    Memory,
    /// A line above the samples is too long: it has more than 67,108,864 bytes.
    Long,
}

impl From<AllocError> for HeadFault {
    ghost from_gives = { λ _ fault. fault ≡ Memory };

    fn from(_: AllocError) -> HeadFault {
        HeadFault::Memory
    }
}

/// Where the samples begin.
#[derive(Clone, Copy)]
pub struct Found {
    /// Behind so many bytes, from the front of those that were read.
    pub taken: usize,
    /// How many bytes of samples there are, if that is said; else they go on to the end.
    pub count: Option<u64>,
}

impl Head {
    /// A single file of which nothing was read.
    pub fn new(alloc: Global) -> Head
        ensures top { IsAtTop result }
        ensures none { result.line.items ≡ [] }
    {
        Head {
            text: ConfigText::new(alloc),
            is_config: false,
            line: Vec::new(alloc),
        }
    }

    /// Reads on to where the samples begin, or to the end of these bytes. After the samples were
    /// found, or after a failure, nothing is to be read.
    pub fn read(&mut self, alloc: Global, bytes: &[u8]) -> Result<Option<Found>, HeadFault>
        ensures within { IfOk result (λ found. IfSome found (λ f. f.taken ≤ length bytes.now)) }
        ensures goes { IfOk result (λ found. IfNone found (GoesOn self.old bytes.now self.new)) }
        ensures finds { IfOk result (λ found. IfSome found (λ f.
            Finds self.old (take f.taken bytes.now) f.count self.new)) }
        ensures line { IfOk result (λ _.
            length self.new.line.items ≤ length self.old.line.items + length bytes.now) }
        ensures long { IfErr result (λ fault. fault ≡ HeadFault.Long
            → 67108864 < length self.old.line.items + length bytes.now) }
    {
        let mut count = 0;
        while count < bytes.len() {
            let (_, rest) = bytes.split_at(count);
            let (taken, found) = self.next(alloc, rest)?;
            count += taken;
            if let Some(bytes) = found {
                return Ok(Some(Found {
                    taken: count,
                    count: bytes,
                }));
            }
        }
        Ok(None)
    }

    /// What the configuration says.
    pub fn config(self, alloc: Global) -> Result<Config, ConfigFault>
        ensures says { IfOk result (λ config.
            config_of (lines_to_come self.text []) ≡ Ok (value_of config)) }
        ensures refuses { IfErr result (λ fault.
            FaultFits fault (config_of (lines_to_come self.text []))) }
    {
        self.text.end(alloc)
    }

    // A line more, or all of these bytes if none ends among them; and that samples begin behind it.
    fn next(
        &mut self,
        alloc: Global,
        bytes: &[u8],
    ) -> Result<(usize, Option<Option<u64>>), HeadFault>
        requires { 0 < length bytes.now }
        ensures within { IfOk result (λ r. r.0 ≤ length bytes.now) }
        ensures some { IfOk result (λ r. 0 < r.0) }
        ensures leads { IfOk result (λ r. Leads self.old (take r.0 bytes.now) r.1 self.new) }
        ensures line { IfOk result (λ r.
            length self.new.line.items ≤ length self.old.line.items + r.0) }
        ensures long { IfErr result (λ fault. fault ≡ HeadFault.Long
            → 67108864 < length self.old.line.items + length bytes.now) }
    {
        let count = place_in(b'\n', bytes);
        if count == bytes.len() {
            self.extend(bytes)?;
            return Ok((count, None));
        }
        let (front, _) = bytes.split_at(count + 1);
        self.extend(front)?;
        let found = self.close(alloc)?;
        Ok((count + 1, found))
    }

    // The line that is open goes on with these bytes.
    fn extend(&mut self, bytes: &[u8]) -> Result<(), HeadFault>
        ensures line { IfOk result (λ _. self.new.line.items ≡ self.old.line.items ++ bytes.now) }
        ensures section { self.new.is_config ≡ self.old.is_config }
        ensures text { self.new.text ≡ self.old.text }
        ensures long { IfErr result (λ fault. fault ≡ HeadFault.Long
            → 67108864 < length self.old.line.items + length bytes.now) }
    {
        if bytes.len() > LONGEST_LINE || self.line.len() > LONGEST_LINE - bytes.len() {
            return Err(HeadFault::Long);
        }
        self.line.extend_from_slice(bytes)?;
        Ok(())
    }

    // The line that is open is whole: that samples begin behind it.
    fn close(&mut self, alloc: Global) -> Result<Option<Option<u64>>, AllocError>
        ensures closes { IfOk result (λ found. Closes self.old found self.new) }
        ensures line { IfOk result (λ found.
            length self.new.line.items ≤ length self.old.line.items) }
    {
        match section_of(self.line.as_slice()) {
            Some(Section::Samples(count)) => return Ok(Some(count)),
            Some(Section::Config) => self.is_config = true,
            Some(Section::Other) => self.is_config = false,
            None => {
                if self.is_config {
                    self.text.read(alloc, self.line.as_slice())?;
                }
            }
        }
        self.line.clear();
        Ok(None)
    }
}
