//! Pulses that devices heard.

ghost use Rattle.std.specs.Prelude.{◌≡◌, ◌∷◌, [], OnOk, true};
ghost use Rattle.irig_simulated.specs.Heard.{HaveMore};

use std::alloc::{AllocError, Global};

/// A pulse that a device heard.
#[derive(Clone, Copy, PartialEq, Eq)]
pub struct HeardPulse {
    /// The number of the device.
    pub device: u8,
    /// The number of its line, 0 to 4.
    pub line: u8,
    /// When it rose at the end of that line, in microseconds of true time behind edge 0.
    pub rise_us: u64,
    /// When it had ended, and the device was told it.
    pub end_us: u64,
}

/// Pulses that devices heard, in the order in which they were told them, if these are kept.
#[derive(Drop)]
pub struct HeardPulses {
    pub(crate) keeps: bool,
    pub(crate) pulses: Vec<HeardPulse>,
}

impl HeardPulses {
    /// None so far. If they are not kept, it stays so.
    pub fn new(alloc: Global, keeps: bool) -> HeardPulses
        ensures keeps { result.keeps ≡ keeps }
        ensures none { result.pulses.items ≡ [] }
    {
        HeardPulses {
            keeps,
            pulses: Vec::new(alloc),
        }
    }

    /// Those that are kept.
    pub fn as_slice(&self) -> &[HeardPulse]
        ensures { result.now ≡ self.now.pulses.items }
    {
        self.pulses.as_slice()
    }

    /// They are let go.
    pub fn clear(&mut self)
        ensures keeps { self.new.keeps ≡ self.old.keeps }
        ensures none { self.new.pulses.items ≡ [] }
    {
        self.pulses.clear();
    }

    // One more was heard; `AllocError` if there is no memory to keep it.
    pub(crate) fn add(&mut self, pulse: HeardPulse) -> Result<(), AllocError>
        ensures { OnOk result (HaveMore self.old self.new (pulse ∷ [])) }
    {
        if self.keeps {
            self.pulses.push(pulse)?;
        }
        Ok(())
    }
}
