//! A station, and what it answers.

ghost use Rattle.std.specs.Prelude.{◌≡◌, ℕ, All, false};
ghost use Rattle.irig_station.specs.Together.{StandTogether};
ghost use Rattle.irig_station.specs.ValidEntries.{IsValidEntry};

use crate::audit::Audit;
use crate::entry::Entry;
use irig_gen::Generator;
use irig_port::Port;
use irig_simulated::{HeardPulses, Second, Simulated};
use irig_time::{Rules, Timeline};
use std::alloc::Global;

/// Generators, devices with a line from each, and true time.
#[derive(Drop)]
pub struct Station<P: Port> {
    pub(crate) alloc: Global,
    pub(crate) timeline: Timeline,
    pub(crate) rules: Rules,
    pub(crate) generators: Vec<Generator>,
    /// How many seconds have begun.
    pub(crate) begun: u64,
    /// The last of them.
    pub(crate) second: Second,
    pub(crate) devices: Vec<Simulated<P>>,
    pub(crate) now_us: u64,
    pub(crate) log: Vec<Entry>,
    pub(crate) audit: Audit,
    pub(crate) heard: HeardPulses,
    /// There was no memory in the midst of an event: devices stand at different times.
    pub(crate) is_spent: bool,
    ghost valid: { ∥ All IsValidEntry log.items ∥₁ },
    ghost together: { is_spent ≡ false
        → StandTogether generators.items second begun now_us devices.items },
}
