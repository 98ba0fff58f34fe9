//! The setup of a simulated device.

ghost use Rattle.std.specs.Prelude.{◌≡◌};
ghost use Rattle.irig_simulated.specs.Kinds.{clock_in};

use irig_lines::{ClockRules, NO_DELAYS, nearest_limits, nearest_within};
use irig_port::Limits;
use irig_reader::ReaderRules;
use irig_time::LeapTable;
use irig_vote::Redundancy;
use std::marker::Model;

/// When a simulated device is ticked.
#[derive(Clone, Copy, PartialEq, Eq)]
pub enum Ticking {
    /// When the wait that it asked for is over.
    ByWait,
    /// Each so many microseconds of true time, one at least.
    Each(u32),
    /// Only when an event says so.
    ByHand,
}

/// What a simulated device is made of.
#[derive(Drop)]
pub struct DeviceSetup {
    /// When it locks, and how long it holds over.
    pub rules: ReaderRules,
    /// The leaps that it knows beforehand.
    pub table: LeapTable,
    /// How many microseconds a second its counter may be wrong by its setting, 0 to 100.
    pub drift_us: u32,
    /// How many microseconds its counter truly gains in each second, -1000 to 1000.
    pub gain_us: i16,
    /// What its counter shows at edge 0.
    pub counter: u32,
    /// How many microseconds late the line of each generator is, 0 to 1999.
    pub late_us: Vec<u16>,
    /// When it is ticked.
    pub ticking: Ticking,
}

impl Model for DeviceSetup {
    ghost use Rattle.irig_simulated.specs.Setups.{DevicePlan};

    ghost Value = { DevicePlan };

    ghost view = { λ d. record {
      rules = d.rules;
      table = d.table;
      drift_us = d.drift_us;
      gain_us = d.gain_us;
      counter = d.counter;
      late_us = d.late_us.items;
      ticking = d.ticking;
    } };
}

// The rules of the clock of such a device.
pub(crate) fn clock_in(redundancy: Redundancy, setup: &DeviceSetup) -> ClockRules
    ensures { result ≡ clock_in redundancy setup.now }
{
    ClockRules {
        reader_rules: setup.rules,
        redundancy,
        within: nearest_within(450),
        limits: nearest_limits(Limits {
            not_before: 0,
            poor_from: 7,
        }),
        drift_us: setup.drift_us,
        wander_ppb: 0,
        delays: NO_DELAYS,
        prefers_frames: false,
    }
}
