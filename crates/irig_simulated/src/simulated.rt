//! A simulated device.

ghost use Rattle.std.specs.Prelude.{◌≡◌, ◌≤◌, ◌<◌, ◌^◌, All, true};
ghost use Rattle.irig_vote.specs.Vote.{ports_in};
ghost use Rattle.irig_simulated.specs.Kinds.{no_delay};
ghost use Rattle.irig_simulated.specs.Flights.{are_flights};
ghost use Rattle.irig_simulated.specs.ToldSeconds.{IsToldOfUtc};

use crate::setup::Ticking;
use crate::told_second::ToldSecond;
use irig_port::Port;
use irig_wires::{Oscillator, Wires};
use irig_witness::Device;

/// A device that is played: its timekeeper, with the audit of its calls, its counter and its
/// cables.
#[derive(Drop)]
pub struct Simulated<P: Port> {
    pub(crate) device: Device<P>,
    pub(crate) oscillator: Oscillator,
    pub(crate) ticking: Ticking,
    pub(crate) now_us: u64,
    pub(crate) wires: Wires,
    pub(crate) tick_us: Option<u64>,
    pub(crate) send_us: u64,
    pub(crate) told: Vec<ToldSecond>,
    ghost own: { device.oscillator ≡ oscillator },
    ghost turned: { 2 ^ 32 ≤ oscillator.first },
    ghost once: { oscillator.first < 2 ^ 33 },
    ghost undelayed: { device.clock.delays ≡ no_delay },
    ghost right: { device.clock.within.us ≡ 450 },
    ghost flying: { are_flights (ports_in device.clock.redundancy) wires ≡ true },
    ghost early: { now_us < 2 ^ 53 },
    ghost valid: { ∥ All IsToldOfUtc told.items ∥₁ },
}
