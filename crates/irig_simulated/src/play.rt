//! What becomes of a simulated device while true time passes.

ghost use Rattle.std.specs.Prelude.{◌≡◌, ◌≤◌, ◌<◌, ◌+◌, ◌*◌, ◌^◌, ℕ, Some, true, false};
ghost use Rattle.std.specs.Prelude.{IfErr, IfOk, OnOk, vec_len};
ghost use Rattle.irig_frame.specs.declared.symbol.Symbol.{Symbol};
ghost use Rattle.irig_lines.specs.Refusals.{clock_fault};
ghost use Rattle.irig_vote.specs.Vote.{ports_in};
ghost use Rattle.irig_simulated.specs.declared.setup.Ticking.TheVariants.{Each};
ghost use Rattle.irig_simulated.specs.Kinds.{IsDevicePlan, kind_of};
ghost use Rattle.irig_simulated.specs.Courses.{begun_with, coming_from, passed, stepped};
ghost use Rattle.irig_simulated.specs.Heard.{HaveMore, heard_by, heard_until};
ghost use Rattle.irig_simulated.specs.Simulations.{GoesOnIn, HearsIn, IsSimulationOf};

use crate::heard::HeardPulses;
use crate::quiet::{FIRST_ENDS_US, LAST_SENT_US};
use crate::second::Second;
use crate::setup::{DeviceSetup, Ticking, clock_in};
use crate::simulated::Simulated;
use crate::ticking::next_tick;
use irig_lines::ClockFault;
use irig_port::Port;
use irig_time::Rules;
use irig_vote::Redundancy;
use irig_wires::{Coming, Happening, Oscillator, Wires};
use irig_witness::Device;
use std::alloc::{AllocError, Global};

/// What the counter has shown more at edge 0 than its 32 bits say: it has turned over once.
const TURN: u64 = 1 << 32;

impl<P: Port> Simulated<P> {
    /// A device of this setup at edge 0, with as many lines as the redundancy says. Of a setup that
    /// there may be, none is refused.
    pub fn new(
        alloc: Global,
        rules: Rules,
        redundancy: Redundancy,
        setup: &DeviceSetup,
    ) -> Result<Self, ClockFault>
        requires { IsDevicePlan setup.now }
        ensures refused { IfErr result (λ fault.
            clock_fault setup.now.rules setup.now.drift_us 0 ≡ Some fault) }
        ensures now { IfOk result (λ s. s.now_us ≡ 0) }
        ensures ports { IfOk result (λ s. s.device.clock.redundancy ≡ redundancy) }
        ensures stands { IfOk result (λ s. (symbol : ℕ → ℕ → Symbol)
            → IsSimulationOf s (kind_of rules redundancy setup.now) symbol
            (begun_with (kind_of rules redundancy setup.now) setup.now.late_us)) }
    {
        let first = u64::from(setup.counter) + TURN;
        let Some(oscillator) = Oscillator::new(first, setup.gain_us) else {
            return Err(ClockFault::Drift);
        };
        let clock = clock_in(redundancy, setup);
        let device = Device::new(rules, clock, setup.table.copy(), oscillator, first)?;
        let tick_us = next_tick(setup.ticking, oscillator, 0, device.wait(first));
        Ok(Simulated {
            device,
            oscillator,
            ticking: setup.ticking,
            now_us: 0,
            wires: Wires::new(setup.late_us.as_slice()),
            tick_us,
            send_us: 0,
            told: Vec::new(alloc),
        })
    }

    /// True time passes up to another within a second: pulses that have ended are heard, the device
    /// is ticked, and generators send. What it tells is kept, and so are the pulses, as those of the
    /// device with this number, if they are to be kept; `AllocError` if there is no memory for that.
    pub fn play(
        &mut self,
        second: &Second,
        stop_us: u64,
        device: u8,
        kept: &mut HeardPulses,
    ) -> Result<(), AllocError>
        requires begun { second.now.number * 1000000 ≤ self.old.now_us }
        requires within { stop_us ≤ (second.now.number + 1) * 1000000 }
        requires early { second.now.number < 2 ^ 32 }
        requires forward { self.old.now_us ≤ stop_us }
        requires lines { vec_len second.now.lines ≤ ports_in self.old.device.clock.redundancy }
        ensures now { OnOk result (self.new.now_us ≡ stop_us) }
        ensures same { self.new.device.clock ≡ self.old.device.clock }
        ensures stands { OnOk result (GoesOnIn second.now self.old self.new
            (λ k signal x. passed k signal stop_us x)) }
        ensures heard { OnOk result (HearsIn second.now self.old kept.old kept.new
            (λ k signal x. heard_until k device signal stop_us x)) }
    {
        let edge_us = second.number * 1_000_000;
        if self.may_be_quiet(kept, edge_us, stop_us) {
            self.run(second, edge_us + FIRST_ENDS_US, device, kept)?;
            self.hear_quiet(second);
        }
        self.run(second, stop_us, device, kept)
    }

    // Whether a whole second may be one in which nothing happens to it: then no listener asks for its
    // pulses, and it is ticked by its own wait, or by hand.
    fn may_be_quiet(&self, kept: &HeardPulses, edge_us: u64, stop_us: u64) -> bool
        requires { edge_us < 2 ^ 53 }
        ensures keeps { result ≡ true → kept.now.keeps ≡ false }
        ensures unpolled { result ≡ true → (us : ℕ) → ¬ (self.now.ticking ≡ Each us) }
        ensures early { result ≡ true → self.now.now_us ≤ edge_us + 8000 }
        ensures whole { result ≡ true → edge_us + 990000 < stop_us }
    {
        let is_polled = matches!(self.ticking, Ticking::Each(_));
        !kept.keeps
            && !is_polled
            && self.now_us <= edge_us + FIRST_ENDS_US
            && edge_us + LAST_SENT_US < stop_us
    }

    // The same, one thing after another.
    fn run(
        &mut self,
        second: &Second,
        stop_us: u64,
        device: u8,
        kept: &mut HeardPulses,
    ) -> Result<(), AllocError>
        requires begun { second.now.number * 1000000 ≤ self.old.now_us }
        requires within { stop_us ≤ (second.now.number + 1) * 1000000 }
        requires early { second.now.number < 2 ^ 32 }
        requires forward { self.old.now_us ≤ stop_us }
        requires lines { vec_len second.now.lines ≤ ports_in self.old.device.clock.redundancy }
        ensures now { OnOk result (self.new.now_us ≡ stop_us) }
        ensures same { self.new.device.clock ≡ self.old.device.clock }
        ensures stands { OnOk result (GoesOnIn second.now self.old self.new
            (λ k signal x. passed k signal stop_us x)) }
        ensures heard { OnOk result (HearsIn second.now self.old kept.old kept.new
            (λ k signal x. heard_until k device signal stop_us x)) }
    {
        let most = 23 * (stop_us - self.now_us) + 23;
        for _ in 0..most {
            let coming = self.coming();
            if coming.time_us >= stop_us {
                break;
            }
            self.step(second, coming, device, kept)?;
        }
        self.now_us = stop_us;
        Ok(())
    }

    // What happens next, and when: no time comes back.
    fn coming(&self) -> Coming
        ensures { result
            ≡ coming_from self.now.now_us self.now.wires self.now.tick_us self.now.send_us }
    {
        let Coming { time_us, what } = self.wires.next(self.tick_us, self.send_us);
        Coming {
            time_us: self.now_us.max(time_us),
            what,
        }
    }

    // It happens.
    fn step(
        &mut self,
        second: &Second,
        coming: Coming,
        device: u8,
        kept: &mut HeardPulses,
    ) -> Result<(), AllocError>
        requires coming { coming
            ≡ coming_from self.old.now_us self.old.wires self.old.tick_us self.old.send_us }
        requires begun { second.now.number * 1000000 ≤ self.old.now_us }
        requires within { coming.time_us < (second.now.number + 1) * 1000000 }
        requires early { second.now.number < 2 ^ 32 }
        requires lines { vec_len second.now.lines ≤ ports_in self.old.device.clock.redundancy }
        ensures stands { OnOk result (GoesOnIn second.now self.old self.new
            (λ k signal x. stepped k signal x)) }
        ensures heard { OnOk result
            (HaveMore kept.old kept.new (heard_by device coming.time_us coming.what)) }
        ensures now { self.new.now_us ≡ coming.time_us }
        ensures same { self.new.device.clock ≡ self.old.device.clock }
    {
        self.now_us = coming.time_us;
        match coming.what {
            Happening::End(ending) => self.hear(second, ending, device, kept)?,
            Happening::Tick => self.tick()?,
            Happening::Send => self.send(second),
        }
        Ok(())
    }
}
