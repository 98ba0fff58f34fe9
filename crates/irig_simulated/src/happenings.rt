//! What happens to a simulated device by itself.

ghost use Rattle.std.specs.Prelude.{◌≡◌, ◌∷◌, [], ◌≤◌, ◌<◌, ◌+◌, ◌*◌, ◌^◌, ◌==◌, ◌/◌, ◌%◌, ℕ, Option, OnOk, vec_len, if◌then◌else◌};
ghost use Rattle.irig_frame.specs.declared.symbol.Symbol.{Symbol};
ghost use Rattle.irig_vote.specs.Vote.{ports_in};
ghost use Rattle.irig_wires.specs.Wires.{wire_at, with_wire};
ghost use Rattle.irig_simulated.specs.Courses.{has_sent, heard, sent_if, ticked};
ghost use Rattle.irig_simulated.specs.Heard.{HaveMore, ended_pulse};
ghost use Rattle.irig_simulated.specs.Simulations.{GoesOn, GoesOnIn};

use crate::heard::{HeardPulse, HeardPulses};
use crate::second::Second;
use crate::simulated::Simulated;
use crate::ticking::{next_tick, tick_after_frame};
use crate::told_second::told_second;
use irig_frame::Symbol;
use irig_port::Port;
use irig_wires::{Ending, Wires};
use std::alloc::AllocError;

impl<P: Port> Simulated<P> {
    // A pulse has ended, and the device, of this number, is told it. `AllocError` if it is to be kept
    // and there is no memory for that.
    pub(crate) fn hear(
        &mut self,
        second: &Second,
        ending: Ending,
        device: u8,
        kept: &mut HeardPulses,
    ) -> Result<(), AllocError>
        requires line { ending.line < ports_in self.old.device.clock.redundancy }
        requires rise { ending.flight.rise_us ≤ self.old.now_us }
        requires begun { second.now.number * 1000000 ≤ self.old.now_us }
        requires within { self.old.now_us < (second.now.number + 1) * 1000000 }
        ensures stands { OnOk result (GoesOnIn second.now self.old self.new
            (λ k signal x. heard k x ending)) }
        ensures kept { OnOk result
            (HaveMore kept.old kept.new (ended_pulse device self.old.now_us ending ∷ [])) }
        ensures now { self.new.now_us ≡ self.old.now_us }
        ensures same { self.new.device.clock ≡ self.old.device.clock }
    {
        let Ending { line, flight } = ending;
        kept.add(HeardPulse {
            device,
            line,
            rise_us: flight.rise_us,
            end_us: self.now_us,
        })?;
        let now = self.oscillator.count_at(self.now_us);
        let rise = self.oscillator.count_at(flight.rise_us);
        let width_us = (now - rise).min(u64::from(u32::MAX)) as u32;
        let element = self.device.element(line, rise);
        let symbol = second.true_symbol(line, element);
        let place = self.device.hear(line, rise, width_us, element, symbol);
        self.wires.take(line, flight.end_us);
        if place == 100 {
            let wait_us = self.device.wait(now);
            self.tick_us = tick_after_frame(
                self.ticking,
                self.oscillator,
                self.now_us,
                wait_us,
                self.tick_us,
            );
        }
        Ok(())
    }

    /// The device is ticked now, by hand or by itself. What it tells is kept; `AllocError` if there
    /// is no memory for that.
    pub fn tick(&mut self) -> Result<(), AllocError>
        ensures stands { OnOk result (GoesOn self.old self.new (λ k x. ticked k x)) }
        ensures now { self.new.now_us ≡ self.old.now_us }
        ensures same { self.new.device.clock ≡ self.old.device.clock }
    {
        if self.told.reserve(1).is_err() {
            return Err(AllocError);
        }
        let now = self.oscillator.count_at(self.now_us);
        let beat = self.device.tick(now);
        let wait_us = self.device.wait(now).max(1);
        self.tick_us = next_tick(self.ticking, self.oscillator, self.now_us, wait_us);
        if let Some(beat) = beat {
            self.told
                .push_reserved(told_second(self.oscillator, now, beat));
        }
        Ok(())
    }

    // Generators send an element. Where the next thing that happens is looked for, it would take registers
    // from that.
    #[inline(never)]
    pub(crate) fn send(&mut self, second: &Second)
        requires begun { second.now.number * 1000000 ≤ self.old.now_us }
        requires within { self.old.now_us < (second.now.number + 1) * 1000000 }
        requires lines { vec_len second.now.lines ≤ ports_in self.old.device.clock.redundancy }
        ensures stands { GoesOnIn second.now self.old self.new (λ k signal x. has_sent signal x) }
        ensures now { self.new.now_us ≡ self.old.now_us }
        ensures same { self.new.device.clock ≡ self.old.device.clock }
    {
        let place = (self.now_us / 10_000 % 100) as u8;
        send_on(&mut self.wires, 0, second.sent(0, place), self.now_us);
        send_on(&mut self.wires, 1, second.sent(1, place), self.now_us);
        send_on(&mut self.wires, 2, second.sent(2, place), self.now_us);
        send_on(&mut self.wires, 3, second.sent(3, place), self.now_us);
        send_on(&mut self.wires, 4, second.sent(4, place), self.now_us);
        self.send_us = self.now_us + 10_000;
    }
}

// A generator sends a symbol on a line, if it sends.
fn send_on(wires: &mut Wires, line: u8, symbol: Option<Symbol>, now_us: u64)
    requires early { now_us < 2 ^ 53 }
    ensures { wires.new
        ≡ with_wire wires.old line (sent_if symbol now_us (wire_at wires.old line)) }
{
    if let Some(symbol) = symbol {
        wires.send(line, now_us, symbol.width_us());
    }
}
