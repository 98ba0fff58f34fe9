//! What events do with a simulated device, and what may be asked of it.

ghost use Rattle.std.specs.Prelude.{◌≡◌, ◌≤◌, ◌<◌, ◌^◌, All};
ghost use Rattle.irig_vote.specs.Vote.{ports_in};
ghost use Rattle.irig_wires.specs.Wires.{added, made_late, most_late_us, plugged, pulled};
ghost use Rattle.irig_simulated.specs.Courses.{begun_anew, keeps_so_far, may_stamp, on_line};
ghost use Rattle.irig_simulated.specs.Courses.{stamp_said, told_taken};
ghost use Rattle.irig_simulated.specs.Simulations.{ForSimulation, GoesOn};
ghost use Rattle.irig_simulated.specs.ToldSeconds.{IsToldOfUtc};
ghost use Rattle.irig_timekeeper.specs.Stamps.{StampsOfUtc};

use crate::simulated::Simulated;
use crate::ticking::next_tick;
use crate::told_second::ToldSecond;
use irig_port::Port;
use irig_timekeeper::Stamp;

impl<P: Port> Simulated<P> {
    /// The cable of a line, 0 to 4, is out, for what is sent from now on.
    pub fn pull(&mut self, line: u8)
        ensures now { self.new.now_us ≡ self.old.now_us }
        ensures same { self.new.device.clock ≡ self.old.device.clock }
        ensures stands { GoesOn self.old self.new (λ k x. on_line line pulled x) }
    {
        self.wires.pull(line);
    }

    /// It is in again.
    pub fn plug(&mut self, line: u8)
        ensures now { self.new.now_us ≡ self.old.now_us }
        ensures same { self.new.device.clock ≡ self.old.device.clock }
        ensures stands { GoesOn self.old self.new (λ k x. on_line line plugged x) }
    {
        self.wires.plug(line);
    }

    /// What comes by it is so many microseconds late, 0 to 1999, if it is sent from now on.
    pub fn be_late(&mut self, line: u8, late_us: u16)
        requires { late_us ≤ most_late_us }
        ensures now { self.new.now_us ≡ self.old.now_us }
        ensures same { self.new.device.clock ≡ self.old.device.clock }
        ensures stands { GoesOn self.old self.new (λ k x. on_line line (made_late late_us) x) }
    {
        self.wires.be_late(line, late_us);
    }

    /// A pulse so many microseconds wide rises on a line now, if that is not busy.
    pub fn add(&mut self, line: u8, width_us: u32)
        requires { line < ports_in self.old.device.clock.redundancy }
        ensures now { self.new.now_us ≡ self.old.now_us }
        ensures same { self.new.device.clock ≡ self.old.device.clock }
        ensures stands { GoesOn self.old self.new (λ k x. on_line line (added x.now width_us) x) }
    {
        self.wires.add(line, self.now_us, width_us);
    }

    /// It forgets all that it heard and counted. Its counter goes on, and so do its cables.
    pub fn restart(&mut self)
        ensures now { self.new.now_us ≡ self.old.now_us }
        ensures same { self.new.device.clock ≡ self.old.device.clock }
        ensures stands { GoesOn self.old self.new (λ k x. begun_anew k x) }
    {
        let now = self.oscillator.count_at(self.now_us);
        self.device.restart(now);
        let wait_us = self.device.wait(now);
        self.tick_us = next_tick(self.ticking, self.oscillator, self.now_us, wait_us);
    }

    /// The stamp that it gives of a true time, less than 2^53 us behind edge 0.
    pub fn stamp(&self, time_us: u64) -> Option<Stamp>
        requires { time_us < 2 ^ 53 }
        ensures value { ForSimulation self.now (λ k symbol x. result ≡ stamp_said k x time_us) }
        ensures valid { StampsOfUtc result }
    {
        self.device.stamp(self.oscillator.count_at(time_us))
    }

    /// The seconds that it told since they were taken last, the oldest first.
    pub fn told(&self) -> &[ToldSecond]
        ensures value { ForSimulation self.now (λ k symbol x. result.now ≡ x.told) }
        ensures valid { All IsToldOfUtc result.now }
    {
        self.told.as_slice()
    }

    /// They are taken.
    pub fn take_told(&mut self)
        ensures now { self.new.now_us ≡ self.old.now_us }
        ensures same { self.new.device.clock ≡ self.old.device.clock }
        ensures stands { GoesOn self.old self.new (λ k x. told_taken x) }
    {
        self.told.clear();
    }

    /// Whether its calls since it was made or restarted kept the premises.
    pub fn is_kept(&self) -> bool
        ensures value { ForSimulation self.now (λ k symbol x. result ≡ keeps_so_far k symbol x) }
    {
        self.device.is_kept()
    }

    /// Whether a stamp that it gives of a true time is right: its calls so far kept the premises, a
    /// tick that came now would be in order, and by its counter that time lies in the half hour before.
    pub fn may_stamp(&self, time_us: u64) -> bool
        requires { time_us < 2 ^ 53 }
        ensures value { ForSimulation self.now
            (λ k symbol x. result ≡ may_stamp k symbol x time_us) }
    {
        let now = self.oscillator.count_at(self.now_us);
        let time = self.oscillator.count_at(time_us);
        self.device.is_kept()
            && self.device.may_tick(now)
            && time <= now
            && now <= time + 1_800_000_000
    }
}
