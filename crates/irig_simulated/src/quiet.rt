//! A second in which nothing happens to a device but that its lines bring true frames: all of these but
//! their last pulses are heard at once.

ghost use Rattle.std.specs.Prelude.{◌≡◌, ◌≤◌, ◌<◌, ◌+◌, ◌*◌, ◌^◌, true, false, ℕ, suc, Some, vec_len, map, take, length};
ghost use Rattle.irig_frame.specs.Symbols.{width_of};
ghost use Rattle.irig_vote.specs.Vote.{ports_in};
ghost use Rattle.irig_wires.specs.Order.{IsNotBefore};
ghost use Rattle.irig_wires.specs.Oscillator.{counter_at, rate_of};
ghost use Rattle.irig_witness.specs.Devices.{risen_on};
ghost use Rattle.irig_witness.specs.Unfinished.{takes_frame};
ghost use Rattle.irig_wires.specs.Wires.{wire_at};
ghost use Rattle.irig_simulated.specs.Courses.{passed};
ghost use Rattle.irig_simulated.specs.Quiet.{sent_at};
ghost use Rattle.irig_simulated.specs.QuietLines.{BringsFrame, HearsLine, IsAboutRight, IsQuietOn};
ghost use Rattle.irig_simulated.specs.Simulations.{GoesOnIn};
ghost use Rattle.irig_timekeeper.specs.Unfinished.{most};

use crate::second::Second;
use crate::simulated::Simulated;
use irig_frame::Symbol;
use irig_port::Port;
use irig_wires::{Flight, Wire};

const SECOND_US: u64 = 1_000_000;

/// The first pulse of a frame ends so long behind its edge at least: it is a marker.
pub(crate) const FIRST_ENDS_US: u64 = 8_000;

/// The last element of a frame is sent so long behind its edge.
pub(crate) const LAST_SENT_US: u64 = 990_000;

/// A line that is later has pulses that its device may doubt: within 450 us it takes them for right, and
/// its counter is right to 1 us.
const LATEST_US: u16 = 448;

impl<P: Port> Simulated<P> {
    // If nothing happens to it in this second but that its lines bring true frames, all pulses of
    // these but the last are heard, and the last are sent. Else nothing changes.
    pub(crate) fn hear_quiet(&mut self, second: &Second) -> bool
        requires early { second.now.number < 2 ^ 32 }
        requires lines { vec_len second.now.lines ≤ ports_in self.old.device.clock.redundancy }
        ensures stands { result ≡ true → GoesOnIn second.now self.old self.new
            (λ k signal x. passed k signal (suc (sent_at second.now.number most)) x) }
        ensures now { result ≡ true → self.new.now_us ≡ suc (sent_at second.now.number most) }
        ensures none { result ≡ false → self.new ≡ self.old }
        ensures same { self.new.device.clock ≡ self.old.device.clock }
    {
        if !self.is_quiet(second) {
            return false;
        }
        self.hear_line(second, 0);
        self.hear_line(second, 1);
        self.hear_line(second, 2);
        self.hear_line(second, 3);
        self.hear_line(second, 4);
        self.now_us = second.number * SECOND_US + LAST_SENT_US + 1;
        self.send_us = second.number * SECOND_US + SECOND_US;
        true
    }

    fn is_quiet(&self, second: &Second) -> bool
        requires early { second.now.number < 2 ^ 32 }
        ensures send { result ≡ true → self.now.send_us ≡ sent_at second.now.number 1 }
        ensures now { result ≡ true → self.now.now_us ≤ sent_at second.now.number 0 + 8000 }
        ensures tick { result ≡ true
            → IsNotBefore self.now.tick_us (suc (sent_at second.now.number most)) }
        ensures rate { result ≡ true → IsAboutRight (rate_of self.now.oscillator.gain_us) }
        ensures lines { result ≡ true → (line : ℕ) → line < 5
            → IsQuietOn self.now second.now line }
    {
        let begin_us = second.number * SECOND_US;
        self.send_us == begin_us + 10_000
            && self.now_us <= begin_us + FIRST_ENDS_US
            && self.is_ticked_from(begin_us + LAST_SENT_US + 1)
            && self.counts_right()
            && self.are_quiet(second)
    }

    fn is_ticked_from(&self, time_us: u64) -> bool
        ensures { result ≡ true → IsNotBefore self.now.tick_us time_us }
    {
        match self.tick_us {
            Some(tick_us) => time_us <= tick_us,
            None => true,
        }
    }

    fn counts_right(&self) -> bool
        ensures { result ≡ true → IsAboutRight (rate_of self.now.oscillator.gain_us) }
    {
        let rate = self.oscillator.rate();
        999_900 <= rate && rate <= 1_000_100
    }

    // Each of its lines brings a true frame, or nothing.
    fn are_quiet(&self, second: &Second) -> bool
        requires early { second.now.number < 2 ^ 32 }
        ensures { result ≡ true → (line : ℕ) → line < 5
            → IsQuietOn self.now second.now line }
    {
        for line in 0..5 {
            if !self.is_quiet_on(second, line) {
                return false;
            }
        }
        true
    }

    // A line brings a true frame, of which the first pulse is on its way; or it brings nothing.
    fn is_quiet_on(&self, second: &Second, line: u8) -> bool
        requires early { second.now.number < 2 ^ 32 }
        requires line { line < 5 }
        ensures { result ≡ true → IsQuietOn self.now second.now line }
    {
        let wire = self.wires.wire(line);
        match wire.flight() {
            Some(flight) => self.brings_frame(second, line, wire, flight),
            None => !wire.is_plugged() || second.sent(line, 0).is_none(),
        }
    }

    fn brings_frame(&self, second: &Second, line: u8, wire: Wire, flight: Flight) -> bool
        requires early { second.now.number < 2 ^ 32 }
        requires line { line < 5 }
        requires wire { wire ≡ wire_at self.now.wires line }
        requires flight { wire.flight ≡ Some flight }
        ensures { result ≡ true → BringsFrame self.now second.now line }
    {
        let rise_us = second.number * SECOND_US + u64::from(wire.late_us());
        if !wire.is_plugged() || wire.late_us() > LATEST_US {
            return false;
        }
        if flight.rise_us != rise_us || flight.end_us != rise_us + 8_000 {
            return false;
        }
        second.sends_true_frame(line) && self.takes_frame(second, line, rise_us)
    }

    fn takes_frame(&self, second: &Second, line: u8, rise_us: u64) -> bool
        requires early { second.now.number < 2 ^ 32 }
        requires line { line < 5 }
        requires rise { rise_us < 2 ^ 53 }
        ensures { result ≡ takes_frame self.now.device line
            (risen_on self.now.device line (counter_at self.now.oscillator.first
            (rate_of self.now.oscillator.gain_us) rise_us)) (100 * second.now.number) }
    {
        let rise = self.oscillator.count_at(rise_us);
        self.device.takes_frame(line, rise, 100 * second.number)
    }

    // What a line brings is heard, but the last of it, which is sent.
    fn hear_line(&mut self, second: &Second, line: u8)
        requires early { second.now.number < 2 ^ 32 }
        requires lines { vec_len second.now.lines ≤ ports_in self.old.device.clock.redundancy }
        requires line { line < 5 }
        requires rate { IsAboutRight (rate_of self.old.oscillator.gain_us) }
        requires quiet { IsQuietOn self.old second.now line }
        ensures heard { HearsLine second.now self.old self.new line }
        ensures others { (other : ℕ) → other < 5 → ¬ (other ≡ line)
            → IsQuietOn self.old second.now other → IsQuietOn self.new second.now other }
    {
        let Some(flight) = self.wires.flight(line) else {
            return;
        };
        let Some(frame) = second.true_frame(line) else {
            return;
        };
        let first = self.oscillator.count_at(flight.rise_us);
        let last = self.oscillator.count_at(flight.rise_us + 980_000);
        let element = 100 * second.number;
        let widths_us = widths_of(&frame);
        self.device
            .hear_unfinished(line, first, last, element, &widths_us);
        self.wires.take(line, flight.end_us);
        self.wires.send(
            line,
            second.number * SECOND_US + LAST_SENT_US,
            frame[99].width_us(),
        );
    }
}

// How wide the pulses of a frame are but its last one.
fn widths_of(frame: &[Symbol; 100]) -> [u32; 99]
    requires { length frame.now ≡ 100 }
    ensures { result ≡ map width_of (take most frame.now) }
{
    let mut widths_us = [0; 99];
    for place in 0..99 {
        widths_us[place] = frame[place].width_us();
    }
    widths_us
}
