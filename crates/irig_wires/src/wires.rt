//! The cables of one device, and what happens to it next.

ghost use Rattle.std.specs.Prelude.{◌≡◌, ◌≤◌, ◌<◌, ◌^◌, All};
ghost use Rattle.irig_wires.specs.Wires.{added, ended, late_at, made_late, most_late_us, plugged, pulled, sent, taken, wire_at, wires_of, with_wire};
ghost use Rattle.irig_wires.specs.Happenings.{coming_of, end_or, ending_on, tick_or_send};

use crate::wire::{Flight, Wire};

/// The cables of a device, one from each generator: up to five. On those that it does not have
/// nothing is sent.
#[derive(Clone, Copy, PartialEq, Eq)]
pub struct Wires {
    pub(crate) a: Wire,
    pub(crate) b: Wire,
    pub(crate) c: Wire,
    pub(crate) d: Wire,
    pub(crate) e: Wire,
}

/// The end of a pulse on a line.
#[derive(Clone, Copy, PartialEq, Eq)]
pub struct Ending {
    /// The number of the line, 0 to 4.
    pub line: u8,
    /// The pulse.
    pub flight: Flight,
}

/// What happens to a device.
#[derive(Clone, Copy, PartialEq, Eq)]
pub enum Happening {
    /// A pulse has ended: the device is told it.
    End(Ending),
    /// The device is ticked.
    Tick,
    /// Generators send the next element.
    Send,
}

/// What happens next, and when.
#[derive(Clone, Copy, PartialEq, Eq)]
pub struct Coming {
    /// The true time, in microseconds.
    pub time_us: u64,
    /// What happens then.
    pub what: Happening,
}

// How late the line of a number is.
fn late_at(late_us: &[u16], line: usize) -> u16
    requires { All (λ us. us ≤ most_late_us) late_us.now }
    ensures value { result ≡ late_at late_us.now line }
    ensures few { result ≤ most_late_us }
{
    if line < late_us.len() {
        late_us[line]
    } else {
        0
    }
}

impl Wires {
    /// The cables of a device, plugged in. They are so many microseconds late, 0 to 1999, by the
    /// number of their line; what the list has no number for is not late.
    pub fn new(late_us: &[u16]) -> Wires
        requires { All (λ us. us ≤ most_late_us) late_us.now }
        ensures { result ≡ wires_of late_us.now }
    {
        Wires {
            a: Wire::new(late_at(late_us, 0)),
            b: Wire::new(late_at(late_us, 1)),
            c: Wire::new(late_at(late_us, 2)),
            d: Wire::new(late_at(late_us, 3)),
            e: Wire::new(late_at(late_us, 4)),
        }
    }

    /// The cable of a line, 0 to 4.
    pub fn wire(&self, line: u8) -> Wire
        ensures { result ≡ wire_at self.now line }
    {
        match line {
            0 => self.a,
            1 => self.b,
            2 => self.c,
            3 => self.d,
            _ => self.e,
        }
    }

    /// Pulls a line's cable out, 0 to 4 ([`Wire::pull`]).
    pub fn pull(&mut self, line: u8)
        ensures { self.new ≡ with_wire self.old line (pulled (wire_at self.old line)) }
    {
        match line {
            0 => self.a.pull(),
            1 => self.b.pull(),
            2 => self.c.pull(),
            3 => self.d.pull(),
            _ => self.e.pull(),
        }
    }

    /// Plugs it in again ([`Wire::plug`]).
    pub fn plug(&mut self, line: u8)
        ensures { self.new ≡ with_wire self.old line (plugged (wire_at self.old line)) }
    {
        match line {
            0 => self.a.plug(),
            1 => self.b.plug(),
            2 => self.c.plug(),
            3 => self.d.plug(),
            _ => self.e.plug(),
        }
    }

    /// Makes a line so late, 0 to 1999 us, for pulses that are sent from now on
    /// ([`Wire::be_late`]).
    pub fn be_late(&mut self, line: u8, late_us: u16)
        requires { late_us ≤ most_late_us }
        ensures { self.new ≡ with_wire self.old line (made_late late_us (wire_at self.old line)) }
    {
        match line {
            0 => self.a.be_late(late_us),
            1 => self.b.be_late(late_us),
            2 => self.c.be_late(late_us),
            3 => self.d.be_late(late_us),
            _ => self.e.be_late(late_us),
        }
    }

    /// A generator sends a pulse on a line ([`Wire::send`]).
    pub fn send(&mut self, line: u8, now_us: u64, width_us: u32)
        requires { now_us < 2 ^ 60 }
        ensures { self.new
            ≡ with_wire self.old line (sent now_us width_us (wire_at self.old line)) }
    {
        match line {
            0 => self.a.send(now_us, width_us),
            1 => self.b.send(now_us, width_us),
            2 => self.c.send(now_us, width_us),
            3 => self.d.send(now_us, width_us),
            _ => self.e.send(now_us, width_us),
        }
    }

    /// A pulse is added on a line by hand ([`Wire::add`]).
    pub fn add(&mut self, line: u8, now_us: u64, width_us: u32)
        requires { now_us < 2 ^ 60 }
        ensures { self.new
            ≡ with_wire self.old line (added now_us width_us (wire_at self.old line)) }
    {
        match line {
            0 => self.a.add(now_us, width_us),
            1 => self.b.add(now_us, width_us),
            2 => self.c.add(now_us, width_us),
            3 => self.d.add(now_us, width_us),
            _ => self.e.add(now_us, width_us),
        }
    }

    /// What is on its way on a line, if anything is.
    pub fn flight(&self, line: u8) -> Option<Flight>
        ensures { result ≡ (wire_at self.now line).flight }
    {
        self.wire(line).flight()
    }

    /// Takes what was on its way on a line, if it has ended by now ([`Wire::take`]).
    pub fn take(&mut self, line: u8, now_us: u64) -> Option<Flight>
        ensures answer { result ≡ ended now_us (wire_at self.old line).flight }
        ensures new { self.new ≡ with_wire self.old line (taken now_us (wire_at self.old line)) }
    {
        match line {
            0 => self.a.take(now_us),
            1 => self.b.take(now_us),
            2 => self.c.take(now_us),
            3 => self.d.take(now_us),
            _ => self.e.take(now_us),
        }
    }

    /// What happens next to a device that is ticked then, if it is to be ticked, and to which
    /// generators send the next element then. At one time pulses that end come first, by the number
    /// of their line, then the tick, then what generators send.
    pub fn next(&self, tick_us: Option<u64>, send_us: u64) -> Coming
        ensures { result ≡ coming_of self.now tick_us send_us }
    {
        let mut next = tick_or_send(tick_us, send_us);
        end_before(4, &self.e.flight, &mut next);
        end_before(3, &self.d.flight, &mut next);
        end_before(2, &self.c.flight, &mut next);
        end_before(1, &self.b.flight, &mut next);
        end_before(0, &self.a.flight, &mut next);
        next
    }
}

fn tick_or_send(tick_us: Option<u64>, send_us: u64) -> Coming
    ensures { result ≡ tick_or_send tick_us send_us }
{
    match tick_us {
        Some(tick_us) if tick_us <= send_us => Coming {
            time_us: tick_us,
            what: Happening::Tick,
        },
        _ => Coming {
            time_us: send_us,
            what: Happening::Send,
        },
    }
}

// The end of what is on its way on a line comes next, unless something else comes before.
fn end_before(line: u8, flight: &Option<Flight>, next: &mut Coming)
    ensures { next.new ≡ end_or (ending_on line flight.now) next.old }
{
    if let Some(flight) = flight {
        if flight.end_us <= next.time_us {
            *next = Coming {
                time_us: flight.end_us,
                what: Happening::End(Ending {
                    line,
                    flight: *flight,
                }),
            };
        }
    }
}
