//! A cable from a generator to a device.

ghost use Rattle.std.specs.Prelude.{◌≡◌, ◌≤◌, ◌<◌, ◌^◌};
ghost use Rattle.irig_wires.specs.Wires.{added, ended, flight_of, made_late, most_late_us, plugged, pulled, sent, taken, wire_of};

/// A pulse on its way.
#[derive(Clone, Copy, PartialEq, Eq)]
pub struct Flight {
    /// When it rises at the device, in microseconds of true time.
    pub rise_us: u64,
    /// When it has ended there.
    pub end_us: u64,
}

// One that rises then, and is so wide.
fn flight_of(rise_us: u64, width_us: u32) -> Flight
    requires { rise_us < 2 ^ 63 }
    ensures { result ≡ flight_of rise_us width_us }
{
    Flight {
        rise_us,
        end_us: rise_us + u64::from(width_us),
    }
}

/// A cable from a generator to a device. The line is busy from when a pulse is sent until it has
/// ended and is taken: a second one is lost.
#[derive(Clone, Copy, PartialEq, Eq)]
pub struct Wire {
    pub(crate) is_plugged: bool,
    pub(crate) late_us: u16,
    pub(crate) flight: Option<Flight>,
}

impl Wire {
    /// A cable that is plugged in and brings pulses so many microseconds late, 0 to 1999. So a
    /// pulse of 8 ms ends before the next element begins.
    pub fn new(late_us: u16) -> Wire
        requires { late_us ≤ most_late_us }
        ensures { result ≡ wire_of late_us }
    {
        Wire {
            is_plugged: true,
            late_us,
            flight: None,
        }
    }

    /// Pulls the cable out: what a generator sends from now on is lost, and what is on its way
    /// comes.
    pub fn pull(&mut self)
        ensures { self.new ≡ pulled self.old }
    {
        self.is_plugged = false;
    }

    /// Plugs it in again, for pulses that are sent from now on.
    pub fn plug(&mut self)
        ensures { self.new ≡ plugged self.old }
    {
        self.is_plugged = true;
    }

    /// Pulses that are sent from now on come so many microseconds late, 0 to 1999.
    pub fn be_late(&mut self, late_us: u16)
        requires { late_us ≤ most_late_us }
        ensures { self.new ≡ made_late late_us self.old }
    {
        self.late_us = late_us;
    }

    /// A generator sends a pulse so many microseconds wide at a true time, and it rises as much
    /// later as the line is late. It is lost if the cable is out or the line is busy.
    pub fn send(&mut self, now_us: u64, width_us: u32)
        requires { now_us < 2 ^ 60 }
        ensures { self.new ≡ sent now_us width_us self.old }
    {
        if self.is_plugged && self.flight.is_none() {
            let rise_us = now_us + u64::from(self.late_us);
            self.flight = Some(flight_of(rise_us, width_us));
        }
    }

    /// A pulse so many microseconds wide is added by hand and rises at this true time, whether the
    /// cable is in or out. If the line is busy, nothing comes of it.
    pub fn add(&mut self, now_us: u64, width_us: u32)
        requires { now_us < 2 ^ 60 }
        ensures { self.new ≡ added now_us width_us self.old }
    {
        if self.flight.is_none() {
            self.flight = Some(flight_of(now_us, width_us));
        }
    }

    /// Whether the cable is in.
    pub fn is_plugged(&self) -> bool
        ensures { result ≡ self.now.is_plugged }
    {
        self.is_plugged
    }

    /// How many microseconds late what is sent now comes.
    pub fn late_us(&self) -> u16
        ensures { result ≡ self.now.late_us }
    {
        self.late_us
    }

    /// What is on its way, if anything is.
    pub fn flight(&self) -> Option<Flight>
        ensures { result ≡ self.now.flight }
    {
        self.flight
    }

    /// Takes what was on its way if it has ended by now, so that another pulse may be sent.
    pub fn take(&mut self, now_us: u64) -> Option<Flight>
        ensures answer { result ≡ ended now_us self.old.flight }
        ensures new { self.new ≡ taken now_us self.old }
    {
        match self.flight {
            Some(flight) if flight.end_us <= now_us => {
                self.flight = None;
                Some(flight)
            }
            _ => None,
        }
    }
}
