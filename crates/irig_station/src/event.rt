//! What may happen in a station.

use irig_gen::GenFault;

/// One event. `g` is a generator and `r` a device, both from 0; line `g` of each device comes from
/// generator `g`. All but [`Pass`](Event::Pass) happen at the present instant.
#[derive(Clone, Copy, PartialEq, Eq)]
pub enum Event {
    /// So many microseconds of true time pass, at most 10^11: generators send, lines bring, devices
    /// tick.
    Pass(u64),
    /// A generator has a fault from the next frame on that begins now or later, in place of any
    /// earlier one.
    Fault { g: u8, kind: GenFault },
    /// A generator has no fault any more, from the next frame on that begins now or later.
    Repair(u8),
    /// The cable from a generator to a device is out, for what is sent from now on.
    Pull { g: u8, r: u8 },
    /// It is in again.
    Plug { g: u8, r: u8 },
    /// What comes by it is so many microseconds late from now on, 0 to 1999; more is taken for 1999.
    Late { g: u8, r: u8, us: u16 },
    /// A pulse so many microseconds wide rises on that line now; nothing comes of it if the line is
    /// busy.
    Pulse { g: u8, r: u8, width_us: u32 },
    /// A device is ticked.
    Tick(u8),
    /// A device forgets what it heard and where it stood; its counter goes on.
    Restart(u8),
    /// A device is asked for the stamp of the instant so many microseconds ago.
    Stamp { r: u8, ago_us: u32 },
}
