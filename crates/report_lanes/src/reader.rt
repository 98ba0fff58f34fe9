//! The lanes of a reader that are open.

ghost use Rattle.std.specs.Prelude.{◌≡◌, List, [], ◌∷◌};
ghost use Rattle.report_found.specs.declared.tick.Tick.{Tick as TickOf};
ghost use Rattle.report_lanes.specs.Lanes.{open_of, open_port};

use crate::lane::{Lane, grown};
use crate::shown::{stood_at, told_at};
use report_found::Tick;

/// How it stands, and what each of its ports tells.
#[derive(Clone, Copy)]
pub(crate) struct ReaderLanes {
    pub(crate) stood: Option<Lane>,
    a: Option<Lane>,
    b: Option<Lane>,
    c: Option<Lane>,
    d: Option<Lane>,
    e: Option<Lane>,
}

impl ReaderLanes {
    /// Those of a reader that has not ticked.
    pub(crate) fn new() -> ReaderLanes
        ensures { result ≡ open_of [] }
    {
        ReaderLanes {
            stood: None,
            a: None,
            b: None,
            c: None,
            d: None,
            e: None,
        }
    }

    /// Those after one tick more.
    pub(crate) fn after(&self, tick: &Tick) -> ReaderLanes
        ensures { (ts : List TickOf) → self.now ≡ open_of ts → result ≡ open_of (tick.now ∷ ts) }
    {
        ReaderLanes {
            stood: Some(grown(self.stood, stood_at(tick))),
            a: Some(grown(self.a, told_at(0, tick))),
            b: Some(grown(self.b, told_at(1, tick))),
            c: Some(grown(self.c, told_at(2, tick))),
            d: Some(grown(self.d, told_at(3, tick))),
            e: Some(grown(self.e, told_at(4, tick))),
        }
    }

    /// That of a port, 0 to 4.
    pub(crate) fn port(&self, port: u8) -> Option<Lane>
        ensures { result ≡ open_port port self.now }
    {
        match port {
            0 => self.a,
            1 => self.b,
            2 => self.c,
            3 => self.d,
            _ => self.e,
        }
    }
}
