//! What may happen.

ghost use Rattle.std.specs.Prelude.{◌≡◌, IfOk, IfErr};

use crate::fault::PlantFault;
use irig_gen::GenFault;
use std::alloc::Global;
use std::marker::Model;

/// One atomic step of one actor. `g` is a generator and `r` a reader, both from 0; port `g` of each
/// reader is fed by generator `g`.
#[derive(Drop)]
pub enum Event {
    /// A generator goes to its next edge.
    GenEdge(u8),
    /// A reader's edge: it votes over what its ports heard, and an entry is logged.
    Tick(u8),
    /// The frame that a generator now sends comes to a reader. Nothing comes if it is silent.
    Carry { g: u8, r: u8 },
    /// The same, with the pulse of one element `width` microseconds wide; an element `at` of 100 or
    /// more changes nothing.
    Damage { g: u8, r: u8, at: u8, width: u32 },
    /// The true frame of an earlier edge, or this one, comes to a reader, whatever the generator's
    /// fault.
    Replay { g: u8, r: u8, edge: u64 },
    /// These pulses come to a reader.
    Raw { g: u8, r: u8, widths: Widths },
    /// A generator has a fault from now on, in place of any earlier one.
    Fault { g: u8, kind: GenFault },
    /// A generator has no fault any more.
    Repair(u8),
    /// A reader forgets what it heard and where it stood.
    Restart(u8),
}

/// Widths of pulses in microseconds, in order.
#[derive(Drop)]
pub struct Widths {
    items: Vec<u32>,
}

impl Model for Widths {
    ghost use Rattle.std.specs.Prelude.{List, ℕ};

    ghost Value = { List ℕ };

    ghost view = { λ w. w.items.items };
}

impl Widths {
    /// These widths; `Memory` if there is none for them.
    pub fn of(alloc: Global, widths: &[u32]) -> Result<Widths, PlantFault>
        ensures ok { IfOk result (λ w. w ≡ widths.now) }
        ensures memory { IfErr result (λ fault. fault ≡ PlantFault.Memory) }
    {
        let items = Vec::from_slice(alloc, widths)?;
        Ok(Widths { items })
    }

    /// The widths of a vector, which is kept.
    pub fn from_vec(widths: Vec<u32>) -> Widths
        ensures { result ≡ widths.items }
    {
        Widths { items: widths }
    }

    /// The widths in order.
    pub fn as_slice(&self) -> &[u32]
        ensures { result.now ≡ self.now }
    {
        self.items.as_slice()
    }
}
