//! The wires that a caller has chosen.

ghost use Rattle.std.specs.Prelude.{◌≡◌, All, IfOk, ◌<◌, ◌≤◌, length, IfSome};
ghost use Rattle.record_vcd.specs.Meanings.{codes_at, codes_of, place_of};

use crate::wire::{Wire, copied};
use std::alloc::{AllocError, Global};

/// Up to five wires.
#[derive(Drop)]
pub(crate) struct Chosen {
    pub(crate) wires: Vec<Wire>,
    ghost few: { length wires.items ≤ 5 },
}

impl Chosen {
    /// Those at these places.
    pub(crate) fn new(alloc: Global, wires: &[Wire], places: &[usize]) -> Result<Chosen, AllocError>
        requires few { length places.now ≤ 5 }
        requires places { All (λ place. place < length wires.now) places.now }
        ensures { IfOk result (λ chosen.
            codes_of chosen.wires.items ≡ codes_at wires.now places.now) }
    {
        let mut chosen = Vec::new(alloc);
        for &place in places {
            let wire = &wires[place];
            let name = copied(alloc, wire.name.as_slice())?;
            let code = copied(alloc, wire.code.as_slice())?;
            chosen.push(Wire { name, code })?;
        }
        Ok(Chosen { wires: chosen })
    }

    /// The place of the first wire that has this code, 0 to 4.
    pub(crate) fn place_of(&self, code: &[u8]) -> Option<u8>
        ensures place { result ≡ place_of (codes_of self.now.wires.items) code.now }
        ensures few { IfSome result (λ place. place < 5) }
    {
        for (place, wire) in self.wires.iter().enumerate() {
            if wire.code.as_slice() == code {
                return Some(place as u8);
            }
        }
        None
    }
}
