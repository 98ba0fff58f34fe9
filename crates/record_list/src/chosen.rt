//! The ports that a caller has chosen.

ghost use Rattle.std.specs.Prelude.{◌≡◌, ◌≤◌, IfOk, length};
ghost use Rattle.record_list.specs.Rows.{bit_of};

use std::alloc::{AllocError, Global};

/// The numbers of up to five ports.
#[derive(Drop)]
pub(crate) struct Chosen {
    pub(crate) ports: Vec<u64>,
    ghost few: { length ports.items ≤ 5 },
}

impl Chosen {
    /// Those.
    pub(crate) fn new(alloc: Global, chosen: &[u64]) -> Result<Chosen, AllocError>
        requires { length chosen.now ≤ 5 }
        ensures { IfOk result (λ copy. copy.ports.items ≡ chosen.now) }
    {
        let mut ports = Vec::new(alloc);
        ports.extend_from_slice(chosen)?;
        Ok(Chosen { ports })
    }
}

/// The bit of a port among those that are chosen, the first by the bit of 1; 0 of another.
pub(crate) fn bit_of(ports: &[u64], port: u64) -> u8
    requires { length ports.now ≤ 5 }
    ensures { result ≡ bit_of ports.now port }
{
    for (at, chosen) in ports.iter().enumerate() {
        if *chosen == port {
            return 1 << at as u8;
        }
    }
    0
}
