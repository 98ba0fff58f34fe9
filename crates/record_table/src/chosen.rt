//! The channels that a caller has chosen.

ghost use Rattle.std.specs.Prelude.{◌≡◌, ◌≤◌, IfOk, length};

use std::alloc::{AllocError, Global};

/// The places of up to five channels among the names.
#[derive(Drop)]
pub(crate) struct Chosen {
    pub(crate) places: Vec<usize>,
    ghost few: { length places.items ≤ 5 },
}

impl Chosen {
    /// Those.
    pub(crate) fn new(alloc: Global, chosen: &[usize]) -> Result<Chosen, AllocError>
        requires { length chosen.now ≤ 5 }
        ensures { IfOk result (λ copy. copy.places.items ≡ chosen.now) }
    {
        let mut places = Vec::new(alloc);
        places.extend_from_slice(chosen)?;
        Ok(Chosen { places })
    }
}
