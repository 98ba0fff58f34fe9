//! A wire that a head names.

ghost use Rattle.std.specs.Prelude.{◌≡◌, IfOk};

use std::alloc::{AllocError, Global};

/// A wire of one bit.
#[derive(Drop)]
pub struct Wire {
    /// Its name.
    pub name: Vec<u8>,
    /// What stands for it below the head, up to 254 bytes.
    pub code: Vec<u8>,
}

/// A copy of a word.
pub(crate) fn copied(alloc: Global, word: &[u8]) -> Result<Vec<u8>, AllocError>
    ensures { IfOk result (λ copy. copy.items ≡ word.now) }
{
    let mut copy = Vec::new(alloc);
    copy.extend_from_slice(word)?;
    Ok(copy)
}
