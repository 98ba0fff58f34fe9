//! What tells by the first line which of two plays is asked for.

ghost use Rattle.std.specs.Prelude.{◌≡◌, ℕ, Bool, List, IfOk};

use crate::play::Play;
use std::alloc::{AllocError, Global};

/// A play that is chosen by the first line, instead of another.
pub trait Chosen: Play {
    // Whether this first line chooses it.
    ghost is_chosen: { List ℕ → Bool };

    /// Whether this line, the first that is not blank, chooses it; an error if there is no memory.
    fn is_chosen(alloc: Global, line: &[u8]) -> Result<bool, AllocError>
        ensures { IfOk result (λ is. is ≡ is_chosen line.now) };
}
