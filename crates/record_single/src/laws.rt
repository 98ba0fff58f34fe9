//! Laws of single files over their definitions. They have no code.

ghost use Rattle.std.specs.Prelude.{◌≡◌, ℕ, List, ◌++◌};
ghost use Rattle.record_single.specs.Heads.{AreCalls, Call, bytes_of, head_after, to_find};

use crate::parts::Head;

/// However the bytes of a file are cut into calls that find no samples, what is found behind them is
/// what was to be found before.
pub fn pieces_do_not_matter()
    ensures { (head : Head) (calls : List Call) (more : List ℕ) → AreCalls head calls
        → to_find head (bytes_of calls ++ more) ≡ to_find (head_after head calls) more }
{}
