//! Laws over the definitions. They have no code.

ghost use Rattle.std.specs.Prelude.{◌≡◌, ℕ, Some, true};
ghost use Rattle.irig_time.specs.Timelines.{TimelineValue, IsSecond, truth_at};
ghost use Rattle.c_numbers.specs.Against.{is_against};
ghost use Rattle.c_numbers.specs.declared.reader.IrigReader.{IrigReader};
ghost use Rattle.c_numbers.specs.CheckWord.{IsOneNumberApart, IsSealed};

use irig_port::Told;
use irig_time::{Claim, UtcSecond};

/// While a reader is right, a port that contradicts it is untrue: if it has come to T(n), no claim
/// against it is the true one of T(n).
pub fn who_is_against_the_truth_is_untrue()
    ensures { (t : TimelineValue) (n : ℕ) (held : UtcSecond) (c : Claim) → IsSecond t n held
        → is_against held (Told.Claim c) ≡ true → ¬ (truth_at t n ≡ Some c) }
{}

/// A reader with its check word has it no longer if one of its numbers becomes another one, the
/// check word included, and be it by one bit. Pulses and a restart do not mend that (the clause
/// `sealed` of each), and a tick refuses it.
pub fn another_number_is_told()
    ensures { (r q : IrigReader) → IsSealed r → IsOneNumberApart r q → ¬ IsSealed q }
{}
