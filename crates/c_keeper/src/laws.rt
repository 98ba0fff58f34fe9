//! Laws of the check word over its definition. They have no code.

ghost use Rattle.c_keeper.specs.declared.timekeeper.IrigTimekeeper.{IrigTimekeeper};
ghost use Rattle.c_keeper.specs.CheckWord.{IsOneNumberApart, IsSealed};

/// A timekeeper with its check word has it no longer if one of its numbers becomes another one, the
/// check word included, and be it by one bit. Pulses and a restart do not mend that (the clause
/// `sealed` of each), and a tick refuses it.
pub fn another_number_is_told()
    ensures { (t q : IrigTimekeeper) → IsSealed t → IsOneNumberApart t q → ¬ IsSealed q }
{}
