//! Laws of dumps over their definitions. They have no code.

ghost use Rattle.std.specs.Prelude.{◌≡◌, ℕ, List, ◌++◌, IsTrue, None, Some};
ghost use Rattle.record_vcd.specs.Changes.{Said, changes_of};
ghost use Rattle.record_text.specs.Words.{Word};
ghost use Rattle.record_vcd.specs.Order.{AreInOrder};
ghost use Rattle.record_vcd.specs.Sections.{is_over};
ghost use Rattle.record_vcd.specs.Dumps.{AreCalls, AreHeadCalls, Call, HeadCall, IsAtTop, IsBelow, dump_of, head_after, head_taken_by, reader_after, said_in, taken_by, to_come};

use crate::changes::Changes;
use crate::head::Head;
use crate::unit::Unit;

/// However the bytes of a dump are cut into calls, what these say and what is still to come is what was to
/// come before them. So what was said is a front of what any text says that goes on after them: nothing is
/// read ahead.
pub fn pieces_do_not_matter()
    ensures { (changes : Changes) (calls : List Call) (more : List ℕ) → AreCalls changes calls
        → to_come changes (taken_by calls ++ more)
        ≡ said_in calls ++ to_come (reader_after changes calls) more }
{}

/// What is said of the wires that were chosen is what the dump says of them by its definition, from the
/// first byte of its head on: `dump_of` of all the bytes that the calls took and of whatever follows.
/// At the end of the text that is what [`Changes::end`] says.
pub fn changes_are_those_of_the_file()
    ensures { (first : Head) (head_calls : List HeadCall) (places : List ℕ) (unit : Unit)
        (changes : Changes) (calls : List Call) (more : List ℕ)
        → IsAtTop first → AreHeadCalls first head_calls
        → IsTrue (is_over (head_after first head_calls).section)
        → (head_after first head_calls).unit ≡ Some unit
        → IsBelow (head_after first head_calls) places unit changes
        → AreCalls changes calls
        → dump_of places (head_taken_by head_calls ++ (taken_by calls ++ more))
        ≡ Some (said_in calls ++ to_come (reader_after changes calls) more) }
{}

/// Levels are said in the order of their times, once for each, all below 1,000 hours and no more than a
/// day after the ones before, and the recording ends not before the last of them.
pub fn levels_are_in_order()
    ensures { (chosen : List (List ℕ)) (unit : Unit) (words : List Word)
        → AreInOrder None (changes_of chosen unit words) }
{}
