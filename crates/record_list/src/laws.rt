//! Laws of lists over their definitions. They have no code.

ghost use Rattle.std.specs.Prelude.{◌≡◌, ℕ, List, ◌++◌, None};
ghost use Rattle.record_text.specs.Lines.{Line, lines_on};
ghost use Rattle.record_text.specs.declared.lines.Lines.{Lines};
ghost use Rattle.record_list.specs.Changes.{Reading, changes_of};
ghost use Rattle.record_list.specs.Lists.{AreCalls, Call, reader_after, said_in, taken_by, to_come};
ghost use Rattle.record_list.specs.Order.{AreInOrder};

use crate::changes::Changes;

/// However the bytes of a list are cut into calls, what these say and what is still to come is what
/// was to come before them. So what was said is a front of what any text says that goes on after
/// them: nothing is read ahead.
pub fn pieces_do_not_matter()
    ensures { (changes : Changes) (calls : List Call) (more : List ℕ) → AreCalls changes calls
        → to_come changes (taken_by calls ++ more)
        ≡ said_in calls ++ to_come (reader_after changes calls) more }
{}

/// What is said of the ports that were chosen is what the lines below the names say of them by the
/// definition: `changes_of` of the lines of all the bytes that the calls took and of whatever
/// follows. At the end of the text that is what [`Changes::last`] says.
pub fn changes_are_those_of_the_list()
    ensures { (reading : Reading) (lines : Lines) (first : Changes) (calls : List Call)
        (more : List ℕ)
        → ((text : List ℕ) → to_come first text ≡ changes_of reading (lines_on lines text))
        → AreCalls first calls
        → changes_of reading (lines_on lines (taken_by calls ++ more))
        ≡ said_in calls ++ to_come (reader_after first calls) more }
{}

/// Levels are said in the order of their times, once for each.
pub fn levels_are_in_order()
    ensures { (reading : Reading) (lines : List Line)
        → AreInOrder None (changes_of reading lines) }
{}
