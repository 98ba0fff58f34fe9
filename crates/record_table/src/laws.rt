//! Laws of tables over their definitions. They have no code.

ghost use Rattle.std.specs.Prelude.{◌≡◌, ℕ, List, ◌++◌, None, Option, Some};
ghost use Rattle.record_text.specs.Lines.{Line};
ghost use Rattle.record_table.specs.Changes.{Reading, Said, changes_of};
ghost use Rattle.record_table.specs.Order.{AreInOrder};
ghost use Rattle.record_table.specs.Tables.{AreCalls, AreHeadCalls, Call, HeadCall, IsAtTop, IsBelow, head_after, head_taken_by, reader_after, said_in, table_of, taken_by, to_come};
ghost use Rattle.record_table.specs.declared.head.Stage.TheVariants.{Below};

use crate::changes::Changes;
use crate::clock::Clock;
use crate::head::Head;
use record_cells::Threshold;

/// However the bytes of a table are cut into calls, what these say and what is still to come is
/// what was to come before them. So what was said is a front of what any text says that goes on
/// after them: nothing is read ahead.
pub fn pieces_do_not_matter()
    ensures { (changes : Changes) (calls : List Call) (more : List ℕ) → AreCalls changes calls
        → to_come changes (taken_by calls ++ more)
        ≡ said_in calls ++ to_come (reader_after changes calls) more }
{}

/// What is said of the channels that were chosen is what the table says of them by its definition,
/// from the first byte of its head on: `table_of` of all the bytes that the calls took and of
/// whatever follows. At the end of the text that is what [`Changes::end`] says.
pub fn changes_are_those_of_the_file()
    ensures { (first : Head) (head_calls : List HeadCall) (threshold : Option Threshold)
        (places : List ℕ) (clock : Clock)
        (changes : Changes) (calls : List Call) (more : List ℕ)
        → IsAtTop first → AreHeadCalls first head_calls
        → (head_after first head_calls).stage ≡ Below clock
        → IsBelow (head_after first head_calls) threshold places clock changes
        → AreCalls changes calls
        → table_of threshold places (head_taken_by head_calls ++ (taken_by calls ++ more))
        ≡ Some (said_in calls ++ to_come (reader_after changes calls) more) }
{}

/// Levels are said in the order of their times, once for each, all below 1,000 hours and no more
/// than a day after the ones before, and the recording ends not before the last of them.
pub fn levels_are_in_order()
    ensures { (reading : Reading) (lines : List Line)
        → AreInOrder None (changes_of reading lines) }
{}
