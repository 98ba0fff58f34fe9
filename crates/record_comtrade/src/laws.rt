//! Laws of records over their definitions. They have no code.

ghost use Rattle.std.specs.Prelude.{◌≡◌, ℕ, List, [], ◌++◌, Ok};
ghost use Rattle.record_comtrade.specs.Texts.{config_lines, lines_to_come};
ghost use Rattle.record_comtrade.specs.Configs.{config_of};
ghost use Rattle.record_comtrade.specs.Reads.{value_of};
ghost use Rattle.record_comtrade.specs.Data.{to_come};
ghost use Rattle.record_comtrade.specs.Records.{AreCalls, ArePieces, Call, IsDataOf, Piece, bytes_of, reader_after, record_of, said_in, taken_by, text_after};

use crate::data::Data;
use crate::parts::Config;
use crate::reading::ConfigText;

/// However the bytes of samples are cut into calls, what these say and what is still to come is what was to
/// come before them. So what was said is a front of what any samples say that go on after them: nothing is
/// read ahead.
pub fn pieces_do_not_matter()
    ensures { (reader : Data) (calls : List Call) (more : List ℕ) → AreCalls reader calls
        → to_come reader (taken_by calls ++ more)
        ≡ said_in calls ++ to_come (reader_after reader calls) more }
{}

/// What is said of the digital channels that were chosen is what the record says of them by its definition:
/// `record_of` of all bytes of the configuration, of all the bytes of samples that the calls took, and of
/// whatever follows. At the end of the samples that is what [`Data::end`] says.
pub fn changes_are_those_of_the_file()
    ensures { (first : ConfigText) (pieces : List Piece) (config : Config) (chosen : List ℕ)
        (reader : Data) (calls : List Call) (more : List ℕ)
        → ((text : List ℕ) → lines_to_come first text ≡ config_lines text)
        → ArePieces first pieces
        → config_of (lines_to_come (text_after first pieces) []) ≡ Ok (value_of config)
        → IsDataOf config chosen reader → AreCalls reader calls
        → record_of chosen (bytes_of pieces) (taken_by calls ++ more)
        ≡ Ok (said_in calls ++ to_come (reader_after reader calls) more) }
{}
