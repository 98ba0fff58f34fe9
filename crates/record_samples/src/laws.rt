//! Laws of records over their definitions. They have no code.

ghost use Rattle.std.specs.Prelude.{◌≡◌, ℕ, List, [], ◌++◌, Ok};
ghost use Rattle.record_comtrade.specs.declared.reading.ConfigText.{ConfigText};
ghost use Rattle.record_comtrade.specs.declared.parts.Config.{Config};
ghost use Rattle.record_comtrade.specs.Texts.{config_lines, lines_to_come};
ghost use Rattle.record_comtrade.specs.Configs.{ConfigValue, config_of};
ghost use Rattle.record_comtrade.specs.Reads.{value_of};
ghost use Rattle.record_comtrade.specs.Records.{ArePieces, Piece, bytes_of, text_after};
ghost use Rattle.record_samples.specs.Readers.{to_come};
ghost use Rattle.record_samples.specs.Order.{AreLater};
ghost use Rattle.record_samples.specs.Records.{AreCalls, Call, Chosen, IsSamplesOf, record_of, said_in, samples_after, samples_say, taken_by};

use crate::samples::Samples;

/// However the bytes of samples are cut into calls, what these say and what is still to come is
/// what was to come before them. So what was said is a front of what any samples say that go on
/// after them: nothing is read ahead.
pub fn pieces_do_not_matter()
    ensures { (reader : Samples) (calls : List Call) (more : List ℕ) → AreCalls reader calls
        → to_come reader (taken_by calls ++ more)
        ≡ said_in calls ++ to_come (samples_after reader calls) more }
{}

/// What is said of the channels that were chosen is what the record says of them by its
/// definition: `record_of` of all bytes of the configuration, of all the bytes of samples that the
/// calls took, and of whatever follows. At the end of the samples that is what [`Samples::end`]
/// says.
pub fn changes_are_those_of_the_file()
    ensures { (first : ConfigText) (pieces : List Piece) (config : Config) (chosen : Chosen)
        (reader : Samples) (calls : List Call) (more : List ℕ)
        → ((text : List ℕ) → lines_to_come first text ≡ config_lines text)
        → ArePieces first pieces
        → config_of (lines_to_come (text_after first pieces) []) ≡ Ok (value_of config)
        → IsSamplesOf config chosen reader → AreCalls reader calls
        → record_of chosen (bytes_of pieces) (taken_by calls ++ more)
        ≡ Ok (said_in calls ++ to_come (samples_after reader calls) more) }
{}

/// Levels are said in the order of their times, whatever the samples are.
pub fn levels_are_in_order()
    ensures { (config : ConfigValue) (chosen : Chosen) (samples : List ℕ)
        → AreLater 0 (samples_say chosen samples config) }
{}
