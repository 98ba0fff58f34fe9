//! Laws of the lines of events over their definitions. They have no code.

ghost use Rattle.std.specs.Prelude.{◌≡◌, ℕ, List, true, Ok};
ghost use Rattle.scenario_values.specs.Names.{are_names};
ghost use Rattle.scenario_line.specs.EventLine.{command_in_line};
ghost use Rattle.report_flat.specs.EventText.{event_line, IsLine, IsWritten, IsInRange};

use irig_plant::Event;
use scenario_line::Command;

/// The line of an event is read back as that event, and what lines give is in range.
pub fn event_lines_are_read_back()
    ensures read { (names : List (List ℕ)) (e : Event) → are_names names ≡ true
        → IsWritten names e → command_in_line names (event_line names e) ≡ Ok (Command.Event e) }
    // It is one line of a scenario, and no blank one.
    ensures line { (names : List (List ℕ)) (e : Event) → are_names names ≡ true
        → IsWritten names e → IsLine (event_line names e) }
    // So the events of these three kinds that lines give can be written.
    ensures range { (names : List (List ℕ)) (line : List ℕ) (e : Event)
        → command_in_line names line ≡ Ok (Command.Event e) → IsInRange names e }
{}
