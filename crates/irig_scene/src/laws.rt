//! Laws of scenarios over their definitions. They have no code.

ghost use Rattle.std.specs.Prelude.{◌≡◌, ◌<◌, ◌≤◌, ◌^◌, ◌++◌, ℕ, Bool, Some, None, Option, is_some, List, [], ◌∷◌, All, codes, length, map, true, false};
ghost use Rattle.irig_time.specs.Timelines.{TimelineValue, second_at};
ghost use Rattle.irig_plant.specs.HealthyPlant.{seconds_of, healthy_log};
ghost use Rattle.irig_plant.specs.Premises.{IsKept};
ghost use Rattle.irig_plant.specs.Runs.{events_after};
ghost use Rattle.irig_plant.specs.Truth.{IsTruthful};
ghost use Rattle.irig_plant.specs.Schedule.{setup_at, log_of};
ghost use Rattle.scenario_values.specs.Names.{are_names};
ghost use Rattle.irig_plant.specs.WholeSecond.{second_of};
ghost use Rattle.scenario_line.specs.PlantLine.{Plan};
ghost use Rattle.irig_scene.specs.HealthyRun.{IsOfSeconds, IsHealthyRun, HasTimeLine};
ghost use Rattle.irig_scene.specs.Scene.{Scene, scene, meaning_of, ending_text, output, output_shown};
ghost use Rattle.report_run.specs.Meanings.{Refused, meaning};
ghost use Rattle.irig_scene.specs.Stepping.{ticks_among};
ghost use Rattle.report_log.specs.Text.{entry_text, entries_text, port_line, port_word, time_shown_text};
ghost use Rattle.irig_scene.specs.PortLines.{is_port_line, without_port_lines, ports_too};
ghost use Rattle.report_log.specs.LogLines.{whole_lines, Shows, ShowsNothing};
ghost use Rattle.report_log.specs.PortWords.{ShowsWords};
ghost use Rattle.irig_vote.specs.Vote.{ports_of};
ghost use Rattle.irig_scene.specs.LogLines.{TellsTruth, VouchesForItself};
ghost use Rattle.irig_scene.specs.BrokenLogs.{VouchesUntilBroken};
ghost use Rattle.irig_scene.specs.VouchedByPorts.{VouchesByPorts};
ghost use Rattle.irig_scene.specs.VouchedLines.{IsPlantLineOf, VouchesByPlantLine};

use irig_plant::Entry;
use report_log::Shown;

/// If the premises hold for all readers and ticks of the events that the bytes give, each entry of
/// their log announces the true second of its edge, or none.
pub fn entries_are_true()
    ensures { (x : List ℕ) (scene : Scene) → (meaning_of x).scene ≡ Some scene
        → IsKept scene.plan.setup scene.events
        → All (IsTruthful scene.plan.setup.times) (log_of scene.plan.setup scene.events) }
{}

/// The headline over bytes, and that a log vouches for itself: of each prefix of the log that some
/// bytes give, however early it was cut off.
pub fn logs_are_true()
    ensures truth { (x : List ℕ) (all : Bool) (written rest : List ℕ)
        → output x all ≡ written ++ rest → TellsTruth x written }
    ensures vouches { (x : List ℕ) (all : Bool) (written rest : List ℕ)
        → output x all ≡ written ++ rest → VouchesForItself x written }
    // The same by the plant line of the bytes alone.
    ensures plant_line { (x : List ℕ) (all : Bool) (written rest : List ℕ)
        → output x all ≡ written ++ rest → VouchesByPlantLine x written }
    // If the last line says which edge broke the premises, the lines until then are true.
    ensures broken { (x : List ℕ) (all : Bool) (written rest : List ℕ)
        → output x all ≡ written ++ rest → VouchesUntilBroken x written }
    // With port lines a voted line is true by the one behind it, whatever the last line says.
    ensures ports { (shown : Shown) (x written rest : List ℕ)
        → output_shown x shown ≡ written ++ rest → VouchesByPorts x written }
{}

/// The plant line of some bytes says one list of names and one timeline.
pub fn plant_lines_read_one_way()
    ensures { (x : List ℕ) (names other : List (List ℕ)) (times more : TimelineValue)
        → IsPlantLineOf x names times → IsPlantLineOf x other more
        → (names ≡ other) × (times ≡ more) }
{}

/// The line of an entry shows its edge, reader and time, the port line of a tick its edge, reader
/// and words, and each nothing else; a last line shows nothing.
pub fn lines_read_one_way()
    ensures entry { (names : List (List ℕ)) (e : Entry) → are_names names ≡ true
        → e.edge < 2 ^ 64 → e.reader < length names
        → (line : List ℕ) × (entry_text names e ≡ line ++ codes "\n")
        × Shows names line e.reader e.edge (time_shown_text e.report.announce) }
    ensures one_way { (names : List (List ℕ)) (line : List ℕ) (r n q m : ℕ) (time other : List ℕ)
        → are_names names ≡ true → Shows names line r n time → Shows names line q m other
        → (r ≡ q) × (n ≡ m) × (time ≡ other) }
    ensures words { (names : List (List ℕ)) (e : Entry) → are_names names ≡ true
        → e.edge < 2 ^ 64 → e.reader < length names
        → (line : List ℕ) × (port_line names e ≡ line ++ codes "\n")
        × ShowsWords names line e.reader e.edge
        (map (port_word e.truth) (ports_of e.told e.redundancy)) }
    ensures words_one_way { (names : List (List ℕ)) (line : List ℕ) (r n q m : ℕ)
        (words others : List (List ℕ)) → are_names names ≡ true
        → ShowsWords names line r n words → ShowsWords names line q m others
        → (r ≡ q) × (n ≡ m) × (words ≡ others) }
    ensures last { (x : Scene) (refused : Option Refused) → are_names x.plan.names ≡ true
        → All (ShowsNothing x.plan.names) (whole_lines (ending_text refused (Some x))) }
{}

/// What ports told stands in lines of its own, which begin with a blank: what is proved of a log
/// without them holds of one with them.
pub fn port_lines_stand_apart()
    // Without these lines a log is that of a run that does not show them.
    ensures without { (x : List ℕ) (all : Bool)
        → without_port_lines (output_shown x (ports_too all)) ≡ output x all }
    // At a tick there is one, and it is no entry line.
    ensures one { (names : List (List ℕ)) (e : Entry) → are_names names ≡ true
        → (line : List ℕ) × (whole_lines (port_line names e) ≡ line ∷ [])
        × (is_port_line line ≡ true) × ShowsNothing names line }
    // A last line is none.
    ensures last { (x : Scene) (refused : Option Refused) → are_names x.plan.names ≡ true
        → All (λ line. is_port_line line ≡ false) (whole_lines (ending_text refused (Some x))) }
{}

/// A whole second has as many ticks as there are readers.
pub fn a_second_has_a_tick_a_reader()
    ensures { (generators readers : ℕ) → ticks_among (second_of generators readers) ≡ readers }
{}

/// A healthy plant announces, over bytes: what is written of a plant line and its seconds is known.
pub fn healthy_scenarios_announce()
    // No line is refused, and all the seconds are played.
    ensures meaning { (x : List ℕ) (plan : Plan) (n : ℕ) → IsOfSeconds x plan n
        → is_some (second_at plan.setup.times n) ≡ true
        → meaning_of x
        ≡ meaning (Some (scene plan (events_after (seconds_of plan.setup n) []))) None }
    // If the tables are true, the log is the healthy one, and ends with the premises kept.
    ensures log { (x : List ℕ) (all : Bool) (plan : Plan) (n : ℕ) → IsHealthyRun x plan n
        → output x all
        ≡ entries_text plan.names all (healthy_log plan.setup n) ++ codes "premises kept\n" }
    // So each reader has a line with T of each edge, from its lock_after-th on.
    ensures lines { (x : List ℕ) (all : Bool) (plan : Plan) (n r k : ℕ) → IsHealthyRun x plan n
        → r < length plan.setup.readers
        → (setup_at plan.setup.readers r).rules.lock_after ≤ k → k ≤ n
        → HasTimeLine plan (whole_lines (output x all)) r k }
{}
