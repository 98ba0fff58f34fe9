//! Laws of scenarios with devices over their definitions. They have no code.

ghost use Rattle.std.specs.Prelude.{◌≡◌, ◌<◌, ◌++◌, ℕ, Bool, Some, None, Option, List, All, codes, length, true};
ghost use Rattle.scenario_values.specs.Names.{are_names};
ghost use Rattle.report_log.specs.LogLines.{whole_lines};
ghost use Rattle.report_run.specs.Meanings.{Refused};
ghost use Rattle.report_run.specs.Texts.{ending_of};
ghost use Rattle.irig_station.specs.ValidEntries.{IsStampInRange, IsToldInRange};
ghost use Rattle.irig_station_scene.specs.StationLines.{ShowsNeither, ShowsStamp, ShowsTold, StampLine, ToldLine, stamp_shown, told_shown};
ghost use Rattle.irig_station_scene.specs.StationText.{station_entry_text};
ghost use Rattle.irig_station_scene.specs.StationScenes.{StationScene};
ghost use Rattle.irig_station_scene.specs.StationTexts.{station_texts};

use irig_simulated::ToldSecond;
use irig_station::Entry;
use irig_timekeeper::Stamp;

/// A line of a log of devices says one thing: that of a told second shows its device, edge, second,
/// lock, cause, distance and bound, that of a stamp its device, instant, second, offset and bound,
/// and nothing else. A last line shows neither, nor does the line of a stamp that was not given.
pub fn device_lines_read_one_way()
    ensures told { (names : List (List ℕ)) (r : ℕ) (told : ToldSecond)
        → r < length names → IsToldInRange told
        → (line : List ℕ)
        × (station_entry_text names true (Entry.Told r told) ≡ line ++ codes "\n")
        × ShowsTold names line (told_shown r told) }
    ensures stamp { (names : List (List ℕ)) (r time : ℕ) (stamp : Stamp)
        → r < length names → IsStampInRange time stamp
        → (line : List ℕ)
        × (station_entry_text names true (Entry.Stamped r time (Some stamp)) ≡ line ++ codes "\n")
        × ShowsStamp names line (stamp_shown r time stamp) }
    ensures no_stamp { (names : List (List ℕ)) (r time : ℕ) → are_names names ≡ true
        → (line : List ℕ)
        × (station_entry_text names true (Entry.Stamped r time None) ≡ line ++ codes "\n")
        × ShowsNeither names line }
    ensures told_one_way { (names : List (List ℕ)) (line : List ℕ) (x y : ToldLine)
        → are_names names ≡ true → ShowsTold names line x → ShowsTold names line y → x ≡ y }
    ensures stamp_one_way { (names : List (List ℕ)) (line : List ℕ) (x y : StampLine)
        → are_names names ≡ true → ShowsStamp names line x → ShowsStamp names line y → x ≡ y }
    ensures apart { (names : List (List ℕ)) (line : List ℕ) (x : ToldLine) (y : StampLine)
        → ShowsTold names line x → ¬ ShowsStamp names line y }
    ensures last { (x : StationScene) (all : Bool) (refused : Option Refused)
        → are_names x.plan.names ≡ true
        → All (ShowsNeither x.plan.names)
        (whole_lines (ending_of (station_texts all) refused (Some x))) }
{}
