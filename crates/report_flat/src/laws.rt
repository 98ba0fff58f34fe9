//! What is proved of the definitions. It has no code.

ghost use Rattle.std.specs.Prelude.{◌≡◌, ◌≤◌, ℕ, None, List, length};
ghost use Rattle.irig_plant.specs.Schedule.{Setup, log_of};
ghost use Rattle.irig_plant.specs.declared.event.Event.{Event};
ghost use Rattle.irig_plant.specs.Audits.{audit_of};
ghost use Rattle.report_log.specs.declared.shown.Shown.{Shown};
ghost use Rattle.report_run.specs.Lines.{lines, max_lines};
ghost use Rattle.irig_scene.specs.Scene.{meaning_of, output_shown};
ghost use Rattle.report_flat.specs.Recording.{recorded};
ghost use Rattle.report_flat.specs.FlatText.{flat_text};

/// What readers hear is all that their log is made of: by pulses, ticks and restarts alone they say
/// the same, their ports tell the same, and the audit is the same.
pub fn recordings_have_their_log()
    ensures log { (s : Setup) (ev : List Event) → log_of s (recorded s ev) ≡ log_of s ev }
    ensures audit { (s : Setup) (ev : List Event) → audit_of s (recorded s ev) ≡ audit_of s ev }
{}

/// The log of a scenario that is written out as what its readers hear is the log of the scenario,
/// whatever of it is shown, if it is not refused and no line comes after the millionth.
pub fn flat_scenarios_have_their_log()
    ensures { (x : List ℕ) (shown : Shown) → (meaning_of x).refused ≡ None
        → length (lines (flat_text x)) ≤ max_lines
        → output_shown (flat_text x) shown ≡ output_shown x shown }
{}
