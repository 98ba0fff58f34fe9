//! A scenario for C, as a static library: from the text of a scenario to the text of its log, both
//! in memory that C owns; and the texts of frames.
//!
//! docs/SCENARIOS.md says how a scenario is written, docs/OUTPUT.md what a log says. A run asks the
//! C library for memory, gives all of it back, and keeps nothing between calls.
#![tactic(auto)]

ghost use Rattle.std.specs.Prelude.{All, ◌≡◌, ◌≢◌, ◌≤◌, ◌⊎◌, ℕ, List, IsSome, None, Some, length, take, false, true};
ghost use Rattle.text_frame.specs.Frame.{NamesNoSecond, ShowsFrameOf};
ghost use Rattle.text_frame.specs.Letters.{ShowsNoSymbols};
ghost use Rattle.text_frame.specs.Reading.{IsReadingOf};
ghost use Rattle.irig_plant.specs.Schedule.{log_of};
ghost use Rattle.irig_plant.specs.Truth.{IsTruthful};
ghost use Rattle.report_log.specs.declared.shown.Shown.{Shown};
ghost use Rattle.irig_scene.specs.PortLines.{without_port_lines};
ghost use Rattle.irig_scene.specs.Scene.{Scene, audit_in, meaning_of, output, output_shown};
ghost use Rattle.irig_scenario.specs.DeviceLogs.{VouchesForDevices};
ghost use Rattle.irig_scenario.specs.Scenarios.{has_devices};
ghost use Rattle.irig_scenario.specs.AnyScenario.{AnyScene, any_meaning};
ghost use Rattle.irig_station.specs.StationPromise.{IsTrueEntry};
ghost use Rattle.irig_station_scene.specs.StationScenes.{StationScene, station_audit, station_log, station_scenario};
ghost use Rattle.report_run.specs.Meanings.{meaning_of as lines_mean};
ghost use Rattle.c_scenario.specs.Entries.{entries_of, verdict_by, verdict_in, verdict_on_devices};
ghost use Rattle.c_scenario.specs.Told.{told_of};
ghost use Rattle.c_scenario.specs.Frames.{are_options, are_rules, options_in, rules_in};
ghost use Rattle.c_scenario.specs.TrueEntries.{AreTrueBefore};
ghost use Rattle.c_scenario.specs.Stretches.{stretches_of};
ghost use Rattle.c_scenario.specs.Lanes.{lanes_of};
ghost use Rattle.report_log.specs.Text.{entries_alone};
ghost use Rattle.c_scenario.specs.Vouched.{VouchesForReaders};
ghost use Rattle.c_scenario.specs.Runs.{HasWholeLog, IsRefusalOf, IsStatus, scenario_log, scenario_refusal, shown_of, written_over};

mod entry;
mod entry_log;
mod frame;
mod lane;
mod refusal;
mod run;
mod stretch;
mod told;
mod told_log;

use entry::{verdict_for_c, verdict_on_any, verdict_on_station};
pub use entry::{IrigEntry, IrigVerdict};
use entry_log::{hear_text, write_entries};
pub use frame::IrigFrameOptions;
use irig_scenario::{refusal_of, why_of_devices, why_of_readers};
use irig_scene::{Run, Shown};
use irig_station_scene::StationRun;
pub use lane::IrigLane;
use lane::write_lanes;
pub use refusal::{IrigRefusal, IrigSpan};
use report_found::find;
use report_lanes::draw;
use std::alloc::Global;
use stretch::write_stretches;
pub use stretch::{IrigOffset, IrigStretch};
use text_frame::{FrameText, ReadingFault, frame_lines, frame_text};
pub use told::IrigDeviceEntry;
use told_log::{hear_devices, write_told};

// Of the texts of frames: written; not, for a text or a number that means nothing; without memory not.
const DONE: u8 = 0;

const BAD_TEXT: u8 = 1;

const NO_MEMORY: u8 = 6;

/// Runs a scenario, and writes as much of its log into `log` as that has room for; with `all` the
/// silent entries too, or all seconds that devices told. `whole` is then how many bytes the log has.
///
/// 0 if the run was done, and 3 if a line is refused, as the log's last line says. 5 if there was no
/// memory for the log, and 6 if there was none for the run: `whole` is then how many bytes there were
/// until then, the first of the log. (4 is a failed read, of which a text in memory has none.)
#[unsafe(no_mangle)]
pub extern "C" fn irig_scene_c_run(
    alloc: Global,
    text: &[u8],
    all: bool,
    log: &mut [u8],
    whole: &mut usize,
) -> u8
    ensures status { IsStatus result }
    ensures done { result ≡ 0 → scenario_refusal text.now ≡ None }
    ensures refused { result ≡ 3 → IsSome (scenario_refusal text.now) }
    ensures whole { HasWholeLog result
        → whole.new ≡ length (scenario_log text.now (entries_alone all)) }
    ensures front { whole.new ≤ length (scenario_log text.now (entries_alone all)) }
    // that many first bytes of the log stand there, as far as there is room, and behind them what
    // stood there
    ensures log { log.new
        ≡ written_over log.old (take whole.new (scenario_log text.now (entries_alone all))) }
    // of a plant of readers
    ensures vouches { has_devices text.now ≡ false
        → VouchesForReaders text.now (take whole.new log.new) }
    // of a plant of devices
    ensures vouches_for_devices { has_devices text.now ≡ true
        → VouchesForDevices text.now (take whole.new log.new) }
{
    let ended = run::run_text(alloc, text, Shown { all, ports: false });
    run::write_over(log, &ended.log);
    *whole = ended.log.len();
    run::status_of(&ended.answer)
}

/// The same, and with `ports` the log has after each tick what its ports told; devices have none. If
/// a line is refused, `refusal` says which and as what, and as much of the reason is written into
/// `reason` as that has room for: one line of text without a newline, as the program writes it.
#[unsafe(no_mangle)]
pub extern "C" fn irig_scene_c_run_shown(
    alloc: Global,
    text: &[u8],
    all: bool,
    ports: bool,
    log: &mut [u8],
    whole: &mut usize,
    reason: &mut [u8],
    refusal: &mut IrigRefusal,
) -> u8
    ensures status { IsStatus result }
    ensures done { result ≡ 0 → scenario_refusal text.now ≡ None }
    ensures refused { result ≡ 3 → IsSome (scenario_refusal text.now) }
    ensures refusal { HasWholeLog result
        → IsRefusalOf (scenario_refusal text.now) refusal.new.line refusal.new.number }
    ensures whole { HasWholeLog result
        → whole.new ≡ length (scenario_log text.now (shown_of all ports)) }
    ensures front { whole.new ≤ length (scenario_log text.now (shown_of all ports)) }
    ensures log { log.new
        ≡ written_over log.old (take whole.new (scenario_log text.now (shown_of all ports))) }
    // without the lines of ports the log is that of a run that does not show them
    ensures without { without_port_lines (output_shown text.now (shown_of all true))
        ≡ output text.now all }
    // of a plant of readers
    ensures vouches { has_devices text.now ≡ false
        → VouchesForReaders text.now (take whole.new log.new) }
    // of a plant of devices
    ensures vouches_for_devices { has_devices text.now ≡ true
        → VouchesForDevices text.now (take whole.new log.new) }
{
    let ended = run::run_text(alloc, text, Shown { all, ports });
    run::write_over(log, &ended.log);
    *whole = ended.log.len();
    *refusal = run::explain(alloc, &ended.answer, &ended.refused, reason);
    run::status_of(&ended.answer)
}

/// The same run of a plant of readers, whose log is written into `entries` as numbers, silent ones
/// too, as many as it has room for, each with the line that asked for it. `whole` is then how many
/// entries the log has, and `verdict` says whether the premises held. A plant of devices is refused.
///
/// 0 if the run was done, and 3 if a line is refused, as `refusal` and `reason` say. 6 if there was no
/// memory for the run, and 5 if there was none to say what is refused: nothing is written into
/// `entries` then, and `whole` is 0.
#[unsafe(no_mangle)]
pub extern "C" fn irig_scene_c_run_entries(
    alloc: Global,
    text: &[u8],
    entries: &mut [IrigEntry],
    whole: &mut usize,
    verdict: &mut IrigVerdict,
    reason: &mut [u8],
    refusal: &mut IrigRefusal,
) -> u8
    ensures status { IsStatus result }
    ensures done { result ≡ 0 → (meaning_of text.now).refused ≡ None }
    ensures refused { result ≡ 3 → IsSome (meaning_of text.now).refused }
    ensures refusal { HasWholeLog result
        → IsRefusalOf (meaning_of text.now).refused refusal.new.line refusal.new.number }
    // each entry of the log, in its order, with the line that asked for it, as far as there is room
    ensures entries { HasWholeLog result
        → entries.new ≡ written_over entries.old (entries_of text.now) }
    ensures whole { HasWholeLog result → whole.new ≡ length (entries_of text.now) }
    ensures unchanged { 4 ≤ result → entries.new ≡ entries.old }
    ensures verdict { result ≡ 0 → (at : Scene) → (meaning_of text.now).scene ≡ Some at
        → verdict.new ≡ verdict_by (audit_in at) }
    ensures no_verdict { result ≢ 0 → verdict.new.kind ≡ 0 }
    // if the premises held, each entry of the log shows the true second of its edge, or none
    ensures truth { result ≡ 0 → verdict.new.kind ≡ 1
        → (at : Scene) → (meaning_of text.now).scene ≡ Some at
        → All (IsTruthful at.plan.setup.times) (log_of at.plan.setup at.events) }
    // if they broke at an edge of a reader, each entry before that one does
    ensures truth_until_broken { result ≡ 0 → verdict.new.kind ≡ 2
        → (at : Scene) → (meaning_of text.now).scene ≡ Some at
        → AreTrueBefore at verdict.new.reader verdict.new.edge }
{
    let run = hear_text(alloc, text);
    *verdict = verdict_for_c(&run.answer);
    *whole = write_entries(entries, &run);
    let Run {
        answer,
        refused,
        ..
    } = run;
    *refusal = run::explain(alloc, &answer, &why_of_readers(refused), reason);
    run::status_of(&answer)
}

/// A run of a plant of readers or of devices, of which is written into `stretches` who lied and what
/// it cost, as many as it has room for: for each line of `irig blame` but the totals and the last one
/// a stretch, in their order. A device is a reader there, its lines are the ports, and each second that
/// it told is a tick at the nearest true edge. `whole` is then how many there are, and `verdict` says
/// whether the premises held. The answers are those of [`irig_scene_c_run_entries`].
#[unsafe(no_mangle)]
pub extern "C" fn irig_scene_c_run_stretches(
    alloc: Global,
    text: &[u8],
    stretches: &mut [IrigStretch],
    whole: &mut usize,
    verdict: &mut IrigVerdict,
    reason: &mut [u8],
    refusal: &mut IrigRefusal,
) -> u8
    ensures status { IsStatus result }
    ensures done { result ≡ 0 → (any_meaning text.now).refused ≡ None }
    ensures refused { result ≡ 3 → IsSome (any_meaning text.now).refused }
    ensures refusal { HasWholeLog result
        → IsRefusalOf (any_meaning text.now).refused refusal.new.line refusal.new.number }
    // each finding of which blame writes a line, in its order, as far as there is room
    ensures stretches { HasWholeLog result
        → stretches.new ≡ written_over stretches.old (stretches_of text.now) }
    ensures whole { HasWholeLog result → whole.new ≡ length (stretches_of text.now) }
    ensures unchanged { 4 ≤ result → stretches.new ≡ stretches.old }
    ensures none { 4 ≤ result → whole.new ≡ 0 }
    ensures verdict { result ≡ 0 → (at : AnyScene) → (any_meaning text.now).scene ≡ Some at
        → verdict.new ≡ verdict_in at }
    ensures no_verdict { result ≢ 0 → verdict.new.kind ≡ 0 }
{
    let found = find(alloc, text);
    *verdict = verdict_on_any(&found.answer);
    write_stretches(stretches, &found.findings);
    *whole = found.findings.len();
    *refusal = run::explain(alloc, &found.answer, &found.refused, reason);
    run::status_of(&found.answer)
}

/// The same run, of which is written into `lanes` what a picture of it shows, as many as it has room
/// for: each lane where its reader's next tick ends it, and each mark at its tick, and then the lanes
/// that are open, reader by reader. `whole` is then how many there are, and `verdict` says whether the
/// premises held. The answers are those of [`irig_scene_c_run_entries`].
#[unsafe(no_mangle)]
pub extern "C" fn irig_scene_c_run_lanes(
    alloc: Global,
    text: &[u8],
    lanes: &mut [IrigLane],
    whole: &mut usize,
    verdict: &mut IrigVerdict,
    reason: &mut [u8],
    refusal: &mut IrigRefusal,
) -> u8
    ensures status { IsStatus result }
    ensures done { result ≡ 0 → (any_meaning text.now).refused ≡ None }
    ensures refused { result ≡ 3 → IsSome (any_meaning text.now).refused }
    ensures refusal { HasWholeLog result
        → IsRefusalOf (any_meaning text.now).refused refusal.new.line refusal.new.number }
    // each lane and mark, in their order, as far as there is room
    ensures lanes { HasWholeLog result
        → lanes.new ≡ written_over lanes.old (lanes_of text.now) }
    ensures whole { HasWholeLog result → whole.new ≡ length (lanes_of text.now) }
    ensures unchanged { 4 ≤ result → lanes.new ≡ lanes.old }
    ensures none { 4 ≤ result → whole.new ≡ 0 }
    ensures verdict { result ≡ 0 → (at : AnyScene) → (any_meaning text.now).scene ≡ Some at
        → verdict.new ≡ verdict_in at }
    ensures no_verdict { result ≢ 0 → verdict.new.kind ≡ 0 }
{
    let drawn = draw(alloc, text);
    *verdict = verdict_on_any(&drawn.answer);
    write_lanes(lanes, &drawn.lanes);
    *whole = drawn.lanes.len();
    *refusal = run::explain(alloc, &drawn.answer, &drawn.refused, reason);
    run::status_of(&drawn.answer)
}

/// A run of a plant of devices, whose log is written into `entries` as numbers: what they told, silent
/// seconds too, and stamps, as many as it has room for. `whole` is then how many there are, and
/// `verdict` says whether the premises held. A plant of readers is refused.
/// The answers are those of [`irig_scene_c_run_entries`].
#[unsafe(no_mangle)]
pub extern "C" fn irig_scene_c_run_told(
    alloc: Global,
    text: &[u8],
    entries: &mut [IrigDeviceEntry],
    whole: &mut usize,
    verdict: &mut IrigVerdict,
    reason: &mut [u8],
    refusal: &mut IrigRefusal,
) -> u8
    ensures status { IsStatus result }
    ensures done { result ≡ 0 → (lines_mean station_scenario text.now).refused ≡ None }
    ensures refused { result ≡ 3 → IsSome (lines_mean station_scenario text.now).refused }
    ensures refusal { HasWholeLog result
        → IsRefusalOf (lines_mean station_scenario text.now).refused refusal.new.line
        refusal.new.number }
    // each entry of the log, in its order, as far as there is room
    ensures entries { HasWholeLog result
        → entries.new ≡ written_over entries.old (told_of text.now) }
    ensures whole { HasWholeLog result → whole.new ≡ length (told_of text.now) }
    ensures unchanged { 4 ≤ result → entries.new ≡ entries.old }
    ensures none { 4 ≤ result → whole.new ≡ 0 }
    ensures verdict { result ≡ 0 → (at : StationScene)
        → (lines_mean station_scenario text.now).scene ≡ Some at
        → verdict.new ≡ verdict_on_devices (station_audit at) }
    ensures no_verdict { result ≢ 0 → verdict.new.kind ≡ 0 }
    // if the premises held, each entry of the log is true: an announced second is T of its edge, to
    // its bound, and a stamp names its instant
    ensures truth { result ≡ 0 → verdict.new.kind ≡ 1 → (at : StationScene)
        → (lines_mean station_scenario text.now).scene ≡ Some at
        → All (IsTrueEntry at.plan.setup) (station_log at) }
{
    let run = hear_devices(alloc, text);
    *verdict = verdict_on_station(&run.answer);
    *whole = write_told(entries, &run);
    let StationRun {
        answer,
        names,
        lines,
        line,
        ..
    } = run;
    let why = why_of_devices(alloc, refusal_of(&answer), line, names, lines);
    *refusal = run::explain(alloc, &answer, &why, reason);
    run::status_of(&answer)
}

/// Writes the frame of the UTC second whose text this is, as `irig frame` prints it: ten groups of
/// ten letters, and a newline.
///
/// 0 if it was written. 1 if the text is that of no second of the years served, or a number of the
/// options has no meaning; nothing is written then.
#[unsafe(no_mangle)]
pub extern "C" fn irig_scene_c_frame_text(
    time: &[u8],
    options: &IrigFrameOptions,
    text: &mut FrameText,
) -> u8
    ensures frame { result ≡ 0 → ShowsFrameOf time.now (options_in options.now) text.new }
    ensures in_range { result ≡ 0 → are_options options.now ≡ true }
    ensures bad { result ≢ 0 → are_options options.now ≡ true → NamesNoSecond time.now }
    ensures unchanged { result ≢ 0 → text.new ≡ text.old }
{
    if !frame::are_options(options) {
        return BAD_TEXT;
    }
    match frame_text(time, &frame::options_of(options)) {
        Ok(written) => {
            *text = written;
            DONE
        }
        Err(_) => BAD_TEXT,
    }
}

/// Writes what a frame says, as `irig read` prints it, under rules by these numbers: parity 0 even,
/// 1 odd; the offset is 0 added, 1 subtracted; the binary seconds are 0 checked, 1 ignored. As much
/// is written into `lines` as that has room for, and `whole` is how many bytes there are.
///
/// 0 if they were written; 1 if the text has a letter of no symbol, or a number has no meaning, and
/// 6 if there was no memory: nothing is written then, and `whole` is 0.
#[unsafe(no_mangle)]
pub extern "C" fn irig_scene_c_frame_lines(
    alloc: Global,
    text: &[u8],
    parity: u8,
    sense: u8,
    sbs: u8,
    lines: &mut [u8],
    whole: &mut usize,
) -> u8
    ensures lines { result ≡ 0 → (said : List ℕ)
        × IsReadingOf (rules_in parity sense sbs) text.now said
        × (whole.new ≡ length said) × (lines.new ≡ written_over lines.old said) }
    ensures in_range { result ≡ 0 → are_rules parity sense sbs ≡ true }
    ensures bad { result ≡ 1 → are_rules parity sense sbs ≡ true → ShowsNoSymbols text.now }
    ensures unchanged { result ≢ 0 → lines.new ≡ lines.old }
    ensures none { result ≢ 0 → whole.new ≡ 0 }
{
    *whole = 0;
    if !frame::are_rules(parity, sense, sbs) {
        return BAD_TEXT;
    }
    match frame_lines(alloc, text, frame::rules_of(parity, sense, sbs)) {
        Ok(said) => {
            run::write_over(lines, said.as_str().as_bytes());
            *whole = said.len();
            DONE
        }
        Err(ReadingFault::BadFrameText) => BAD_TEXT,
        Err(ReadingFault::Memory) => NO_MEMORY,
    }
}
