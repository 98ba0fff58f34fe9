//! What a timekeeper says at a tick, in numbers.

ghost use Rattle.std.specs.Prelude.{◌≡◌, ◌≤◌, ◌==◌, if◌then◌else◌, Some, None};
ghost use Rattle.c_numbers.specs.Numbers.{sense_in};
ghost use Rattle.c_numbers.specs.Reports.{report_in, voices_in};
ghost use Rattle.c_numbers.specs.Setups.{redundancy_in};
ghost use Rattle.c_numbers.specs.Voices.{voices_to};
ghost use Rattle.c_lines.specs.Lines.{frames_in};
ghost use Rattle.irig_lines.specs.Exactness.{most_drift_us};
ghost use Rattle.c_keeper.specs.Seconds.{against_at, IsSecondOf, IsToldOf};
ghost use Rattle.c_keeper.specs.States.{masks_of};
ghost use Rattle.c_lines.specs.Announced.{IsSmall};
ghost use Rattle.c_keeper.specs.Timekeepers.{clock_state_in};

use crate::states::masks_of;
use crate::timekeeper::IrigTimekeeper;
use c_lines::{IrigMasks, NO_LINES, frames_of};
use c_numbers::{
    IrigReport, Voices, against_hold, redundancy_of, report_for_c, sense_of, voices_of,
};
use irig_lines::ClockRules;
use irig_time::UtcSecond;
use irig_timekeeper::{Beat, Ticked};
use irig_vote::Redundancy;

/// What a timekeeper says at a tick.
#[repr(C)]
#[derive(Clone, Copy, Drop)]
pub struct IrigSecond {
    /// 1 if a second was counted, of which the rest is; 0 if there is nothing to tell, with zeros
    /// behind it.
    pub is_told: u8,
    /// 1 if the lines that have the vote contradict the leap table at the end of its day, else 0.
    pub against_table: u8,
    /// Where the second begins.
    pub edge_us: u32,
    /// How far from its true edge that may lie, if it is announced.
    pub bound_us: u32,
    /// The seconds that passed untold before it.
    pub missed: u32,
    /// How often lines moved the edge since the second that was told before.
    pub moved: u32,
    /// How many votes contradicted those before them since the timekeeper was made or restarted.
    pub strays: u32,
    /// How many seconds have to be voted yet before one is announced again without a vote.
    pub doubt: u32,
    /// What each line is.
    pub lines: IrigMasks,
    /// What is said of it.
    pub report: IrigReport,
}

const NOTHING_REPORTED: IrigReport = IrigReport {
    announces: 0,
    lock: 0,
    cause: 0,
    agreed: 0,
    lock_count: 0,
    day: 0,
    sod: 0,
    differed: 0,
    faulty: 0,
    poor: 0,
    quality: 0,
    has_local: 0,
    local_half_hours: 0,
    dst: 0,
    against_hold: 0,
};

const NOTHING_TOLD: IrigSecond = IrigSecond {
    is_told: 0,
    against_table: 0,
    edge_us: 0,
    bound_us: 0,
    missed: 0,
    moved: 0,
    strays: 0,
    doubt: 0,
    lines: NO_LINES,
    report: NOTHING_REPORTED,
};

/// What a tick says that has nothing to tell.
pub fn nothing_told() -> IrigSecond
    ensures { IsSecondOf result None }
{
    NOTHING_TOLD
}

/// What a tick answers, as C is given it, with what lines told by the frames that they kept, which of
/// them were against what was held, and what each line then is. The timekeeper is as the tick leaves
/// it.
pub fn second_of(
    timekeeper: &IrigTimekeeper,
    ticked: &Ticked,
    held: Option<UtcSecond>,
    rules: &ClockRules,
) -> IrigSecond
    requires steady { rules.now.drift_us ≤ most_drift_us }
    requires ended { IsSmall timekeeper.now.ended }
    requires ended_before { IsSmall timekeeper.now.ended_before }
    ensures strays { result.strays
        ≡ (if result.is_told == 0 then 0 else timekeeper.now.strays) }
    ensures doubt { result.doubt ≡ (if result.is_told == 0 then 0 else timekeeper.now.doubt) }
    ensures lines { (beat : Beat) → ticked.now.beat ≡ Some beat
        → result.lines ≡ masks_of rules.now (clock_state_in timekeeper.now) }
    ensures told { IsSecondOf result ticked.now.beat }
    ensures against { (beat : Beat) → ticked.now.beat ≡ Some beat → result.report.against_hold
        ≡ against_at held beat (redundancy_in timekeeper.now.setup) }
    ensures voices { (beat : Beat) → ticked.now.beat ≡ Some beat → voices_in result.report
        ≡ voices_to ticked.now.vote beat.told (redundancy_in timekeeper.now.setup)
        (sense_in timekeeper.now.setup.sense) (frames_in timekeeper.now.lines) }
{
    let Some(beat) = &ticked.beat else {
        return NOTHING_TOLD;
    };
    let voices = voices_of(
        &beat.told,
        redundancy_of(&timekeeper.setup),
        ticked.vote,
        sense_of(timekeeper.setup.sense),
        &frames_of(&timekeeper.lines),
    );
    let against = against_at(held, beat, redundancy_of(&timekeeper.setup));
    second_for_c(
        beat,
        &voices,
        against,
        masks_of(timekeeper, rules),
        timekeeper,
    )
}

// Behind seconds that were missed nothing is said of what was held before them.
fn against_at(held: Option<UtcSecond>, beat: &Beat, redundancy: Redundancy) -> u8
    ensures { result ≡ against_at held beat.now redundancy }
{
    if beat.missed == 0 {
        against_hold(held, &beat.told, redundancy)
    } else {
        0
    }
}

fn second_for_c(
    beat: &Beat,
    voices: &Voices,
    against: u8,
    lines: IrigMasks,
    timekeeper: &IrigTimekeeper,
) -> IrigSecond
    ensures strays { result.strays ≡ timekeeper.now.strays }
    ensures doubt { result.doubt ≡ timekeeper.now.doubt }
    ensures lines { result.lines ≡ lines }
    ensures is_told { result.is_told ≡ 1 }
    ensures told { IsToldOf result beat.now }
    ensures voices { voices_in result.report ≡ voices.now }
    ensures against { result.report.against_hold ≡ against }
{
    IrigSecond {
        is_told: 1,
        against_table: u8::from(beat.against_table),
        edge_us: beat.edge_us,
        bound_us: beat.bound_us,
        missed: beat.missed,
        moved: beat.moved,
        strays: timekeeper.strays,
        doubt: timekeeper.doubt,
        lines,
        report: report_for_c(&beat.report, voices, against),
    }
}
