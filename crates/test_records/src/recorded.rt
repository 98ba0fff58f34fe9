//! A receiver of three recorded lines: two that are true, and one whose frames are those of a second 18
//! seconds later. Its counter has turned over 32 bits once.

ghost use Rattle.std.specs.Prelude.{◌<◌, ◌^◌};
ghost use Rattle.irig_reader.specs.Rules.{IsReaderRules};

use irig_frame::Symbol;
use irig_gen::{Generator, Zone};
use irig_lines::{ClockRules, NO_DELAYS, VoteLimits, nearest_within};
use irig_port::FlowPort;
use irig_reader::ReaderRules;
use irig_time::{LeapTable, Rules, Timeline, UtcSecond};
use irig_vote::Redundancy;
use record_levels::Levels;
use record_lines::{Receiver, RecordedSecond, Recording, ToldSecond};
use std::test::Fail;

const BEGIN_US: u64 = 4_295_000_000;

const START: UtcSecond = UtcSecond {
    day: 6209,
    sod: 43200,
};

fn clock() -> ClockRules
    ensures { IsReaderRules result.reader_rules }
{
    ClockRules {
        reader_rules: ReaderRules {
            lock_after: 3,
            holdover: 100,
        },
        redundancy: Redundancy::Three,
        within: nearest_within(450),
        limits: VoteLimits::usual(),
        drift_us: 100,
        wander_ppb: 0,
        delays: NO_DELAYS,
        prefers_frames: false,
    }
}

/// The last second that was told until a time, and how many were.
#[derive(Clone, Copy)]
struct Told {
    last: Option<ToldSecond>,
    count: u32,
}

fn pass(receiver: &mut Receiver<FlowPort>, time_us: u64, told: Told) -> Told
    requires { time_us < 2 ^ 56 }
{
    match receiver.pass_to(time_us) {
        Some(second) => {
            let is_more = receiver.pass_to(time_us).is_some();
            Told {
                last: Some(second),
                count: told.count.saturating_add(1 + u32::from(is_more)),
            }
        }
        None => told,
    }
}

/// A second of the lines: each pulse is told once it has ended. The lines are 0.2 ms apart.
fn hear_second(
    receiver: &mut Receiver<FlowPort>,
    frame: [Symbol; 100],
    lie: [Symbol; 100],
    edge_us: u64,
) -> Told
    requires { edge_us < 2 ^ 50 }
{
    let mut told = Told {
        last: None,
        count: 0,
    };
    for place in 0..100usize {
        let rise_us = edge_us + place as u64 * 10_000;
        told = pass(receiver, rise_us + 8_100, told);
        receiver.hear(0, rise_us, frame[place].width_us());
        receiver.hear(1, rise_us + 100, frame[place].width_us());
        receiver.hear(2, rise_us.saturating_sub(100), lie[place].width_us());
    }
    told
}

#[test]
fn most_lines_name_each_second(rt: HostRuntime) -> Result<(), Fail> {
    let zone = Zone {
        half_hours: 0,
        dst: false,
    };
    let (Ok(timeline), Ok(generator), Ok(mut receiver)) = (
        Timeline::new(rt.alloc(), START, &[]),
        Generator::new(rt.alloc(), zone, &[], Rules::PLAIN),
        Receiver::<FlowPort>::new(Rules::PLAIN, clock(), LeapTable::empty(), BEGIN_US),
    ) else {
        return Err(Fail::from("no receiver"));
    };
    for n in 0u32..6 {
        let (Some(frame), Some(lie)) = (
            generator.frame_at(&timeline, u64::from(n)),
            generator.frame_at(&timeline, u64::from(n) + 18),
        ) else {
            return Err(Fail::from("no frame"));
        };
        let edge_us = BEGIN_US + u64::from(n) * 1_000_000;
        let told = hear_second(&mut receiver, frame, lie, edge_us);
        if n == 0 {
            assert!(rt; told.count == 0);
        } else {
            assert!(rt; told.count == 1);
            assert!(rt; is_of(told.last, START.sod + n - 1, edge_us));
        }
    }
    Ok(())
}

/// Whether a told second has this second as its vote, which ended at an edge or 1 ms from it, and was
/// told soon after.
fn is_of(told: Option<ToldSecond>, sod: u32, edge_us: u64) -> bool {
    match told {
        Some(
            ToldSecond {
                at_us,
                edge_us: told_us,
                vote: Some(claim),
                ..
            },
        ) => {
            claim.at.sod == sod
                && edge_us.abs_diff(told_us) <= 1_000
                && told_us <= at_us
                && at_us - told_us < 20_000
        }
        _ => false,
    }
}

/// What is not in order is not told: another line, a wide pulse, a rise ahead, and one that goes back.
#[test]
fn what_is_not_in_order_is_not_told(rt: HostRuntime) -> Result<(), Fail> {
    let Ok(mut receiver) = Receiver::<FlowPort>::new(
        Rules::PLAIN,
        clock(),
        LeapTable::empty(),
        BEGIN_US,
    ) else {
        return Err(Fail::from("no receiver"));
    };
    assert!(rt; receiver.hear(0, BEGIN_US, 8_000) == 1);
    assert!(rt; receiver.hear(3, BEGIN_US, 8_000) == 0);
    assert!(rt; receiver.hear(1, BEGIN_US, 500_000) == 0);
    assert!(rt; receiver.hear(1, BEGIN_US + 4_001, 8_000) == 0);
    assert!(rt; receiver.hear(1, BEGIN_US + 4_000, 8_000) == 1);
    assert!(rt; receiver.hear(1, BEGIN_US + 3_999, 8_000) == 0);
    assert!(rt; receiver.now_us() == BEGIN_US);
    assert!(rt; receiver.pass_to(BEGIN_US + 5_000_000).is_none());
    assert!(rt; receiver.now_us() == BEGIN_US + 5_000_000);
    assert!(rt; receiver.hear(2, BEGIN_US, 8_000) == 0);
    assert!(rt; receiver.hear(2, BEGIN_US + 5_000_000, 8_000) == 1);
    Ok(())
}

/// What three lines say at a time of an element: pulses of the second one are low.
fn levels(frame: [Symbol; 100], lie: [Symbol; 100], place: usize, at_us: u32) -> u8
    requires { place < 100 }
{
    let is_high = at_us < frame[place].width_us();
    let is_lie_high = at_us < lie[place].width_us();
    u8::from(is_high) | u8::from(!is_high) << 1 | u8::from(is_lie_high) << 2
}

/// The last second that a recording told, and how many it did.
#[derive(Clone, Copy)]
struct Shown {
    last: Option<RecordedSecond>,
    count: u32,
}

fn show(recording: &mut Recording<FlowPort>, shown: Shown) -> Shown {
    let mut shown = shown;
    for _ in 0..100 {
        let Some(second) = recording.next() else {
            return shown;
        };
        shown = Shown {
            last: Some(second),
            count: shown.count.saturating_add(1),
        };
    }
    shown
}

/// A second of the lines by a recorder whose clock is 0.3% fast.
fn record_second(
    recording: &mut Recording<FlowPort>,
    frame: [Symbol; 100],
    lie: [Symbol; 100],
    edge_us: u64,
    shown: Shown,
) -> Shown
    requires { edge_us < 2 ^ 50 }
{
    let mut shown = shown;
    for place in 0..100usize {
        for at_us in [0u32, 2_000, 5_000, 8_000] {
            let time_us = edge_us + place as u64 * 10_000 + u64::from(at_us);
            recording.levels(Levels {
                time_ns: time_us * 1_003,
                high: levels(frame, lie, place, at_us),
            });
            shown = show(recording, shown);
        }
    }
    shown
}

#[test]
fn a_recording_shows_the_seconds_of_most_lines(rt: HostRuntime) -> Result<(), Fail> {
    let zone = Zone {
        half_hours: 0,
        dst: false,
    };
    let (Ok(timeline), Ok(generator), Ok(mut recording)) = (
        Timeline::new(rt.alloc(), START, &[]),
        Generator::new(rt.alloc(), zone, &[], Rules::PLAIN),
        Recording::<FlowPort>::new(
            rt.alloc(),
            Rules::PLAIN,
            clock(),
            LeapTable::empty(),
            50_000,
        ),
    ) else {
        return Err(Fail::from("no recording"));
    };
    recording.levels(Levels {
        time_ns: 0,
        high: 2,
    });
    let mut shown = Shown {
        last: None,
        count: 0,
    };
    for n in 0u32..6 {
        let (Some(frame), Some(lie)) = (
            generator.frame_at(&timeline, u64::from(n)),
            generator.frame_at(&timeline, u64::from(n) + 18),
        ) else {
            return Err(Fail::from("no frame"));
        };
        let edge_us = 300_000 + u64::from(n) * 1_000_000;
        shown = record_second(&mut recording, frame, lie, edge_us, shown);
    }
    recording.end(6_310_000 * 1_003);
    shown = show(&mut recording, shown);
    assert!(rt; shown.count == 6);
    assert!(rt; is_shown(shown.last, START.sod + 5, 6_300_000));
    assert!(rt; recording.line(1).polarity() == Some(false));
    Ok(())
}

/// Whether a second has this one as its vote, which ended at an edge of the lines' time or 1 ms from it,
/// by the recorder's clock 0.3% later, and whether each line's frame ended there.
fn is_shown(shown: Option<RecordedSecond>, sod: u32, edge_us: u64) -> bool {
    let Some(second) = shown else {
        return false;
    };
    let Some(claim) = second.vote else {
        return false;
    };
    let recorder_us = edge_us.saturating_mul(1_003) / 1_000;
    claim.at.sod == sod
        && edge_us.abs_diff(second.lines_us) <= 1_000
        && recorder_us.abs_diff(second.edge_us) <= 1_000
        && is_near(second.ends_us[0], recorder_us)
        && is_near(second.ends_us[1], recorder_us)
        && is_near(second.ends_us[2], recorder_us)
        && second.ends_us[3].is_none()
}

fn is_near(end_us: Option<u64>, edge_us: u64) -> bool {
    match end_us {
        Some(end_us) => end_us.abs_diff(edge_us) <= 1_000,
        None => false,
    }
}
