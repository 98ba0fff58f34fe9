//! A device that counts seconds by its own counter, which is 100 us a second slow and wraps in the
//! fourth second. It hears two of three lines. Two others know by their leap table of the leap second
//! at the end of 2016, and hear clocks that say that none comes.

ghost use Rattle.std.specs.Prelude.{◌≡◌};
ghost use Rattle.irig_reader.specs.Rules.{IsReaderRules};
ghost use Rattle.irig_vote.specs.declared.redundancy.Redundancy.TheVariants.{Three};

use irig_frame::Symbol;
use irig_gen::{GenFault, Generator, Zone};
use irig_lines::{
    ClockFault, ClockRules, NO_DELAYS, VoteLimits, Within, clock_fault, nearest_within,
};
use irig_port::{FlowPort, Limits};
use irig_reader::{Cause, ReaderRules};
use irig_time::{Leap, LeapTable, Rules, Timeline, UtcSecond};
use irig_timekeeper::{Beat, LineState, Timekeeper};
use irig_vote::Redundancy;
use std::test::Fail;

const BEGIN_US: u32 = 4_291_000_000;

const SECOND_US: u32 = 1_000_100;

const START: UtcSecond = UtcSecond {
    day: 6209,
    sod: 43200,
};

fn clock() -> ClockRules
    ensures reader { IsReaderRules result.reader_rules }
    ensures lines { result.redundancy ≡ Three }
{
    clock_within(VoteLimits::usual())
}

fn clock_within(limits: VoteLimits) -> ClockRules
    ensures reader { IsReaderRules result.reader_rules }
    ensures lines { result.redundancy ≡ Three }
{
    ClockRules {
        reader_rules: ReaderRules {
            lock_after: 3,
            holdover: 100,
        },
        redundancy: Redundancy::Three,
        within: nearest_within(450),
        limits,
        drift_us: 100,
        wander_ppb: 0,
        delays: NO_DELAYS,
        prefers_frames: false,
    }
}

/// A whole frame on two lines, one 0.4 ms late and one early.
fn tell_frame(keeper: &mut Timekeeper<FlowPort>, frame: [Symbol; 100], edge_us: u32)
    requires { keeper.old.clock.redundancy ≡ Three }
    ensures { keeper.new.clock ≡ keeper.old.clock }
{
    let mut rise_us = edge_us;
    for symbol in frame {
        keeper.hear(0, rise_us.wrapping_add(400), symbol.width_us());
        keeper.hear(1, rise_us.wrapping_sub(400), symbol.width_us());
        rise_us = rise_us.wrapping_add(SECOND_US / 100);
    }
}

/// The second that is told within 147 ms of an edge, if the device is polled each 7 ms.
fn poll(keeper: &mut Timekeeper<FlowPort>, edge_us: u32) -> Option<Beat>
    ensures { keeper.new.clock ≡ keeper.old.clock }
{
    let mut told = None;
    for turn in 0u32..21 {
        if let Some(beat) = keeper.tick(edge_us.wrapping_add(2_000 + turn * 7_000)) {
            told = Some(beat);
        }
    }
    told
}

/// What is told of an edge: how many seconds behind the start, whether by a vote, how far behind it the
/// stamp puts an event half a second behind the true edge, and how far off that may be.
fn row(keeper: &Timekeeper<FlowPort>, beat: &Beat, edge_us: u32) -> (u32, bool, u32, u32) {
    let second = match beat.report.announce {
        Some(utc) => utc.sod.wrapping_sub(START.sod),
        None => 0,
    };
    let (offset_us, bound_us) = match keeper.stamp(edge_us.wrapping_add(500_000)) {
        Some(stamp) => (stamp.offset_us, stamp.bound_us),
        None => (0, 0),
    };
    let is_voted = beat.report.cause == Cause::Voted;
    (second, is_voted, offset_us, bound_us)
}

/// Frames end 0.401 ms before their edge by the earlier line and 0.399 ms behind it by the later one,
/// since their last element is 1 us longer than 10 ms: the edge is told 1 us before it. From the 9th
/// edge to the 12th no frame comes, and the counter falls behind by 0.1 ms each.
fn expected(edge: u32) -> (u32, bool, u32, u32) {
    match edge {
        1 | 2 => (0, false, 0, 0),
        9 => (9, false, 500_101, 950),
        10 => (10, false, 500_201, 1_050),
        11 => (11, false, 500_301, 1_150),
        12 => (12, false, 500_401, 1_250),
        _ => (edge, true, 500_001, 850),
    }
}

#[test]
fn it_locks_holds_and_comes_back(rt: HostRuntime) -> Result<(), Fail> {
    let zone = Zone {
        half_hours: 0,
        dst: false,
    };
    let (Ok(timeline), Ok(generator)) = (
        Timeline::new(rt.alloc(), START, &[]),
        Generator::new(rt.alloc(), zone, &[], Rules::PLAIN),
    ) else {
        return Err(Fail::from("no plant"));
    };
    let Ok(mut keeper) = Timekeeper::<FlowPort>::new(Rules::PLAIN, clock(), LeapTable::empty())
    else {
        return Err(Fail::from("no timekeeper"));
    };
    for n in 0u32..20 {
        let edge_us = BEGIN_US.wrapping_add(n * SECOND_US);
        let is_dark = n >= 8 && n < 12;
        if let Some(frame) = generator.frame_at(&timeline, u64::from(n))
            && !is_dark
        {
            tell_frame(&mut keeper, frame, edge_us);
        }
        let next_us = edge_us.wrapping_add(SECOND_US);
        let Some(beat) = poll(&mut keeper, next_us) else {
            return Err(Fail::from("no second"));
        };
        assert!(rt; row(&keeper, &beat, next_us) == expected(n + 1));
        assert!(rt; beat.missed == 0 && beat.moved == 0);
        assert!(rt; keeper.wait(next_us.wrapping_add(200_000)) <= 1_006_000);
    }
    keeper.restart();
    assert!(rt; keeper.tick(BEGIN_US).is_none() && keeper.stamp(BEGIN_US).is_none());
    Ok(())
}

/// The clocks begin at 23:58:58, and say from 23:59:01 on that no leap comes.
const BEFORE_LEAP: UtcSecond = UtcSecond {
    day: 6209,
    sod: 86338,
};

/// Whether nothing is announced at an edge: before the third vote, at the leap second that the clocks
/// deny, and up to the third vote behind it.
fn is_silent(edge: u32) -> bool {
    edge < 3 || (edge >= 62 && edge < 65)
}

/// A device hears two clocks whose leap bits are 0, and its table has the leap second. Whether it tells
/// from 58 seconds before that one on that the votes speak against its table, is silent at it, and then
/// follows the clocks as they show the time.
fn guards_its_leap(clocks: &mut Generator, shown: &Timeline) -> Result<bool, Fail>
    requires { clocks.old.edge ≡ 0 }
{
    let Ok(table) = LeapTable::new(6209, &[(6209, Leap::Insert)]) else {
        return Err(Fail::from("no table"));
    };
    let Ok(mut keeper) = Timekeeper::<FlowPort>::new(Rules::PLAIN, clock(), table) else {
        return Err(Fail::from("no timekeeper"));
    };
    clocks.fault(GenFault::NoPending);
    for n in 0u32..70 {
        let edge_us = BEGIN_US.wrapping_add(n * SECOND_US);
        if let Some(frame) = clocks.frame(shown) {
            tell_frame(&mut keeper, frame, edge_us);
        }
        clocks.step();
        let Some(beat) = poll(&mut keeper, edge_us.wrapping_add(SECOND_US)) else {
            return Err(Fail::from("no second"));
        };
        let announced = if is_silent(n + 1) {
            None
        } else {
            shown.at(u64::from(n + 1))
        };
        let is_against = n >= 3 && n < 62;
        let is_guarded = n == 61;
        if beat.report.announce != announced
            || beat.against_table != is_against
            || (beat.report.cause == Cause::LeapGuard) != is_guarded
        {
            return Ok(false);
        }
    }
    Ok(true)
}

/// The clocks step rightly: behind 23:59:60 the device tells 00:00:02 first.
#[test]
fn a_leap_that_no_frame_announces_is_not_told(rt: HostRuntime) -> Result<(), Fail> {
    let zone = Zone {
        half_hours: 0,
        dst: false,
    };
    let (Ok(shown), Ok(mut clocks)) = (
        Timeline::new(rt.alloc(), BEFORE_LEAP, &[(6209, Leap::Insert)]),
        Generator::new(rt.alloc(), zone, &[], Rules::PLAIN),
    ) else {
        return Err(Fail::from("no plant"));
    };
    assert!(rt; guards_its_leap(&mut clocks, &shown)?);
    Ok(())
}

/// The clocks show no 23:59:60: the device is silent for three seconds, and then a second early with
/// them, since no table says what follows a day.
#[test]
fn clocks_that_ignore_a_leap_are_followed_behind_it(rt: HostRuntime) -> Result<(), Fail> {
    let zone = Zone {
        half_hours: 0,
        dst: false,
    };
    let (Ok(shown), Ok(mut clocks)) = (
        Timeline::new(rt.alloc(), BEFORE_LEAP, &[]),
        Generator::new(rt.alloc(), zone, &[], Rules::PLAIN),
    ) else {
        return Err(Fail::from("no plant"));
    };
    assert!(rt; guards_its_leap(&mut clocks, &shown)?);
    Ok(())
}

/// What a line is behind a frame whose clock says this quality, in a device with these limits; and how
/// far off the edge of a vote may lie by two such lines, 0 if they have none.
fn line_heard(
    clocks: &mut Generator,
    shown: &Timeline,
    quality: u8,
    limits: VoteLimits,
) -> Option<(LineState, u32)> {
    let Ok(mut keeper) = Timekeeper::<FlowPort>::new(
        Rules::PLAIN,
        clock_within(limits),
        LeapTable::empty(),
    ) else {
        return None;
    };
    clocks.fault(GenFault::Quality(quality));
    let frame = clocks.frame(shown)?;
    tell_frame(&mut keeper, frame, BEGIN_US);
    let state = keeper.line(0);
    match poll(&mut keeper, BEGIN_US.wrapping_add(SECOND_US)) {
        Some(beat) => Some((state, beat.bound_us)),
        None => Some((state, 0)),
    }
}

fn limits_from(poor_from: u8) -> Option<VoteLimits> {
    VoteLimits::new(Limits {
        not_before: 0,
        poor_from,
    })
}

/// Without a setting quality 7 has no vote, which is 1 ms; and by none has 8, which is 10 ms. The bound
/// of a vote is 850 us, as in the test above, and as much more as the clocks may be off.
#[test]
fn clocks_that_say_that_they_are_off_are_poor(rt: HostRuntime) -> Result<(), Fail> {
    let zone = Zone {
        half_hours: 0,
        dst: false,
    };
    let (Ok(shown), Ok(mut clocks), Some(widest)) = (
        Timeline::new(rt.alloc(), START, &[]),
        Generator::new(rt.alloc(), zone, &[], Rules::PLAIN),
        limits_from(8),
    ) else {
        return Err(Fail::from("no plant"));
    };
    let rows = [
        (0, VoteLimits::usual(), LineState::Unjudged, 850),
        (4, VoteLimits::usual(), LineState::Unjudged, 851),
        (5, VoteLimits::usual(), LineState::Unjudged, 860),
        (6, VoteLimits::usual(), LineState::Unjudged, 950),
        (7, VoteLimits::usual(), LineState::Poor, 0),
        (7, widest, LineState::Unjudged, 1_850),
        (8, widest, LineState::Poor, 0),
    ];
    for (quality, limits, state, bound_us) in rows {
        assert!(rt; line_heard(&mut clocks, &shown, quality, limits) == Some((state, bound_us)));
    }
    assert!(rt; limits_from(9).is_none());
    Ok(())
}

#[test]
fn lines_are_within_1_to_450_us(rt: HostRuntime) {
    for us in [0, 451, u32::MAX] {
        assert!(rt; Within::new(us).is_none());
    }
    for us in [1, 10, 450] {
        assert!(rt; nearest_within(us).us() == us);
        assert!(rt; Within::new(us).is_some());
    }
    assert!(rt; nearest_within(0).us() == 1 && nearest_within(451).us() == 450);
}

#[test]
fn no_holdover_is_longer_than_the_counter_can_count(rt: HostRuntime) {
    let rows = [
        (4_898, 100, 0, None),
        (4_899, 100, 0, Some(ClockFault::Holdover)),
        (1_000_000, 1, 0, Some(ClockFault::Holdover)),
        (1_000_000, 0, 0, None),
        (0, 101, 0, Some(ClockFault::Drift)),
        (1_000_000, 100, 1, None),
        (0, 101, 1, Some(ClockFault::Drift)),
    ];
    for (holdover, drift_us, wander_ppb, fault) in rows {
        let rules = ReaderRules {
            lock_after: 1,
            holdover,
        };
        assert!(rt; clock_fault(rules, drift_us, wander_ppb) == fault);
    }
}
