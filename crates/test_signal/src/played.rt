//! A device that is played, with an audit: its counter gains 20 us a second, and wraps by 32 bits
//! in the fourth second. Three lines come 0, 350 and 700 us late, by a setting of 450 us, so that
//! the third one is untrue. Two of three are from the ninth second on, when the second one comes
//! 600 us late.

ghost use Rattle.std.specs.Prelude.{◌≡◌, ◌<◌, ◌^◌};
ghost use Rattle.irig_reader.specs.Rules.{IsReaderRules};
ghost use Rattle.irig_vote.specs.declared.redundancy.Redundancy.TheVariants.{Three};

use irig_frame::Symbol;
use irig_gen::{Generator, Zone};
use irig_lines::{ClockRules, NO_DELAYS, VoteLimits, nearest_within};
use irig_port::FlowPort;
use irig_reader::ReaderRules;
use irig_time::{LeapTable, Rules, Timeline, UtcSecond};
use irig_vote::Redundancy;
use irig_witness::{Device, Oscillator};
use std::test::Fail;

const START: UtcSecond = UtcSecond {
    day: 6209,
    sod: 43200,
};

fn clock() -> ClockRules
    ensures reader { IsReaderRules result.reader_rules }
    ensures lines { result.redundancy ≡ Three }
{
    ClockRules {
        reader_rules: ReaderRules {
            lock_after: 2,
            holdover: 100,
        },
        redundancy: Redundancy::Three,
        within: nearest_within(450),
        limits: VoteLimits::usual(),
        drift_us: 40,
        wander_ppb: 0,
        delays: NO_DELAYS,
        prefers_frames: false,
    }
}

const FIRST: u64 = 4_291_000_000;

/// Plays a pulse that rises so many microseconds behind T(0), and is the symbol of an element.
/// Whether the device takes it for that element.
fn hear(
    device: &mut Device<FlowPort>,
    counter: Oscillator,
    line: u8,
    time_us: u64,
    element: u64,
    symbol: Symbol,
) -> bool
    requires counter { counter.first ≡ 4291000000 }
    requires lines { device.old.clock.redundancy ≡ Three }
    requires line { line < 3 }
    requires time { time_us < 2 ^ 43 }
    ensures { device.new.clock ≡ device.old.clock }
{
    let rise_us = counter.count_at(time_us);
    let near = device.element(line, rise_us);
    device.hear(line, rise_us, symbol.width_us(), near, symbol);
    near == element
}

/// Plays the frame of a second on three lines.
fn play(
    device: &mut Device<FlowPort>,
    counter: Oscillator,
    frame: [Symbol; 100],
    second: u32,
    late_us: u32,
) -> bool
    requires counter { counter.first ≡ 4291000000 }
    requires lines { device.old.clock.redundancy ≡ Three }
    requires early { second < 1000 }
    ensures { device.new.clock ≡ device.old.clock }
{
    let mut is_near = true;
    for place in 0u32..100 {
        let symbol = frame[place as usize];
        let element = 100 * u64::from(second) + u64::from(place);
        let time_us = 10_000 * element;
        is_near &= hear(device, counter, 0, time_us, element, symbol);
        is_near &= hear(
            device,
            counter,
            1,
            time_us + u64::from(late_us),
            element,
            symbol,
        );
        is_near &= hear(device, counter, 2, time_us + 700, element, symbol);
    }
    is_near
}

#[test]
fn an_audit_is_kept_until_two_lines_are_untrue(rt: HostRuntime) -> Result<(), Fail> {
    let zone = Zone {
        half_hours: 0,
        dst: false,
    };
    let (Ok(timeline), Ok(generator)) = (
        Timeline::new(rt.alloc(), START, &[]),
        Generator::new(rt.alloc(), zone, &[], Rules::PLAIN),
    ) else {
        return Err(Fail::from("no plant"));
    };
    let Some(counter) = Oscillator::new(FIRST, 20) else {
        return Err(Fail::from("no oscillator"));
    };
    let start = counter.count_at(0);
    let Ok(mut device) = Device::<FlowPort>::new(
        Rules::PLAIN,
        clock(),
        LeapTable::empty(),
        counter,
        start,
    ) else {
        return Err(Fail::from("no device"));
    };
    for n in 0u32..10 {
        let Some(frame) = generator.frame_at(&timeline, u64::from(n)) else {
            return Err(Fail::from("no frame"));
        };
        let late_us = if n < 8 { 350 } else { 600 };
        assert!(rt; play(&mut device, counter, frame, n, late_us));
        let now = counter.count_at(1_000_000 * u64::from(n) + 1_002_000);
        assert!(rt; device.may_tick(now) && device.wait(now) == 0);
        let Some(beat) = device.tick(now) else {
            return Err(Fail::from("no second"));
        };
        assert!(rt; device.is_kept() == (n < 8));
        let event = counter.count_at(1_000_000 * u64::from(n) + 1_001_000);
        let Some(stamp) = device.stamp(event) else {
            continue;
        };
        assert!(rt; beat.report.announce == timeline.at(u64::from(n) + 1) && n > 0);
        assert!(rt; stamp.offset_us.abs_diff(651) <= 1 || n >= 8);
    }
    device.restart(counter.count_at(11_000_000));
    assert!(rt; device.is_kept() && device.stamp(start).is_none());
    Ok(())
}
