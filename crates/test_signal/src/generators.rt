use crate::texts::{LEAP_DAY, LEAP_DAY_VALUE, LOCAL_LEAP_DAY, frame};
use irig_gen::{Change, Generator, Zone};
use irig_time::{Leap, Rules, Timeline, UtcSecond};
use std::test::Fail;

#[test]
fn a_generator_sends_the_frame_of_a_leap_day_by_its_clock(rt: HostRuntime) -> Result<(), Fail> {
    let start = UtcSecond {
        day: 6209,
        sod: 86399,
    };
    let Ok(timeline) = Timeline::new(rt.alloc(), start, &[(6209, Leap::Insert)]) else {
        return Err(Fail::from("no timeline"));
    };
    for (half_hours, text) in [(0, LEAP_DAY), (11, LOCAL_LEAP_DAY)] {
        let zone = Zone {
            half_hours,
            dst: false,
        };
        let Ok(generator) = Generator::new(rt.alloc(), zone, &[], Rules::PLAIN) else {
            return Err(Fail::from("no generator"));
        };
        assert!(rt; generator.frame(&timeline) == Some(frame(text)));
    }
    Ok(())
}

#[test]
fn a_generator_sends_the_value_of_a_leap_day(rt: HostRuntime) -> Result<(), Fail> {
    let start = UtcSecond {
        day: 6209,
        sod: 86399,
    };
    let zone = Zone {
        half_hours: 0,
        dst: false,
    };
    let (Ok(timeline), Ok(generator)) = (
        Timeline::new(rt.alloc(), start, &[(6209, Leap::Insert)]),
        Generator::new(rt.alloc(), zone, &[], Rules::PLAIN),
    ) else {
        return Err(Fail::from("no plant"));
    };
    assert!(rt; generator.value(&timeline) == Some(LEAP_DAY_VALUE));
    assert!(rt; generator.rules() == Rules::PLAIN);
    Ok(())
}

/// One is two half hours ahead from the first, the other since a change a day before.
#[test]
fn generators_send_the_same_if_their_clocks_show_the_same(rt: HostRuntime) -> Result<(), Fail> {
    let start = UtcSecond {
        day: 6010,
        sod: 43200,
    };
    let zone = Zone {
        half_hours: 2,
        dst: false,
    };
    let change = Change {
        at: UtcSecond { day: 6009, sod: 0 },
        zone,
    };
    let utc = Zone {
        half_hours: 0,
        dst: false,
    };
    let (Ok(timeline), Ok(one), Ok(other)) = (
        Timeline::new(rt.alloc(), start, &[]),
        Generator::new(rt.alloc(), zone, &[], Rules::PLAIN),
        Generator::new(rt.alloc(), utc, &[change], Rules::PLAIN),
    ) else {
        return Err(Fail::from("no plant"));
    };
    assert!(rt; one.sends_as(&other, &timeline));
    Ok(())
}
