use crate::texts::{LEAP_DAY, frame};
use irig_frame::*;

#[test]
fn a_width_is_its_symbol_up_to_the_bounds(rt: HostRuntime) {
    let rows = [
        (0, Symbol::Bad),
        (499, Symbol::Bad),
        (500, Symbol::Zero),
        (3499, Symbol::Zero),
        (3500, Symbol::One),
        (6499, Symbol::One),
        (6500, Symbol::Marker),
        (9499, Symbol::Marker),
        (9500, Symbol::Bad),
        (u32::MAX, Symbol::Bad),
    ];
    for (width_us, symbol) in rows {
        assert!(rt; classify(width_us) == symbol);
    }
}

#[test]
fn a_marker_is_right_at_marker_places_alone(rt: HostRuntime) {
    assert!(rt; is_marker_place(0) && is_marker_place(99) && !is_marker_place(75));
    assert!(rt; fault_at(75, Symbol::Marker) == Some(FrameFault::Marker(75)));
    assert!(rt; fault_at(99, Symbol::Marker) == None);
    assert!(rt; fault_at(99, Symbol::Bad) == Some(FrameFault::Pulse(99)));
    assert!(rt; Field::Day.bounds() == (1, 366));
}

#[test]
fn a_leap_day_is_written_and_read(rt: HostRuntime) {
    let coded = Coded {
        second: 59,
        minute: 59,
        hour: 23,
        day: 366,
        year: 16,
        control: 16385,
        sbs: 86399,
    };
    assert!(rt; in_range(&coded));
    assert!(rt;
        !in_range(&Coded {
            second: 61,
            ..coded
        })
    );
    assert!(rt; encode(&coded) == frame(LEAP_DAY));
    assert!(rt; decode(&frame(LEAP_DAY)) == Ok(coded));
}
