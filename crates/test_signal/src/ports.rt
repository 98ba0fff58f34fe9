use crate::texts::{LEAP_DAY, LEAP_DAY_VALUE, frame};
use irig_control::Parity;
use irig_frame::{Coded, FrameFault, Symbol};
use irig_port::{FlowPort, Limits, Port, PortFault, Told, WholePort, edge_within, hear};
use irig_sync::Sync;
use irig_time::{Claim, Mark, Rules, UtcSecond};
use std::process::Abort;

/// What a true frame of the leap day tells.
const LEAP_DAY_TOLD: Told = Told::Claim(Claim {
    at: UtcSecond {
        day: 6209,
        sod: 86399,
    },
    mark: Mark::Insert,
});

const SHORT: Told = Told::Fault(PortFault::Frame(FrameFault::Short(60)));

fn feed<P: Port>(port: &mut P, symbols: &[Symbol]) {
    for symbol in symbols {
        port.pulse(symbol.width_us());
    }
}

fn tells_of_what_came_last<P: Port>(rt: &impl Abort) {
    let symbols = frame(LEAP_DAY);
    let (first, rest) = symbols.split_at(40);
    let mut port = P::fresh(Rules::PLAIN);
    feed(&mut port, first);
    port.clear();
    feed(&mut port, rest);
    assert!(rt; port.edge() == SHORT);
    feed(&mut port, &symbols);
    assert!(rt; port.edge() == LEAP_DAY_TOLD);
    assert!(rt; port.edge() == Told::Silence);
}

#[test]
fn an_edge_tells_of_the_pulses_since_the_port_was_empty(rt: HostRuntime) {
    tells_of_what_came_last::<WholePort>(&rt);
    tells_of_what_came_last::<FlowPort>(&rt);
}

fn tells_of_a_frame_by_its_value<P: Port>(rt: &impl Abort) {
    let mut port = P::with_frame(Rules::PLAIN, &LEAP_DAY_VALUE, Parity::Even);
    assert!(rt; port.edge() == LEAP_DAY_TOLD);
    assert!(rt; port.edge() == Told::Silence);
    let mut port = P::with_frame(Rules::PLAIN, &LEAP_DAY_VALUE, Parity::Odd);
    assert!(rt; port.edge() == Told::Fault(PortFault::Parity));
}

#[test]
fn a_frame_comes_whole_by_its_value(rt: HostRuntime) {
    tells_of_a_frame_by_its_value::<WholePort>(&rt);
    tells_of_a_frame_by_its_value::<FlowPort>(&rt);
}

/// The same second, of quality 4.
const FAIR_VALUE: Coded = Coded {
    second: 59,
    minute: 59,
    hour: 23,
    day: 366,
    year: 16,
    control: 4097,
    sbs: 86_399,
};

// The second is of day 6209.
fn tells_within_limits<P: Port>(rt: &impl Abort) {
    let rows = [
        (6209, 5, LEAP_DAY_TOLD),
        (6209, 4, Told::Poor(4)),
        (6210, 4, Told::Poor(4)),
        (6210, 5, Told::Fault(PortFault::Early)),
    ];
    for (not_before, poor_from, told) in rows {
        let limits = Limits {
            not_before,
            poor_from,
        };
        let mut port = P::with_frame(Rules::PLAIN, &FAIR_VALUE, Parity::Even);
        assert!(rt; edge_within(&mut port, Some(limits)) == told);
        assert!(rt; port.edge() == Told::Silence);
    }
}

#[test]
fn beyond_limits_there_is_no_vote(rt: HostRuntime) {
    tells_within_limits::<WholePort>(&rt);
    tells_within_limits::<FlowPort>(&rt);
}

/// Hears a pulse each 10 ms, and answers the last one's place.
fn listen<P: Port>(port: &mut P, sync: &mut Sync, from_us: u32, symbols: &[Symbol]) -> u8 {
    let mut rise_us = from_us;
    let mut place = 0;
    for symbol in symbols {
        place = hear(port, sync, rise_us, symbol.width_us());
        rise_us = rise_us.wrapping_add(10_000);
    }
    place
}

// From element 60 of a frame on, of which the clock wraps within the next one.
fn finds_a_frame<P: Port>(rt: &impl Abort) {
    let symbols = frame(LEAP_DAY);
    let (_, rest) = symbols.split_at(60);
    let mut port = P::fresh(Rules::PLAIN);
    let mut sync = Sync::none();
    assert!(rt; listen(&mut port, &mut sync, 4_294_000_000, rest) == 0);
    assert!(rt; listen(&mut port, &mut sync, 4_294_400_000, &symbols) == 100);
    assert!(rt; port.edge() == LEAP_DAY_TOLD);
    sync.idle(1_422_703);
    assert!(rt; sync.place == 100);
    sync.idle(1_422_704);
    assert!(rt; sync.place == 0 && hear(&mut port, &mut sync, 1_430_000, 8000) == 1);
}

#[test]
fn a_line_is_heard_from_the_first_of_its_frames_on(rt: HostRuntime) {
    finds_a_frame::<WholePort>(&rt);
    finds_a_frame::<FlowPort>(&rt);
}
