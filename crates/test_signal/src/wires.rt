//! The cables of a simulated device, in order of time, and its oscillator.

use irig_wires::{Coming, Ending, Flight, Happening, Oscillator, Wire, Wires};
use std::test::Fail;

fn flight(rise_us: u64, end_us: u64) -> Flight {
    Flight { rise_us, end_us }
}

fn end(line: u8, rise_us: u64, end_us: u64) -> Coming {
    Coming {
        time_us: end_us,
        what: Happening::End(Ending {
            line,
            flight: flight(rise_us, end_us),
        }),
    }
}

fn tick(time_us: u64) -> Coming {
    Coming {
        time_us,
        what: Happening::Tick,
    }
}

fn send(time_us: u64) -> Coming {
    Coming {
        time_us,
        what: Happening::Send,
    }
}

/// A marker on three lines, of which two end at one time, and a tick then. For the next element the
/// cable of the second line is out, and a pulse by hand is on the third.
#[test]
fn what_happens_to_a_device_comes_in_order(rt: HostRuntime) {
    let mut wires = Wires::new(&[0, 350, 700]);
    wires.be_late(2, 350);
    assert!(rt; wires.flight(0).is_none() && wires.next(Some(8_350), 0) == send(0));
    for line in 0u8..3 {
        wires.send(line, 0, 8_000);
    }
    assert!(rt; wires.flight(1) == Some(flight(350, 8_350)));
    assert!(rt; wires.next(Some(8_350), 10_000) == end(0, 0, 8_000));
    assert!(rt; wires.take(0, 7_999).is_none() && wires.take(0, 8_000) == Some(flight(0, 8_000)));
    assert!(rt; wires.next(Some(8_350), 10_000) == end(1, 350, 8_350));
    assert!(rt; wires.take(1, 8_350) == Some(flight(350, 8_350)));
    assert!(rt; wires.next(Some(8_350), 10_000) == end(2, 350, 8_350));
    assert!(rt; wires.take(2, 8_350) == Some(flight(350, 8_350)));
    assert!(rt; wires.next(Some(8_350), 10_000) == tick(8_350));
    assert!(rt; wires.next(Some(10_000), 10_000) == tick(10_000));
    wires.pull(1);
    wires.add(2, 9_000, 3_000);
    for line in 0u8..3 {
        wires.send(line, 10_000, 2_000);
    }
    wires.plug(1);
    assert!(rt; wires.flight(1).is_none() && wires.wire(1) == Wire::new(350));
    assert!(rt; wires.next(None, 20_000) == end(0, 10_000, 12_000));
    assert!(rt; wires.take(2, 12_000) == Some(flight(9_000, 12_000)));
}

#[test]
fn a_cable_brings_one_pulse_at_a_time(rt: HostRuntime) {
    let mut wire = Wire::new(1_999);
    wire.send(0, 8_000);
    wire.be_late(0);
    wire.add(5_000, 10);
    wire.pull();
    assert!(rt; wire.flight() == Some(flight(1_999, 9_999)));
    assert!(rt; wire.take(9_998).is_none() && wire.take(9_999) == Some(flight(1_999, 9_999)));
    wire.send(10_000, 2_000);
    assert!(rt; wire.flight().is_none());
    wire.add(11_000, 10);
    assert!(rt; wire.take(11_010) == Some(flight(11_000, 11_010)));
    wire.plug();
    wire.send(20_000, 5_000);
    assert!(rt; wire.flight() == Some(flight(20_000, 25_000)));
}

/// The counter that gains 20 us a second passes over the 50,000th behind its first. The one that
/// loses 70 shows 14,284 at two times.
#[test]
fn a_counter_is_asked_back(rt: HostRuntime) -> Result<(), Fail> {
    assert!(rt; Oscillator::new(0, 1_001).is_none() && Oscillator::new(0, -1_001).is_none());
    let (Some(fast), Some(slow)) = (Oscillator::new(4_290_000_000, 20), Oscillator::new(0, -70))
    else {
        return Err(Fail::from("no oscillator"));
    };
    assert!(rt; fast.count_at(49_999) == 4_290_049_999 && fast.count_at(50_000) == 4_290_050_001);
    assert!(rt; fast.time_of(4_290_050_000) == 50_000 && fast.time_of(4_289_999_999) == 0);
    assert!(rt; slow.count_at(14_285) == 14_284 && slow.count_at(14_286) == 14_284);
    assert!(rt; slow.time_of(14_284) == 14_285 && slow.time_of(14_285) == 14_287);
    // Longer than the years that a frame can name.
    assert!(rt; slow.count_at(10_000_000_000_000_000) == 9_999_300_000_000_000);
    assert!(rt; slow.time_of(9_999_300_000_000_000) == 10_000_000_000_000_000);
    Ok(())
}
