use crate::texts::{LEAP_DAY, frame};
use irig_frame::FrameFault;
use irig_port::{FlowPort, Limits, Port, PortFault, Told};
use irig_reader::{Reader, ReaderRules, in_range};
use irig_time::{Claim, LeapTable, Mark, Rules, UtcSecond};
use irig_vote::{Redundancy, Tells, vote};

/// The claim of a second of 2016-12-31.
const fn claim(sod: u32, mark: Mark) -> Claim {
    Claim {
        at: UtcSecond { day: 6209, sod },
        mark,
    }
}

const SILENT: Told = Told::Silence;

const FAULTY: Told = Told::Fault(PortFault::Parity);

const POOR: Told = Told::Poor(10);

#[test]
fn two_of_three_are_a_vote_and_one_is_none(rt: HostRuntime) {
    let insert = claim(86350, Mark::Insert);
    let yes = Told::Claim(insert);
    let early = Told::Claim(claim(86349, Mark::Insert));
    let late = Told::Claim(claim(86351, Mark::Insert));
    let unmarked = Told::Claim(claim(86350, Mark::NoLeap));
    let rows = [
        ([yes, yes, yes], Some(insert)),
        ([yes, yes, early], Some(insert)),
        ([early, yes, yes], Some(insert)),
        ([yes, FAULTY, yes], Some(insert)),
        ([SILENT, yes, yes], Some(insert)),
        ([yes, SILENT, SILENT], None),
        ([SILENT, POOR, yes], None),
        ([yes, early, late], None),
        ([yes, unmarked, SILENT], None),
        ([unmarked, yes, yes], Some(insert)),
        ([FAULTY, FAULTY, FAULTY], None),
        ([POOR, POOR, POOR], None),
        ([SILENT, SILENT, SILENT], None),
    ];
    for ([a, b, c], expected) in rows {
        // the two further ports have no say
        for other in [SILENT, yes, early] {
            let told = Tells {
                a,
                b,
                c,
                d: other,
                e: other,
            };
            assert!(rt; vote(&told, Redundancy::Three) == expected);
        }
    }
}

#[test]
fn one_port_is_its_own_vote(rt: HostRuntime) {
    let yes = claim(86350, Mark::Insert);
    let early = Told::Claim(claim(86349, Mark::Insert));
    let rows = [
        (Told::Claim(yes), Some(yes)),
        (SILENT, None),
        (FAULTY, None),
        (POOR, None),
    ];
    for (a, expected) in rows {
        // the four further ports have no say
        let told = Tells {
            a,
            b: early,
            c: early,
            d: early,
            e: early,
        };
        assert!(rt; vote(&told, Redundancy::One) == expected);
    }
    assert!(rt; Redundancy::One.ports() == 1 && Redundancy::One.f() == 0);
}

#[test]
fn three_ports_have_one_to_spare_and_five_two(rt: HostRuntime) {
    for (ports, f) in [(3, 1), (5, 2)] {
        let redundancy = Redundancy::of_ports(ports);
        assert!(rt; usize::from(redundancy.ports()) == ports && redundancy.f() == f);
    }
}

#[test]
fn an_empty_port_takes_over_what_another_heard(rt: HostRuntime) {
    let reader_rules = ReaderRules {
        lock_after: 1,
        holdover: 0,
    };
    assert!(rt; in_range(&reader_rules));
    let mut reader: Reader<FlowPort> = Reader::fresh(
        Rules::PLAIN,
        reader_rules,
        LeapTable::empty(),
        Redundancy::Three,
    );
    let mut heard = FlowPort::fresh(Rules::PLAIN);
    heard.pulse(8000);
    assert!(rt; reader.take_over(0, &mut heard));
    assert!(rt; !reader.take_over(0, &mut heard));
    let short = Told::Fault(PortFault::Frame(FrameFault::Short(1)));
    assert!(rt; reader.tick().told.a == short);
    assert!(rt; heard.edge() == short);
}

#[test]
fn clocks_before_the_first_day_have_no_vote(rt: HostRuntime) {
    let reader_rules = ReaderRules {
        lock_after: 1,
        holdover: 0,
    };
    let inserted = UtcSecond {
        day: 6209,
        sod: 86400,
    };
    for (not_before, second) in [(6209, Some(inserted)), (6210, None)] {
        let limits = Limits {
            not_before,
            poor_from: 10,
        };
        let mut reader: Reader<FlowPort> = Reader::fresh_within(
            Rules::PLAIN,
            reader_rules,
            LeapTable::empty(),
            Redundancy::One,
            Some(limits),
        );
        for symbol in frame(LEAP_DAY) {
            reader.pulse(0, symbol.width_us());
        }
        assert!(rt; reader.tick().report.announce == second);
    }
}
