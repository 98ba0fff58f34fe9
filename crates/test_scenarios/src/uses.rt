use example_uses::{frames, plants, ports, scenes, times};
use irig_frame::{Coded, encode};
use irig_plant::{Event, Plant, PlantFault, ReaderSetup, Refused, Widths};
use irig_port::{FlowPort, Told, WholePort};
use irig_reader::ReaderRules;
use irig_time::{Leap, LeapTable, Rules, Timeline, UtcSecond};
use std::test::Fail;

#[test]
fn frames_are_read_and_changed(rt: HostRuntime) {
    let noon = Coded {
        second: 59,
        minute: 30,
        hour: 12,
        day: 167,
        year: 16,
        control: 0,
        sbs: 45059,
    };
    assert!(rt; frames::comes_back(&noon));
    let frame = encode(&noon);
    assert!(rt; frames::time_of_day(&frame) == Some((12, 30, 59)));
    let leap = encode(&Coded { second: 60, ..noon });
    assert!(rt; frames::with_second(&frame, 60) == Some(leap));
}

/// The leap second at the end of 2016 is the tenth second after 23:59:50.
#[test]
fn seconds_are_counted_and_written(rt: HostRuntime) -> Result<(), Fail> {
    let start = UtcSecond {
        day: 6209,
        sod: 86390,
    };
    let Ok(timeline) = Timeline::new(rt.alloc(), start, &[(6209, Leap::Insert)]) else {
        return Err(Fail::from("no timeline"));
    };
    assert!(rt; times::text_at(&timeline, 10) == Some(*b"2016-12-31T23:59:60Z"));
    assert!(rt; times::is_leap_next(&timeline, 9));
    assert!(rt; times::through_text(&start) == Some(start));
    Ok(())
}

#[test]
fn ports_tell_the_same(rt: HostRuntime) {
    let rules = Rules::PLAIN;
    assert!(rt; ports::told_by::<WholePort>(rules, &[]) == Told::Silence);
    assert!(rt; ports::tell_the_same(rules, &[8000, 2000, 5000]));
    assert!(rt; ports::told_after_clear::<FlowPort>(rules, 8000) == Told::Silence);
}

#[test]
fn a_plant_is_made_and_trusted(rt: HostRuntime) -> Result<(), Fail> {
    let noon = UtcSecond {
        day: 6010,
        sod: 43200,
    };
    let Ok(timeline) = Timeline::new(rt.alloc(), noon, &[]) else {
        return Err(Fail::from("no timeline"));
    };
    let reader = ReaderSetup {
        rules: ReaderRules {
            lock_after: 1,
            holdover: 0,
        },
        table: LeapTable::empty(),
    };
    let made: Option<Plant<FlowPort>> = plants::plain_plant(rt.alloc(), timeline, &[reader]);
    let (Some(mut plant), Ok(widths)) = (made, Widths::of(rt.alloc(), &[8000])) else {
        return Err(Fail::from("no plant"));
    };
    let events = [Event::Raw { g: 0, r: 0, widths }, Event::Tick(0)];
    assert!(rt; plants::count_entries(&mut plant, &events) == Ok(1));
    let refused = Refused {
        index: 1,
        fault: PlantFault::NoSuchReader,
    };
    let events = [Event::Tick(0), Event::Tick(1), Event::Tick(0)];
    assert!(rt; plants::count_entries(&mut plant, &events) == Err(refused));
    let Some(log) = plants::trusted_log(&plant) else {
        return Err(Fail::from("no trusted log"));
    };
    assert!(rt; log.len() == 1);
    Ok(())
}

#[test]
fn a_scenario_is_run_in_memory(rt: HostRuntime) -> Result<(), Fail> {
    let scenario =
        r#"{"version":1,"start":"2016-06-15T12:00:00Z","leaps":[],"parity":"even","sense":"add","sbs":"check","generators":[{"local":0},{"local":0},{"local":0}],"readers":[{"name":"r1","lock_after":2,"holdover":3600}]}
{"do":"seconds","n":2}
"#
            .as_bytes();
    let alloc = rt.alloc();
    let log = b"2 r1 2016-06-15T12:00:02Z locked voted\npremises kept\n".as_slice();
    assert!(rt; scenes::log_text(alloc, scenario)?.as_slice() == log);
    assert!(rt; scenes::line_count(alloc, scenario) == Ok(2));
    assert!(rt; scenes::is_trusted(alloc, scenario) == Ok(true));
    Ok(())
}
