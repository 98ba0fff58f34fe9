//! Verdicts on recordings of three lines, of which G0 and G2 are true.

ghost use Rattle.std.specs.Prelude.{◌<◌};

use irig_port::{PortFault, Told};
use irig_reader::{Cause, Lock, Report};
use irig_time::{Claim, Mark, UtcSecond};
use irig_timekeeper::Beat;
use irig_vote::Tells;
use record_lines::RecordedSecond;
use record_pulses::{Counts, Seen, Spread, Widths};
use record_verdict::Verdict;
use report_verdict::{LineSeen, push_json, push_verdict};
use std::test::Fail;

/// 2026-11-24.
const DAY: u32 = 9_824;

/// 2016-12-31, which ended with a leap second.
const LEAP_DAY: u32 = 6_209;

/// 09:30:00.
const MORNING: u32 = 34_200;

fn claim(day: u32, sod: u32) -> Claim {
    Claim {
        at: UtcSecond { day, sod },
        mark: Mark::Unspoken,
    }
}

/// A second that ends at an edge, on whose claim G0 and G2 agree: their frames end 0.3 ms apart. G1 told
/// this, and its frame ended then.
fn second(claim: Claim, edge_us: u64, told: Told, end_us: u64) -> RecordedSecond {
    RecordedSecond {
        edge_us,
        lines_us: edge_us,
        beat: Beat {
            report: Report {
                announce: None,
                lock: Lock::Locked,
                cause: Cause::Voted,
            },
            told: Tells {
                a: Told::Claim(claim),
                b: told,
                c: Told::Claim(claim),
                d: Told::Silence,
                e: Told::Silence,
            },
            edge_us: 0,
            bound_us: 450,
            missed: 0,
            moved: 0,
            against_table: false,
        },
        vote: Some(claim),
        ends_us: [
            Some(edge_us),
            Some(end_us),
            Some(edge_us.saturating_add(300)),
            None,
            None,
        ],
    }
}

/// The second of this number, of those from 09:30:00 on whose first one ends at 1.05 s; G1 is so many
/// seconds ahead.
fn ahead_by(number: u8, ahead: u32) -> RecordedSecond
    requires { ahead < 100 }
{
    let sod = MORNING + u32::from(number);
    let edge_us = 1_050_000 + u64::from(number) * 1_000_000;
    let told = Told::Claim(claim(DAY, sod + ahead));
    second(claim(DAY, sod), edge_us, told, edge_us)
}

#[test]
fn a_line_is_ahead(rt: HostRuntime) -> Result<(), Fail> {
    let mut verdict = Verdict::new(3);
    for number in 0..7u8 {
        verdict.take(&ahead_by(number, if number < 4 { 0 } else { 18 }));
    }
    let mut text = String::new(rt.alloc());
    push_verdict(&mut text, &verdict, &[])?;
    assert!(rt;
        text.as_str()
            == "line 1 differs: 18 s ahead in 3 seconds, 2026-11-24T09:30:04Z at 5.050 s to 2026-11-24T09:30:06Z at 7.050 s
most lines agree on 7 seconds, 2026-11-24T09:30:00Z at 1.050 s to 2026-11-24T09:30:06Z at 7.050 s
the lines that agree are at most 300 us apart
0.000 s of the recording is 2026-11-24T09:29:59.950000Z
"
    );
    Ok(())
}

#[test]
fn another_offset_is_another_stretch(rt: HostRuntime) -> Result<(), Fail> {
    let mut verdict = Verdict::new(3);
    verdict.take(&ahead_by(0, 17));
    verdict.take(&ahead_by(1, 17));
    verdict.take(&ahead_by(2, 18));
    let mut text = String::new(rt.alloc());
    push_verdict(&mut text, &verdict, &[])?;
    assert!(rt;
        text.as_str()
            == "line 1 differs: 17 s ahead in 2 seconds, 2026-11-24T09:30:00Z at 1.050 s to 2026-11-24T09:30:01Z at 2.050 s
line 1 differs: 18 s ahead in 1 second, 2026-11-24T09:30:02Z at 3.050 s
most lines agree on 3 seconds, 2026-11-24T09:30:00Z at 1.050 s to 2026-11-24T09:30:02Z at 3.050 s
the lines that agree are at most 300 us apart
0.000 s of the recording is 2026-11-24T09:29:59.950000Z
"
    );
    Ok(())
}

/// G1 is 3.2 ms late, then 3.25 ms, and then sends frames of a wrong parity.
fn late_then_faulty() -> Verdict {
    let mut verdict = Verdict::new(3);
    let first = claim(DAY, MORNING);
    let next = claim(DAY, MORNING + 1);
    verdict.take(&second(first, 1_050_000, Told::Claim(first), 1_053_200));
    verdict.take(&second(next, 2_050_000, Told::Claim(next), 2_053_250));
    let fault = Told::Fault(PortFault::Parity);
    verdict.take(&second(claim(DAY, MORNING + 2), 3_050_000, fault, 3_050_000));
    verdict
}

#[test]
fn a_line_is_late(rt: HostRuntime) -> Result<(), Fail> {
    let verdict = late_then_faulty();
    let mut text = String::new(rt.alloc());
    push_verdict(&mut text, &verdict, &[])?;
    assert!(rt;
        text.as_str()
            == "line 1 is 3.200 to 3.250 ms late in 2 seconds, 2026-11-24T09:30:00Z at 1.050 s to 2026-11-24T09:30:01Z at 2.050 s
line 1 sends frames of fault 17 Parity in 1 second, 2026-11-24T09:30:02Z at 3.050 s
most lines agree on 3 seconds, 2026-11-24T09:30:00Z at 1.050 s to 2026-11-24T09:30:02Z at 3.050 s
the lines that agree are at most 300 us apart
0.000 s of the recording is 2026-11-24T09:29:59.950000Z
"
    );
    Ok(())
}

/// G1 is 3.2 ms late: its first frame had not ended when its second was told.
#[test]
fn a_line_is_late_from_its_first_frame(rt: HostRuntime) -> Result<(), Fail> {
    let mut verdict = Verdict::new(3);
    let first = claim(DAY, MORNING);
    let next = claim(DAY, MORNING + 1);
    let mut early = second(first, 1_050_000, Told::Silence, 0);
    early.ends_us = [Some(1_050_000), None, Some(1_050_300), None, None];
    verdict.take(&early);
    verdict.take(&second(next, 2_050_000, Told::Silence, 1_053_200));
    let mut text = String::new(rt.alloc());
    push_verdict(&mut text, &verdict, &[])?;
    assert!(rt;
        text.as_str()
            == "line 1 is 3.200 ms late in 2 seconds, 2026-11-24T09:30:00Z at 1.050 s to 2026-11-24T09:30:01Z at 2.050 s
most lines agree on 2 seconds, 2026-11-24T09:30:00Z at 1.050 s to 2026-11-24T09:30:01Z at 2.050 s
the lines that agree are at most 300 us apart
0.000 s of the recording is 2026-11-24T09:29:59.950000Z
"
    );
    Ok(())
}

/// G0 and G2 are 18 s ahead at first, and a second without a vote comes last.
#[test]
fn most_lines_contradict_themselves(rt: HostRuntime) -> Result<(), Fail> {
    let mut verdict = Verdict::new(3);
    let wrong = claim(DAY, MORNING + 22);
    let right = claim(DAY, MORNING + 4);
    verdict.take(&second(wrong, 5_050_000, Told::Claim(right), 5_050_000));
    verdict.take(&ahead_by(5, 0));
    let mut last = ahead_by(6, 0);
    last.vote = None;
    verdict.take(&last);
    let mut text = String::new(rt.alloc());
    push_verdict(&mut text, &verdict, &[])?;
    assert!(rt;
        text.as_str()
            == "most lines contradict themselves: 2026-11-24T09:30:22Z at 5.050 s is followed by 2026-11-24T09:30:05Z at 6.050 s
line 1 differs: 18 s behind in 1 second, 2026-11-24T09:30:22Z at 5.050 s
most lines agree on 2 seconds, 2026-11-24T09:30:22Z at 5.050 s to 2026-11-24T09:30:05Z at 6.050 s
1 more second has no vote, at 7.050 s
the lines that agree are at most 300 us apart
0.000 s of the recording is 2026-11-24T09:30:17.950000Z
"
    );
    Ok(())
}

/// 23:59:60 ends at 5.000 s: the recording began 4 s before it did.
#[test]
fn a_leap_second_counts(rt: HostRuntime) -> Result<(), Fail> {
    let mut verdict = Verdict::new(3);
    let leap = claim(LEAP_DAY, 86_400);
    verdict.take(&second(leap, 5_000_000, Told::Claim(leap), 5_000_000));
    let mut text = String::new(rt.alloc());
    push_verdict(&mut text, &verdict, &[])?;
    assert!(rt;
        text.as_str()
            == "no line differs
most lines agree on 1 second, 2016-12-31T23:59:60Z at 5.000 s
the lines that agree are at most 300 us apart
0.000 s of the recording is 2016-12-31T23:59:56.000000Z
"
    );
    Ok(())
}

/// 00:00:02 of January ends at 5.000 s: whether December had a leap second is not said.
#[test]
fn a_month_ends_before(rt: HostRuntime) -> Result<(), Fail> {
    let mut verdict = Verdict::new(3);
    let new_year = claim(LEAP_DAY + 1, 2);
    verdict.take(&second(new_year, 5_000_000, Told::Claim(new_year), 5_000_000));
    let mut text = String::new(rt.alloc());
    push_verdict(&mut text, &verdict, &[])?;
    assert!(rt;
        text.as_str()
            == "no line differs
most lines agree on 1 second, 2017-01-01T00:00:02Z at 5.000 s
the lines that agree are at most 300 us apart
undecided when the recording begins: no frame says if a leap second follows 2016-12-31T23:59:59Z
"
    );
    Ok(())
}

const NO_TIMES: Spread = Spread {
    count: 0,
    least_us: 0,
    most_us: 0,
    sum_us: 0,
};

/// 700 pulses in seven frames, whose seconds are 40 us too long.
const SEEN: Seen = Seen {
    counts: Counts {
        pulses: 700,
        frames: 7,
        out_of_step: 0,
        on_time: 699,
        begun: 7,
        bare: 7,
    },
    widths: Widths {
        zero: Spread {
            count: 560,
            least_us: 1_999,
            most_us: 2_001,
            sum_us: 1_120_300,
        },
        one: NO_TIMES,
        marker: NO_TIMES,
        bad: NO_TIMES,
    },
    gaps: NO_TIMES,
    gaps_in_step: NO_TIMES,
    seconds: Spread {
        count: 6,
        least_us: 1_000_040,
        most_us: 1_000_040,
        sum_us: 6_000_240,
    },
};

/// A line with a name that a terminal would take for a command.
const LINE: LineSeen<'static> = LineSeen {
    name: b"G \x1b[2J\\",
    is_inverted: true,
    seen: &SEEN,
};

#[test]
fn lines_are_told(rt: HostRuntime) -> Result<(), Fail> {
    let mut text = String::new(rt.alloc());
    push_verdict(&mut text, &Verdict::new(1), &[LINE])?;
    assert!(rt;
        text.as_str()
            == "undecided: the line has no whole frame that claims a second
G \\x1b[2J\\x5c: 700 pulses, 7 frames, 0 out of step, inverted
    0   560  1.999 to 2.001 ms, mean 2.001
    a second is 40.0 ppm longer than one of the recorder
    its year and control bits are all 0, as of a clock without those of IEEE 1344
"
    );
    Ok(())
}

#[test]
fn a_verdict_is_an_object(rt: HostRuntime) -> Result<(), Fail> {
    let mut text = String::new(rt.alloc());
    push_json(
        &mut text,
        &late_then_faulty(),
        &[LINE, LINE],
        ",\"stamp\":null",
    )?;
    assert!(rt;
        text.as_str()
            == "{\"decided\":true,\"seconds\":3,\"without_vote\":0,\"jumps\":0,\"apart_us\":300,\"first\":{\"utc\":\"2026-11-24T09:30:00Z\",\"edge_us\":1050000},\"last\":{\"utc\":\"2026-11-24T09:30:02Z\",\"edge_us\":3050000},\"zero\":\"2026-11-24T09:29:59.950000Z\",\"stretches\":[{\"line\":1,\"kind\":\"late\",\"least_us\":3200,\"most_us\":3250,\"seconds\":2,\"first\":{\"utc\":\"2026-11-24T09:30:00Z\",\"edge_us\":1050000},\"last\":{\"utc\":\"2026-11-24T09:30:01Z\",\"edge_us\":2050000}}],\"more\":0,\"open\":[null,{\"line\":1,\"kind\":\"faulty\",\"fault\":17,\"seconds\":1,\"first\":{\"utc\":\"2026-11-24T09:30:02Z\",\"edge_us\":3050000},\"last\":{\"utc\":\"2026-11-24T09:30:02Z\",\"edge_us\":3050000}},null,null,null],\"lines\":[{\"name\":\"G \\u001b[2J\\u005c\",\"inverted\":true,\"pulses\":700,\"frames\":7,\"out_of_step\":0},{\"name\":\"G \\u001b[2J\\u005c\",\"inverted\":true,\"pulses\":700,\"frames\":7,\"out_of_step\":0}],\"stamp\":null}\n"
    );
    Ok(())
}
