//! The stamps of records, from a configuration to the lines that are printed.

ghost use Rattle.record_stamp.specs.Late.{IsMoment};

use irig_time::{Leap, UtcSecond};
use record_comtrade::{Config, ConfigText};
use record_stamp::{
    LeapSaid, Moment, exchanged_of, leap_in, push_record_word, quality_in, stamp_of, trigger_of,
};
use std::alloc::{AllocError, Global};
use std::test::Fail;

const IN_INDIA: &[u8] =
    b"BAY 7,DFR,2013\n1,0A,1D\n1,IRIG1,,,0\n50\n1\n4000,100\n01/02/2017,05:29:59.250000\n01/02/2017,05:30:00.000001\nBINARY\n1\n+5h30,+5h30\nB,1\n";

const MONTH_FIRST: &[u8] =
    b"BAY 7,DFR,1999\n1,0A,1D\n1,IRIG1,,,0\n50\n1\n4000,100\n03/04/2026,15:00:00.000000\n03/04/2026,15:00:00\nBINARY\n1\n";

const LOCAL: &[u8] =
    b"BAY 7,DFR,1999\n1,0A,1D\n1,IRIG1,,,0\n50\n1\n4000,100\n01/01/2017,05:30:00\n01/01/2017,05:30:01\nBINARY\n1\n";

const NO_SUCH_DAY: &[u8] =
    b"BAY 7,DFR,1999\n1,0A,1D\n1,IRIG1,,,0\n50\n1\n4000,100\n31/02/2017,05:30\x1b\n31/02/2017,05:30:00\nBINARY\n1\n";

fn config_of(alloc: Global, bytes: &[u8]) -> Option<Config> {
    let mut text = ConfigText::new(alloc);
    if text.read(alloc, bytes).is_err() {
        return None;
    }
    match text.end(alloc) {
        Ok(config) => Some(config),
        Err(_) => None,
    }
}

// The word on the stamp of a record, or nothing if its configuration is refused.
fn said_of(
    alloc: Global,
    bytes: &[u8],
    leap: Option<(u32, Leap)>,
    truth: Moment,
) -> Result<String, AllocError>
    requires { IsMoment truth }
{
    let mut text = String::new(alloc);
    if let Some(config) = config_of(alloc, bytes) {
        push_record_word(&mut text, &config, None, leap, truth)?;
    }
    Ok(text)
}

#[test]
fn a_stamp_agrees_in_its_zone(rt: HostRuntime) -> Result<(), Fail> {
    let truth = Moment {
        at: UtcSecond {
            day: 6240,
            sod: 86399,
        },
        nanoseconds: 250_000_000,
    };
    let text = said_of(rt.alloc(), IN_INDIA, None, truth)?;
    assert!(rt;
        text.as_str()
            == "the stamp agrees within 1.3 ms: 01/02/2017,05:29:59.250000 for sample 1, which was 2017-01-31T23:59:59.250Z\nthe stamp is read as local time of UTC+5:30, as the record says\nthe record says that its clock was not locked, and right to 10 s\nthe record says that a leap second is added in it\n"
    );
    Ok(())
}

#[test]
fn an_exchanged_month_explains_a_stamp(rt: HostRuntime) -> Result<(), Fail> {
    let truth = Moment {
        at: UtcSecond {
            day: 9559,
            sod: 53999,
        },
        nanoseconds: 500_000_000,
    };
    let text = said_of(rt.alloc(), MONTH_FIRST, None, truth)?;
    assert!(rt;
        text.as_str()
            == "the stamp is 30 d 0.500 s late: 03/04/2026,15:00:00.000000 for sample 1, which was 2026-03-04T14:59:59.500Z\nwith its day and month exchanged it is 0.500 s late\nthe stamp is read as UTC, since the record names no zone\n"
    );
    Ok(())
}

#[test]
fn a_zone_explains_a_stamp_across_a_leap(rt: HostRuntime) -> Result<(), Fail> {
    let truth = Moment {
        at: UtcSecond {
            day: 6209,
            sod: 86399,
        },
        nanoseconds: 0,
    };
    let text = said_of(rt.alloc(), LOCAL, Some((6209, Leap::Insert)), truth)?;
    assert!(rt;
        text.as_str()
            == "the stamp is 5 h 30 min 2 s late: 01/01/2017,05:30:00 for sample 1, which was 2016-12-31T23:59:59.000Z\nas local time of UTC+5:30 it is 2.000 s late\nthe stamp is read as UTC, since the record names no zone\n"
    );
    Ok(())
}

#[test]
fn a_stamp_that_is_no_time_is_escaped(rt: HostRuntime) -> Result<(), Fail> {
    let truth = Moment {
        at: UtcSecond {
            day: 6209,
            sod: 86399,
        },
        nanoseconds: 0,
    };
    let text = said_of(rt.alloc(), NO_SUCH_DAY, None, truth)?;
    assert!(rt;
        text.as_str()
            == "the stamp 31/02/2017,05:30\\x1b is no time: its time is not three numbers, as hh:mm:ss, with up to nine decimals\n"
    );
    Ok(())
}

#[test]
fn a_record_has_its_codes_and_its_trigger(rt: HostRuntime) {
    let found = config_of(rt.alloc(), IN_INDIA);
    assert!(rt; found.is_some());
    if let Some(config) = found {
        assert!(rt; quality_in(&config) == Some(11));
        assert!(rt; leap_in(&config) == Some(LeapSaid::Added));
        assert!(rt; exchanged_of(&config, None).is_some());
        assert!(rt; stamp_of(&config, Some(0)).is_ok());
        assert!(rt; matches!(trigger_of(&config, None), Ok(stamp) if stamp.nanoseconds == 1_000));
    }
}
