use crate::texts::{LEAP_DAY, LOCAL_LEAP_DAY, frame};
use irig_control::*;

/// A leap second pending, and the offset of local 11 under add.
const PENDING: Control = Control {
    leap_pending: true,
    leap_delete: false,
    dst_pending: false,
    dst: false,
    offset_half_hours: -11,
    quality: 0,
};

/// The leap day under odd parity.
const LEAP_DAY_ODD: &[u8; 100] =
    b"P10010101P100101010P110000100P011000110P110000000P011001000P100000000P000000000P111111101P000101010P";

/// 2000-01-03T00:00:00Z: 2 ones before element 75.
const PLAIN_SECOND: &[u8; 100] =
    b"P00000000P000000000P000000000P110000000P000000000P000000000P000000000P000000000P000000000P000000000P";

/// A second 60 of no month's end: 18 ones before element 75.
const SECOND_60: &[u8; 100] =
    b"P00000011P100101010P110000100P101000110P110000000P011001000P000000000P000000000P000000011P000101010P";

#[test]
fn a_pending_leap_second_at_minus_eleven_half_hours_is_689(rt: HostRuntime) {
    assert!(rt; in_range(&PENDING));
    assert!(rt; pack(&PENDING) == 689);
    assert!(rt; unpack(689) == PENDING);
}

#[test]
fn each_frame_has_even_parity_and_not_odd(rt: HostRuntime) {
    assert!(rt; Parity::Even.remainder() == 0 && Parity::Odd.remainder() == 1);
    for text in [LEAP_DAY, LOCAL_LEAP_DAY, PLAIN_SECOND, SECOND_60] {
        let symbols = frame(text);
        assert!(rt; parity_ok(&symbols, Parity::Even) && !parity_ok(&symbols, Parity::Odd));
    }
}

#[test]
fn set_parity_gives_a_frame_either_parity(rt: HostRuntime) {
    let mut symbols = frame(LEAP_DAY);
    set_parity(&mut symbols, Parity::Odd);
    assert!(rt; symbols == frame(LEAP_DAY_ODD));
    set_parity(&mut symbols, Parity::Even);
    assert!(rt; symbols == frame(LEAP_DAY));
}
