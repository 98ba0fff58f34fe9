use irig_frame::{Coded, Symbol};

/// 2016-12-31T23:59:59Z with a leap second to be inserted: 21 ones before element 75.
pub(crate) const LEAP_DAY: &[u8; 100] =
    b"P10010101P100101010P110000100P011000110P110000000P011001000P100000000P000001000P111111101P000101010P";

/// What it reads as, but for its parity bit.
pub(crate) const LEAP_DAY_VALUE: Coded = Coded {
    second: 59,
    minute: 59,
    hour: 23,
    day: 366,
    year: 16,
    control: 1,
    sbs: 86_399,
};

/// The same by a clock 5 hours 30 minutes ahead: 19 ones before element 75.
pub(crate) const LOCAL_LEAP_DAY: &[u8; 100] =
    b"P10010101P100100100P101000000P100000000P000000000P111001000P100011010P100001000P111010101P011001000P";

fn symbol(letter: u8) -> Symbol {
    match Symbol::from_letter(letter) {
        Some(symbol) => symbol,
        None => Symbol::Bad,
    }
}

/// The symbols of a text.
pub(crate) fn frame(text: &[u8; 100]) -> [Symbol; 100] {
    text.map(symbol)
}
