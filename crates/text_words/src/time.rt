//! Why a text is no time, or no day, that is served.

use irig_time::{FIRST_DAY, LAST_DAY, month_end, read_day};

static DAY_FORM: &[u8] = b"0000-00-00";

static TIME_FORM: &[u8] = b"0000-00-00T00:00:00Z";

// The form without its last letter, and how many bytes it has.
static FRONT_FORM: &[u8] = b"0000-00-00T00:00:00";

static BLANK_FORM: &[u8] = b"0000-00-00 00:00:00";

const FRONT: usize = 19;

/// Why a text is none of the seconds served.
pub fn reason_of_time(text: &str) -> &'static str {
    match reason_in_form(text.as_bytes()) {
        Some(reason) => reason,
        None => reason_of_form(text.as_bytes()),
    }
}

// What of the form is another: its front is that of a time, or not even that.
fn reason_of_form(text: &[u8]) -> &'static str {
    let (front, end) = match text.get(..FRONT) {
        Some(front) => (front, text.get(FRONT..).unwrap_or(&[])),
        None => (text, text),
    };
    if has_form(front, BLANK_FORM) {
        "T stands between date and time, and Z at the end"
    } else if !has_form(front, FRONT_FORM) {
        "its form is another"
    } else if end.is_empty() {
        "Z is missing at its end"
    } else {
        "whole seconds of UTC alone are taken, with Z at the end"
    }
}

/// Why a text is none of the days that can be named.
pub fn reason_of_day(text: &str) -> &'static str {
    if has_form(text.as_bytes(), DAY_FORM) {
        "there is no such day in these years"
    } else {
        "its form is another"
    }
}

/// Why a text that has the form of a time is none of the seconds served; none if its form is
/// another.
pub(crate) fn reason_in_form(text: &[u8]) -> Option<&'static str> {
    match text {
        [date @ .., _, h1, h2, _, m1, m2, _, s1, s2, _] if has_form(text, TIME_FORM) => {
            let clock = [number(*h1, *h2), number(*m1, *m2), number(*s1, *s2)];
            Some(reason_of_parts(read_day(date), clock))
        }
        _ => None,
    }
}

// The day is counted from 2000-01-01, and there is none in other years.
fn reason_of_parts(day: Option<u32>, [hour, minute, second]: [u32; 3]) -> &'static str {
    match day {
        None => "there is no such day from 2000-01-02 to 2099-12-30",
        Some(day) if day < FIRST_DAY || day > LAST_DAY => {
            "the days from 2000-01-02 to 2099-12-30 are served"
        }
        _ if hour > 23 || minute > 59 || second > 60 => {
            "hours go to 23, minutes to 59 and seconds to 59"
        }
        _ if hour != 23 || minute != 59 => "second 60 comes at 23:59 alone",
        Some(day) if !month_end(day) => "this day has no second 60: it is not the last of a month",
        _ => "there is no such second",
    }
}

fn has_form(text: &[u8], form: &[u8]) -> bool {
    if text.len() != form.len() {
        return false;
    }
    for at in 0..text.len() {
        if !fits(text[at], form[at]) {
            return false;
        }
    }
    true
}

// Whether a byte is a digit where a digit belongs, and else the byte that belongs there.
fn fits(byte: u8, form: u8) -> bool {
    if form == b'0' {
        byte.is_ascii_digit()
    } else {
        byte == form
    }
}

fn number(tens: u8, units: u8) -> u32 {
    u32::from(tens.saturating_sub(b'0')) * 10 + u32::from(units.saturating_sub(b'0'))
}
