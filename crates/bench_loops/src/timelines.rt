//! `Timeline::at`, with a leap second at each of the 1,199 month ends that are served.

use irig_time::{FIRST_DAY, LAST_DAY, Leap, Timeline, UtcSecond, month_end};
use std::alloc::Global;
use std::io;

/// Asks for seconds all over the timeline.
pub fn run(rt: &HostRuntime, count: u32) -> io::Result<u64> {
    let leaps = all_leaps(rt.alloc())?;
    let start = UtcSecond { day: 1, sod: 0 };
    let Ok(timeline) = Timeline::new(rt.alloc(), start, leaps.as_slice()) else {
        return Ok(0);
    };
    let mut sum = 0u64;
    for turn in 0..count {
        let number = u64::from(turn.wrapping_mul(2_654_435_761)) % 3_155_588_000;
        if let Some(utc) = timeline.at(number) {
            sum = sum.wrapping_add(u64::from(utc.day) + u64::from(utc.sod));
        }
    }
    Ok(sum)
}

fn all_leaps(alloc: Global) -> io::Result<Vec<(u32, Leap)>> {
    let mut leaps = Vec::new(alloc);
    for day in FIRST_DAY..=LAST_DAY {
        if month_end(day) {
            leaps.push((day, Leap::Insert))?;
        }
    }
    Ok(leaps)
}
