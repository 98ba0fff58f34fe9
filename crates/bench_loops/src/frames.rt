//! `Generator::frame_at`, over a timeline with one leap second and a zone with one change.

use irig_gen::{Change, Generator, Zone};
use irig_time::{Leap, Rules, Timeline, UtcSecond};
use std::alloc::Global;
use std::io;

/// Takes the true frames of two days of edges, again and again.
pub fn run(rt: &HostRuntime, count: u32) -> io::Result<u64> {
    let Some((timeline, generator)) = plant(rt.alloc()) else {
        return Ok(0);
    };
    let mut sum = 0u64;
    for turn in 0..count {
        let edge = u64::from(turn % 172_800);
        if let Some(frame) = generator.frame_at(&timeline, edge) {
            sum = sum.wrapping_add(frame[1] as u64);
        }
    }
    Ok(sum)
}

// From an hour before the leap second of 2016, at UTC + 5:30.
fn plant(alloc: Global) -> Option<(Timeline, Generator)> {
    let start = UtcSecond {
        day: 6209,
        sod: 82800,
    };
    let timeline = Timeline::new(alloc, start, &[(6209, Leap::Insert)]).ok()?;
    let zone = Zone {
        half_hours: 11,
        dst: false,
    };
    let change = Change {
        at: UtcSecond { day: 6211, sod: 0 },
        zone,
    };
    let generator = Generator::new(alloc, zone, &[change], Rules::PLAIN).ok()?;
    Some((timeline, generator))
}
