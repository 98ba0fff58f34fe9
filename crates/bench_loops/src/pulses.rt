//! `Port::pulse`, of a port that is fed true frames; one turn is one pulse.

use irig_frame::{Coded, Symbol, encode};
use irig_port::{Port, Told};
use irig_time::Rules;

/// Feeds a port a frame of 100 pulses again and again, with an edge after each.
pub fn run<P: Port>(count: u32) -> u64 {
    let widths = widths();
    let mut port = P::fresh(Rules::PLAIN);
    let mut sum = 0u64;
    for _ in 0..count / 100 {
        for width_us in widths {
            port.pulse(width_us);
        }
        sum = sum.wrapping_add(claims_told(port.edge()));
    }
    sum
}

fn claims_told(told: Told) -> u64 {
    u64::from(matches!(told, Told::Claim(_)))
}

// The pulses of the frame of 2000-01-03T00:00:00Z, in microseconds.
fn widths() -> [u32; 100] {
    let coded = Coded {
        second: 0,
        minute: 0,
        hour: 0,
        day: 3,
        year: 0,
        control: 0,
        sbs: 0,
    };
    encode(&coded).map(Symbol::width_us)
}
