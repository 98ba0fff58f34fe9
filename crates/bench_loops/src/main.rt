//! What the inner loops of the libraries cost: the first word names a loop, and the second says how
//! often it runs. Without words it names the loops.
#![tactic(auto)]

mod carries;
mod frames;
mod pulses;
mod timelines;

use irig_port::{FlowPort, WholePort};
use std::time::Instant;
use std::{env, io, str};

/// The loops, by name.
const NAMES: [&str; 5] = ["timeline", "frame", "flow-pulse", "whole-pulse", "carry"];

/// Runs a loop so often, and gives the sum of what it answered, so that no call can be left out.
fn run(rt: &HostRuntime, name: &str, count: u32) -> io::Result<u64> {
    match name {
        "timeline" => timelines::run(rt, count),
        "frame" => frames::run(rt, count),
        "flow-pulse" => Ok(pulses::run::<FlowPort>(count)),
        "whole-pulse" => Ok(pulses::run::<WholePort>(count)),
        "carry" => carries::run(rt, count),
        _ => Ok(0),
    }
}

/// Measures a loop, and prints the nanoseconds of a turn.
fn measure(rt: &HostRuntime, name: &str, count: u32) -> io::Result<()> {
    let start = Instant::now(rt)?;
    let sum = run(rt, name, count)?;
    let nanoseconds = start.elapsed(rt)?.as_nanos();
    let each = nanoseconds / u128::from(count.max(1));
    println!(rt; "{name}: {each} ns a turn, {count} turns (sum {sum})")
}

fn main(rt: HostRuntime) -> io::Result<()> {
    let alloc = rt.alloc();
    let words: Vec<String> = env::args(&rt)?.collect(alloc)?;
    if let [_, name, count] = words.as_slice() {
        if let Ok(count) = count.as_str().parse::<u32>() {
            return measure(&rt, name.as_str(), count);
        }
    }
    for name in NAMES {
        println!(&rt; "{name}")?;
    }
    Ok(())
}
