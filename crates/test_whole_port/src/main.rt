//! A scenario over ports that keep each symbol, in place of those that keep a bit of each.
//!
//! It runs the scenario on standard input and writes its log to standard output; with a word on the
//! command line it shows silent entries too. What it writes has to be what the program `irig`
//! writes, as the repository's `check` compares for each case.
#![tactic(auto)]

use irig_device::Watched;
use irig_port::WholePort;
use irig_scene::{OUT_OF_MEMORY, run_scene_over};
use std::io::BufReader;
use std::process::ExitCode;
use std::{env, io};

fn run(rt: &HostRuntime) -> io::Result<u8> {
    let alloc = rt.alloc();
    let words: Vec<String> = env::args(rt)?.collect(alloc)?;
    let mut input = Watched::new(BufReader::new(alloc, rt.reader())?);
    let mut output = Watched::new(io::writer(rt));
    let answer = run_scene_over::<WholePort, _, _>(alloc, &mut input, &mut output, words.len() > 1);
    Ok(match answer {
        Ok(_) => 0,
        Err(fault) => fault.status(),
    })
}

fn main(rt: HostRuntime) -> ExitCode {
    ExitCode::from(run(&rt).unwrap_or(OUT_OF_MEMORY))
}
