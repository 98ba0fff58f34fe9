//! The program: the words, the devices and the exit status of a run.
#![tactic(auto)]

mod explain;
mod fault;
mod judge;
mod path;
mod play;
mod program;
mod record;
mod refusal;
mod request;

use fault::{Fault, report};
use irig_device::Watched;
use program::drive;
use std::io::{BufReader, ErrorKind, IsTerminal};
use std::process::ExitCode;
use std::{env, io};

// What is said before a scenario is read from a terminal.
const TERMINAL: &str =
    "irig: reads a scenario from this terminal, line by line, to Ctrl-D; irig --help says more";

// Whether the words, of which the first is the program's name, ask for a run of the input.
fn reads_input(words: &[&str]) -> bool {
    words.len() <= 1 || (words.get(1) == Some(&"run") && words.get(2) == Some(&"-"))
}

// The status of the words that the system gives.
fn run(rt: &HostRuntime) -> io::Result<u8> {
    let alloc = rt.alloc();
    let arguments: Vec<String> = env::args(rt)?.collect(alloc)?;
    let words: Vec<&str> = arguments.iter().map(|word| word.as_str()).collect(alloc)?;
    if reads_input(&words) && rt.stdin().is_terminal() {
        // A standard error that takes nothing changes nothing.
        let _ = rt.eprintln(&TERMINAL);
    }
    let mut input = Watched::new(BufReader::new(alloc, rt.reader())?);
    let mut output = Watched::new(io::writer(rt));
    Ok(drive(rt, words.as_slice(), &mut input, &mut output))
}

fn main(rt: HostRuntime) -> ExitCode {
    let status = match run(&rt) {
        Ok(status) => status,
        Err(error) if error.kind() == ErrorKind::OutOfMemory => report(&rt, &Fault::Memory),
        Err(_) => report(&rt, &Fault::NotText),
    };
    ExitCode::from(status)
}
