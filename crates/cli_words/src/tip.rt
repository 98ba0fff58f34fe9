//! What is wrong with words, with a tip if `clap` has none that helps.

use clap::Error;
use clap::error::ErrorKind;
use std::alloc::{AllocError, Global};

/// The text of a fault of the words, of which the first is the program's name.
pub(crate) fn fault_with_tip(
    alloc: Global,
    error: &Error,
    words: &[&str],
) -> Result<String, AllocError> {
    match error.kind() {
        ErrorKind::UnknownArgument => unknown_argument(alloc, error, words),
        ErrorKind::InvalidSubcommand => unknown_command(alloc, error, words),
        ErrorKind::ValueValidation => bad_value(alloc, error),
        _ => format!(in alloc; "{error}"),
    }
}

fn bad_value(alloc: Global, error: &Error) -> Result<String, AllocError> {
    let text = format!(in alloc; "{error}")?;
    if !text.as_str().contains("'--local <HALF_HOURS>'") {
        return Ok(text);
    }
    format!(in alloc; "{text}\n  tip: half hours are whole, -31 to 31; 5 hours 30 minutes are 11")
}

// Of what `clap` says the first line alone, since its own tip is of no use if all is given.
fn unknown_argument(alloc: Global, error: &Error, words: &[&str]) -> Result<String, AllocError> {
    if let Some((option, number)) = negative(words) {
        return format!(in alloc;
            "error: a number below 0 stands behind '=': {option}={number}\n\nFor more information, try '--help'."
        );
    }
    let text = format!(in alloc; "{error}")?;
    let fault = text.as_str().lines().next().unwrap_or("");
    let tip = if fault.contains("argument '-") {
        tip_for_option(words)
    } else {
        tip_for(words)
    };
    format!(in alloc; "{fault}{tip}\n\nFor more information, try '--help'.")
}

fn tip_for(words: &[&str]) -> &'static str {
    match words.get(1) {
        Some(&"read") => {
            "\n\n  tip: quotes hold the groups of a frame together: irig read 'P10.. 100.. ..'"
        }
        Some(&"frame") => "\n\n  tip: TIME is one word, as 2016-12-31T23:59:59Z",
        Some(&"judge") => {
            "\n\n  tip: one FILE is judged; --channels=G0,G1,G2 names lines that are in it"
        }
        Some(&"explain") => {
            "\n\n  tip: one word stands here: irig explain 25, irig explain premises"
        }
        _ => "",
    }
}

fn tip_for_option(words: &[&str]) -> &'static str {
    match words.get(1) {
        Some(&"run") => "\n\n  tip: the options of run are --all and --ports",
        Some(&"frame") => {
            "\n\n  tip: the options of frame are --local, --pending, --dst, --quality, --parity and --sense"
        }
        Some(&"read") => "\n\n  tip: the options of read are --parity, --sense and --sbs",
        Some(&"blame") => "\n\n  tip: the option of blame is --recorded",
        Some(&"judge") => {
            "\n\n  tip: the options of judge are --channels, --glitch, --parity, --sense, --sbs, --zone, --threshold and --json"
        }
        Some(&"flatten" | &"explain") => "\n\n  tip: this command has no options",
        _ => {
            "\n\n  tip: options follow the command: irig run FILE --all; '-' is standard input: irig run - --all"
        }
    }
}

// To a path `clap` would say that a command is similar.
fn unknown_command(alloc: Global, error: &Error, words: &[&str]) -> Result<String, AllocError> {
    match words.get(1) {
        Some(word) if is_path(word) => format!(in alloc;
            "error: '{word}' is no command\n\n  tip: to run the scenario in a file: irig run {word}\n\nFor more information, try '--help'."
        ),
        _ => format!(in alloc; "{error}"),
    }
}

fn is_path(word: &str) -> bool {
    for byte in word.bytes() {
        if byte == b'.' || byte == b'/' {
            return true;
        }
    }
    false
}

// An option, and the number below 0 that stands behind it as a word of its own.
fn negative<'a>(words: &[&'a str]) -> Option<(&'a str, &'a str)> {
    for pair in words.windows(2) {
        if let [option, number] = pair
            && (*option == "--local" || *option == "--zone" || *option == "--threshold")
            && number.starts_with('-')
        {
            return Some((option, number));
        }
    }
    None
}

/// The text of a fault: a zone that is none.
pub(crate) fn zone_fault(alloc: Global, zone: &str) -> Result<String, AllocError> {
    format!(in alloc;
        "error: invalid value '{zone}' for '--zone <ZONE>'\n\n  tip: a zone is hours ahead of UTC, and maybe minutes: --zone=1, --zone=-5h30\n\nFor more information, try '--help'."
    )
}

/// The text of a fault: a threshold that is none.
pub(crate) fn threshold_fault(alloc: Global, threshold: &str) -> Result<String, AllocError> {
    format!(in alloc;
        "error: invalid value '{threshold}' for '--threshold <VOLTS>'\n\n  tip: a threshold is a decimal number less than 1,000,000,000 off 0: --threshold=1.5, --threshold=-2e-3\n\nFor more information, try '--help'."
    )
}
