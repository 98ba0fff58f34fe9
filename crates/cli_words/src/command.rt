//! The commands, and what words ask for by them.

ghost use Rattle.std.specs.Prelude.{◌≡◌, ◌≢◌, ◌↔◌, ◌≤◌, IfOk, IfSome, Ok, Some, length, unsigned_abs};
ghost use Rattle.text_frame.specs.Frame.{IsFrameOptions};
ghost use Rattle.cli_words.specs.Requests.{IsJudging, IsRequest};
ghost use Rattle.record_stamp.specs.Codes.{IsZoneOf};

use crate::help::{
    ABOUT, AFTER, BLAME_AFTER, EXPLAIN_AFTER, FLATTEN_AFTER, FRAME_AFTER, JUDGE_AFTER, READ_AFTER,
    RUN_AFTER, USAGE,
};
use crate::request::{Judging, NoRequest, Request, Source, Wanted};
use crate::tip::{fault_with_tip, threshold_fault, zone_fault};
use clap::builder::ValueParser;
use clap::error::ErrorKind;
use clap::{Arg, ArgAction, ArgMatches, Command, Error};
use irig_control::Parity;
use irig_time::{Leap, Rules, SbsUse, Sense};
use record_cells::Threshold;
use record_stamp::zone_of;
use scenario_json::{
    LEAP_WORDS, PARITY_WORDS, SBS_USE_WORDS, SENSE_WORDS, leap_named, parity_of, sbs_use_of,
    sense_of,
};
use std::alloc::{AllocError, Global};
use text_frame::FrameOptions;

/// What the words ask for, of which the first is the program's name: without a second word it is
/// `Request::Plain`, and else what a command names. `Help` where they ask for it, `Fault` where no
/// command fits them, `Memory` if there was none.
pub fn parse<'a>(alloc: Global, words: &'a [&'a str]) -> Result<Request<'a>, NoRequest>
    ensures plain { (result ≡ Ok Request.Plain) ↔ (length words.entry.now ≤ 1) }
    ensures in_range { IfOk result IsRequest }
{
    if words.len() <= 1 {
        return Ok(Request::Plain);
    }
    match matches_of(alloc, words) {
        Ok(matches) => request_of(alloc, &matches),
        Err(error) => Err(answer_of(alloc, &error, words)),
    }
}

fn matches_of<'a>(alloc: Global, words: &'a [&'a str]) -> Result<ArgMatches<'a>, Error> {
    program(alloc)?.try_get_matches_from(words)
}

fn request_of<'a>(alloc: Global, matches: &ArgMatches<'a>) -> Result<Request<'a>, NoRequest>
    ensures not_plain { result ≢ Ok Request.Plain }
    ensures in_range { IfOk result IsRequest }
{
    let Some((name, asked)) = matches.subcommand() else {
        // `clap` lets nothing through that has no command.
        return Err(NoRequest::Fault(String::new(alloc)));
    };
    match request_by(name, asked) {
        Some(request) => Ok(request),
        None => Err(no_value(alloc, asked)),
    }
}

// What is said of a zone that is none, or else of a threshold; `clap` reads all else.
fn no_value(alloc: Global, matches: &ArgMatches<'_>) -> NoRequest {
    let said = if zone_in(matches).is_none() {
        zone_fault(alloc, value(matches, "zone"))
    } else {
        threshold_fault(alloc, value(matches, "threshold"))
    };
    match said {
        Ok(text) => NoRequest::Fault(text),
        Err(_) => NoRequest::Memory,
    }
}

fn request_by<'a>(name: &str, matches: &ArgMatches<'a>) -> Option<Request<'a>>
    ensures not_plain { result ≢ Some Request.Plain }
    ensures in_range { IfSome result IsRequest }
{
    match name {
        "run" => Some(play_of(log_of(matches), matches)),
        "flatten" => Some(play_of(Wanted::Flat, matches)),
        "blame" => Some(play_of(blame_of(matches), matches)),
        "judge" => judge_of(matches),
        "frame" => frame_of(matches),
        "read" => read_of(matches),
        "explain" => Some(explain_of(matches)),
        _ => None,
    }
}

fn log_of<'a>(matches: &ArgMatches<'a>) -> Wanted<'a> {
    Wanted::Log {
        all: matches.get_flag("all"),
        ports: matches.get_flag("ports"),
    }
}

fn blame_of<'a>(matches: &ArgMatches<'a>) -> Wanted<'a> {
    Wanted::Blame {
        lines: matches.get_str("recorded").unwrap_or(""),
    }
}

// Where a command may lack its FILE, the scenario is that on the input.
fn play_of<'a>(wanted: Wanted<'a>, matches: &ArgMatches<'a>) -> Request<'a>
    ensures not_plain { result ≢ Request.Plain }
    ensures in_range { IsRequest result }
{
    Request::Play {
        wanted,
        source: source_of(matches),
    }
}

fn source_of<'a>(matches: &ArgMatches<'a>) -> Source<'a> {
    match matches.get_str("FILE") {
        None | Some("-") => Source::Input,
        Some(path) => Source::File(path),
    }
}

fn judge_of<'a>(matches: &ArgMatches<'a>) -> Option<Request<'a>>
    ensures not_plain { result ≢ Some Request.Plain }
    ensures in_range { IfSome result IsRequest }
{
    Some(Request::Judge {
        judging: judging_of(matches)?,
        source: source_of(matches),
    })
}

fn judging_of<'a>(matches: &ArgMatches<'a>) -> Option<Judging<'a>>
    ensures { IfSome result IsJudging }
{
    Some(Judging {
        channels: matches.get_str("channels"),
        glitch_us: glitch(matches),
        rules: rules_of(matches)?,
        zone: zone_in(matches)?,
        threshold: threshold_in(matches)?,
        as_json: matches.get_flag("json"),
    })
}

// The zone that is said, if one is; nothing where what is said is no zone.
fn zone_in(matches: &ArgMatches<'_>) -> Option<Option<i16>>
    ensures { IfSome result IsZoneOf }
{
    match matches.get_str("zone") {
        Some(text) => match zone_of(text.as_bytes()) {
            Some(minutes) => Some(Some(minutes)),
            None => None,
        },
        None => Some(None),
    }
}

// The same of a threshold.
fn threshold_in(matches: &ArgMatches<'_>) -> Option<Option<Threshold>> {
    match matches.get_str("threshold") {
        Some(text) => match Threshold::of(text.as_bytes()) {
            Some(threshold) => Some(Some(threshold)),
            None => None,
        },
        None => Some(None),
    }
}

fn frame_of<'a>(matches: &ArgMatches<'a>) -> Option<Request<'a>>
    ensures not_plain { result ≢ Some Request.Plain }
    ensures in_range { IfSome result IsRequest }
{
    Some(Request::Frame {
        time: value(matches, "TIME"),
        options: frame_options(matches)?,
    })
}

fn frame_options(matches: &ArgMatches<'_>) -> Option<FrameOptions>
    ensures { IfSome result IsFrameOptions }
{
    Some(FrameOptions {
        local: local(matches),
        pending: pending(matches),
        dst: matches.get_flag("dst"),
        quality: quality(matches),
        parity: parity(matches)?,
        sense: sense(matches)?,
    })
}

fn read_of<'a>(matches: &ArgMatches<'a>) -> Option<Request<'a>>
    ensures not_plain { result ≢ Some Request.Plain }
    ensures in_range { IfSome result IsRequest }
{
    Some(Request::Read {
        frame: value(matches, "FRAME"),
        rules: rules_of(matches)?,
    })
}

fn rules_of(matches: &ArgMatches<'_>) -> Option<Rules> {
    Some(Rules {
        parity: parity(matches)?,
        sense: sense(matches)?,
        sbs: sbs(matches)?,
    })
}

fn explain_of<'a>(matches: &ArgMatches<'a>) -> Request<'a>
    ensures not_plain { result ≢ Request.Plain }
    ensures in_range { IsRequest result }
{
    Request::Explain {
        word: value(matches, "WORD"),
    }
}

fn answer_of(alloc: Global, error: &Error, words: &[&str]) -> NoRequest {
    if error.kind() == ErrorKind::OutOfMemory {
        return NoRequest::Memory;
    }
    let text = if error.use_stderr() {
        fault_with_tip(alloc, error, words).map(NoRequest::Fault)
    } else {
        format!(in alloc; "{error}").map(NoRequest::Help)
    };
    text.unwrap_or(NoRequest::Memory)
}

// The value of an argument that the command line was refused without.
fn value<'a>(matches: &ArgMatches<'a>, name: &str) -> &'a str {
    matches.get_str(name).unwrap_or("")
}

// The range is the one that the command line was read by, which no contract of `clap` says.
fn local(matches: &ArgMatches<'_>) -> i8
    ensures { unsigned_abs result ≤ 31 }
{
    matches.get_one::<i8>("local").unwrap_or(0).clamp(-31, 31)
}

// The same.
fn quality(matches: &ArgMatches<'_>) -> u8
    ensures { result ≤ 15 }
{
    matches.get_one::<u8>("quality").unwrap_or(0).min(15)
}

// The same.
fn glitch(matches: &ArgMatches<'_>) -> u16
    ensures { result ≤ 4000 }
{
    matches.get_one::<u16>("glitch").unwrap_or(0).min(4_000)
}

fn pending(matches: &ArgMatches<'_>) -> Option<Leap> {
    leap_named(matches.get_str("pending")?)
}

fn parity(matches: &ArgMatches<'_>) -> Option<Parity> {
    parity_of(matches.get_str("parity")?)
}

fn sense(matches: &ArgMatches<'_>) -> Option<Sense> {
    sense_of(matches.get_str("sense")?)
}

fn sbs(matches: &ArgMatches<'_>) -> Option<SbsUse> {
    sbs_use_of(matches.get_str("sbs")?)
}

fn program<'a>(alloc: Global) -> Result<Command<'a>, AllocError> {
    let program = with_command(described_program(alloc), run_command(alloc));
    let program = with_command(program, flatten_command(alloc));
    let program = with_command(program, blame_command(alloc));
    let program = with_command(program, judge_command(alloc));
    let program = with_command(program, frame_command(alloc));
    let program = with_command(program, read_command(alloc));
    with_command(program, explain_command(alloc))
}

fn with_command<'a>(
    program: Result<Command<'a>, AllocError>,
    command: Result<Command<'a>, AllocError>,
) -> Result<Command<'a>, AllocError> {
    program?.subcommand(command?)
}

fn described_program<'a>(alloc: Global) -> Result<Command<'a>, AllocError> {
    let program = described(alloc, "irig", ABOUT, AFTER)
        .version("3.0.0")
        .override_usage(USAGE)
        .subcommand_required(true);
    program.bin_name("irig")
}

fn described<'a>(alloc: Global, name: &'a str, about: &'a str, after_help: &'a str) -> Command<'a> {
    Command::new(alloc, name)
        .about(about)
        .after_help(after_help)
}

fn run_command<'a>(alloc: Global) -> Result<Command<'a>, AllocError> {
    let about = "Runs a scenario and prints its log";
    described(alloc, "run", about, RUN_AFTER)
        .arg(file_argument(alloc))?
        .arg(all_option(alloc))?
        .arg(ports_option(alloc))
}

fn file_argument<'a>(alloc: Global) -> Arg<'a> {
    Arg::new(alloc, "FILE")
        .help("The scenario: JSON Lines, as docs/SCENARIOS.md says; - for standard input")
        .required(true)
}

fn all_option<'a>(alloc: Global) -> Arg<'a> {
    Arg::new(alloc, "all")
        .long("all")
        .help("Shows the ticks at which a reader announces nothing too")
        .action(ArgAction::SetTrue)
}

fn ports_option<'a>(alloc: Global) -> Arg<'a> {
    Arg::new(alloc, "ports")
        .long("ports")
        .help("Shows for each tick, in a line that begins with a blank, what each port told")
        .action(ArgAction::SetTrue)
}

fn flatten_command<'a>(alloc: Global) -> Result<Command<'a>, AllocError> {
    let about = "Writes a scenario out as what its readers or devices hear";
    described(alloc, "flatten", about, FLATTEN_AFTER).arg(file_argument(alloc))
}

fn blame_command<'a>(alloc: Global) -> Result<Command<'a>, AllocError> {
    let about = "Says who lied in a scenario, why a reader was silent, and what it cost";
    described(alloc, "blame", about, BLAME_AFTER)
        .arg(Arg::new(alloc, "FILE").help("The scenario; without it, or with -, standard input"))?
        .arg(recorded_option(alloc))
}

fn recorded_option<'a>(alloc: Global) -> Arg<'a> {
    Arg::new(alloc, "recorded")
        .long("recorded")
        .value_name("LINES")
        .help(
            "The scenario is of a recording of these lines, as IRIG1,IRIG2,IRIG3, one for each port",
        )
}

fn judge_command<'a>(alloc: Global) -> Result<Command<'a>, AllocError> {
    let about = "Says of a recording of lines which one is wrong, since when and by how much";
    described(alloc, "judge", about, JUDGE_AFTER)
        .arg(recording_argument(alloc))?
        .arg(channels_option(alloc))?
        .arg(glitch_option(alloc))?
        .arg(parity_option(alloc))?
        .arg(sense_option(alloc))?
        .arg(sbs_option(alloc))?
        .arg(zone_option(alloc))?
        .arg(threshold_option(alloc))?
        .arg(json_option(alloc))
}

fn zone_option<'a>(alloc: Global) -> Arg<'a> {
    Arg::new(alloc, "zone").long("zone").value_name("ZONE").help(
        "By how much the stamp of a record is ahead of UTC, as --zone=1 or --zone=-5h30, whatever it names",
    )
}

fn threshold_option<'a>(alloc: Global) -> Arg<'a> {
    Arg::new(alloc, "threshold")
        .long("threshold")
        .value_name("VOLTS")
        .help(
            "Of volts, or of an analog channel in its unit: above how many a line is high, as --threshold=1.5",
        )
}

fn json_option<'a>(alloc: Global) -> Arg<'a> {
    Arg::new(alloc, "json")
        .long("json")
        .help("Writes the verdict as an object of JSON, on one line")
        .action(ArgAction::SetTrue)
}

fn recording_argument<'a>(alloc: Global) -> Arg<'a> {
    Arg::new(alloc, "FILE")
        .help(
            "The recording: a value change dump (.vcd) or a table (.csv), - for one on standard input, or the .cfg or .cff of a record",
        )
        .required(true)
}

fn channels_option<'a>(alloc: Global) -> Arg<'a> {
    Arg::new(alloc, "channels")
        .long("channels")
        .value_name("NAMES")
        .help(
            "Its lines: one, three or five of its channels of one bit, as G0,G1,G2; without it all",
        )
}

fn glitch_option<'a>(alloc: Global) -> Arg<'a> {
    Arg::new(alloc, "glitch")
        .long("glitch")
        .value_name("US")
        .help("A level that lasts for less than so many microseconds, 0 to 4000, is left out")
        .value_parser(ValueParser::signed(0, 4_000))
        .default_value("50")
}

fn frame_command<'a>(alloc: Global) -> Result<Command<'a>, AllocError> {
    let about = "Prints the frame of a UTC second";
    described(alloc, "frame", about, FRAME_AFTER)
        .arg(time_argument(alloc))?
        .arg(local_option(alloc))?
        .arg(pending_option(alloc))?
        .arg(dst_option(alloc))?
        .arg(quality_option(alloc))?
        .arg(parity_option(alloc))?
        .arg(sense_option(alloc))
}

fn time_argument<'a>(alloc: Global) -> Arg<'a> {
    Arg::new(alloc, "TIME")
        .help(
            "The second, from 2000-01-02T00:00:00Z to 2099-12-30T23:59:59Z; 23:59:60 on a month's last day",
        )
        .required(true)
}

fn local_option<'a>(alloc: Global) -> Arg<'a> {
    Arg::new(alloc, "local")
        .long("local")
        .value_name("HALF_HOURS")
        .help(
            "The half hours that the coded time is ahead of UTC, -31 to 31; less than 0 as --local=-5",
        )
        .value_parser(ValueParser::signed(-31, 31))
        .default_value("0")
}

fn pending_option<'a>(alloc: Global) -> Arg<'a> {
    Arg::new(alloc, "pending")
        .long("pending")
        .value_name("KIND")
        .help("The leap second that is pending at the end of the day")
        .value_parser(LEAP_WORDS.as_slice())
}

fn dst_option<'a>(alloc: Global) -> Arg<'a> {
    Arg::new(alloc, "dst")
        .long("dst")
        .help("Daylight saving is in force")
        .action(ArgAction::SetTrue)
}

fn quality_option<'a>(alloc: Global) -> Arg<'a> {
    Arg::new(alloc, "quality")
        .long("quality")
        .value_name("QUALITY")
        .help("The time quality, 0 for a locked clock to 15 for one that failed")
        .value_parser(ValueParser::signed(0, 15))
        .default_value("0")
}

fn parity_option<'a>(alloc: Global) -> Arg<'a> {
    Arg::new(alloc, "parity")
        .long("parity")
        .value_name("PARITY")
        .help("The parity of the frame")
        .value_parser(PARITY_WORDS.as_slice())
        .default_value(PARITY_WORDS[0])
}

fn sense_option<'a>(alloc: Global) -> Arg<'a> {
    Arg::new(alloc, "sense")
        .long("sense")
        .value_name("SENSE")
        .help("What is done with the offset in the frame to get UTC of the coded time")
        .value_parser(SENSE_WORDS.as_slice())
        .default_value(SENSE_WORDS[0])
}

fn read_command<'a>(alloc: Global) -> Result<Command<'a>, AllocError> {
    let about = "Prints what a frame says";
    described(alloc, "read", about, READ_AFTER)
        .arg(frame_argument(alloc))?
        .arg(parity_option(alloc))?
        .arg(sense_option(alloc))?
        .arg(sbs_option(alloc))
}

fn frame_argument<'a>(alloc: Global) -> Arg<'a> {
    Arg::new(alloc, "FRAME")
        .help("The symbols: P a marker, 0, 1, ? a bad pulse; blanks are ignored")
        .required(true)
}

fn sbs_option<'a>(alloc: Global) -> Arg<'a> {
    Arg::new(alloc, "sbs")
        .long("sbs")
        .value_name("SBS")
        .help("Whether the straight binary seconds are compared with the coded time")
        .value_parser(SBS_USE_WORDS.as_slice())
        .default_value(SBS_USE_WORDS[0])
}

fn explain_command<'a>(alloc: Global) -> Result<Command<'a>, AllocError> {
    let about = "Prints what a number, a name or a word of a log means";
    described(alloc, "explain", about, EXPLAIN_AFTER).arg(word_argument(alloc))
}

fn word_argument<'a>(alloc: Global) -> Arg<'a> {
    Arg::new(alloc, "WORD")
        .help(
            "The number, 1 to 37, or the name of a fault or of a refusal, or a word that a log shows",
        )
        .required(true)
}
