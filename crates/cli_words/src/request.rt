//! What the words of a command line ask for.

use irig_time::Rules;
use record_cells::Threshold;
use text_frame::FrameOptions;

/// What is written of a scenario.
#[derive(Clone, Copy)]
pub enum Wanted<'a> {
    /// Its log.
    Log {
        /// Whether the log shows silent ticks too.
        all: bool,
        /// Whether the log shows what each port told.
        ports: bool,
    },
    /// The scenario as what its readers hear.
    Flat,
    /// Who lied in it, and what it cost.
    Blame {
        /// The names of recorded lines, with a comma between them; nothing of a scenario.
        lines: &'a str,
    },
}

/// Where a scenario or a recording is read from.
#[derive(Clone, Copy)]
pub enum Source<'a> {
    /// The input.
    Input,
    /// The file with this path.
    File(&'a str),
}

/// How a recording is judged.
#[derive(Clone, Copy)]
pub struct Judging<'a> {
    /// The names of its lines, with a comma between two; nothing for all that it has.
    pub channels: Option<&'a str>,
    /// A level that lasts for less is a glitch: microseconds, 0 to 4,000.
    pub glitch_us: u16,
    /// How frames are read.
    pub rules: Rules,
    /// By how many minutes the stamp of a record is ahead of UTC, below a day; nothing for what it
    /// says.
    pub zone: Option<i16>,
    /// Above which voltage a line is high; nothing for cells that are levels.
    pub threshold: Option<Threshold>,
    /// Whether the verdict is an object of JSON, and else lines for a person.
    pub as_json: bool,
}

/// What a command line asks for.
#[derive(Clone, Copy)]
pub enum Request<'a> {
    /// The log of the scenario on the input, without options: no words at all.
    Plain,
    /// A scenario is played, and what is wanted of it is written.
    Play {
        wanted: Wanted<'a>,
        source: Source<'a>,
    },
    /// A recording of lines is judged.
    Judge {
        /// How; its glitches and its zone are in their range.
        judging: Judging<'a>,
        source: Source<'a>,
    },
    /// The frame of a UTC second.
    Frame {
        time: &'a str,
        /// What the frame says beside its time, each in its range.
        options: FrameOptions,
    },
    /// What a frame says.
    Read {
        frame: &'a str,
        /// How it is read.
        rules: Rules,
    },
    /// What a number, a name or a word of a log means.
    Explain {
        word: &'a str,
    },
}

/// What comes in place of a request.
#[derive(Drop)]
pub enum NoRequest {
    /// The help, or the version, that the words ask for.
    Help(String),
    /// What is wrong with the words, and what would be right.
    Fault(String),
    /// The system gave no memory.
    Memory,
}
