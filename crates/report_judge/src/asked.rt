//! How a recording is judged.

use irig_time::Rules;
use record_cells::Threshold;

/// How a recording is judged.
#[derive(Clone, Copy)]
pub struct Asked<'a> {
    /// The names of its lines, with a comma between two; nothing for all its channels.
    pub channels: Option<&'a str>,
    /// A level that lasts for less is a glitch: microseconds, 0 to 4,000.
    pub glitch_us: u16,
    /// How frames are read.
    pub rules: Rules,
    /// By how many minutes the stamp of a record is ahead of UTC, below a day, in place of what the
    /// record says; nothing for that.
    pub zone: Option<i16>,
    /// Above which voltage a line of a table is high; nothing if the cells of a table are levels.
    pub threshold: Option<Threshold>,
    /// Whether the verdict is an object of JSON, and else lines for a person.
    pub as_json: bool,
}
