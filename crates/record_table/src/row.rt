//! What a row says.

ghost use Rattle.std.specs.Prelude.{◌≡◌, ◌≤◌, ◌<◌, length};
ghost use Rattle.record_table.specs.Stands.{all_low, most_at, no_stand, stand_from, stand_of, swing_at, swing_of, with_level, with_most, with_swing};
ghost use Rattle.record_table.specs.Rows.{row_by, row_of};

use crate::clock::{Clock, Timed};
use crate::now::Now;
use crate::when::When;
use record_cells::{Swing, Threshold, columns_in, level_of, place_of, unquoted};
use record_levels::TimeFault;
use record_text::{LONGEST_LINE, field_of};

/// Why a row is refused.
#[derive(Clone, Copy, PartialEq, Eq)]
pub enum Reason {
    /// Its line has 1,024 bytes or more.
    Long,
    /// What stands in the column of times is no decimal number.
    BadTime,
    /// It has fewer columns than there are names: so many, without that of times.
    Columns(usize),
    /// What stands in the column of a chosen channel is neither 0 nor 1, or with a threshold no
    /// decimal number: at this place among the names, from 0.
    Level(usize),
    /// Its time is 0, and that of one sample, of which a remark says the rate.
    NoStep,
    /// A time that no recording goes on with.
    Time(TimeFault),
    /// No row stands below the line of names.
    NoRow,
}

/// How far each chosen line was off the threshold at most so far, in billionths, and which are
/// high.
#[derive(Clone, Copy)]
pub(crate) struct Stand {
    pub(crate) first: u64,
    pub(crate) second: u64,
    pub(crate) third: u64,
    pub(crate) fourth: u64,
    pub(crate) fifth: u64,
    /// The first line by the bit of 1.
    pub(crate) high: u8,
}

/// What rows are read for.
#[derive(Clone, Copy)]
pub(crate) struct Plan {
    /// By what they have their times.
    pub(crate) clock: Clock,
    /// Above which voltage a line is high; none if the cells are levels.
    pub(crate) threshold: Option<Threshold>,
    /// How many channels have names.
    pub(crate) columns: usize,
}

/// A row: its time, the step that was seen in the column of times, and how the chosen lines stand
/// then.
#[derive(Clone, Copy)]
pub(crate) struct Row {
    pub(crate) when: When,
    pub(crate) step: u64,
    pub(crate) stand: Stand,
}

/// What a row says of the channels at these places, after those so far.
pub(crate) fn row_of(plan: Plan, chosen: &[usize], now: Now, line: &[u8]) -> Result<Row, Reason>
    requires { length chosen.now ≤ 5 }
    ensures { result ≡ row_of plan chosen.now now line.now }
{
    if line.len() >= LONGEST_LINE {
        return Err(Reason::Long);
    }
    let timed = plan.clock.time_of(now.rows, now.step, line);
    let cells = plan.clock.cells_of(line);
    row_by(timed, stand_of(plan, chosen, now.stand, cells))
}

fn row_by(timed: Result<Timed, Reason>, stand: Result<Stand, Reason>) -> Result<Row, Reason>
    ensures { result ≡ row_by timed stand }
{
    match (timed, stand) {
        (Err(reason), _) => Err(reason),
        (Ok(_), Err(reason)) => Err(reason),
        (Ok(timed), Ok(stand)) => Ok(Row {
            when: timed.when,
            step: timed.step,
            stand,
        }),
    }
}

fn stand_of(plan: Plan, chosen: &[usize], before: Stand, cells: &[u8]) -> Result<Stand, Reason>
    requires { length chosen.now ≤ 5 }
    ensures { result ≡ stand_of plan chosen.now before cells.now }
{
    let count = columns_in(cells);
    if count < plan.columns {
        Err(Reason::Columns(count))
    } else {
        lines_of(plan.threshold, chosen, before, cells)
    }
}

fn lines_of(
    threshold: Option<Threshold>,
    chosen: &[usize],
    before: Stand,
    cells: &[u8],
) -> Result<Stand, Reason>
    requires { length chosen.now ≤ 5 }
    ensures { result ≡ stand_from threshold 0 (all_low before) chosen.now before cells.now }
{
    let mut stand = before.all_low();
    for (at, place) in chosen.iter().enumerate() {
        let cell = field_of(cells, *place);
        match swing_of(threshold, before.swing_at(at as u8), cell) {
            Some(swing) => stand = stand.with_swing(at as u8, swing),
            None => return Err(Reason::Level(*place)),
        }
    }
    Ok(stand)
}

// What a cell makes of a line: its level, or a voltage.
fn swing_of(threshold: Option<Threshold>, swing: Swing, cell: &[u8]) -> Option<Swing>
    ensures { result ≡ swing_of threshold swing cell.now }
{
    match threshold {
        Some(threshold) => match place_of(unquoted(cell)) {
            Some(place) => Some(swing.swung(threshold, place)),
            None => None,
        },
        None => match level_of(cell) {
            Some(is_high) => Some(Swing { is_high, ..swing }),
            None => None,
        },
    }
}

impl Stand {
    /// All low, and never off the threshold.
    pub(crate) fn start() -> Stand
        ensures { result ≡ no_stand }
    {
        Stand {
            first: 0,
            second: 0,
            third: 0,
            fourth: 0,
            fifth: 0,
            high: 0,
        }
    }

    fn all_low(self) -> Stand
        ensures { result ≡ all_low self }
    {
        Stand { high: 0, ..self }
    }

    fn swing_at(self, at: u8) -> Swing
        requires { at < 5 }
        ensures { result ≡ swing_at self at }
    {
        Swing {
            most: self.most_at(at),
            is_high: (self.high >> at) % 2 == 1,
        }
    }

    fn most_at(self, at: u8) -> u64
        ensures { result ≡ most_at self at }
    {
        match at {
            0 => self.first,
            1 => self.second,
            2 => self.third,
            3 => self.fourth,
            _ => self.fifth,
        }
    }

    fn with_swing(self, at: u8, swing: Swing) -> Stand
        requires { at < 5 }
        ensures { result ≡ with_swing self at swing }
    {
        let high = with_level(self.high, at, swing.is_high);
        Stand { high, ..self }.with_most(at, swing.most)
    }

    fn with_most(self, at: u8, most: u64) -> Stand
        ensures { result ≡ with_most self at most }
    {
        match at {
            0 => Stand {
                first: most,
                ..self
            },
            1 => Stand {
                second: most,
                ..self
            },
            2 => Stand {
                third: most,
                ..self
            },
            3 => Stand {
                fourth: most,
                ..self
            },
            _ => Stand {
                fifth: most,
                ..self
            },
        }
    }
}

fn with_level(high: u8, at: u8, is_high: bool) -> u8
    requires { at < 5 }
    ensures { result ≡ with_level high at is_high }
{
    if is_high { high | 1 << at } else { high }
}
