//! What is said of a line, in numbers.

ghost use Rattle.std.specs.Prelude.{◌≡◌};
ghost use Rattle.c_keeper.specs.Said.{edge_for, end_beside, first_end, off_by, off_from, said_by, said_of, second_claimed};
ghost use Rattle.c_keeper.specs.Timekeepers.{clock_in, clock_state_in, IsAccepted};

use crate::states::state_at;
use crate::timekeeper::{IrigTimekeeper, clock_rules_of, seen_at};
use c_lines::{announced_of, number_of};
use c_numbers::{IrigTold, told_for_c};
use irig_lines::KeptFrame;
use irig_port::Told;
use irig_time::UtcSecond;
use irig_timekeeper::Announced;

/// What is said of a line.
#[repr(C)]
#[derive(Clone, Copy, Drop)]
pub struct IrigLineSaid {
    /// What it is, by a number.
    pub state: u8,
    /// What its last whole frame tells, silence if there is none.
    pub told: IrigTold,
    /// Where that frame ends, or 0.
    pub end_us: u32,
    /// How far that lies behind the told edge at which its second ended, or before it; of a line that
    /// cannot be judged yet, behind the end of the first other line's frame that claims the same
    /// second. 0 if there is none so near as two seconds.
    pub off_us: i32,
}

// The second that a frame claims.
fn second_claimed(frame: Option<KeptFrame>) -> Option<UtcSecond>
    ensures { result ≡ second_claimed frame }
{
    match frame {
        Some(kept) => match kept.told {
            Told::Claim(claim) => Some(claim.at),
            _ => None,
        },
        None => None,
    }
}

// The edge at which a second ended, if it is this one.
fn edge_for(second: UtcSecond, told: Option<Announced>) -> Option<u32>
    ensures { result ≡ edge_for second told }
{
    match told {
        Some(announced) if announced.second == second => Some(announced.edge_us),
        _ => None,
    }
}

// Where another line's frame of this second ends.
fn end_beside(timekeeper: &IrigTimekeeper, port: u8, other: u8, second: UtcSecond) -> Option<u32>
    ensures { result
        ≡ end_beside (clock_state_in timekeeper.now).lines port other second }
{
    if other == port {
        return None;
    }
    let seen = seen_at(timekeeper, other);
    match (seen, second_claimed(seen)) {
        (Some(kept), Some(claimed)) if claimed == second => Some(kept.end_us),
        _ => None,
    }
}

// Where the first other line's frame of this second ends.
fn first_end(timekeeper: &IrigTimekeeper, port: u8, second: UtcSecond) -> Option<u32>
    ensures { result ≡ first_end (clock_state_in timekeeper.now).lines port second }
{
    end_beside(timekeeper, port, 0, second)
        .or(end_beside(timekeeper, port, 1, second))
        .or(end_beside(timekeeper, port, 2, second))
        .or(end_beside(timekeeper, port, 3, second))
        .or(end_beside(timekeeper, port, 4, second))
}

// How far an end lies behind a time, if that is known and less than two seconds off.
fn off_from(time_us: Option<u32>, end_us: u32) -> i32
    ensures { result ≡ off_from time_us end_us }
{
    let Some(time) = time_us else {
        return 0;
    };
    let behind_us = end_us.wrapping_sub(time);
    let before_us = time.wrapping_sub(end_us);
    if behind_us < 2_000_000 {
        behind_us as i32
    } else if before_us < 2_000_000 {
        -(before_us as i32)
    } else {
        0
    }
}

// By the told edge of its second, or while none is told by another line's end.
fn off_by(timekeeper: &IrigTimekeeper, port: u8, second: UtcSecond, end_us: u32) -> i32
    ensures { result ≡ off_by (clock_state_in timekeeper.now) port second end_us }
{
    let ended = announced_of(&timekeeper.ended);
    let told = edge_for(second, ended).or(edge_for(second, announced_of(&timekeeper.ended_before)));
    if told.is_some() || ended.is_some() {
        off_from(told, end_us)
    } else {
        off_from(first_end(timekeeper, port, second), end_us)
    }
}

fn said_by(
    timekeeper: &IrigTimekeeper,
    port: u8,
    number: u8,
    frame: Option<KeptFrame>,
) -> IrigLineSaid
    ensures { result ≡ said_by (clock_state_in timekeeper.now) port number frame }
{
    let Some(kept) = frame else {
        return IrigLineSaid {
            state: number,
            told: told_for_c(&Told::Silence),
            end_us: 0,
            off_us: 0,
        };
    };
    let off_us = match second_claimed(frame) {
        Some(second) => off_by(timekeeper, port, second, kept.end_us),
        None => 0,
    };
    IrigLineSaid {
        state: number,
        told: told_for_c(&kept.told),
        end_us: kept.end_us,
        off_us,
    }
}

/// What is said of the line of a port, as of the last tick.
pub fn said_of(timekeeper: &IrigTimekeeper, port: u8) -> IrigLineSaid
    requires { IsAccepted timekeeper.now }
    ensures { result ≡ said_of (clock_in timekeeper.now) (clock_state_in timekeeper.now) port }
{
    let number = number_of(state_at(timekeeper, &clock_rules_of(timekeeper), port));
    said_by(timekeeper, port, number, seen_at(timekeeper, port))
}
