//! Times by a clock of 32 bits.

ghost use Rattle.std.specs.Prelude.{◌≡◌, ◌<◌, ◌≤◌};
ghost use Rattle.irig_lines.specs.Counting.{edges_to, edges_to_vote, edges_own, counted_in, counted_by, is_late, is_gone, has_come};
ghost use Rattle.irig_lines.specs.Paces.{IsFit, IsSound};

use crate::pace::Pace;

const SECOND_US: u32 = 1_000_000;

/// How long behind its edge a second is counted by the own counter.
const PATIENCE_US: u32 = 6_000;

/// How long behind its end a frame may be taken.
const LATE_US: u32 = 100_000;

/// How long behind an edge on which lines agree a tick may have it: it lies at most 3 ms before the end
/// of a frame that is not late.
const PAST_US: u32 = 103_000;

/// How long behind its edge a frame still says what its line is.
const GONE_US: u32 = 1_500_000;

/// How long before its edge a frame may be told: by a pulse that rises 10 ms before it, and is told
/// 4 ms before it rose.
const AHEAD_US: u32 = 14_000;

/// What lies this far behind is taken to lie ahead.
const FAR_US: u32 = 1 << 31;

/// The seconds from an edge to one that lines agree on, to the nearest.
fn edges_to(edge_us: u32, end_us: u32) -> u32
    ensures value { result ≡ edges_to edge_us end_us }
    ensures few { result ≤ 4294 }
{
    end_us.wrapping_add(SECOND_US / 2).wrapping_sub(edge_us) / SECOND_US
}

/// The same behind the last edge, if there was one.
pub fn edges_to_vote(edge_us: Option<u32>, end_us: u32) -> u32
    ensures value { result ≡ edges_to_vote edge_us end_us }
    ensures few { result ≤ 4294 }
{
    match edge_us {
        None => 1,
        Some(edge) => edges_to(edge, end_us),
    }
}

/// The edges that have come by the own counter.
pub fn edges_own(pace: Option<Pace>, edge_us: Option<u32>, now_us: u32) -> u32
    requires sound { IsSound pace }
    ensures value { result ≡ edges_own pace edge_us now_us }
    ensures few { result ≤ 4294 }
{
    let Some(edge) = edge_us else {
        return 0;
    };
    let gap = now_us.wrapping_sub(edge);
    if gap < FAR_US {
        counted_in(pace, gap)
    } else {
        0
    }
}

// So many in so many microseconds.
fn counted_in(pace: Option<Pace>, gap_us: u32) -> u32
    requires sound { IsSound pace }
    requires near { gap_us < 2147483648 }
    ensures value { result ≡ counted_in pace gap_us }
    ensures few { result ≤ 4294 }
{
    match pace {
        None => gap_us.saturating_sub(PATIENCE_US) / SECOND_US,
        Some(pace) => counted_by(pace, gap_us),
    }
}

fn counted_by(pace: Pace, gap_us: u32) -> u32
    requires sound { IsFit pace }
    requires near { gap_us < 2147483648 }
    ensures value { result ≡ counted_by pace gap_us }
    ensures few { result ≤ 4294 }
{
    if gap_us < SECOND_US + PATIENCE_US {
        return 0;
    }
    let past_ns = 1_000 * u64::from(gap_us - (SECOND_US + PATIENCE_US)) + 999;
    1 + (past_ns / u64::from(pace.second_ns)) as u32
}

/// Whether an end lies more than 100 ms behind now, or more than 14 ms ahead.
pub fn is_late(end_us: u32, now_us: u32) -> bool
    ensures { result ≡ is_late end_us now_us }
{
    now_us.wrapping_sub(end_us).wrapping_add(AHEAD_US) > LATE_US + AHEAD_US
}

/// Whether an end lies more than 1.5 s behind now, or more than 14 ms ahead.
pub fn is_gone(end_us: u32, now_us: u32) -> bool
    ensures { result ≡ is_gone end_us now_us }
{
    now_us.wrapping_sub(end_us).wrapping_add(AHEAD_US) > GONE_US + AHEAD_US
}

/// Whether an edge does not lie ahead of now, nor more than 103 ms behind.
pub fn has_come(edge_us: u32, now_us: u32) -> bool
    ensures { result ≡ has_come edge_us now_us }
{
    now_us.wrapping_sub(edge_us) <= PAST_US
}
