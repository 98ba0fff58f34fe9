//! What is to be seen of a reader at a tick.

ghost use Rattle.std.specs.Prelude.{◌≡◌, IfSome};
ghost use Rattle.irig_time.specs.Seconds.{IsValid};
ghost use Rattle.report_lanes.specs.Lanes.{at_edge, stood_at, told_at, mark_between, mark_of, mark_at};

use crate::lane::{Lane, Mark, Shows};
use irig_time::{UtcSecond, month_end};
use report_found::Tick;

const LEAP_SECOND: u32 = 86_400;

const LAST_IF_DELETED: u32 = 86_398;

fn at_edge(tick: &Tick, shows: Shows) -> Lane
    ensures { result ≡ at_edge tick.now shows }
{
    Lane {
        reader: tick.entry.reader,
        first: tick.entry.edge,
        last: tick.entry.edge,
        shows,
    }
}

/// How the reader stood.
pub(crate) fn stood_at(tick: &Tick) -> Lane
    ensures { result ≡ stood_at tick.now }
{
    let report = &tick.entry.report;
    at_edge(tick, Shows::Stood(report.lock, report.cause))
}

/// What a port told, 0 to 4.
pub(crate) fn told_at(port: u8, tick: &Tick) -> Lane
    ensures { result ≡ told_at port tick.now }
{
    at_edge(tick, Shows::Told(port, tick.kind(port)))
}

/// What came at its edge, if something did.
pub(crate) fn mark_at(tick: &Tick) -> Option<Lane>
    ensures { result ≡ mark_at tick.now }
{
    let mark = mark_of(tick.frame(), tick.second())?;
    Some(at_edge(tick, Shows::Mark(mark)))
}

fn mark_of(ended: Option<UtcSecond>, begun: Option<UtcSecond>) -> Option<Mark>
    requires { IfSome ended IsValid }
    ensures { result ≡ mark_of ended begun }
{
    mark_between(ended?, begun?)
}

// What comes between a second that ends and the next one.
fn mark_between(ended: UtcSecond, begun: UtcSecond) -> Option<Mark>
    requires { IsValid ended }
    ensures { result ≡ mark_between ended begun }
{
    if begun.sod == LEAP_SECOND {
        Some(Mark::LeapSecond)
    } else if begun.sod > 0 || !month_end(ended.day) {
        None
    } else if ended.sod == LAST_IF_DELETED {
        Some(Mark::DeletedSecond)
    } else {
        Some(Mark::MonthEnd)
    }
}
