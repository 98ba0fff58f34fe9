//! Stretches of ticks at which a port told one kind of wrong, and silences of a reader.

ghost use Rattle.std.specs.Prelude.{◌≡◌, ◌+◌, ◌<◌, ◌&&◌, IfSome};
ghost use Rattle.report_log.specs.Offsets.{same_offset};
ghost use Rattle.report_found.specs.Ticks.{offset_at};
ghost use Rattle.report_found.specs.Stretches.{one_if, begun, more, IsBelow, stretch_after, ended_by, same_cause, silence_at, goes_on, silence_after, ended_silence};
ghost use Rattle.report_found.specs.Soundness.{IsSoundTick, IsSoundOpen};

use crate::kind::Kind;
use crate::tick::Tick;
use irig_reader::Cause;
use report_log::same_offset;

/// Ticks of a reader, one after another, at which a port told one kind.
#[derive(Clone, Copy)]
pub(crate) struct Stretch {
    pub(crate) kind: Kind,
    pub(crate) first: Tick,
    pub(crate) last: Tick,
    /// Whether what the port claimed was as far from the truth at each of them.
    pub(crate) steady: bool,
    /// How often the reader announced a second meanwhile.
    pub(crate) announced: u64,
    /// How many of those were untrue.
    pub(crate) untrue: u64,
}

impl Stretch {
    fn begun(kind: Kind, tick: &Tick) -> Stretch
        ensures { result ≡ begun kind tick.now }
    {
        Stretch {
            kind,
            first: *tick,
            last: *tick,
            steady: true,
            announced: u64::from(tick.is_announced()),
            untrue: u64::from(tick.is_untrue()),
        }
    }

    // Whether the port is as far off as at all ticks before.
    fn is_steady_at(&self, port: u8, tick: &Tick) -> bool
        ensures { result ≡ (same_offset (offset_at port self.now.first) (offset_at port tick.now)
            && self.now.steady) }
    {
        same_offset(self.first.offset(port), tick.offset(port)) && self.steady
    }

    fn more(&self, port: u8, tick: &Tick, number: u64) -> Stretch
        ensures exact { IsBelow number self.now → result ≡ more port self.now tick.now }
        ensures first { result.first ≡ self.now.first }
    {
        Stretch {
            kind: self.kind,
            first: self.first,
            last: *tick,
            steady: self.is_steady_at(port, tick),
            announced: counted(self.announced, tick.is_announced(), number),
            untrue: counted(self.untrue, tick.is_untrue(), number),
        }
    }
}

/// One more, if it is counted. No count passes the number of ticks.
pub(crate) fn counted(count: u64, is_counted: bool, ticks: u64) -> u64
    ensures { count < ticks → result ≡ count + one_if is_counted }
{
    count.saturating_add(u64::from(is_counted)).min(ticks)
}

/// The stretch of a port that is open after a tick, which is that of this number, from 1.
pub(crate) fn stretch_after(
    before: Option<Stretch>,
    port: u8,
    tick: &Tick,
    number: u64,
) -> Option<Stretch>
    requires before { IsSoundOpen before }
    requires tick { IsSoundTick tick.now }
    ensures exact { IfSome before (IsBelow number)
        → result ≡ stretch_after port before tick.now }
    ensures sound { IsSoundOpen result }
{
    let kind = tick.kind(port);
    if kind.is(Kind::Agreed) {
        return None;
    }
    match before {
        Some(stretch) if stretch.kind.is(kind) => Some(stretch.more(port, tick, number)),
        _ => Some(Stretch::begun(kind, tick)),
    }
}

/// The stretch that a tick of this kind ends.
pub(crate) fn ended_by(before: Option<Stretch>, kind: Kind) -> Option<Stretch>
    ensures { result ≡ ended_by before kind }
{
    match before {
        Some(stretch) if stretch.kind.is(kind) => None,
        _ => before,
    }
}

/// Ticks of a reader, one after another, at which it announced nothing, for one cause.
#[derive(Clone, Copy)]
pub(crate) struct Silence {
    pub(crate) cause: Cause,
    pub(crate) first: Tick,
    pub(crate) last: Tick,
}

impl Silence {
    fn at(tick: &Tick) -> Silence
        ensures { result ≡ silence_at tick.now }
    {
        Silence {
            cause: tick.entry.report.cause,
            first: *tick,
            last: *tick,
        }
    }

    fn goes_on(&self, tick: &Tick) -> bool
        ensures { result ≡ goes_on self.now tick.now }
    {
        !tick.is_announced() && same_cause(self.cause, tick.entry.report.cause)
    }
}

/// Whether two causes are the same.
pub fn same_cause(cause: Cause, other: Cause) -> bool
    ensures { result ≡ same_cause cause other }
{
    cause == other
}

/// The silence that is open after a tick.
pub(crate) fn silence_after(silence: Option<Silence>, tick: &Tick) -> Option<Silence>
    ensures { result ≡ silence_after silence tick.now }
{
    match silence {
        Some(silence) if silence.goes_on(tick) => Some(Silence {
            last: *tick,
            ..silence
        }),
        _ if tick.is_announced() => None,
        _ => Some(Silence::at(tick)),
    }
}

/// The silence that a tick ends.
pub(crate) fn ended_silence(silence: Option<Silence>, tick: &Tick) -> Option<Silence>
    ensures { result ≡ ended_silence silence tick.now }
{
    match silence {
        Some(silence) if silence.goes_on(tick) => None,
        _ => silence,
    }
}
