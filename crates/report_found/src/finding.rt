//! What blame finds, as records: the text is written of these alone.

ghost use Rattle.std.specs.Prelude.{◌≡◌};
ghost use Rattle.report_found.specs.Findings.{is_carrier_in, port_offsets, of_port, of_silence, of_misled, own_offsets, basis_of, basis_if};

use crate::kind::Kind;
use crate::misled::Misled;
use crate::stretch::{Silence, Stretch};
use crate::tick::Tick;
use irig_port::Told;
use irig_reader::Cause;
use irig_time::{Claim, UtcSecond};
use report_log::Offset;

/// Ticks of a reader, one after another, of which blame has a line.
#[derive(Clone, Copy)]
pub struct Finding {
    /// The reader, from 0.
    pub reader: u8,
    /// The edge of the first tick.
    pub first: u64,
    /// The edge of the last one.
    pub last: u64,
    /// The true second at the first tick, if it is known: of a port's that of the frame that ended,
    /// of the reader's that which began.
    pub first_second: Option<UtcSecond>,
    /// That at the last one.
    pub last_second: Option<UtcSecond>,
    /// What was wrong.
    pub wrong: Wrong,
}

/// What was wrong at some ticks.
#[derive(Clone, Copy)]
pub enum Wrong {
    /// A port did not tell the true claim.
    Port(PortWrong),
    /// The reader announced nothing, for this cause.
    Silence(Cause),
    /// The reader announced untrue seconds.
    Untrue(Untrue),
}

/// What a port told in place of the true claim.
#[derive(Clone, Copy)]
pub struct PortWrong {
    /// The port, from 0.
    pub port: u8,
    /// The kind of it, the same at each tick.
    pub kind: Kind,
    /// What it told at the first tick.
    pub told: Told,
    /// What it would have told there of a true frame, if the timeline has a second for it.
    pub truth: Option<Claim>,
    /// How far the second that it told was from that of the true frame.
    pub offsets: Offsets,
    /// How many seconds the reader announced meanwhile.
    pub announced: u64,
    /// How many of those were untrue.
    pub untrue: u64,
}

/// How far seconds were from the true ones; none where one of the two is not known.
#[derive(Clone, Copy)]
pub struct Offsets {
    /// At the first tick.
    pub first: Option<Offset>,
    /// At the last one.
    pub last: Option<Offset>,
    /// Whether it was as far at each.
    pub steady: bool,
}

/// Untrue seconds of a reader.
#[derive(Clone, Copy)]
pub struct Untrue {
    /// How far they were from the true ones.
    pub offsets: Offsets,
    /// The vote that they rest on, if there was one.
    pub basis: Option<Basis>,
}

/// The last vote that a reader announced up to its first untrue second.
#[derive(Clone, Copy)]
pub struct Basis {
    /// Its edge.
    pub edge: u64,
    /// Whether it was for the true claim: then what follows is held by the reader's table.
    pub is_true: bool,
    /// Whether port 0 told what was voted.
    pub a: bool,
    /// Whether port 1 did.
    pub b: bool,
    /// Whether port 2 did.
    pub c: bool,
    /// Whether port 3 did; not, if there are three.
    pub d: bool,
    /// Whether port 4 did; not, if there are three.
    pub e: bool,
}

impl Finding {
    pub(crate) fn of_port(reader: u8, port: u8, stretch: &Stretch) -> Finding
        ensures { result ≡ of_port reader port stretch.now }
    {
        let Stretch { first, last, .. } = stretch;
        Finding {
            reader,
            first: first.entry.edge,
            last: last.entry.edge,
            first_second: first.frame(),
            last_second: last.frame(),
            wrong: Wrong::Port(PortWrong {
                port,
                kind: stretch.kind,
                told: first.told_by(port),
                truth: first.entry.truth,
                offsets: Offsets::of_port(port, stretch),
                announced: stretch.announced,
                untrue: stretch.untrue,
            }),
        }
    }

    pub(crate) fn of_silence(reader: u8, silence: &Silence) -> Finding
        ensures { result ≡ of_silence reader silence.now }
    {
        let Silence { cause, first, last } = silence;
        Finding {
            reader,
            first: first.entry.edge,
            last: last.entry.edge,
            first_second: first.second(),
            last_second: last.second(),
            wrong: Wrong::Silence(*cause),
        }
    }

    pub(crate) fn of_misled(reader: u8, misled: &Misled) -> Finding
        ensures { result ≡ of_misled reader misled.now }
    {
        let Misled { first, last, .. } = misled;
        Finding {
            reader,
            first: first.entry.edge,
            last: last.entry.edge,
            first_second: first.second(),
            last_second: last.second(),
            wrong: Wrong::Untrue(Untrue {
                offsets: Offsets::of_misled(misled),
                basis: basis_of(misled.vote),
            }),
        }
    }
}

impl Offsets {
    fn of_port(port: u8, stretch: &Stretch) -> Offsets
        ensures { result ≡ port_offsets port stretch.now }
    {
        Offsets {
            first: stretch.first.offset(port),
            last: stretch.last.offset(port),
            steady: stretch.steady,
        }
    }

    fn of_misled(misled: &Misled) -> Offsets
        ensures { result ≡ own_offsets misled.now }
    {
        Offsets {
            first: misled.first.offset_announced(),
            last: misled.last.offset_announced(),
            steady: misled.steady,
        }
    }
}

fn basis_of(vote: Option<Tick>) -> Option<Basis>
    ensures { result ≡ basis_if vote }
{
    match vote {
        Some(vote) => Some(Basis::of(&vote)),
        None => None,
    }
}

impl Basis {
    fn of(vote: &Tick) -> Basis
        ensures { result ≡ basis_of vote.now }
    {
        Basis {
            edge: vote.entry.edge,
            is_true: vote.votes_truly(),
            a: vote.is_carrier(0),
            b: vote.is_carrier(1),
            c: vote.is_carrier(2),
            d: vote.is_carrier(3),
            e: vote.is_carrier(4),
        }
    }

    /// Whether a port, 0 to 4, told what was voted.
    pub fn is_carrier(&self, port: u8) -> bool
        ensures { result ≡ is_carrier_in self.now port }
    {
        match port {
            0 => self.a,
            1 => self.b,
            2 => self.c,
            3 => self.d,
            _ => self.e,
        }
    }
}
