//! What blame finds, in numbers.

ghost use Rattle.std.specs.Prelude.{◌≡◌, map};
ghost use Rattle.c_scenario.specs.Entries.{second_or_zeros};
ghost use Rattle.c_scenario.specs.Runs.{written_over};
ghost use Rattle.c_scenario.specs.Stretches.{kind_of, offset_of, blank, port_stretch, silence_stretch, untrue_stretch, basis_stretch, stretch_for};

use c_numbers::{IrigTold, NO_CLAIM, cause_number, told_for_c};
use irig_reader::Cause;
use irig_time::UtcSecond;
use report_found::{Basis, Finding, Kind, PortWrong, Untrue, Wrong};
use report_log::Offset;

/// How far a second was from the true one; zeros if one of the two is not known.
#[repr(C)]
#[derive(Clone, Copy, Drop)]
pub struct IrigOffset {
    /// How many seconds it was after the true one, or 0.
    pub ahead: u64,
    /// How many seconds it was before the true one, or 0.
    pub behind: u64,
}

/// Edges of a reader, one after another, of which `irig blame` has a line.
#[repr(C)]
#[derive(Clone, Copy, Drop)]
pub struct IrigStretch {
    /// The first edge.
    pub first_edge: u64,
    /// The last edge.
    pub last_edge: u64,
    /// Of a port's: how many seconds the reader announced meanwhile.
    pub announced: u64,
    /// Of a port's: how many of those were untrue.
    pub untrue: u64,
    /// Of untrue seconds: the edge of the vote that they rest on, or 0.
    pub vote_edge: u64,
    /// How far the second that was told or announced at the first edge was from the true one.
    pub first_offset: IrigOffset,
    /// The same at the last edge.
    pub last_offset: IrigOffset,
    /// The true second at the first edge, or zeros: of a port's that of the frame that ended, of the
    /// reader's own that which began.
    pub first_second: UtcSecond,
    /// The same at the last edge.
    pub last_second: UtcSecond,
    /// Of a port's: what it told at the first edge.
    pub told: IrigTold,
    /// Of a port 1 silent, 2 faulty, 3 poor, 4 another second, 5 another mark; of the reader
    /// 6 announced nothing, 7 announced untrue seconds.
    pub kind: u8,
    /// The reader, by its place in the plant line, 0 to 15.
    pub reader: u8,
    /// Of a port's: the port, 0 to 4.
    pub port: u8,
    /// Of kind 6: why, as of an entry.
    pub cause: u8,
    /// 1 if what was told or announced was as far from the truth at each edge, else 0.
    pub is_steady: u8,
    /// Of untrue seconds: 1 if the vote was true, so that they are held by the reader's table.
    pub vote_is_true: u8,
    /// Of untrue seconds: 1 of each port that told what was voted, else 0.
    pub carriers: [u8; 5],
}

/// Writes stretches over the beginning of `room`, as many as it has room for.
pub(crate) fn write_stretches(room: &mut [IrigStretch], findings: &[Finding])
    ensures { room.new ≡ written_over room.old (map stretch_for findings.now) }
{
    for index in 0..room.len().min(findings.len()) {
        room[index] = stretch_for_c(&findings[index]);
    }
}

fn stretch_for_c(finding: &Finding) -> IrigStretch
    ensures { result ≡ stretch_for finding.now }
{
    match &finding.wrong {
        Wrong::Port(wrong) => port_stretch(finding, wrong),
        Wrong::Silence(cause) => silence_stretch(finding, *cause),
        Wrong::Untrue(untrue) => untrue_stretch(finding, untrue),
    }
}

fn port_stretch(finding: &Finding, wrong: &PortWrong) -> IrigStretch
    ensures { result ≡ port_stretch finding.now wrong.now }
{
    IrigStretch {
        announced: wrong.announced,
        untrue: wrong.untrue,
        first_offset: offset_of(wrong.offsets.first),
        last_offset: offset_of(wrong.offsets.last),
        told: told_for_c(&wrong.told),
        kind: kind_of(wrong.kind),
        port: wrong.port,
        is_steady: u8::from(wrong.offsets.steady),
        ..blank(finding)
    }
}

fn silence_stretch(finding: &Finding, cause: Cause) -> IrigStretch
    ensures { result ≡ silence_stretch finding.now cause }
{
    IrigStretch {
        kind: 6,
        cause: cause_number(cause),
        ..blank(finding)
    }
}

fn untrue_stretch(finding: &Finding, untrue: &Untrue) -> IrigStretch
    ensures { result ≡ untrue_stretch finding.now untrue.now }
{
    let stretch = IrigStretch {
        first_offset: offset_of(untrue.offsets.first),
        last_offset: offset_of(untrue.offsets.last),
        kind: 7,
        is_steady: u8::from(untrue.offsets.steady),
        ..blank(finding)
    };
    match &untrue.basis {
        Some(vote) => basis_stretch(stretch, vote),
        None => stretch,
    }
}

fn basis_stretch(stretch: IrigStretch, vote: &Basis) -> IrigStretch
    ensures { result ≡ basis_stretch stretch vote.now }
{
    IrigStretch {
        vote_edge: vote.edge,
        vote_is_true: u8::from(vote.is_true),
        carriers: [
            u8::from(vote.a),
            u8::from(vote.b),
            u8::from(vote.c),
            u8::from(vote.d),
            u8::from(vote.e),
        ],
        ..stretch
    }
}

// When and of whom, and else zeros.
fn blank(finding: &Finding) -> IrigStretch
    ensures { result ≡ blank finding.now }
{
    IrigStretch {
        first_edge: finding.first,
        last_edge: finding.last,
        announced: 0,
        untrue: 0,
        vote_edge: 0,
        first_offset: NO_OFFSET,
        last_offset: NO_OFFSET,
        first_second: second_of(finding.first_second),
        last_second: second_of(finding.last_second),
        told: NOTHING_TOLD,
        kind: 0,
        reader: finding.reader,
        port: 0,
        cause: 0,
        is_steady: 0,
        vote_is_true: 0,
        carriers: [0, 0, 0, 0, 0],
    }
}

const NO_OFFSET: IrigOffset = IrigOffset {
    ahead: 0,
    behind: 0,
};

const NOTHING_TOLD: IrigTold = IrigTold {
    kind: 0,
    quality: 0,
    fault: 0,
    claim: NO_CLAIM,
};

fn offset_of(offset: Option<Offset>) -> IrigOffset
    ensures { result ≡ offset_of offset }
{
    match offset {
        Some(offset) => IrigOffset {
            ahead: offset.ahead,
            behind: offset.behind,
        },
        None => NO_OFFSET,
    }
}

pub(crate) fn second_of(second: Option<UtcSecond>) -> UtcSecond
    ensures { result ≡ second_or_zeros second }
{
    match second {
        Some(second) => second,
        None => UtcSecond { day: 0, sod: 0 },
    }
}

/// The number of a kind; of agreed ticks there is no stretch.
pub(crate) fn kind_of(kind: Kind) -> u8
    ensures { result ≡ kind_of kind }
{
    match kind {
        Kind::Agreed => 0,
        Kind::Silent => 1,
        Kind::Faulty => 2,
        Kind::Poor => 3,
        Kind::AnotherSecond => 4,
        Kind::AnotherMark => 5,
    }
}
