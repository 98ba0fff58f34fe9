//! The audit: whether the premises hold under which readers announce the truth.

ghost use Rattle.std.specs.Prelude.{◌≡◌, ◌≤◌, ◌+◌, ◌-◌, ◌∷◌, [], None, Some, length, nat_lt};
ghost use Rattle.std.specs.List.{list_all, range_with_len};
ghost use Rattle.irig_time.specs.declared.mark.Mark.{Mark};
ghost use Rattle.irig_time.specs.declared.second.TheConstants.{LAST_DAY};
ghost use Rattle.irig_time.specs.Timelines.{mark_by};
ghost use Rattle.irig_time.specs.TimelineFaults.{IsTimeline};
ghost use Rattle.irig_vote.specs.Vote.{f_of, ports_of};
ghost use Rattle.irig_plant.specs.Audits as audits;

use crate::setup::ReaderSetup;
use irig_port::Told;
use irig_time::{Claim, LAST_DAY, Leap, LeapTable, Mark, Timeline};
use irig_vote::{Redundancy, Tells};

/// Whether the premises of a run hold under which each reader that announces announces the true
/// second.
#[derive(Clone, Copy, PartialEq, Eq)]
pub enum Audit {
    /// They held at each tick so far, and each reader's table is true.
    Kept,
    /// This is the first tick, in the order of events, at which f + 1 or more ports told an untrue
    /// claim.
    Broken { reader: u8, edge: u64 },
    /// This is the least reader whose leap table isn't true. It goes before any broken tick.
    FalseTable { reader: u8 },
}

pub(crate) fn first_audit(timeline: &Timeline, readers: &[ReaderSetup]) -> Audit
    requires { (1 ≤ length readers.now) × (length readers.now ≤ 16) }
    ensures value { result ≡ audits.verdict (audits.first_false timeline.now 0 readers.now) None }
    ensures sound { IsTimeline timeline.now }
{
    for (reader, setup) in readers.iter().enumerate() {
        if !is_true_table(timeline, &setup.table) {
            return Audit::FalseTable {
                reader: reader as u8,
            };
        }
    }
    Audit::Kept
}

/// Whether a leap table is true to a timeline: at the end of each day from the timeline's first one
/// on it says nothing, or what the timeline has there.
#[tactic(auto, unfolding(crate::specs::Audits::is_true_table))]
pub fn is_true_table(timeline: &Timeline, table: &LeapTable) -> bool
    ensures value { result ≡ audits.is_true_table timeline.now table.now }
    ensures sound { IsTimeline timeline.now }
{
    match timeline.at(0) {
        Some(start) => agrees_from(timeline, table, start.day),
        None => false,
    }
}

fn agrees_from(timeline: &Timeline, table: &LeapTable, first: u32) -> bool
    ensures { result ≡ list_all (audits.agrees_on timeline.now table.now)
        (range_with_len first (LAST_DAY + 1 - first)) }
{
    // past its end a table says nothing
    agrees_between(timeline, table, first, table.until().min(LAST_DAY) + 1)
}

fn agrees_between(timeline: &Timeline, table: &LeapTable, first: u32, end: u32) -> bool
    requires { end ≤ LAST_DAY + 1 }
    ensures { result ≡ list_all (audits.agrees_on timeline.now table.now)
        (range_with_len first (end - first)) }
{
    (first..end).all(|day| agrees(table.mark(day), timeline.leap(day)))
}

fn agrees(said: Mark, leap: Option<Leap>) -> bool
    ensures { result ≡ audits.agrees said (mark_by leap) }
{
    match said {
        Mark::Unspoken => true,
        Mark::NoLeap => leap.is_none(),
        Mark::Insert => matches!(leap, Some(Leap::Insert)),
        Mark::Delete => matches!(leap, Some(Leap::Delete)),
    }
}

/// A tick of a reader.
#[derive(Clone, Copy)]
pub(crate) struct TickOfReader {
    /// The reader's number, from 0.
    pub reader: u8,
    /// The number of the edge, from 1.
    pub edge: u64,
}

// Within a tick it would take registers from the rest of it, which then takes a tenth longer.
#[inline(never)]
pub(crate) fn audit_after(
    audit: Audit,
    tick: TickOfReader,
    truth: Claim,
    told: &Tells,
    redundancy: Redundancy,
) -> Audit
    ensures { result ≡ audits.audit_after audit (audits.tick_of_reader tick.reader tick.edge)
        (nat_lt (f_of redundancy)
        (audits.untrue_ports (Some truth) (ports_of told.now redundancy))) }
{
    let is_broken = untrue_ports(truth, told, redundancy) > redundancy.f();
    match audit {
        Audit::Kept if is_broken => Audit::Broken {
            reader: tick.reader,
            edge: tick.edge,
        },
        _ => audit,
    }
}

fn untrue_ports(truth: Claim, told: &Tells, redundancy: Redundancy) -> u8
    ensures { result ≡ audits.untrue_ports (Some truth) (ports_of told.now redundancy) }
{
    match redundancy {
        Redundancy::One => untrue(truth, &told.a),
        Redundancy::Three => untrue_in_three(truth, told),
        Redundancy::Five => {
            untrue_in_three(truth, told) + untrue(truth, &told.d) + untrue(truth, &told.e)
        }
    }
}

fn untrue_in_three(truth: Claim, told: &Tells) -> u8
    ensures value { result ≡ audits.untrue_ports (Some truth) (ports_of told.now Redundancy.Three) }
    ensures few { result ≤ 3 }
{
    untrue(truth, &told.a) + untrue(truth, &told.b) + untrue(truth, &told.c)
}

// One if the port tells an untrue claim, else none.
fn untrue(truth: Claim, told: &Told) -> u8
    ensures value { result ≡ audits.untrue_ports (Some truth) (told.now ∷ []) }
    ensures few { result ≤ 1 }
{
    u8::from(is_untrue(truth, told))
}

fn is_untrue(truth: Claim, told: &Told) -> bool
    ensures { result ≡ audits.is_untrue (Some truth) told.now }
{
    match told {
        Told::Claim(claim) => *claim != truth,
        _ => false,
    }
}
