//! Where a device's lines stand, and the edge on which they agree.

ghost use Rattle.std.specs.Prelude.{◌≡◌, ◌≤◌, ◌<◌, ◌-◌, None, IfSome, count_by};
ghost use Rattle.irig_vote.specs.Vote.{f_of};
ghost use Rattle.irig_sync.specs.Sync.{clock_gap, is_idle};
ghost use Rattle.irig_lines.specs.Exactness.{most_drift_us, most_vote_us};
ghost use Rattle.irig_lines.specs.Widths.{reach_us};
ghost use Rattle.irig_lines.specs.Steps.{is_pulse, line_at, still_kept, line_settled, settled, taken, still_seen, is_even, is_uneven, are_uneven, quality_told, whole_frame, frame_tells, tells_of, claim_kept, all_kept, agrees, is_candidate, earlier, first_candidate, place_behind, ends_by, ends_from, ends_near, begins_near, last_behind, first_before, less_behind, least_behind, less_before, least_before, vote_between, vote_with, agreed, if_come, IsNewLine, AreNewLines, no_line, no_lines, until, wait_by};

use crate::counting::{has_come, is_gone, is_late};
use crate::setup::ClockRules;
use irig_port::Told;
use irig_sync::Sync;
use irig_time::Claim;
use irig_vote::Tells;

/// A frame whose last time comes longer before that of the first one that agrees with enough others
/// has no part in a vote.
const BEFORE_US: u32 = 3_000;

/// What is as wide as this, in microseconds, is no pulse: the line is stuck.
const STUCK_US: u32 = 500_000;

/// A frame that a line has sent whole.
#[derive(Clone, Copy, PartialEq, Eq)]
pub struct KeptFrame {
    /// What it tells.
    pub told: Told,
    /// The time quality that it says, if it claims a second; else 0.
    pub quality: u8,
    /// The local time at which it ends.
    pub end_us: u32,
    /// Whether its last pulse rose 990 ms behind its first one, but for what lines so exact may be
    /// off. One that did not has no vote.
    pub is_even: bool,
}

/// A frame that a line has sent whole, by which the line votes.
#[derive(Clone, Copy, PartialEq, Eq)]
pub struct KeptClaim {
    /// What it claims.
    pub claim: Claim,
    /// The local time at which it ends.
    pub end_us: u32,
    /// How far from there its edge lies at most in microseconds, if the line is true, but for the
    /// drift of an element.
    pub half_us: u32,
}

impl KeptClaim {
    ghost use Rattle.irig_lines.specs.Steps.{first_us, last_us};

    // The first time at which its edge lies, if the line is true.
    fn first_us(&self) -> u32
        ensures { result ≡ first_us self.now }
    {
        self.end_us.wrapping_sub(self.half_us)
    }

    // The last one.
    fn last_us(&self) -> u32
        ensures { result ≡ last_us self.now }
    {
        self.end_us.wrapping_add(self.half_us)
    }
}

/// An edge on which lines agree.
#[derive(Clone, Copy, PartialEq, Eq)]
pub struct Vote {
    /// What they claim of the second before it.
    pub claim: Claim,
    /// The local time at which it lies.
    pub edge_us: u32,
    /// How far from the true edge that may be, in microseconds, at most 2,899.
    pub bound_us: u32,
}

/// Where a line stands.
#[derive(Clone, Copy, Drop)]
pub struct Line {
    /// Where it stands in its frame.
    pub sync: Sync,
    /// When the first pulse of the frame rose that it stands in.
    pub begin_us: u32,
    /// Its last whole frame, until a tick takes it, or comes more than 100 ms behind its end.
    pub frame: Option<KeptFrame>,
    /// The same, until a tick comes more than 1.5 s behind its end.
    pub seen: Option<KeptFrame>,
    /// Whether a pulse came on it, until a tick comes a second or more behind its rise.
    pub is_heard: bool,
}

/// The lines of a device: of one `b` to `e` are not heard, of three `d` and `e`.
#[derive(Clone, Copy, Drop)]
pub struct Lines {
    pub a: Line,
    pub b: Line,
    pub c: Line,
    pub d: Line,
    pub e: Line,
}

/// A line on which nothing came.
fn line_of_nothing() -> Line
    ensures value { result ≡ no_line }
    ensures new { IsNewLine result }
{
    Line {
        sync: Sync::none(),
        begin_us: 0,
        frame: None,
        seen: None,
        is_heard: false,
    }
}

/// Lines on which nothing came.
pub fn lines_of_nothing() -> Lines
    ensures value { result ≡ no_lines }
    ensures new { AreNewLines result }
{
    Lines {
        a: line_of_nothing(),
        b: line_of_nothing(),
        c: line_of_nothing(),
        d: line_of_nothing(),
        e: line_of_nothing(),
    }
}

/// The line of a port, 0 to 4.
pub fn line_at(lines: &Lines, port: u8) -> Line
    ensures { result ≡ line_at lines.now port }
{
    match port {
        0 => lines.a,
        1 => lines.b,
        2 => lines.c,
        3 => lines.d,
        _ => lines.e,
    }
}

/// Whether a pulse so many microseconds wide is one: a line that is high for half a second is
/// stuck.
pub fn is_pulse(width_us: u32) -> bool
    ensures { result ≡ is_pulse width_us }
{
    width_us < STUCK_US
}

/// Whether a frame is even whose first and whose last pulse rose then.
pub fn is_even(rules: &ClockRules, begin_us: u32, rise_us: u32) -> bool
    requires { rules.now.drift_us ≤ most_drift_us }
    ensures { result ≡ is_even rules.now begin_us rise_us }
{
    let off_us = 2 * (rules.within.us() - 1) + rules.drift_us;
    let long_us = rise_us.wrapping_sub(begin_us);
    990_000 <= u64::from(long_us) + u64::from(off_us) && long_us <= 990_000 + off_us
}

/// The frame whose first and last pulses rose then, of which its port tells this. If it claims a
/// second, this is its time quality.
pub fn whole_frame(
    rules: &ClockRules,
    begin_us: u32,
    rise_us: u32,
    told: Told,
    quality: u8,
) -> KeptFrame
    requires { rules.now.drift_us ≤ most_drift_us }
    ensures { result ≡ whole_frame rules.now begin_us rise_us told quality }
{
    KeptFrame {
        told,
        quality: quality_told(told, quality),
        end_us: rise_us.wrapping_add(10_000),
        is_even: is_even(rules, begin_us, rise_us),
    }
}

/// The time quality of what a frame tells that says this one: 0 of what claims no second.
pub fn quality_told(told: Told, quality: u8) -> u8
    ensures { result ≡ quality_told told quality }
{
    match told {
        Told::Claim(_) => quality,
        Told::Silence => 0,
        Told::Fault(_) => 0,
        Told::Poor(_) => 0,
    }
}

fn settle_line(line: &mut Line, now_us: u32)
    ensures { line.new ≡ line_settled now_us line.old }
{
    line.is_heard = line.is_heard && !is_idle(&line.sync, now_us);
    line.sync.idle(now_us);
    line.frame = still_kept(now_us, line.frame);
    line.seen = still_seen(now_us, line.seen);
}

/// Whether the last pulse of a line rose a second or more before now.
pub fn is_idle(sync: &Sync, now_us: u32) -> bool
    ensures { result ≡ is_idle (clock_gap sync.now.rise_us now_us) }
{
    let gap_us = now_us.wrapping_sub(sync.rise_us);
    1_000_000 <= gap_us && gap_us < 1 << 31
}

fn still_seen(now_us: u32, frame: Option<KeptFrame>) -> Option<KeptFrame>
    ensures { result ≡ still_seen now_us frame }
{
    match frame {
        Some(kept) if !is_gone(kept.end_us, now_us) => frame,
        _ => None,
    }
}

fn still_kept(now_us: u32, frame: Option<KeptFrame>) -> Option<KeptFrame>
    ensures { result ≡ still_kept now_us frame }
{
    match frame {
        Some(kept) if !is_late(kept.end_us, now_us) => frame,
        _ => None,
    }
}

/// What a tick does first: a line may be idle, and a late frame is dropped.
pub fn settle(lines: &mut Lines, now_us: u32)
    ensures { lines.new ≡ settled now_us lines.old }
{
    settle_line(&mut lines.a, now_us);
    settle_line(&mut lines.b, now_us);
    settle_line(&mut lines.c, now_us);
    settle_line(&mut lines.d, now_us);
    settle_line(&mut lines.e, now_us);
}

/// What a tick does that takes the frames.
pub fn take(lines: &mut Lines)
    ensures { lines.new ≡ taken lines.old }
{
    lines.a.frame = None;
    lines.b.frame = None;
    lines.c.frame = None;
    lines.d.frame = None;
    lines.e.frame = None;
}

fn frame_tells(frame: Option<KeptFrame>) -> Told
    ensures { result ≡ frame_tells frame }
{
    match frame {
        Some(kept) => kept.told,
        None => Told::Silence,
    }
}

/// What the frames tell that lines keep; of a line without one, silence.
pub fn tells_of(lines: &Lines) -> Tells
    ensures { result ≡ tells_of lines.now }
{
    Tells {
        a: frame_tells(lines.a.frame),
        b: frame_tells(lines.b.frame),
        c: frame_tells(lines.c.frame),
        d: frame_tells(lines.d.frame),
        e: frame_tells(lines.e.frame),
    }
}

fn is_uneven(frame: &Option<KeptFrame>) -> bool
    ensures { result ≡ is_uneven frame.now }
{
    match frame {
        Some(kept) => !kept.is_even,
        None => false,
    }
}

/// Whether more than f lines keep a frame that is uneven.
pub fn are_uneven(rules: &ClockRules, lines: &Lines) -> bool
    ensures { result ≡ are_uneven rules.now lines.now }
{
    let uneven = count_uneven(&[
        lines.a.frame,
        lines.b.frame,
        lines.c.frame,
        lines.d.frame,
        lines.e.frame,
    ]);
    usize::from(rules.redundancy.f()) < uneven
}

fn count_uneven(frames: &[Option<KeptFrame>]) -> usize
    ensures { result ≡ count_by is_uneven frames.now }
{
    frames.iter().filter(|frame| is_uneven(frame)).count()
}

fn claim_kept(rules: &ClockRules, frame: Option<KeptFrame>) -> Option<KeptClaim>
    ensures { result ≡ claim_kept rules.now frame }
{
    let Some(kept) = frame else {
        return None;
    };
    if !kept.is_even {
        return None;
    }
    match kept.told {
        Told::Claim(claim) => Some(KeptClaim {
            claim,
            end_us: kept.end_us,
            half_us: rules.half_us(kept.quality),
        }),
        Told::Silence => None,
        Told::Fault(_) => None,
        Told::Poor(_) => None,
    }
}

/// The edge on which f + 1 lines agree: the middle of the interval in which it lies, if at most f
/// are untrue.
pub fn agreed(rules: &ClockRules, lines: &Lines) -> Option<Vote>
    requires { rules.now.drift_us ≤ most_drift_us }
    ensures value { result ≡ agreed rules.now lines.now }
    ensures small { IfSome result (λ vote. vote.bound_us ≤ most_vote_us) }
{
    vote_of(
        rules,
        &[
            claim_kept(rules, lines.a.frame),
            claim_kept(rules, lines.b.frame),
            claim_kept(rules, lines.c.frame),
            claim_kept(rules, lines.d.frame),
            claim_kept(rules, lines.e.frame),
        ],
    )
}

// The edge on which f + 1 of these frames agree.
fn vote_of(rules: &ClockRules, all: &[Option<KeptClaim>]) -> Option<Vote>
    requires { rules.now.drift_us ≤ most_drift_us }
    ensures value { result ≡ vote_with (reach_us rules.now) rules.now.drift_us
        (f_of rules.now.redundancy) all.now (first_candidate (reach_us rules.now)
        (f_of rules.now.redundancy) all.now all.now None) }
    ensures small { IfSome result (λ vote. vote.bound_us ≤ most_vote_us) }
{
    let reach_us = rules.reach_us();
    let f = rules.redundancy.f();
    let first = first_candidate(reach_us, f, all)?;
    Some(vote_between(rules, first, narrowed_by_all(reach_us, f, &first, all)))
}

// An interval about the last time of a frame.
#[derive(Clone, Copy)]
struct About {
    before_us: u32,
    behind_us: u32,
}

// The edge in the middle of the interval about the last time of a frame.
fn vote_between(rules: &ClockRules, first: KeptClaim, about: About) -> Vote
    requires steady { rules.now.drift_us ≤ most_drift_us }
    requires before { about.before_us ≤ reach_us rules.now }
    requires behind { about.behind_us ≤ reach_us rules.now }
    ensures value { result ≡ vote_between rules.now.drift_us first about.before_us
        about.behind_us }
    ensures small { result.bound_us ≤ most_vote_us }
{
    let long_us = about.before_us + about.behind_us;
    Vote {
        claim: first.claim,
        edge_us: first
            .last_us()
            .wrapping_sub(about.before_us)
            .wrapping_add(long_us / 2),
        bound_us: rules.drift_us.div_ceil(100) + long_us.div_ceil(2),
    }
}

// The frame with which f + 1 lines agree; of several the one whose last time comes first.
fn first_candidate(reach_us: u32, f: u8, all: &[Option<KeptClaim>]) -> Option<KeptClaim>
    ensures { result ≡ first_candidate reach_us f all.now all.now None }
{
    let mut so_far = None;
    for x in all {
        let Some(frame) = x else {
            continue;
        };
        if is_candidate(f, frame, all) {
            so_far = earlier(reach_us, so_far, *frame);
        }
    }
    so_far
}

fn is_candidate(f: u8, x: &KeptClaim, all: &[Option<KeptClaim>]) -> bool
    ensures { result ≡ is_candidate f x.now all.now }
{
    usize::from(f) < agreeing(x, all)
}

fn agreeing(x: &KeptClaim, all: &[Option<KeptClaim>]) -> usize
    ensures { result ≡ count_by (agrees x.now) all.now }
{
    all.iter().filter(|y| agrees(x, y)).count()
}

fn agrees(x: &KeptClaim, y: &Option<KeptClaim>) -> bool
    ensures { result ≡ agrees x.now y.now }
{
    match y {
        Some(y) => {
            let before_us = x.last_us().wrapping_sub(y.first_us());
            x.claim == y.claim && u64::from(before_us) <= 2 * u64::from(y.half_us)
        }
        None => false,
    }
}

fn earlier(reach_us: u32, so_far: Option<KeptClaim>, x: KeptClaim) -> Option<KeptClaim>
    ensures { result ≡ earlier reach_us so_far x }
{
    match so_far {
        Some(y) => {
            if x.last_us().wrapping_sub(y.last_us()) <= reach_us {
                Some(y)
            } else {
                Some(x)
            }
        }
        None => Some(x),
    }
}

// The interval that f + 1 of all frames leave.
fn narrowed_by_all(reach_us: u32, f: u8, x: &KeptClaim, all: &[Option<KeptClaim>]) -> About
    ensures before { result.before_us
        ≡ least_before reach_us f x.now all.now all.now reach_us }
    ensures behind { result.behind_us
        ≡ least_behind reach_us f x.now all.now all.now reach_us }
    ensures before_most { result.before_us ≤ reach_us }
    ensures behind_most { result.behind_us ≤ reach_us }
{
    let mut so_far = About {
        before_us: reach_us,
        behind_us: reach_us,
    };
    for y in all {
        so_far = About {
            before_us: less_before(reach_us, f, x, all, y, so_far.before_us),
            behind_us: less_behind(reach_us, f, x, all, y, so_far.behind_us),
        };
    }
    so_far
}

fn less_before(
    reach_us: u32,
    f: u8,
    x: &KeptClaim,
    all: &[Option<KeptClaim>],
    y: &Option<KeptClaim>,
    so_far_us: u32,
) -> u32
    requires { so_far_us ≤ reach_us }
    ensures value { result ≡ less_before reach_us f x.now all.now y.now so_far_us }
    ensures most { result ≤ reach_us }
{
    let before_us = first_before(x, y);
    if begins_near(reach_us, x, y) && usize::from(f) < ending_from(x, before_us, all) {
        before_us.min(so_far_us)
    } else {
        so_far_us
    }
}

fn less_behind(
    reach_us: u32,
    f: u8,
    x: &KeptClaim,
    all: &[Option<KeptClaim>],
    y: &Option<KeptClaim>,
    so_far_us: u32,
) -> u32
    requires { so_far_us ≤ reach_us }
    ensures value { result ≡ less_behind reach_us f x.now all.now y.now so_far_us }
    ensures most { result ≤ reach_us }
{
    let behind_us = last_behind(x, y);
    if ends_near(reach_us, x, y) && usize::from(f) < ending_by(x, behind_us, all) {
        behind_us.min(so_far_us)
    } else {
        so_far_us
    }
}

fn ends_near(reach_us: u32, x: &KeptClaim, y: &Option<KeptClaim>) -> bool
    ensures { result ≡ ends_near reach_us x.now y.now }
{
    match y {
        Some(y) => x.claim == y.claim && y.last_us().wrapping_sub(x.last_us()) <= reach_us,
        None => false,
    }
}

fn begins_near(reach_us: u32, x: &KeptClaim, y: &Option<KeptClaim>) -> bool
    ensures { result ≡ begins_near reach_us x.now y.now }
{
    match y {
        Some(y) => x.claim == y.claim && x.last_us().wrapping_sub(y.first_us()) <= reach_us,
        None => false,
    }
}

fn last_behind(x: &KeptClaim, y: &Option<KeptClaim>) -> u32
    ensures { result ≡ last_behind x.now y.now }
{
    match y {
        Some(y) => y.last_us().wrapping_sub(x.last_us()),
        None => 0,
    }
}

fn first_before(x: &KeptClaim, y: &Option<KeptClaim>) -> u32
    ensures { result ≡ first_before x.now y.now }
{
    match y {
        Some(y) => x.last_us().wrapping_sub(y.first_us()),
        None => 0,
    }
}

fn ending_by(x: &KeptClaim, behind_us: u32, all: &[Option<KeptClaim>]) -> usize
    ensures { result ≡ count_by (ends_by x.now behind_us) all.now }
{
    all.iter().filter(|y| ends_by(x, behind_us, y)).count()
}

fn ending_from(x: &KeptClaim, before_us: u32, all: &[Option<KeptClaim>]) -> usize
    ensures { result ≡ count_by (ends_from x.now before_us) all.now }
{
    all.iter().filter(|y| ends_from(x, before_us, y)).count()
}

// How far behind 3 ms before the last time of a frame a time lies.
fn place_behind(x: &KeptClaim, time_us: u32) -> u32
    ensures { result ≡ place_behind x.now time_us }
{
    time_us.wrapping_sub(x.last_us()).wrapping_add(BEFORE_US)
}

fn ends_by(x: &KeptClaim, behind_us: u32, y: &Option<KeptClaim>) -> bool
    ensures { result ≡ ends_by x.now behind_us y.now }
{
    match y {
        Some(y) => {
            let place_us = place_behind(x, y.last_us());
            x.claim == y.claim && place_us.saturating_sub(BEFORE_US) <= behind_us
        }
        None => false,
    }
}

fn ends_from(x: &KeptClaim, before_us: u32, y: &Option<KeptClaim>) -> bool
    ensures { result ≡ ends_from x.now before_us y.now }
{
    match y {
        Some(y) => {
            let place_us = place_behind(x, y.first_us());
            x.claim == y.claim
                && BEFORE_US.saturating_sub(place_us) <= before_us
                && place_us < 1 << 31
        }
        None => false,
    }
}

/// The same, if it has come.
pub fn if_come(now_us: u32, agreed: Option<Vote>) -> Option<Vote>
    ensures value { result ≡ if_come now_us agreed }
    ensures small { IfSome agreed (λ vote. vote.bound_us ≤ most_vote_us)
        → IfSome result (λ vote. vote.bound_us ≤ most_vote_us) }
{
    let Some(vote) = agreed else {
        return None;
    };
    if has_come(vote.edge_us, now_us) {
        Some(vote)
    } else {
        None
    }
}

fn until(now_us: u32, time_us: u32) -> u32
    ensures { result ≡ until now_us time_us }
{
    let gap = time_us.wrapping_sub(now_us);
    if gap < 1 << 31 { gap } else { 0 }
}

/// How long until a tick has something to do.
pub fn wait_by(now_us: u32, edge_us: Option<u32>, vote: Option<Vote>) -> u32
    ensures { result ≡ wait_by now_us edge_us vote }
{
    match (vote, edge_us) {
        (Some(vote), _) => until(now_us, vote.edge_us),
        (None, Some(edge)) => until(now_us, edge.wrapping_add(1_006_000)),
        (None, None) => 1_000_000,
    }
}
