//! The lines of a timekeeper, in numbers.

ghost use Rattle.std.specs.Prelude.{◌≡◌, ◌↔◌, ◌≤◌, ℕ, IsTrue, List, [], Option, Some};
ghost use Rattle.irig_time.specs.declared.rules.Rules.{Rules};
ghost use Rattle.irig_port.specs.declared.limits.Limits.{Limits};
ghost use Rattle.irig_port.specs.Tallies.{IsTallyOf};
ghost use Rattle.irig_timekeeper.specs.Keeping.{Heard, nothing_heard};
ghost use Rattle.irig_lines.specs.Steps.{IsKeptOfUtc, IsNewLine, AreKeptOfUtc, AreNewLines};
ghost use Rattle.c_lines.specs.Lines.{frame_in, frames_in, line_in, lines_in, numbers_at, unread_line, unread_lines, with_numbers, HaveHeard, AreKeptFrom, IsEmptyLine, IsLineFrom, KeepNoMore};

use irig_control::unpack;
use irig_lines::{KeptFrame, Line, Lines, quality_told};
use irig_port::{Limits, Tally, Told};
use irig_sync::Sync;
use irig_time::Rules;

/// A line of a timekeeper.
#[repr(C)]
#[derive(Clone, Copy, Drop)]
pub struct IrigLine {
    /// Where it stands in its frame.
    pub sync: Sync,
    /// What it heard of its frame.
    pub port: Tally,
    /// Its last whole frame.
    pub frame: Tally,
    /// When the first pulse of the frame rose that it stands in.
    pub begin_us: u32,
    /// Where its last whole frame ends.
    pub end_us: u32,
    /// 0 if that is even no more than its pulses may be off; any other, if it is not.
    pub is_uneven: u8,
    /// 0 if a tick has taken it, or it is late, or there is none; any other, if it may vote yet.
    pub has_frame: u8,
    /// 0 if it ended more than 1.5 s ago, or there is none; any other, if it says what the line is.
    pub is_seen: u8,
    /// 0 if no pulse came within a second; any other, if one did.
    pub is_heard: u8,
}

/// Five lines, one behind another: of one `b` to `e` are not heard, of three `d` and `e`.
#[repr(C)]
#[derive(Clone, Copy, Drop)]
pub struct IrigLines {
    pub a: IrigLine,
    pub b: IrigLine,
    pub c: IrigLine,
    pub d: IrigLine,
    pub e: IrigLine,
}

fn line_of_nothing() -> IrigLine
    ensures new { (limits : Option Limits) (rules : Rules)
        → IsNewLine (line_in limits rules result) }
    ensures heard { IsTallyOf result.port [] }
    ensures empty { IsEmptyLine result }
{
    IrigLine {
        sync: Sync::none(),
        port: Tally::none(),
        frame: Tally::none(),
        begin_us: 0,
        end_us: 0,
        is_uneven: 0,
        has_frame: 0,
        is_seen: 0,
        is_heard: 0,
    }
}

/// Lines on which nothing came.
pub fn lines_of_nothing() -> IrigLines
    ensures new { (limits : Option Limits) (rules : Rules)
        → AreNewLines (lines_in limits rules result) }
    ensures heard { HaveHeard result nothing_heard }
    ensures absent { (ports : ℕ) → KeepNoMore ports result }
{
    IrigLines {
        a: line_of_nothing(),
        b: line_of_nothing(),
        c: line_of_nothing(),
        d: line_of_nothing(),
        e: line_of_nothing(),
    }
}

/// The line of a port, of one above 3 the last.
pub fn line_at(lines: &IrigLines, port: u8) -> &IrigLine
    ensures { result.now ≡ numbers_at lines.now port }
{
    match port {
        0 => &lines.a,
        1 => &lines.b,
        2 => &lines.c,
        3 => &lines.d,
        _ => &lines.e,
    }
}

/// Puts a line in the place of what it was.
pub fn put_line(lines: &mut IrigLines, port: u8, line: &IrigLine)
    ensures { lines.new ≡ with_numbers lines.old port line.now }
{
    match port {
        0 => lines.a = *line,
        1 => lines.b = *line,
        2 => lines.c = *line,
        3 => lines.d = *line,
        _ => lines.e = *line,
    }
}

// Its last whole frame, whatever became of it.
fn frame_of(limits: Option<Limits>, rules: &Rules, line: &IrigLine) -> KeptFrame
    ensures value { result ≡ frame_in limits rules.now line.now }
    ensures valid { IsKeptOfUtc (Some result) }
{
    let told = line.frame.tell_within(rules, limits);
    KeptFrame {
        told,
        quality: quality_told(told, unpack(line.frame.control_word()).quality),
        end_us: line.end_us,
        is_even: line.is_uneven == 0,
    }
}

// Where a line stands. Of a frame that has no vote only is read when it ended.
#[inline(never)]
fn unread_line_of(limits: Option<Limits>, rules: &Rules, line: &IrigLine) -> Line
    ensures value { result ≡ unread_line (line_in limits rules.now line.now) }
    ensures valid { IsKeptOfUtc result.frame }
{
    Line {
        sync: line.sync,
        begin_us: line.begin_us,
        frame: if line.has_frame == 0 {
            None
        } else {
            Some(frame_of(limits, rules, line))
        },
        seen: if line.is_seen == 0 {
            None
        } else {
            Some(KeptFrame {
                told: Told::Silence,
                quality: 0,
                end_us: line.end_us,
                is_even: line.is_uneven == 0,
            })
        },
        is_heard: line.is_heard != 0,
    }
}

/// Where lines stand, as far as a vote asks for it: frames that have none are not read.
pub fn unread_lines_of(limits: Option<Limits>, rules: &Rules, lines: &IrigLines) -> Lines
    ensures value { result ≡ unread_lines (lines_in limits rules.now lines.now) }
    ensures valid { AreKeptOfUtc result }
{
    Lines {
        a: unread_line_of(limits, rules, &lines.a),
        b: unread_line_of(limits, rules, &lines.b),
        c: unread_line_of(limits, rules, &lines.c),
        d: unread_line_of(limits, rules, &lines.d),
        e: unread_line_of(limits, rules, &lines.e),
    }
}

/// The last whole frame of a line, if that is not gone.
pub fn seen_of(limits: Option<Limits>, rules: &Rules, line: &IrigLine) -> Option<KeptFrame>
    ensures { result ≡ (line_in limits rules.now line.now).seen }
{
    if line.is_seen == 0 {
        None
    } else {
        Some(frame_of(limits, rules, line))
    }
}

fn is_empty(line: &IrigLine) -> bool
    ensures { IsTrue result ↔ IsEmptyLine line.now }
{
    line.has_frame == 0 && line.is_seen == 0
}

/// Whether what stands for lines beyond so many keeps no frame.
pub fn keep_no_more(ports: u8, lines: &IrigLines) -> bool
    ensures { IsTrue result ↔ KeepNoMore ports lines.now }
{
    (ports > 1 || is_empty(&lines.b))
        && (ports > 2 || is_empty(&lines.c))
        && (ports > 3 || is_empty(&lines.d))
        && (ports > 4 || is_empty(&lines.e))
}

/// The frames that lines keep, and of others what they kept last.
pub fn frames_of(lines: &IrigLines) -> [Tally; 5]
    ensures { result ≡ frames_in lines.now }
{
    [
        lines.a.frame,
        lines.b.frame,
        lines.c.frame,
        lines.d.frame,
        lines.e.frame,
    ]
}

// A line as a tick leaves it, which drops a frame or keeps it, read or not.
fn keep_line(line: &mut IrigLine, kept: &Line)
    ensures line { (limits : Option Limits) (rules : Rules) (read : Line)
        → IsLineFrom (line_in limits rules line.old) read → unread_line read ≡ kept.now
        → line_in limits rules line.new ≡ read }
    ensures frame { line.new.frame ≡ line.old.frame }
    ensures port { line.new.port ≡ line.old.port }
    ensures empty { IsEmptyLine line.old → IsEmptyLine line.new }
{
    line.sync = kept.sync;
    line.is_heard = u8::from(kept.is_heard);
    if kept.frame.is_none() {
        line.has_frame = 0;
    }
    if kept.seen.is_none() {
        line.is_seen = 0;
    }
}

/// Lines as a tick leaves them.
pub fn keep_lines(lines: &mut IrigLines, kept: &Lines)
    ensures lines { (limits : Option Limits) (rules : Rules) (read : Lines)
        → AreKeptFrom (lines_in limits rules lines.old) read → unread_lines read ≡ kept.now
        → lines_in limits rules lines.new ≡ read }
    ensures frames { frames_in lines.new ≡ frames_in lines.old }
    ensures heard { (heard : Heard) → HaveHeard lines.old heard → HaveHeard lines.new heard }
    ensures absent { (ports : ℕ) → KeepNoMore ports lines.old → KeepNoMore ports lines.new }
{
    keep_line(&mut lines.a, &kept.a);
    keep_line(&mut lines.b, &kept.b);
    keep_line(&mut lines.c, &kept.c);
    keep_line(&mut lines.d, &kept.d);
    keep_line(&mut lines.e, &kept.e);
}
