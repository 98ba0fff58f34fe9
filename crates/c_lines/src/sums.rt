//! What lines and seconds that were announced add to a check word.

ghost use Rattle.std.specs.Prelude.{◌≡◌, ◌+◌, ◌%◌, ◌^◌, List, ◌++◌, ℕ};
ghost use Rattle.c_numbers.specs.CheckWord.{weighted, AreSumsOf};
ghost use Rattle.c_lines.specs.CheckWord.{announced_numbers, flags_of, line_numbers, lines_numbers};

use crate::announced::IrigAnnounced;
use crate::line::{IrigLine, IrigLines};
use c_numbers::{Sums, with_tally};

/// The numbers of a second that was announced, before others.
#[inline(never)]
pub fn with_announced(sums: Sums, announced: &IrigAnnounced) -> Sums
    ensures { (ns : List ℕ) → AreSumsOf sums ns
        → AreSumsOf result (announced_numbers announced.now ++ ns) }
{
    sums.with_first(u64::from(announced.is_told))
        .with_first(u64::from(announced.bound_us))
        .with_first(u64::from(announced.edge_us))
        .with_first(u64::from(announced.sod))
        .with_first(u64::from(announced.day))
}

// Four bytes of a line as one number.
fn flags_of(line: &IrigLine) -> u32
    ensures { result ≡ flags_of line.now }
{
    u32::from(line.is_uneven)
        + 256 * u32::from(line.has_frame)
        + 65_536 * u32::from(line.is_seen)
        + 16_777_216 * u32::from(line.is_heard)
}

#[inline(never)]
fn with_line(sums: Sums, line: &IrigLine) -> Sums
    ensures { (ns : List ℕ) → AreSumsOf sums ns
        → AreSumsOf result (line_numbers line.now ++ ns) }
{
    let behind = sums
        .with_first(u64::from(flags_of(line)))
        .with_first(u64::from(line.end_us))
        .with_first(u64::from(line.begin_us));
    with_tally(with_tally(behind, &line.frame), &line.port)
        .with_first(u64::from(line.sync.was_marker))
        .with_first(u64::from(line.sync.place))
        .with_first(u64::from(line.sync.rise_us))
}

/// By how much a line adds more, if its first number has this weight and it stands at `after` and no
/// longer at `before`.
#[inline]
pub fn line_change(weight: u64, before: &IrigLine, after: &IrigLine) -> u64
    ensures { (weighted weight (line_numbers before.now) + result) % 2 ^ 64
        ≡ weighted weight (line_numbers after.now) % 2 ^ 64 }
{
    let sums = with_line(Sums::none(), before);
    sums.change(weight, with_line(Sums::none(), after))
}

/// The numbers of five lines.
pub fn lines_sums(lines: &IrigLines) -> Sums
    ensures { AreSumsOf result (lines_numbers lines.now) }
{
    let last = with_line(with_line(Sums::none(), &lines.e), &lines.d);
    with_line(with_line(with_line(last, &lines.c), &lines.b), &lines.a)
}
