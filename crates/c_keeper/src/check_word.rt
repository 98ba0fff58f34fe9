//! The check word of a timekeeper: what its numbers add up to, each times an odd weight of its own.

ghost use Rattle.std.specs.Prelude.{◌≡◌, ◌↔◌, ◌+◌, ◌*◌, ◌%◌, ◌^◌, ◌<◌, List, ◌∷◌, ◌++◌, ℕ};
ghost use Rattle.c_numbers.specs.CheckWord.{setup_numbers, table_numbers, weighted, AreSumsOf};
ghost use Rattle.c_lines.specs.CheckWord.{announced_numbers, flags_of, line_numbers, lines_numbers};
ghost use Rattle.c_keeper.specs.CheckWord.{anchor_numbers, changing_numbers, clock_numbers, delay_number, pace_numbers, wires_numbers, check_of, IsSealed};
ghost use Rattle.c_lines.specs.Lines.{with_numbers};

use crate::anchors::IrigAnchors;
use crate::pace::IrigPace;
use crate::timekeeper::{IrigTimekeeper, IrigWires};
use c_lines::{IrigLine, line_at, line_change, lines_sums, put_line, with_announced};
use c_numbers::{Sums, with_state};

// Twice a delay's size, and one more if it is below 0.
fn delay_number(delay_us: i16) -> u64
    ensures { result ≡ delay_number delay_us }
{
    2 * u64::from(delay_us.unsigned_abs()) + u64::from(delay_us < 0)
}

fn with_wires(sums: Sums, wires: &IrigWires) -> Sums
    ensures { (ns : List ℕ) → AreSumsOf sums ns
        → AreSumsOf result (wires_numbers wires.now ++ ns) }
{
    sums.with_first(u64::from(wires.wander_ppb))
        .with_first(u64::from(wires.prefers_frames))
        .with_first(delay_number(wires.delays.e))
        .with_first(delay_number(wires.delays.d))
        .with_first(delay_number(wires.delays.c))
        .with_first(delay_number(wires.delays.b))
        .with_first(delay_number(wires.delays.a))
        .with_first(u64::from(wires.drift_us))
        .with_first(u64::from(wires.within_us))
}

fn with_anchors(sums: Sums, anchors: &IrigAnchors) -> Sums
    ensures { (ns : List ℕ) → AreSumsOf sums ns → AreSumsOf result (anchors.now.has_old
        ∷ anchors.now.has_young ∷ anchor_numbers anchors.now.old
        ++ (anchor_numbers anchors.now.young ++ ns)) }
{
    sums.with_first(u64::from(anchors.young.seconds))
        .with_first(u64::from(anchors.young.long_us))
        .with_first(u64::from(anchors.young.begin_us))
        .with_first(u64::from(anchors.old.seconds))
        .with_first(u64::from(anchors.old.long_us))
        .with_first(u64::from(anchors.old.begin_us))
        .with_first(u64::from(anchors.has_young))
        .with_first(u64::from(anchors.has_old))
}

fn with_pace(sums: Sums, pace: &IrigPace) -> Sums
    ensures { (ns : List ℕ) → AreSumsOf sums ns → AreSumsOf result (pace_numbers pace.now ++ ns) }
{
    sums.with_first(u64::from(pace.rest_ns))
        .with_first(u64::from(pace.within_ns))
        .with_first(u64::from(pace.second_ns))
}

fn with_clock(sums: Sums, timekeeper: &IrigTimekeeper) -> Sums
    ensures { (ns : List ℕ) → AreSumsOf sums ns
        → AreSumsOf result (clock_numbers timekeeper.now ++ ns) }
{
    let ended = with_announced(
        with_announced(sums, &timekeeper.ended_before),
        &timekeeper.ended,
    );
    let told = with_announced(with_announced(ended, &timekeeper.before), &timekeeper.last);
    let measured = with_pace(with_anchors(told, &timekeeper.anchors), &timekeeper.pace);
    let counted = measured
        .with_first(u64::from(timekeeper.doubt))
        .with_first(u64::from(timekeeper.strays))
        .with_first(u64::from(timekeeper.long_us))
        .with_first(u64::from(timekeeper.begin_us))
        .with_first(u64::from(timekeeper.bound_us))
        .with_first(u64::from(timekeeper.has_interval))
        .with_first(u64::from(timekeeper.has_edge))
        .with_first(u64::from(timekeeper.moved))
        .with_first(u64::from(timekeeper.edge_us));
    with_wires(counted, &timekeeper.wires)
}

fn changing_sums(timekeeper: &IrigTimekeeper) -> Sums
    ensures { AreSumsOf result (changing_numbers timekeeper.now) }
{
    let clock = with_clock(lines_sums(&timekeeper.lines), timekeeper);
    with_state(clock, &timekeeper.state)
}

/// What state, clock and lines add to the check word, beside setup and table.
pub(crate) fn changing_sum(timekeeper: &IrigTimekeeper) -> u64
    ensures { check_of timekeeper.now ≡ (weighted 3 (setup_numbers timekeeper.now.setup)
        + weighted 19 (table_numbers timekeeper.now.table) + result) % 2 ^ 64 }
{
    changing_sums(timekeeper).weighed(279)
}

/// The check word that belongs to a timekeeper's numbers, if `fixed` is what its setup and its table
/// add to it.
pub fn check_of(fixed: u64, timekeeper: &IrigTimekeeper) -> u64
    requires { fixed ≡ (weighted 3 (setup_numbers timekeeper.now.setup)
        + weighted 19 (table_numbers timekeeper.now.table)) % 2 ^ 64 }
    ensures { result ≡ check_of timekeeper.now }
{
    fixed.wrapping_add(changing_sum(timekeeper))
}

/// Puts a line in the place of what it was, and renews the check word by the difference: a wrong one
/// stays wrong.
pub fn set_line(timekeeper: &mut IrigTimekeeper, port: u8, line: &IrigLine)
    requires { port < 5 }
    ensures line { timekeeper.new ≡ record timekeeper.old {
      lines = with_numbers timekeeper.old.lines port line.now;
      check = timekeeper.new.check;
    } }
    ensures sealed { IsSealed timekeeper.new ↔ IsSealed timekeeper.old }
{
    let weight = 389 + 32 * u64::from(port);
    let change = line_change(weight, line_at(&timekeeper.lines, port), line);
    put_line(&mut timekeeper.lines, port, line);
    timekeeper.check = timekeeper.check.wrapping_add(change);
}
