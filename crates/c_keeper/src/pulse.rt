//! A pulse on a line, in numbers.

ghost use Rattle.std.specs.Prelude.{◌≡◌, ◌≤◌, List, Option};
ghost use Rattle.irig_frame.specs.declared.symbol.Symbol.{Symbol};
ghost use Rattle.irig_frame.specs.Symbols.{symbol_of};
ghost use Rattle.irig_sync.specs.Sync.{place_of};
ghost use Rattle.irig_time.specs.declared.rules.Rules.{Rules};
ghost use Rattle.irig_port.specs.declared.limits.Limits.{Limits};
ghost use Rattle.irig_port.specs.Hearing.{heard_at};
ghost use Rattle.irig_port.specs.Heard.{with_symbol};
ghost use Rattle.irig_port.specs.Limits.{quality_in, told_within};
ghost use Rattle.irig_port.specs.Tallies.{IsTallyOf};
ghost use Rattle.irig_lines.specs.Steps.{line_heard};
ghost use Rattle.c_lines.specs.Lines.{line_in};
ghost use Rattle.c_keeper.specs.Timekeepers.{clock_in, AreWires};

use crate::timekeeper::{IrigTimekeeper, steady_rules_of};
use c_lines::IrigLine;
use irig_lines::is_even;
use irig_port::Tally;

/// A pulse on a line: its place. At a frame's last one the line keeps what it heard of it.
pub fn hear(timekeeper: &IrigTimekeeper, line: &mut IrigLine, rise_us: u32, width_us: u32) -> u8
    ensures place { result ≡ place_of line.old.sync rise_us width_us }
    ensures few { result ≤ 100 }
    ensures line { (limits : Option Limits) (rules : Rules) (s : List Symbol)
        → AreWires timekeeper.now.wires → IsTallyOf line.old.port s → line_in limits rules line.new
        ≡ line_heard (clock_in timekeeper.now) (line_in limits rules line.old) rise_us width_us
        (told_within limits rules (heard_at result s width_us))
        (quality_in (heard_at result s width_us)) }
    ensures heard { (s : List Symbol) → IsTallyOf line.old.port s
        → IsTallyOf line.new.port (heard_at result s width_us) }
{
    let place = line.sync.pulse(rise_us, width_us);
    line.port = heard(line.port, place, width_us);
    line.is_heard = 1;
    if place == 1 {
        line.begin_us = rise_us;
    }
    if place == 100 {
        line.frame = line.port;
        line.end_us = rise_us.wrapping_add(10_000);
        line.is_uneven = u8::from(!is_even(&steady_rules_of(timekeeper), line.begin_us, rise_us));
        line.has_frame = 1;
        line.is_seen = 1;
    }
    place
}

fn heard(tally: Tally, place: u8, width_us: u32) -> Tally
    ensures { (s : List Symbol) → IsTallyOf tally s → IsTallyOf result (heard_at place s width_us) }
{
    match place {
        0 => tally,
        1 => with_pulse(Tally::none(), width_us),
        _ => with_pulse(tally, width_us),
    }
}

fn with_pulse(mut tally: Tally, width_us: u32) -> Tally
    ensures { (s : List Symbol) → IsTallyOf tally s
        → IsTallyOf result (with_symbol s (symbol_of width_us)) }
{
    tally.add(width_us);
    tally
}
