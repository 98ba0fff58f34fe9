//! All pulses of a frame but its last one, at once.

ghost use Rattle.std.specs.Prelude.{◌≡◌, ◌<◌, ◌==◌, ◌%◌, ◌^◌, ◌++◌, false, not, ℕ, List};
ghost use Rattle.irig_frame.specs.declared.symbol.Symbol.{Symbol};
ghost use Rattle.irig_time.specs.declared.rules.Rules.{Rules};
ghost use Rattle.irig_port.specs.Heard.{symbols_of, symbols_heard};
ghost use Rattle.irig_vote.specs.Vote.{ports_in};
ghost use Rattle.irig_lines.specs.Steps.{line_at, IsKeptOfUtc};
ghost use Rattle.irig_timekeeper.specs.Unfinished.{line_unfinished};

use crate::keeper::Timekeeper;
use irig_lines::{Line, corrected, delay_at, line_at};
use irig_port::Port;
use irig_sync::Sync;

impl<P: Port> Timekeeper<P> {
    ghost use Rattle.irig_lines.specs.Delays.{corrected, delay_at};
    ghost use Rattle.irig_timekeeper.specs.Keepers.{Goes};
    ghost use Rattle.irig_timekeeper.specs.Life.{Call};
    ghost use Rattle.irig_timekeeper.specs.Lived.{MadeOf, HasLived};
    ghost use Rattle.irig_timekeeper.specs.Unfinished.{AreOfAFrame, hears, lines_unfinished, most, pulses_by, symbols_by, unfinished};

    /// Whether the last pulse on a line was a marker, or the line is idle: the next pulse begins a
    /// frame, if it is a marker.
    pub fn may_begin(&self, line: u8) -> bool
        requires { line < 5 }
        ensures { result ≡ not ((line_at self.now.state.lines line).sync.was_marker == 0) }
    {
        line_at(&self.state.lines, line).sync.was_marker != 0
    }

    /// All pulses of a frame but its last one, at once: as [`hear`](Self::hear) of each, in order.
    /// The first rose at `first_us` and the last of them at `last_us`; each came on time behind the
    /// one before, and their widths show the same symbols as these 99, of which the first is a
    /// marker, no two in a row are, and the last is none. A frame [`may_begin`](Self::may_begin)
    /// on the line.
    pub fn hear_unfinished(&mut self, line: u8, first_us: u32, last_us: u32, widths_us: &[u32])
        requires line { line < ports_in self.old.clock.redundancy }
        ensures lived { (made : MadeOf) (calls : List Call) (rise width : ℕ → ℕ)
            → HasLived self.old made calls → AreOfAFrame rise width
            → symbols_of widths_us.now ≡ symbols_by width most
            → corrected first_us (delay_at made.clock.delays line) ≡ rise 0 % 2 ^ 32
            → corrected last_us (delay_at made.clock.delays line) ≡ rise 98 % 2 ^ 32
            → ((line_at self.old.state.lines line).sync.was_marker == 0) ≡ false
            → HasLived self.new made (hears line (pulses_by rise width most) ++ calls) }
        ensures others { (other : ℕ) → other < 5 → ¬ (other ≡ line)
            → line_at self.new.state.lines other ≡ line_at self.old.state.lines other }
        ensures lines { self.new.clock ≡ self.old.clock }
    {
        let delay_us = delay_at(&self.clock.delays, line);
        let first_us = corrected(first_us, delay_us);
        let last_us = corrected(last_us, delay_us);
        self.pass_unfinished(line, first_us, last_us, widths_us);
    }

    // The same at a port, with no delay.
    fn pass_unfinished(&mut self, port: u8, first_us: u32, last_us: u32, widths_us: &[u32])
        requires { port < ports_in self.old.clock.redundancy }
        ensures heard { Goes self.old self.new
            (λ k. unfinished k port first_us last_us (symbols_heard widths_us.now)) }
        ensures after { self.new.state.lines
            ≡ lines_unfinished self.old.state.lines port first_us last_us }
        ensures lines { self.new.clock ≡ self.old.clock }
    {
        let lines = &mut self.state.lines;
        match port {
            0 => pass_on(&mut self.a, &mut lines.a, first_us, last_us, widths_us),
            1 => pass_on(&mut self.b, &mut lines.b, first_us, last_us, widths_us),
            2 => pass_on(&mut self.c, &mut lines.c, first_us, last_us, widths_us),
            3 => pass_on(&mut self.d, &mut lines.d, first_us, last_us, widths_us),
            _ => pass_on(&mut self.e, &mut lines.e, first_us, last_us, widths_us),
        }
    }
}

// The same on a line and at its port; the line keeps the frame that it kept.
fn pass_on<P: Port>(port: &mut P, line: &mut Line, first_us: u32, last_us: u32, widths_us: &[u32])
    ensures line { line.new ≡ line_unfinished line.old first_us last_us }
    ensures heard { (r : Rules) (s : List Symbol) → P.stands_for port.old r s
        → P.stands_for port.new r (symbols_heard widths_us.now) }
    ensures valid { IsKeptOfUtc line.old.frame → IsKeptOfUtc line.new.frame }
{
    port.clear();
    port.pulses(widths_us);
    line.sync = Sync {
        rise_us: last_us,
        place: 99,
        was_marker: 0,
    };
    line.begin_us = first_us;
    line.is_heard = true;
}
