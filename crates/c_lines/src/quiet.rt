//! Lines of which a tick changes nothing.

ghost use Rattle.std.specs.Prelude.{◌≡◌};
ghost use Rattle.c_lines.specs.Quiet.{are_quiet, is_quiet_line};

use crate::line::{IrigLine, IrigLines};
use irig_lines::{is_gone, is_idle};

fn is_quiet_line(line: &IrigLine, now_us: u32) -> bool
    ensures { result ≡ is_quiet_line now_us line.now }
{
    line.has_frame == 0
        && (line.is_seen == 0 || !is_gone(line.end_us, now_us))
        && (!is_idle(&line.sync, now_us)
            || line.is_heard == 0 && line.sync.place == 0 && line.sync.was_marker == 1)
}

/// Whether no line keeps a frame that could vote, none becomes idle, and what is seen of none is gone.
pub fn are_quiet(lines: &IrigLines, now_us: u32) -> bool
    ensures { result ≡ are_quiet now_us lines.now }
{
    is_quiet_line(&lines.a, now_us)
        && is_quiet_line(&lines.b, now_us)
        && is_quiet_line(&lines.c, now_us)
        && is_quiet_line(&lines.d, now_us)
        && is_quiet_line(&lines.e, now_us)
}
