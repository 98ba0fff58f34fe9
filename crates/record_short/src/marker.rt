//! Where a second begins.

ghost use Rattle.std.specs.Prelude.{◌≡◌, ◌+◌, ◌<◌, ◌/◌, [], length, drop, take, MatchOption, None, Some, slice_get};
ghost use Rattle.record_short.specs.Seen.{IsBegunAt, are_markers, begun_in, is_in_step, is_marker, steps};

use irig_frame::{Symbol, classify};
use record_pulses::Pulse;

/// The place of the second of the first two markers in a row.
pub(crate) fn second_marker(pulses: &[Pulse]) -> Option<usize>
    ensures { MatchOption result (begun_in [] pulses.now ≡ None) (IsBegunAt pulses.now) }
{
    for first in 0..pulses.len().saturating_sub(1) {
        if are_markers(pulses[first], pulses[first + 1]) {
            return Some(first + 1);
        }
    }
    None
}

fn are_markers(first: Pulse, second: Pulse) -> bool
    ensures { result ≡ are_markers first second }
{
    let gap_us = second.rise_us.saturating_sub(first.rise_us);
    is_marker(first) && is_marker(second) && is_in_step(gap_us) && steps(gap_us) == 1
}

fn is_marker(pulse: Pulse) -> bool
    ensures { result ≡ is_marker pulse }
{
    classify(pulse.width_us) == Symbol::Marker
}

/// How many elements later a pulse is that rises so long after another.
pub(crate) fn steps(gap_us: u64) -> u64
    ensures { result ≡ steps gap_us }
{
    gap_us / 10_000 + (gap_us % 10_000 + 1_000) / 10_000
}

/// Whether it is one or more elements later, to a millisecond.
pub(crate) fn is_in_step(gap_us: u64) -> bool
    ensures { result ≡ is_in_step gap_us }
{
    (gap_us % 10_000 + 1_000) % 10_000 <= 2_000 && steps(gap_us) > 0
}
