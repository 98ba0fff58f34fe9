//! One line: it is played, and what is said of it is written.

ghost use Rattle.std.specs.Prelude.{◌≡◌, ◌≤◌, ◌+◌, ◌-◌, List, Option, IfOk, IfErr, length, ◌||◌, ℕ};
ghost use Rattle.irig_device.specs.Lines.{HasNoNewline};
ghost use Rattle.irig_device.specs.Watched.{device_of, has_failed};
ghost use Rattle.report_run.specs.Faults.{is_write_fault, says_write, stopped_write};
ghost use Rattle.report_run.specs.Lines.{lines, max_line, max_lines};
ghost use Rattle.report_run.specs.Meanings.{meaning_at_end, meaning_from, step};
ghost use Rattle.report_run.specs.Runs.{HeardFor, IsAt, IsFirst, LeavesFor, RestFor, RunsLine, TakesLine, WroteStop};
ghost use Rattle.report_run.specs.Starts.{noted_at};
ghost use Rattle.report_run.specs.Texts.{closing_of};

use crate::fault::SceneFault;
use crate::play::Play;
use crate::read::{MAX_LINES, is_blank};
use crate::stop::Stop;
use crate::write::refuse;
use irig_device::Watched;
use std::alloc::Global;
use std::io::Write;
use text_faults::Refusal;

/// Plays a line that isn't too long, and writes what is said of it, or what is open and a refusal.
pub(crate) fn run_line<T: Play, W: Write>(
    alloc: Global,
    asked: T::Asked,
    player: &mut Option<T>,
    number: u64,
    line: &[u8],
    output: &mut Watched<W>,
) -> Result<(), SceneFault>
    requires { length line.now ≤ max_line }
    ensures runs { RunsLine T.language T.ends (T.stands_for asked) (T.texts asked) player.old number
        line.now result player.new
        (W.contents (device_of output.old)) (W.contents (device_of output.new)) }
    ensures leaves { IfErr result (λ fault. (at : Option T.Scene)
        → IsAt (T.stands_for asked) player.old at
        → LeavesFor (T.stands_for asked) fault player.new (step T.language number at line.now)) }
    ensures number { IfOk result (λ done. number ≤ max_lines) }
    ensures note { has_failed output.new ≡ (has_failed output.old || says_write result) }
{
    match take_line(alloc, asked, player, number, line, output) {
        Ok(()) => Ok(()),
        Err(Stop::Refused(refusal)) => Err(stop(alloc, asked, player, number, refusal, output)),
        Err(Stop::Failed(failure)) => Err(SceneFault::from(failure)),
    }
}

#[tactic(auto, unfolding(crate::specs::Meanings::step))]
fn take_line<T: Play, W: Write>(
    alloc: Global,
    asked: T::Asked,
    player: &mut Option<T>,
    number: u64,
    line: &[u8],
    output: &mut Watched<W>,
) -> Result<(), Stop>
    requires { length line.now ≤ max_line }
    ensures takes { TakesLine T.language (T.stands_for asked) (T.texts asked) player.old number
        line.now result player.new
        (W.contents (device_of output.old)) (W.contents (device_of output.new)) }
    ensures number { IfOk result (λ done. number ≤ max_lines) }
    ensures note { has_failed output.new ≡ (has_failed output.old || stopped_write result) }
{
    if number > MAX_LINES {
        return Err(Stop::Refused(Refusal::TooManyLines));
    }
    if is_blank(line) {
        return Ok(());
    }
    match player {
        Some(player) => player.take(alloc, asked, line, output),
        None => {
            let begun = T::begin(alloc, asked, line, output)?;
            *player = Some(begun);
            Ok(())
        }
    }
}

/// Writes what is open and the refusal of a line, and answers it; or what failed meanwhile.
pub(crate) fn stop<T: Play, W: Write>(
    alloc: Global,
    asked: T::Asked,
    player: &Option<T>,
    number: u64,
    refusal: Refusal,
    output: &mut Watched<W>,
) -> SceneFault
    ensures wrote { (at : Option T.Scene) → IsAt (T.stands_for asked) player.now at
        → WroteStop result number refusal (closing_of (T.texts asked) at)
        (W.contents (device_of output.old)) (W.contents (device_of output.new)) }
    ensures note { has_failed output.new ≡ (has_failed output.old || is_write_fault result) }
{
    match player {
        None => refuse(alloc, number, refusal, output),
        Some(player) => match player.write_last(alloc, asked, true, output) {
            Ok(()) => refuse(alloc, number, refusal, output),
            Err(failure) => SceneFault::from(failure),
        },
    }
}

/// Plays the line with which the input ended, if it has any bytes, and ends the text.
pub(crate) fn run_last<T: Play, W: Write>(
    alloc: Global,
    asked: T::Asked,
    player: &mut Option<T>,
    number: u64,
    line: &[u8],
    output: &mut Watched<W>,
) -> Result<T::Outcome, SceneFault>
    requires length { length line.now ≤ max_line }
    requires whole { HasNoNewline line.now }
    requires number { 1 ≤ number }
    requires few { number ≤ max_lines + 1 }
    ensures runs { (at : Option T.Scene) (first : List ℕ) → IsAt (T.stands_for asked) player.old at
        → IsFirst at line.now first
        → RestFor T.ends (T.texts asked) result
        (meaning_from T.language (lines line.now) number at)
        (number - 1 + length (lines line.now)) first at
        (W.contents (device_of output.old)) (W.contents (device_of output.new)) }
    ensures heard { (at : Option T.Scene) → IsAt (T.stands_for asked) player.old at
        → HeardFor T.language T.entries (T.stands_for asked) T.counts result player.new
        (noted_at T.entries T.counts at) (lines line.now) number at }
    ensures note { has_failed output.new ≡ (has_failed output.old || says_write result) }
{
    if line.is_empty() {
        return end(alloc, asked, player, number, output);
    }
    run_line(alloc, asked, player, number, line, output)?;
    end(alloc, asked, player, number + 1, output)
}

// The end of the input before this line: where nothing has begun it is refused.
fn end<T: Play, W: Write>(
    alloc: Global,
    asked: T::Asked,
    player: &Option<T>,
    number: u64,
    output: &mut Watched<W>,
) -> Result<T::Outcome, SceneFault>
    requires number { 1 ≤ number }
    ensures ends { (at : Option T.Scene) (first : List ℕ) → IsAt (T.stands_for asked) player.now at
        → RestFor T.ends (T.texts asked) result (meaning_at_end number at) (number - 1) first at
        (W.contents (device_of output.old)) (W.contents (device_of output.new)) }
    ensures note { has_failed output.new ≡ (has_failed output.old || says_write result) }
{
    match player {
        None => Err(refuse(alloc, number, Refusal::NoPlant, output)),
        Some(player) => match player.write_last(alloc, asked, false, output) {
            Ok(()) => Ok(player.outcome(number - 1)),
            Err(failure) => Err(SceneFault::from(failure)),
        },
    }
}
