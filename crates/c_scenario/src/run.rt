//! A run over memory.

ghost use Rattle.std.specs.Prelude.{◌≡◌};
ghost use Rattle.c_scenario.specs.Runs.{IsRun, line_of, number_of, status_of, written_over};

use crate::refusal::IrigRefusal;
use irig_device::Watched;
use irig_scenario::{ScenarioOutcome, WhyRefused, run_scenario};
use irig_scene::{RefusedLine, SceneFault, Shown};
use std::alloc::{AllocError, Global};
use text_faults::meaning_of;
use text_refusal::{Parts, PlantContext, Reason, why_refused};

/// How a run ended, and what it wrote.
#[derive(Drop)]
pub(crate) struct Ended {
    pub(crate) answer: Result<ScenarioOutcome, SceneFault>,
    pub(crate) log: Vec<u8>,
    pub(crate) refused: Option<WhyRefused>,
}

pub(crate) fn run_text(alloc: Global, text: &[u8], shown: Shown) -> Ended
    ensures { IsRun text.now shown result.answer result.log.items }
{
    let mut input = Watched::new(text);
    let mut output = Watched::new(Vec::new(alloc));
    let mut refused = None;
    let answer = run_scenario(alloc, &mut input, &mut output, shown, &mut refused);
    Ended {
        answer,
        log: output.into_inner(),
        refused,
    }
}

/// The exit status that a program has after such an answer.
pub(crate) fn status_of<T>(answer: &Result<T, SceneFault>) -> u8
    ensures { result ≡ status_of answer.now }
{
    match answer {
        Ok(_) => 0,
        Err(fault) => fault.status(),
    }
}

// The number of the line that is refused, from 1, or 0.
fn line_of<T>(answer: &Result<T, SceneFault>) -> u64
    ensures { result ≡ line_of answer.now }
{
    match answer {
        Err(SceneFault::Refused { line, .. }) => *line,
        _ => 0,
    }
}

// The number of the refusal, or 0.
fn number_of<T>(answer: &Result<T, SceneFault>) -> u8
    ensures { result ≡ number_of answer.now }
{
    match answer {
        Err(SceneFault::Refused { refusal, .. }) => refusal.number(),
        _ => 0,
    }
}

/// What is refused, if a line is. `reason` gets as much of the reason as it has room for.
pub(crate) fn explain<T>(
    alloc: Global,
    answer: &Result<T, SceneFault>,
    refused: &Option<WhyRefused>,
    reason: &mut [u8],
) -> IrigRefusal
    ensures line { result.line ≡ line_of answer.now }
    ensures number { result.number ≡ number_of answer.now }
{
    match refused {
        Some(WhyRefused::Line(line)) => explain_line(alloc, answer, false, line, reason),
        Some(WhyRefused::OfDevices(line)) => explain_line(alloc, answer, true, line, reason),
        Some(WhyRefused::Cause(refusal)) => {
            refusal_with(answer, cause_of(refusal.number()), Parts::NONE, reason)
        }
        None => refusal_with(answer, "", Parts::NONE, reason),
    }
}

fn explain_line<T>(
    alloc: Global,
    answer: &Result<T, SceneFault>,
    has_devices: bool,
    refused: &RefusedLine,
    reason: &mut [u8],
) -> IrigRefusal
    ensures line { result.line ≡ line_of answer.now }
    ensures number { result.number ≡ number_of answer.now }
{
    match why(alloc, has_devices, refused) {
        Ok(why) => refusal_with(answer, why.text.as_str(), why.parts, reason),
        Err(_) => refusal_with(answer, "", Parts::NONE, reason),
    }
}

// What is refused, with this reason.
fn refusal_with<T>(
    answer: &Result<T, SceneFault>,
    text: &str,
    parts: Parts,
    reason: &mut [u8],
) -> IrigRefusal
    ensures line { result.line ≡ line_of answer.now }
    ensures number { result.number ≡ number_of answer.now }
{
    write_over(reason, text.as_bytes());
    IrigRefusal::new(line_of(answer), number_of(answer), text.len(), parts)
}

fn cause_of(number: u8) -> &'static str {
    match meaning_of(number) {
        Some(meaning) => meaning.cause,
        None => "",
    }
}

// Why a line is refused.
fn why(alloc: Global, has_devices: bool, refused: &RefusedLine) -> Result<Reason, AllocError> {
    let context = PlantContext {
        has_devices,
        names: &refused.names,
        edges: refused.edges.as_slice(),
    };
    why_refused(alloc, refused.refusal, refused.line.as_slice(), &context)
}

/// Writes the items over the beginning of `room`, as many as it has room for.
pub(crate) fn write_over<T: Copy>(room: &mut [T], items: &[T])
    ensures { room.new ≡ written_over room.old items.now }
{
    let count = room.len().min(items.len());
    room[..count].copy_from_slice(&items[..count]);
}
