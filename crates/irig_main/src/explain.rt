//! What the program says on the standard error beside the line of a fault.

use crate::fault::Fault;
use crate::path::path_beside;
use crate::refusal::why_refused as why_refused_recording;
use cli_words::{Judging, Request, Source};
use irig_scenario::WhyRefused;
use irig_scene::{Refusal, RefusedLine, SceneFault};
use report_judge::JudgeFault;
use std::alloc::{AllocError, Global};
use std::io::Error;
use text_refusal::{PlantContext, Reason, why_refused};
use text_words::{meaning_of, why_no_frame, why_no_time};

/// Writes why a line is refused to the standard error. Without memory, or if it takes nothing,
/// this is left out.
pub(crate) fn tell_refusal<R: Eprint + AllocGlobal>(
    rt: &R,
    fault: SceneFault,
    refused: &Option<WhyRefused>,
) {
    if let SceneFault::Refused { line, refusal } = fault
        && let Some(why) = refused
        && let Ok(text) = refusal_text(rt.alloc(), line, refusal, why)
    {
        let _ = rt.eprintln(&text);
    }
}

fn refusal_text(
    alloc: Global,
    line: u64,
    refusal: Refusal,
    why: &WhyRefused,
) -> Result<String, AllocError> {
    let number = refusal.number();
    let Some(meaning) = meaning_of(number) else {
        return Ok(String::new(alloc));
    };
    let reason = match why {
        WhyRefused::Line(refused) => reason_of(alloc, false, refused)?,
        WhyRefused::OfDevices(refused) => reason_of(alloc, true, refused)?,
        WhyRefused::Cause(_) => return text_of(alloc, line, number, meaning.name, meaning.cause),
    };
    text_of(alloc, line, number, meaning.name, reason.text.as_str())
}

fn reason_of(
    alloc: Global,
    has_devices: bool,
    refused: &RefusedLine,
) -> Result<Reason, AllocError> {
    let context = PlantContext {
        has_devices,
        names: &refused.names,
        edges: refused.edges.as_slice(),
    };
    why_refused(alloc, refused.refusal, refused.line.as_slice(), &context)
}

fn text_of(
    alloc: Global,
    line: u64,
    number: u8,
    name: &str,
    reason: &str,
) -> Result<String, AllocError> {
    format!(in alloc; "line {line}: {number} {name}: {reason}\nmore: irig explain {number}")
}

/// Writes what helps with a fault to the standard error, behind its line. Without memory, or if
/// it takes nothing, this is left out.
pub(crate) fn tell_more<R: Eprint + AllocGlobal>(
    rt: &R,
    request: Option<Request<'_>>,
    fault: &Fault,
) {
    if let Ok(Some(text)) = help_text(rt.alloc(), request, fault) {
        let _ = rt.eprintln(&text);
    }
}

fn help_text(
    alloc: Global,
    request: Option<Request<'_>>,
    fault: &Fault,
) -> Result<Option<String>, AllocError> {
    let text = match (fault, request) {
        (Fault::BadTime, Some(Request::Frame { time, .. })) => why_no_time(alloc, time),
        (Fault::BadFrameText, Some(Request::Read { frame, .. })) => why_no_frame(alloc, frame),
        (Fault::Recording(why), Some(Request::Judge { judging, source })) => {
            recording_text(alloc, why, judging, source)
        }
        (Fault::Samples, Some(request)) => samples_text(alloc, request),
        (Fault::Open(error), Some(request)) => open_text(alloc, error, request),
        (Fault::OpenSamples(error), Some(request)) => no_samples_text(alloc, error, request),
        (Fault::Read, request) => read_text(alloc, source_of_any(request)),
        (Fault::ReadSamples, Some(request)) => {
            let path = path_beside(alloc, name_of(source_of(request)), "dat")?;
            read_text(alloc, Source::File(path.as_str()))
        }
        (Fault::Write, _) => format!(in alloc;
            "standard output took no more: is the disk full, or has its reader ended?"
        ),
        _ => return Ok(None),
    };
    Ok(Some(text?))
}

fn recording_text(
    alloc: Global,
    why: &JudgeFault,
    judging: Judging<'_>,
    source: Source<'_>,
) -> Result<String, AllocError> {
    let reason = why_refused_recording(alloc, why, judging)?;
    let name = name_of(source);
    format!(in alloc; "{name}: {reason}")
}

fn open_text(alloc: Global, error: &Error, request: Request<'_>) -> Result<String, AllocError> {
    let name = name_of(source_of(request));
    format!(in alloc; "{name}: {error}")
}

fn samples_text(alloc: Global, request: Request<'_>) -> Result<String, AllocError> {
    let name = name_of(source_of(request));
    let path = path_beside(alloc, name, "cfg")?;
    format!(in alloc;
        "{name}: these are the samples of a record, which its configuration names: irig judge {path}"
    )
}

fn no_samples_text(
    alloc: Global,
    error: &Error,
    request: Request<'_>,
) -> Result<String, AllocError> {
    let path = path_beside(alloc, name_of(source_of(request)), "dat")?;
    format!(in alloc; "{path}: {error}; a record has its samples beside its configuration")
}

fn read_text(alloc: Global, source: Source<'_>) -> Result<String, AllocError> {
    match source {
        Source::File(file) => format!(in alloc;
            "{file}: it was opened, and could not be read to its end; is it a folder?"
        ),
        Source::Input => format!(in alloc;
            "standard input could not be read to its end; is it a folder?"
        ),
    }
}

fn source_of_any<'a>(request: Option<Request<'a>>) -> Source<'a> {
    match request {
        Some(request) => source_of(request),
        None => Source::Input,
    }
}

fn source_of<'a>(request: Request<'a>) -> Source<'a> {
    match request {
        Request::Play { source, .. } => source,
        Request::Judge { source, .. } => source,
        _ => Source::Input,
    }
}

fn name_of<'a>(source: Source<'a>) -> &'a str {
    match source {
        Source::File(file) => file,
        Source::Input => "standard input",
    }
}
