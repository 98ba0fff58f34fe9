//! What generators send in a second, and what true lines of them have.

ghost use Rattle.std.specs.Prelude.{◌≡◌, ◌<◌, ℕ, All, IfOk, IfSome, None, length, map};
ghost use Rattle.std.specs.List.{range_with_len};
ghost use Rattle.irig_frame.specs.Faults.{first_wrong};
ghost use Rattle.irig_time.specs.Timelines.{TimelineValue, truth_at};
ghost use Rattle.irig_port.specs.Told.{told_of};
ghost use Rattle.irig_control.specs.Parity.{with_parity};
ghost use Rattle.irig_frame.specs.Encoder.{frame_of_coded};
ghost use Rattle.irig_gen.specs.Sent.{IsValueSent};
ghost use Rattle.irig_plant.specs.Schedule.{generator_at_next_edge};
ghost use Rattle.irig_witness.specs.TrueFrames as frames;
ghost use Rattle.irig_station.specs.SentSeconds.{IsJudged, harmless_of, line_of_generator, plain_frame_of};

use irig_control::{Parity, encode_with_parity};
use irig_frame::{Coded, Symbol, is_marker_place};
use irig_gen::Generator;
use irig_plant::widths_of;
use irig_port::{Port, Told};
use irig_simulated::LineSecond;
use irig_time::{Claim, Rules, Timeline};
use std::alloc::{AllocError, Global};

// What generators send in the second at whose edge they stand. What the first one sends is made once
// for all that send the same.
pub(crate) fn lines_of<P: Port>(
    alloc: Global,
    rules: Rules,
    timeline: &Timeline,
    generators: &[Generator],
) -> Result<Vec<LineSecond>, AllocError>
    ensures { IfOk result (λ lines. lines.items
        ≡ map (line_of_generator rules timeline.now) generators.now) }
{
    let mut lines = Vec::new(alloc);
    let Some(first) = generators.first() else {
        return Ok(lines);
    };
    let judged = judge::<P>(rules, timeline, first);
    for generator in generators {
        lines.push(line_beside::<P>(rules, timeline, first, &judged, generator))?;
    }
    Ok(lines)
}

// What a generator sends in the second at whose edge it stands, beside what the first one does.
fn line_beside<P: Port>(
    rules: Rules,
    timeline: &Timeline,
    first: &Generator,
    judged: &Judged,
    generator: &Generator,
) -> LineSecond
    requires { IsJudged rules timeline.now first.now judged.now.line judged.now.is_harmless }
    ensures { result ≡ line_of_generator rules timeline.now generator.now }
{
    let is_same = judged.is_harmless
        && generator.edge() == first.edge()
        && generator.sends_as(first, timeline);
    if is_same {
        judged.line
    } else {
        judge::<P>(rules, timeline, generator).line
    }
}

// What true lines had in a second.
pub(crate) fn truths_of(
    alloc: Global,
    lines: &[LineSecond],
) -> Result<Vec<[Symbol; 100]>, AllocError>
    ensures { IfOk result (λ frames. frames.items ≡ map (λ line. line.truth) lines.now) }
{
    let mut frames = Vec::new(alloc);
    for line in lines {
        frames.push(line.truth)?;
    }
    Ok(frames)
}

// Each generator goes to its next edge.
pub(crate) fn step_all(generators: &mut Vec<Generator>)
    requires { All (λ x. x.edge < u64.MAX) generators.old.items }
    ensures { generators.new.items ≡ map generator_at_next_edge generators.old.items }
{
    for g in 0..generators.len() {
        let generator = &mut generators[g];
        generator.step();
    }
}

// What a generator sends in a second and what a true line of it has, and whether that is the same: the
// frame that is sent, which does no harm.
#[derive(Clone, Copy, Drop)]
struct Judged {
    line: LineSecond,
    is_harmless: bool,
}

// Of the second at whose edge the generator stands.
fn judge<P: Port>(rules: Rules, timeline: &Timeline, generator: &Generator) -> Judged
    ensures { IsJudged rules timeline.now generator.now result.line result.is_harmless }
{
    let Some(coded) = generator.value(timeline) else {
        return Judged {
            line: LineSecond {
                sent: None,
                truth: plain_frame::<P>(rules, timeline, generator),
            },
            is_harmless: false,
        };
    };
    let parity = generator.rules().parity;
    let frame = encode_with_parity(&coded, parity);
    let truth = timeline.truth(generator.edge());
    let is_harmless = claims_only(truth, &told_of_value::<P>(rules, &coded, parity));
    let truth = if is_harmless {
        frame
    } else {
        plain_frame::<P>(rules, timeline, generator)
    };
    Judged {
        line: LineSecond {
            sent: Some(frame),
            truth,
        },
        is_harmless,
    }
}

// The frame of a true line whose generator sends none that does no harm: the one that it would send
// without a fault.
fn plain_frame<P: Port>(rules: Rules, timeline: &Timeline, generator: &Generator) -> [Symbol; 100]
    ensures { result ≡ plain_frame_of rules timeline.now generator.now }
{
    let edge = generator.edge();
    let truth = timeline.truth(edge);
    let plain = generator.frame_at(timeline, edge);
    match if_harmless::<P>(rules, truth, plain) {
        Some(frame) => frame,
        None => blank(),
    }
}

// A frame, if there is one and it does no harm.
fn if_harmless<P: Port>(
    rules: Rules,
    truth: Option<Claim>,
    frame: Option<[Symbol; 100]>,
) -> Option<[Symbol; 100]>
    requires { IfSome frame (λ s. first_wrong 0 s ≡ None) }
    ensures { (t : TimelineValue) (n : ℕ) → truth ≡ truth_at t n
        → result ≡ harmless_of rules t n frame }
{
    let frame = frame?;
    if claims_only(truth, &told::<P>(rules, &frame)) {
        Some(frame)
    } else {
        None
    }
}

// What a port tells that hears this frame.
fn told<P: Port>(rules: Rules, frame: &[Symbol; 100]) -> Told
    ensures value { result ≡ told_of rules frame.now }
    ensures long { length frame.now ≡ 100 }
{
    let mut port = P::fresh(rules);
    port.pulses(&widths_of(frame));
    port.edge()
}

// The same of the frame that has a value and this parity, at no cost for each of its pulses.
fn told_of_value<P: Port>(rules: Rules, coded: &Coded, parity: Parity) -> Told
    requires { IsValueSent coded.now }
    ensures { result ≡ told_of rules (with_parity parity (frame_of_coded coded.now)) }
{
    let mut port = P::with_frame(rules, coded, parity);
    port.edge()
}

fn claims_only(truth: Option<Claim>, told: &Told) -> bool
    ensures { result ≡ frames.claims_only truth told.now }
{
    match (told, truth) {
        (Told::Claim(claim), Some(truth)) => *claim == truth,
        (Told::Claim(_), None) => false,
        _ => true,
    }
}

// A frame that claims nothing.
fn blank() -> [Symbol; 100]
    ensures { result ≡ frames.blank }
{
    let mut frame = [Symbol::Zero; 100];
    for element in 0..frame.len() {
        if is_marker_place(element) {
            frame[element] = Symbol::Marker;
        }
    }
    frame
}
