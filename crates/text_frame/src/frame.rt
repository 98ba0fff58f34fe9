//! A UTC second as the text of the frame that codes it.

ghost use Rattle.std.specs.Prelude.{◌≡◌, ◌≤◌, IfOk, OnErr, unsigned_abs};
ghost use Rattle.irig_control.specs.Control.{IsControl};
ghost use Rattle.irig_gen.specs.ControlBits.{offset_sent};
ghost use Rattle.text_frame.specs.Frame.{IsFrameOptions, IsFrameText, NamesNoSecond, ShowsFrameOf, control_with};

use irig_control::{Control, Parity};
use irig_frame::Symbol;
use irig_time::{Leap, Sense, frame_of_second, read_text};

/// The text of a frame: ten groups of ten symbols with a blank between, and a newline.
pub type FrameText = [u8; 110];

/// What a frame says beside its time, and how it is made.
#[derive(Clone, Copy)]
pub struct FrameOptions {
    /// The half hours that the clock is ahead of UTC, -31 to 31.
    pub local: i8,
    /// The leap second that is pending.
    pub pending: Option<Leap>,
    /// Whether daylight saving is in force.
    pub dst: bool,
    /// The time quality, 0 for a locked clock to 15 for one that failed.
    pub quality: u8,
    /// What the parity bit makes of the ones that it counts.
    pub parity: Parity,
    /// What is done with the offset to give UTC.
    pub sense: Sense,
}

/// A text that is of no second of the years served.
#[derive(Clone, Copy, PartialEq, Eq)]
pub struct BadTime;

/// The frame of the UTC second whose text this is, with these options, each in the range that
/// [`FrameOptions`] gives; `BadTime` if it is the text of no second of the years served.
pub fn frame_text(time: &[u8], options: &FrameOptions) -> Result<FrameText, BadTime>
    requires { IsFrameOptions options.now }
    ensures frame { IfOk result (λ text. ShowsFrameOf time.now options.now text) }
    ensures bad_time { OnErr result (NamesNoSecond time.now) }
{
    let Some(utc) = read_text(time) else {
        return Err(BadTime);
    };
    let control = control_of(options);
    let frame = frame_of_second(options.parity, &utc, options.local, &control);
    Ok(text_of(&frame))
}

fn control_of(options: &FrameOptions) -> Control
    requires { IsFrameOptions options.now }
    ensures control { result ≡ control_with options.now }
    ensures in_range { IsControl result }
{
    Control {
        leap_pending: options.pending.is_some(),
        leap_delete: matches!(options.pending, Some(Leap::Delete)),
        dst_pending: false,
        dst: options.dst,
        offset_half_hours: offset_sent(options.sense, options.local),
        quality: options.quality,
    }
}

// The offset that gives UTC.
fn offset_sent(sense: Sense, local: i8) -> i8
    requires { unsigned_abs local ≤ 31 }
    ensures sent { result ≡ offset_sent sense local }
    ensures in_range { unsigned_abs result ≤ 31 }
{
    match sense {
        Sense::Add => -local,
        Sense::Subtract => local,
    }
}

fn text_of(frame: &[Symbol; 100]) -> FrameText
    ensures { IsFrameText frame.now result }
{
    let mut text = [b' '; 110];
    for (place, symbol) in frame.iter().enumerate() {
        text[place + place / 10] = symbol.letter();
    }
    text[109] = b'\n';
    text
}
