//! The law of frames that are read back, over the definitions. It has no code.

ghost use Rattle.std.specs.Prelude.{◌≡◌, List};
ghost use Rattle.irig_frame.specs.declared.symbol.Symbol.{Symbol};
ghost use Rattle.irig_time.specs.Seconds.{IsValid};
ghost use Rattle.irig_time.specs.Claims.{claim_of_second};
ghost use Rattle.irig_time.specs.Frames.{IsFrameOfSecond};
ghost use Rattle.irig_port.specs.Told.{claim_told, told_of};
ghost use Rattle.text_frame.specs.Frame.{IsFrameOptions, control_with, rules_with};

use crate::frame::FrameOptions;
use irig_time::{SbsUse, UtcSecond};

/// The frame of a second with some options, read by the same parity and sense, tells the quality if
/// it is 10 or more, and else this second with what the leap bits say of it: the options change
/// nothing else that a port tells.
pub fn frames_are_read_back()
    ensures { (utc : UtcSecond) (options : FrameOptions) (sbs : SbsUse) (frame : List Symbol)
        → IsValid utc → IsFrameOptions options
        → IsFrameOfSecond options.parity utc options.local (control_with options) frame
        → told_of (rules_with options sbs) frame
        ≡ claim_told (claim_of_second utc (control_with options)) options.quality }
{}
