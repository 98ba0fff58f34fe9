//! The texts of frames, for C.

ghost use Rattle.std.specs.Prelude.{◌≡◌, true};
ghost use Rattle.text_frame.specs.Frame.{IsFrameOptions};
ghost use Rattle.c_scenario.specs.Frames.{are_options, are_rules, options_in, pending_in, rules_in, sbs_in};

use c_numbers::{parity_of, sense_of};
use irig_time::{Leap, Rules, SbsUse};
use text_frame::FrameOptions;

/// What a frame says beside its time, and how it is made.
#[repr(C)]
#[derive(Clone, Copy, Drop)]
pub struct IrigFrameOptions {
    /// The half hours that the clock is ahead of UTC, -31 to 31.
    pub local_half_hours: i8,
    /// The leap second that is pending: 0 none, 1 an inserted one, 2 a deleted one.
    pub pending: u8,
    /// 1 if daylight saving is in force, else 0.
    pub dst: u8,
    /// The time quality, 0 for a locked clock to 15 for one that failed.
    pub quality: u8,
    /// 0 even, 1 odd.
    pub parity: u8,
    /// What is done with the offset to give UTC: 0 it is added, 1 subtracted.
    pub sense: u8,
}

/// Whether each number is one that has a meaning.
pub(crate) fn are_options(options: &IrigFrameOptions) -> bool
    ensures { result ≡ are_options options.now }
{
    options.local_half_hours.unsigned_abs() <= 31
        && (options.pending <= 2
            && (options.dst <= 1
                && (options.quality <= 15 && (options.parity <= 1 && options.sense <= 1))))
}

/// What such numbers ask for.
pub(crate) fn options_of(options: &IrigFrameOptions) -> FrameOptions
    requires { are_options options.now ≡ true }
    ensures options { result ≡ options_in options.now }
    ensures in_range { IsFrameOptions result }
{
    FrameOptions {
        local: options.local_half_hours,
        pending: pending_of(options.pending),
        dst: options.dst == 1,
        quality: options.quality,
        parity: parity_of(options.parity),
        sense: sense_of(options.sense),
    }
}

fn pending_of(number: u8) -> Option<Leap>
    ensures { result ≡ pending_in number }
{
    match number {
        0 => None,
        1 => Some(Leap::Insert),
        _ => Some(Leap::Delete),
    }
}

/// Whether each number of the rules is 0 or 1.
pub(crate) fn are_rules(parity: u8, sense: u8, sbs: u8) -> bool
    ensures { result ≡ are_rules parity sense sbs }
{
    parity <= 1 && (sense <= 1 && sbs <= 1)
}

/// The rules that such numbers ask for.
pub(crate) fn rules_of(parity: u8, sense: u8, sbs: u8) -> Rules
    ensures { result ≡ rules_in parity sense sbs }
{
    Rules {
        parity: parity_of(parity),
        sense: sense_of(sense),
        sbs: sbs_of(sbs),
    }
}

fn sbs_of(number: u8) -> SbsUse
    ensures { result ≡ sbs_in number }
{
    match number {
        0 => SbsUse::Check,
        _ => SbsUse::Ignore,
    }
}
