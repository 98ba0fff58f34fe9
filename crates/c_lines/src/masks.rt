//! What each line is, in numbers.

ghost use Rattle.std.specs.Prelude.{◌≡◌, ◌≤◌};
ghost use Rattle.c_lines.specs.States.{bit_of, mask_of, masks_in, number_of};

use irig_timekeeper::LineState;

/// What each line is: bit p of a mask is line p, and each line that is there is in exactly one.
#[repr(C)]
#[derive(Clone, Copy, Drop)]
pub struct IrigMasks {
    /// They claim the second that ended at the told edge, and end there.
    pub agreed: u8,
    /// They claim that second, but end further from that edge than a true line's frame.
    pub apart: u8,
    /// They claim another second.
    pub differed: u8,
    /// Their frame is at fault, or does not last as long as one.
    pub faulty: u8,
    /// Their clocks are too inexact to vote, as they say themselves.
    pub poor: u8,
    /// Pulses come, but no whole frame came within a second and a half.
    pub broken: u8,
    /// No pulse came within a second.
    pub silent: u8,
    /// They claim a second, and none is told yet to which that could be compared.
    pub unjudged: u8,
}

/// Of no line anything.
pub const NO_LINES: IrigMasks = IrigMasks {
    agreed: 0,
    apart: 0,
    differed: 0,
    faulty: 0,
    poor: 0,
    broken: 0,
    silent: 0,
    unjudged: 0,
};

/// What five lines are, none of one that is not there.
#[derive(Clone, Copy)]
pub struct States {
    pub a: Option<LineState>,
    pub b: Option<LineState>,
    pub c: Option<LineState>,
    pub d: Option<LineState>,
    pub e: Option<LineState>,
}

/// The number by which C knows a state.
pub fn number_of(state: LineState) -> u8
    ensures value { result ≡ number_of state }
    ensures few { result ≤ 8 }
{
    match state {
        LineState::Silent => 0,
        LineState::Broken => 1,
        LineState::Faulty => 2,
        LineState::Uneven => 3,
        LineState::Poor => 4,
        LineState::Unjudged => 5,
        LineState::Agreed => 6,
        LineState::Apart => 7,
        LineState::Differed => 8,
    }
}

fn bit(one: LineState, other: Option<LineState>) -> u8
    ensures value { result ≡ bit_of one other }
    ensures few { result ≤ 1 }
{
    match other {
        Some(state) => u8::from(number_of(one) == number_of(state)),
        None => 0,
    }
}

// The lines that are so.
#[inline(never)]
fn mask(state: LineState, states: &States) -> u8
    ensures value { result ≡ mask_of state states.now }
    ensures few { result ≤ 31 }
{
    bit(state, states.a)
        + 2 * bit(state, states.b)
        + 4 * bit(state, states.c)
        + 8 * bit(state, states.d)
        + 16 * bit(state, states.e)
}

/// The masks of five lines, of which one that is uneven counts as faulty.
pub fn masks_in(states: &States) -> IrigMasks
    ensures { result ≡ masks_in states.now }
{
    IrigMasks {
        agreed: mask(LineState::Agreed, states),
        apart: mask(LineState::Apart, states),
        differed: mask(LineState::Differed, states),
        faulty: mask(LineState::Faulty, states) + mask(LineState::Uneven, states),
        poor: mask(LineState::Poor, states),
        broken: mask(LineState::Broken, states),
        silent: mask(LineState::Silent, states),
        unjudged: mask(LineState::Unjudged, states),
    }
}
