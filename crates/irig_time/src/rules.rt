//! How a plant's frames are read.

use irig_control::Parity;

/// Whether the offset that a frame carries is added to the coded time or subtracted from it to give
/// UTC.
///
/// Which one IEEE 1344-1995 means is for the plant to say.
#[derive(Clone, Copy, PartialEq, Eq)]
pub enum Sense {
    /// UTC is the coded time plus the offset.
    Add,
    /// UTC is the coded time minus the offset.
    Subtract,
}

/// Whether the straight binary seconds are compared with the coded time.
#[derive(Clone, Copy, PartialEq, Eq)]
pub enum SbsUse {
    /// They are 3600h + 60m + s of the coded time, except at second 60, where they are not
    /// compared.
    Check,
    /// They are not looked at.
    Ignore,
}

/// How a plant's frames are written and read.
#[derive(Clone, Copy, PartialEq, Eq)]
pub struct Rules {
    /// What the parity bit makes of the ones that it counts.
    pub parity: Parity,
    /// What is done with the offset.
    pub sense: Sense,
    /// Whether the straight binary seconds are compared.
    pub sbs: SbsUse,
}

impl Rules {
    /// The plain rules: even parity, the offset is added, the straight binary seconds are compared.
    pub const PLAIN: Rules = Rules {
        parity: Parity::Even,
        sense: Sense::Add,
        sbs: SbsUse::Check,
    };
}
