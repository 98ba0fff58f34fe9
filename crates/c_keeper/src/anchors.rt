//! From which the length of a second is measured, in numbers.

ghost use Rattle.std.specs.Prelude.{◌≡◌};
ghost use Rattle.c_keeper.specs.Anchors.{anchor_in, anchors_in, are_young, is_young};

use irig_lines::{Anchor, Anchors};

/// The interval in which the true edge of a voted second lay.
#[repr(C)]
#[derive(Clone, Copy, Drop)]
pub struct IrigAnchor {
    /// Where it begins.
    pub begin_us: u32,
    /// How long it is.
    pub long_us: u32,
    /// The seconds that were counted since, at most 2,000.
    pub seconds: u32,
}

/// Two of them.
#[repr(C)]
#[derive(Clone, Copy, Drop)]
pub struct IrigAnchors {
    /// The one that serves.
    pub old: IrigAnchor,
    /// The one that takes its place, and serves as long as there is no old one.
    pub young: IrigAnchor,
    /// 0 if there is no old one; any other, if there is.
    pub has_old: u8,
    /// 0 if there is no young one; any other, if there is.
    pub has_young: u8,
}

const NO_ANCHOR: IrigAnchor = IrigAnchor {
    begin_us: 0,
    long_us: 0,
    seconds: 0,
};

pub(crate) const NOTHING_MEASURED: IrigAnchors = IrigAnchors {
    old: NO_ANCHOR,
    young: NO_ANCHOR,
    has_old: 0,
    has_young: 0,
};

fn anchor_of(has: u8, anchor: &IrigAnchor) -> Option<Anchor>
    ensures { result ≡ anchor_in has anchor.now }
{
    if has == 0 {
        return None;
    }
    Some(Anchor {
        begin_us: anchor.begin_us,
        long_us: anchor.long_us,
        seconds: anchor.seconds,
    })
}

/// The two.
pub(crate) fn anchors_of(anchors: &IrigAnchors) -> Anchors
    ensures { result ≡ anchors_in anchors.now }
{
    Anchors {
        old: anchor_of(anchors.has_old, &anchors.old),
        young: anchor_of(anchors.has_young, &anchors.young),
    }
}

// Whether there is one, and its numbers.
fn anchor_for_c(anchor: Option<Anchor>) -> (u8, IrigAnchor)
    ensures { anchor_in result.0 result.1 ≡ anchor }
{
    match anchor {
        None => (0, NO_ANCHOR),
        Some(anchor) => (
            1,
            IrigAnchor {
                begin_us: anchor.begin_us,
                long_us: anchor.long_us,
                seconds: anchor.seconds,
            },
        ),
    }
}

/// The same as C holds them.
pub(crate) fn anchors_for_c(anchors: &Anchors) -> IrigAnchors
    ensures { anchors_in result ≡ anchors.now }
{
    let (has_old, old) = anchor_for_c(anchors.old);
    let (has_young, young) = anchor_for_c(anchors.young);
    IrigAnchors {
        old,
        young,
        has_old,
        has_young,
    }
}

fn is_young(has: u8, anchor: &IrigAnchor) -> bool
    ensures { result ≡ is_young has anchor.now }
{
    has == 0 || anchor.seconds <= 2_000
}

/// Whether they still serve, and there are none if nothing is known of the edge.
pub(crate) fn are_young(has_interval: u8, anchors: &IrigAnchors) -> bool
    ensures { result ≡ are_young has_interval anchors.now }
{
    if has_interval == 0 {
        return anchors.has_old == 0 && anchors.has_young == 0;
    }
    is_young(anchors.has_old, &anchors.old) && is_young(anchors.has_young, &anchors.young)
}
