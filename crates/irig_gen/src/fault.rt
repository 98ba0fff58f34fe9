//! The faults of a generator.

ghost use Rattle.std.specs.Prelude.{◌≡◌, ◌+ℤ◌, Some, min};
ghost use Rattle.std.specs.Option.{option_map};
ghost use Rattle.irig_gen.specs.Faults.{control_with_fault, limited_offset, sent_edge, skewed_edge};

use irig_control::Control;
use irig_time::Leap;

/// What is wrong with a generator. A frame with other bits has the parity set anew.
#[derive(Clone, Copy, PartialEq, Eq)]
pub enum GenFault {
    /// It sends nothing.
    Silent,
    /// It sends the frame of the edge at which the fault was set.
    Stuck,
    /// It sends the frame of the edge so many later, or earlier; nothing if that is negative.
    Skew(i32),
    /// The leap bits are 0.
    NoPending,
    /// A leap second of this kind is pending in every frame.
    FalsePending(Leap),
    /// The time quality is this, 15 if it is more.
    Quality(u8),
    /// The offset sent is so many half hours more, limited to -31 to 31; the coded time is not
    /// changed.
    WrongOffset(i8),
}

/// The edge whose frame is sent at this edge, if the fault was set at edge `since`. Past 2^64 it
/// is the last one, for which no timeline has a second.
pub(crate) fn edge_sent(fault: Option<GenFault>, edge: u64, since: u64) -> Option<u64>
    ensures { result ≡ option_map (λ e. min e u64.MAX) (sent_edge fault edge since) }
{
    match fault {
        Some(GenFault::Silent) => None,
        Some(GenFault::Stuck) => Some(since),
        Some(GenFault::Skew(by)) => skewed_edge(edge, by),
        Some(
            GenFault::NoPending
            | GenFault::FalsePending(_)
            | GenFault::Quality(_)
            | GenFault::WrongOffset(_),
        )
        | None => Some(edge),
    }
}

fn skewed_edge(edge: u64, by: i32) -> Option<u64>
    ensures { result ≡ option_map (λ e. min e u64.MAX) (skewed_edge edge by) }
{
    let distance = u64::from(by.unsigned_abs());
    if by < 0 {
        edge.checked_sub(distance)
    } else {
        Some(edge.saturating_add(distance))
    }
}

pub(crate) fn control_with_fault(fault: Option<GenFault>, control: Control) -> Control
    ensures { result ≡ control_with_fault fault control }
{
    match fault {
        Some(GenFault::NoPending) => Control {
            leap_pending: false,
            leap_delete: false,
            ..control
        },
        Some(GenFault::FalsePending(leap)) => Control {
            leap_pending: true,
            leap_delete: matches!(leap, Leap::Delete),
            ..control
        },
        Some(GenFault::Quality(quality)) => Control {
            quality: quality.min(15),
            ..control
        },
        Some(GenFault::WrongOffset(by)) => Control {
            offset_half_hours: limited_offset(control.offset_half_hours, by),
            ..control
        },
        Some(GenFault::Silent | GenFault::Stuck | GenFault::Skew(_)) | None => control,
    }
}

fn limited_offset(offset: i8, by: i8) -> i8
    ensures { result ≡ limited_offset (offset +ℤ by) }
{
    limited(i16::from(offset) + i16::from(by))
}

fn limited(sum: i16) -> i8
    ensures { result ≡ limited_offset sum }
{
    if sum < -31 {
        return -31;
    }
    if sum > 31 { 31 } else { sum as i8 }
}
