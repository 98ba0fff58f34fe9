//! Control bits in numbers.

ghost use Rattle.std.specs.Prelude.{◌≡◌};
ghost use Rattle.c_numbers.specs.Controls.{control_in};

use irig_control::Control;

/// What the control bits of a frame say, as `irig_control::Control` has it: of flags 0 is no, any
/// other yes.
#[repr(C)]
#[derive(Clone, Copy, Drop)]
pub struct IrigControl {
    pub leap_pending: u8,
    pub leap_delete: u8,
    pub dst_pending: u8,
    pub dst: u8,
    pub offset_half_hours: i8,
    pub quality: u8,
}

/// The control bits with these numbers: of flags 0 is no, any other yes.
pub fn control_of_c(control: &IrigControl) -> Control
    ensures { result ≡ control_in control.now }
{
    Control {
        leap_pending: control.leap_pending != 0,
        leap_delete: control.leap_delete != 0,
        dst_pending: control.dst_pending != 0,
        dst: control.dst != 0,
        offset_half_hours: control.offset_half_hours,
        quality: control.quality,
    }
}

/// Control bits as C holds them: of flags 0 is no, 1 yes.
pub fn control_for_c(control: &Control) -> IrigControl
    ensures { control_in result ≡ control.now }
{
    IrigControl {
        leap_pending: u8::from(control.leap_pending),
        leap_delete: u8::from(control.leap_delete),
        dst_pending: u8::from(control.dst_pending),
        dst: u8::from(control.dst),
        offset_half_hours: control.offset_half_hours,
        quality: control.quality,
    }
}
