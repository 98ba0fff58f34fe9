//! What the control bits say, and the number that they make.

ghost use Rattle.std.specs.Prelude.{◌≡◌, ◌↔◌, ◌<◌, ◌≤◌, ◌*◌, ◌/◌, ◌%◌, ◌^◌, IsTrue, unsigned_abs};
ghost use Rattle.irig_control.specs.Control.{IsControl, flag, has_one, word_of, offset_in, control_of};

/// What the control bits of a frame say.
///
/// Source: IEEE 1344-1995, annex on IRIG-B. Each field names its bits; that they come from the
/// elements 60 to 68 and 70 to 78 is of IRIG Standard 200-16, format B.
#[derive(Clone, Copy, PartialEq, Eq)]
pub struct Control {
    /// A leap second is pending: bit 0.
    pub leap_pending: bool,
    /// The pending leap second is deleted, not inserted: bit 1.
    pub leap_delete: bool,
    /// Daylight saving is about to begin or to end: bit 2.
    pub dst_pending: bool,
    /// Daylight saving is in force: bit 3.
    pub dst: bool,
    /// The offset between the coded time and UTC in half hours, -31 to 31: its sign is bit 4, where
    /// a one is minus, its whole hours bits 5 to 8, and a further half hour bit 9. Which of the two
    /// it is added to is not asked here.
    pub offset_half_hours: i8,
    /// The time quality, 0 for a locked clock to 15 for one that failed: bits 10 to 13.
    pub quality: u8,
}

/// Whether the control bits have room for these values: each lies in the range that [`Control`]
/// gives.
pub fn in_range(control: &Control) -> bool
    ensures { IsTrue result ↔ IsControl control.now }
{
    (-31..=31).contains(&control.offset_half_hours) && control.quality <= 15
}

/// The control bits as a number below 2^14: the parity, bit 14, and bits 15 to 17 are 0.
///
/// The values are ones that [`in_range`] passes. An offset of 0 has the sign 0. That bits 15 to 17
/// are sent as 0 is this project's profile.
pub fn pack(control: &Control) -> u32
    requires { IsControl control.now }
    ensures word { result ≡ word_of control.now }
    ensures below { result < 2 ^ 14 }
{
    let half_hours = u32::from(control.offset_half_hours.unsigned_abs());
    bit(control.leap_pending, 0)
        | bit(control.leap_delete, 1)
        | bit(control.dst_pending, 2)
        | bit(control.dst, 3)
        | bit(control.offset_half_hours < 0, 4)
        | ((half_hours / 2) << 5)
        | ((half_hours % 2) << 9)
        | (u32::from(control.quality) << 10)
}

/// What the control bits say that make up a number below 2^18; each field is in range.
///
/// The parity, bit 14, says nothing here, nor does the sign of an offset of 0. That bits 15 to 17
/// are ignored is this project's profile.
#[tactic(auto, using(crate::proofs::ControlLaws::control_is))]
pub fn unpack(word: u32) -> Control
    requires { word < 2 ^ 18 }
    ensures meaning { result ≡ control_of word }
    ensures in_range { IsControl result }
{
    Control {
        leap_pending: has_bit(word, 0),
        leap_delete: has_bit(word, 1),
        dst_pending: has_bit(word, 2),
        dst: has_bit(word, 3),
        offset_half_hours: offset_half_hours(word),
        quality: bits(word, 10, 4) as u8,
    }
}

fn bit(is_set: bool, number: u32) -> u32
    requires { number < 32 }
    ensures { result ≡ flag is_set * 2 ^ number }
{
    u32::from(is_set) << number
}

fn offset_half_hours(word: u32) -> i8
    ensures offset { result ≡ offset_in word }
    ensures in_range { unsigned_abs result ≤ 31 }
{
    let half_hours = (2 * bits(word, 5, 4) + bits(word, 9, 1)) as i8;
    if has_bit(word, 4) {
        -half_hours
    } else {
        half_hours
    }
}

fn has_bit(word: u32, number: u32) -> bool
    requires { number < 32 }
    ensures { result ≡ has_one word (2 ^ number) }
{
    bits(word, number, 1) == 1
}

/// The number in `width` bits of the word, from the lowest.
fn bits(word: u32, lowest: u32, width: u32) -> u32
    requires lowest { lowest < 32 }
    requires width { width < 32 }
    ensures { result ≡ word / 2 ^ lowest % 2 ^ width }
{
    (word >> lowest) & ((1 << width) - 1)
}
