//! The tally of a whole frame, from the value that it codes: no element of it is written or read.

ghost use Rattle.std.specs.Prelude.{◌≡◌, ◌<◌, ◌^◌};
ghost use Rattle.irig_frame.specs.Decoder.{IsCoded};
ghost use Rattle.irig_frame.specs.Encoder.{frame_of_coded};
ghost use Rattle.irig_control.specs.Parity.{with_parity};
ghost use Rattle.irig_port.specs.Bits.{digit_bits, word_bits, time_number, control_number};
ghost use Rattle.irig_port.specs.Tallies.{IsTallyOf};

use crate::tally::{NO_FAULT, Tally, ones_in};
use irig_control::Parity;
use irig_frame::Coded;

// Element 75 of the frame, IEEE 1344-1995.
const PARITY_BIT: u64 = 1 << 15;

impl Tally {
    /// The tally of one frame: that of a value in range ([`irig_frame::in_range`]) whose parity bit
    /// and last three control bits are 0, with the parity.
    pub fn of_value(coded: &Coded, parity: Parity) -> Tally
        requires value { IsCoded coded.now }
        requires unused { coded.now.control < 2 ^ 14 }
        ensures of_frame { IsTallyOf result (with_parity parity (frame_of_coded coded.now)) }
        ensures whole { result.count ≡ 100 }
    {
        let mut tally = Tally {
            count: 100,
            wrong: NO_FAULT,
            time: time_number(coded),
            control: control_number(coded),
        };
        if ones_in(&tally) % 2 != u32::from(parity.remainder()) {
            tally.control += PARITY_BIT;
        }
        tally
    }
}

// Where the fields begin, IRIG Standard 200-16, format B.
fn time_number(coded: &Coded) -> u64
    requires { IsCoded coded.now }
    ensures { result ≡ time_number coded.now }
{
    2 * two_digits(coded.second)
        + (1 << 10) * two_digits(coded.minute)
        + (1 << 20) * two_digits(coded.hour)
        + (1 << 30) * digit_bits(u32::from(coded.day))
        + (1 << 50) * two_digits(coded.year)
}

fn control_number(coded: &Coded) -> u64
    requires { IsCoded coded.now }
    ensures exact { result ≡ control_number coded.now }
    ensures few { result < 2 ^ 40 }
{
    word_bits(coded.control) + (1 << 20) * word_bits(coded.sbs)
}

fn two_digits(number: u8) -> u64
    requires { number < 100 }
    ensures exact { result ≡ digit_bits number }
    ensures few { result < 2 ^ 9 }
{
    digit_bits(u32::from(number))
}

// The decimal digits, each five bits after the one before, as those of a field stand.
fn digit_bits(number: u32) -> u64
    requires { number < 1000 }
    ensures exact { result ≡ digit_bits number }
    ensures few { result < 2 ^ 14 }
{
    u64::from(number % 10) + 32 * u64::from(number / 10 % 10) + 1024 * u64::from(number / 100)
}

// Nine bits, the place of a marker, and the rest, as the control bits and the seconds stand.
fn word_bits(number: u32) -> u64
    requires { number < 2 ^ 18 }
    ensures exact { result ≡ word_bits number }
    ensures few { result < 2 ^ 19 }
{
    u64::from(number % 512) + 1024 * u64::from(number / 512)
}
