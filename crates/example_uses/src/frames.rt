//! Uses of `irig_frame`.

ghost use Rattle.std.specs.Prelude.{◌≡◌, IfSome, true};
ghost use Rattle.irig_frame.specs.declared.coded.Coded.{Coded};
ghost use Rattle.irig_frame.specs.Decoder.{IsCoded, Reads};

use irig_frame::{Coded, Symbol, decode, encode};

/// The hour, minute and second that a frame codes, if it codes any.
pub fn time_of_day(frame: &[Symbol]) -> Option<(u8, u8, u8)>
    ensures { IfSome result (λ time. (coded : Coded) × Reads frame.now coded
        × (time ≡ (coded.hour, coded.minute, coded.second))) }
{
    match decode(frame) {
        Ok(coded) => Some((coded.hour, coded.minute, coded.second)),
        Err(_) => None,
    }
}

/// A coded time comes back from its own frame.
pub fn comes_back(coded: &Coded) -> bool
    requires { IsCoded coded.now }
    ensures { result ≡ true }
{
    decode(&encode(coded)) == Ok(*coded)
}

/// The frame of a second within the same minute: all else as it was.
pub fn with_second(frame: &[Symbol], second: u8) -> Option<[Symbol; 100]>
    ensures { IfSome result (λ other. (coded : Coded) × Reads frame.now coded
        × Reads other (record coded { second = second })) }
{
    match decode(frame) {
        Ok(coded) if second < 61 => Some(encode(&Coded { second, ..coded })),
        _ => None,
    }
}
