//! The rate of samples.

ghost use Rattle.std.specs.Prelude.{◌≡◌, ◌≤◌, length};
ghost use Rattle.record_cells.specs.Rates.{factor_of, number_in, rate_by, rate_of};

use record_text::{millionths_of, trimmed};

/// The rate that a text says, as `1 MHz`, in millionths of a sample a second.
pub fn rate_of(text: &[u8]) -> Option<u128>
    ensures { result ≡ rate_of text.now }
{
    let (number, unit) = text.split_at(number_in(text));
    rate_by(millionths_of(number), factor_of(trimmed(unit)))
}

fn rate_by(millionths: Option<u64>, factor: Option<u64>) -> Option<u128>
    ensures { result ≡ rate_by millionths factor }
{
    match (millionths, factor) {
        (Some(millionths), Some(factor)) if millionths > 0 => {
            Some(u128::from(millionths) * u128::from(factor))
        }
        _ => None,
    }
}

// How many digits and points a text begins with.
fn number_in(text: &[u8]) -> usize
    ensures count { result ≡ number_in text.now }
    ensures within { result ≤ length text.now }
{
    for (at, byte) in text.iter().enumerate() {
        if !byte.is_ascii_digit() && *byte != b'.' {
            return at;
        }
    }
    text.len()
}

fn factor_of(unit: &[u8]) -> Option<u64>
    ensures { result ≡ factor_of unit.now }
{
    if unit.is_empty() || unit.eq_ignore_ascii_case(b"Hz") {
        Some(1)
    } else if unit.eq_ignore_ascii_case(b"kHz") {
        Some(1_000)
    } else if unit.eq_ignore_ascii_case(b"MHz") {
        Some(1_000_000)
    } else if unit.eq_ignore_ascii_case(b"GHz") {
        Some(1_000_000_000)
    } else {
        None
    }
}
