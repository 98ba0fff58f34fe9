//! Whole numbers.

ghost use Rattle.std.specs.Prelude.{◌≡◌};
ghost use Rattle.record_text.specs.Numbers.{number};

/// The number that decimal digits spell, at least one of them and nothing else, if it is below 2^64.
pub fn number_of(digits: &[u8]) -> Option<u64>
    ensures { result ≡ number digits.now }
{
    if digits.is_empty() {
        return None;
    }
    let mut number = 0u64;
    for digit in digits {
        if !digit.is_ascii_digit() {
            return None;
        }
        number = match number.checked_mul(10) {
            Some(tens) => match tens.checked_add(u64::from(*digit - b'0')) {
                Some(sum) => sum,
                None => return None,
            },
            None => return None,
        };
    }
    Some(number)
}
