//! Decimal numbers as whole ones.

ghost use Rattle.std.specs.Prelude.{◌≡◌, ◌*◌, ◌/◌, ◌^◌, ◌≤◌, ◌<◌, IfSome};
ghost use Rattle.record_cells.specs.Scales.{below, scaled};

/// A number times 10 to the power of `up`, divided by 10 to the power of `down` and rounded down, if
/// that is below an end.
pub fn scaled_below(end: u64, number: u64, up: u64, down: u64) -> Option<u64>
    requires { end ≤ 1000000000000000000 }
    ensures scaled { result ≡ below end (scaled number up down) }
    ensures few { IfSome result (λ number. number < end) }
{
    if down <= up {
        raised(end, number, up - down)
    } else {
        below(end, lowered(number, down - up))
    }
}

fn below(end: u64, number: u64) -> Option<u64>
    ensures below { result ≡ below end number }
    ensures few { IfSome result (λ number. number < end) }
{
    if number < end { Some(number) } else { None }
}

fn raised(end: u64, number: u64, power: u64) -> Option<u64>
    requires { end ≤ 1000000000000000000 }
    ensures raised { result ≡ below end (number * 10 ^ power) }
    ensures few { IfSome result (λ number. number < end) }
{
    let mut number = number;
    for _place in 0..power {
        if number >= end {
            return None;
        }
        number *= 10;
    }
    below(end, number)
}

fn lowered(number: u64, power: u64) -> u64
    ensures { result ≡ number / 10 ^ power }
{
    let mut number = number;
    for _place in 0..power {
        number /= 10;
    }
    number
}
