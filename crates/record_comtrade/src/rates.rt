//! Rates of samples.

ghost use Rattle.std.specs.Prelude.{◌≡◌, ◌+◌, ◌≤◌, ◌<◌, [], ◌∷◌, ◌++◌, length, IfOk, IfErr, IfSome, Ok};
ghost use Rattle.record_comtrade.specs.Texts.{texts_of};
ghost use Rattle.record_comtrade.specs.Reads.{FaultFits};
ghost use Rattle.record_comtrade.specs.Configs.{at_least, has_slash, rate_at, rate_lines, rate_lines_by, rates_from, sample_of};

use crate::counts::{at_most, line_at, missing};
use crate::fault::{ConfigFault, Fault, Field};
use crate::parts::Rate;
use crate::text::Text;
use record_text::{field_of, millionths_of, number_of};
use std::alloc::{AllocError, Global};

/// How many lines of rates follow the line at a place, which has their number.
pub(crate) fn rate_lines(lines: &[Text], place: usize) -> Result<u64, Fault>
    requires { place < 4000000 }
    ensures says { result ≡ rate_lines (texts_of lines.now) place }
    ensures few { IfOk result (λ count. count ≤ 999) }
{
    let Some(line) = line_at(lines, place) else {
        return Err(missing(lines));
    };
    let Some(count) = at_most(999, number_of(field_of(line, 0))) else {
        return Err(Fault::at(place, Field::RateCount));
    };
    let Some(next) = line_at(lines, place + 1) else {
        return Err(missing(lines));
    };
    Ok(rate_lines_by(count, next))
}

fn rate_lines_by(count: u64, line: &[u8]) -> u64
    requires { count ≤ 999 }
    ensures says { result ≡ rate_lines_by count line.now }
    ensures few { result ≤ 999 }
{
    if count > 0 {
        count
    } else if has_slash(field_of(line, 0)) {
        0
    } else {
        1
    }
}

fn has_slash(text: &[u8]) -> bool
    ensures { result ≡ has_slash text.now }
{
    for byte in text {
        if *byte == b'/' {
            return true;
        }
    }
    false
}

/// So many rates from the line at a place on.
pub(crate) fn rates_of(
    alloc: Global,
    lines: &[Text],
    place: usize,
    count: u64,
) -> Result<Vec<Rate>, ConfigFault>
    requires place { place < 4000000 }
    requires few { count ≤ 999 }
    ensures says { IfOk result (λ rates.
        rates_from (texts_of lines.now) place 0 [] count ≡ Ok rates.items) }
    ensures few { IfOk result (λ rates. length rates.items ≤ 999) }
    ensures refuses { IfErr result (λ fault.
        FaultFits fault (rates_from (texts_of lines.now) place 0 [] count)) }
{
    let mut rates = Vec::new(alloc);
    let mut least = 0;
    for at in 0..count {
        let rate = match rate_at(lines, place + at as usize, least) {
            Ok(rate) => rate,
            Err(fault) => return Err(ConfigFault::Refused(fault)),
        };
        least = rate.last + 1;
        add(&mut rates, rate)?;
    }
    Ok(rates)
}

fn add(rates: &mut Vec<Rate>, rate: Rate) -> Result<(), AllocError>
    ensures { IfOk result (λ _. rates.new.items ≡ rates.old.items ++ rate ∷ []) }
{
    rates.push(rate)?;
    Ok(())
}

// The rate of the line at a place, whose last sample is not below the least.
fn rate_at(lines: &[Text], place: usize, least: u64) -> Result<Rate, Fault>
    requires { place < 5000000 }
    ensures says { result ≡ rate_at (texts_of lines.now) place least }
    ensures few { IfOk result (λ rate. rate.last ≤ 9999999999) }
{
    let Some(line) = line_at(lines, place) else {
        return Err(missing(lines));
    };
    let Some(millionths) = millionths_of(field_of(line, 0)) else {
        return Err(Fault::at(place, Field::Rate));
    };
    let Some(last) = sample_of(least, field_of(line, 1)) else {
        return Err(Fault::at(place, Field::LastSample));
    };
    Ok(Rate { last, millionths })
}

fn sample_of(least: u64, text: &[u8]) -> Option<u64>
    ensures says { result ≡ sample_of least text.now }
    ensures few { IfSome result (λ last. last ≤ 9999999999) }
{
    match number_of(text) {
        Some(last) if last <= 9_999_999_999 && least <= last => Some(last),
        _ => None,
    }
}
