//! Times and seconds, as texts.

ghost use Rattle.std.specs.Prelude.{◌≡◌, ◌++◌, take, string_bytes, OnOk};
ghost use Rattle.std.specs.Str.{IsAscii};
ghost use Rattle.irig_time.specs.TextValues.{second_text};
ghost use Rattle.irig_time.specs.Seconds.{IsValid};
ghost use Rattle.text_frame.specs.Reading.{with_zeros};
ghost use Rattle.report_verdict.specs.NumberText.{instant_text, moment_text, nearest, seconds_text, thousandths_text, utc_text};

use irig_time::{UtcSecond, push_text, write_text};
use record_verdict::{AgreedSecond, is_second};
use report_log::push_number;
use std::alloc::AllocError;
use std::str;

/// Pushes thousandths as a number with three decimals: microseconds as milliseconds.
#[tactic(auto, unfolding(crate::specs::NumberText::thousandths_text))]
pub(crate) fn push_thousandths(text: &mut String, thousandths: u64) -> Result<(), AllocError>
    ensures { OnOk result (string_bytes text.new
        ≡ string_bytes text.old ++ thousandths_text thousandths) }
{
    push_number(text, thousandths / 1_000)?;
    text.push_str(".")?;
    push_three_digits(text, (thousandths % 1_000) as u16)
}

fn push_three_digits(text: &mut String, number: u16) -> Result<(), AllocError>
    ensures { OnOk result (string_bytes text.new
        ≡ string_bytes text.old ++ with_zeros 3 number) }
{
    write!(text, "{number:03}")
}

fn push_six_digits(text: &mut String, number: u32) -> Result<(), AllocError>
    ensures { OnOk result (string_bytes text.new
        ≡ string_bytes text.old ++ with_zeros 6 number) }
{
    write!(text, "{number:06}")
}

/// A number to the nearest thousand. It is added in two parts, since the sum may not fit.
pub(crate) fn nearest(number: u64) -> u64
    ensures { result ≡ nearest number }
{
    number / 1_000 + (number % 1_000 + 500) / 1_000
}

/// Pushes a second, or a dash for what is none.
pub(crate) fn push_utc(text: &mut String, second: &UtcSecond) -> Result<(), AllocError>
    ensures { OnOk result (string_bytes text.new ≡ string_bytes text.old ++ utc_text second.now) }
{
    if is_second(second) {
        push_text(text, second)
    } else {
        text.push_str("-")
    }
}

/// Pushes a second with its microseconds, or a dash for what is none.
pub(crate) fn push_instant(
    text: &mut String,
    second: &UtcSecond,
    since_us: u32,
) -> Result<(), AllocError>
    ensures { OnOk result (string_bytes text.new
        ≡ string_bytes text.old ++ instant_text second.now since_us) }
{
    if !is_second(second) {
        return text.push_str("-");
    }
    push_whole(text, second)?;
    text.push_str(".")?;
    push_six_digits(text, since_us)?;
    text.push_str("Z")
}

// Pushes the text of a second without its last letter.
fn push_whole(text: &mut String, second: &UtcSecond) -> Result<(), AllocError>
    requires { IsValid second.now }
    ensures { OnOk result (string_bytes text.new
        ≡ string_bytes text.old ++ take 19 (second_text second.now)) }
{
    let written = write_text(second);
    let (whole, _) = written.split_at(19);
    text.push_str(as_str(whole))
}

fn as_str(ascii: &[u8]) -> &str
    requires { IsAscii ascii.now }
    ensures { result.now ≡ ascii.now }
{
    str::from_utf8(ascii).unwrap()
}

/// Pushes how many agreed seconds there are, and the first and the last of them.
#[tactic(auto, unfolding(crate::specs::NumberText::seconds_text))]
pub(crate) fn push_seconds(
    text: &mut String,
    count: u64,
    first: &AgreedSecond,
    last: &AgreedSecond,
) -> Result<(), AllocError>
    ensures { OnOk result (string_bytes text.new
        ≡ string_bytes text.old ++ seconds_text count first.now last.now) }
{
    if count == 1 {
        text.push_str("1 second, ")?;
        return push_moment(text, first);
    }
    write!(text, "{count} seconds, ")?;
    push_moment(text, first)?;
    text.push_str(" to ")?;
    push_moment(text, last)
}

/// Pushes an agreed second, and when it ends.
pub(crate) fn push_moment(text: &mut String, second: &AgreedSecond) -> Result<(), AllocError>
    ensures { OnOk result (string_bytes text.new
        ≡ string_bytes text.old ++ moment_text second.now) }
{
    push_utc(text, &second.claim.at)?;
    text.push_str(" at ")?;
    push_thousandths(text, nearest(second.edge_us))?;
    text.push_str(" s")
}
