//! What is said of the stamp of a record.

ghost use Rattle.std.specs.Prelude.{◌≡◌, ◌++◌, string_bytes, IfOk, IfSome, OnOk};
ghost use Rattle.record_comtrade.specs.Reads.{value_of};
ghost use Rattle.record_stamp.specs.Codes.{IsZoneOf};
ghost use Rattle.record_stamp.specs.Late.{IsMoment};
ghost use Rattle.record_stamp.specs.Instants.{IsStamp};
ghost use Rattle.report_judge.specs.Stamps.{agrees_text, json_late, json_stamp, json_stamp_text, json_utc, json_utc_of, json_word, moment_of, said_of_stamp, sign_text, stamp_lines, word_known};

use crate::asked::Asked;
use record_comtrade::Config;
use record_stamp::{
    Moment, Stamp, StampFault, Word, push_moment, push_record_word, push_unjudged, stamp_of,
    word_of,
};
use record_verdict::{Zero, is_second};
use report_verdict::push_json_part;
use std::alloc::{AllocError, Global};

/// What is said beside a verdict of the stamp of a record, whose first sample was then, if lines
/// tell it: lines, or a further key of an object.
pub(crate) fn said_of_stamp(
    alloc: Global,
    config: &Config,
    asked: &Asked<'_>,
    zero: Option<Zero>,
) -> Result<String, AllocError>
    requires { IsZoneOf asked.now.zone }
    ensures { IfOk result (λ text. string_bytes text
        ≡ said_of_stamp asked.now.as_json (value_of config.now) asked.now.zone zero) }
{
    let truth = moment_of(zero);
    let mut text = String::new(alloc);
    if asked.as_json {
        push_json_stamp(&mut text, config, asked.zone, truth)?;
    } else {
        push_stamp_lines(&mut text, config, asked.zone, truth)?;
    }
    Ok(text)
}

// The moment at which a recording begins, if it is known.
fn moment_of(zero: Option<Zero>) -> Option<Moment>
    ensures moment { result ≡ moment_of zero }
    ensures valid { IfSome result IsMoment }
{
    match zero {
        Some(Zero::At { second, since_us }) if is_second(&second) && since_us < 1_000_000 => {
            Some(Moment {
                at: second,
                nanoseconds: since_us * 1_000,
            })
        }
        _ => None,
    }
}

fn push_stamp_lines(
    text: &mut String,
    config: &Config,
    zone: Option<i16>,
    truth: Option<Moment>,
) -> Result<(), AllocError>
    requires zone { IsZoneOf zone }
    requires truth { IfSome truth IsMoment }
    ensures { OnOk result (string_bytes text.new
        ≡ string_bytes text.old ++ stamp_lines (value_of config.now) zone truth) }
{
    match truth {
        Some(truth) => push_record_word(text, config, zone, None, truth),
        None => push_unjudged(text, config),
    }
}

// The key of the stamp.
#[tactic(auto, unfolding(crate::specs::Stamps::json_stamp))]
fn push_json_stamp(
    text: &mut String,
    config: &Config,
    zone: Option<i16>,
    truth: Option<Moment>,
) -> Result<(), AllocError>
    requires zone { IsZoneOf zone }
    requires truth { IfSome truth IsMoment }
    ensures { OnOk result (string_bytes text.new
        ≡ string_bytes text.old ++ json_stamp (value_of config.now) zone truth) }
{
    push_json_text(text, config.field_below(0, 0), config.field_below(0, 1))?;
    push_json_utc(text, stamp_of(config, zone))?;
    push_json_word(text, word_known(config, zone, truth))
}

// The stamp as it stands.
#[tactic(auto, unfolding(crate::specs::Stamps::json_stamp_text))]
fn push_json_text(text: &mut String, date: &[u8], clock: &[u8]) -> Result<(), AllocError>
    ensures { OnOk result (string_bytes text.new
        ≡ string_bytes text.old ++ json_stamp_text date.now clock.now) }
{
    text.push_str(",\"stamp\":{\"text\":\"")?;
    push_json_part(text, date)?;
    text.push_str(",")?;
    push_json_part(text, clock)?;
    text.push_str("\"")
}

// The time that it says, if it is one.
fn push_json_utc(text: &mut String, stamp: Result<Stamp, StampFault>) -> Result<(), AllocError>
    requires { IfOk stamp IsStamp }
    ensures { OnOk result (string_bytes text.new ≡ string_bytes text.old ++ json_utc_of stamp) }
{
    match stamp {
        Ok(stamp) => push_json_moment(
            text,
            Moment {
                at: stamp.at,
                nanoseconds: stamp.nanoseconds,
            },
        ),
        Err(_) => text.push_str(",\"utc\":null"),
    }
}

#[tactic(auto, unfolding(crate::specs::Stamps::json_utc))]
fn push_json_moment(text: &mut String, moment: Moment) -> Result<(), AllocError>
    requires { IsMoment moment }
    ensures { OnOk result (string_bytes text.new ≡ string_bytes text.old ++ json_utc moment) }
{
    text.push_str(",\"utc\":\"")?;
    push_moment(text, moment)?;
    text.push_str("\"")
}

// The word on it, if it is a time and the lines tell one.
fn word_known(config: &Config, zone: Option<i16>, truth: Option<Moment>) -> Option<Word>
    requires zone { IsZoneOf zone }
    requires truth { IfSome truth IsMoment }
    ensures { result ≡ word_known (value_of config.now) zone truth }
{
    match truth {
        Some(truth) => word_of(config, zone, None, truth).ok(),
        None => None,
    }
}

fn push_json_word(text: &mut String, word: Option<Word>) -> Result<(), AllocError>
    ensures { OnOk result (string_bytes text.new ≡ string_bytes text.old ++ json_word word) }
{
    match word {
        Some(word) => {
            let us = word.late_ns.unsigned_abs() / 1_000;
            push_json_late(text, word.late_ns < -999, us, word.agrees())
        }
        None => text.push_str(",\"late_us\":null,\"agrees\":null}"),
    }
}

// By how much it is early or late, and whether it agrees.
#[tactic(auto, unfolding(crate::specs::Stamps::json_late))]
fn push_json_late(
    text: &mut String,
    is_early: bool,
    us: u64,
    agrees: bool,
) -> Result<(), AllocError>
    ensures { OnOk result (string_bytes text.new
        ≡ string_bytes text.old ++ json_late is_early us agrees) }
{
    let sign = sign_text(is_early);
    let end = agrees_text(agrees);
    write!(text, ",\"late_us\":{sign}{us}{end}")
}

#[tactic(auto, unfolding(crate::specs::Stamps::sign_text))]
fn sign_text(is_early: bool) -> &'static str
    ensures { result.now ≡ sign_text is_early }
{
    if is_early { "-" } else { "" }
}

#[tactic(auto, unfolding(crate::specs::Stamps::agrees_text))]
fn agrees_text(agrees: bool) -> &'static str
    ensures { result.now ≡ agrees_text agrees }
{
    if agrees {
        ",\"agrees\":true}"
    } else {
        ",\"agrees\":false}"
    }
}
