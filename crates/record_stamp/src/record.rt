//! The stamps of a record, by its configuration.

ghost use Rattle.std.specs.Prelude.{◌≡◌, ◌≤◌, ◌++◌, string_bytes, IfOk, OnOk};
ghost use Rattle.record_comtrade.specs.Reads.{value_of};
ghost use Rattle.record_stamp.specs.Codes.{IsZoneOf, leap_said, quality_of};
ghost use Rattle.record_stamp.specs.Instants.{IsStamp, IsStampOf};
ghost use Rattle.record_stamp.specs.Late.{IsMoment, leaps_of};
ghost use Rattle.record_stamp.specs.Word.{IsWord};
ghost use Rattle.record_stamp.specs.Notes.{record_word_text};
ghost use Rattle.record_stamp.specs.Records.{below, exchanged_of, stamp_of, unjudged_text, word_of, zone_in};

use crate::code::{LeapSaid, leap_said, quality_of, zone_of};
use crate::instant::{Stamp, StampFault};
use crate::late::Moment;
use crate::notes::push_notes;
use crate::stamp::{exchanged, meaning};
use crate::text::{push_stamp_between, push_stamp_fault, push_stamp_word};
use crate::word::{Word, step_ns, word_on};
use irig_time::Leap;
use record_comtrade::Config;
use std::alloc::AllocError;

/// The time of the first sample by a record's configuration, read as that of a zone in minutes ahead of
/// UTC, or else of the record's own time code: or why it is none.
pub fn stamp_of(config: &Config, zone: Option<i16>) -> Result<Stamp, StampFault>
    requires { IsZoneOf zone }
    ensures says { result ≡ stamp_of (value_of config.now) 0 zone }
    ensures stamp { IfOk result IsStamp }
{
    stamp_on(config, 0, zone)
}

/// The time of the trigger, read in the same way.
pub fn trigger_of(config: &Config, zone: Option<i16>) -> Result<Stamp, StampFault>
    requires { IsZoneOf zone }
    ensures says { result ≡ stamp_of (value_of config.now) 1 zone }
    ensures stamp { IfOk result IsStamp }
{
    stamp_on(config, 1, zone)
}

fn stamp_on(config: &Config, line: usize, zone: Option<i16>) -> Result<Stamp, StampFault>
    requires line { line ≤ 1 }
    requires zone { IsZoneOf zone }
    ensures says { result ≡ stamp_of (value_of config.now) line zone }
    ensures stamp { IfOk result IsStamp }
{
    meaning(
        config.counts().edition,
        zone_in(config, zone),
        config.field_below(line, 0),
        config.field_below(line, 1),
    )
}

/// The time of the first sample with its day and month exchanged, if that is another one.
pub fn exchanged_of(config: &Config, zone: Option<i16>) -> Option<Stamp>
    requires { IsZoneOf zone }
    ensures says { result ≡ exchanged_of (value_of config.now) zone }
    ensures stamp { IsStampOf result }
{
    exchanged(
        config.counts().edition,
        zone_in(config, zone),
        config.field_below(0, 0),
        config.field_below(0, 1),
    )
}

fn zone_in(config: &Config, zone: Option<i16>) -> Option<i16>
    requires { IsZoneOf zone }
    ensures says { result ≡ zone_in (value_of config.now) zone }
    ensures range { IsZoneOf result }
{
    match zone {
        Some(minutes) => Some(minutes),
        None => zone_of(config.field_below(4, 0)),
    }
}

/// How good the recorder's time was, by the code of the record, if it has one ([`quality_of`]).
pub fn quality_in(config: &Config) -> Option<u8>
    ensures { result ≡ quality_of (below (value_of config.now) 5 0) }
{
    quality_of(config.field_below(5, 0))
}

/// What the record says of leap seconds, if it says anything.
pub fn leap_in(config: &Config) -> Option<LeapSaid>
    ensures { result ≡ leap_said (below (value_of config.now) 5 1) }
{
    leap_said(config.field_below(5, 1))
}

/// The word on the stamp of a record, where the lines tell when its first sample was; or why the stamp is no
/// time. A zone that is given goes before the record's own. A leap may be known of a day.
pub fn word_of(
    config: &Config,
    zone: Option<i16>,
    leap: Option<(u32, Leap)>,
    truth: Moment,
) -> Result<Word, StampFault>
    requires zone { IsZoneOf zone }
    requires truth { IsMoment truth }
    ensures says { result ≡ word_of (value_of config.now) zone (leaps_of leap) truth }
    ensures word { IfOk result IsWord }
{
    match stamp_of(config, zone) {
        Ok(stamp) => {
            let exchanged = exchanged_of(config, zone);
            let step_ns = step_ns(config.rates());
            Ok(word_on(leap, stamp, exchanged, truth, step_ns))
        }
        Err(fault) => Err(fault),
    }
}

/// Adds the lines of that word, and beside it by which zone the stamp is read, when the trigger was, and what the
/// record says of its clock; or why the stamp is no time. It fails only if there is no memory.
pub fn push_record_word(
    text: &mut String,
    config: &Config,
    zone: Option<i16>,
    leap: Option<(u32, Leap)>,
    truth: Moment,
) -> Result<(), AllocError>
    requires zone { IsZoneOf zone }
    requires truth { IsMoment truth }
    ensures { OnOk result (string_bytes text.new ≡ string_bytes text.old
        ++ record_word_text (value_of config.now) zone (leaps_of leap) truth) }
{
    let (date, clock) = (config.field_below(0, 0), config.field_below(0, 1));
    match word_of(config, zone, leap, truth) {
        Ok(word) => {
            push_stamp_word(text, &word, date, clock, truth)?;
            push_notes(text, config, zone, truth)
        }
        Err(fault) => push_stamp_fault(text, fault, date, clock),
    }
}

/// Adds the line that the stamp of a record is not judged, where the lines do not tell when its
/// first sample was. It fails only if there is no memory.
#[tactic(auto, unfolding(crate::specs::Records::unjudged_text))]
pub fn push_unjudged(text: &mut String, config: &Config) -> Result<(), AllocError>
    ensures { OnOk result (string_bytes text.new ≡ string_bytes text.old
        ++ unjudged_text (value_of config.now)) }
{
    push_stamp_between(
        text,
        "the stamp ",
        config.field_below(0, 0),
        config.field_below(0, 1),
        " is not judged: the lines do not tell when sample 1 was\n",
    )
}
