//! Whether what is seen of a line fits seconds.

ghost use Rattle.std.specs.Prelude.{◌≡◌, ◌≤◌, ◌<◌, length, unsigned_abs, IfSome, Some};
ghost use Rattle.irig_control.specs.Control.{IsControl};
ghost use Rattle.irig_time.specs.Seconds.{IsValid};
ghost use Rattle.record_short.specs.Fits.{control_sent, element_fits, fits, frame_sent, is_free, is_left_out, is_silent, is_blank, is_spare, offset_sent, row_fits, row_of, second_fits, all_fit, before_fit, after_fit, zone_at};
ghost use Rattle.record_short.specs.Searches.{AreServed};

use crate::second::Five;
use irig_control::{Control, Parity};
use irig_frame::Symbol;
use irig_time::{Rules, SbsUse, Sense, UtcSecond, frame_of_second};

/// Zones from 12 h behind UTC to 14 h ahead, by half hours.
const ZONES: u8 = 53;

/// Whether what is shown of five seconds fits these, in one of the zones.
pub(crate) fn fits(rules: Rules, shown: &[Symbol], five: &Five) -> bool
    requires shown { length shown.now ≡ 500 }
    requires valid { AreServed five.now }
    ensures { result ≡ fits rules shown.now five.now }
{
    for number in 0..ZONES {
        if fits_in(rules, number, shown, five) {
            return true;
        }
    }
    false
}

// In the zone of a number.
fn fits_in(rules: Rules, number: u8, shown: &[Symbol], five: &Five) -> bool
    requires number { number < 53 }
    requires shown { length shown.now ≡ 500 }
    requires valid { AreServed five.now }
    ensures { result ≡ all_fit rules (zone_at number) shown.now five.now }
{
    all_fit(rules, zone_at(number), shown, five)
}

fn zone_at(number: u8) -> i8
    requires { number < 53 }
    ensures zone { result ≡ zone_at number }
    ensures range { unsigned_abs result ≤ 28 }
{
    number as i8 - 24
}

fn all_fit(rules: Rules, zone: i8, shown: &[Symbol], five: &Five) -> bool
    requires zone { unsigned_abs zone ≤ 28 }
    requires shown { length shown.now ≡ 500 }
    requires valid { AreServed five.now }
    ensures { result ≡ all_fit rules zone shown.now five.now }
{
    before_fit(rules, zone, shown, five)
        && fits_at(rules, zone, shown, 2, five.here)
        && after_fit(rules, zone, shown, five)
}

fn before_fit(rules: Rules, zone: i8, shown: &[Symbol], five: &Five) -> bool
    requires zone { unsigned_abs zone ≤ 28 }
    requires shown { length shown.now ≡ 500 }
    requires valid { AreServed five.now }
    ensures { result ≡ before_fit rules zone shown.now five.now }
{
    fits_at(rules, zone, shown, 0, five.two_before) && fits_at(rules, zone, shown, 1, five.before)
}

fn after_fit(rules: Rules, zone: i8, shown: &[Symbol], five: &Five) -> bool
    requires zone { unsigned_abs zone ≤ 28 }
    requires shown { length shown.now ≡ 500 }
    requires valid { AreServed five.now }
    ensures { result ≡ after_fit rules zone shown.now five.now }
{
    fits_at(rules, zone, shown, 3, five.after) && fits_at(rules, zone, shown, 4, five.two_after)
}

fn fits_at(rules: Rules, zone: i8, shown: &[Symbol], at: usize, second: Option<UtcSecond>) -> bool
    requires zone { unsigned_abs zone ≤ 28 }
    requires shown { length shown.now ≡ 500 }
    requires at { at < 5 }
    requires valid { IfSome second IsValid }
    ensures { result ≡ second_fits rules zone (row_of at shown.now) second }
{
    second_fits(rules, zone, row_of(shown, at), second)
}

#[tactic(auto, unfolding(crate::specs::Fits::row_of))]
fn row_of(shown: &[Symbol], second: usize) -> &[Symbol]
    requires shown { length shown.now ≡ 500 }
    requires second { second < 5 }
    ensures row { result.now ≡ row_of second shown.now }
    ensures length { length result.now ≡ 100 }
{
    &shown[100 * second..100 * second + 100]
}

fn second_fits(rules: Rules, zone: i8, shown: &[Symbol], second: Option<UtcSecond>) -> bool
    requires zone { unsigned_abs zone ≤ 28 }
    requires shown { length shown.now ≡ 100 }
    requires valid { IfSome second IsValid }
    ensures { result ≡ second_fits rules zone shown.now second }
{
    match second {
        Some(second) => served_fits(rules, zone, shown, &second),
        None => false,
    }
}

// Most of what a second sends was not seen of most seconds, so that is asked first.
fn served_fits(rules: Rules, zone: i8, shown: &[Symbol], second: &UtcSecond) -> bool
    requires zone { unsigned_abs zone ≤ 28 }
    requires shown { length shown.now ≡ 100 }
    requires valid { IsValid second.now }
    ensures { result ≡ second_fits rules zone shown.now (Some second.now) }
{
    if is_blank(shown) {
        return true;
    }
    let frame = frame_sent(rules.sense, zone, second);
    row_fits(rules.sbs, shown, &frame)
}

fn is_blank(shown: &[Symbol]) -> bool
    ensures { result ≡ is_blank shown.now }
{
    for symbol in shown {
        if *symbol != Symbol::Bad {
            return false;
        }
    }
    true
}

fn frame_sent(sense: Sense, zone: i8, second: &UtcSecond) -> [Symbol; 100]
    requires zone { unsigned_abs zone ≤ 28 }
    requires valid { IsValid second.now }
    ensures { result ≡ frame_sent sense zone second.now }
{
    frame_of_second(Parity::Even, second, zone, &control_sent(sense, zone))
}

fn control_sent(sense: Sense, zone: i8) -> Control
    requires { unsigned_abs zone ≤ 28 }
    ensures control { result ≡ control_sent sense zone }
    ensures in_range { IsControl result }
{
    Control {
        leap_pending: false,
        leap_delete: false,
        dst_pending: false,
        dst: false,
        offset_half_hours: offset_sent(sense, zone),
        quality: 0,
    }
}

fn offset_sent(sense: Sense, zone: i8) -> i8
    requires { unsigned_abs zone ≤ 28 }
    ensures offset { result ≡ offset_sent sense zone }
    ensures range { unsigned_abs result ≤ 28 }
{
    match sense {
        Sense::Add => -zone,
        Sense::Subtract => zone,
    }
}

fn row_fits(sbs: SbsUse, shown: &[Symbol], frame: &[Symbol]) -> bool
    requires shown { length shown.now ≡ 100 }
    requires frame { length frame.now ≡ 100 }
    ensures { result ≡ row_fits sbs 0 shown.now frame.now }
{
    for place in 0..100 {
        if !element_fits(sbs, place, shown[place], frame[place]) {
            return false;
        }
    }
    true
}

fn element_fits(sbs: SbsUse, place: usize, shown: Symbol, sent: Symbol) -> bool
    ensures { result ≡ element_fits sbs place shown sent }
{
    shown == Symbol::Bad || shown == sent || is_silent(sbs, place)
}

fn is_silent(sbs: SbsUse, place: usize) -> bool
    ensures { result ≡ is_silent sbs place }
{
    is_free(place) || is_left_out(sbs, place)
}

fn is_free(place: usize) -> bool
    ensures { result ≡ is_free place }
{
    is_spare(place) || (60 <= place && place <= 63) || (71 <= place && place <= 78)
}

fn is_spare(place: usize) -> bool
    ensures { result ≡ is_spare place }
{
    place == 5
        || place == 14
        || place == 18
        || place == 24
        || place == 27
        || place == 28
        || place == 34
        || (42 <= place && place <= 48)
        || place == 54
        || place == 98
}

fn is_left_out(sbs: SbsUse, place: usize) -> bool
    ensures { result ≡ is_left_out sbs place }
{
    match sbs {
        SbsUse::Check => false,
        SbsUse::Ignore => 80 <= place && place <= 97 && place != 89,
    }
}
