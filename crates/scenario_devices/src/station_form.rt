//! The forms of the lines after a plant line of version 4, as tables: which keys stand in each, and
//! what may stand at a key.

ghost use Rattle.std.specs.Prelude.{◌≡◌, map, option_map};
ghost use Rattle.serde_json.specs.View.{view};
ghost use Rattle.scenario_json.specs.Keys.{key_value};
ghost use Rattle.scenario_devices.specs.StationForms.{station_action_named, station_keys_of, station_action_of};

use crate::station_shape::MOST_LATE;
use scenario_json::{Key, Kind, key, text_at};
use scenario_values::{DO, FaultKind, G, N, R, WIDTH, fault_in, fault_keys_of};
use serde_json::Value;

/// What a line asks for, by its `do`.
#[derive(Clone, Copy)]
pub(crate) enum StationAction {
    /// Time passes.
    Pass,
    /// Whole seconds of time pass.
    Seconds,
    /// A generator has a fault from now on.
    Fault(FaultKind),
    /// A generator has no fault from now on.
    Repair,
    /// A cable is out from now on.
    Pull,
    /// A cable is in from now on.
    Plug,
    /// A line is so late from now on.
    Late,
    /// A pulse rises on a line.
    Pulse,
    /// A device is ticked.
    Tick,
    /// A device begins anew.
    Restart,
    /// A device is asked for a stamp.
    Stamp,
}

/// The words of `do`.
pub const STATION_ACTION_WORDS: [&str; 11] = [
    "pass", "seconds", "fault", "repair", "pull", "plug", "late", "pulse", "tick", "restart",
    "stamp",
];

fn station_action_named(word: &str) -> Option<StationAction>
    ensures { result ≡ station_action_named word.now }
{
    match word {
        "pass" => Some(StationAction::Pass),
        "seconds" => Some(StationAction::Seconds),
        "repair" => Some(StationAction::Repair),
        "pull" => Some(StationAction::Pull),
        "plug" => Some(StationAction::Plug),
        "late" => Some(StationAction::Late),
        "pulse" => Some(StationAction::Pulse),
        "tick" => Some(StationAction::Tick),
        "restart" => Some(StationAction::Restart),
        "stamp" => Some(StationAction::Stamp),
        _ => None,
    }
}

/// `us` of `pass`: how many microseconds pass, 1 to 10^9.
pub(crate) const PASSING_US: Key = key!("us": Kind::Natural(1, 1_000_000_000));

/// `us` of `late`: how many microseconds late a line is, 0 to 1999.
pub(crate) const LATENESS_US: Key = key!("us": Kind::Natural(0, MOST_LATE as u64));

/// `ago`: how many microseconds ago the instant of a stamp was, 0 to 4,000,000.
pub(crate) const AGO: Key = key!("ago": Kind::Natural(0, 4_000_000));

/// The keys of a line that asks for this, each of which has to be there, and no other.
pub(crate) fn station_keys_of(action: StationAction) -> &'static [Key]
    ensures { map key_value result.now ≡ station_keys_of action }
{
    match action {
        StationAction::Pass => &[DO, PASSING_US],
        StationAction::Seconds => &[DO, N],
        StationAction::Fault(kind) => fault_keys_of(kind),
        StationAction::Repair => &[DO, G],
        StationAction::Pull | StationAction::Plug => &[DO, G, R],
        StationAction::Late => &[DO, G, R, LATENESS_US],
        StationAction::Pulse => &[DO, G, R, WIDTH],
        StationAction::Tick | StationAction::Restart => &[DO, R],
        StationAction::Stamp => &[DO, R, AGO],
    }
}

/// The keys of the line that has this value, each of which has to be there, and no other; none if its
/// `do` or, of a fault, its `kind` is no word of docs/SCENARIOS.md.
pub fn station_event_keys(value: &Value) -> Option<&'static [Key]>
    ensures { option_map (λ keys. map key_value keys.now) result
        ≡ option_map station_keys_of (station_action_of (view value.now)) }
{
    Some(station_keys_of(station_action_of(value)?))
}

/// What a line asks for, by its `do` and, of a fault, its `kind`; none of other words.
#[tactic(auto, unfolding(crate::specs::StationForms::station_action_of))]
pub(crate) fn station_action_of(value: &Value) -> Option<StationAction>
    ensures { result ≡ station_action_of (view value.now) }
{
    match text_at(value, DO.name)? {
        "fault" => Some(StationAction::Fault(fault_in(value)?)),
        word => station_action_named(word),
    }
}
