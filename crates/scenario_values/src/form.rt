//! The forms of the lines after the plant line, as tables: which keys stand in each, and what may
//! stand at a key. docs/SCENARIOS.md has them.

ghost use Rattle.std.specs.Prelude.{◌≡◌, map, option_map};
ghost use Rattle.serde_json.specs.View.{view};
ghost use Rattle.scenario_json.specs.Keys.{key_value};
ghost use Rattle.scenario_values.specs.Forms.{action_named, fault_named, keys_of, fault_keys_of, action_of, fault_in, fault_action};

use scenario_json::{Key, Kind, Text, key, text_at};
use serde_json::Value;

/// What a line asks for, by its `do`.
#[derive(Clone, Copy)]
pub enum Action {
    /// A frame of a generator comes to a reader.
    Carry,
    /// A reader has an edge.
    Tick,
    /// A generator goes to its next edge.
    Step,
    /// Whole seconds of the plant.
    Seconds,
    /// A frame comes with one pulse of another width.
    Damage,
    /// A frame of another edge comes to a reader.
    Replay,
    /// Pulses of any widths come to a reader.
    Raw,
    /// A generator has a fault from now on.
    Fault(FaultKind),
    /// A generator has no fault from now on.
    Repair,
    /// A reader begins anew.
    Restart,
}

/// Which fault a generator has, by the `kind` of its line.
#[derive(Clone, Copy)]
pub enum FaultKind {
    /// It sends nothing.
    Silent,
    /// It sends the frame of one edge again and again.
    Stuck,
    /// Its time is some edges ahead or behind.
    Skew,
    /// It says nothing of a pending leap second.
    NoPending,
    /// It says that a leap second is pending.
    FalsePending,
    /// It sends another time quality.
    Quality,
    /// Its offset is some half hours too far.
    WrongOffset,
}

/// The words of `do`.
pub const ACTION_WORDS: [&str; 10] = [
    "step", "tick", "carry", "damage", "replay", "raw", "fault", "repair", "restart", "seconds",
];

/// The words of `kind` in the line of a fault.
pub const FAULT_WORDS: [&str; 7] = [
    "silent",
    "stuck",
    "skew",
    "no_pending",
    "false_pending",
    "quality",
    "wrong_offset",
];

fn action_named(word: &str) -> Option<Action>
    ensures { result ≡ action_named word.now }
{
    match word {
        "carry" => Some(Action::Carry),
        "tick" => Some(Action::Tick),
        "step" => Some(Action::Step),
        "seconds" => Some(Action::Seconds),
        "damage" => Some(Action::Damage),
        "replay" => Some(Action::Replay),
        "raw" => Some(Action::Raw),
        "repair" => Some(Action::Repair),
        "restart" => Some(Action::Restart),
        _ => None,
    }
}

fn fault_named(word: &str) -> Option<FaultKind>
    ensures { result ≡ fault_named word.now }
{
    match word {
        "silent" => Some(FaultKind::Silent),
        "stuck" => Some(FaultKind::Stuck),
        "skew" => Some(FaultKind::Skew),
        "no_pending" => Some(FaultKind::NoPending),
        "false_pending" => Some(FaultKind::FalsePending),
        "quality" => Some(FaultKind::Quality),
        "wrong_offset" => Some(FaultKind::WrongOffset),
        _ => None,
    }
}

/// `do`: what happens, by its word.
pub const DO: Key = key!("do": Kind::Text(Text::Any));

const KIND: Key = key!("kind": Kind::Text(Text::Any));

/// `g`: a generator's number, 0 to 255.
pub const G: Key = key!("g": Kind::Natural(0, 255));

/// `r`: a reader's name.
pub const R: Key = key!("r": Kind::Text(Text::Reader));

/// `at`: an element of a frame, 0 to 99.
pub const AT: Key = key!("at": Kind::Natural(0, 99));

/// `width`: of a pulse, in microseconds.
pub const WIDTH: Key = key!("width": Kind::Natural(0, u32::MAX as u64));

/// `widths`: of at most 1,000 pulses, in microseconds.
pub const WIDTHS: Key = key!("widths": Kind::Naturals(1000, u32::MAX));

/// `edge`: an edge of a generator.
pub const EDGE: Key = key!("edge": Kind::Natural(0, u64::MAX));

/// `n`: how many seconds, 0 to 100,000.
pub const N: Key = key!("n": Kind::Natural(0, 100000));

/// `by`: how many edges ahead, or with a negative number behind.
pub const EDGES_BY: Key = key!("by": Kind::Integer(i32::MIN, i32::MAX));

/// `by`: how many half hours an offset is too far, -62 to 62.
pub const HALF_HOURS_BY: Key = key!("by": Kind::Integer(-62, 62));

/// `leap`: `insert` or `delete`.
pub const LEAP: Key = key!("leap": Kind::Text(Text::Leap));

/// `q`: a time quality, 0 to 15.
pub const Q: Key = key!("q": Kind::Natural(0, 15));

/// The keys of a line that asks for this, each of which has to be there, and no other.
pub fn keys_of(action: Action) -> &'static [Key]
    ensures { map key_value result.now ≡ keys_of action }
{
    match action {
        Action::Carry => &[DO, G, R],
        Action::Tick => &[DO, R],
        Action::Step => &[DO, G],
        Action::Seconds => &[DO, N],
        Action::Damage => &[DO, G, R, AT, WIDTH],
        Action::Replay => &[DO, G, R, EDGE],
        Action::Raw => &[DO, G, R, WIDTHS],
        Action::Fault(kind) => fault_keys_of(kind),
        Action::Repair => &[DO, G],
        Action::Restart => &[DO, R],
    }
}

/// The keys of a line that sets this fault, each of which has to be there, and no other.
pub fn fault_keys_of(kind: FaultKind) -> &'static [Key]
    ensures { map key_value result.now ≡ fault_keys_of kind }
{
    match kind {
        FaultKind::Silent => &[DO, G, KIND],
        FaultKind::Stuck => &[DO, G, KIND],
        FaultKind::Skew => &[DO, G, KIND, EDGES_BY],
        FaultKind::NoPending => &[DO, G, KIND],
        FaultKind::FalsePending => &[DO, G, KIND, LEAP],
        FaultKind::Quality => &[DO, G, KIND, Q],
        FaultKind::WrongOffset => &[DO, G, KIND, HALF_HOURS_BY],
    }
}

/// The keys of the line that has this value; none if [`action_of`] has none.
pub fn event_keys(value: &Value) -> Option<&'static [Key]>
    ensures { option_map (λ keys. map key_value keys.now) result
        ≡ option_map keys_of (action_of (view value.now)) }
{
    Some(keys_of(action_of(value)?))
}

/// What a line asks for, by its `do` and, of a fault, its `kind`; none if these are no words of
/// docs/SCENARIOS.md.
#[tactic(auto, unfolding(crate::specs::Forms::action_of))]
pub fn action_of(value: &Value) -> Option<Action>
    ensures { result ≡ action_of (view value.now) }
{
    match text_at(value, DO.name)? {
        "fault" => fault_action(value),
        word => action_named(word),
    }
}

fn fault_action(value: &Value) -> Option<Action>
    ensures { result ≡ fault_action (view value.now) }
{
    Some(Action::Fault(fault_in(value)?))
}

/// Which fault a line sets, by its `kind`; none of another word.
pub fn fault_in(value: &Value) -> Option<FaultKind>
    ensures { result ≡ fault_in (view value.now) }
{
    fault_named(text_at(value, KIND.name)?)
}
