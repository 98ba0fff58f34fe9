//! The words of a line.

ghost use Rattle.std.specs.Prelude.{◌≡◌};
ghost use Rattle.scenario_json.specs.Keywords.{parity_of, sense_of, sbs_use_of, leap_named};

use irig_control::Parity;
use irig_time::{Leap, SbsUse, Sense};

/// The words of [`parity_of`].
pub static PARITY_WORDS: [&str; 2] = ["even", "odd"];

/// `even` or `odd`; none of another word.
#[tactic(auto, unfolding(crate::specs::Keywords::parity_of))]
pub fn parity_of(word: &str) -> Option<Parity>
    ensures { result ≡ parity_of word.now }
{
    match word {
        "even" => Some(Parity::Even),
        "odd" => Some(Parity::Odd),
        _ => None,
    }
}

/// The words of [`sense_of`].
pub static SENSE_WORDS: [&str; 2] = ["add", "subtract"];

/// `add` or `subtract`; none of another word.
#[tactic(auto, unfolding(crate::specs::Keywords::sense_of))]
pub fn sense_of(word: &str) -> Option<Sense>
    ensures { result ≡ sense_of word.now }
{
    match word {
        "add" => Some(Sense::Add),
        "subtract" => Some(Sense::Subtract),
        _ => None,
    }
}

/// The words of [`sbs_use_of`].
pub static SBS_USE_WORDS: [&str; 2] = ["check", "ignore"];

/// `check` or `ignore`; none of another word.
#[tactic(auto, unfolding(crate::specs::Keywords::sbs_use_of))]
pub fn sbs_use_of(word: &str) -> Option<SbsUse>
    ensures { result ≡ sbs_use_of word.now }
{
    match word {
        "check" => Some(SbsUse::Check),
        "ignore" => Some(SbsUse::Ignore),
        _ => None,
    }
}

/// The words of [`leap_named`].
pub static LEAP_WORDS: [&str; 2] = ["insert", "delete"];

/// `insert` or `delete`; none of another word.
#[tactic(auto, unfolding(crate::specs::Keywords::leap_named))]
pub fn leap_named(word: &str) -> Option<Leap>
    ensures { result ≡ leap_named word.now }
{
    match word {
        "insert" => Some(Leap::Insert),
        "delete" => Some(Leap::Delete),
        _ => None,
    }
}
