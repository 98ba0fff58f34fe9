//! Laws of the words of a port line, over the definitions. They have no code.

ghost use Rattle.std.specs.Prelude.{◌≡◌, ◌↔◌, ◌+◌, ℕ, false, List, map, codes, Option, Some};
ghost use Rattle.irig_time.specs.Timelines.{TimelineValue, IsTrueClaim, truth_at};
ghost use Rattle.irig_vote.specs.Vote.{AreOfUtc, ports_of};
ghost use Rattle.irig_reader.specs.Clean.{IsClean};
ghost use Rattle.irig_plant.specs.Schedule.{Setup, ticks_of, entry_of};
ghost use Rattle.report_log.specs.Text.{port_word};
ghost use Rattle.report_log.specs.PortWords.{has_false_majority};

use irig_plant::Event;
use irig_port::Told;
use irig_time::Claim;
use irig_vote::{Redundancy, Tells};

/// A word is `ok` exactly if that port told the true claim.
pub fn ok_words_are_true_claims()
    ensures word { (truth : Option Claim) (told : Told) → (port_word truth told ≡ codes "ok")
        ↔ ((claim : Claim) × (told ≡ Told.Claim claim) × (truth ≡ Some claim)) }
    // In the port line of a tick it is the true claim of its edge.
    ensures tick { (s : Setup) (r : ℕ) (ev : List Event) (told : Told)
        → (port_word (entry_of s r ev).truth told ≡ codes "ok")
        ↔ ((claim : Claim) × (told ≡ Told.Claim claim)
        × IsTrueClaim s.times (ticks_of r ev + 1) claim) }
{}

/// Words show a clean tick: if no second and no mark is more than half of them, then no f + 1 ports
/// tell one and the same claim other than the true one of T(n).
pub fn words_show_clean_ticks()
    ensures { (t : TimelineValue) (n : ℕ) (told : Tells) (redundancy : Redundancy) → AreOfUtc told
        → has_false_majority (map (port_word (truth_at t n)) (ports_of told redundancy)) ≡ false
        → IsClean t n told redundancy }
{}
