//! What is proved of the definitions. It has no code.

ghost use Rattle.std.specs.Prelude.{◌≡◌, ℕ, List, Some, None};
ghost use Rattle.irig_station.specs.declared.entry.Entry.{Entry as EntryOf};
ghost use Rattle.report_blame.specs.declared.reach.Reach.{Reach};
ghost use Rattle.report_blame.specs.Reaches.{HasAnnounced, IsReachOf, reach_of};

use irig_simulated::ToldSecond;

/// How far off the seconds of a device lay is what its announced seconds say: each told edge lies
/// between the least and the greatest distance, with no greater bound, and each of the three is that
/// of one of them. If there is none, no second was announced.
pub fn reaches_are_of_announced_seconds()
    ensures some { (r : ℕ) (entries : List EntryOf) (x : Reach)
        → reach_of r entries ≡ Some x → IsReachOf r entries x }
    ensures none { (r : ℕ) (entries : List EntryOf) → reach_of r entries ≡ None
        → (told : ToldSecond) → ¬ HasAnnounced r entries told }
{}
