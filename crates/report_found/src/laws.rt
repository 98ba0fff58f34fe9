//! What is proved of the definitions. It has no code.

ghost use Rattle.std.specs.Prelude.{◌≡◌, ◌↔◌, ◌+◌, ℕ, true, List, ◌∷◌, Option, Some, None, is_some, codes};
ghost use Rattle.irig_time.specs.TimelineFaults.{IsTimeline};
ghost use Rattle.irig_time.specs.Timelines.{TimelineValue, second_at, truth_at};
ghost use Rattle.irig_plant.specs.Schedule.{Setup, ticks_of, entry_of};
ghost use Rattle.irig_plant.specs.declared.event.Event.{Event};
ghost use Rattle.report_found.specs.declared.kind.Kind.{Kind as KindOf};
ghost use Rattle.report_found.specs.declared.stretch.Silence.{Silence as SilenceOf};
ghost use Rattle.report_found.specs.declared.stretch.Stretch.{Stretch as StretchOf};
ghost use Rattle.report_found.specs.declared.tick.Tick.{Tick as TickOf};
ghost use Rattle.report_log.specs.Text.{port_word};
ghost use Rattle.report_found.specs.Books.{tick_of};
ghost use Rattle.report_found.specs.Kinds.{kind_of};
ghost use Rattle.report_found.specs.LongestRuns.{IsLongest, IsLongestSilence};
ghost use Rattle.report_found.specs.Stretches.{stretch_of, silence_of};
ghost use Rattle.report_found.specs.Ticks.{kind_at, second_after, is_another, is_untrue};

use irig_port::Told;
use irig_time::{Claim, UtcSecond};

/// The open stretch of a port is the longest run of its reader's newest ticks at which it told one
/// kind other than agreed, with that kind, its first tick, its last edge, and the counts of what the
/// reader announced there; and none is open exactly if the newest tick is agreed.
pub fn stretches_are_longest_runs()
    ensures longest { (port : ℕ) (ts : List TickOf) (s : StretchOf)
        → stretch_of port ts ≡ Some s → IsLongest port ts s }
    ensures agreed { (port : ℕ) (t : TickOf) (ts : List TickOf)
        → (stretch_of port (t ∷ ts) ≡ None) ↔ (kind_at port t ≡ KindOf.Agreed) }
{}

/// The open silence of a reader is the longest run of its newest ticks at which it announced nothing
/// for one cause, with its first and its last tick.
pub fn silences_are_longest_runs()
    ensures { (ts : List TickOf) (s : SilenceOf) → silence_of ts ≡ Some s → IsLongestSilence ts s }
{}

/// The second with which an announcement is compared is T of its edge: at each tick that is not
/// refused an announcement is counted as untrue exactly if it is another one.
pub fn untrue_seconds_are_not_those_of_their_edges()
    ensures second { (t : TimelineValue) (n : ℕ) (u : UtcSecond) → IsTimeline t
        → second_at t n ≡ Some u → second_after (truth_at t n) ≡ second_at t (n + 1) }
    ensures tick { (s : Setup) (r : ℕ) (ev : List Event) → IsTimeline s.times
        → is_some (second_at s.times (ticks_of r ev)) ≡ true
        → is_untrue (tick_of s r ev)
        ≡ is_another (entry_of s r ev).report.announce (second_at s.times (entry_of s r ev).edge) }
{}

/// A port is agreed at a tick exactly if its word in a log's port line is `ok`.
pub fn agreed_ports_are_ok()
    ensures { (truth : Option Claim) (told : Told)
        → (kind_of truth told ≡ KindOf.Agreed) ↔ (port_word truth told ≡ codes "ok") }
{}
