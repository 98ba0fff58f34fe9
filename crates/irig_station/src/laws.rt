//! Laws of stations over their definitions. They have no code.

ghost use Rattle.std.specs.Prelude.{◌≡◌, ◌∷◌, ◌++◌, ◌+◌, ◌*◌, All, ℕ, List, Some};
ghost use Rattle.std.specs.List.{Contains};
ghost use Rattle.irig_time.specs.Timelines.{IsSecond};
ghost use Rattle.irig_lines.specs.Lines.{IsTrueLately};
ghost use Rattle.irig_lines.specs.Steps.{AreNewLines, no_lines};
ghost use Rattle.irig_timekeeper.specs.Life.{Call};
ghost use Rattle.irig_timekeeper.specs.Lived.{made_with};
ghost use Rattle.irig_timekeeper.specs.Loops.{ComeInARow};
ghost use Rattle.irig_timekeeper.specs.Truth.{FollowsTruth};
ghost use Rattle.irig_simulated.specs.Kinds.{edges_by_kind};
ghost use Rattle.irig_simulated.specs.Doings.{AreCounted, IsTickedInTime};
ghost use Rattle.irig_station.specs.StationSetups.{IsStationSetup, StationSetup, kind_of_device};
ghost use Rattle.irig_station.specs.StationAudits.{audit_at_start};
ghost use Rattle.irig_station.specs.StationPlay.{audit_of_station, doubtful_log, log_of_station, passed_in_turn, play_event, standing_after, vouched_log};
ghost use Rattle.irig_station.specs.StationPromise.{AreStampedTogether, AreWholeInARow, IsAnnounced, IsAskedWithin, IsLoggedFrom, LogHasGrown, IsTrueEntry, drift_of_device};
ghost use Rattle.irig_station.specs.StationHeard.{IsToldWhatItHeard};
ghost use Rattle.irig_station.specs.ValidEntries.{AreWordCounters, IsEntryInRange};

use crate::audit::Audit;
use crate::entry::Entry;
use crate::event::Event;
use irig_time::UtcSecond;
use irig_timekeeper::Stamp;

/// The log of a station is true, by the start and the leaps of its setup alone: whatever generators
/// send and cables bring, each entry that was logged while the audit was kept is true.
pub fn a_log_of_devices_is_true()
    ensures vouched { (s : StationSetup) (ev : List Event) → IsStationSetup s
        → All (IsTrueEntry s) (vouched_log s ev) }
    // If it is kept, these are all.
    ensures kept { (s : StationSetup) (ev : List Event) → IsStationSetup s
        → audit_of_station s ev ≡ Audit.Kept → All (IsTrueEntry s) (log_of_station s ev) }
    // Two stamps of one time, of one device or of two, name instants that lie no further apart than
    // their bounds and twice the drift of each.
    ensures together { (s : StationSetup) (ev : List Event) (r q time : ℕ) (one two : Stamp)
        → IsStationSetup s → Contains (vouched_log s ev) (Entry.Stamped r time (Some one))
        → Contains (vouched_log s ev) (Entry.Stamped q time (Some two))
        → AreStampedTogether s.times one two (one.bound_us + two.bound_us
        + 2 * drift_of_device s r + 2 * drift_of_device s q) }
{}

/// A log grows at its end, whatever happens, and so do the pulses that devices heard; and an audit that
/// is broken stays broken. So what was logged before an event that breaks it stays true.
pub fn a_log_of_devices_grows()
    ensures grows { (s : StationSetup) (e : Event) (ev : List Event)
        → LogHasGrown (standing_after s ev) (standing_after s (e ∷ ev)) }
    // It is kept only of setups with true tables, if these are needed, and of counters that keep to
    // their settings.
    ensures start { (s : StationSetup) (ev : List Event) → audit_of_station s ev ≡ Audit.Kept
        → audit_at_start s ≡ Audit.Kept }
{}

/// What was logged since the second of an edge in which the audit broke shows it: a second that was
/// told is of that edge or a later one, or of the one before, and the instant of a stamp lies no
/// further before that edge than stamps are asked for. So an entry that shows an earlier edge or
/// instant was logged while the audit was kept, and so was all above it.
pub fn a_log_shows_where_it_broke()
    ensures { (s : StationSetup) (ev : List Event) (ago r n : ℕ) → IsStationSetup s
        → All (IsAskedWithin ago) ev → audit_of_station s ev ≡ Audit.Broken r n
        → All (IsLoggedFrom ago n) (doubtful_log s ev) }
{}

/// A device of a station announces, whatever generators send and cables bring besides: let as many
/// seconds in a row as it locks after, and two more, come whole on more than f of its lines since it
/// was made or restarted. If the audit is kept, the log then has the second that begins where the
/// last of them ends, announced by a vote, at its edge. Its leap table is true, and it goes by
/// `wait`, or is ticked each 94.9 ms or sooner.
pub fn a_station_announces()
    ensures kept { (s : StationSetup) (ev : List Event) (r m : ℕ) (calls before : List Call)
        (u : UtcSecond) → IsStationSetup s → audit_of_station s ev ≡ Audit.Kept
        → IsTickedInTime (kind_of_device s r)
        → ((standing_after s ev).courses r).calls ≡ calls ++ before → AreCounted calls
        → AreWholeInARow s r ((standing_after s ev).courses r).start m calls before
        → FollowsTruth s.times (kind_of_device s r).made.clock.prefers_frames
        (kind_of_device s r).made.table
        → IsSecond s.times (m + 1 + (kind_of_device s r).made.clock.reader_rules.lock_after) u
        → IsAnnounced s r (m + 1 + (kind_of_device s r).made.clock.reader_rules.lock_after) u
        (standing_after s ev) }
    // Without an audit so it is if these calls are in order, and at each of their ticks at most f
    // lines are untrue, beside a counter that is as the setting says.
    ensures calls { (s : StationSetup) (ev : List Event) (r m : ℕ) (calls before : List Call)
        (u : UtcSecond) (fresh : AreNewLines no_lines) → IsStationSetup s
        → IsTickedInTime (kind_of_device s r)
        → ((standing_after s ev).courses r).calls ≡ calls ++ before → AreCounted calls
        → ComeInARow (IsTrueLately (kind_of_device s r).made.clock.within.us) s.times
        (edges_by_kind (kind_of_device s r)) (made_with (kind_of_device s r).made no_lines fresh)
        ((standing_after s ev).courses r).start m calls before
        → FollowsTruth s.times (kind_of_device s r).made.clock.prefers_frames
        (kind_of_device s r).made.table
        → IsSecond s.times (m + 1 + (kind_of_device s r).made.clock.reader_rules.lock_after) u
        → IsAnnounced s r (m + 1 + (kind_of_device s r).made.clock.reader_rules.lock_after) u
        (standing_after s ev) }
{}

/// Its line can show each entry in full: the numbers of a told second and of a stamp are below 2^64,
/// if the counter of each device shows a number of 32 bits at edge 0.
pub fn entries_are_in_range()
    ensures { (s : StationSetup) (ev : List Event) → IsStationSetup s → AreWordCounters s
        → All IsEntryInRange (log_of_station s ev) }
{}

/// Time passes second by second: a stretch of it leads where its part in the present second leads,
/// and then the rest. It is refused where that part is. So a stretch may be cut where seconds end.
pub fn time_passes_by_seconds()
    ensures { (s : StationSetup) (ev : List Event) (us : ℕ)
        → play_event s (Event.Pass us) (standing_after s ev)
        ≡ passed_in_turn s us (standing_after s ev) }
{}

/// What a device of a station hears can be written, and a device that hears that is told the same:
/// since it was made or restarted the calls that told it a pulse are those of its own pulses that were
/// heard since, one after another. What it tells is what its calls answer, of which the others are
/// ticks. If it was never restarted, these are all pulses that it heard.
pub fn a_device_is_told_what_it_hears()
    ensures { (s : StationSetup) (ev : List Event) (r : ℕ) → IsToldWhatItHeard s r ev }
{}
