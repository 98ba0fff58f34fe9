//! Laws of plants over their definitions. They have no code.

ghost use Rattle.std.specs.Prelude.{◌≡◌, ◌+◌, ◌<◌, ◌≤◌, ◌↔◌, ◌⊎◌, true, false, ℕ, Some, None, List, [], ◌∷◌, ◌++◌, length, All, is_some};
ghost use Rattle.std.specs.List.{Contains};
ghost use Rattle.irig_time.specs.Timelines.{TimelineValue, second_at, truth_at};
ghost use Rattle.irig_time.specs.TimelineFaults.{IsTimeline};
ghost use Rattle.irig_time.specs.Tables.{TableValue};
ghost use Rattle.irig_gen.specs.Frames.{GeneratorValue, IsTrueFrame};
ghost use Rattle.irig_gen.specs.Refusals.{IsGenerator};
ghost use Rattle.irig_gen.specs.Sent.{frame_of};
ghost use Rattle.irig_port.specs.Heard.{symbols_of};
ghost use Rattle.irig_port.specs.Told.{told_of, told_of_widths};
ghost use Rattle.irig_port.specs.Damage.{IsFaultOr};
ghost use Rattle.irig_hold.specs.Truth.{IsTrueTable};
ghost use Rattle.irig_vote.specs.Vote.{ports_in, redundancy_of};
ghost use Rattle.irig_reader.specs.History.{vote_at_tick};
ghost use Rattle.irig_reader.specs.Rule.{state_of};
ghost use Rattle.irig_reader.specs.Rules.{IsReaderRules};
ghost use Rattle.irig_reader.specs.Standing.{StandsAtTruth};
ghost use Rattle.irig_plant.specs.Schedule.{Setup, setup_at, generator_at, heard_at, ticks_of, votes_of, history_of, entry_of, log_of};
ghost use Rattle.irig_plant.specs.Audits.{is_true_table, is_broken_now, audit_of};
ghost use Rattle.irig_plant.specs.Edges.{CanLock, is_voted_now, is_voted, is_restarted, IsVoted, IsRestarted, VotedEdges, voted_edges_of, is_held, IsHeld, IsRun, KeepsLock};
ghost use Rattle.irig_vote.specs.Counts.{AtLeast, AtMost};
ghost use Rattle.irig_plant.specs.Ports.{f_in, IsTruePort, IsUntruePort};
ghost use Rattle.irig_plant.specs.Exactly.{announcement, IsServed, AnnouncesWhenHeld, HasItsLock, HasItsCause};
ghost use Rattle.irig_plant.specs.Premises.{HasPremises, IsKeptUpTo, IsKept};
ghost use Rattle.irig_plant.specs.Truth.{Announces, IsBefore, AnnouncesTruth, GivesNoFalseAlarm, IsTruthful};
ghost use Rattle.irig_plant.specs.Headline.{KeepsHeadline};
ghost use Rattle.irig_plant.specs.Health.{HasGenerators, IsHealthyPort};
ghost use Rattle.irig_plant.specs.HealthyPlant.{seconds_of, IsHealthyPlant, healthy_log};
ghost use Rattle.irig_plant.specs.WholeCarry.{SparesPort, HasWholeCarry, HasWholeRun};
ghost use Rattle.irig_plant.specs.Runs.{events_after, AreAccepted};
ghost use Rattle.irig_plant.specs.Damage.{IsDamagedPort};
ghost use Rattle.irig_plant.specs.Hearing.{hearing_of, HearAlike};
ghost use Rattle.irig_plant.specs.Steadiness.{FollowsByMark};
ghost use Rattle.irig_plant.specs.Misled.{IsMisled, IsMisledByTable};
ghost use Rattle.irig_plant.specs.Widths.{widths_of, with_damage};
ghost use Rattle.irig_plant.specs.History.{PlantHistory, HasPlantHistory};

use crate::audit::Audit;
use crate::entry::Entry;
use crate::event::Event;
use crate::plant::Plant;
use irig_frame::Symbol;
use irig_port::{Port, Told};
use irig_reader::{Cause, Lock, ReaderRules};
use irig_time::{Claim, UtcSecond};

/// Two plants with the same history have equal logs and the same audit, whatever ports their
/// readers have.
pub fn equal_logs<P: Port, Q: Port>(one: &Plant<P>, other: &Plant<Q>)
    ensures log { (h : PlantHistory) → HasPlantHistory one.now h → HasPlantHistory other.now h
        → one.now.log.items ≡ other.now.log.items }
    ensures audit { (h : PlantHistory) → HasPlantHistory one.now h → HasPlantHistory other.now h
        → one.now.audit ≡ other.now.audit }
{}

/// A table passes the audit's test exactly if it is true: from the timeline's first day on it has
/// at each month's end the leap that the timeline has, as far as it goes.
pub fn true_tables()
    ensures { (t : TimelineValue) (table : TableValue)
        → (is_true_table t table ≡ true) ↔ IsTrueTable t table }
{}

/// A tick is broken exactly if at least f + 1 ports of the reader heard what carries an untrue
/// claim, and is not broken exactly if at most f of them did.
pub fn broken_ports()
    ensures broken { (s : Setup) (r : ℕ) (ev : List Event)
        → (is_broken_now s r ev ≡ true) ↔ AtLeast (f_in s + 1) (IsUntruePort s r ev) }
    ensures kept { (s : Setup) (r : ℕ) (ev : List Event)
        → (is_broken_now s r ev ≡ false) ↔ AtMost (f_in s) (IsUntruePort s r ev) }
{}

/// An edge is voted exactly if at least f + 1 ports of the reader heard what carries a claim that
/// is true there.
pub fn voted_ports()
    ensures { (s : Setup) (r : ℕ) (ev : List Event)
        → (is_voted_now s r ev ≡ true) ↔ AtLeast (f_in s + 1) (IsTruePort s r ev) }
{}

/// If at most f ports of a reader tell an untrue claim at a tick, there is no vote, or it is for
/// the true claim.
pub fn votes_are_true()
    ensures { (s : Setup) (r : ℕ) (ev : List Event) → is_broken_now s r ev ≡ false
        → (vote_at_tick (history_of s r ev) ≡ None)
        ⊎ (vote_at_tick (history_of s r ev) ≡ truth_at s.times (ticks_of r ev)) }
{}

/// A reader with a true table, at most f of whose ports told an untrue claim at any tick so far,
/// stands at the second of its edge, or has nothing to go on.
pub fn readers_keep_to_the_truth()
    ensures { (s : Setup) (r : ℕ) (ev : List Event) → IsTimeline s.times
        → IsTrueTable s.times (setup_at s.readers r).table → IsKeptUpTo s r (ticks_of r ev) ev
        → StandsAtTruth s.times (ticks_of r ev)
        (state_of (setup_at s.readers r).rules (setup_at s.readers r).table (votes_of s r ev)) }
{}

/// No harm: an event that is no tick of reader r up to its n-th, as a tick of another reader or a
/// later one, leaves the premise of r's n-th tick as it was.
pub fn harmless()
    ensures { (s : Setup) (r n : ℕ) (e : Event) (ev : List Event)
        → (e ≡ Event.Tick r → n ≤ ticks_of r ev)
        → IsKeptUpTo s r n (e ∷ ev) ↔ IsKeptUpTo s r n ev }
{}

/// The headline: an entry announces the second of its edge, or nothing, if its reader's table is
/// true and at each tick so far at most f of its reader's ports told an untrue claim.
pub fn announcements_are_true()
    ensures { (s : Setup) (ev : List Event) → IsTimeline s.times
        → All (AnnouncesTruth s ev) (log_of s ev) }
{}

/// The whole log is true, if the premises hold for all readers and ticks.
pub fn kept_logs_are_true()
    ensures { (s : Setup) (ev : List Event) → IsTimeline s.times → IsKept s ev
        → All (IsTruthful s.times) (log_of s ev) }
{}

/// Two entries of a log that announce a second under their premises, whatever their readers: of the
/// same edge they announce the same one, and of two edges the later announces a later one.
pub fn announcements_agree()
    ensures same { (s : Setup) (ev : List Event) (one other : Entry) (u v : UtcSecond)
        → IsTimeline s.times → Announces s ev one u → Announces s ev other v
        → one.edge ≡ other.edge → u ≡ v }
    ensures order { (s : Setup) (ev : List Event) (one other : Entry) (u v : UtcSecond)
        → IsTimeline s.times → Announces s ev one u → Announces s ev other v
        → one.edge < other.edge → IsBefore u v }
{}

/// The premises are needed: a plant of three generators, and one of five, in which f + 1 ports of a
/// reader are untrue at a single tick, and all else is kept, announces a false second there; and so
/// does one that kept all of that, but for a table. No rules of a reader help against f + 1 untrue
/// ports; against a false table a holdover of at most 57 does, and no other rules do.
pub fn premises_are_needed()
    ensures three { (s : Setup) × (ev : List Event) × (r : ℕ) × (u : UtcSecond)
        × (length s.generators ≡ 3) × IsMisled s ev r u }
    ensures five { (s : Setup) × (ev : List Event) × (r : ℕ) × (u : UtcSecond)
        × (length s.generators ≡ 5) × IsMisled s ev r u }
    // Whatever the rules of a reader that holds over for 58 edges or more, there is a plant with
    // such a reader that is misled by its table.
    ensures table { (rules : ReaderRules) → IsReaderRules rules → 58 ≤ rules.holdover
        → (s : Setup) × (ev : List Event) × (r : ℕ) × (u : UtcSecond)
        × ((setup_at s.readers r).rules ≡ rules) × IsMisledByTable s ev r u }
    // Whatever the rules of a reader, after however many votes in a row it locks, there is a plant
    // with such a reader that f + 1 untrue ports mislead at a month's end.
    ensures lock { (rules : ReaderRules) → IsReaderRules rules → (s : Setup) × (ev : List Event)
        × (r : ℕ) × (u : UtcSecond) × ((setup_at s.readers r).rules ≡ rules) × IsMisled s ev r u }
{}

/// No false alarm: under its premises the cause of an entry is no jump, the end of the range only
/// if the timeline has no second for its edge, and the guard only at a guard edge.
pub fn no_false_alarms()
    ensures { (s : Setup) (ev : List Event) → IsTimeline s.times → All CanLock s.readers
        → All (GivesNoFalseAlarm s ev) (log_of s ev) }
{}

/// The tests by which edges are voted, and restarts fall between them, are what their relations
/// say.
pub fn edges_are_voted()
    ensures voted { (s : Setup) (r : ℕ) (ev : List Event) (i : ℕ)
        → (is_voted s r ev i ≡ true) ↔ IsVoted s r ev i }
    ensures restarted { (r : ℕ) (ev : List Event) (i : ℕ)
        → (is_restarted r ev i ≡ true) ↔ IsRestarted r ev i }
{}

/// If at most f ports of a reader tell an untrue claim at a tick, there is a vote exactly if the
/// edge is voted.
pub fn votes_are_at_voted_edges()
    ensures { (s : Setup) (r : ℕ) (ev : List Event) → is_broken_now s r ev ≡ false
        → is_some (vote_at_tick (history_of s r ev)) ≡ is_voted_now s r ev }
{}

/// Under its premises, if the timeline has a second for its edge, an entry announces exactly if the
/// edge is held.
pub fn announces_exactly_when_held()
    ensures entries { (s : Setup) (ev : List Event) → IsTimeline s.times → All CanLock s.readers
        → All (AnnouncesWhenHeld s ev) (log_of s ev) }
    // Which edges are held, a function tells.
    ensures held { (x : VotedEdges) (n : ℕ) → (is_held x n ≡ true) ↔ IsHeld x n }
{}

/// An entry that announces is then locked by the vote of a voted edge, or holds over since the
/// greatest voted edge below.
pub fn announcements_tell_their_lock()
    ensures { (s : Setup) (ev : List Event) → IsTimeline s.times → All CanLock s.readers
        → All (HasItsLock s ev) (log_of s ev) }
{}

/// An entry that is silent then counts the voted edges of a run, or has expired, or was stopped by
/// the guard, or has no vote: one of the four, by what the events say.
pub fn silences_tell_their_cause()
    ensures { (s : Setup) (ev : List Event) → IsTimeline s.times → All CanLock s.readers
        → All (HasItsCause s ev) (log_of s ev) }
{}

/// All of the headline, for each entry of a log.
pub fn logs_keep_the_headline()
    ensures { (s : Setup) (ev : List Event) → IsTimeline s.times → All CanLock s.readers
        → All (KeepsHeadline s ev) (log_of s ev) }
{}

/// A true frame tells the truth: what a generator without fault sends of an edge is told as the
/// true claim of its second, by its symbols and by its pulses, which are heard as those symbols.
pub fn true_frames_tell_the_truth()
    ensures symbols { (g : GeneratorValue) (t : TimelineValue) (edge : ℕ) (s : List Symbol)
        (c : Claim) → IsGenerator g → IsTimeline t → IsTrueFrame g t edge s
        → truth_at t edge ≡ Some c → told_of g.rules s ≡ Told.Claim c }
    ensures widths { (g : GeneratorValue) (t : TimelineValue) (edge : ℕ) (c : Claim)
        → IsGenerator g → IsTimeline t → truth_at t edge ≡ Some c
        → told_of_widths g.rules (widths_of (frame_of None g t edge)) ≡ Told.Claim c }
    ensures heard { (s : List Symbol) → symbols_of (widths_of (Some s)) ≡ s }
{}

/// A healthy carry is a true vote.
pub fn healthy_carries_vote()
    // A generator without fault, at the edge of a reader's last tick, sends an empty port just the
    // frame that makes it healthy.
    ensures healthy { (s : Setup) (r p : ℕ) (ev : List Event)
        → p < ports_in (redundancy_of (length s.generators))
        → (generator_at s p ev).fault ≡ None → (generator_at s p ev).edge ≡ ticks_of r ev
        → heard_at s r p ev ≡ [] → IsHealthyPort s r (Event.Carry p r ∷ ev) p }
    // A healthy port tells the true claim of that edge's second, if the timeline has one.
    ensures told { (s : Setup) (r p : ℕ) (ev : List Event) (c : Claim) → IsTimeline s.times
        → HasGenerators s → truth_at s.times (ticks_of r ev) ≡ Some c → IsHealthyPort s r ev p
        → told_of_widths s.rules (heard_at s r p ev) ≡ Told.Claim c }
    // If at least f + 1 ports are healthy and the timeline has a second, the edge is voted.
    ensures voted { (s : Setup) (r : ℕ) (ev : List Event) (c : Claim) → IsTimeline s.times
        → HasGenerators s → truth_at s.times (ticks_of r ev) ≡ Some c
        → AtLeast (f_in s + 1) (IsHealthyPort s r ev) → is_voted_now s r ev ≡ true }
{}

/// A reader is available, and recovers: after as many voted edges in a row as it locks after it
/// announces.
pub fn runs_are_announced()
    // After as many voted edges in a row as it locks after, with no restart between, an entry
    // announces under its premises, however many votes were missing before.
    ensures locked { (s : Setup) (ev : List Event) (e : Entry) (v : UtcSecond) → IsTimeline s.times
        → All CanLock s.readers → Contains (log_of s ev) e → IsServed s ev e v
        → IsRun (voted_edges_of s e.reader ev) e.edge (setup_at s.readers e.reader).rules.lock_after
        → e.report ≡ announcement v Lock.Locked Cause.Voted }
    // After such a run up to edge m, an entry of a later edge announces T of it too, as long as
    // nothing takes the lock away: no restart, no holdover that is over, no guard edge.
    ensures later { (s : Setup) (ev : List Event) (e : Entry) (v : UtcSecond) (m : ℕ)
        → IsTimeline s.times → All CanLock s.readers → Contains (log_of s ev) e → IsServed s ev e v
        → IsRun (voted_edges_of s e.reader ev) m (setup_at s.readers e.reader).rules.lock_after
        → KeepsLock (voted_edges_of s e.reader ev) m e.edge → e.report.announce ≡ Some v }
{}

/// A healthy plant announces: without faults, by whole seconds from its start, each reader is
/// silent for one edge less than it locks after, and announces at each edge from then on.
pub fn healthy_plants_announce()
    // It takes whole seconds as long as the timeline has them.
    ensures accepted { (s : Setup) (n : ℕ) → IsHealthyPlant s
        → AreAccepted s (seconds_of s n) [] ↔ (is_some (second_at s.times n) ≡ true) }
    // So its log shows, at each edge in turn, each reader counting or telling the second.
    ensures log { (s : Setup) (n : ℕ) → IsHealthyPlant s → is_some (second_at s.times n) ≡ true
        → log_of s (events_after (seconds_of s n) []) ≡ healthy_log s n }
    // And all premises of the headline hold.
    ensures kept { (s : Setup) (n : ℕ) → IsHealthyPlant s → is_some (second_at s.times n) ≡ true
        → audit_of s (events_after (seconds_of s n) []) ≡ Audit.Kept }
{}

/// Healthy ports stay healthy: an event that neither brings pulses to a port nor empties its reader
/// leaves it healthy if it was, and only then.
pub fn healthy_ports_stay_healthy()
    ensures { (s : Setup) (r p : ℕ) (e : Event) (ev : List Event) → SparesPort r p e
        → IsHealthyPort s r (e ∷ ev) p ↔ IsHealthyPort s r ev p }
{}

/// A frame that comes whole is a true vote, whatever order events come in.
pub fn whole_carries_vote()
    // If it came to an empty port, of a generator without fault at the edge of the reader's last
    // tick, and was spared since, its port is healthy.
    ensures healthy { (s : Setup) (r p : ℕ) (ev : List Event) → HasWholeCarry s r ev p
        → IsHealthyPort s r ev p }
    // If at least f + 1 ports have such a frame and the timeline has a second, the edge is voted.
    ensures voted { (s : Setup) (r : ℕ) (ev : List Event) (c : Claim) → IsTimeline s.times
        → HasGenerators s → truth_at s.times (ticks_of r ev) ≡ Some c
        → AtLeast (f_in s + 1) (HasWholeCarry s r ev) → is_voted_now s r ev ≡ true }
    // If they had at as many ticks in a row as the reader locks after, with no restart between, an
    // entry announces under its premises.
    ensures announced { (s : Setup) (ev : List Event) (e : Entry) (v : UtcSecond)
        → IsTimeline s.times → HasGenerators s → All CanLock s.readers → Contains (log_of s ev) e
        → IsServed s ev e v
        → HasWholeRun s e.reader ev e.edge (setup_at s.readers e.reader).rules.lock_after
        → e.report ≡ announcement v Lock.Locked Cause.Voted }
{}

/// Equal hearing: two readers that are made alike, heard the same at each tick and were restarted
/// alike say the same, whatever is true.
pub fn equal_hearing()
    ensures { (s : Setup) (r : ℕ) (ev : List Event) (t : Setup) (q : ℕ) (other : List Event)
        → HearAlike s r ev t q other → (entry_of s r ev).report ≡ (entry_of t q other).report }
{}

/// No silent step, whatever is true: if a reader announces at a tick and at its next one, and no
/// restart came between, the second one follows the first by a mark that its table or a vote gave.
pub fn no_silent_step()
    ensures { (s : Setup) (r : ℕ) (ev between : List Event) (u v : UtcSecond)
        → hearing_of s r (between ++ (Event.Tick r ∷ ev)) ≡ hearing_of s r (Event.Tick r ∷ ev)
        → (entry_of s r ev).report.announce ≡ Some u
        → (entry_of s r (between ++ (Event.Tick r ∷ ev))).report.announce ≡ Some v
        → FollowsByMark (setup_at s.readers r).table
        (votes_of s r (Event.Tick r ∷ (between ++ (Event.Tick r ∷ ev)))) u v }
{}

/// The audit answers `Kept` exactly if the premises of the headline hold for all readers and ticks.
pub fn audit_is_kept()
    ensures { (s : Setup) (ev : List Event) → (audit_of s ev ≡ Audit.Kept) ↔ IsKept s ev }
{}

/// One damaged pulse is never untrue: what is told of a true frame with one pulse of any other
/// width is a fault or the true claim.
pub fn damaged_pulses_are_never_untrue()
    // What a generator without fault sends of an edge, with the pulse of any element of any width.
    ensures told { (g : GeneratorValue) (t : TimelineValue) (edge i width : ℕ) (c : Claim)
        → IsGenerator g → IsTimeline t → truth_at t edge ≡ Some c
        → IsFaultOr c
        (told_of_widths g.rules (with_damage i width (widths_of (frame_of None g t edge)))) }
    // A port that heard just that since its reader's last tick is not untrue, whether or not the
    // timeline has a second there.
    ensures port { (s : Setup) (r : ℕ) (ev : List Event) (p : ℕ) → IsTimeline s.times
        → HasGenerators s → IsDamagedPort s r ev p → ¬ IsUntruePort s r ev p }
    // An event of damage makes an empty port such a one, if its generator has no fault and
    // stands at the edge of the reader's last tick.
    ensures damaged { (s : Setup) (r p : ℕ) (ev : List Event) (i width : ℕ)
        → p < ports_in (redundancy_of (length s.generators))
        → (generator_at s p ev).fault ≡ None → (generator_at s p ev).edge ≡ ticks_of r ev
        → heard_at s r p ev ≡ [] → IsDamagedPort s r (Event.Damage p r i width ∷ ev) p }
{}
