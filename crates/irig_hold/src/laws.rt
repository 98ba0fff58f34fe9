//! Laws of a hold over its definitions, for the crates above. They have no code.

ghost use Rattle.std.specs.Prelude.{◌≡◌, ◌↔◌, ◌<◌, ◌+◌, ℕ, Ok, Err};
ghost use Rattle.irig_time.specs.Tables.{TableValue};
ghost use Rattle.irig_time.specs.Timelines.{TimelineValue, EndsAt, IsSecond, IsTrueClaim};
ghost use Rattle.irig_time.specs.TimelineFaults.{IsTimeline};
ghost use Rattle.irig_hold.specs.Steps.{HoldValue, hold_after, hold_start, outcome_of, mark_or, voted_by, alone_by};
ghost use Rattle.irig_hold.specs.Truth.{IsTrueTable, IsOnTime, HasComeTo, IsGuarded};

use crate::hold::Turn;
use irig_time::{Claim, UtcSecond};

/// The law of the hold: a hold that stands at T(n), and heard nothing false of the day's leap, goes
/// to T(n + 1) or stops; and then it has again heard nothing false.
///
/// With a vote the claim has to be true; alone the table has to be; at the beginning the claim.
pub fn law_of_hold()
    ensures voted { (t : TimelineValue) (table : TableValue) (n : ℕ) (h : HoldValue) (c : Claim)
        (u : UtcSecond) → IsTimeline t → IsOnTime t n h → IsTrueClaim t (n + 1) c
        → (voted_by table h c).answer ≡ Turn.Now u
        → HasComeTo t (n + 1) u (voted_by table h c).new }
    ensures alone { (t : TimelineValue) (table : TableValue) (n limit : ℕ) (h : HoldValue)
        (u : UtcSecond) → IsTimeline t → IsTrueTable t table → IsOnTime t n h
        → (alone_by table h limit).answer ≡ Turn.Now u
        → HasComeTo t (n + 1) u (alone_by table h limit).new }
    ensures started { (t : TimelineValue) (table : TableValue) (n : ℕ) (c : Claim) (h : HoldValue)
        → IsTimeline t → IsTrueClaim t (n + 1) c → hold_start table c ≡ Ok h
        → IsOnTime t (n + 1) h }
{}

/// A vote stands on itself: whatever second a hold stands at and whatever it heard, if it answers a
/// true claim of T(n) with a second, that is T(n + 1). If it stands at another second than T(n), it
/// answers such a claim with `Jump`.
pub fn law_of_one_vote()
    ensures second { (t : TimelineValue) (table : TableValue) (n : ℕ) (h : HoldValue) (c : Claim)
        (u : UtcSecond) → IsTimeline t → IsTrueClaim t (n + 1) c
        → (voted_by table h c).answer ≡ Turn.Now u
        → IsSecond t (n + 1) u × ((voted_by table h c).new.last ≡ u) }
    ensures jump { (t : TimelineValue) (table : TableValue) (n : ℕ) (h : HoldValue) (c : Claim)
        → IsTrueClaim t (n + 1) c → ¬ IsSecond t n h.last
        → (voted_by table h c).answer ≡ Turn.Jump }
{}

/// If T(n + 1) exists, a hold goes there from T(n): with a true vote always, and alone unless it
/// has expired or is guarded. So does one that begins with a true claim of T(n).
pub fn law_of_steps()
    ensures voted { (t : TimelineValue) (table : TableValue) (n : ℕ) (h : HoldValue) (c : Claim)
        (v : UtcSecond) → IsTimeline t → IsSecond t n h.last → IsTrueClaim t (n + 1) c
        → IsSecond t (n + 1) v → voted_by table h c
        ≡ outcome_of h (Ok (hold_after h.last 0 (mark_or c.mark h.heard) v)) }
    ensures alone { (t : TimelineValue) (table : TableValue) (n limit : ℕ) (h : HoldValue)
        (v : UtcSecond) → IsTimeline t → IsTrueTable t table → IsOnTime t n h
        → IsSecond t (n + 1) v → h.age < limit → ¬ IsGuarded table h
        → alone_by table h limit ≡ outcome_of h (Ok (hold_after h.last (h.age + 1) h.heard v)) }
    ensures started { (t : TimelineValue) (table : TableValue) (n : ℕ) (c : Claim) (v : UtcSecond)
        → IsTimeline t → IsTrueClaim t (n + 1) c → IsSecond t (n + 1) v
        → hold_start table c ≡ Ok (hold_after c.at 0 c.mark v) }
{}

/// What stops a hold at T(n), and one that begins there with a true claim.
pub fn law_of_stops()
    // A true vote is for the second at which the hold stands, and makes the guard needless.
    ensures jump { (t : TimelineValue) (table : TableValue) (n : ℕ) (h : HoldValue) (c : Claim)
        → IsSecond t n h.last → IsTrueClaim t (n + 1) c
        → ¬ ((voted_by table h c).answer ≡ Turn.Jump) }
    ensures voted_guard { (t : TimelineValue) (table : TableValue) (n : ℕ) (h : HoldValue)
        (c : Claim) → IsTimeline t → IsSecond t n h.last → IsTrueClaim t (n + 1) c
        → ¬ ((voted_by table h c).answer ≡ Turn.LeapGuard) }
    ensures started_guard { (t : TimelineValue) (table : TableValue) (n : ℕ) (c : Claim)
        → IsTimeline t → IsTrueClaim t (n + 1) c
        → ¬ (hold_start table c ≡ Err Turn.LeapGuard) }
    // The range ends exactly if T(n + 1) does not exist.
    ensures voted_end { (t : TimelineValue) (table : TableValue) (n : ℕ) (h : HoldValue)
        (c : Claim) → IsTimeline t → IsSecond t n h.last → IsTrueClaim t (n + 1) c
        → ((voted_by table h c).answer ≡ Turn.RangeEnd) ↔ EndsAt t n }
    ensures started_end { (t : TimelineValue) (table : TableValue) (n : ℕ) (c : Claim)
        → IsTimeline t → IsTrueClaim t (n + 1) c
        → (hold_start table c ≡ Err Turn.RangeEnd) ↔ EndsAt t n }
    // Alone the limit goes before both.
    ensures guard { (table : TableValue) (h : HoldValue) (limit : ℕ)
        → ((alone_by table h limit).answer ≡ Turn.LeapGuard)
        ↔ ((h.age < limit) × IsGuarded table h) }
    ensures end { (t : TimelineValue) (table : TableValue) (n limit : ℕ) (h : HoldValue)
        → IsTimeline t → IsSecond t n h.last
        → ((alone_by table h limit).answer ≡ Turn.RangeEnd)
        ↔ ((h.age < limit) × EndsAt t n) }
{}
