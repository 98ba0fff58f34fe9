//! Laws of time over its definitions, for the crates above. They have no code.

ghost use Rattle.std.specs.Prelude.{◌≡◌, ◌↔◌, ◌≤◌, ◌+◌, ◌⊎◌, true, ℕ, ℤ, neg_ℤ, unsigned_abs, List, Some, None, Ok};
ghost use Rattle.irig_time.specs.Days.{is_month_end};
ghost use Rattle.irig_time.specs.Seconds.{IsValid, is_valid};
ghost use Rattle.irig_time.specs.CodedTime.{IsCodedOf, time_shown};
ghost use Rattle.irig_control.specs.Control.{IsControl};
ghost use Rattle.irig_time.specs.Frames.{IsFrameOfSecond, frame_of_second};
ghost use Rattle.irig_time.specs.Claims.{claim_by, claim_of_second};
ghost use Rattle.irig_time.specs.Next.{next_of};
ghost use Rattle.irig_time.specs.Timelines.{TimelineValue, EndsAt, leap_of, mark_by, IsSecond, IsTrueClaim, second_at, truth_at};
ghost use Rattle.irig_time.specs.TimelineFaults.{IsTimeline};

use crate::claim::Claim;
use crate::mark::Mark;
use crate::rules::Sense;
use crate::second::UtcSecond;
use irig_control::{Control, Parity};
use irig_frame::{Coded, Symbol};

/// The time that is coded of a second claims that second: with the offset `-h` if it is added,
/// and `h` if it is subtracted, `h` being the half hours by which the clock is ahead of UTC.
pub fn claim_of_coded()
    ensures added { (u : UtcSecond) (h : ℤ) (c : Coded) (k : Control) → IsValid u
        → unsigned_abs h ≤ 31 → IsCodedOf u h c → k.offset_half_hours ≡ neg_ℤ h
        → claim_by Sense.Add c k ≡ claim_of_second u k }
    ensures subtracted { (u : UtcSecond) (h : ℤ) (c : Coded) (k : Control) → IsValid u
        → unsigned_abs h ≤ 31 → IsCodedOf u h c → k.offset_half_hours ≡ h
        → claim_by Sense.Subtract c k ≡ claim_of_second u k }
{}

/// What a frame claims is a valid second.
pub fn claims_are_valid()
    ensures { (sense : Sense) (c : Coded) (k : Control) (claim : Claim) → c.second ≤ 60
        → claim_by sense c k ≡ Ok claim → IsValid claim.at }
{}

/// A second is coded in one way by a clock.
pub fn one_coded()
    ensures { (u : UtcSecond) (h : ℤ) (c d : Coded) → IsCodedOf u h c
        → IsCodedOf u h d → c ≡ d }
{}

/// What a clock shows of a second is its coded time.
pub fn time_is_shown()
    ensures { (u : UtcSecond) (half_hours : ℤ) → IsValid u → unsigned_abs half_hours ≤ 31
        → IsCodedOf u half_hours (time_shown u half_hours) }
{}

/// What is said of a second, and of how it is coded and sent, can be computed: it holds of what a
/// function gives, and of nothing else.
pub fn relations_compute()
    ensures valid { (u : UtcSecond) → (is_valid u ≡ true) ↔ IsValid u }
    ensures coded { (u : UtcSecond) (h : ℤ) (c : Coded) → IsValid u → unsigned_abs h ≤ 31
        → IsCodedOf u h c ↔ (c ≡ time_shown u h) }
    ensures frame { (parity : Parity) (u : UtcSecond) (h : ℤ) (k : Control) (s : List Symbol)
        → IsValid u → unsigned_abs h ≤ 31 → IsControl k
        → IsFrameOfSecond parity u h k s ↔ (s ≡ frame_of_second parity u h k) }
{}

/// A timeline has at most one second for each number, which is a valid one, and at most one true
/// claim.
pub fn one_second()
    ensures seconds { (t : TimelineValue) (n : ℕ) (u v : UtcSecond) → IsSecond t n u
        → IsSecond t n v → u ≡ v }
    ensures claims { (t : TimelineValue) (n : ℕ) (c d : Claim) → IsTrueClaim t n c
        → IsTrueClaim t n d → c ≡ d }
    ensures valid { (t : TimelineValue) (n : ℕ) (u : UtcSecond) → IsTimeline t
        → IsSecond t n u → IsValid u }
{}

/// The functions `second_at` and `truth_at` give the second of each number and its true claim,
/// if there is one.
pub fn second_is()
    ensures second { (t : TimelineValue) (n : ℕ) (u : UtcSecond)
        → (second_at t n ≡ Some u) ↔ IsSecond t n u }
    ensures claim { (t : TimelineValue) (n : ℕ) (c : Claim)
        → (truth_at t n ≡ Some c) ↔ IsTrueClaim t (n + 1) c }
{}

/// The law of `next`, for a second T(n) of a timeline.
pub fn law_of_next()
    // Told the truth, `next` steps as the timeline does.
    ensures heard { (t : TimelineValue) (n : ℕ) (u v : UtcSecond) → IsTimeline t
        → IsSecond t n u → IsSecond t (n + 1) v
        → next_of u (mark_by (leap_of t.leaps u.day)) ≡ Some v }
    // Told nothing, it does too, but for the last two seconds of a month.
    ensures unspoken { (t : TimelineValue) (n : ℕ) (u v : UtcSecond) → IsTimeline t
        → IsSecond t n u → IsSecond t (n + 1) v
        → ¬ ((is_month_end u.day ≡ true) × ((u.sod ≡ 86398) ⊎ (u.sod ≡ 86399)))
        → next_of u Mark.Unspoken ≡ Some v }
    // Past the timeline's end it gives nothing, whatever it was told.
    ensures end { (t : TimelineValue) (n : ℕ) (u : UtcSecond) (mark : Mark) → IsTimeline t
        → IsSecond t n u → EndsAt t n → next_of u mark ≡ None }
{}
