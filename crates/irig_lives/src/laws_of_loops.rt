//! Laws of a timekeeper's loops: from the pulses that lines send to the second that is announced.

ghost use Rattle.std.specs.Prelude.{◌+◌, ◌≤◌, ℕ, List, ◌++◌};
ghost use Rattle.irig_time.specs.Timelines.{TimelineValue, IsSecond};
ghost use Rattle.irig_lines.specs.Lines.{IsTrueLately};
ghost use Rattle.irig_timekeeper.specs.Announcing.{Announces};
ghost use Rattle.irig_timekeeper.specs.Life.{Call, Made, device_of};
ghost use Rattle.irig_timekeeper.specs.Truth.{FollowsTruth};
ghost use Rattle.irig_timekeeper.specs.Loops.{ComeInARow, TicksEach, AreToldInTime, AreMadeInTurn, GoesByLastWait, GoesByWait};

use irig_time::UtcSecond;

/// A device that ticks at least each 95 ms announces, from any state: let as many seconds in a row
/// as it locks after, and two more, come whole on more than f lines, and each pulse be told before
/// a tick that comes more than 3 ms behind its end. Then a tick at most 98 ms behind the edge of
/// the last of these seconds announces it by a vote, whatever the other lines send, if its leap
/// table is true or frames are preferred to it.
pub fn a_polling_device_announces()
    ensures { (t : TimelineValue) (edges : ℕ → ℕ) (made : Made) (start m most : ℕ)
        (calls before : List Call) (u : UtcSecond)
        → ComeInARow (IsTrueLately made.clock.within.us) t edges made start m calls before
        → FollowsTruth t made.clock.prefers_frames made.table
        → most ≤ 95000 → TicksEach most start calls before → AreToldInTime start calls before
        → IsSecond t (m + 1 + made.clock.reader_rules.lock_after) u
        → Announces edges (device_of made) (m + 1 + made.clock.reader_rules.lock_after) u
        (calls ++ before) }
{}

/// A device that ticks when `wait` says, or up to 94 ms later, announces so too: each tick comes so
/// soon behind each time that it named since the tick before, when it was asked behind each tick
/// and behind each frame's last pulse. Its calls are made one after another, each pulse told when
/// it has ended, but for 3 ms.
pub fn a_waiting_device_announces()
    ensures { (t : TimelineValue) (edges : ℕ → ℕ) (made : Made) (start m late : ℕ)
        (calls before : List Call) (u : UtcSecond)
        → ComeInARow (IsTrueLately made.clock.within.us) t edges made start m calls before
        → FollowsTruth t made.clock.prefers_frames made.table
        → late ≤ 94000 → GoesByWait late (device_of made) calls before
        → AreMadeInTurn start calls before
        → IsSecond t (m + 1 + made.clock.reader_rules.lock_after) u
        → Announces edges (device_of made) (m + 1 + made.clock.reader_rules.lock_after) u
        (calls ++ before) }
{}

/// So does one that only goes by the time that it named last: each tick comes so soon behind that.
/// Where nothing was then left to wait, the time before it still counts; where a time to come was
/// named, that was named so soon itself.
pub fn a_device_that_is_asked_anew_announces()
    ensures { (t : TimelineValue) (edges : ℕ → ℕ) (made : Made) (start m late : ℕ)
        (calls before : List Call) (u : UtcSecond)
        → ComeInARow (IsTrueLately made.clock.within.us) t edges made start m calls before
        → FollowsTruth t made.clock.prefers_frames made.table
        → late ≤ 94000 → GoesByLastWait late (device_of made) calls before
        → AreMadeInTurn start calls before
        → IsSecond t (m + 1 + made.clock.reader_rules.lock_after) u
        → Announces edges (device_of made) (m + 1 + made.clock.reader_rules.lock_after) u
        (calls ++ before) }
{}
