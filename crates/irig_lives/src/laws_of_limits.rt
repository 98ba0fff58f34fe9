//! Laws of what a timekeeper cannot do: its premises are needed. They have no code.

ghost use Rattle.std.specs.Prelude.{◌≡◌, ◌+◌, ◌≤◌, None};
ghost use Rattle.irig_time.specs.Timelines.{TimelineValue};
ghost use Rattle.irig_reader.specs.Rules.{IsReaderRules};
ghost use Rattle.irig_reader.specs.Lives.{KnowsMonthEnds};
ghost use Rattle.irig_vote.specs.Vote.{f_of};
ghost use Rattle.irig_lines.specs.Refusals.{clock_fault};
ghost use Rattle.irig_timekeeper.specs.Life.{Made};
ghost use Rattle.irig_lives.specs.Misled.{IsMisled};

use irig_lines::ClockRules;
use irig_time::Rules;

/// A majority misleads: whatever the rules of a device, its redundancy and its drift, if frames of quality
/// 0 of 2016-12-27 and later have a vote, there is one of these rules whose counter, table and calls are as
/// [`a_device_tells_the_truth`](crate::a_device_tells_the_truth) asks, and of whose lines at each
/// tick all but at most f + 1 are true, that announces a second that does not begin at the edge
/// that it tells.
pub fn a_majority_misleads()
    ensures { (rules : Rules) (clock : ClockRules) → IsReaderRules clock.reader_rules
        → clock_fault clock.reader_rules clock.drift_us clock.wander_ppb ≡ None
        → 1 ≤ clock.limits.limits.poor_from → clock.limits.limits.not_before ≤ 6205
        → (t : TimelineValue) × (made : Made) × (made.rules ≡ rules) × (made.clock ≡ clock)
        × KnowsMonthEnds t clock.reader_rules made.table
        × IsMisled t made (f_of clock.redundancy + 1) }
{}

/// A false table misleads: whatever the rules of a device that learns nothing from votes and holds over for
/// 58 seconds or more, if frames
/// of quality 0 of 2000-01-31 and later have a vote, there is one of these rules for which all of that is so but for its table, and at no tick are
/// more than f lines untrue, and which announces such a second.
pub fn a_false_table_misleads()
    ensures { (rules : Rules) (clock : ClockRules) → IsReaderRules clock.reader_rules
        → clock.wander_ppb ≡ 0
        → clock_fault clock.reader_rules clock.drift_us clock.wander_ppb ≡ None → 58 ≤ clock.reader_rules.holdover
        → 1 ≤ clock.limits.limits.poor_from → clock.limits.limits.not_before ≤ 30
        → (t : TimelineValue) × (made : Made) × (made.rules ≡ rules) × (made.clock ≡ clock)
        × IsMisled t made (f_of clock.redundancy) }
{}
