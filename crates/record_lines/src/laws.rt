//! Laws of receivers over their definitions. They have no code.

ghost use Rattle.std.specs.Prelude.{◌≡◌, ◌≤◌, ◌↔◌, ◌∷◌, ◌%◌, ◌^◌, ℕ, List, Option, None, Some};
ghost use Rattle.irig_lines.specs.declared.lines.Vote.{Vote};
ghost use Rattle.irig_timekeeper.specs.Carried.{IsCarried};
ghost use Rattle.irig_timekeeper.specs.Keeping.{vote_at};
ghost use Rattle.irig_timekeeper.specs.Life.{Call, pulses_on};
ghost use Rattle.irig_timekeeper.specs.Life.Call.{Tick};
ghost use Rattle.irig_timekeeper.specs.Lived.{MadeOf, keeping_after};
ghost use Rattle.record_lines.specs.Channels.{told_of_lines};
ghost use Rattle.record_lines.specs.Recordings.{IsCarriedBy};
ghost use Rattle.record_lines.specs.Receivers.{IsInOrder, IsReceiverOf, told_rise};

use crate::receiver::Receiver;
use crate::second::RecordedSecond;
use irig_port::Port;
use record_levels::Levels;
use record_pulses::Edge;

/// Seconds that most lines name are carried: let a receiver's last call be a tick at which lines agree on
/// a claim, whatever it was told before, in whatever order and at whatever times. Then more than f lines
/// were told a whole frame of this claim each, which ended at most 100 ms before the tick, and near one
/// time. What a tick [tells](Receiver::pass_to) has this claim as its vote.
pub fn named_seconds_are_carried<P: Port>(receiver: &Receiver<P>)
    ensures { (made : MadeOf) (start now : ℕ) (calls : List Call) (vote : Vote)
        → IsReceiverOf receiver.now made start (Tick now ∷ calls)
        → vote_at (keeping_after made calls) (now % 2 ^ 32) ≡ Some vote
        → IsCarried made.clock made.rules vote.claim now (λ line. pulses_on line calls) }
{}

/// What is in order is told, and nothing else: a receiver tells its timekeeper exactly the pulses that are
/// in order as its next call, and that rise at most 4 ms ahead of where time stands.
pub fn what_is_in_order_is_told<P: Port>(receiver: &Receiver<P>)
    ensures { (made : MadeOf) (start line rise width risen : ℕ) (calls : List Call)
        → IsReceiverOf receiver.now made start calls
        → (told_rise receiver.now line rise width ≡ Some risen)
        ↔ IsInOrder receiver.now made start calls line rise width risen }
{}

/// A second that was carried by what was told of a recording stays so, whatever is told of it then: more
/// levels in order, or its end.
pub fn what_is_carried_stays_so()
    ensures levels { (made : MadeOf) (glitch now lines : ℕ) (levels : Levels)
        (told : ℕ → List Edge) (second : RecordedSecond)
        → IsCarriedBy made glitch (Some now) told second → now ≤ levels.time_ns
        → IsCarriedBy made glitch (Some levels.time_ns) (told_of_lines lines levels told) second }
    ensures end { (made : MadeOf) (glitch : ℕ) (until : Option ℕ) (told : ℕ → List Edge)
        (second : RecordedSecond)
        → IsCarriedBy made glitch until told second → IsCarriedBy made glitch None told second }
{}
