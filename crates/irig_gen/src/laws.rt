//! Laws of generators over their definitions, for the crates above. They have no code.

ghost use Rattle.std.specs.Prelude.{◌≡◌, ◌+◌, ℕ, List, Option};
ghost use Rattle.irig_time.specs.Timelines.{TimelineValue, IsTrueClaim};
ghost use Rattle.irig_time.specs.TimelineFaults.{IsTimeline};
ghost use Rattle.irig_time.specs.Carries.{Carries};
ghost use Rattle.irig_gen.specs.Frames.{GeneratorValue, IsTrueFrame, IsFrameWithFault, IsFrameOrNone, IsSent};
ghost use Rattle.irig_gen.specs.Sent.{frame_of, sent_of};
ghost use Rattle.irig_gen.specs.Refusals.{IsGenerator};

use crate::fault::GenFault;
use irig_frame::Symbol;
use irig_time::Claim;

/// The law of true frames: the frame of an edge without fault carries the true claim of its second.
pub fn law_of_true_frames()
    ensures { (g : GeneratorValue) (t : TimelineValue) (edge : ℕ) (s : List Symbol)
        → IsGenerator g → IsTimeline t → IsTrueFrame g t edge s
        → (c : Claim) × IsTrueClaim t (edge + 1) c × Carries g.rules s c }
{}

/// An edge has one frame at most, with each fault.
pub fn one_frame()
    ensures { (fault : Option GenFault) (g : GeneratorValue) (t : TimelineValue) (edge : ℕ)
        (s r : List Symbol) → IsFrameWithFault fault g t edge s
        → IsFrameWithFault fault g t edge r → s ≡ r }
{}

/// The functions `frame_of` and `sent_of` give the frame of an edge, with each fault, and what is
/// now sent.
pub fn frames_are()
    ensures frame { (fault : Option GenFault) (g : GeneratorValue) (t : TimelineValue) (edge : ℕ)
        → IsGenerator g → IsTimeline t
        → IsFrameOrNone fault g t edge (frame_of fault g t edge) }
    ensures sent { (g : GeneratorValue) (t : TimelineValue) → IsGenerator g → IsTimeline t
        → IsSent g t (sent_of g t) }
{}
