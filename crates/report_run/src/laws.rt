//! Laws of one of two plays over their definitions. They have no code.

ghost use Rattle.std.specs.Prelude.{◌≡◌, ◌&&◌, ℕ, Bool, false, true, List, Option, Result};
ghost use mathlib.Core.Logic.{inl, inr};
ghost use Rattle.irig_device.specs.Lines.{Bytes};
ghost use Rattle.report_run.specs.declared.fault.SceneFault.{SceneFault};
ghost use Rattle.report_run.specs.Meanings.{meaning_of};
ghost use Rattle.report_run.specs.Runs.{RanTo, RunFor};
ghost use Rattle.report_run.specs.Texts.{whole_text};
ghost use Rattle.report_run.specs.declared.either.Either.{Either};
ghost use Rattle.report_run.specs.declared.either.EitherOutcome.{EitherOutcome};
ghost use Rattle.report_run.specs.declared.either.EitherOutcome.TheVariants.{First, Second};
ghost use Rattle.report_run.specs.Alone.{AnswersAs, RanAlone, chooses};
ghost use Rattle.report_run.specs.Choice.{EndsForEither, StandsForEither, either_entries, either_of, either_texts};
ghost use Rattle.report_run.specs.Sides.{meaning_as};

use crate::chosen::Chosen;
use crate::play::Play;

/// What some bytes mean, and what is written of them, is the same as of the play alone that their
/// first line chooses.
pub fn a_first_line_chooses<A: Play, B: Chosen<Asked = A::Asked>>()
    ensures first_means { (x : List ℕ) → chooses B.is_chosen x ≡ false
        → meaning_of (either_of B.is_chosen A.language B.language) x
        ≡ meaning_as inl (meaning_of A.language x) }
    ensures second_means { (x : List ℕ) → chooses B.is_chosen x ≡ true
        → meaning_of (either_of B.is_chosen A.language B.language) x
        ≡ meaning_as inr (meaning_of B.language x) }
    ensures first_text { (asked : A.Asked) (x : List ℕ) → chooses B.is_chosen x ≡ false
        → whole_text (either_of B.is_chosen A.language B.language)
        (either_texts B.is_chosen (A.texts asked) (B.texts asked)) x
        ≡ whole_text A.language (A.texts asked) x }
    ensures second_text { (asked : A.Asked) (x : List ℕ) → chooses B.is_chosen x ≡ true
        → whole_text (either_of B.is_chosen A.language B.language)
        (either_texts B.is_chosen (A.texts asked) (B.texts asked)) x
        ≡ whole_text B.language (B.texts asked) x }
{}

/// A run of bytes whose first line does not choose the second play is a run of the first alone,
/// which answers, reads and writes the same. Else it is a run of the second alone.
pub fn a_chosen_play_runs_alone<A: Play, B: Chosen<Asked = A::Asked>>()
    ensures first { (asked : A.Asked)
        (r : Result (EitherOutcome A.Outcome B.Outcome) SceneFault) (x : List ℕ)
        (was left old new : Bytes) → chooses B.is_chosen x ≡ false
        → RunFor (either_of B.is_chosen A.language B.language) (EndsForEither A.ends B.ends)
        (either_texts B.is_chosen (A.texts asked) (B.texts asked)) r x was left old new
        → AnswersAs First r (λ answer.
        RunFor A.language A.ends (A.texts asked) answer x was left old new) }
    ensures second { (asked : A.Asked)
        (r : Result (EitherOutcome A.Outcome B.Outcome) SceneFault) (x : List ℕ)
        (was left old new : Bytes) → chooses B.is_chosen x ≡ true
        → RunFor (either_of B.is_chosen A.language B.language) (EndsForEither A.ends B.ends)
        (either_texts B.is_chosen (A.texts asked) (B.texts asked)) r x was left old new
        → AnswersAs Second r (λ answer.
        RunFor B.language B.ends (B.texts asked) answer x was left old new) }
    // So of a run whose input does not tell its bytes.
    ensures ran { (asked : A.Asked)
        (r : Result (EitherOutcome A.Outcome B.Outcome) SceneFault)
        (player : Option (Either A B)) (notes : List ℕ) (was left old new : Bytes)
        → RanTo (either_of B.is_chosen A.language B.language) (EndsForEither A.ends B.ends)
        (either_entries A.entries B.entries)
        (StandsForEither (A.stands_for asked) (B.stands_for asked)) (A.counts && B.counts)
        (either_texts B.is_chosen (A.texts asked) (B.texts asked)) r player notes was left old new
        → RanAlone B.is_chosen A.language B.language A.ends B.ends (A.texts asked) (B.texts asked)
        r was left old new }
{}
