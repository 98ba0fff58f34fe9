//! One of two plays, as it plays lines.

ghost use Rattle.std.specs.Prelude.{◌⊎◌, ◌&&◌};
ghost use Rattle.report_run.specs.Choice.{either_of, either_texts, either_entries, StandsForEither, EndsForEither};
ghost use Rattle.report_run.specs.EitherStays.{either_stays};

use crate::chosen::Chosen;
use crate::either::{Either, EitherOutcome};
use crate::play::Play;
use crate::stop::{Failure, Stop};
use irig_device::Watched;
use std::alloc::Global;
use std::io::Write;

impl<A: Play, B: Chosen<Asked = A::Asked>> Play for Either<A, B> {
    type Asked = A::Asked;

    type Outcome = EitherOutcome<A::Outcome, B::Outcome>;

    ghost Scene = { A.Scene ⊎ B.Scene };

    ghost language = { either_of B.is_chosen A.language B.language };

    ghost texts = { λ asked. either_texts B.is_chosen (A.texts asked) (B.texts asked) };

    ghost stands_for = { λ asked. StandsForEither (A.stands_for asked) (B.stands_for asked) };

    ghost ends = { EndsForEither A.ends B.ends };

    ghost entries = { either_entries A.entries B.entries };

    ghost counts = { A.counts && B.counts };

    ghost stays = { λ asked. either_stays B.is_chosen A.language B.language
        (A.texts asked) (B.texts asked) (A.stays asked) (B.stays asked) };

    fn counts() -> bool {
        A::counts() && B::counts()
    }

    fn count(&self) -> u64 {
        match self {
            Either::First(play) => play.count(),
            Either::Second(play) => play.count(),
        }
    }

    fn begin<W: Write>(
        alloc: Global,
        asked: A::Asked,
        line: &[u8],
        output: &mut Watched<W>,
    ) -> Result<Self, Stop> {
        let Ok(is_second) = B::is_chosen(alloc, line) else {
            return Err(Stop::Failed(Failure::Memory));
        };
        if is_second {
            Ok(Either::Second(B::begin(alloc, asked, line, output)?))
        } else {
            Ok(Either::First(A::begin(alloc, asked, line, output)?))
        }
    }

    fn take<W: Write>(
        &mut self,
        alloc: Global,
        asked: A::Asked,
        line: &[u8],
        output: &mut Watched<W>,
    ) -> Result<(), Stop> {
        match self {
            Either::First(play) => play.take(alloc, asked, line, output),
            Either::Second(play) => play.take(alloc, asked, line, output),
        }
    }

    fn write_last<W: Write>(
        &self,
        alloc: Global,
        asked: A::Asked,
        refused: bool,
        output: &mut Watched<W>,
    ) -> Result<(), Failure> {
        match self {
            Either::First(play) => play.write_last(alloc, asked, refused, output),
            Either::Second(play) => play.write_last(alloc, asked, refused, output),
        }
    }

    fn outcome(&self, lines: u64) -> EitherOutcome<A::Outcome, B::Outcome> {
        match self {
            Either::First(play) => EitherOutcome::First(play.outcome(lines)),
            Either::Second(play) => EitherOutcome::Second(play.outcome(lines)),
        }
    }
}
