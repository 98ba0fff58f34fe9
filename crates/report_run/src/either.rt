//! One of two plays, and how its run ends.

/// One of two plays.
#[derive(Drop)]
pub enum Either<A, B> {
    /// The first, which plays if the second is not chosen.
    First(A),
    /// The second.
    Second(B),
}

/// How a run of one of two plays ends without a refusal.
#[derive(Clone, Copy)]
pub enum EitherOutcome<A, B> {
    /// As one of the first does.
    First(A),
    /// As one of the second does.
    Second(B),
}
