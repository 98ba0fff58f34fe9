//! What a port told at a tick, by kinds.

ghost use Rattle.std.specs.Prelude.{◌≡◌};
ghost use Rattle.report_found.specs.Kinds.{kind_of_claim, kind_of, same_kind, is_lie};

use irig_port::Told;
use irig_time::Claim;

/// What a port told, beside the true claim.
#[derive(Clone, Copy, PartialEq, Eq)]
pub enum Kind {
    /// The true claim.
    Agreed,
    /// Nothing.
    Silent,
    /// What is no right frame.
    Faulty,
    /// A frame of poor quality.
    Poor,
    /// Another second.
    AnotherSecond,
    /// The true second, with another mark.
    AnotherMark,
}

impl Kind {
    /// The kind of what a port told, where this is the true claim.
    pub(crate) fn of(truth: Option<Claim>, told: Told) -> Kind
        ensures { result ≡ kind_of truth told }
    {
        match told {
            Told::Silence => Kind::Silent,
            Told::Fault(_) => Kind::Faulty,
            Told::Poor(_) => Kind::Poor,
            Told::Claim(claim) => Kind::of_claim(truth, claim),
        }
    }

    /// That of a claim.
    pub(crate) fn of_claim(truth: Option<Claim>, claim: Claim) -> Kind
        ensures { result ≡ kind_of_claim truth claim }
    {
        match truth {
            None => Kind::AnotherSecond,
            Some(truth) if claim.at != truth.at => Kind::AnotherSecond,
            Some(truth) if claim.mark != truth.mark => Kind::AnotherMark,
            Some(_) => Kind::Agreed,
        }
    }

    /// Whether it is a claim, and not the true one.
    pub fn is_lie(self) -> bool
        ensures { result ≡ is_lie self }
    {
        self.is(Kind::AnotherSecond) || self.is(Kind::AnotherMark)
    }

    /// Whether this is that kind.
    pub fn is(self, other: Kind) -> bool
        ensures { result ≡ same_kind self other }
    {
        self == other
    }
}
