//! A tick of a reader.

ghost use Rattle.std.specs.Prelude.{All, ◌≡◌, IfSome};
ghost use Rattle.irig_plant.specs.Sound.{IsToldSoundly};
ghost use Rattle.irig_time.specs.Seconds.{IsValid};
ghost use Rattle.report_found.specs.Books.{first_tick};
ghost use Rattle.report_found.specs.Soundness.{IsSoundTick};
ghost use Rattle.report_found.specs.Ticks.{told_by, kind_at, is_announced, second_after, is_untrue, frame_of, frame_at, second_at, claimed, offset_at, offset_announced, is_carrier, vote_at, votes_truly};

use crate::kind::Kind;
use irig_plant::Entry;
use irig_port::Told;
use irig_time::{Claim, UtcSecond, next, valid};
use irig_vote::vote;
use report_log::{Offset, offset_between};

/// A tick of a reader, by its entry in the log.
#[derive(Clone, Copy)]
pub struct Tick {
    /// The entry of the log.
    pub entry: Entry,
}

impl Tick {
    /// What a port told, 0 to 4.
    pub(crate) fn told_by(&self, port: u8) -> Told
        ensures { result ≡ told_by port self.now }
    {
        let told = self.entry.told;
        match port {
            0 => told.a,
            1 => told.b,
            2 => told.c,
            3 => told.d,
            _ => told.e,
        }
    }

    /// Of which kind that was, of a port 0 to 4.
    pub fn kind(&self, port: u8) -> Kind
        ensures { result ≡ kind_at port self.now }
    {
        Kind::of(self.entry.truth, self.told_by(port))
    }

    /// Whether the reader announced a second.
    pub(crate) fn is_announced(&self) -> bool
        ensures { result ≡ is_announced self.now }
    {
        self.entry.report.announce.is_some()
    }

    /// Whether it announced another second than the true one.
    pub(crate) fn is_untrue(&self) -> bool
        ensures { result ≡ is_untrue self.now }
    {
        match (self.entry.report.announce, self.second()) {
            (None, _) => false,
            (Some(_), None) => true,
            (Some(announced), Some(second)) => announced != second,
        }
    }

    /// The second of the true frame that ended at the edge, if that is of the years served.
    pub fn frame(&self) -> Option<UtcSecond>
        ensures exact { result ≡ frame_at self.now }
        ensures valid { IfSome result IsValid }
    {
        frame_of(self.entry.truth)
    }

    /// The true second that begins at the edge, if that is of the years served.
    pub fn second(&self) -> Option<UtcSecond>
        ensures exact { result ≡ second_at self.now }
        ensures valid { IfSome result IsValid }
    {
        second_after(self.entry.truth)
    }

    /// How far what a port claims is from the second of the true frame.
    pub(crate) fn offset(&self, port: u8) -> Option<Offset>
        ensures { result ≡ offset_at port self.now }
    {
        offset_between(self.frame(), claimed(self.told_by(port)))
    }

    /// How far what the reader announces is from the second that begins.
    pub(crate) fn offset_announced(&self) -> Option<Offset>
        ensures { result ≡ offset_announced self.now }
    {
        offset_between(self.second(), self.entry.report.announce)
    }

    fn vote(&self) -> Option<Claim>
        ensures { result ≡ vote_at self.now }
    {
        vote(&self.entry.told, self.entry.redundancy)
    }

    /// Whether a port claimed what most ports did.
    pub(crate) fn is_carrier(&self, port: u8) -> bool
        ensures { result ≡ is_carrier self.now port }
    {
        match (self.vote(), self.told_by(port)) {
            (Some(vote), Told::Claim(claim)) => vote.at == claim.at && vote.mark == claim.mark,
            _ => false,
        }
    }

    /// Whether most ports told the truth, or there was no vote.
    pub(crate) fn votes_truly(&self) -> bool
        ensures { result ≡ votes_truly self.now }
    {
        match self.vote() {
            Some(claim) => Kind::of_claim(self.entry.truth, claim).is(Kind::Agreed),
            None => true,
        }
    }
}

/// The first of some entries, as a tick.
pub fn first_tick(entries: &[Entry]) -> Option<Tick>
    requires { All IsToldSoundly entries.now }
    ensures exact { result ≡ first_tick entries.now }
    ensures sound { IfSome result IsSoundTick }
{
    match entries {
        [entry, ..] => Some(Tick { entry: *entry }),
        [] => None,
    }
}

fn claimed(told: Told) -> Option<UtcSecond>
    ensures { result ≡ claimed told }
{
    match told {
        Told::Claim(claim) => Some(claim.at),
        _ => None,
    }
}

// The second of a true claim, if that is valid.
fn frame_of(truth: Option<Claim>) -> Option<UtcSecond>
    ensures exact { result ≡ frame_of truth }
    ensures valid { IfSome result IsValid }
{
    let claim = truth?;
    if valid(&claim.at) {
        Some(claim.at)
    } else {
        None
    }
}

// The second that begins at an edge, by the true claim of the one that ends there.
fn second_after(truth: Option<Claim>) -> Option<UtcSecond>
    ensures exact { result ≡ second_after truth }
    ensures valid { IfSome result IsValid }
{
    let claim = truth?;
    if valid(&claim.at) {
        next(claim.at, claim.mark)
    } else {
        None
    }
}
