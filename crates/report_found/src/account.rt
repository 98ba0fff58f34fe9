//! What a reader's ticks come to.

ghost use Rattle.std.specs.Prelude.{◌≡◌, ◌+◌, ◌<◌, ℕ, List, [], ◌∷◌, length};
ghost use Rattle.report_found.specs.declared.tick.Tick.{Tick as TickOf};
ghost use Rattle.report_found.specs.Accounts.{port_account, account_of, port_of};
ghost use Rattle.report_found.specs.Soundness.{IsSoundTick, IsSoundOpen, IsSoundAccount};

use crate::kind::Kind;
use crate::misled::{Misled, misled_after, vote_after};
use crate::stretch::{Silence, Stretch, counted, silence_after, stretch_after};
use crate::tick::Tick;

/// How often a port told each kind, and its open stretch.
#[derive(Clone, Copy)]
pub struct PortAccount {
    /// At how many ticks it told the true claim.
    pub agreed: u64,
    /// At how many nothing.
    pub silent: u64,
    /// At how many what is no right frame.
    pub faulty: u64,
    /// At how many a frame of poor quality.
    pub poor: u64,
    /// At how many another second.
    pub another_second: u64,
    /// At how many the true second with another mark.
    pub another_mark: u64,
    pub(crate) stretch: Option<Stretch>,
}

impl PortAccount {
    fn new() -> PortAccount
        ensures exact { (port : ℕ) → result ≡ port_account port [] }
        ensures sound { IsSoundOpen result.stretch }
    {
        PortAccount {
            agreed: 0,
            silent: 0,
            faulty: 0,
            poor: 0,
            another_second: 0,
            another_mark: 0,
            stretch: None,
        }
    }

    // After a tick more, which is that of this number, from 1.
    fn after(&self, port: u8, tick: &Tick, number: u64) -> PortAccount
        requires stretch { IsSoundOpen self.now.stretch }
        requires tick { IsSoundTick tick.now }
        ensures exact { (ts : List TickOf) → self.now ≡ port_account port ts
            → length ts < number → result ≡ port_account port (tick.now ∷ ts) }
        ensures sound { IsSoundOpen result.stretch }
    {
        let kind = tick.kind(port);
        PortAccount {
            agreed: counted(self.agreed, kind.is(Kind::Agreed), number),
            silent: counted(self.silent, kind.is(Kind::Silent), number),
            faulty: counted(self.faulty, kind.is(Kind::Faulty), number),
            poor: counted(self.poor, kind.is(Kind::Poor), number),
            another_second: counted(self.another_second, kind.is(Kind::AnotherSecond), number),
            another_mark: counted(self.another_mark, kind.is(Kind::AnotherMark), number),
            stretch: stretch_after(self.stretch, port, tick, number),
        }
    }
}

/// The accounts of a reader's ports, and what it announced itself.
#[derive(Clone, Copy)]
pub struct Account {
    pub(crate) a: PortAccount,
    pub(crate) b: PortAccount,
    pub(crate) c: PortAccount,
    pub(crate) d: PortAccount,
    pub(crate) e: PortAccount,
    /// How often it ticked.
    pub edges: u64,
    /// How many seconds it announced.
    pub announced: u64,
    /// How many of those were untrue.
    pub untrue: u64,
    pub(crate) silence: Option<Silence>,
    /// The last tick at which it announced what most ports told.
    pub(crate) vote: Option<Tick>,
    pub(crate) misled: Option<Misled>,
}

impl Account {
    /// The account of a reader that has not ticked.
    pub(crate) fn new() -> Account
        ensures exact { result ≡ account_of [] }
        ensures sound { IsSoundAccount result }
    {
        let port = PortAccount::new();
        Account {
            a: port,
            b: port,
            c: port,
            d: port,
            e: port,
            edges: 0,
            announced: 0,
            untrue: 0,
            silence: None,
            vote: None,
            misled: None,
        }
    }

    /// The account after one tick more, which is that of this number, from 1.
    pub(crate) fn after(&self, tick: &Tick, number: u64) -> Account
        requires account { IsSoundAccount self.now }
        requires tick { IsSoundTick tick.now }
        ensures exact { (ts : List TickOf) → self.now ≡ account_of ts
            → length ts + 1 ≡ number → result ≡ account_of (tick.now ∷ ts) }
        ensures sound { IsSoundAccount result }
    {
        let vote = vote_after(self.vote, tick);
        Account {
            a: self.a.after(0, tick, number),
            b: self.b.after(1, tick, number),
            c: self.c.after(2, tick, number),
            d: self.d.after(3, tick, number),
            e: self.e.after(4, tick, number),
            edges: number,
            announced: counted(self.announced, tick.is_announced(), number),
            untrue: counted(self.untrue, tick.is_untrue(), number),
            silence: silence_after(self.silence, tick),
            vote,
            misled: misled_after(self.misled, vote, tick),
        }
    }

    /// The account of a port, 0 to 4.
    pub fn port(&self, port: u8) -> &PortAccount
        ensures { result.now ≡ port_of port self.now }
    {
        match port {
            0 => &self.a,
            1 => &self.b,
            2 => &self.c,
            3 => &self.d,
            _ => &self.e,
        }
    }
}
