//! The accounts of all readers.

ghost use Rattle.std.specs.Prelude.{◌≡◌, ◌++◌, ◌<◌, ◌≤◌, ◌∷◌, [], All, ℕ, List, IfOk, OnOk, None, vec_len, slice_index_or};
ghost use Rattle.irig_plant.specs.Sound.{IsToldSoundly};
ghost use Rattle.irig_plant.specs.Refusals.{refusal};
ghost use Rattle.irig_plant.specs.declared.event.Event.{Event as EventOf};
ghost use Rattle.irig_scene.specs.Listening.{Gave};
ghost use Rattle.irig_scene.specs.Scene.{Scene, scene};
ghost use Rattle.report_found.specs.declared.tick.Tick.{Tick as TickOf};
ghost use Rattle.report_found.specs.Accounts.{account_of};
ghost use Rattle.report_found.specs.Findings.{lists_below, ended_found, open_found};
ghost use Rattle.report_found.specs.Soundness.{IsSoundTick, IsSoundAccount, IsSoundFinding};

use crate::account::Account;
use crate::finding::Finding;
use crate::gather::{push_ended, push_open};
use crate::tick::{Tick, first_tick};
use irig_plant::Entry;
use std::alloc::{AllocError, Global};

/// The accounts of readers, in order, each of which has so many ports.
#[derive(Drop)]
pub struct Book {
    accounts: Vec<Account>,
    ports: u8,
    ghost few: { vec_len accounts ≤ 16 },
    ghost sound: { ∥ All IsSoundAccount accounts.items ∥₁ },
}

impl Book {
    ghost use Rattle.report_found.specs.Scenes.{ended_by_event};
    ghost use Rattle.report_found.specs.Runs.{IsBookAt};
    ghost use Rattle.report_found.specs.Books.{HasTicks, with_tick};

    /// The book of so many readers that have not ticked, 16 at most.
    pub fn new(alloc: Global, readers: usize, ports: u8) -> Result<Book, AllocError>
        requires { readers ≤ 16 }
        ensures ports { IfOk result (λ book. book.ports ≡ ports) }
        ensures count { IfOk result (λ book. vec_len book.accounts ≡ readers) }
        ensures new { IfOk result (λ book. All (λ x. x ≡ account_of []) book.accounts.items) }
    {
        let accounts = vec![in alloc; Account::new(); readers]?;
        Ok(Book { accounts, ports })
    }

    /// Takes the tick that an event was, by the entries that it gave, into the account of its reader,
    /// and pushes all that it ends.
    pub fn take(&mut self, findings: &mut Vec<Finding>, entries: &[Entry]) -> Result<(), AllocError>
        requires { All IsToldSoundly entries.now }
        ensures found { OnOk result ((x : Scene) (e : EventOf) → IsBookAt self.old x
            → refusal x.plan.setup e x.events ≡ None → Gave e x entries.now
            → findings.new.items ≡ findings.old.items ++ ended_by_event x.plan.setup e x.events) }
        ensures stands { OnOk result ((x : Scene) (e : EventOf) → IsBookAt self.old x
            → refusal x.plan.setup e x.events ≡ None → Gave e x entries.now
            → IsBookAt self.new (scene x.plan (e ∷ x.events))) }
        ensures sound { OnOk result (All IsSoundFinding findings.old.items
            → All IsSoundFinding findings.new.items) }
    {
        match first_tick(entries) {
            Some(tick) => self.take_tick(findings, &tick),
            None => Ok(()),
        }
    }

    /// Takes a tick into the account of its reader, and pushes all that it ends.
    pub fn take_tick(&mut self, findings: &mut Vec<Finding>, tick: &Tick) -> Result<(), AllocError>
        requires { IsSoundTick tick.now }
        ensures ports { OnOk result (self.new.ports ≡ self.old.ports) }
        ensures found { OnOk result ((readers : ℕ) (ticks : ℕ → List TickOf)
            → HasTicks self.old readers ticks → tick.now.entry.reader < readers
            → findings.new.items ≡ findings.old.items
            ++ ended_found tick.now.entry.reader self.old.ports
            (account_of (ticks tick.now.entry.reader)) tick.now) }
        ensures added { OnOk result ((readers : ℕ) (ticks : ℕ → List TickOf)
            → HasTicks self.old readers ticks → tick.now.entry.reader < readers
            → HasTicks self.new readers (with_tick tick.now ticks)) }
        ensures sound { OnOk result (All IsSoundFinding findings.old.items
            → All IsSoundFinding findings.new.items) }
    {
        self.push_ended(findings, tick)?;
        self.add(tick)
    }

    // Takes a tick into the account of its reader. A count of 2^64 ticks has no room.
    fn add(&mut self, tick: &Tick) -> Result<(), AllocError>
        requires { IsSoundTick tick.now }
        ensures ports { self.new.ports ≡ self.old.ports }
        ensures added { OnOk result ((readers : ℕ) (ticks : ℕ → List TickOf)
            → HasTicks self.old readers ticks → tick.now.entry.reader < readers
            → HasTicks self.new readers (with_tick tick.now ticks)) }
    {
        let reader = tick.entry.reader as usize;
        if reader >= self.accounts.len() {
            return Ok(());
        }
        let Some(number) = self.accounts[reader].edges.checked_add(1) else {
            return Err(AllocError);
        };
        let account = self.accounts[reader].after(tick, number);
        self.accounts[reader] = account;
        Ok(())
    }

    // Pushes all that a tick ends.
    fn push_ended(&self, findings: &mut Vec<Finding>, tick: &Tick) -> Result<(), AllocError>
        requires { IsSoundTick tick.now }
        ensures exact { OnOk result ((d : Account)
            → tick.now.entry.reader < vec_len self.now.accounts
            → findings.new.items ≡ findings.old.items
            ++ ended_found tick.now.entry.reader self.now.ports
            (slice_index_or self.now.accounts.items tick.now.entry.reader d) tick.now) }
        ensures sound { OnOk result (All IsSoundFinding findings.old.items
            → All IsSoundFinding findings.new.items) }
    {
        let reader = tick.entry.reader as usize;
        if reader < self.accounts.len() {
            push_ended(findings, self.ports, &self.accounts[reader], tick)
        } else {
            Ok(())
        }
    }

    /// Pushes all that is open, reader by reader.
    pub fn push_open(&self, findings: &mut Vec<Finding>) -> Result<(), AllocError>
        ensures exact { OnOk result (findings.new.items ≡ findings.old.items ++ lists_below
            (λ r. open_found r self.now.ports (slice_index_or self.now.accounts.items r (account_of [])))
            (vec_len self.now.accounts)) }
        ensures sound { OnOk result (All IsSoundFinding findings.old.items
            → All IsSoundFinding findings.new.items) }
    {
        for reader in 0..self.readers() {
            let account = &self.accounts[reader as usize];
            push_open(findings, reader, self.ports, account)?;
        }
        Ok(())
    }

    /// How many ports each reader has.
    pub fn ports(&self) -> u8
        ensures { result ≡ self.now.ports }
    {
        self.ports
    }

    /// The account of a reader.
    pub fn account(&self, reader: u8) -> &Account
        requires { reader < vec_len self.now.accounts }
        ensures { (d : Account) → result.now ≡ slice_index_or self.now.accounts.items reader d }
    {
        &self.accounts[reader as usize]
    }

    /// How many readers there are.
    pub fn readers(&self) -> u8
        ensures { result ≡ vec_len self.now.accounts }
    {
        self.accounts.len() as u8
    }
}
