//! The check word of a reader: what its numbers add up to, each times an odd weight of its own.

ghost use Rattle.std.specs.Prelude.{◌≡◌, ◌+◌, ◌*◌, ◌%◌, ◌^◌, ◌<◌, List, ◌∷◌, ◌++◌, ℕ};
ghost use Rattle.c_numbers.specs.CheckWord.{check_of, leap_numbers, port_numbers, setup_numbers, state_numbers, table_numbers, tally_numbers, weighted, AreSumsOf};

use crate::reader::IrigReader;
use crate::setup::IrigSetup;
use crate::state::IrigState;
use crate::sums::Sums;
use crate::table::{IrigLeap, IrigTable};
use irig_port::Tally;

/// What setup and table add to the check word. They never change.
pub fn fixed_sum(setup: &IrigSetup, table: &IrigTable) -> u64
    ensures { result ≡ (weighted 3 (setup_numbers setup.now)
        + weighted 19 (table_numbers table.now)) % 2 ^ 64 }
{
    with_setup(table_sums(table), setup).weighed(3)
}

fn with_setup(sums: Sums, setup: &IrigSetup) -> Sums
    ensures { (ns : List ℕ) → AreSumsOf sums ns
        → AreSumsOf result (setup_numbers setup.now ++ ns) }
{
    sums.with_first(u64::from(setup.poor_from))
        .with_first(u64::from(setup.not_before))
        .with_first(u64::from(setup.holdover))
        .with_first(u64::from(setup.lock_after))
        .with_first(u64::from(setup.redundancy))
        .with_first(u64::from(setup.sbs))
        .with_first(u64::from(setup.sense))
        .with_first(u64::from(setup.parity))
}

fn table_sums(table: &IrigTable) -> Sums
    ensures { AreSumsOf result (table_numbers table.now) }
{
    leaps_sums(&table.leaps)
        .with_first(u64::from(table.len))
        .with_first(u64::from(table.until))
}

#[inline(never)]
fn leaps_sums(leaps: &[IrigLeap]) -> Sums
    ensures { AreSumsOf result (leap_numbers leaps.now) }
{
    let mut sums = Sums::none();
    let mut left = leaps.len();
    while left > 0 {
        left -= 1;
        sums = with_leap(sums, &leaps[left]);
    }
    sums
}

#[inline]
fn with_leap(sums: Sums, leap: &IrigLeap) -> Sums
    ensures { (ns : List ℕ) → AreSumsOf sums ns
        → AreSumsOf result (leap.now.day ∷ leap.now.kind ∷ ns) }
{
    sums.with_first(u64::from(leap.kind))
        .with_first(u64::from(leap.day))
}

/// The numbers of a state, before others.
pub fn with_state(sums: Sums, state: &IrigState) -> Sums
    ensures { (ns : List ℕ) → AreSumsOf sums ns
        → AreSumsOf result (state_numbers state.now ++ ns) }
{
    sums.with_first(u64::from(state.age))
        .with_first(u64::from(state.sod))
        .with_first(u64::from(state.day))
        .with_first(u64::from(state.heard))
        .with_first(u64::from(state.count))
        .with_first(u64::from(state.kind))
}

/// The numbers of what a port heard, before others.
#[inline]
pub fn with_tally(sums: Sums, tally: &Tally) -> Sums
    ensures { (ns : List ℕ) → AreSumsOf sums ns
        → AreSumsOf result (tally_numbers tally.now ++ ns) }
{
    sums.with_first(tally.control)
        .with_first(tally.time)
        .with_first(u64::from(tally.wrong.element))
        .with_first(u64::from(tally.wrong.kind))
        .with_first(u64::from(tally.count))
}

/// By how much a port adds more to the check word, if it has heard `after` and no longer `before`.
#[inline]
pub fn tally_change(port: u8, before: &Tally, after: &Tally) -> u64
    requires { port < 5 }
    ensures { (weighted (291 + 10 * port) (tally_numbers before.now) + result) % 2 ^ 64
        ≡ weighted (291 + 10 * port) (tally_numbers after.now) % 2 ^ 64 }
{
    let sums = with_tally(Sums::none(), before);
    sums.change(291 + 10 * u64::from(port), with_tally(Sums::none(), after))
}

fn ports_sums(ports: &[Tally; 5]) -> Sums
    ensures { AreSumsOf result (port_numbers ports.now) }
{
    let last = with_tally(with_tally(Sums::none(), &ports[4]), &ports[3]);
    with_tally(
        with_tally(with_tally(last, &ports[2]), &ports[1]),
        &ports[0],
    )
}

/// What state and ports add to the check word, beside setup and table.
pub fn changing_sum(reader: &IrigReader) -> u64
    ensures { check_of reader.now ≡ (weighted 3 (setup_numbers reader.now.setup)
        + weighted 19 (table_numbers reader.now.table) + result) % 2 ^ 64 }
{
    with_state(ports_sums(&reader.ports), &reader.state).weighed(279)
}

/// The check word that belongs to a reader's numbers, if `fixed` is what its setup and its table
/// add to it.
pub fn check_of(fixed: u64, reader: &IrigReader) -> u64
    requires { fixed ≡ (weighted 3 (setup_numbers reader.now.setup)
        + weighted 19 (table_numbers reader.now.table)) % 2 ^ 64 }
    ensures { result ≡ check_of reader.now }
{
    fixed.wrapping_add(changing_sum(reader))
}
