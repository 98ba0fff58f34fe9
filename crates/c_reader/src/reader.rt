//! A reader that C holds.

ghost use Rattle.std.specs.Prelude.{◌≡◌, ◌↔◌, ◌+◌, ◌%◌, ◌^◌, ◌<◌, ℕ, List, [], IfSome, IsTrue, Some, is_some};
ghost use Rattle.irig_frame.specs.declared.symbol.Symbol.{Symbol};
ghost use Rattle.irig_frame.specs.Symbols.{symbol_of};
ghost use Rattle.irig_time.specs.declared.second.UtcSecond.{UtcSecond};
ghost use Rattle.irig_time.specs.Seconds.{IsValid};
ghost use Rattle.irig_time.specs.Timelines.{TimelineValue, IsSecond};
ghost use Rattle.irig_time.specs.TimelineFaults.{IsTimeline};
ghost use Rattle.irig_port.specs.Heard.{symbols_heard, with_symbol};
ghost use Rattle.irig_port.specs.Tallies.{IsTallyOf};
ghost use Rattle.irig_port.specs.Limits.{widths_told_within};
ghost use Rattle.irig_vote.specs.Vote.{AreOfUtc};
ghost use Rattle.irig_reader.specs.declared.report.Lock.TheVariants as Lock;
ghost use Rattle.irig_reader.specs.declared.report.Cause.TheVariants as Cause;
ghost use Rattle.irig_reader.specs.Clean.{IsClean, HaveHeardCleanly};
ghost use Rattle.irig_reader.specs.Held.{AreMarkedLate, IsSince, IsTrueSince};
ghost use Rattle.irig_reader.specs.Lives.{KnowsMonthEnds};
ghost use Rattle.irig_reader.specs.Rule.{count_of};
ghost use Rattle.irig_reader.specs.History.{fed_to, no_pulses, with_port, ReaderHistory, new_history, limited_history, after_pulse, after_pulses, after_tick, after_restart, report_at_tick};
ghost use Rattle.c_numbers.specs.declared.state.TheConstants.{IDLE};
ghost use Rattle.c_numbers.specs.Numbers.{sense_in};
ghost use Rattle.c_numbers.specs.Setups.{rules_in, limits_in, reader_rules_in, redundancy_in, IsPort, IsSetup};
ghost use Rattle.c_numbers.specs.LeapTables.{table_in, HasKinds, IsTable, code_of_table};
ghost use Rattle.c_numbers.specs.States.{state_in};
ghost use Rattle.c_numbers.specs.CheckWord.{IsSealed, setup_numbers, table_numbers, weighted};
ghost use Rattle.c_numbers.specs.Reports.{report_in, told_in, voices_in};
ghost use Rattle.c_numbers.specs.Voices.{voices_of, voices_at_tick};
ghost use Rattle.c_numbers.specs.Against.{against_of, held_by};
ghost use Rattle.c_reader.specs.Readers.{IsAccepted, IsReaderOf, HaveHeard, tells_in, told_at, step_in};

use c_numbers::{
    IDLE, IrigReader, IrigReport, IrigSetup, IrigTable, IrigTold, OUT_OF_RANGE, against_hold,
    changing_sum, check_of, fixed_sum, has_kinds, held_by, is_port, is_setup, limits_of,
    reader_rules_of, redundancy_of, report_for_c, rules_of, sense_of, state_for_c, state_of,
    table_fault, tally_change, told_for_c, voices_of,
};
use irig_port::Tally;
use irig_reader::{State, step_of};
use irig_vote::{Tells, vote};

/// Makes a reader to which nothing has happened. 26 if a number of the setup has no meaning or is
/// out of its range, or a leap that counts has another kind; then 31 to 34 for the first fault of
/// the table.
#[unsafe(no_mangle)]
pub extern "C" fn irig_c_reader_init(
    reader: &mut IrigReader,
    setup: &IrigSetup,
    table: &IrigTable,
) -> u32
    ensures answer { (result ≡ 0)
        ↔ (IsSetup setup.now × (HasKinds table.now × IsTable table.now)) }
    ensures fault { IsSetup setup.now → HasKinds table.now → result ≡ code_of_table table.now }
    ensures refused { (result ≡ 0 → ⊥) → reader.new ≡ reader.old }
    ensures fresh { result ≡ 0 → IsReaderOf reader.new (limited_history (limits_in setup.now)
        (new_history (rules_in setup.now) (reader_rules_in setup.now) (table_in table.now)
        (redundancy_in setup.now))) }
{
    if !is_setup(setup) || !has_kinds(table) {
        return OUT_OF_RANGE;
    }
    let fault = table_fault(table);
    if fault != 0 {
        return fault;
    }
    reader.setup = *setup;
    reader.table = *table;
    forget(reader);
    reader.check = check_of(fixed_sum(setup, table), reader);
    0
}

/// A pulse at a port, `width_us` microseconds wide. 26 if there is no such port.
#[unsafe(no_mangle)]
pub extern "C" fn irig_c_reader_pulse(reader: &mut IrigReader, port: u8, width_us: u32) -> u32
    ensures answer { (result ≡ 0) ↔ IsPort reader.old.setup port }
    ensures refused { (result ≡ 0 → ⊥) → reader.new ≡ reader.old }
    ensures fed { result ≡ 0 → (h : ReaderHistory) → IsReaderOf reader.old h
        → IsReaderOf reader.new (after_pulse h port width_us) }
    // the check word is right exactly if it was
    ensures sealed { IsSealed reader.new ↔ IsSealed reader.old }
{
    if !is_port(&reader.setup, port) {
        return OUT_OF_RANGE;
    }
    let tally = with_pulse(reader.ports[usize::from(port)], width_us);
    set_port(reader, port, tally);
    0
}

pub(crate) fn with_pulse(mut tally: Tally, width_us: u32) -> Tally
    ensures { (s : List Symbol) → IsTallyOf tally s
        → IsTallyOf result (with_symbol s (symbol_of width_us)) }
{
    tally.add(width_us);
    tally
}

/// Pulses at a port, one after another, each of a width in microseconds. 26 if there is no such
/// port.
#[unsafe(no_mangle)]
pub extern "C" fn irig_c_reader_pulses(reader: &mut IrigReader, port: u8, widths_us: &[u32]) -> u32
    ensures answer { (result ≡ 0) ↔ IsPort reader.old.setup port }
    ensures refused { (result ≡ 0 → ⊥) → reader.new ≡ reader.old }
    ensures fed { result ≡ 0 → (h : ReaderHistory) → IsReaderOf reader.old h
        → IsReaderOf reader.new (after_pulses h port widths_us.now) }
    // the check word is right exactly if it was
    ensures sealed { IsSealed reader.new ↔ IsSealed reader.old }
{
    if !is_port(&reader.setup, port) {
        return OUT_OF_RANGE;
    }
    let mut tally = reader.ports[usize::from(port)];
    tally.add_all(widths_us);
    set_port(reader, port, tally);
    0
}

/// Puts what a port heard in the place of what it heard before, and renews the check word by the
/// difference: a wrong one stays wrong.
pub(crate) fn set_port(reader: &mut IrigReader, port: u8, tally: Tally)
    requires { port < 5 }
    ensures heard { (h : ReaderHistory) (widths : List ℕ) → IsReaderOf reader.old h
        → IsTallyOf tally (symbols_heard widths)
        → IsReaderOf reader.new (record h { fed = with_port h.fed port widths }) }
    ensures sealed { IsSealed reader.new ↔ IsSealed reader.old }
{
    let place = usize::from(port);
    let change = tally_change(port, &reader.ports[place], &tally);
    reader.ports[place] = tally;
    reader.check = reader.check.wrapping_add(change);
}

/// An edge: what the reader says, by what its ports heard since the last one. They are then empty.
/// 26 if a number of its setup or its state has no meaning or is out of its range, or the check word
/// is not that of its numbers.
#[unsafe(no_mangle)]
pub extern "C" fn irig_c_reader_tick(reader: &mut IrigReader, report: &mut IrigReport) -> u32
    ensures answer { (result ≡ 0) ↔ IsAccepted reader.old }
    ensures refused { (result ≡ 0 → ⊥) → (reader.new ≡ reader.old) × (report.new ≡ report.old) }
    ensures valid { result ≡ 0 → IfSome (report_in report.new).announce IsValid }
    // of a reader with a history: it is never refused, reports what the rule gives, and goes on
    ensures answered { (h : ReaderHistory) → IsReaderOf reader.old h → result ≡ 0 }
    ensures report { (h : ReaderHistory) → IsReaderOf reader.old h
        → report_in report.new ≡ report_at_tick h }
    ensures after { (h : ReaderHistory) → IsReaderOf reader.old h
        → IsReaderOf reader.new (after_tick h) }
    // whatever lies in its numbers: what the rule makes of them
    ensures said { result ≡ 0 → report_in report.new ≡ (step_in reader.old).report }
    ensures stands { result ≡ 0 → state_in reader.new.state ≡ (step_in reader.old).state }
    // how the ports stand to the vote, and what the frames of those that agree say beside the time
    ensures voices { result ≡ 0 → voices_in report.new ≡ voices_of (tells_in reader.old)
        (redundancy_in reader.old.setup) (sense_in reader.old.setup.sense) reader.old.ports }
    // the same by the pulses that were fed to them
    ensures heard { (h : ReaderHistory) → IsReaderOf reader.old h
        → voices_in report.new ≡ voices_at_tick h }
    // the ports that told another second than the one to which the reader had come
    ensures against { result ≡ 0 → report.new.against_hold
        ≡ against_of (held_by (state_in reader.old.state)) (tells_in reader.old)
        (redundancy_in reader.old.setup) }
    // A second that is announced by the vote of a clean edge is the true one, whatever lies in the
    // numbers: this needs nothing of the past.
    ensures truth { (t : TimelineValue) (n : ℕ) (u : UtcSecond) → IsTimeline t
        → IsClean t n (tells_in reader.old) (redundancy_in reader.old.setup) → result ≡ 0
        → (report_in report.new).cause ≡ Cause.Voted
        → (report_in report.new).announce ≡ Some u → IsSecond t (n + 1) u }
    // The same by the pulses that were fed to a reader with a history.
    ensures heard_truth { (h : ReaderHistory) (t : TimelineValue) (n : ℕ) (u : UtcSecond)
        → IsReaderOf reader.old h → IsTimeline t
        → HaveHeardCleanly t n h.limits h.rules h.redundancy (fed_to h.fed)
        → (report_in report.new).cause ≡ Cause.Voted
        → (report_in report.new).announce ≡ Some u → IsSecond t (n + 1) u }
    // A second that a reader with a history announces without a vote is true by the last one: if
    // that vote, so many edges back, was true, and so is the table, or the holdover at most 57. The
    // votes of the history have to be such as ports tell; those that these calls make are
    // (irig_reader, the law `held_seconds_are_true`).
    ensures held { (h : ReaderHistory) (t : TimelineValue) (n edges : ℕ) (u : UtcSecond)
        → IsReaderOf reader.old h → AreMarkedLate h.votes → IsTimeline t
        → KnowsMonthEnds t h.reader_rules h.table → IsTrueSince t n (after_tick h).votes edges → 0 < edges
        → (report_in report.new).announce ≡ Some u → IsSecond t (n + 1 + edges) u }
    // The lock says how far back the last vote lies.
    ensures last { (h : ReaderHistory) (edges : ℕ) → IsReaderOf reader.old h
        → (report_in report.new).lock ≡ Lock.Holdover edges → IsSince (after_tick h).votes edges }
{
    let fixed = fixed_sum(&reader.setup, &reader.table);
    let Some(state) = accepted_state(fixed, reader) else {
        return OUT_OF_RANGE;
    };
    let reader_rules = reader_rules_of(&reader.setup);
    let tells = tells_of(reader);
    let redundancy = redundancy_of(&reader.setup);
    let against = against_hold(held_by(&state), &tells, redundancy);
    let vote = vote(&tells, redundancy);
    let step = step_of(reader_rules, &reader.table, state, vote);
    let voices = voices_of(
        &tells,
        redundancy,
        vote,
        sense_of(reader.setup.sense),
        &reader.ports,
    );
    *report = report_for_c(&step.report, &voices, against);
    empty(reader);
    reader.state = state_for_c(&step.state);
    reader.check = check_of(fixed, reader);
    0
}

/// The state of a reader that a tick accepts, if `fixed` is what setup and table add to its check
/// word.
fn accepted_state(fixed: u64, reader: &IrigReader) -> Option<State>
    requires { fixed ≡ (weighted 3 (setup_numbers reader.now.setup)
        + weighted 19 (table_numbers reader.now.table)) % 2 ^ 64 }
    ensures accepted { IsTrue (is_some result) ↔ IsAccepted reader.now }
    ensures is { IfSome result (λ s. s ≡ state_in reader.now.state) }
    ensures counting { IfSome result (λ s. count_of s < reader.now.setup.lock_after) }
{
    if !is_setup(&reader.setup) || reader.check != check_of(fixed, reader) {
        return None;
    }
    state_of(&reader.state, reader.setup.lock_after)
}

/// What the ports tell. Each claim is of a valid second.
fn tells_of(reader: &IrigReader) -> Tells
    ensures told { result ≡ tells_in reader.now }
    ensures claims { AreOfUtc result }
{
    let rules = rules_of(&reader.setup);
    let limits = limits_of(&reader.setup);
    Tells {
        a: reader.ports[0].tell_within(&rules, limits),
        b: reader.ports[1].tell_within(&rules, limits),
        c: reader.ports[2].tell_within(&rules, limits),
        d: reader.ports[3].tell_within(&rules, limits),
        e: reader.ports[4].tell_within(&rules, limits),
    }
}

/// Clears the ports.
fn empty(reader: &mut IrigReader)
    ensures setup { reader.new.setup ≡ reader.old.setup }
    ensures table { reader.new.table ≡ reader.old.table }
    ensures state { reader.new.state ≡ reader.old.state }
    ensures check { reader.new.check ≡ reader.old.check }
    ensures ports { HaveHeard reader.new.ports no_pulses }
{
    reader.ports = [Tally::none(); 5];
}

/// Clears the ports, and forgets what was voted. A reader whose check word is wrong stays so.
#[unsafe(no_mangle)]
pub extern "C" fn irig_c_reader_restart(reader: &mut IrigReader)
    ensures restarted { (h : ReaderHistory) → IsReaderOf reader.old h
        → IsReaderOf reader.new (after_restart h) }
    // the check word is right exactly if it was
    ensures sealed { IsSealed reader.new ↔ IsSealed reader.old }
{
    let before = changing_sum(reader);
    forget(reader);
    let after = changing_sum(reader);
    reader.check = reader.check.wrapping_sub(before).wrapping_add(after);
}

fn forget(reader: &mut IrigReader)
    ensures setup { reader.new.setup ≡ reader.old.setup }
    ensures table { reader.new.table ≡ reader.old.table }
    ensures state { reader.new.state ≡ IDLE }
    ensures check { reader.new.check ≡ reader.old.check }
    ensures ports { HaveHeard reader.new.ports no_pulses }
{
    empty(reader);
    reader.state = IDLE;
}

/// Says what a port would tell if the edge came now. 26 if there is no such port, or a number of the
/// setup has no meaning or is out of its range.
#[unsafe(no_mangle)]
pub extern "C" fn irig_c_reader_port(reader: &IrigReader, port: u8, told: &mut IrigTold) -> u32
    ensures answer { (result ≡ 0) ↔ (IsSetup reader.now.setup × IsPort reader.now.setup port) }
    ensures told { result ≡ 0 → told.new ≡ told_in (told_at reader.now port) }
    // of a reader that has a history: what the pulses say that were fed to the port
    ensures heard { result ≡ 0 → (h : ReaderHistory) → IsReaderOf reader.now h
        → told.new ≡ told_in (widths_told_within h.limits h.rules (fed_to h.fed port)) }
    ensures refused { (result ≡ 0 → ⊥) → told.new ≡ told.old }
{
    if !is_setup(&reader.setup) || !is_port(&reader.setup, port) {
        return OUT_OF_RANGE;
    }
    let rules = rules_of(&reader.setup);
    let limits = limits_of(&reader.setup);
    *told = told_for_c(&reader.ports[usize::from(port)].tell_within(&rules, limits));
    0
}
