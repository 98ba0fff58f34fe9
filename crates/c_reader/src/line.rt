//! A line that C holds: where it stands in its frame, and a reader that hears through it.

ghost use Rattle.std.specs.Prelude.{◌≡◌, ◌↔◌, ◌≤◌, ◌%◌, ◌^◌, ℕ, List, [], ◌∷◌};
ghost use Rattle.irig_frame.specs.declared.symbol.Symbol.{Symbol};
ghost use Rattle.irig_port.specs.Heard.{symbols_heard};
ghost use Rattle.irig_port.specs.Hearing.{heard_at, IsHearing};
ghost use Rattle.irig_port.specs.Tallies.{IsTallyOf};
ghost use Rattle.irig_reader.specs.History.{ReaderHistory, after_hearing, fed_to, widths_at};
ghost use Rattle.irig_sync.specs.Lines.{Pulse, pulse_at, IsAfter, IsSoon, IsSyncOf};
ghost use Rattle.irig_sync.specs.Sync.{flag, idle_of, is_marker, place_of};
ghost use Rattle.c_numbers.specs.CheckWord.{IsSealed};
ghost use Rattle.c_reader.specs.Readers.{IsReaderOf};
ghost use Rattle.c_numbers.specs.Setups.{IsPort};

use crate::reader::{set_port, with_pulse};
use c_numbers::{IrigReader, is_port};
use irig_port::Tally;
use irig_sync::Sync;

/// What is answered of a port that is not there; every place is below.
pub(crate) const NO_PORT: u8 = 255;

/// Begins with a line on which nothing came.
#[unsafe(no_mangle)]
pub extern "C" fn irig_c_sync_init(sync: &mut Sync)
    ensures { IsSyncOf sync.new [] }
{
    *sync = Sync::none();
}

/// The place in its frame of the next pulse of a line, 1 to 100, or 0 out of step. It rose at
/// `rise_us`, in microseconds of a clock that wraps at 2^32, and is `width_us` microseconds wide.
#[unsafe(no_mangle)]
pub extern "C" fn irig_c_sync_pulse(sync: &mut Sync, rise_us: u32, width_us: u32) -> u8
    ensures place { result ≡ place_of sync.old rise_us width_us }
    ensures few { result ≤ 100 }
    ensures new { sync.new ≡ record {
      rise_us = rise_us;
      place = result;
      was_marker = flag (is_marker width_us);
    } }
{
    sync.pulse(rise_us, width_us)
}

/// Puts a line out of step that has been idle for a second, by a clock that wraps at 2^32: to be
/// called at each tick, and at least once in half an hour.
#[unsafe(no_mangle)]
pub extern "C" fn irig_c_sync_idle(sync: &mut Sync, now_us: u32)
    ensures { sync.new ≡ idle_of sync.old now_us }
{
    sync.idle(now_us);
}

/// A pulse of the line at a port, through the line's synchroniser: its place, as
/// [`irig_c_sync_pulse`] answers it. The port is emptied where a frame begins, and fed what has a
/// place. 255 if there is no such port, and nothing is changed.
#[unsafe(no_mangle)]
pub extern "C" fn irig_c_reader_hear(
    reader: &mut IrigReader,
    sync: &mut Sync,
    port: u8,
    rise_us: u32,
    width_us: u32,
) -> u8
    ensures answer { (result ≡ 255 → ⊥) ↔ IsPort reader.old.setup port }
    ensures refused { result ≡ 255 → (reader.new ≡ reader.old) × (sync.new ≡ sync.old) }
    ensures place { (result ≡ 255 → ⊥) → result ≡ place_of sync.old rise_us width_us }
    ensures sync { (result ≡ 255 → ⊥) → sync.new ≡ record {
      rise_us = rise_us;
      place = result;
      was_marker = flag (is_marker width_us);
    } }
    ensures fed { (result ≡ 255 → ⊥) → (h : ReaderHistory) → IsReaderOf reader.old h
        → IsReaderOf reader.new (after_hearing h port result width_us) }
    ensures run { (result ≡ 255 → ⊥) → (heard : List Symbol) (pulses : List Pulse)
        (now time : ℕ) → IsHearing heard sync.old pulses now → rise_us ≡ time % 2 ^ 32
        → IsAfter pulses time → IsSoon now time → IsHearing (heard_at result heard width_us)
        sync.new (pulse_at time width_us ∷ pulses) time }
    // That is what the port stands for, by what was fed to it: so what it claims at a tick is of a
    // run of pulses (irig_reader, the law `a_claim_is_of_a_run`).
    ensures stands { (result ≡ 255 → ⊥) → (h : ReaderHistory)
        → symbols_heard (fed_to (after_hearing h port result width_us).fed port)
        ≡ heard_at result (symbols_heard (fed_to h.fed port)) width_us }
    // the check word is right exactly if it was
    ensures sealed { IsSealed reader.new ↔ IsSealed reader.old }
{
    if !is_port(&reader.setup, port) {
        return NO_PORT;
    }
    let place = sync.pulse(rise_us, width_us);
    let tally = heard(reader.ports[usize::from(port)], place, width_us);
    set_port(reader, port, tally);
    place
}

/// What a port has heard after a pulse with this place in its frame.
fn heard(tally: Tally, place: u8, width_us: u32) -> Tally
    ensures { (widths : List ℕ) → IsTallyOf tally (symbols_heard widths)
        → IsTallyOf result (symbols_heard (widths_at place widths width_us)) }
{
    match place {
        0 => tally,
        1 => with_pulse(Tally::none(), width_us),
        _ => with_pulse(tally, width_us),
    }
}
