//! A port that hears a line through its synchroniser.

ghost use Rattle.std.specs.Prelude.{◌≡◌, ◌≤◌, ◌%◌, ◌^◌, ℕ, List, ◌∷◌};
ghost use Rattle.irig_frame.specs.declared.symbol.Symbol.{Symbol};
ghost use Rattle.irig_time.specs.declared.rules.Rules.{Rules};
ghost use Rattle.irig_sync.specs.Sync.{place_of, pulse_of};
ghost use Rattle.irig_sync.specs.Lines.{Pulse, pulse_at, IsAfter, IsSoon};
ghost use Rattle.irig_port.specs.Hearing.{heard_at, IsHearing};

use crate::port::Port;
use irig_sync::Sync;

/// A pulse of a line at the port that hears it: its place in its frame, 1 to 100, or 0 out of step,
/// as [`Sync::pulse`] answers it. It rose at `rise_us`, in microseconds of a clock that wraps at
/// 2^32, and is `width_us` microseconds wide.
///
/// The port is emptied where a frame begins, and is fed what has a place. So a port holds a hundred
/// pulses only if each came on time behind the one before.
pub fn hear<P: Port>(port: &mut P, sync: &mut Sync, rise_us: u32, width_us: u32) -> u8
    ensures place { result ≡ place_of sync.old rise_us width_us }
    ensures few { result ≤ 100 }
    ensures sync { sync.new ≡ pulse_of sync.old rise_us width_us }
    ensures heard { (rules : Rules) (s : List Symbol) → P.stands_for port.old rules s
        → P.stands_for port.new rules (heard_at result s width_us) }
    ensures run { (heard : List Symbol) (pulses : List Pulse) (now time : ℕ)
        → IsHearing heard sync.old pulses now → rise_us ≡ time % 2 ^ 32 → IsAfter pulses time
        → IsSoon now time → IsHearing (heard_at result heard width_us) sync.new
        (pulse_at time width_us ∷ pulses) time }
{
    let place = sync.pulse(rise_us, width_us);
    if place == 1 {
        port.clear();
    }
    if place > 0 {
        port.pulse(width_us);
    }
    place
}
