//! What the audit knows of a line.

ghost use Rattle.std.specs.Prelude.{◌≡◌, ◌<◌, ◌≤◌, ◌^◌, ◌+◌, ◌&&◌, nat_lt, ℕ};
ghost use Rattle.irig_frame.specs.declared.symbol.Symbol.{Symbol};
ghost use Rattle.irig_frame.specs.Symbols.{symbol_of};
ghost use Rattle.irig_sync.specs.Edges.{element_at};
ghost use Rattle.irig_lines.specs.Exactness.{most_within_us};
ghost use Rattle.irig_lives.specs.Decided.{is_same};
ghost use Rattle.irig_witness.specs.Witness as witness;
ghost use Rattle.irig_witness.specs.Witness.{IsSaidOf};
ghost use Rattle.irig_witness.specs.Unfinished.{after_more};

use irig_frame::{Symbol, classify};

/// What is known of a line by its pulses so far, in microseconds of a counter that does not wrap.
#[derive(Clone, Copy)]
pub struct LineWitness {
    /// The true pulses so far are of elements before this one,
    pub next: u64,
    /// and those but the last one of elements before this one.
    pub before: u64,
    /// The line is untrue at ticks before this time,
    pub clear: u64,
    /// and, if its last true pulse is taken for a false one, at ticks before this one too.
    pub again: u64,
    /// When the last pulse rose; 0 before the first.
    pub rise: u64,
}

/// A pulse, and what a true line has where it rose.
#[derive(Clone, Copy)]
pub struct Risen {
    /// When it rose.
    pub rise: u64,
    /// How wide it is.
    pub width_us: u32,
    /// The element of which alone it may be.
    pub element: u64,
    /// When that begins.
    pub begins: u64,
    /// Its symbol. Of a pulse that is as wide as no symbol, any but [`Bad`](Symbol::Bad) will do.
    pub symbol: Symbol,
}

// The first tick that no longer asks for a pulse comes so long behind its rise.
const FORGET_US: u64 = 1_200_001;

// Of a line on which nothing has come.
pub(crate) fn new_witness() -> LineWitness
    ensures { result ≡ witness.new_witness }
{
    LineWitness {
        next: 0,
        before: 0,
        clear: 0,
        again: 0,
        rise: 0,
    }
}

// A pulse more. Those of a true line rise less than `within_us` from their elements' begins.
pub(crate) fn hear_rise(line: &mut LineWitness, within_us: u32, pulse: Risen)
    requires within { within_us ≤ most_within_us }
    requires rise { pulse.rise < 2 ^ 58 }
    requires element { pulse.element < 2 ^ 58 }
    requires begins { pulse.begins < 2 ^ 58 }
    ensures { (symbols : ℕ → Symbol) (edges : ℕ → ℕ) → pulse.begins ≡ element_at edges pulse.element
        → IsSaidOf symbols pulse.element pulse.width_us pulse.symbol
        → line.new ≡ witness.after_rise within_us symbols edges line.old pulse.element pulse.rise
        pulse.width_us }
{
    if is_true(pulse, within_us) {
        hear_true(line, pulse.element, pulse.rise);
    } else {
        hear_false(line, pulse.rise);
    }
}

// The pulse rose less than `within_us` from the begin of its element, and is the symbol there.
fn is_true(pulse: Risen, within_us: u32) -> bool
    requires within { within_us ≤ most_within_us }
    requires rise { pulse.rise < 2 ^ 58 }
    requires begins { pulse.begins < 2 ^ 58 }
    ensures { result ≡ (nat_lt pulse.begins (pulse.rise + within_us)
        && (nat_lt pulse.rise (pulse.begins + within_us)
        && is_same (symbol_of pulse.width_us) pulse.symbol)) }
{
    let within_us = u64::from(within_us);
    pulse.begins < pulse.rise + within_us
        && pulse.rise < pulse.begins + within_us
        && is_same(classify(pulse.width_us), pulse.symbol)
}

fn hear_true(line: &mut LineWitness, element: u64, rise: u64)
    requires rise { rise < 2 ^ 58 }
    requires element { element < 2 ^ 58 }
    ensures { line.new ≡ witness.after_true line.old element rise }
{
    if element < line.next {
        if element < line.before {
            hear_false(line, rise);
            return;
        }
        line.clear = line.clear.max(line.again);
    }
    line.next = element + 1;
    line.before = element;
    line.again = rise + FORGET_US;
    line.rise = rise;
}

fn hear_false(line: &mut LineWitness, rise: u64)
    requires { rise < 2 ^ 58 }
    ensures { line.new ≡ witness.after_false line.old rise }
{
    line.clear = line.clear.max(rise + FORGET_US);
    line.rise = rise;
}

// All pulses of a frame but its last one, those of a true line from an element on that was yet to come;
// the last of them rose then.
pub(crate) fn hear_most(line: &mut LineWitness, element: u64, last: u64)
    requires element { element < 2 ^ 58 }
    requires rise { last < 2 ^ 58 }
    ensures { line.new ≡ after_more line.old 98 element last }
{
    line.next = element + 99;
    line.before = element + 98;
    line.again = last + FORGET_US;
    line.rise = last;
}

#[tactic(auto, unfolding(irig_lives::specs::Decided::is_same))]
fn is_same(a: Symbol, b: Symbol) -> bool
    ensures { result ≡ is_same a b }
{
    a == b
}
