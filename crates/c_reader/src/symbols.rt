//! Symbols and the widths of their pulses.

ghost use Rattle.std.specs.Prelude.{◌≡◌, map};
ghost use Rattle.irig_frame.specs.Symbols as frame;
ghost use Rattle.c_numbers.specs.Numbers.{symbol_in, number_of_symbol};

use c_numbers::{symbol_number, symbol_of};
use irig_frame::classify;

/// The symbol of a pulse of this width in microseconds: 0 or 1 for these bits, 2 for a marker, 3
/// for a width of none.
#[unsafe(no_mangle)]
pub extern "C" fn irig_c_classify(width_us: u32) -> u8
    ensures { result ≡ number_of_symbol (frame.symbol_of width_us) }
{
    symbol_number(classify(width_us))
}

/// The nominal width in microseconds of a pulse of the symbol with this number: 2000 of a 0, 5000
/// of a 1, 8000 of a marker; 0 of any other, which is never sent.
#[unsafe(no_mangle)]
pub extern "C" fn irig_c_width_us(symbol: u8) -> u32
    ensures width { result ≡ frame.width_of (symbol_in symbol) }
    ensures classified { frame.symbol_of result ≡ symbol_in symbol }
{
    symbol_of(symbol).width_us()
}

/// The nominal width in microseconds of each symbol of a frame, as [`irig_c_width_us`] gives it.
#[unsafe(no_mangle)]
pub extern "C" fn irig_c_widths_us(symbols: &[u8; 100], widths_us: &mut [u32; 100])
    ensures { widths_us.new ≡ map (λ number. frame.width_of (symbol_in number)) symbols.now }
{
    *widths_us = symbols.map(width_of);
}

fn width_of(number: u8) -> u32
    ensures { result ≡ frame.width_of (symbol_in number) }
{
    symbol_of(number).width_us()
}
