//! Symbols as numbers.

ghost use Rattle.std.specs.Prelude.{◌≡◌, length, map};
ghost use Rattle.c_numbers.specs.Numbers.{symbol_in, number_of_symbol};

use irig_frame::Symbol;

/// The symbol with this number: 0 and 1 are these bits, 2 is a marker, any other a bad pulse.
pub fn symbol_of(number: u8) -> Symbol
    ensures { result ≡ symbol_in number }
{
    match number {
        0 => Symbol::Zero,
        1 => Symbol::One,
        2 => Symbol::Marker,
        _ => Symbol::Bad,
    }
}

/// The number of a symbol, 0 to 3.
pub fn symbol_number(symbol: Symbol) -> u8
    ensures { result ≡ number_of_symbol symbol }
{
    match symbol {
        Symbol::Zero => 0,
        Symbol::One => 1,
        Symbol::Marker => 2,
        Symbol::Bad => 3,
    }
}

/// The symbols with these numbers.
pub fn symbols_of(numbers: &[u8]) -> [Symbol; 100]
    requires { length numbers.now ≡ 100 }
    ensures { result ≡ map symbol_in numbers.now }
{
    array_of(numbers).map(symbol_of)
}

fn array_of(numbers: &[u8]) -> [u8; 100]
    requires { length numbers.now ≡ 100 }
    ensures { result ≡ numbers.now }
{
    let mut frame = [0; 100];
    frame.copy_from_slice(numbers);
    frame
}

/// The numbers of these symbols.
#[tactic(auto, using(crate::proofs::SymbolsBack::symbols_back))]
pub fn numbers_of(symbols: &[Symbol; 100]) -> [u8; 100]
    ensures { map symbol_in result ≡ symbols.now }
{
    symbols.map(symbol_number)
}
