//! The symbols of a frame, the pulse widths that send them, and their letters.

ghost use Rattle.std.specs.Prelude.{◌≡◌, ◌↔◌, Some};
ghost use Rattle.irig_frame.specs.Symbols.{letter_of, symbol_of, width_of};
ghost use Rattle.irig_frame.specs.Values.{is_one};

// The least width of each symbol, and of what is too wide, in microseconds.
const LEAST_ZERO: u32 = 500;

const LEAST_ONE: u32 = 3500;

const LEAST_MARKER: u32 = 6500;

const TOO_WIDE: u32 = 9500;

/// What one element of a frame says.
///
/// The nominal widths are those of IRIG Standard 200-16, format B: 2, 5 and 8 ms.
#[derive(Clone, Copy, Default, PartialEq, Eq)]
pub enum Symbol {
    /// A binary 0, nominally 2 ms.
    #[default]
    Zero,
    /// A binary 1, nominally 5 ms.
    One,
    /// A reference marker or position identifier, nominally 8 ms.
    Marker,
    /// A pulse that is none of these.
    Bad,
}

impl Symbol {
    /// The nominal width of its pulse in microseconds: 2000, 5000 or 8000, and 0 for a bad pulse,
    /// which is never sent.
    pub fn width_us(self) -> u32
        ensures width { result ≡ width_of self }
        ensures classified { symbol_of result ≡ self }
    {
        match self {
            Symbol::Zero => 2000,
            Symbol::One => 5000,
            Symbol::Marker => 8000,
            Symbol::Bad => 0,
        }
    }

    /// Its letter in a text: `0`, `1`, `P`, and `?` for a bad pulse.
    pub fn letter(self) -> u8
        ensures { result ≡ letter_of self }
    {
        match self {
            Symbol::Zero => b'0',
            Symbol::One => b'1',
            Symbol::Marker => b'P',
            Symbol::Bad => b'?',
        }
    }

    /// The symbol with this letter, if there is one.
    pub fn from_letter(letter: u8) -> Option<Symbol>
        ensures { (s : Symbol) → (result ≡ Some s) ↔ (letter ≡ letter_of s) }
    {
        match letter {
            b'0' => Some(Symbol::Zero),
            b'1' => Some(Symbol::One),
            b'P' => Some(Symbol::Marker),
            b'?' => Some(Symbol::Bad),
            _ => None,
        }
    }
}

/// The symbol of a pulse `width_us` microseconds wide: 500 to 3499 is a 0, 3500 to 6499 a 1, 6500
/// to 9499 a marker, and any other width a bad pulse.
///
/// The bounds are this project's profile; the standard gives the nominal widths alone.
pub fn classify(width_us: u32) -> Symbol
    ensures { result ≡ symbol_of width_us }
{
    match width_us {
        LEAST_ZERO..LEAST_ONE => Symbol::Zero,
        LEAST_ONE..LEAST_MARKER => Symbol::One,
        LEAST_MARKER..TOO_WIDE => Symbol::Marker,
        _ => Symbol::Bad,
    }
}

/// Whether a pulse of this width is a 1.
#[inline]
pub fn is_one_width(width_us: u32) -> bool
    ensures { result ≡ is_one (Some (symbol_of width_us)) }
{
    (LEAST_ONE..LEAST_MARKER).contains(&width_us)
}
