//! Lines, one after another.

ghost use Rattle.std.specs.Prelude.{◌≡◌, ℕ, List, [], ◌∷◌, ◌++◌, take, length, IfNone, IfSome, ◌<◌, ◌≤◌, ◌^◌};
ghost use Rattle.record_text.specs.Lines.{kept_of_line, lines_of, lines_on, next_number, with_line, without_mark};

use arrayvec::ArrayVec;

/// The most bytes of a line that are kept; what it has beyond them is left out.
pub const LONGEST_LINE: usize = 1_024;

/// A text without the byte order mark at its beginning.
pub fn without_mark(text: &[u8]) -> &[u8]
    ensures { result.now ≡ without_mark text.now }
{
    match text {
        [239, 187, 191, rest @ ..] => rest,
        _ => text,
    }
}

/// How many bytes were taken, and whether a line ended with them.
#[derive(Clone, Copy, PartialEq, Eq, Drop)]
pub struct NextLine {
    /// From the front. All of them, if no line ended.
    pub count: usize,
    /// The number of the line that ended, from 1, if one did.
    pub ended: Option<u64>,
}

/// A text as far as it was read: the line that is open, and its number. A line ends with CR LF, LF or CR.
#[derive(Drop)]
pub struct Lines {
    text: ArrayVec<u8, 1024>,
    number: u64,
    is_after_cr: bool,
}

impl Lines {
    /// Before the first byte of a text, on line 1.
    pub fn new() -> Lines
        ensures lines { (more : List ℕ) → lines_on result more ≡ lines_of more }
        ensures text { result.text.items ≡ [] }
    {
        Lines {
            text: ArrayVec::new(),
            number: 1,
            is_after_cr: false,
        }
    }

    /// The line, or what is open of one: up to 1,024 bytes.
    pub fn text(&self) -> &[u8]
        ensures text { result.now ≡ self.now.text.items }
        ensures few { length result.now ≤ 1024 }
    {
        self.text.as_slice()
    }

    /// The number of the line that is being read, from 1. It stays at 2^64 - 1, if a text has so many.
    pub fn number(&self) -> u64
        ensures { result ≡ self.now.number }
    {
        self.number
    }

    /// Lets a line go that has ended.
    pub fn clear(&mut self)
        ensures text { self.new.text.items ≡ [] }
        ensures number { self.new.number ≡ self.old.number }
        ensures after { self.new.is_after_cr ≡ self.old.is_after_cr }
    {
        self.text.clear();
    }

    /// Reads on to the end of a line and takes that too, or all of these bytes if no line ends among them.
    /// The caller lets a line go that has ended ([`Lines::clear`]) before the next call.
    pub fn next(&mut self, bytes: &[u8]) -> NextLine
        ensures within { result.count ≤ length bytes.now }
        ensures some { IfSome result.ended (λ number. 0 < result.count) }
        ensures all { IfNone result.ended (result.count ≡ length bytes.now) }
        ensures lines { (more : List ℕ) → lines_on self.old (take result.count bytes.now ++ more)
            ≡ with_line result.ended self.new more }
    {
        for (at, byte) in bytes.iter().enumerate() {
            let ended = self.take(*byte);
            if ended.is_some() {
                return NextLine {
                    count: at + 1,
                    ended,
                };
            }
        }
        NextLine {
            count: bytes.len(),
            ended: None,
        }
    }

    // One byte more: the number of the line that ends with it, if one does.
    fn take(&mut self, byte: u8) -> Option<u64>
        ensures { (more : List ℕ) → lines_on self.old (byte ∷ more) ≡ with_line result self.new more }
    {
        let is_rest = byte == b'\n' && self.is_after_cr;
        self.is_after_cr = byte == b'\r';
        if is_rest {
            None
        } else if byte == b'\n' || byte == b'\r' {
            let number = self.number;
            self.number = next_number(number);
            Some(number)
        } else {
            self.keep(byte);
            None
        }
    }

    fn keep(&mut self, byte: u8)
        ensures text { self.new.text.items ≡ kept_of_line self.old.text.items byte }
        ensures number { self.new.number ≡ self.old.number }
        ensures after { self.new.is_after_cr ≡ self.old.is_after_cr }
    {
        if self.text.len() < LONGEST_LINE {
            self.text.push(byte);
        }
    }
}

fn next_number(number: u64) -> u64
    ensures { result ≡ next_number number }
{
    if number < u64::MAX {
        number + 1
    } else {
        number
    }
}
