//! Words, one after another.

ghost use Rattle.std.specs.Prelude.{◌≡◌, ℕ, List, [], ◌∷◌, ◌++◌, take, length, IfNone, IfSome, ◌<◌, ◌≤◌, ◌^◌};
ghost use Rattle.record_text.specs.Words.{is_blank, kept, line_after, with_ended, words_on};

use arrayvec::ArrayVec;

/// The most bytes of a word that are kept; what it has beyond them is left out.
pub const LONGEST_WORD: usize = 256;

/// How many bytes were taken, and whether a word ended with them.
#[derive(Clone, Copy, PartialEq, Eq, Drop)]
pub struct Next {
    /// From the front. All of them, if no word ended.
    pub count: usize,
    /// The line on which the word stands that ended, if one did.
    pub ended: Option<u64>,
}

/// A text as far as it was read: the word that is open, and its line. Words are what stands between
/// blanks: spaces, tabs, ends of lines (LF, CR) and pages (VT, FF).
#[derive(Drop)]
pub struct Words {
    word: ArrayVec<u8, 256>,
    line: u64,
}

impl Words {
    /// Before the first byte of a text, on line 1.
    pub fn new() -> Words
        ensures word { result.word.items ≡ [] }
        ensures line { result.line ≡ 1 }
    {
        Words {
            word: ArrayVec::new(),
            line: 1,
        }
    }

    /// The word, or what is open of one: up to 256 bytes.
    pub fn word(&self) -> &[u8]
        ensures word { result.now ≡ self.now.word.items }
        ensures few { length result.now ≤ 256 }
    {
        self.word.as_slice()
    }

    /// The line that is being read, from 1. It stays at 2^64 - 1, if a text has so many.
    pub fn line(&self) -> u64
        ensures { result ≡ self.now.line }
    {
        self.line
    }

    /// Lets a word go that has ended.
    pub fn clear(&mut self)
        ensures word { self.new.word.items ≡ [] }
        ensures line { self.new.line ≡ self.old.line }
    {
        self.word.clear();
    }

    /// Reads on to the blank after a word and takes that too, or all of these bytes if no word ends
    /// among them. The caller lets a word go that has ended ([`Words::clear`]) before the next call.
    pub fn next(&mut self, bytes: &[u8]) -> Next
        ensures within { result.count ≤ length bytes.now }
        ensures some { IfSome result.ended (λ line. 0 < result.count) }
        ensures all { IfNone result.ended (result.count ≡ length bytes.now) }
        ensures words { (more : List ℕ) → words_on self.old (take result.count bytes.now ++ more)
            ≡ with_ended result.ended self.new more }
    {
        for (at, byte) in bytes.iter().enumerate() {
            let ended = self.take(*byte);
            if ended.is_some() {
                return Next {
                    count: at + 1,
                    ended,
                };
            }
        }
        Next {
            count: bytes.len(),
            ended: None,
        }
    }

    // One byte more: the line of the word that ends with it, if one does.
    fn take(&mut self, byte: u8) -> Option<u64>
        ensures { (more : List ℕ) → words_on self.old (byte ∷ more)
            ≡ with_ended result self.new more }
    {
        if is_blank(byte) {
            let line = self.line;
            self.line = line_after(line, byte);
            if self.word.is_empty() {
                None
            } else {
                Some(line)
            }
        } else {
            self.keep(byte);
            None
        }
    }

    fn keep(&mut self, byte: u8)
        ensures word { self.new.word.items ≡ kept self.old.word.items byte }
        ensures line { self.new.line ≡ self.old.line }
    {
        if self.word.len() < LONGEST_WORD {
            self.word.push(byte);
        }
    }
}

fn is_blank(byte: u8) -> bool
    ensures { result ≡ is_blank byte }
{
    matches!(byte, b' ' | b'\t' | b'\n' | b'\r' | 11 | 12)
}

fn line_after(line: u64, byte: u8) -> u64
    ensures { result ≡ line_after line byte }
{
    if byte == b'\n' && line < u64::MAX {
        line + 1
    } else {
        line
    }
}
