//! Devices for tests: one that breaks, and one that never ends.

ghost use types.Logic.{sem};
ghost use Rattle.std.specs.Prelude.{◌≡◌, ◌-◌, ◌↔◌, ◌<◌, [], length, All, Ok, IsErr, IsOk, IfErr, IfOk, IfSome, None};
ghost use Rattle.std.specs.IoError.{error_kind};
ghost use Rattle.std.specs.Io.{ReadsAtMost, StartsWith, WritesAtMost};
ghost use Rattle.std.specs.Io.BufRead.{FillKeeps, Rests};
ghost use Rattle.std.specs.Io.KnownBytes.{ReadConsumes, WriteAppends};
ghost use Rattle.test_devices.specs.contracts.devices.Fuse.{the_row as fuse-row};
ghost use Rattle.test_devices.specs.contracts.devices.Endless.{the_row as endless-row};
ghost use Rattle.test_devices.specs.Fuse.{inner_of, calls_left, break_of, kind_of};

use std::io::{BufRead, ErrorKind, Read, Write};
use std::{io, slice};

/// How a broken call answers.
#[derive(Clone, Copy, PartialEq, Eq)]
pub enum Break {
    /// By an error.
    Fail,
    /// By the error `Interrupted`, which a reader of whole lines or texts would try again.
    Interrupt,
    /// A write takes no byte, and a read fails.
    Nothing,
}

/// Passes its first calls on to the device within, and breaks every later one. A call is a
/// `read`, a `fill_buf` or a `write`.
#[derive(Drop)]
pub struct Fuse<T> {
    inner: T,
    left: u64,
    how: Break,
}

impl<T> Fuse<T> {
    /// A device of which the first `calls` calls are passed on.
    pub fn new(inner: T, calls: u64, how: Break) -> Fuse<T>
        ensures inner { inner_of result ≡ inner }
        ensures calls { calls_left result ≡ calls }
        ensures how { break_of result ≡ how }
    {
        Fuse {
            inner,
            left: calls,
            how,
        }
    }

    // Counts a call that may be passed on, or gives the error that breaks it.
    fn count_call(&mut self) -> io::Result<()>
        ensures broken { IsErr result ↔ (calls_left self.old ≡ 0) }
        ensures kind { IfErr result (λ error. error_kind error ≡ kind_of (break_of self.old)) }
        ensures counted { self.new ≡ record self.old { left = calls_left self.old - 1 } }
    {
        if self.left == 0 {
            return Err(match self.how {
                Break::Interrupt => io::Error::from(ErrorKind::Interrupted),
                Break::Fail | Break::Nothing => io::Error::from(ErrorKind::Other),
            });
        }
        self.left -= 1;
        Ok(())
    }
}

impl<T: BufRead> Read for Fuse<T> {
    ghost remaining = { λ fuse. T.remaining (inner_of fuse) };

    fn read(&mut self, buf: &mut [u8]) -> io::Result<usize>
        ensures bound { ReadsAtMost result buf.new }
        ensures bytes { ReadConsumes (T.remaining (inner_of self.old))
            (T.remaining (inner_of self.new)) result buf.new }
        ensures broken { calls_left self.old ≡ 0 → IsErr result }
        ensures counted { calls_left self.new ≡ calls_left self.old - 1 }
    {
        self.count_call()?;
        self.inner.read(buf)
    }
}

impl<T: BufRead> BufRead for Fuse<T> {
    ghost consumable_len = { λ fuse. T.consumable_len (inner_of fuse) };

    fn fill_buf(&mut self) -> io::Result<&[u8]>
        ensures front { IfSome (T.remaining (inner_of self.old))
            (λ xs. IfOk result (λ s. StartsWith xs s.now)) }
        ensures end { IfSome (T.remaining (inner_of self.old))
            (λ xs. IfOk result (λ s. length s.now ≡ 0 → xs ≡ [])) }
        ensures* after_borrow { sem 𝓛 (Rests (fuse-row T.row) self.entry (λ new.
            FillKeeps (T.remaining (inner_of self.old)) (T.remaining (inner_of new))
            (T.consumable_len (inner_of new)) result
            × (calls_left new ≡ calls_left self.old - 1))) }
        ensures broken { calls_left self.old ≡ 0 → IsErr result }
    {
        self.count_call()?;
        self.inner.fill_buf()
    }

    fn consume(&mut self, amount: usize) {
        self.inner.consume(amount);
    }
}

impl<T: Write> Write for Fuse<T> {
    ghost contents = { λ fuse. T.contents (inner_of fuse) };

    fn write(&mut self, buf: &[u8]) -> io::Result<usize>
        ensures bound { WritesAtMost result buf.now }
        ensures bytes { WriteAppends (T.contents (inner_of self.old))
            (T.contents (inner_of self.new)) result buf.now }
        ensures broken { calls_left self.old ≡ 0 → IfOk result (λ taken. taken ≡ 0) }
        ensures nothing { calls_left self.old ≡ 0
            → ((result ≡ Ok 0) ↔ (break_of self.old ≡ Break.Nothing)) }
        ensures counted { calls_left self.new ≡ calls_left self.old - 1 }
    {
        match self.count_call() {
            Ok(()) => self.inner.write(buf),
            Err(_) if self.how == Break::Nothing => Ok(0),
            Err(error) => Err(error),
        }
    }

    fn flush(&mut self) -> io::Result<()> {
        self.inner.flush()
    }
}

/// A reader that gives this byte for ever.
#[derive(Clone, Copy, PartialEq, Eq)]
pub struct Endless(pub u8);

impl Read for Endless {
    fn read(&mut self, buf: &mut [u8]) -> io::Result<usize>
        ensures all { result ≡ Ok (length buf.new) }
        ensures byte { All (λ byte. byte ≡ self.old.0) buf.new }
    {
        buf.fill(self.0);
        Ok(buf.len())
    }
}

impl BufRead for Endless {
    fn fill_buf(&mut self) -> io::Result<&[u8]>
        ensures* after_borrow { sem 𝓛 (Rests endless-row self.entry (λ new.
            FillKeeps None None None result)) }
        ensures some { IfOk result (λ bytes. 0 < length bytes.now) }
        ensures byte { IfOk result (λ bytes. All (λ byte. byte ≡ self.old.0) bytes.now) }
        ensures ok { IsOk result }
    {
        Ok(slice::from_ref(&self.0))
    }

    fn consume(&mut self, _amount: usize) {}
}
