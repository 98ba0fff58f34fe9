//! A device with a note.

ghost use Rattle.std.specs.Prelude.{◌≡◌, ◌<◌, ◌≤◌, ◌||◌, false, length, take, option_to_list, None, IfOk, OnErr, OnOk, is_err};
ghost use Rattle.std.specs.Io.KnownBytes.{Appends, Consumes, IsAtEnd, Keeps};
ghost use Rattle.irig_device.specs.Lines.{GivesLine, GivesPart, says_device};
ghost use Rattle.irig_device.specs.Watched.{AppendsPart, device_of, has_failed};

use crate::line::{LineEnd, ReadFault, read_part};
use std::io::{BufRead, Read, Write};

/// A reader or a writer, and a note that one of its calls failed. The calls of this crate alone
/// set the note, and nothing takes it away.
#[derive(Drop)]
pub struct Watched<T> {
    inner: T,
    is_noted: bool,
}

/// A call of the device failed, was interrupted or took nothing.
#[derive(Clone, Copy, PartialEq, Eq)]
pub struct DeviceFault;

impl<T> Watched<T> {
    /// A device of which no call has failed yet.
    pub fn new(inner: T) -> Watched<T>
        ensures device { device_of result ≡ inner }
        ensures whole { has_failed result ≡ false }
    {
        Watched {
            inner,
            is_noted: false,
        }
    }

    /// Whether a call of the device failed, was interrupted or took nothing.
    pub fn failed(&self) -> bool
        ensures { result ≡ has_failed self.now }
    {
        self.is_noted
    }

    /// The device as its last call left it.
    pub fn into_inner(self) -> T
        ensures { result ≡ device_of self }
    {
        let Watched { inner, is_noted: _ } = self;
        inner
    }
}

impl<R: Read> Watched<R> {
    /// Reads some of the bytes that follow into the front of these, by one `read`, and answers how many:
    /// none only where no byte is left. At a fault none was taken, and the note is set.
    pub fn read_some(&mut self, bytes: &mut [u8]) -> Result<usize, DeviceFault>
        requires { 0 < length bytes.old }
        ensures taken { IfOk result (λ count. Consumes (R.remaining (device_of self.old))
            (R.remaining (device_of self.new)) (take count bytes.new)) }
        ensures within { IfOk result (λ count. count ≤ length bytes.new) }
        ensures end { IfOk result (λ count. count ≡ 0
            → IsAtEnd (R.remaining (device_of self.old))) }
        ensures err { OnErr result
            (Keeps (R.remaining (device_of self.old)) (R.remaining (device_of self.new))) }
        ensures note { has_failed self.new ≡ (has_failed self.old || is_err result) }
    {
        match self.inner.read(bytes) {
            Ok(count) => Ok(count),
            Err(_) => {
                self.is_noted = true;
                Err(DeviceFault)
            }
        }
    }
}

impl<R: BufRead> Watched<R> {
    /// The next byte, by one `fill_buf`, or `None` if no byte is left. At a fault the bytes
    /// stay, and the note is set.
    pub fn read_byte(&mut self) -> Result<Option<u8>, DeviceFault>
        ensures byte { IfOk result (λ byte. Consumes (R.remaining (device_of self.old))
            (R.remaining (device_of self.new)) (option_to_list byte)) }
        ensures end { IfOk result (λ byte. byte ≡ None
            → IsAtEnd (R.remaining (device_of self.old))) }
        ensures err { OnErr result
            (Keeps (R.remaining (device_of self.old)) (R.remaining (device_of self.new))) }
        ensures note { has_failed self.new ≡ (has_failed self.old || is_err result) }
    {
        match self.inner.fill_buf() {
            Ok(available) => {
                let byte = available.first().copied();
                if byte.is_some() {
                    self.inner.consume(1);
                }
                Ok(byte)
            }
            Err(_) => {
                self.is_noted = true;
                Err(DeviceFault)
            }
        }
    }

    /// Reads the next line into `line`, without its newline, no further than to its newline or one
    /// byte above the limit. At a fault of the device the note is set.
    pub fn read_line(&mut self, limit: usize, line: &mut Vec<u8>) -> Result<LineEnd, ReadFault>
        ensures line { IfOk result (λ end. GivesLine end limit line.new.items
            (R.remaining (device_of self.old)) (R.remaining (device_of self.new))) }
        ensures part { OnErr result
            (GivesPart (R.remaining (device_of self.old)) (R.remaining (device_of self.new))) }
        ensures note { has_failed self.new ≡ (has_failed self.old || says_device result) }
    {
        line.clear();
        loop {
            match read_part(&mut self.inner, limit, line) {
                Ok(None) => {}
                Ok(Some(end)) => return Ok(end),
                Err(fault) => {
                    self.is_noted |= fault == ReadFault::Device;
                    return Err(fault);
                }
            }
        }
    }
}

impl<W: Write> Watched<W> {
    /// How many of the first bytes one `write` took, at least one. At a fault none was taken, and
    /// the note is set.
    pub fn write_some(&mut self, bytes: &[u8]) -> Result<usize, DeviceFault>
        requires { 0 < length bytes.now }
        ensures taken { IfOk result (λ count. Appends (W.contents (device_of self.old))
            (W.contents (device_of self.new)) (take count bytes.now)) }
        ensures some { IfOk result (λ count. 0 < count) }
        ensures within { IfOk result (λ count. count ≤ length bytes.now) }
        ensures err { OnErr result
            (Keeps (W.contents (device_of self.old)) (W.contents (device_of self.new))) }
        ensures note { has_failed self.new ≡ (has_failed self.old || is_err result) }
    {
        match self.inner.write(bytes) {
            Ok(count) if count > 0 => Ok(count),
            _ => {
                self.is_noted = true;
                Err(DeviceFault)
            }
        }
    }

    /// Writes all of the bytes by one `write` after another. At a fault a prefix of them was taken,
    /// and the note is set.
    pub fn write_all(&mut self, bytes: &[u8]) -> Result<(), DeviceFault>
        ensures ok { OnOk result (Appends (W.contents (device_of self.old))
            (W.contents (device_of self.new)) bytes.now) }
        // after an error a prefix of them was written
        ensures err { OnErr result (AppendsPart (W.contents (device_of self.old))
            (W.contents (device_of self.new)) bytes.now) }
        ensures note { has_failed self.new ≡ (has_failed self.old || is_err result) }
    {
        let mut done = 0;
        while done < bytes.len() {
            let count = self.write_some(&bytes[done..])?;
            done += count;
        }
        Ok(())
    }
}
