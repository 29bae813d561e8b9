// A lent buffer in front of standard output: the bytes that wait in it, and writing them.
ghost use Rattle.std.specs.Prelude.{◌≡◌, [], ◌∷◌, ◌+◌, ◌-◌, ◌<◌, ◌≤◌, true, false, length, take, set};
ghost use Rattle.words.specs.Told.{Told};
ghost use Rattle.output.specs.Queue.{stopped, count, seen, TextPut, Flushed, Stored};
ghost use Rattle.output.specs.Decimal.{decimal};

use crate::streams::{Streams, fail};
use std::io::Print;

// The first n bytes of buf, or all of it where it has fewer.
pub fn front(buf: &[u8], n: usize) -> &[u8]
    ensures { result.now ≡ take n buf.now }
{
    if n <= buf.len() { &buf[..n] } else { buf }
}

// Writes bytes to standard output; says on standard error where that fails.
pub fn print(to: Streams, bytes: &[u8]) -> bool {
    match to.out.write_all(bytes) {
        Ok(()) => true,
        Err(error) => {
            fail(to, b"write", &error);
            false
        }
    }
}

// Bytes of which so many wait at the start to be written; or none once a write has failed, and then
// everything that is put is dropped. It has no model: a type with one tells its caller nothing of what the lent
// bytes are once it is let go.
#[derive(Drop)]
pub struct Out<'a> {
    pub to: Streams,
    pub bytes: &'a mut [u8],
    pub waiting: Option<usize>,
}

impl<'a> Out<'a> {
    // Nothing waits yet.
    pub fn new(to: Streams, bytes: &'a mut [u8]) -> Out<'a>
        ensures same_buffer { result.bytes.ghost_name ≡ bytes.entry.ghost_name }
        ensures start { (result.bytes.now ≡ bytes.old) × (count result.waiting ≡ 0) }
    {
        Out {
            to,
            bytes,
            waiting: Some(0),
        }
    }

    // The bytes that wait; none once a write has failed.
    pub fn waiting(&self) -> &[u8]
        ensures { count self.now.waiting < stopped → result.now ≡ take (count self.now.waiting) self.now.bytes.now }
    {
        match self.waiting {
            Some(n) => front(self.bytes, n),
            None => &[],
        }
    }

    // Whether the waiting bytes could be written.
    fn write(&self) -> bool
        ensures { result ≡ true → (count self.now.waiting ≤ length self.now.bytes.now) × (count self.now.waiting < stopped) }
    {
        match self.waiting {
            Some(n) => n <= self.bytes.len() && print(self.to, &self.bytes[..n]),
            None => false,
        }
    }

    // Writes the waiting bytes, and answers whether that and all writes before went well.
    pub fn flush(&mut self) -> bool
        ensures told { Told (count self.new.waiting ≡ 0) result }
        ensures kept { self.new.bytes.now ≡ self.old.bytes.now }
        ensures same_buffer { self.new.bytes.ghost_name ≡ self.old.bytes.ghost_name }
        ensures flushed { Flushed self.old.bytes.now (count self.old.waiting) (count self.new.waiting) }
    {
        let written = self.write();
        self.waiting = if written { Some(0) } else { None };
        written
    }

    // How many places there are behind the waiting bytes; none once a write has failed.
    pub(crate) fn places(&self) -> usize
        ensures { result ≡ length self.now.bytes.now - count self.now.waiting }
    {
        match self.waiting {
            Some(n) => self.bytes.len().saturating_sub(n),
            None => 0,
        }
    }

    // Stores a byte behind the waiting ones, where it has a place, and answers whether it has.
    fn store(&mut self, byte: u8) -> bool
        ensures placed { result ≡ true → Stored byte (seen self.old) (seen self.new) }
        ensures full { result ≡ false → (seen self.new ≡ seen self.old) × (length self.old.bytes.now ≤ count self.old.waiting) }
    {
        let Some(n) = self.waiting else {
            return false;
        };
        if n < self.bytes.len() {
            self.bytes[n] = byte;
            self.waiting = Some(n + 1);
            return true;
        }
        false
    }

    // Puts a byte behind the waiting ones, which are written first where the buffer is full.
    pub fn put(&mut self, byte: u8)
        ensures { TextPut (byte ∷ []) (seen self.old) (seen self.new) }
    {
        if self.store(byte) {
            return;
        }
        self.flush();
        if self.store(byte) {
            return;
        }
        self.waiting = None;
    }

    // Puts bytes, one after the other.
    pub fn put_all(&mut self, bytes: &[u8])
        ensures { TextPut bytes.now (seen self.old) (seen self.new) }
    {
        for byte in bytes {
            self.put(*byte);
        }
    }

    // Puts a number in decimal.
    pub fn put_number(&mut self, n: u64)
        ensures { TextPut (decimal n) (seen self.old) (seen self.new) }
    {
        let mut digits = [0u8; 20];
        let k = io::decimal(n, &mut digits);
        self.put_all(&digits[..k]);
    }
}
