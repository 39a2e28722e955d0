//! Readers.

ghost use Rattle.std.specs.Prelude.{◌≡◌, ◌≤◌, false, length, take, Some};
ghost use Rattle.std.specs.Io.KnownBytes.{Consumes};
ghost use Rattle.byte_streams.specs.Read.{ReaderState, EndsOrFails, StaysFailed};

use std::io::{ErrorKind, Read};

/// How often a read that a signal interrupts is tried.
const TRIES: usize = 1000;

/// Gives bytes in order, until their end, or until it fails.
pub trait Reader {
    // The bytes that are left, where they are known, and whether it has failed.
    ghost state: { Self → ReaderState };

    /// Gives the next bytes, at the front of the buffer, and answers how many: none at the end of
    /// the bytes, where it has failed, or where the buffer has no room.
    fn get(&mut self, buffer: &mut [u8]) -> usize
        ensures within { result ≤ length buffer.new }
        ensures bytes { Consumes (state self.old).left (state self.new).left (take result buffer.new) }
        ensures end { EndsOrFails result buffer.new (state self.new) }
        ensures failure { StaysFailed (state self.old) (state self.new) };

    /// Whether it has failed, at this call or before.
    fn failed(&self) -> bool
        ensures { result ≡ (state self.now).failed };
}

/// A reader of the system, and whether it has failed.
#[derive(Drop)]
pub struct In<R: Read> {
    reader: R,
    failed: bool,
}

impl<R: Read> In<R> {
    /// A reader that has what this one has left, and has not failed.
    pub fn new(reader: R) -> Self
        ensures left { (⟦<In<R> as Reader>⟧.state result).left ≡ R.remaining reader }
        ensures intact { (⟦<In<R> as Reader>⟧.state result).failed ≡ false }
    {
        In {
            reader,
            failed: false,
        }
    }
}

impl<R: Read> Reader for In<R> {
    ghost state = { λ s. record { left = R.remaining s.reader; failed = s.failed } };

    fn get(&mut self, buffer: &mut [u8]) -> usize {
        for _ in 0..TRIES {
            match self.reader.read(buffer) {
                Ok(count) => return count,
                Err(error) if error.kind() == ErrorKind::Interrupted => {}
                Err(_) => break,
            }
        }
        self.failed = true;
        0
    }

    fn failed(&self) -> bool {
        self.failed
    }
}

/// Bytes in memory, which never fail.
impl Reader for &[u8] {
    ghost state = { λ s. record { left = Some s.now; failed = false } };

    fn get(&mut self, buffer: &mut [u8]) -> usize {
        let count = buffer.len().min(self.len());
        let (part, rest) = self.split_at(count);
        buffer[..count].copy_from_slice(part);
        *self = rest;
        count
    }

    fn failed(&self) -> bool {
        false
    }
}
