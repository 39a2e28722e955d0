//! A reader and a writer that are interrupted, and fail.

ghost use Rattle.std.specs.Prelude.{Some};

use std::alloc::Global;
use std::io;
use std::io::{ErrorKind, Read, Write};

/// How a reader or a writer fails.
#[derive(Clone, Copy)]
pub enum Failure {
    /// One call fails, and later ones would go on.
    Once,
    /// Each call from then on is interrupted.
    Interrupted,
    /// No call from then on moves a byte.
    Stuck,
}

/// Moves a byte at some calls, each of which is interrupted before, and then fails.
#[derive(Clone, Copy)]
struct Moves {
    left: usize,
    failure: Failure,
    is_interrupted: bool,
}

impl Moves {
    fn new(count: usize, failure: Failure) -> Moves {
        Moves {
            left: count,
            failure,
            is_interrupted: false,
        }
    }

    /// Whether a call moves a byte.
    fn next(&mut self) -> io::Result<bool> {
        self.is_interrupted = !self.is_interrupted;
        if self.is_interrupted {
            return Err(io::Error::from(ErrorKind::Interrupted));
        }
        if let Some(left) = self.left.checked_sub(1) {
            self.left = left;
            return Ok(true);
        }
        match self.failure {
            Failure::Once => {
                self.left = usize::MAX;
                Err(io::Error::from(ErrorKind::Other))
            }
            Failure::Interrupted => Err(io::Error::from(ErrorKind::Interrupted)),
            Failure::Stuck => Ok(false),
        }
    }
}

/// Gives a text byte by byte.
#[derive(Drop)]
pub struct FailingReader<'a> {
    text: &'a [u8],
    moves: Moves,
}

impl<'a> FailingReader<'a> {
    /// A reader that fails after so many reads.
    pub fn new(text: &'a [u8], reads: usize, failure: Failure) -> FailingReader<'a> {
        FailingReader {
            text,
            moves: Moves::new(reads, failure),
        }
    }
}

impl Read for FailingReader<'_> {
    fn read(&mut self, buf: &mut [u8]) -> io::Result<usize> {
        match (self.moves.next()?, self.text, buf) {
            (true, [byte, rest @ ..], [place, ..]) => {
                *place = *byte;
                self.text = rest;
                Ok(1)
            }
            _ => Ok(0),
        }
    }
}

/// Gives bytes without end, so many a call at most.
#[derive(Drop)]
pub struct Endless {
    pub most: usize,
}

impl Read for Endless {
    fn read(&mut self, buf: &mut [u8]) -> io::Result<usize> {
        Ok(buf.len().min(self.most))
    }
}

/// Takes what is written byte by byte.
#[derive(Drop)]
pub struct FailingWriter {
    pub taken: Vec<u8>,
    moves: Moves,
}

impl FailingWriter {
    /// A writer that fails after so many writes.
    pub fn new(alloc: Global, writes: usize, failure: Failure) -> FailingWriter {
        FailingWriter {
            taken: Vec::new(alloc),
            moves: Moves::new(writes, failure),
        }
    }
}

impl Write for FailingWriter {
    ghost contents = { λ s. Some s.taken.items };

    fn write(&mut self, buf: &[u8]) -> io::Result<usize> {
        match (self.moves.next()?, buf) {
            (true, [byte, ..]) => {
                self.taken.push(*byte)?;
                Ok(1)
            }
            _ => Ok(0),
        }
    }

    fn flush(&mut self) -> io::Result<()> {
        Ok(())
    }
}
