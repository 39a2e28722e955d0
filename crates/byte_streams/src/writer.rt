//! A sink over any writer.

ghost use Rattle.std.specs.Prelude.{◌≡◌, false};
ghost use Rattle.byte_streams.specs.Written.{IsIntact};

use crate::sink::Sink;
use std::io::{ErrorKind, Write};

/// How often a write that a signal interrupts is tried.
const TRIES: usize = 1000;

/// A writer, and whether it has failed.
#[derive(Drop)]
pub struct Out<W: Write> {
    writer: W,
    failed: bool,
}

impl<W: Write> Out<W> {
    /// A sink that has taken what the writer holds, and has not failed.
    pub fn new(writer: W) -> Self
        ensures bytes { (⟦<Out<W> as Sink>⟧.state result).taken ≡ W.contents writer }
        ensures intact { IsIntact (⟦<Out<W> as Sink>⟧.state result) }
    {
        Out {
            writer,
            failed: false,
        }
    }

    /// The writer, with what was taken.
    pub fn into_inner(self) -> W
        ensures { W.contents result ≡ (⟦<Out<W> as Sink>⟧.state self).taken }
    {
        let Out { writer, .. } = self;
        writer
    }
}

impl<W: Write> Sink for Out<W> {
    ghost state = { λ s. record { taken = W.contents s.writer; failed = s.failed } };

    fn put(&mut self, bytes: &[u8]) -> usize {
        if bytes.is_empty() {
            return 0;
        }
        for _ in 0..TRIES {
            match self.writer.write(bytes) {
                Ok(count) if count > 0 => return count,
                Err(error) if error.kind() == ErrorKind::Interrupted => {}
                _ => break,
            }
        }
        self.failed = true;
        0
    }

    fn failed(&self) -> bool {
        self.failed
    }
}
