//! Sinks.

ghost use Rattle.std.specs.Prelude.{◌≡◌, ◌≤◌, ◌||◌, length, take};
ghost use Rattle.std.specs.Io.KnownBytes.{Appends};
ghost use Rattle.byte_streams.specs.Written.{SinkState, fails_at};

use thiserror::Error;

/// The sink took less than the whole text.
#[derive(Clone, Copy, Debug, Error)]
#[error("the output failed")]
pub struct WriteFailed;

/// Takes bytes in order, until it fails.
pub trait Sink {
    // The bytes taken so far, and whether it has failed.
    ghost state: { Self → SinkState };

    /// Takes a beginning of the bytes, and answers how many. To take none of some is a failure.
    fn put(&mut self, bytes: &[u8]) -> usize
        ensures within { result ≤ length bytes.now }
        ensures bytes { Appends (state self.old).taken (state self.new).taken (take result bytes.now) }
        ensures failure { (state self.new).failed ≡ ((state self.old).failed || fails_at result bytes.now) };

    /// Whether it has failed, at this call or before.
    fn failed(&self) -> bool
        ensures { result ≡ (state self.now).failed };
}
