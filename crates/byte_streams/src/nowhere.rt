//! A sink that keeps nothing.

ghost use Rattle.std.specs.Prelude.{None, false};

use crate::sink::Sink;

/// Takes all that is written, and keeps nothing.
#[derive(Drop)]
pub struct Nowhere;

impl Sink for Nowhere {
    ghost state = { λ sink. record { taken = None; failed = false } };

    fn put(&mut self, bytes: &[u8]) -> usize {
        bytes.len()
    }

    fn failed(&self) -> bool {
        false
    }
}
