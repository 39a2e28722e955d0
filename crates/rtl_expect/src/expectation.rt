//! Expectations.

ghost use Rattle.std.specs.Prelude.{◌≤◌, length};

use crate::expected::Wanted;

/// What is expected of a signal at a time, in ns, as a line says it.
#[derive(Drop)]
pub(crate) struct Expectation {
    pub(crate) line: usize,
    pub(crate) time: u64,
    pub(crate) signal: usize,
    pub(crate) wanted: Vec<Wanted>,
    ghost few: { length wanted.items ≤ 64 },
}
