//! Four words that codes are put into one after the other.

ghost use Rattle.std.specs.Prelude.{ℕ, ◌≤◌, ◌++◌, ◌+◌, List, [], length};
ghost use Rattle.vhdl_values.specs.Packed.{Hold};

use crate::transposed::{gathered, packed};
use crate::words::beside;

/// The bits of codes, leftmost first: bit k of a word stands for the code k places from the right.
#[derive(Clone, Copy)]
pub(crate) struct Planes {
    pub(crate) first: u64,
    pub(crate) second: u64,
    pub(crate) third: u64,
    pub(crate) fourth: u64,
}

impl Planes {
    /// No code.
    fn new() -> Planes
        ensures { Hold result [] }
    {
        Planes {
            first: 0,
            second: 0,
            third: 0,
            fourth: 0,
        }
    }

    /// The planes of up to 64 codes.
    pub(crate) fn of(codes: &[u8]) -> Planes
        requires { length codes.now ≤ 64 }
        ensures { Hold result codes.now }
    {
        let mut planes = Planes::new();
        let whole = codes.len() / 8;
        for group in 0..whole {
            planes = planes.and_group(&codes[8 * group..8 * group + 8]);
        }
        planes.and_group(&codes[8 * whole..])
    }

    /// The codes, and up to eight more to their right.
    fn and_group(self, group: &[u8]) -> Planes
        requires { length group.now ≤ 8 }
        ensures { (codes : List ℕ) → length codes + length group.now ≤ 64 → Hold self codes
            → Hold result (codes ++ group.now) }
    {
        let (word, len) = (packed(group), group.len());
        Planes {
            first: beside(self.first, gathered(word, 0), len),
            second: beside(self.second, gathered(word, 1), len),
            third: beside(self.third, gathered(word, 2), len),
            fourth: beside(self.fourth, gathered(word, 3), len),
        }
    }
}
