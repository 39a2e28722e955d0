//! What differs from what is expected.

ghost use Rattle.std.specs.Prelude.{◌<◌, ◌-◌, ◌^◌, [], ◌∷◌, ◌++◌, List, length};
ghost use Rattle.rtl_expect.specs.Differences as spec;
ghost use Rattle.rtl_expect.specs.Watching.{Keeps, difference_view};

use arrayvec::ArrayVec;

/// The codes of a signal's values.
pub type Codes = ArrayVec<u8, 64>;

/// The codes that are wanted of a signal's elements; `None` is any.
pub type WantedCodes = ArrayVec<Option<u64>, 64>;

/// A line that expects what isn't so: of the signal of this number, at this time in ns. `found` has
/// the code of the value that each of its nets had then, from the left; it is `None` where the time
/// is behind the stop. `wanted` has those that are expected.
#[derive(Drop)]
pub struct Difference {
    pub line: usize,
    pub time: u64,
    pub signal: usize,
    pub wanted: WantedCodes,
    pub found: Option<Codes>,
}

/// The first lines that expect what isn't so, in order of time and of lines, and how many more
/// there are.
#[derive(Drop)]
pub struct FirstDifferences {
    pub told: Vec<Difference>,
    pub more: usize,
}

/// How many differences are told at most.
pub(crate) const MOST_TOLD: usize = 20;

impl FirstDifferences {
    /// Keeps a difference behind these, or counts it where as many are kept as are told.
    pub(crate) fn keep(&mut self, difference: Difference)
        ensures { (all : List spec.Difference) → length all < 2 ^ 64 - 1 → Keeps self.old all
            → Keeps self.new (all ++ difference_view difference ∷ []) }
    {
        if self.told.len() < MOST_TOLD {
            let _there_is_room = self.told.push(difference);
        } else {
            self.more = self.more.saturating_add(1);
        }
    }
}
