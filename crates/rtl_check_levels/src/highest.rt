//! What is seen of the levels of those that feed a row.

ghost use Rattle.std.specs.Prelude.{◌≡◌, ◌≢◌, ℕ, suc, ◌≤◌, ◌<◌, ◌⊎◌, All, length, slice_index, slice_index_or, Some, None, IsSome, ◌↔◌, IsTrue};
ghost use Rattle.rtl_check_levels.specs.Levels as s;
ghost use Rattle.rtl_check_levels.specs.Levels.{level_of, IsHighest, GivesWay, Higher, IsSeen};

use crate::counting::Counting;

/// The greatest level of some rows, and the lowest that is seen of those that have it; 0 and none
/// where no row has another level.
#[derive(Clone, Copy)]
pub struct Highest {
    pub level: u32,
    pub row: Option<usize>,
}

impl Highest {
    /// Whether a row of this level takes its place.
    fn gives_way(self, row: usize, level: u32) -> bool
        ensures { IsTrue result ↔ GivesWay self.level self.row row level }
    {
        level > self.level || (level == self.level && self.row.is_some_and(|p| row < p))
    }

    /// The higher of it and a row of this level of which this is seen, if something is.
    fn higher(self, seen: Option<usize>, level: u32) -> Self
        ensures { Higher self seen level result }
    {
        let Some(row) = seen else {
            return self;
        };
        if !self.gives_way(row, level) {
            return self;
        }
        Highest {
            level,
            row: Some(row),
        }
    }
}

/// What those that a row feeds see of it.
fn seen_of(counting: Counting<'_>, from: &[Option<usize>], row: usize) -> Option<usize>
    requires { row < length from.now }
    ensures { result ≡ s.seen_of counting.entry from.now row }
{
    if counting.counts(row) {
        Some(row)
    } else {
        from[row]
    }
}

/// The highest of these rows, which have levels.
pub fn highest_of(
    rows: &[usize],
    counting: Counting<'_>,
    levels: &[Option<u32>],
    from: &[Option<usize>],
) -> Highest
    requires there { All (λ p. p < length levels.now) rows.now }
    requires each_from { length from.now ≡ length levels.now }
    requires each { All (λ p. IsSome (level_of levels.now p)) rows.now }
    requires seen { (p level : ℕ) → level_of levels.now p ≡ Some level → IsSeen counting from.now p level }
    ensures { IsHighest counting.entry rows.now levels.now from.now result.level result.row }
{
    let mut highest = Highest {
        level: 0,
        row: None,
    };
    for &row in rows {
        if let Some(level) = levels[row] {
            highest = highest.higher(seen_of(counting, from, row), level);
        }
    }
    highest
}

/// The place of the first of these rows, from a place on, that has no level yet; their number where
/// all have.
pub fn first_open(rows: &[usize], levels: &[Option<u32>], from: usize) -> usize
    requires there { All (λ p. p < length levels.now) rows.now }
    requires within { from ≤ length rows.now }
    ensures within { result ≤ length rows.now }
    ensures later { from ≤ result }
    ensures passed { (k : ℕ) → from ≤ k → k < result → IsSome (level_of levels.now (slice_index rows.now k)) }
    ensures open { result < length rows.now → level_of levels.now (slice_index rows.now result) ≡ None }
{
    let mut at = from;
    while at < rows.len() && levels[rows[at]].is_some() {
        at += 1;
    }
    at
}
