//! Which rows of a table count as a level.

ghost use Rattle.std.specs.Prelude.{◌≡◌, if◌then◌else◌};
ghost use Rattle.rtl_check_levels.specs.Feeding.{counts_in};

/// Which rows of a table count as a level.
#[derive(Clone, Copy)]
pub enum Counting<'a> {
    /// Each, as where rows are processes.
    Each,
    /// Those that are marked. What feeds a row without a mark, such as a hub, is seen through it.
    Marked(&'a [bool]),
}

impl Counting<'_> {
    /// Whether a row counts.
    pub(crate) fn counts(self, row: usize) -> bool
        ensures { result ≡ counts_in self.entry row }
    {
        match self {
            Counting::Each => true,
            Counting::Marked(marks) => row < marks.len() && marks[row],
        }
    }

    /// 1 of a row that counts, else 0.
    pub(crate) fn as_level(self, row: usize) -> u32
        ensures { result ≡ (if counts_in self.entry row then 1 else 0) }
    {
        if self.counts(row) { 1 } else { 0 }
    }
}
