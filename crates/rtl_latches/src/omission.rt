//! Where a body leaves out the assignment of a net.

ghost use Rattle.std.specs.Prelude.{◌≡◌};
ghost use Rattle.rtl_latches.specs.Omissions.{at_of};

/// Where a body leaves out the assignment of a net. `at` is the byte of the source at which the
/// statement starts.
#[derive(Clone, Copy, PartialEq, Eq, Hash)]
pub enum Omission {
    /// An if without an else, where no condition of it holds.
    NoElse { at: u32 },
    /// A branch of an if, counted from 1; the else is the last.
    Branch { at: u32, number: usize },
    /// An alternative of a case, counted from 1; the others are the last.
    Alternative { at: u32, number: usize },
    /// An assignment to the row at an index, where the index is that of another row.
    Row { at: u32 },
}

impl Omission {
    /// The byte of the source at which the statement starts.
    pub fn at(self) -> u32
        ensures { result ≡ at_of self }
    {
        match self {
            Omission::NoElse { at }
            | Omission::Branch { at, .. }
            | Omission::Alternative { at, .. }
            | Omission::Row { at } => at,
        }
    }
}
