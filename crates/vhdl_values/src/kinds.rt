//! Kinds of edges, of relations and of operators.

use crate::scalar::Nine;

/// What counts as an edge of a scalar signal.
#[derive(Clone, Copy)]
pub enum Edge {
    /// `rising_edge(s)`: from 0 or L to 1 or H.
    Rising,
    /// `falling_edge(s)`: from 1 or H to 0 or L.
    Falling,
    /// `s'event and s = '1'`: from any other value to exactly 1.
    To1,
    /// `s'event and s = '0'`: from any other value to exactly 0.
    To0,
}

/// A relation of two numbers: `=`, `/=`, `<`, `<=`, `>` and `>=`.
#[derive(Clone, Copy)]
pub enum Cmp {
    Eq,
    Ne,
    Lt,
    Le,
    Gt,
    Ge,
}

/// A logical operator of two operands.
#[derive(Clone, Copy, PartialEq, Eq)]
pub enum Logic {
    And,
    Or,
    Nand,
    Nor,
    Xor,
    Xnor,
}

/// A shift or rotate of numeric_std, by a number of places.
#[derive(Clone, Copy, PartialEq, Eq)]
pub enum Shift {
    /// `shift_left`.
    Left,
    /// `shift_right`.
    Right,
    /// `shift_right` of a `signed`.
    RightSigned,
    /// `rotate_left`.
    RotateLeft,
}

/// An operator of numeric_std on a vector with a count beside it: a length, or how many places.
#[derive(Clone, Copy, PartialEq, Eq)]
pub enum Counted {
    /// `resize`.
    Resize,
    /// `resize` of a `signed`.
    ResizeSigned,
    Shift(Shift),
}

impl Counted {
    ghost use Rattle.std.specs.Prelude.{◌≡◌};
    ghost use Rattle.vhdl_values.specs.Shifts.{counted_length};

    /// The length of what it makes, with this count, of a vector of this length.
    pub fn length(self, count: usize, len: usize) -> usize
        ensures { result ≡ counted_length self count len }
    {
        match self {
            Counted::Resize | Counted::ResizeSigned => count,
            Counted::Shift(_) => len,
        }
    }
}

impl Logic {
    ghost use Rattle.std.specs.Prelude.{◌≡◌};
    ghost use Rattle.vhdl_values.specs.Logic.{logic_of};

    /// The operator of two values (std_logic_1164).
    pub fn of(self, left: Nine, right: Nine) -> Nine
        ensures { result ≡ logic_of self left right }
    {
        match self {
            Logic::And => left.and(right),
            Logic::Or => left.or(right),
            Logic::Nand => left.nand(right),
            Logic::Nor => left.nor(right),
            Logic::Xor => left.xor(right),
            Logic::Xnor => left.xnor(right),
        }
    }
}

impl Cmp {
    ghost use Rattle.std.specs.Prelude.{◌≡◌};
    ghost use Rattle.vhdl_values.specs.Relations.{holds, holds_of_unknowns};

    /// Whether two numbers have the relation.
    pub(crate) fn holds(self, left: u64, right: u64) -> bool
        ensures { result ≡ holds self left right }
    {
        match self {
            Cmp::Eq => left == right,
            Cmp::Ne => left != right,
            Cmp::Lt => left < right,
            Cmp::Le => left <= right,
            Cmp::Gt => left > right,
            Cmp::Ge => left >= right,
        }
    }

    /// Whether the relation holds where an operand is no number: `Ne` alone does.
    pub(crate) fn holds_of_unknowns(self) -> bool
        ensures { result ≡ holds_of_unknowns self }
    {
        matches!(self, Cmp::Ne)
    }
}
