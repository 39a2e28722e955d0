//! Kinds of conversions, and of operators on numbers in two's complement.

/// A function of one vector, whose result is as long.
#[derive(Clone, Copy, PartialEq, Eq)]
pub enum Conversion {
    /// Each value as 0 or 1, and all 0 where one of them is none of 0, L, 1 and H: `to_01`.
    Cleaned,
    /// The vector as it is where its number lies in this range, and else all X.
    Within { least: i32, greatest: i32 },
    /// `abs`.
    Magnitude,
}

/// An operator on the numbers of two vectors: `*`, `/`, `mod` and `rem`.
#[derive(Clone, Copy, PartialEq, Eq)]
pub enum SignedOperator {
    Multiply,
    Divide,
    Modulo,
    Remainder,
}

impl SignedOperator {
    ghost use Rattle.std.specs.Prelude.{◌≡◌, ◌+◌, ◌<◌, ◌^◌};
    ghost use Rattle.vhdl_numbers.specs.Operators.{signed_length};

    /// The length of its result, of vectors of these lengths.
    pub fn length(self, left: usize, right: usize) -> usize
        requires { left + right < 2 ^ 64 }
        ensures { result ≡ signed_length self left right }
    {
        match self {
            SignedOperator::Multiply => left + right,
            SignedOperator::Divide => left,
            SignedOperator::Modulo | SignedOperator::Remainder => right,
        }
    }
}
