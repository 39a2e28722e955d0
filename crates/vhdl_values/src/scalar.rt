//! One value of std_logic.

ghost use Rattle.std.specs.Prelude.{◌≡◌, ◌<◌, None, Some, if◌then◌else◌, slice_get};
ghost use Rattle.vhdl_values.specs.Scalar.{nines, code_of, letter_of, value_of_letter, x01_of, is_true, value_of_truth};
ghost use Rattle.vhdl_values.specs.Logic.{and_of, or_of, xor_of, not_of};

/// One of the nine values of a `std_ulogic`, in the order of package std_logic_1164.
#[derive(Clone, Copy, PartialEq, Eq)]
pub enum Nine {
    /// `U`: uninitialized.
    U,
    /// `X`: forcing unknown.
    X,
    /// `0`: forcing 0.
    Zero,
    /// `1`: forcing 1.
    One,
    /// `Z`: high impedance.
    Z,
    /// `W`: weak unknown.
    W,
    /// `L`: weak 0.
    L,
    /// `H`: weak 1.
    H,
    /// `-`: don't care.
    Dash,
}

impl Nine {
    /// The place of the value in the order of the package, 0 for `U` to 8 for `-`.
    pub fn code(self) -> u8
        ensures code { result ≡ code_of self }
        ensures place { slice_get nines result ≡ Some self }
        ensures below { result < 9 }
    {
        self as u8
    }

    /// The value at a place in the order of the package, `None` from 9 on.
    pub fn from_code(code: u8) -> Option<Nine>
        ensures { result ≡ slice_get nines code }
    {
        match code {
            0 => Some(Nine::U),
            1 => Some(Nine::X),
            2 => Some(Nine::Zero),
            3 => Some(Nine::One),
            4 => Some(Nine::Z),
            5 => Some(Nine::W),
            6 => Some(Nine::L),
            7 => Some(Nine::H),
            8 => Some(Nine::Dash),
            _ => None,
        }
    }

    /// The character of the value, one of `UX01ZWLH-`.
    pub fn byte(self) -> u8
        ensures { result ≡ letter_of self }
    {
        match self {
            Nine::U => b'U',
            Nine::X => b'X',
            Nine::Zero => b'0',
            Nine::One => b'1',
            Nine::Z => b'Z',
            Nine::W => b'W',
            Nine::L => b'L',
            Nine::H => b'H',
            Nine::Dash => b'-',
        }
    }

    /// The value of a character, letters in either case, `None` where it is none of the nine.
    pub fn from_byte(byte: u8) -> Option<Nine>
        ensures { result ≡ value_of_letter byte }
    {
        match byte.to_ascii_uppercase() {
            b'U' => Some(Nine::U),
            b'X' => Some(Nine::X),
            b'0' => Some(Nine::Zero),
            b'1' => Some(Nine::One),
            b'Z' => Some(Nine::Z),
            b'W' => Some(Nine::W),
            b'L' => Some(Nine::L),
            b'H' => Some(Nine::H),
            b'-' => Some(Nine::Dash),
            _ => None,
        }
    }

    /// The value as one of 0, 1 and X (std_logic_1164, `To_X01`): 0 of 0 and L, 1 of 1 and H.
    pub fn x01(self) -> Nine
        ensures { result ≡ x01_of self }
    {
        match self {
            Nine::Zero | Nine::L => Nine::Zero,
            Nine::One | Nine::H => Nine::One,
            _ => Nine::X,
        }
    }

    /// The value that stands for a truth: 1 or 0.
    pub fn of_truth(truth: bool) -> Nine
        ensures { result ≡ value_of_truth truth }
    {
        if truth { Nine::One } else { Nine::Zero }
    }

    /// Whether a condition of this value holds (std_logic_1164, `??`): 1 and H alone do.
    pub fn is_true(self) -> bool
        ensures { result ≡ is_true self }
    {
        matches!(self, Nine::One | Nine::H)
    }

    /// `not` (std_logic_1164, `not_table`).
    pub fn not(self) -> Nine
        ensures { result ≡ not_of self }
    {
        match self {
            Nine::U => Nine::U,
            Nine::Zero | Nine::L => Nine::One,
            Nine::One | Nine::H => Nine::Zero,
            _ => Nine::X,
        }
    }

    /// `and` (std_logic_1164, `and_table`): a 0 or L on either side wins, then U, then X.
    pub fn and(self, other: Nine) -> Nine
        ensures { result ≡ and_of self other }
    {
        match (self, other) {
            (Nine::Zero | Nine::L, _) | (_, Nine::Zero | Nine::L) => Nine::Zero,
            (Nine::U, _) | (_, Nine::U) => Nine::U,
            (Nine::One | Nine::H, Nine::One | Nine::H) => Nine::One,
            _ => Nine::X,
        }
    }

    /// `or` (std_logic_1164, `or_table`): a 1 or H on either side wins, then U, then X.
    pub fn or(self, other: Nine) -> Nine
        ensures { result ≡ or_of self other }
    {
        match (self, other) {
            (Nine::One | Nine::H, _) | (_, Nine::One | Nine::H) => Nine::One,
            (Nine::U, _) | (_, Nine::U) => Nine::U,
            (Nine::Zero | Nine::L, Nine::Zero | Nine::L) => Nine::Zero,
            _ => Nine::X,
        }
    }

    /// `xor` (std_logic_1164, `xor_table`): a U on either side wins, then X.
    pub fn xor(self, other: Nine) -> Nine
        ensures { result ≡ xor_of self other }
    {
        match (self, other) {
            (Nine::U, _) | (_, Nine::U) => Nine::U,
            (Nine::Zero | Nine::L, _) => other.x01(),
            (Nine::One | Nine::H, _) => other.x01().not(),
            _ => Nine::X,
        }
    }

    /// `nand`: `not` of `and`.
    pub fn nand(self, other: Nine) -> Nine
        ensures { result ≡ not_of (and_of self other) }
    {
        self.and(other).not()
    }

    /// `nor`: `not` of `or`.
    pub fn nor(self, other: Nine) -> Nine
        ensures { result ≡ not_of (or_of self other) }
    {
        self.or(other).not()
    }

    /// `xnor`: `not` of `xor`.
    pub fn xnor(self, other: Nine) -> Nine
        ensures { result ≡ not_of (xor_of self other) }
    {
        self.xor(other).not()
    }
}
