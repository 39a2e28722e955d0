//! The sets of values that are asked for.

ghost use Rattle.std.specs.Prelude.{◌≡◌, ◌<◌, IsTrue};
ghost use Rattle.rtl_process_kinds.specs.AskedValues.{is_asked, asked_through, number_of, numbered};

/// A set of values of a net: that which a reset's test asks for, or those whose copy is asked for.
#[derive(Clone, Copy)]
pub enum Asked {
    /// '0' alone.
    Zero,
    /// '1' alone.
    One,
    /// '0' and 'L'.
    Low,
    /// '1' and 'H'.
    High,
}

impl Asked {
    /// Whether the value with this code is in the set.
    pub fn has(self, value: u8) -> bool
        ensures { result ≡ is_asked self value }
    {
        match self {
            Asked::Zero => value == 2,
            Asked::One => value == 3,
            Asked::Low => value == 2 || value == 6,
            Asked::High => value == 3 || value == 7,
        }
    }

    /// The code of a value of the set.
    pub fn value(self) -> u8
        ensures set { IsTrue (is_asked self result) }
        ensures nine { result < 9 }
    {
        match self {
            Asked::Zero | Asked::Low => 2,
            Asked::One | Asked::High => 3,
        }
    }

    /// The values whose copy, as it is or by `not`, is in the set.
    pub fn through(self, inverted: bool) -> Asked
        ensures { result ≡ asked_through self inverted }
    {
        if !inverted {
            return self;
        }
        match self {
            Asked::Zero | Asked::Low => Asked::High,
            Asked::One | Asked::High => Asked::Low,
        }
    }

    /// The set with a number.
    pub fn numbered(number: usize) -> Asked
        ensures { result ≡ numbered number }
    {
        match number {
            0 => Asked::Zero,
            1 => Asked::One,
            2 => Asked::Low,
            _ => Asked::High,
        }
    }

    /// The set's number, below four.
    pub fn number(self) -> usize
        ensures { result ≡ number_of self }
    {
        match self {
            Asked::Zero => 0,
            Asked::One => 1,
            Asked::Low => 2,
            Asked::High => 3,
        }
    }
}
