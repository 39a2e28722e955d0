//! The turns of loops and generates (IEEE 1076-2008, 10.10, 11.9).

ghost use Rattle.std.specs.Prelude.{◌≡◌, ◌≤◌, ◌<◌};
ghost use Rattle.vhdl_expand_rules.specs.Integers.{most_turns};
ghost use Rattle.vhdl_expand_rules.specs.Parameters as definition;
ghost use Rattle.vhdl_expand_rules.specs.Parameters.{AreWords};

use vhdl_tree::Direction;

/// The most turns that a loop or generate takes by itself.
pub(crate) const MAX_TURNS: u64 = 4096;

/// The turns of a loop or generate: the values of its parameter are `count` numbers from `first`
/// on.
#[derive(Clone, Copy)]
pub struct Turns {
    pub first: i32,
    pub direction: Direction,
    pub count: u32,
    ghost few: { count ≤ most_turns },
    ghost words: { AreWords direction first count },
}

impl Turns {
    /// The value of the parameter in the turn of this number, counted from 0.
    pub fn parameter(self, turn: u32) -> i32
        requires { turn < self.count }
        ensures { result ≡ definition.parameter self.direction self.first turn }
    {
        match self.direction {
            Direction::To => self.first + turn as i32,
            Direction::Downto => self.first - turn as i32,
        }
    }
}
