//! The bounds of vectors.

ghost use Rattle.std.specs.Prelude.{◌<◌, ◌^◌};

use vhdl_tree::Direction;

/// The bounds of a vector, as they are declared.
#[derive(Clone, Copy)]
pub struct Bounds {
    pub left: u32,
    pub direction: Direction,
    pub right: u32,
    ghost left_fits: { left < 2 ^ 31 },
    ghost right_fits: { right < 2 ^ 31 },
}
