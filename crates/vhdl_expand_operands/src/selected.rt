//! Expanded values with their lengths.

ghost use Rattle.std.specs.Prelude.{◌≡◌};
ghost use Rattle.rtl_model.specs.bodies.Fits.{value_width};
ghost use Rattle.rtl_net.specs.Bodies.{value_view};
ghost use Rattle.vhdl_expand_operands.specs.Sized.{IsSizedValue, sized_value_prop};

use crate::operand::Width;
use rtl_net::Value;

/// An expanded value, and how many elements it has.
#[derive(Drop)]
pub struct Selected {
    pub value: Value,
    pub width: Width,
    ghost counted: { value_width (value_view value) ≡ width.len },
    ghost sized: { IsSizedValue (value_view value) } by { sized_value_prop (value_view value) },
}
