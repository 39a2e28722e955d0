//! Constants that are no integers.

ghost use Rattle.std.specs.Prelude.{◌≡◌, length};
ghost use Rattle.rtl_model.specs.bodies.Fits.{IsWidth};
ghost use Rattle.vhdl_expand_rules.specs.Kinds.{size};
ghost use Rattle.vhdl_expand_rules.specs.views.Kinds.{kind_view};

use vhdl_expand_rules::ObjectKind;
use vhdl_values::Vec9;

/// A constant that is no integer, and the values of its elements from the left.
#[derive(Drop)]
pub struct Constant {
    pub kind: ObjectKind,
    pub values: Vec9,
    ghost as_long: { length values ≡ size (kind_view kind) },
    ghost is_vector: { IsWidth (size (kind_view kind)) },
}

impl Constant {
    /// The same once more.
    pub fn copied(&self) -> Constant
        ensures { result ≡ self.now }
    {
        Constant {
            kind: self.kind,
            values: self.values,
        }
    }
}
