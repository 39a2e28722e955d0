//! Codes that are made where they are to stand.

ghost use Rattle.std.specs.Prelude.{◌≡◌, ℕ, List, length, map};
ghost use Rattle.vhdl_values.specs.Scalar.{code_of};

use vhdl_values::Vec9;

/// What makes codes at the place where they are to stand.
pub trait Maker {
    // The codes, from the left.
    ghost made: { Self → List ℕ };

    /// Makes them, in place of as many others.
    fn make(&self, out: &mut [u8])
        requires { length out.old ≡ length (made self.now) }
        ensures { out.new ≡ made self.now };
}

/// Codes that stand elsewhere.
#[derive(Clone, Copy)]
pub(crate) struct Copied<'a> {
    pub(crate) codes: &'a [u8],
}

impl Maker for Copied<'_> {
    ghost made = { λ c. c.codes.now };

    fn make(&self, out: &mut [u8]) {
        out.copy_from_slice(self.codes);
    }
}

impl Maker for Vec9 {
    ghost made = { map code_of };

    fn make(&self, out: &mut [u8]) {
        self.write_codes(out);
    }
}
