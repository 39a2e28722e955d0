//! The logical operators on words that mark values.

ghost use Rattle.std.specs.Prelude.{List};
ghost use Rattle.vhdl_values.specs.Logic.{not_of_all};
ghost use Rattle.vhdl_values.specs.Marked.{Combines, IsMarkedBy};
ghost use Rattle.vhdl_values.specs.declared.kinds.Logic.TheVariants.{And, Or, Xor};
ghost use Rattle.vhdl_values.specs.declared.scalar.Nine.{Nine};

use crate::kinds::Logic;

/// Which values of a vector the operators take for 1, for 0 and for U: bit k of each word stands
/// for the value k places from the right. What none of them marks is taken for X.
#[derive(Clone, Copy)]
pub(crate) struct Stripped {
    pub(crate) ones: u64,
    pub(crate) zeros: u64,
    pub(crate) unset: u64,
}

impl Stripped {
    /// `not` of each value.
    pub(crate) fn not(self) -> Stripped
        ensures { (vs : List Nine) → IsMarkedBy self vs → IsMarkedBy result (not_of_all vs) }
    {
        Stripped {
            ones: self.zeros,
            zeros: self.ones,
            unset: self.unset,
        }
    }

    /// `and`: 0 wins, then U, then X.
    fn and(self, other: Stripped) -> Stripped
        ensures { Combines And self other result }
    {
        let zeros = self.zeros | other.zeros;
        Stripped {
            ones: self.ones & other.ones,
            zeros,
            unset: (self.unset | other.unset) & !zeros,
        }
    }

    /// `or`: 1 wins, then U, then X.
    fn or(self, other: Stripped) -> Stripped
        ensures { Combines Or self other result }
    {
        let ones = self.ones | other.ones;
        Stripped {
            ones,
            zeros: self.zeros & other.zeros,
            unset: (self.unset | other.unset) & !ones,
        }
    }

    /// `xor`: U wins, then X.
    fn xor(self, other: Stripped) -> Stripped
        ensures { Combines Xor self other result }
    {
        Stripped {
            ones: self.ones & other.zeros | self.zeros & other.ones,
            zeros: self.ones & other.ones | self.zeros & other.zeros,
            unset: self.unset | other.unset,
        }
    }

    /// The operator of two vectors of one length.
    pub(crate) fn logic(self, kind: Logic, other: Stripped) -> Stripped
        ensures { Combines kind self other result }
    {
        match kind {
            Logic::And => self.and(other),
            Logic::Or => self.or(other),
            Logic::Xor => self.xor(other),
            Logic::Nand => self.and(other).not(),
            Logic::Nor => self.or(other).not(),
            Logic::Xnor => self.xor(other).not(),
        }
    }
}
