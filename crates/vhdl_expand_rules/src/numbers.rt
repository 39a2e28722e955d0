//! Integer subtypes, computed (IEEE 1076-2008, 5.2.3, 6.3).

ghost use Rattle.std.specs.Prelude.{◌≡◌, option_map};
ghost use Rattle.vhdl_names_rules.specs.views.Ranges.{base_view};
ghost use Rattle.vhdl_names_trees.specs.views.Integers as names;
ghost use Rattle.vhdl_expand_rules.specs.Declarations as declarations;
ghost use Rattle.vhdl_expand_rules.specs.Integers as definition;
ghost use Rattle.vhdl_expand_rules.specs.Kinds as kinds;
ghost use Rattle.vhdl_expand_rules.specs.views.Integers.{integers_view, range_view, if_any, Computes, Makes};
ghost use Rattle.vhdl_expand_rules.specs.views.Numbers.{numbers_view, written_view};

use crate::decision::is_null;
use crate::fault::{ElabFault, ElabProblem};
use crate::integer::Integers;
use crate::range::IntegerRange;
use vhdl_names_rules::{IntegerBase, IntegerType};
use vhdl_names_trees::{IntegerSubtype, Static, StaticRange};
use vhdl_tree::Direction;

/// Which integers a subtype has: those of a type, or those in a range.
#[derive(Clone, Copy)]
pub enum Numbers {
    Type(IntegerType),
    Range(IntegerRange),
}

impl Numbers {
    /// Whether a number is one of them.
    pub fn have(self, x: i32) -> bool
        ensures { result ≡ definition.have (numbers_view self) x }
    {
        match self {
            Numbers::Type(IntegerType::Integer) => true,
            Numbers::Type(IntegerType::Natural) => 0 <= x,
            Numbers::Type(IntegerType::Positive) => 0 < x,
            Numbers::Range(range) => range.has(x),
        }
    }

    /// The range of a subtype, which a type hasn't.
    pub fn range(self) -> Option<IntegerRange>
        ensures { declarations.numbers_ranges (numbers_view self) ≡ if_any (option_map range_view result) }
    {
        match self {
            Numbers::Type(_) => None,
            Numbers::Range(range) => Some(range),
        }
    }

    /// The range of all of them, a type's too.
    pub fn whole_range(self) -> IntegerRange
        ensures { range_view result ≡ kinds.range_of (numbers_view self) }
    {
        let to = Direction::To;
        match self {
            Numbers::Type(IntegerType::Integer) => IntegerRange::new(i32::MIN, to, i32::MAX),
            Numbers::Type(IntegerType::Natural) => IntegerRange::new(0, to, i32::MAX),
            Numbers::Type(IntegerType::Positive) => IntegerRange::new(1, to, i32::MAX),
            Numbers::Range(range) => range,
        }
    }
}

impl Integers<'_> {
    /// Those of a type, or in the declared range of a number.
    fn base_numbers(&self, base: IntegerBase, at: usize) -> Result<Numbers, ElabFault>
        ensures { Makes numbers_view (definition.base_numbers (integers_view self.now) at (base_view base))
            result }
    {
        match base {
            IntegerBase::Type(own) => Ok(Numbers::Type(own)),
            IntegerBase::Range(number) => {
                let range = self.range(number, at)?;
                Ok(Numbers::Range(range))
            }
        }
    }

    /// Those of a base in a range that starts at byte `at`; a fault is StaticError or GenericRange.
    fn numbers_in(
        &self,
        base: Numbers,
        range: &StaticRange,
        at: usize,
    ) -> Result<Numbers, ElabFault>
        ensures { Makes numbers_view
            (definition.numbers_within (integers_view self.now) (numbers_view base) (written_view at range.now))
            result }
    {
        let left = self.integer(&range.left, at)?;
        let right = self.integer(&range.right, at)?;
        let direction = range.direction;
        if !is_null(direction, left, right) && !(base.have(left) && base.have(right)) {
            return Err(ElabProblem::GenericRange.at(at));
        }
        Ok(Numbers::Range(IntegerRange::new(left, direction, right)))
    }

    /// Those of a subtype; what is wrong with a range that stands there is told where it starts,
    /// and else at byte `at`.
    #[tactic(auto, unfolding(crate::specs::Integers::numbers_of))]
    pub fn numbers_of(&self, of: &IntegerSubtype, at: usize) -> Result<Numbers, ElabFault>
        ensures { Makes numbers_view
            (definition.numbers_of (integers_view self.now) at (names.subtype_view of.now)) result }
    {
        let base = self.base_numbers(of.base, at)?;
        match &of.range {
            None => Ok(base),
            Some((start, range)) => self.numbers_in(base, range, *start),
        }
    }

    /// The value of a static integer that has to be one of these; a fault is StaticError or
    /// GenericRange.
    pub fn integer_among(
        &self,
        numbers: Numbers,
        value: &Static,
        at: usize,
    ) -> Result<i32, ElabFault>
        ensures { Computes
            (definition.integer_among (integers_view self.now) at (numbers_view numbers)
            (names.static_view value.now)) result }
    {
        let x = self.integer(value, at)?;
        if !numbers.have(x) {
            return Err(ElabProblem::GenericRange.at(at));
        }
        Ok(x)
    }

    /// The value of a constant of a subtype of integers.
    #[tactic(auto, unfolding(crate::specs::Integers::integer_of))]
    pub fn integer_of(
        &self,
        of: &IntegerSubtype,
        value: &Static,
        at: usize,
    ) -> Result<i32, ElabFault>
        ensures { Computes
            (definition.integer_of (names.subtype_view of.now) (integers_view self.now) at
            (names.static_view value.now)) result }
    {
        let numbers = self.numbers_of(of, at)?;
        self.integer_among(numbers, value, at)
    }
}
