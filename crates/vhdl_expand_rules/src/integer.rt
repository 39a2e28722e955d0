//! The values of static integers (IEEE 1076-2008, 9.4 and 9.2).

ghost use Rattle.std.specs.Prelude.{◌≡◌, ◌+ℤ◌, pos, Ok};
ghost use Rattle.vhdl_names_trees.specs.views.Integers.{static_view, start_view};
ghost use Rattle.vhdl_names_rules.specs.declared.operator.Arithmetic.TheVariants.{Modulo, Remainder};
ghost use Rattle.vhdl_expand_rules.specs.Integers as definition;
ghost use Rattle.vhdl_expand_rules.specs.views.Integers.{integers_view, range_view, Computes, Makes, in_range, with_sign, all_operated};

use crate::fault::{ElabFault, ElabProblem};
use crate::range::{IntegerRange, known_range};
use vhdl_lexer::MAX_INTEGER;
use vhdl_names_rules::Arithmetic;
use vhdl_names_trees::{Static, StaticLink, StaticStart};

/// The integers that are known where an expression stands: of generics and constants by their
/// numbers, and of the parameters of the generates and loops round it, the outermost first. What a
/// process declares is numbered behind what its instance does.
pub struct Integers<'a> {
    pub generics: &'a [i32],
    pub constants: &'a [i32],
    pub own_constants: &'a [i32],
    pub generates: &'a [i32],
    pub loops: &'a [i32],
    /// The declared ranges by their numbers.
    pub ranges: &'a [IntegerRange],
    pub own_ranges: &'a [IntegerRange],
}

/// A value that has to lie in the range of static integers.
fn checked(x: i32, at: usize) -> Result<i32, ElabFault>
    ensures { Computes (definition.checked_integer at x) result }
{
    if x.unsigned_abs() <= MAX_INTEGER {
        Ok(x)
    } else {
        Err(ElabProblem::StaticError.at(at))
    }
}

/// The result of an operator, if there is one.
fn within(x: Option<i32>, at: usize) -> Result<i32, ElabFault>
    ensures { Computes (in_range at x) result }
{
    match x {
        Some(x) => checked(x, at),
        None => Err(ElabProblem::StaticError.at(at)),
    }
}

/// A literal.
fn literal(n: u32, at: usize) -> Result<i32, ElabFault>
    ensures { Computes (definition.checked_integer at (pos n)) result }
{
    match i32::try_from(n) {
        Ok(x) => checked(x, at),
        Err(_) => Err(ElabProblem::StaticError.at(at)),
    }
}

/// An integer where a natural number is needed.
pub fn as_natural(x: i32, at: usize) -> Result<u32, ElabFault>
    ensures { Computes (definition.as_natural at x) result }
{
    match u32::try_from(x) {
        Ok(n) => Ok(n),
        Err(_) => Err(ElabProblem::StaticError.at(at)),
    }
}

/// The integer of this number.
fn known(xs: &[i32], number: usize, at: usize) -> Result<i32, ElabFault>
    ensures { Computes (definition.known_integer at xs.now number) result }
{
    match xs.get(number) {
        Some(x) => Ok(*x),
        None => Err(ElabProblem::StaticError.at(at)),
    }
}

/// `left rem right`, which has the sign of the dividend.
fn remainder(left: i32, right: i32, at: usize) -> Result<i32, ElabFault>
    ensures { Computes (definition.integer_operation at Remainder left right) result }
{
    if right == -1 {
        return Ok(0);
    }
    match left.checked_rem(right) {
        Some(remainder) => checked(remainder, at),
        None => Err(ElabProblem::StaticError.at(at)),
    }
}

/// `left + right`.
fn sum(left: i32, right: i32, at: usize) -> Result<i32, ElabFault>
    ensures { Computes (definition.checked_integer at (left +ℤ right)) result }
{
    within(left.checked_add(right), at)
}

/// Whether one is above 0 and the other below.
fn are_opposite(left: i32, right: i32) -> bool
    ensures { result ≡ definition.are_opposite left right }
{
    if right < 0 { left > 0 } else { left < 0 }
}

/// The modulus of this remainder: it has the sign of the divisor.
fn with_sign_of(right: i32, remainder: i32, at: usize) -> Result<i32, ElabFault>
    ensures { Computes (definition.checked_integer at (with_sign right remainder)) result }
{
    if are_opposite(remainder, right) {
        sum(remainder, right, at)
    } else {
        checked(remainder, at)
    }
}

/// `left mod right`, which has the sign of the divisor.
fn modulus(left: i32, right: i32, at: usize) -> Result<i32, ElabFault>
    ensures { Computes (definition.integer_operation at Modulo left right) result }
{
    let remainder = remainder(left, right, at)?;
    let modulus = with_sign_of(right, remainder, at)?;
    Ok(modulus)
}

/// `base ** exponent`, whose exponent is natural.
fn power(base: i32, exponent: i32, at: usize) -> Result<i32, ElabFault>
    ensures { Computes (definition.powered at base exponent) result }
{
    match u32::try_from(exponent) {
        Ok(n) => within(base.checked_pow(n), at),
        Err(_) => Err(ElabProblem::StaticError.at(at)),
    }
}

/// An operator's result. `at` is the byte at which the operator starts.
pub fn operated(operator: Arithmetic, left: i32, right: i32, at: usize) -> Result<i32, ElabFault>
    ensures { Computes (definition.integer_operation at operator left right) result }
{
    match operator {
        Arithmetic::Add => sum(left, right, at),
        Arithmetic::Subtract => within(left.checked_sub(right), at),
        Arithmetic::Multiply => within(left.checked_mul(right), at),
        Arithmetic::Divide => within(left.checked_div(right), at),
        Arithmetic::Modulo => modulus(left, right, at),
        Arithmetic::Remainder => remainder(left, right, at),
        Arithmetic::Power => power(left, right, at),
    }
}

impl Integers<'_> {
    /// These within loops whose parameters have these values.
    pub fn within<'b>(&'b self, loops: &'b [i32]) -> Integers<'b>
        ensures { integers_view result ≡ record (integers_view self.now) { loops = loops.now } }
    {
        Integers {
            generics: self.generics,
            constants: self.constants,
            own_constants: self.own_constants,
            generates: self.generates,
            loops,
            ranges: self.ranges,
            own_ranges: self.own_ranges,
        }
    }

    /// Lets them go.
    pub fn end(self) {
        let Integers {
            generics: _,
            constants: _,
            own_constants: _,
            generates: _,
            loops: _,
            ranges: _,
            own_ranges: _,
        } = self;
    }

    /// The constant of this number.
    fn constant(&self, number: usize, at: usize) -> Result<i32, ElabFault>
        ensures { Computes (definition.known_integer at (integers_view self.now).constants number) result }
    {
        match number.checked_sub(self.constants.len()) {
            None => known(self.constants, number, at),
            Some(number) => known(self.own_constants, number, at),
        }
    }

    /// The declared range of this number.
    pub(crate) fn range(&self, number: usize, at: usize) -> Result<IntegerRange, ElabFault>
        ensures { Makes range_view (definition.known_range at (integers_view self.now).ranges number) result }
    {
        match number.checked_sub(self.ranges.len()) {
            None => known_range(self.ranges, number, at),
            Some(number) => known_range(self.own_ranges, number, at),
        }
    }
}

impl Integers<'_> {
    /// The value of a static integer; a fault is StaticError. `at` is the byte that a fault names
    /// where no operator is to blame.
    #[cycle(integer)]
    #[tactic(auto, unfolding(crate::specs::Integers::integer))]
    pub fn integer(&self, value: &Static, at: usize) -> Result<i32, ElabFault>
        ensures { Computes (definition.integer (integers_view self.now) at (static_view value.now)) result }
    {
        match value {
            Static::Number(n) => literal(*n, at),
            Static::Generic(number) => known(self.generics, *number, at),
            Static::Constant(number) => self.constant(*number, at),
            Static::GenerateParameter(number) => known(self.generates, *number, at),
            Static::LoopParameter(number) => known(self.loops, *number, at),
            Static::LeastInteger => Ok(i32::MIN),
            Static::Negated(sign, operand) => {
                let x = self.integer(operand, *sign)?;
                within(x.checked_neg(), *sign)
            }
            Static::Absolute(sign, operand) => {
                let x = self.integer(operand, *sign)?;
                within(x.checked_abs(), *sign)
            }
            Static::Bound(bound, number) => {
                let range = self.range(*number, at)?;
                range.bound(*bound, at)
            }
            Static::SliceBound {
                at,
                bound,
                range,
                left,
                direction,
                right,
            } => {
                let whole = self.range(*range, *at)?;
                let left = self.integer(left, *at)?;
                let right = self.integer(right, *at)?;
                let slice = IntegerRange::new(left, *direction, right);
                whole.sliced_bound(slice, *bound, *at)
            }
            Static::Chain(start, links) => {
                let first = self.started(start)?;
                self.continued(first, links)
            }
        }
    }

    /// The value of a static integer that has to be natural; a fault is StaticError.
    #[tactic(auto, unfolding(crate::specs::Integers::natural))]
    pub fn natural(&self, value: &Static, at: usize) -> Result<u32, ElabFault>
        ensures { Computes (definition.natural (integers_view self.now) at (static_view value.now)) result }
    {
        let x = self.integer(value, at)?;
        as_natural(x, at)
    }

    /// The value of the first operator of a chain.
    #[cycle(integer)]
    #[tactic(auto, unfolding(crate::specs::Integers::integer))]
    fn started(&self, start: &StaticStart) -> Result<i32, ElabFault>
        ensures { Computes (definition.integer (integers_view self.now) start.now.link.at
            (start_view start.now)) result }
    {
        let at = start.link.at;
        let left = self.integer(&start.first, at)?;
        let right = self.integer(&start.link.operand, at)?;
        operated(start.link.operator, left, right, at)
    }

    /// The value of a chain's further operators, on the value of what stands before them.
    #[cycle(integer)]
    fn continued(&self, first: i32, links: &[StaticLink]) -> Result<i32, ElabFault>
        ensures { Computes (all_operated (integers_view self.now) first links.now) result }
    {
        let mut value = first;
        for link in links {
            let operand = self.integer(&link.operand, link.at)?;
            value = operated(link.operator, value, operand, link.at)?;
        }
        Ok(value)
    }
}
