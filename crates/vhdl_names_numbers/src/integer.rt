//! Integers, static or computed, and what operators make of them (IEEE 1076-2008, 9.2.5 to 9.2.8).

ghost use Rattle.std.specs.Prelude.{◌≡◌, Some, IfOk, IfErr};
ghost use Rattle.vhdl_names_rules.specs.problems.Broken.{Tells, refused, lacking};
ghost use Rattle.vhdl_names_rules.specs.declared.fault.NameProblem.TheVariants.{TypeMismatch};
ghost use Rattle.vhdl_names_rules.specs.Expressions as rules;
ghost use Rattle.vhdl_names_rules.specs.Gives.{Gives};
ghost use Rattle.vhdl_names_rules.specs.Operators as table;
ghost use Rattle.vhdl_names_trees.specs.views.Vectors.{computed_view};
ghost use Rattle.vhdl_names_trees.specs.views.Expressions.{typed_view};
ghost use Rattle.vhdl_names_numbers.specs.Integers.{integer_view, operand_of, integer_of, integers_of, both_view};

use std::alloc::{AllocError, Global};
use vhdl_names_rules::{Arithmetic, NameFault, NameProblem, without};
use vhdl_names_trees::{Computed, Static, Typed};
use vhdl_tree::Sign;

/// An integer, which a run may compute.
#[derive(Drop)]
pub enum Integer {
    Static(Static),
    Computed(Computed),
}

impl Integer {
    /// The integer that an operand is, or else the operand.
    pub fn of(operand: Typed) -> Result<Integer, Typed>
        ensures given { IfOk result (λ i. integer_of (typed_view operand) ≡ Some (integer_view i)) }
        ensures same { IfOk result (λ i. operand_of i ≡ operand) }
        ensures other { IfErr result (λ o. o ≡ operand) }
        ensures none { IfErr result (λ _. integer_of (typed_view operand) ≡ None) }
    {
        match operand {
            Typed::Integer(integer) => Ok(Integer::Static(integer)),
            Typed::Computed(integer) => Ok(Integer::Computed(integer)),
            operand => Err(operand),
        }
    }

    /// As an operand.
    pub fn into_typed(self) -> Typed
        ensures { result ≡ operand_of self }
    {
        match self {
            Integer::Static(integer) => Typed::Integer(integer),
            Integer::Computed(integer) => Typed::Computed(integer),
        }
    }

    /// Beside one that a run computes.
    pub fn into_computed(self) -> Computed
        ensures { Some (computed_view result) ≡ table.as_computed (integer_view self) }
    {
        match self {
            Integer::Static(integer) => Computed::Static(integer),
            Integer::Computed(integer) => integer,
        }
    }

    /// An operator, which starts at byte `at`, with its right operand. Of static integers it makes
    /// such. It takes the memory of a list.
    pub fn binary(
        self,
        alloc: Global,
        operator: Arithmetic,
        at: usize,
        operand: Integer,
    ) -> Result<Typed, AllocError>
        ensures { IfOk result (λ t. table.integral at operator (integer_view self) (integer_view operand)
            ≡ Some (typed_view t)) }
    {
        match self {
            Integer::Static(left) => match operand {
                Integer::Static(right) => Ok(Typed::Integer(left.binary(
                    alloc, operator, at, right,
                )?)),
                Integer::Computed(right) => {
                    let left = Computed::Static(left);
                    Ok(Typed::Computed(left.binary(alloc, operator, at, right)?))
                }
            },
            Integer::Computed(left) => {
                let right = operand.into_computed();
                Ok(Typed::Computed(left.binary(alloc, operator, at, right)?))
            }
        }
    }
}

/// The two integers that operands are, or else the operands.
pub fn as_integers(operands: (Typed, Typed)) -> Result<(Integer, Integer), (Typed, Typed)>
    ensures given { IfOk result (λ p. integers_of (typed_view operands.0) (typed_view operands.1)
        ≡ Some (both_view p)) }
    ensures other { IfErr result (λ o. o ≡ operands) }
    ensures none { IfErr result (λ _. integers_of (typed_view operands.0) (typed_view operands.1) ≡ None) }
{
    let (left, right) = operands;
    match Integer::of(left) {
        Err(left) => Err((left, right)),
        Ok(first) => match Integer::of(right) {
            Err(right) => Err((first.into_typed(), right)),
            Ok(second) => Ok((first, second)),
        },
    }
}

/// A sign at byte `at`, before an integer (9.2.6), or else there is TypeMismatch. It takes the
/// memory of a box, as `absolute` does.
#[inline(never)]
pub fn signed(alloc: Global, sign: Sign, operand: Typed, at: usize) -> Result<Typed, NameFault>
    ensures given { Gives typed_view (rules.signed at sign (typed_view operand)) result }
    ensures told { IfErr result (Tells (lacking TypeMismatch at (table.as_computed (typed_view operand)))) }
{
    match operand {
        Typed::Integer(integer) => match sign {
            Sign::Plus => Ok(Typed::Integer(integer)),
            Sign::Minus => Ok(Typed::Integer(Static::negated(alloc, at, integer)?)),
        },
        Typed::Computed(integer) => match sign {
            Sign::Plus => Ok(Typed::Computed(integer)),
            Sign::Minus => Ok(Typed::Computed(Computed::negated(alloc, at, integer)?)),
        },
        operand => Err(without(operand, NameProblem::TypeMismatch.at(at))),
    }
}

/// `abs` at byte `at`, before an integer (9.2.8), or else there is TypeMismatch.
#[inline(never)]
pub fn absolute(alloc: Global, operand: Typed, at: usize) -> Result<Typed, NameFault>
    ensures given { Gives typed_view (rules.absolute at (typed_view operand)) result }
    ensures told { IfErr result (Tells (lacking TypeMismatch at (table.as_computed (typed_view operand)))) }
{
    match operand {
        Typed::Integer(integer) => Ok(Typed::Integer(Static::absolute(alloc, at, integer)?)),
        Typed::Computed(integer) => Ok(Typed::Computed(Computed::magnitude(alloc, at, integer)?)),
        operand => Err(without(operand, NameProblem::TypeMismatch.at(at))),
    }
}
