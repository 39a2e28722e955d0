//! Numbers: integers, and the vectors that numeric_std takes for numbers (IEEE 1076-2008, 16.8).

ghost use Rattle.vhdl_names_rules.specs.problems.Broken.{Tells, refused};
ghost use Rattle.vhdl_names_rules.specs.problems.Operators.{is_numeric};
ghost use Rattle.vhdl_names_rules.specs.declared.fault.NameProblem.TheVariants.{NotVisible};
ghost use Rattle.std.specs.Prelude.{◌≡◌, ◌&&◌, if◌then◌else◌, Some, IfOk, IfErr};
ghost use Rattle.vhdl_names_rules.specs.Gives.{Gives};
ghost use Rattle.vhdl_names_numbers.specs.Integers.{integer_view};
ghost use Rattle.vhdl_names_operators.specs.Steps as steps;
ghost use Rattle.vhdl_names_operators.specs.Steps.{numbers_of, calculation, comparing};
ghost use Rattle.vhdl_names_trees.specs.views.Expressions.{typed_view};
ghost use Rattle.vhdl_names_operators.specs.Views.{numbers_view};

use std::alloc::{AllocError, Global};
use vhdl_names_numbers::{Integer, compared_to, compared_with, integers_compared};
use vhdl_names_rules::{
    Arithmetic, ElementKind, NameFault, NameProblem, Numeric, VectorOperator, without,
};
use vhdl_names_trees::{Test, Typed, Vector, VectorLink};
use vhdl_values::Cmp;

/// Operands of + - * and of < <= > >=: two integers, two numbers, or a number and an integer.
#[derive(Drop)]
pub(crate) enum Numbers {
    Integers(Integer, Integer),
    Vectors(Vector, Vector),
    IntegerSecond(Vector, Integer),
    IntegerFirst(Integer, Vector),
}

/// The numbers that were found for an operator of numeric_std. It asks for operands that it takes
/// for numbers, else there is this problem, and for its use clause.
fn numeric(
    found: Numbers,
    numbers: bool,
    are_numbers: bool,
    problem: NameProblem,
    at: usize,
) -> Result<Numbers, NameFault>
    ensures given { Gives numbers_view (steps.found numbers are_numbers (numbers_view found)) result }
    ensures told { IfErr result (Tells (refused (if are_numbers then NotVisible else problem) at)) }
{
    if !are_numbers {
        return Err(without(found, problem.at(at)));
    }
    if !numbers {
        return Err(without(found, NameProblem::NotVisible.at(at)));
    }
    Ok(found)
}

/// The numbers that an integer and the operand behind it are.
fn beside_integer(
    numbers: bool,
    at: usize,
    problem: NameProblem,
    integer: Integer,
    operand: Typed,
) -> Result<Numbers, NameFault>
    ensures given { Gives numbers_view (numbers_of numbers (integer_view integer) (typed_view operand)) result }
    ensures told { IfErr result (Tells
        (refused (if is_numeric (typed_view operand) then NotVisible else problem) at)) }
{
    match operand {
        Typed::Elements(k, y) => {
            let found = Numbers::IntegerFirst(integer, y);
            numeric(found, numbers, k.is_number(), problem, at)
        }
        operand => match Integer::of(operand) {
            Ok(t) => Ok(Numbers::Integers(integer, t)),
            Err(operand) => Err(without((integer, operand), problem.at(at))),
        },
    }
}

/// The numbers that operands are; where they are none, there is this problem.
pub(crate) fn as_numbers(
    numbers: bool,
    at: usize,
    problem: NameProblem,
    operands: (Typed, Typed),
) -> Result<Numbers, NameFault>
    ensures given { Gives numbers_view (numbers_of numbers (typed_view operands.0) (typed_view operands.1)) result }
    ensures told { IfErr result (Tells
        (refused (if is_numeric (typed_view operands.0) && is_numeric (typed_view operands.1) then NotVisible
        else problem) at)) }
{
    let (left, right) = operands;
    match left {
        Typed::Elements(j, x) => match right {
            Typed::Elements(k, y) => {
                let are_numbers = j.is_number() && k.is_number();
                numeric(Numbers::Vectors(x, y), numbers, are_numbers, problem, at)
            }
            right => match Integer::of(right) {
                Ok(t) => {
                    let found = Numbers::IntegerSecond(x, t);
                    numeric(found, numbers, j.is_number(), problem, at)
                }
                Err(right) => Err(without((x, right), problem.at(at))),
            },
        },
        left => match Integer::of(left) {
            Ok(s) => beside_integer(numbers, at, problem, s, right),
            Err(left) => Err(without((left, right), problem.at(at))),
        },
    }
}

/// + - * of numbers.
pub(crate) fn calculated(
    alloc: Global,
    at: usize,
    operator: Arithmetic,
    by: Numeric,
    numbers: Numbers,
) -> Result<Typed, AllocError>
    ensures { IfOk result (λ t. calculation at operator by (numbers_view numbers) ≡ Some (typed_view t)) }
{
    let made = match numbers {
        Numbers::Integers(s, t) => return s.binary(alloc, operator, at, t),
        Numbers::Vectors(x, y) => {
            let operator = VectorOperator::Arithmetic(by);
            x.with_link(alloc, VectorLink::Vector(operator, at, y))?
        }
        Numbers::IntegerSecond(x, t) => {
            let link = match t {
                Integer::Static(t) => VectorLink::Integer(by, at, t),
                Integer::Computed(t) => VectorLink::Computed(by, at, t),
            };
            x.with_link(alloc, link)?
        }
        Numbers::IntegerFirst(s, y) => match s {
            Integer::Static(s) => Vector::integer_with(alloc, by, at, s, y)?,
            Integer::Computed(s) => {
                let s = Box::new(alloc, s)?;
                Vector::ComputedWith(by, at, s, Box::new(alloc, y)?)
            }
        },
    };
    Ok(Typed::Elements(ElementKind::Unsigned, made))
}

/// < <= > >= of numbers.
pub(crate) fn compared(
    alloc: Global,
    at: usize,
    comparison: Cmp,
    numbers: Numbers,
) -> Result<Typed, AllocError>
    ensures { IfOk result (λ t. comparing at comparison (numbers_view numbers) ≡ Some (typed_view t)) }
{
    let test = match numbers {
        Numbers::Integers(s, t) => return integers_compared(alloc, comparison, at, s, t),
        Numbers::Vectors(x, y) => Test::compared(alloc, comparison, at, x, y)?,
        Numbers::IntegerSecond(x, t) => compared_to(alloc, comparison, at, x, t)?,
        Numbers::IntegerFirst(s, y) => compared_with(alloc, comparison, at, s, y)?,
    };
    Ok(Typed::Truth(test))
}
