//! Relations of integers, and of numbers beside them (IEEE 1076-2008, 9.2.3). Each takes the memory
//! of boxes.

ghost use Rattle.std.specs.Prelude.{◌≡◌, Some, IfOk};
ghost use Rattle.vhdl_names_trees.specs.views.Expressions.{typed_view};
ghost use Rattle.vhdl_names_trees.specs.views.Tests.{test_view};
ghost use Rattle.vhdl_names_rules.specs.units.Expressions as units;
ghost use Rattle.vhdl_names_trees.specs.views.Vectors.{computed_view, vector_view};
ghost use Rattle.vhdl_names_numbers.specs.Integers.{integer_view, integers_related, number_beside, beside_number};

use crate::integer::Integer;
use std::alloc::{AllocError, Global};
use vhdl_names_trees::{Computed, StaticTest, Test, Typed, Vector};
use vhdl_values::Cmp;

/// A relation of two integers that a run computes, by the operator at byte `at`.
fn both_computed(
    alloc: Global,
    comparison: Cmp,
    at: usize,
    left: Computed,
    right: Computed,
) -> Result<Test, AllocError>
    ensures { IfOk result (λ t. test_view t ≡
        units.computed_compared at comparison (computed_view left) (computed_view right)) }
{
    let left = Box::new(alloc, left)?;
    Ok(Test::ComputedCompared(comparison, at, left, Box::new(alloc, right)?))
}

/// A relation of two integers, by the operator at byte `at`.
pub fn integers_compared(
    alloc: Global,
    comparison: Cmp,
    at: usize,
    left: Integer,
    right: Integer,
) -> Result<Typed, AllocError>
    ensures { IfOk result (λ t. integers_related at comparison (integer_view left) (integer_view right)
        ≡ Some (typed_view t)) }
{
    let test = match left {
        Integer::Static(left) => match right {
            Integer::Static(right) => {
                Test::Fixed(StaticTest::Compared(comparison, at, left, right))
            }
            Integer::Computed(right) => {
                let left = Computed::Static(left);
                both_computed(alloc, comparison, at, left, right)?
            }
        },
        Integer::Computed(left) => {
            both_computed(alloc, comparison, at, left, right.into_computed())?
        }
    };
    Ok(Typed::Truth(test))
}

/// A relation of a number and an integer.
pub fn compared_to(
    alloc: Global,
    comparison: Cmp,
    at: usize,
    number: Vector,
    integer: Integer,
) -> Result<Test, AllocError>
    ensures { IfOk result (λ t. number_beside at comparison (vector_view number) (integer_view integer)
        ≡ Some (test_view t)) }
{
    match integer {
        Integer::Static(integer) => Test::compared_to(alloc, comparison, at, number, integer),
        Integer::Computed(integer) => {
            let number = Box::new(alloc, number)?;
            let integer = Box::new(alloc, integer)?;
            Ok(Test::ComparedToComputed(comparison, at, number, integer))
        }
    }
}

/// A relation of an integer and a number.
pub fn compared_with(
    alloc: Global,
    comparison: Cmp,
    at: usize,
    integer: Integer,
    number: Vector,
) -> Result<Test, AllocError>
    ensures { IfOk result (λ t. beside_number at comparison (integer_view integer) (vector_view number)
        ≡ Some (test_view t)) }
{
    match integer {
        Integer::Static(integer) => Test::compared_with(alloc, comparison, at, integer, number),
        Integer::Computed(integer) => {
            let integer = Box::new(alloc, integer)?;
            let number = Box::new(alloc, number)?;
            Ok(Test::ComparedWithComputed(comparison, at, integer, number))
        }
    }
}
