//! Equality of typed operands, and its negation (IEEE 1076-2008, 9.2.3). Each takes the memory of
//! boxes or of a list.

ghost use Rattle.vhdl_names_rules.specs.problems.Broken.{Tells, refused};
ghost use Rattle.vhdl_names_rules.specs.declared.fault.NameProblem.TheVariants.{TypeMismatch};
ghost use Rattle.std.specs.Prelude.{◌≡◌, ◌==◌, true, IfOk, IfErr};
ghost use Rattle.vhdl_names_rules.specs.Gives.{Gives};
ghost use Rattle.vhdl_names_rules.specs.Rules.{given_that};
ghost use Rattle.vhdl_names_rules.specs.Operators as table;
ghost use Rattle.vhdl_names_trees.specs.views.Vectors.{value_view, vector_view};
ghost use Rattle.vhdl_names_trees.specs.views.Tests.{test_view};
ghost use Rattle.vhdl_names_operators.specs.Steps as steps;
ghost use Rattle.vhdl_names_operators.specs.Steps.{same_by};
ghost use Rattle.vhdl_names_operators.specs.Resolving.{is_plain};
ghost use Rattle.vhdl_names_numbers.specs.Integers.{integer_view};
ghost use Rattle.vhdl_names_trees.specs.views.Expressions.{typed_view};

use std::alloc::{AllocError, Global};
use vhdl_lexer::Language;
use vhdl_names_numbers::{Integer, compared_to, compared_with, integers_compared};
use vhdl_names_rules::{ElementKind, NameFault, NameProblem, without};
use vhdl_names_trees::{Test, Typed, Value, Vector};
use vhdl_values::{Cmp, Logic};

/// = or /= of two values, by equality.
fn same(
    alloc: Global,
    comparison: Cmp,
    at: usize,
    left: Value,
    right: Value,
) -> Result<Typed, AllocError>
    ensures { IfOk result (λ t. typed_view t ≡
        table.truth (same_by at comparison (value_view left) (value_view right))) }
{
    let test = match comparison {
        Cmp::Ne => Test::unlike(alloc, at, left, right)?,
        _ => Test::alike(alloc, at, left, right)?,
    };
    Ok(Typed::Truth(test))
}

/// = or /=, at byte `at`, of two values, each of the enumeration of its number.
fn same_of(
    alloc: Global,
    comparison: Cmp,
    at: usize,
    left: (usize, Value),
    right: (usize, Value),
) -> Result<Typed, NameFault>
    ensures given { Gives typed_view (given_that TypeMismatch (left.0 == right.0)
        (table.truth (same_by at comparison (value_view left.1) (value_view right.1)))) result }
    ensures told { IfErr result (Tells (refused TypeMismatch at)) }
{
    let (number, value) = left;
    let (other, beside) = right;
    if number != other {
        return Err(without((value, beside), NameProblem::TypeMismatch.at(at)));
    }
    Ok(same(alloc, comparison, at, value, beside)?)
}

/// = and /=, at byte `at`, of elements, and what stands beside them: elements of one kind, or an
/// integer beside a number.
fn elements_equal(
    alloc: Global,
    at: usize,
    comparison: Cmp,
    left: (ElementKind, Vector),
    right: Typed,
) -> Result<Typed, NameFault>
    requires right { is_plain (typed_view right) ≡ true }
    ensures given { Gives typed_view
        (table.equality at comparison (same_by at comparison) (table.elements left.0 (vector_view left.1))
        (typed_view right)) result }
    ensures told { IfErr result (Tells (refused TypeMismatch at)) }
{
    let (j, x) = left;
    let problem = NameProblem::TypeMismatch;
    match right {
        Typed::Elements(k, y) => match j.common(k) {
            None => Err(without((x, y), problem.at(at))),
            Some(ElementKind::Unsigned) => {
                Ok(Typed::Truth(Test::compared(alloc, comparison, at, x, y)?))
            }
            Some(_) => Ok(same(
                alloc,
                comparison,
                at,
                Value::Elements(x),
                Value::Elements(y),
            )?),
        },
        right => match Integer::of(right) {
            Ok(t) => match j {
                ElementKind::Unsigned => {
                    Ok(Typed::Truth(compared_to(alloc, comparison, at, x, t)?))
                }
                _ => Err(without((x, t), problem.at(at))),
            },
            Err(right) => Err(without((x, right), problem.at(at))),
        },
    }
}

/// = and /=, at byte `at`, of an integer, and an integer or a number.
fn integer_equals(
    alloc: Global,
    at: usize,
    comparison: Cmp,
    left: Integer,
    right: Typed,
) -> Result<Typed, NameFault>
    requires right { is_plain (typed_view right) ≡ true }
    ensures given { Gives typed_view
        (table.equality at comparison (same_by at comparison) (integer_view left) (typed_view right)) result }
    ensures told { IfErr result (Tells (refused TypeMismatch at)) }
{
    let problem = NameProblem::TypeMismatch;
    match right {
        Typed::Elements(k, y) => match k {
            ElementKind::Unsigned => {
                Ok(Typed::Truth(compared_with(alloc, comparison, at, left, y)?))
            }
            _ => Err(without((left, y), problem.at(at))),
        },
        right => match Integer::of(right) {
            Ok(right) => Ok(integers_compared(alloc, comparison, at, left, right)?),
            Err(right) => Err(without((left, right), problem.at(at))),
        },
    }
}

/// The logical operator that = or /= of truths is.
fn truth_operator(comparison: Cmp) -> Option<Logic>
    ensures { result ≡ steps.truth_operator comparison }
{
    match comparison {
        Cmp::Eq => Some(Logic::Xnor),
        Cmp::Ne => Some(Logic::Xor),
        _ => None,
    }
}

/// = and /= of truths, at byte `at`.
fn truths_equal(
    alloc: Global,
    at: usize,
    comparison: Cmp,
    truths: (Test, Test),
) -> Result<Typed, NameFault>
    ensures given { Gives typed_view
        (steps.truths_equal comparison (test_view truths.0) (test_view truths.1)) result }
    ensures told { IfErr result (Tells (refused TypeMismatch at)) }
{
    let (left, right) = truths;
    match truth_operator(comparison) {
        Some(operator) => Ok(Typed::Truth(left.both(alloc, operator, right)?)),
        None => Err(without((left, right), NameProblem::TypeMismatch.at(at))),
    }
}

/// = and /=, at byte `at`, of a truth, and what stands beside it: a truth, in the wider language
/// alone (9.2.3).
fn truth_equals(
    alloc: Global,
    language: Language,
    at: usize,
    comparison: Cmp,
    left: Test,
    right: Typed,
) -> Result<Typed, NameFault>
    ensures given { Gives typed_view
        (steps.equality language at comparison (table.truth (test_view left)) (typed_view right)) result }
    ensures told { IfErr result (Tells (refused TypeMismatch at)) }
{
    let problem = NameProblem::TypeMismatch;
    match right {
        Typed::Truth(right) => match language {
            Language::Wide => truths_equal(alloc, at, comparison, (left, right)),
            Language::Profile => Err(without((left, right), problem.at(at))),
        },
        right => Err(without((left, right), problem.at(at))),
    }
}

/// = and /=, at byte `at`.
pub(crate) fn equality(
    alloc: Global,
    language: Language,
    at: usize,
    comparison: Cmp,
    operands: (Typed, Typed),
) -> Result<Typed, NameFault>
    requires left { is_plain (typed_view operands.0) ≡ true }
    requires right { is_plain (typed_view operands.1) ≡ true }
    ensures given { Gives typed_view
        (steps.equality language at comparison (typed_view operands.0) (typed_view operands.1)) result }
    ensures told { IfErr result (Tells (refused TypeMismatch at)) }
{
    let (left, right) = operands;
    let problem = NameProblem::TypeMismatch;
    match left {
        Typed::Elements(j, x) => elements_equal(alloc, at, comparison, (j, x), right),
        Typed::Enumerated { number, value, .. } => match right {
            Typed::Enumerated {
                number: other,
                value: beside,
                ..
            } => same_of(alloc, comparison, at, (number, value), (other, beside)),
            right => Err(without((value, right), problem.at(at))),
        },
        Typed::Truth(x) => truth_equals(alloc, language, at, comparison, x, right),
        left => match Integer::of(left) {
            Ok(integer) => integer_equals(alloc, at, comparison, integer, right),
            Err(left) => Err(without((left, right), problem.at(at))),
        },
    }
}
