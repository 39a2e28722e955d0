//! Calls of numeric_std that take or give integers (IEEE 1076-2008, 9.3.4, 16.8). Each takes the
//! memory of boxes.

ghost use Rattle.std.specs.Prelude.{◌≡◌, option_map, IfErr};
ghost use Rattle.vhdl_names_rules.specs.problems.Broken.{Tells, refused};
ghost use Rattle.vhdl_names_rules.specs.declared.fault.NameProblem.TheVariants.{TypeMismatch};
ghost use Rattle.vhdl_names_rules.specs.Gives.{Gives};
ghost use Rattle.vhdl_names_trees.specs.views.Expressions.{typed_view};
ghost use Rattle.vhdl_names_rules.specs.declared.kind.ElementKind.TheVariants.{Unsigned};
ghost use Rattle.vhdl_names_rules.specs.Operators as table;
ghost use Rattle.vhdl_names_trees.specs.views.Integers.{static_view};
ghost use Rattle.vhdl_names_trees.specs.views.Vectors.{computed_view, vector_view};
ghost use Rattle.vhdl_names_numbers.specs.Calls.{counted_by, encoded_by, number_by, number_problem};

use crate::known::is_known;
use std::alloc::Global;
use vhdl_names_rules::{ElementKind, NameFault, NameProblem, without};
use vhdl_names_trees::{Computed, Static, Typed, Vector};
use vhdl_values::Counted;

/// A number by a static count.
fn counted(
    alloc: Global,
    operator: Counted,
    number: Vector,
    count: Static,
    at: usize,
) -> Result<Typed, NameFault>
    ensures given { Gives typed_view
        (counted_by at operator (table.elements Unsigned (vector_view number)) (table.integer (static_view count)))
        result }
{
    let number = Box::new(alloc, number)?;
    Ok(Typed::Elements(
        ElementKind::Unsigned,
        Vector::Counted(at, operator, number, count),
    ))
}

/// A number by a count that a run computes: the operator is a shift.
fn shifted(
    alloc: Global,
    operator: Counted,
    number: Vector,
    count: Computed,
    at: usize,
) -> Result<Typed, NameFault>
    ensures given { Gives typed_view
        (counted_by at operator (table.elements Unsigned (vector_view number)) (table.computed (computed_view count)))
        result }
    ensures told { IfErr result (Tells (refused TypeMismatch at)) }
{
    let Counted::Shift(shift) = operator else {
        return Err(without((number, count), NameProblem::TypeMismatch.at(at)));
    };
    let number = Box::new(alloc, number)?;
    let vector = Vector::Shifted(at, shift, number, Box::new(alloc, count)?);
    Ok(Typed::Elements(ElementKind::Unsigned, vector))
}

/// A number and its count, which a call at byte `at` is of.
pub fn count_of(
    alloc: Global,
    operator: Counted,
    number: Typed,
    count: Typed,
    at: usize,
) -> Result<Typed, NameFault>
    ensures given { Gives typed_view (counted_by at operator (typed_view number) (typed_view count)) result }
    ensures told { IfErr result (Tells (refused TypeMismatch at)) }
{
    let problem = NameProblem::TypeMismatch;
    match number {
        Typed::Elements(ElementKind::Unsigned, number) => match count {
            Typed::Integer(count) => counted(alloc, operator, number, count, at),
            Typed::Computed(count) => shifted(alloc, operator, number, count, at),
            count => Err(without((number, count), problem.at(at))),
        },
        number => Err(without((number, count), problem.at(at))),
    }
}

/// to_unsigned, whose name is at byte `at`, of an integer and a static size.
pub fn encoded(alloc: Global, number: Typed, size: Typed, at: usize) -> Result<Typed, NameFault>
    ensures given { Gives typed_view (encoded_by at (typed_view number) (typed_view size)) result }
    ensures told { IfErr result (Tells (refused TypeMismatch at)) }
{
    let problem = NameProblem::TypeMismatch;
    let Typed::Integer(size) = size else {
        return Err(without((number, size), problem.at(at)));
    };
    let vector = match number {
        Typed::Integer(number) => Vector::Encoded(at, number, size),
        Typed::Computed(number) => Vector::ComputedEncoded(at, Box::new(alloc, number)?, size),
        number => return Err(without((number, size), problem.at(at))),
    };
    Ok(Typed::Elements(ElementKind::Unsigned, vector))
}

/// to_integer, whose name is at byte `at`, of a number, which names a signal or a variable.
pub fn number_of(alloc: Global, number: Option<Typed>, at: usize) -> Result<Typed, NameFault>
    ensures given { Gives typed_view (number_by at (option_map typed_view number)) result }
    ensures told { IfErr result (Tells (refused (number_problem (option_map typed_view number)) at)) }
{
    match number {
        Some(Typed::Elements(ElementKind::Unsigned, number)) => {
            if is_known(&number) {
                return Err(without(number, NameProblem::LeftOut.at(at)));
            }
            Ok(Typed::Computed(Computed::number_of(alloc, at, number)?))
        }
        number => Err(without(number, NameProblem::TypeMismatch.at(at))),
    }
}
