//! Aggregates as operands (IEEE 1076-2008, 9.3.3): of `=` and `/=` alone, beside a vector of a
//! known type.

ghost use Rattle.vhdl_names_rules.specs.problems.Broken.{Tells};
ghost use Rattle.vhdl_names_rules.specs.problems.Expressions as broken;
ghost use Rattle.std.specs.Prelude.{◌≡◌, true, IfOk, IfErr};
ghost use Rattle.vhdl_names_rules.specs.Gives.{Gives};
ghost use Rattle.vhdl_names_trees.specs.views.Expressions.{typed_view};
ghost use Rattle.vhdl_names_operators.specs.Resolving as steps;

use crate::aggregates::aggregate;
use std::alloc::Global;
use vhdl_names_rules::{ElementKind, NameFault, NameProblem, without};
use vhdl_names_trees::Typed;
use vhdl_tree::Operator;

/// The kind of an operand of the nine values.
pub(crate) fn kind_of(operand: &Typed) -> Option<ElementKind>
    ensures { result ≡ steps.kind_of (typed_view operand.now) }
{
    match operand {
        Typed::Elements(kind, _) => Some(*kind),
        _ => None,
    }
}

/// Whether an operator is `=` or `/=`.
fn is_equality(operator: Operator) -> bool
    ensures { result ≡ broken.is_equality operator }
{
    match operator {
        Operator::Equal | Operator::NotEqual => true,
        _ => false,
    }
}

/// The kind of the vector that an aggregate is beside an operand of this kind.
fn vector_kind(operator: Operator, other: Option<ElementKind>) -> Option<ElementKind>
    ensures { result ≡ steps.vector_kind operator other }
{
    let kind = other?;
    if kind.is_vector() && is_equality(operator) {
        Some(kind)
    } else {
        None
    }
}

/// An operand of an operator: an aggregate as a vector of the kind of the other operand. It takes
/// the memory of lists.
pub(crate) fn resolved(
    alloc: Global,
    operator: Operator,
    other: Option<ElementKind>,
    operand: Typed,
) -> Result<Typed, NameFault>
    ensures given { Gives typed_view (steps.resolved operator other (typed_view operand)) result }
    ensures plain { IfOk result (λ x. steps.is_plain (typed_view x) ≡ true) }
    ensures told { IfErr result (Tells (steps.operand_breaks operator other (typed_view operand))) }
{
    match operand {
        Typed::Composite(at, elements) => match vector_kind(operator, other) {
            Some(kind) => {
                let vector = aggregate(alloc, kind, at, None, elements)?;
                Ok(Typed::Elements(kind, vector))
            }
            None => Err(without(elements, NameProblem::TypeMismatch.at(at))),
        },
        operand => Ok(operand),
    }
}
