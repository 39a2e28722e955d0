//! What a run chooses of vectors (IEEE 1076-2008, 8.4, 8.5).

ghost use Rattle.std.specs.Prelude.{◌≡◌, IfOk, IfErr};
ghost use Rattle.vhdl_names_rules.specs.problems.Broken.{Tells, refused, where_given, lacking, ◌▸◌};
ghost use Rattle.vhdl_names_rules.specs.declared.fault.NameProblem.TheVariants.{TypeMismatch};
ghost use Rattle.vhdl_names_rules.specs.Expressions as rules;
ghost use Rattle.vhdl_names_rules.specs.Gives.{Gives};
ghost use Rattle.vhdl_names_rules.specs.Operators as table;
ghost use Rattle.vhdl_names_trees.specs.views.Expressions.{typed_view, typed_suffix_view};
ghost use Rattle.vhdl_names_trees.specs.views.Vectors.{computed_view, chosen_view};
ghost use Rattle.vhdl_names_numbers.specs.Calls.{chosen_by};
ghost use Rattle.vhdl_names_numbers.specs.Integers.{integer_view};

use crate::integer::Integer;
use std::alloc::{AllocError, Global};
use vhdl_names_rules::{ElementKind, NameFault, NameProblem, without};
use vhdl_names_trees::{Chosen, Computed, StaticRange, TypedSuffix};
use vhdl_tree::Direction;

/// The part of a vector of a kind that a run chooses, whose name is at byte `at`, by the index or
/// the bounds behind it, and its kind.
pub fn chosen(
    kind: ElementKind,
    part: Chosen,
    at: usize,
) -> Result<(Chosen, ElementKind), NameFault>
    ensures given { Gives (λ p. (chosen_view p.0, p.1)) (chosen_by kind (chosen_view part)) result }
    ensures told { IfErr result (Tells (refused TypeMismatch at)) }
{
    if !kind.is_vector() {
        return Err(without(part, NameProblem::TypeMismatch.at(at)));
    }
    match &part {
        Chosen::Element(_) => Ok((part, ElementKind::Element)),
        Chosen::Slice { .. } => Ok((part, kind)),
    }
}

/// The bounds of a slice, which a run may compute. It may take the memory of a box.
pub fn sliced(
    alloc: Global,
    left: Integer,
    direction: Direction,
    right: Integer,
) -> Result<TypedSuffix, AllocError>
    ensures { IfOk result (λ s. rules.sliced (integer_view left) direction (integer_view right)
        ≡ Some (typed_suffix_view s)) }
{
    match left {
        Integer::Static(left) => match right {
            Integer::Static(right) => {
                let range = StaticRange {
                    left,
                    direction,
                    right,
                };
                Ok(TypedSuffix::Range(Box::new(alloc, range)?))
            }
            Integer::Computed(right) => Ok(TypedSuffix::ComputedRange {
                left: Computed::Static(left),
                direction,
                right,
            }),
        },
        Integer::Computed(left) => Ok(TypedSuffix::ComputedRange {
            left,
            direction,
            right: right.into_computed(),
        }),
    }
}
