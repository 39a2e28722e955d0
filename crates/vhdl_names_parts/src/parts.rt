//! Parts of objects: indexed and slice names (IEEE 1076-2008, 8.4, 8.5), and arguments that stand
//! alone.

ghost use Rattle.vhdl_names_rules.specs.problems.Broken.{Tells, refused};
ghost use Rattle.vhdl_names_rules.specs.declared.fault.NameProblem.TheVariants.{TypeMismatch};
ghost use Rattle.std.specs.Prelude.{◌≡◌, option_map, IfErr};
ghost use Rattle.vhdl_names_rules.specs.Gives.{Gives};
ghost use Rattle.vhdl_names_rules.specs.Names as rules;
ghost use Rattle.vhdl_names_trees.specs.views.Vectors.{part_view};
ghost use Rattle.vhdl_names_parts.specs.Steps.{sole, two, indexed};
ghost use Rattle.vhdl_names_trees.specs.views.Expressions.{any_part_view};
ghost use Rattle.vhdl_names_trees.specs.views.Expressions.{typed_view, typed_suffix_view};

use vhdl_names_numbers::chosen;
use vhdl_names_rules::{ElementKind, NameFault, NameProblem, ObjectType, without};
use vhdl_names_trees::{AnyPart, Chosen, Part, Typed, TypedSuffix};

/// The argument that stands alone.
pub(crate) fn sole_argument(mut arguments: Vec<Typed>) -> Option<Typed>
    ensures { result ≡ sole arguments.items }
{
    if arguments.len() == 1 {
        arguments.pop()
    } else {
        None
    }
}

/// Two things, where the first is there.
fn before<L, R: Drop>(left: Option<L>, right: R) -> Option<(L, R)>
    ensures { result ≡ option_map (λ l. (l, right)) left }
{
    match left {
        Some(left) => Some((left, right)),
        None => None,
    }
}

/// Two arguments that stand alone, in order; None where there are fewer or more.
pub fn two_arguments(mut arguments: Vec<Typed>) -> Option<(Typed, Typed)>
    ensures { result ≡ two arguments.items }
{
    let second = arguments.pop()?;
    before(sole_argument(arguments), second)
}

/// The element of a vector at an index.
fn element(
    kind: ElementKind,
    index: Option<Typed>,
    at: usize,
) -> Result<(AnyPart, ElementKind), NameFault>
    ensures given { Gives (λ p. (any_part_view p.0, p.1)) (indexed kind (option_map typed_view index)) result }
    ensures told { IfErr result (Tells (refused TypeMismatch at)) }
{
    let problem = NameProblem::TypeMismatch;
    match index {
        Some(Typed::Integer(index)) => {
            if kind.is_vector() {
                Ok((AnyPart::Static(Part::Element(index)), ElementKind::Element))
            } else {
                Err(without(index, problem.at(at)))
            }
        }
        Some(Typed::Computed(index)) => {
            let (part, kind) = chosen(kind, Chosen::Element(index), at)?;
            Ok((AnyPart::Chosen(part), kind))
        }
        index => Err(without(index, problem.at(at))),
    }
}

/// The part of an object of a kind that stands behind its name at byte `at`, and its kind.
#[tactic(auto, using(crate::proofs::Meant::part_indexed, crate::proofs::Meant::part_ranged))]
pub(crate) fn part(
    kind: ElementKind,
    suffix: TypedSuffix,
    at: usize,
) -> Result<(AnyPart, ElementKind), NameFault>
    ensures given { Gives (λ p. (any_part_view p.0, p.1)) (rules.any_part kind (typed_suffix_view suffix)) result }
    ensures told { IfErr result (Tells (refused TypeMismatch at)) }
{
    match suffix {
        TypedSuffix::Plain => Ok((AnyPart::Static(Part::Whole), kind)),
        TypedSuffix::Arguments(_, arguments) => element(kind, sole_argument(arguments), at),
        TypedSuffix::Range(range) => {
            if kind.is_vector() {
                Ok((AnyPart::Static(Part::Slice(range)), kind))
            } else {
                Err(without(range, NameProblem::TypeMismatch.at(at)))
            }
        }
        TypedSuffix::ComputedRange {
            left,
            direction,
            right,
        } => {
            let slice = Chosen::Slice {
                left,
                direction,
                right,
            };
            let (part, kind) = chosen(kind, slice, at)?;
            Ok((AnyPart::Chosen(part), kind))
        }
    }
}

/// The part of an object of a type that stands behind its name at byte `at`, and its type.
pub fn any_part_of(
    object_type: ObjectType,
    suffix: TypedSuffix,
    at: usize,
) -> Result<(AnyPart, ObjectType), NameFault>
    ensures given { Gives (λ p. (any_part_view p.0, p.1))
        (rules.any_part_of object_type (typed_suffix_view suffix)) result }
    ensures told { IfErr result (Tells (refused TypeMismatch at)) }
{
    match object_type {
        ObjectType::Elements(kind) => {
            let (part, kind) = part(kind, suffix, at)?;
            Ok((part, ObjectType::Elements(kind)))
        }
        ObjectType::Enumeration { .. } | ObjectType::Integers | ObjectType::Booleans => {
            match suffix {
                TypedSuffix::Plain => Ok((AnyPart::Static(Part::Whole), object_type)),
                suffix => Err(without(suffix, NameProblem::TypeMismatch.at(at))),
            }
        }
    }
}

/// The same, which no run chooses.
#[tactic(auto, using(crate::proofs::Meant::part_unchosen))]
pub fn part_of(
    object_type: ObjectType,
    suffix: TypedSuffix,
    at: usize,
) -> Result<(Part, ObjectType), NameFault>
    ensures given { Gives (λ p. (part_view p.0, p.1)) (rules.part_of object_type (typed_suffix_view suffix)) result }
    ensures told { IfErr result (Tells (refused TypeMismatch at)) }
{
    let (part, object_type) = any_part_of(object_type, suffix, at)?;
    match part {
        AnyPart::Static(part) => Ok((part, object_type)),
        AnyPart::Chosen(part) => Err(without(part, NameProblem::TypeMismatch.at(at))),
    }
}

/// A value whose name at byte `at` has nothing behind it.
pub(crate) fn if_plain(suffix: TypedSuffix, value: Typed, at: usize) -> Result<Typed, NameFault>
    ensures given { Gives typed_view (rules.if_plain (typed_suffix_view suffix) (typed_view value)) result }
    ensures told { IfErr result (Tells (refused TypeMismatch at)) }
{
    match suffix {
        TypedSuffix::Plain => Ok(value),
        suffix => Err(without((suffix, value), NameProblem::TypeMismatch.at(at))),
    }
}
