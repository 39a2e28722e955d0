//! Aggregates before their types (IEEE 1076-2008, 9.3.3), and qualified expressions (9.3.5). They
//! take the memory of lists.

ghost use Rattle.std.specs.Prelude.{◌≡◌, ◌&&◌, map, option_map, IfOk, IfErr};
ghost use Rattle.vhdl_names_rules.specs.problems.Broken.{Tells, refused, unless};
ghost use Rattle.vhdl_names_rules.specs.problems.Expressions as broken;
ghost use Rattle.vhdl_names_rules.specs.declared.fault.NameProblem.TheVariants.{TypeMismatch};
ghost use Rattle.vhdl_names_rules.specs.Expressions as rules;
ghost use Rattle.vhdl_names_rules.specs.Gives.{Gives};
ghost use Rattle.vhdl_names_rules.specs.Local as local;
ghost use Rattle.vhdl_names_rules.specs.Visibility as visibility;
ghost use Rattle.vhdl_names_rules.specs.Ranges as ranges;
ghost use Rattle.vhdl_names_trees.specs.views.Integers.{index_view, option_range_view};
ghost use Rattle.vhdl_names_rules.specs.views.Ranges.{declared_range_view};
ghost use Rattle.vhdl_names_parts.specs.Ranging.{sized_range as sized_range_of};
ghost use Rattle.vhdl_names_trees.specs.views.Expressions.{typed_view, choice_view, typed_elements_view};
ghost use Rattle.vhdl_names_sight.specs.Views.{meaning_view, entry_of};
ghost use Rattle.vhdl_tree.specs.Tree as t;
ghost use Rattle.vhdl_tree.specs.View.{view, ident_view, choice_view as tree_choice_view, element_view as tree_element_view};
ghost use Rattle.vhdl_names_expressions.specs.Elements as steps;

use crate::expressions::{start, typed};
use crate::name::bounds;
use std::alloc::{AllocError, Global};
use vhdl_names_operators::{aggregate, enclosed};
use vhdl_names_parts::{is_local, sized_by, sized_range};
use vhdl_names_rules::{ElementKind, NameFault, NameProblem, without};
use vhdl_names_sight::{Entry, Meaning, Sight, declaration_of};
use vhdl_names_trees::{Index, StaticRange, Typed, TypedChoice, TypedElement};
use vhdl_tree::{Choice, Element, Expr, Identifier, Range};

/// The index, or the indexes of a range, that a choice at byte `at` is.
fn as_index(choice: Typed, at: usize) -> Result<Index, NameFault>
    ensures given { Gives index_view (rules.as_index at (typed_view choice)) result }
    ensures told { IfErr result (Tells (refused TypeMismatch at)) }
{
    match choice {
        Typed::Integer(integer) => Ok(Index::Single(at, integer)),
        Typed::Interval(range) => Ok(Index::Range(at, Box::into_inner(range))),
        choice => Err(without(choice, NameProblem::TypeMismatch.at(at))),
    }
}

/// The index, or the indexes of a range, that an expression is.
#[cycle(typed)]
fn chosen_index(sight: &Sight, e: &Expr) -> Result<Index, NameFault>
    ensures given { Gives index_view (steps.chosen_index sight.now (view e.now)) result }
    ensures told { IfErr result (Tells (broken.typed_choice sight.now (t.chosen (view e.now)))) }
{
    let operand = typed(sight, e)?;
    as_index(operand, start(e))
}

/// Whether both bounds of a range are locally static.
fn has_local_bounds(sight: &Sight, range: &Range) -> bool
    ensures { result ≡ (local.is_local sight.now (view range.now.left)
        && local.is_local sight.now (view range.now.right)) }
{
    is_local(sight, &range.left) && is_local(sight, &range.right)
}

/// A choice of an element.
#[cycle(typed)]
#[tactic(auto, unfolding(vhdl_names_rules::specs::Expressions::typed_choice))]
pub fn typed_choice(sight: &Sight, choice: &Choice) -> Result<TypedChoice, NameFault>
    ensures given { Gives choice_view (rules.typed_choice sight.now (tree_choice_view choice.now)) result }
    ensures told { IfErr result (Tells (broken.typed_choice sight.now (tree_choice_view choice.now))) }
{
    match choice {
        Choice::Expr(e) => {
            let index = chosen_index(sight, e)?;
            Ok(TypedChoice::Place(is_local(sight, e), index))
        }
        Choice::Range(range) => {
            let indexes = bounds(sight, range)?;
            let index = Index::Range(start(&range.left), indexes);
            Ok(TypedChoice::Place(has_local_bounds(sight, range), index))
        }
        Choice::Others { at } => Ok(TypedChoice::Others(*at)),
    }
}

/// The choices of an element.
#[cycle(typed)]
fn typed_choices(sight: &Sight, choices: &[Choice]) -> Result<Vec<TypedChoice>, NameFault>
    ensures given { Gives (λ v. map choice_view v.items)
        (rules.typed_choices sight.now (t.choices_of (map tree_choice_view choices.now))) result }
    ensures told { IfErr result (Tells
        (broken.typed_choices sight.now (t.choices_of (map tree_choice_view choices.now)))) }
{
    let mut done = Vec::new(sight.alloc);
    for choice in choices {
        done.push(typed_choice(sight, choice)?)?;
    }
    Ok(done)
}

/// An element: its choices, and then its value.
#[cycle(typed)]
fn typed_element(sight: &Sight, element: &Element) -> Result<TypedElement, NameFault>
    ensures given { Gives steps.one_element_view
        (steps.typed_element sight.now (tree_element_view element.now)) result }
    ensures told { IfErr result (Tells (steps.element_breaks sight.now (tree_element_view element.now))) }
{
    let choices = typed_choices(sight, &element.choices)?;
    let value = typed(sight, &element.value)?;
    Ok(TypedElement {
        choices,
        at: start(&element.value),
        value,
    })
}

/// The elements of an aggregate.
#[cycle(typed)]
pub(crate) fn typed_elements(
    sight: &Sight,
    elements: &[Element],
) -> Result<Vec<TypedElement>, NameFault>
    ensures given { Gives (λ v. typed_elements_view v.items)
        (rules.typed_elements sight.now (t.elements_of (map tree_element_view elements.now))) result }
    ensures told { IfErr result (Tells
        (broken.typed_elements sight.now (t.elements_of (map tree_element_view elements.now)))) }
{
    let mut done = Vec::new(sight.alloc);
    for element in elements {
        done.push(typed_element(sight, element)?)?;
    }
    Ok(done)
}

/// Whether elements are one value without choices.
#[tactic(auto, using(crate::proofs::Soles::one_sole, crate::proofs::Soles::not_one_sole))]
fn is_sole(elements: &[TypedElement]) -> bool
    ensures { result ≡ steps.is_sole (typed_elements_view elements.now) }
{
    match elements {
        [only] => only.choices.is_empty(),
        _ => false,
    }
}

/// The value that stands alone without choices, with the byte at which it starts, or else the
/// elements.
fn sole_value(mut elements: Vec<TypedElement>) -> Result<(usize, Typed), Vec<TypedElement>>
    ensures { steps.sole_view result ≡ steps.sole_value (typed_elements_view elements.items) }
{
    if !is_sole(&elements) {
        return Err(elements);
    }
    let element = elements.swap_remove(0);
    Ok((element.at, element.value))
}

/// An operand, which starts at byte `at`, of the type of one element.
fn element_operand(operand: Typed, at: usize) -> Result<Typed, NameFault>
    ensures given { Gives typed_view (steps.element_operand (typed_view operand)) result }
    ensures told { IfErr result (Tells (unless TypeMismatch at (broken.is_element (typed_view operand)))) }
{
    match operand {
        Typed::Elements(ElementKind::Element, element) => {
            Ok(enclosed(Typed::Elements(ElementKind::Element, element)))
        }
        operand => Err(without(operand, NameProblem::TypeMismatch.at(at))),
    }
}

/// An operand of the type of one element, whose parenthesis is at byte `at`.
fn element_qualified(elements: Vec<TypedElement>, at: usize) -> Result<Typed, NameFault>
    ensures given { Gives typed_view (steps.element_qualified (typed_elements_view elements.items)) result }
    ensures told { IfErr result (Tells (steps.element_qualified_breaks at (typed_elements_view elements.items))) }
{
    match sole_value(elements) {
        Ok((place, operand)) => element_operand(operand, place),
        Err(elements) => Err(without(elements, NameProblem::TypeMismatch.at(at))),
    }
}

/// The range of a type of vectors, for an aggregate.
fn boxed_range(alloc: Global, entry: &Entry) -> Result<Option<Box<StaticRange>>, AllocError>
    ensures { IfOk result (λ r. option_range_view r ≡ option_map ranges.declared_range
        (sized_range_of (meaning_view entry.now.meaning) (option_map declared_range_view entry.now.range))) }
{
    match sized_range(entry) {
        Some(range) => Ok(Some(Box::new(alloc, StaticRange::declared(range))?)),
        None => Ok(None),
    }
}

/// An operand, which starts at byte `at`, of a type of vectors of a kind, whose name is at byte
/// `mark_at`.
fn vector_operand(
    alloc: Global,
    kind: ElementKind,
    entry: &Entry,
    operand: Typed,
    mark_at: usize,
    at: usize,
) -> Result<Typed, NameFault>
    ensures given { Gives typed_view
        (steps.vector_operand mark_at kind (meaning_view entry.now.meaning)
        (option_map declared_range_view entry.now.range) (typed_view operand)) result }
    ensures told { IfErr result (Tells (unless TypeMismatch at (broken.fits_kind kind (typed_view operand)))) }
{
    match operand {
        Typed::Elements(own, vector) => {
            if kind.fits(own) {
                Ok(sized_by(alloc, entry, Typed::Elements(kind, vector), mark_at)?)
            } else {
                Err(without(vector, NameProblem::TypeMismatch.at(at)))
            }
        }
        operand => Err(without(operand, NameProblem::TypeMismatch.at(at))),
    }
}

/// An operand of a type of vectors of a kind, whose name is at byte `mark_at` and whose parenthesis
/// is at byte `at`: a vector of that kind, or an aggregate.
fn vector_qualified(
    alloc: Global,
    kind: ElementKind,
    entry: &Entry,
    elements: Vec<TypedElement>,
    mark_at: usize,
    at: usize,
) -> Result<Typed, NameFault>
    requires kind { steps.is_vector_of kind (meaning_view entry.now.meaning) }
    ensures given { (n : visibility.Name) → Gives typed_view
        (rules.qualified mark_at at (entry_of n entry.now) (typed_elements_view elements.items)) result }
    ensures told { (n : visibility.Name) → IfErr result (Tells
        (broken.qualified mark_at at (entry_of n entry.now) (typed_elements_view elements.items))) }
{
    match sole_value(elements) {
        Ok((place, operand)) => vector_operand(alloc, kind, entry, operand, mark_at, place),
        Err(elements) => {
            let range = boxed_range(alloc, entry)?;
            let vector = aggregate(alloc, kind, at, range, elements)?;
            Ok(Typed::Elements(kind, vector))
        }
    }
}

/// What is wrong with a name of this meaning as the type of a qualified expression.
fn qualified_problem(meaning: &Meaning) -> NameProblem
    ensures { result ≡ steps.qualified_problem (meaning_view meaning.now) }
{
    match meaning {
        Meaning::IntegerType(_) | Meaning::BooleanType | Meaning::EnumerationType { .. } => {
            NameProblem::LeftOut
        }
        Meaning::Unfinished => NameProblem::Undeclared,
        _ => NameProblem::WrongKind,
    }
}

/// An operand of the type of a name, which is at byte `mark_at`, and whose parenthesis is at byte
/// `at`.
fn qualified_as(
    alloc: Global,
    entry: &Entry,
    elements: Vec<TypedElement>,
    mark_at: usize,
    at: usize,
) -> Result<Typed, NameFault>
    ensures given { (n : visibility.Name) → Gives typed_view
        (rules.qualified mark_at at (entry_of n entry.now) (typed_elements_view elements.items)) result }
    ensures told { (n : visibility.Name) → IfErr result (Tells
        (broken.qualified mark_at at (entry_of n entry.now) (typed_elements_view elements.items))) }
{
    match &entry.meaning {
        Meaning::ElementType { .. } => element_qualified(elements, at),
        Meaning::VectorType(kind, _) => {
            vector_qualified(alloc, *kind, entry, elements, mark_at, at)
        }
        meaning => Err(without(elements, qualified_problem(meaning).at(mark_at))),
    }
}

/// A qualified expression, whose parenthesis is at byte `at`.
#[cycle(typed)]
pub(crate) fn qualified(
    sight: &Sight,
    mark: &Identifier,
    elements: &[Element],
    at: usize,
) -> Result<Typed, NameFault>
    ensures given { Gives typed_view
        (rules.typed sight.now
        (t.qualified (ident_view mark.now) at (t.elements_of (map tree_element_view elements.now)))) result }
    ensures told { IfErr result (Tells
        (broken.typed sight.now
        (t.qualified (ident_view mark.now) at (t.elements_of (map tree_element_view elements.now))))) }
{
    let entry = declaration_of(sight, mark)?;
    let elements = typed_elements(sight, elements)?;
    qualified_as(sight.alloc, entry, elements, mark.at, at)
}
