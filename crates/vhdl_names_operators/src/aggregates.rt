//! Aggregates of vectors (IEEE 1076-2008, 9.3.3). They take the memory of lists.

ghost use Rattle.vhdl_names_rules.specs.problems.Broken.{Tells, nothing, ◌▸◌, unless, lacking, any_of};
ghost use Rattle.vhdl_names_rules.specs.problems.Aggregates as broken;
ghost use Rattle.vhdl_names_rules.specs.declared.fault.NameProblem.TheVariants.{TypeMismatch, WrongKind};
ghost use Rattle.std.specs.Prelude.{◌≡◌, map, is_some, option_map, IfOk, IfErr};
ghost use Rattle.vhdl_names_rules.specs.Gives.{Gives};
ghost use Rattle.vhdl_names_rules.specs.Aggregates as rules;
ghost use Rattle.vhdl_names_rules.specs.units.Expressions as u;
ghost use Rattle.vhdl_names_trees.specs.views.Integers.{option_range_view, index_view};
ghost use Rattle.vhdl_names_trees.specs.views.Vectors.{vector_view, elements_view};
ghost use Rattle.vhdl_names_trees.specs.views.Expressions.{typed_view, choice_view, typed_elements_view};
ghost use Rattle.vhdl_names_operators.specs.Arranging as steps;

use std::alloc::{AllocError, Global};
use vhdl_names_rules::{ElementKind, NameFault, NameProblem, without};
use vhdl_names_trees::{
    Index, StaticRange, Typed, TypedChoice, TypedElement, Vector, VectorElement,
};

/// What all elements of an aggregate have to be: whether it is given to what has a range, whether
/// its elements have choices, and whether there is one element with one choice.
#[derive(Clone, Copy)]
struct Arrangement {
    is_ranged: bool,
    is_named: bool,
    is_only: bool,
}

/// The byte at which a choice starts.
fn choice_start(choice: &TypedChoice) -> usize
    ensures { result ≡ broken.choice_start (choice_view choice.now) }
{
    match choice {
        TypedChoice::Others(at) => *at,
        TypedChoice::Place(_, Index::Single(at, _) | Index::Range(at, _)) => *at,
    }
}

/// Whether the first element has choices.
pub fn is_named(elements: &[TypedElement]) -> bool
    ensures { result ≡ broken.is_named (typed_elements_view elements.now) }
{
    match elements.first() {
        Some(first) => !first.choices.is_empty(),
        None => false,
    }
}

/// Whether there is one element with one choice.
fn is_only(elements: &[TypedElement]) -> bool
    ensures { result ≡ broken.is_only (typed_elements_view elements.now) }
{
    if elements.len() != 1 {
        return false;
    }
    elements[0].choices.len() == 1
}

/// What the first element of an aggregate asks of all.
fn arrangement_of(is_ranged: bool, elements: &[TypedElement]) -> Arrangement
    ensures ranged { result.is_ranged ≡ is_ranged }
    ensures named { result.is_named ≡ broken.is_named (typed_elements_view elements.now) }
    ensures only { result.is_only ≡ broken.is_only (typed_elements_view elements.now) }
{
    Arrangement {
        is_ranged,
        is_named: is_named(elements),
        is_only: is_only(elements),
    }
}

/// Whether a choice that is not `others` alone serves: it is for indexes, and stands alone unless
/// it is locally static.
fn serves(is_only: bool, choice: &TypedChoice) -> bool
    ensures { result ≡ steps.choice_serves is_only (choice_view choice.now) }
{
    match choice {
        TypedChoice::Others(_) => false,
        TypedChoice::Place(is_local, _) => is_only || *is_local,
    }
}

/// A choice that is not `others` alone.
fn choice(is_only: bool, choice: &TypedChoice) -> Result<(), NameFault>
    ensures kept { IfOk result (λ _. broken.choice is_only (choice_view choice.now) ≡ nothing) }
    ensures told { IfErr result (Tells (broken.choice is_only (choice_view choice.now))) }
{
    if serves(is_only, choice) {
        Ok(())
    } else {
        Err(NameProblem::WrongKind.at(choice_start(choice)))
    }
}

/// The choices of an element that is not for `others` alone, where they start at a byte.
fn chosen(form: Arrangement, choices: &[TypedChoice], at: usize) -> Result<(), NameFault>
    ensures kept { IfOk result (λ _.
        (unless WrongKind at form.is_named ▸ any_of (broken.choice form.is_only) (map choice_view choices.now))
        ≡ nothing) }
    ensures told { IfErr result (Tells
        (unless WrongKind at form.is_named ▸ any_of (broken.choice form.is_only) (map choice_view choices.now))) }
{
    if !form.is_named {
        return Err(NameProblem::WrongKind.at(at));
    }
    for each in choices {
        choice(form.is_only, each)?;
    }
    Ok(())
}

/// `others` at byte `at`, which stands last and needs a range.
fn others(form: Arrangement, is_last: bool, at: usize) -> Result<(), NameFault>
    ensures kept { IfOk result (λ _. (unless WrongKind at is_last ▸ unless TypeMismatch at form.is_ranged) ≡ nothing) }
    ensures told { IfErr result (Tells (unless WrongKind at is_last ▸ unless TypeMismatch at form.is_ranged)) }
{
    if !is_last {
        Err(NameProblem::WrongKind.at(at))
    } else if !form.is_ranged {
        Err(NameProblem::TypeMismatch.at(at))
    } else {
        Ok(())
    }
}

/// The byte at which `others` starts, where it stands alone.
fn lone_others(choices: &[TypedChoice]) -> Option<usize>
    ensures { result ≡ steps.lone_others (map choice_view choices.now) }
{
    if choices.len() != 1 {
        return None;
    }
    let first = choices.first()?;
    match first {
        TypedChoice::Others(at) => Some(*at),
        TypedChoice::Place(..) => None,
    }
}

/// The choices of an element whose value starts at byte `at`.
fn choices(
    form: Arrangement,
    is_last: bool,
    choices: &[TypedChoice],
    at: usize,
) -> Result<(), NameFault>
    ensures kept { IfOk result (λ _.
        steps.choices form.is_ranged form.is_named form.is_only (map choice_view choices.now) at is_last ≡ nothing) }
    ensures told { IfErr result (Tells
        (steps.choices form.is_ranged form.is_named form.is_only (map choice_view choices.now) at is_last)) }
{
    if let Some(place) = lone_others(choices) {
        return others(form, is_last, place);
    }
    match choices.first() {
        Some(first) => chosen(form, choices, choice_start(first)),
        None => {
            if form.is_named {
                Err(NameProblem::WrongKind.at(at))
            } else {
                Ok(())
            }
        }
    }
}

/// Whether a value of this kind may stand in its order in an aggregate of another: one element, or
/// a vector that fits.
fn may_be_listed(kind: ElementKind, own: ElementKind) -> bool
    ensures { result ≡ rules.may_be_listed kind own }
{
    match own {
        ElementKind::Element => true,
        _ => kind.fits(own),
    }
}

/// One element, or a vector of a kind, which stands in its order; it starts at byte `at`.
fn listed_value(kind: ElementKind, value: Typed, at: usize) -> Result<Vector, NameFault>
    ensures given { Gives vector_view (rules.listed_value kind (typed_view value)) result }
    ensures told { IfErr result (Tells (lacking TypeMismatch at (rules.listed_value kind (typed_view value)))) }
{
    match value {
        Typed::Elements(own, vector) => {
            if may_be_listed(kind, own) {
                Ok(vector)
            } else {
                Err(without(vector, NameProblem::TypeMismatch.at(at)))
            }
        }
        value => Err(without(value, NameProblem::TypeMismatch.at(at))),
    }
}

/// One element, which starts at byte `at`.
fn element_value(value: Typed, at: usize) -> Result<Vector, NameFault>
    ensures given { Gives vector_view (rules.element_value (typed_view value)) result }
    ensures told { IfErr result (Tells
        (lacking (broken.value_problem (typed_view value)) at (rules.element_value (typed_view value)))) }
{
    match value {
        Typed::Elements(ElementKind::Element, vector) => Ok(vector),
        Typed::Elements(_, vector) => Err(without(vector, NameProblem::LeftOut.at(at))),
        value => Err(without(value, NameProblem::TypeMismatch.at(at))),
    }
}

/// The indexes of choices, of which `others` has none.
fn indexes_of(alloc: Global, choices: Vec<TypedChoice>) -> Result<Vec<Index>, AllocError>
    ensures { IfOk result (λ indexes.
        map index_view indexes.items ≡ rules.indexes_of (map choice_view choices.items)) }
{
    let mut indexes = Vec::new(alloc);
    for choice in choices {
        let TypedChoice::Place(_, index) = choice else {
            continue;
        };
        indexes.push(index)?;
    }
    Ok(indexes)
}

/// A value in its order, which starts at byte `at`.
fn listed(kind: ElementKind, value: Typed, at: usize) -> Result<VectorElement, NameFault>
    ensures given { Gives steps.alone
        (option_map (λ x. u.next x u.no_elements) (rules.listed_value kind (typed_view value))) result }
    ensures told { IfErr result (Tells (lacking TypeMismatch at (rules.listed_value kind (typed_view value)))) }
{
    let next = listed_value(kind, value, at)?;
    Ok(VectorElement::Next(next))
}

/// The value of all others, which starts at byte `at`.
fn of_others(value: Typed, at: usize) -> Result<VectorElement, NameFault>
    ensures given { Gives steps.alone (option_map u.Elements.others (rules.element_value (typed_view value))) result }
    ensures told { IfErr result (Tells
        (lacking (broken.value_problem (typed_view value)) at (rules.element_value (typed_view value)))) }
{
    let other = element_value(value, at)?;
    Ok(VectorElement::Others(other))
}

/// The value at the indexes of choices, which starts at byte `at`.
fn at_indexes(
    alloc: Global,
    choices: Vec<TypedChoice>,
    value: Typed,
    at: usize,
) -> Result<VectorElement, NameFault>
    ensures given { Gives steps.alone
        (option_map (λ x. u.chosen (rules.indexes_of (map choice_view choices.items)) x u.no_elements)
        (rules.element_value (typed_view value))) result }
    ensures told { IfErr result (Tells
        (lacking (broken.value_problem (typed_view value)) at (rules.element_value (typed_view value)))) }
{
    let own = element_value(value, at)?;
    let indexes = indexes_of(alloc, choices)?;
    Ok(VectorElement::Chosen(indexes, own))
}

/// An element by its choices, with its value, which starts at byte `at`.
fn placed(
    alloc: Global,
    kind: ElementKind,
    choices: Vec<TypedChoice>,
    at: usize,
    value: Typed,
) -> Result<VectorElement, NameFault>
    ensures given { Gives steps.alone (steps.placed kind (map choice_view choices.items) (typed_view value)) result }
    ensures told { IfErr result (Tells (broken.value kind (map choice_view choices.items) at (typed_view value))) }
{
    let Some(first) = choices.first() else {
        return listed(kind, value, at);
    };
    match first {
        TypedChoice::Others(_) => of_others(value, at),
        TypedChoice::Place(..) => at_indexes(alloc, choices, value, at),
    }
}

/// An element of an aggregate of a kind: its choices, and then its value.
fn element(
    alloc: Global,
    kind: ElementKind,
    form: Arrangement,
    is_last: bool,
    element: TypedElement,
) -> Result<VectorElement, NameFault>
    ensures given { Gives steps.alone (steps.element kind form.is_ranged form.is_named form.is_only is_last
        (steps.element_view element)) result }
    ensures told { IfErr result (Tells
        (steps.element_breaks kind form.is_ranged form.is_named form.is_only is_last (steps.element_view element))) }
{
    let TypedElement {
        choices: own,
        at,
        value,
    } = element;
    choices(form, is_last, &own, at)?;
    placed(alloc, kind, own, at, value)
}

/// The elements of an aggregate of vectors of a kind, which is given to what has a range or is
/// free.
pub fn arranged(
    alloc: Global,
    kind: ElementKind,
    is_ranged: bool,
    elements: Vec<TypedElement>,
) -> Result<Vec<VectorElement>, NameFault>
    ensures given { Gives (λ es. elements_view es.items)
        (rules.arranged kind is_ranged (typed_elements_view elements.items)) result }
    ensures told { IfErr result (Tells (broken.aggregate kind is_ranged (typed_elements_view elements.items))) }
{
    let form = arrangement_of(is_ranged, &elements);
    let count = elements.len();
    let mut done = Vec::new(alloc);
    for each in elements {
        let is_last = done.len() + 1 == count;
        let made = element(alloc, kind, form, is_last, each)?;
        done.push(made)?;
    }
    Ok(done)
}

/// An aggregate of vectors of a kind, which starts at byte `at`, with the range of its indexes or
/// free.
pub fn aggregate(
    alloc: Global,
    kind: ElementKind,
    at: usize,
    range: Option<Box<StaticRange>>,
    elements: Vec<TypedElement>,
) -> Result<Vector, NameFault>
    ensures given { Gives vector_view
        (rules.aggregate kind at (option_range_view range) (typed_elements_view elements.items)) result }
    ensures told { IfErr result (Tells
        (broken.aggregate kind (is_some range) (typed_elements_view elements.items))) }
{
    let elements = arranged(alloc, kind, range.is_some(), elements)?;
    Ok(Vector::aggregate(at, range, elements))
}
