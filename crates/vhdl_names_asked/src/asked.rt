//! The value of a type that an expression is (IEEE 1076-2008, 9.3.3, 10.5). Each takes memory for
//! what is analysed, and fails at the first byte where a rule is broken.

ghost use Rattle.std.specs.Prelude.{◌≡◌, map, option_map, is_some, IfOk, IfErr};
ghost use Rattle.vhdl_names_rules.specs.problems.Broken.{Tells, refused, ◌▸◌, unless, lacking};
ghost use Rattle.vhdl_names_rules.specs.problems.Expressions as broken;
ghost use Rattle.vhdl_names_rules.specs.declared.fault.NameProblem.TheVariants.{TypeMismatch};
ghost use Rattle.vhdl_names_rules.specs.Expressions as rules;
ghost use Rattle.vhdl_names_rules.specs.Gives.{Gives};
ghost use Rattle.vhdl_names_rules.specs.declared.kind.ObjectType.TheVariants.{Elements, Enumeration, Integers};
ghost use Rattle.vhdl_tree.specs.Tree as t;
ghost use Rattle.vhdl_tree.specs.View as trees;
ghost use Rattle.vhdl_names_trees.specs.views.Expressions.{typed_view, choice_view, typed_elements_view};
ghost use Rattle.vhdl_names_trees.specs.views.Integers.{target_range_view, option_range_view};
ghost use Rattle.vhdl_names_rules.specs.problems.Aggregates as aggregates;
ghost use Rattle.vhdl_names_asked.specs.Givings as steps;
ghost use Rattle.vhdl_names_expressions.specs.Elements.{sole_view as filling_view};
ghost use Rattle.vhdl_names_asked.specs.Givings.{filling as filling_of};
ghost use Rattle.vhdl_names_units.specs.views.Answers.{given_view};

use std::alloc::{AllocError, Global};
use vhdl_names_expressions::{start, typed};
use vhdl_names_numbers::Integer;
use vhdl_names_operators::{aggregate, is_named};
use vhdl_names_rules::{ElementKind, NameFault, NameProblem, ObjectType, without};
use vhdl_names_sight::Sight;
use vhdl_names_trees::{StaticRange, TargetRange, Typed, TypedChoice, TypedElement, Value};
use vhdl_names_units::Given;
use vhdl_tree::{Expr, Value as TreeValue};

/// The value of a kind that an operand is, which starts at byte `at`.
fn as_elements(
    alloc: Global,
    kind: ElementKind,
    operand: Typed,
    at: usize,
) -> Result<Given, NameFault>
    ensures given { Gives given_view (steps.plain_value (Elements kind) (typed_view operand)) result }
    ensures told { IfErr result (Tells (refused TypeMismatch at)) }
{
    if let Typed::Elements(own, vector) = operand {
        if kind.fits(own) {
            return Ok(Given::Single(Box::new(alloc, Value::Elements(vector))?));
        }
    }
    Err(NameProblem::TypeMismatch.at(at))
}

/// The value of an enumeration that an operand is, which starts at byte `at`.
fn as_state(
    alloc: Global,
    number: usize,
    count: u16,
    operand: Typed,
    at: usize,
) -> Result<Given, NameFault>
    ensures given { Gives given_view (steps.plain_value (Enumeration number count) (typed_view operand)) result }
    ensures told { IfErr result (Tells (refused TypeMismatch at)) }
{
    if let Typed::Enumerated {
        number: own,
        value,
        ..
    } = operand
    {
        if number == own {
            return Ok(Given::Single(Box::new(alloc, value)?));
        }
    }
    Err(NameProblem::TypeMismatch.at(at))
}

/// The value of an integer type that an operand is, which starts at byte `at`.
fn as_number(alloc: Global, operand: Typed, at: usize) -> Result<Given, NameFault>
    ensures given { Gives given_view (steps.plain_value Integers (typed_view operand)) result }
    ensures told { IfErr result (Tells (refused TypeMismatch at)) }
{
    match Integer::of(operand) {
        Ok(integer) => {
            let value = Value::Computed(integer.into_computed());
            Ok(Given::Single(Box::new(alloc, value)?))
        }
        Err(operand) => Err(without(operand, NameProblem::TypeMismatch.at(at))),
    }
}

/// Whether a choice is `others`.
fn is_others(choice: &TypedChoice) -> bool
    ensures { result ≡ steps.is_others (choice_view choice.now) }
{
    match choice {
        TypedChoice::Others(_) => true,
        TypedChoice::Place(..) => false,
    }
}

/// Whether choices are `others` alone.
#[tactic(auto, using(crate::proofs::Others::one_others, crate::proofs::Others::not_one_others))]
fn are_others(choices: &[TypedChoice]) -> bool
    ensures { result ≡ steps.are_others (map choice_view choices.now) }
{
    match choices {
        [only] => is_others(only),
        _ => false,
    }
}

/// Whether elements are a value for `others` alone.
#[tactic(auto, using(crate::proofs::Others::one_filling, crate::proofs::Others::not_one_filling))]
fn is_filling(elements: &[TypedElement]) -> bool
    ensures { result ≡ steps.is_filling (typed_elements_view elements.now) }
{
    match elements {
        [only] => are_others(&only.choices),
        _ => false,
    }
}

/// The value of `others` alone, if elements are that.
fn filling(mut elements: Vec<TypedElement>) -> Result<(usize, Typed), Vec<TypedElement>>
    ensures { filling_view result ≡ filling_of (typed_elements_view elements.items) }
{
    if !is_filling(&elements) {
        return Err(elements);
    }
    let element = elements.swap_remove(0);
    Ok((element.at, element.value))
}

/// The value of `others` alone, which starts at byte `at`, given to each element of a vector.
fn as_filling(alloc: Global, operand: Typed, at: usize) -> Result<Given, NameFault>
    ensures given { Gives given_view (steps.as_filling (typed_view operand)) result }
    ensures told { IfErr result (Tells (refused TypeMismatch at)) }
{
    match operand {
        Typed::Elements(ElementKind::Element, element) => {
            Ok(Given::Filled(Box::new(alloc, element)?))
        }
        operand => Err(without(operand, NameProblem::TypeMismatch.at(at))),
    }
}

/// A copy of a range in a box, for an aggregate.
fn boxed_range(
    alloc: Global,
    range: Option<TargetRange<'_>>,
) -> Result<Option<Box<StaticRange>>, AllocError>
    ensures { IfOk result (λ r. option_range_view r ≡ option_map target_range_view range.entry) }
{
    match range {
        Some(range) => Ok(Some(Box::new(alloc, range.copied(alloc)?)?)),
        None => Ok(None),
    }
}

/// Whether an aggregate has choices, and no range is known of which they are.
fn lacks_range(range: Option<TargetRange<'_>>, elements: &[TypedElement]) -> bool
    ensures { result ≡ steps.lacks_range (option_map target_range_view range.entry)
        (typed_elements_view elements.now) }
{
    match range {
        Some(_) => false,
        None => is_named(elements),
    }
}

/// An aggregate of more than others, likewise.
fn as_aggregate(
    alloc: Global,
    kind: ElementKind,
    range: Option<TargetRange<'_>>,
    elements: Vec<TypedElement>,
    at: usize,
) -> Result<Given, NameFault>
    ensures given { Gives given_view
        (steps.as_listed kind at (option_map target_range_view range.entry) (typed_elements_view elements.items))
        result }
    ensures told { IfErr result (Tells
        (steps.listed_breaks kind at (is_some range.entry) (typed_elements_view elements.items))) }
{
    if lacks_range(range, &elements) {
        return Err(without(elements, NameProblem::LeftOut.at(at)));
    }
    let range = boxed_range(alloc, range)?;
    let vector = aggregate(alloc, kind, at, range, elements)?;
    Ok(Given::Single(Box::new(alloc, Value::Elements(vector))?))
}

/// An aggregate that starts at byte `at`, given to what has this kind and range.
fn as_composite(
    alloc: Global,
    kind: ElementKind,
    range: Option<TargetRange<'_>>,
    elements: Vec<TypedElement>,
    at: usize,
) -> Result<Given, NameFault>
    ensures given { Gives given_view
        (rules.as_composite (Elements kind) at (option_map target_range_view range.entry)
        (typed_elements_view elements.items)) result }
    ensures told { IfErr result (Tells
        (aggregates.composite (Elements kind) at (is_some range.entry) (typed_elements_view elements.items))) }
{
    if !kind.is_vector() {
        return Err(without(elements, NameProblem::TypeMismatch.at(at)));
    }
    match filling(elements) {
        Ok((place, operand)) => as_filling(alloc, operand, place),
        Err(elements) => as_aggregate(alloc, kind, range, elements, at),
    }
}

/// An aggregate that starts at byte `at`, given to what has this type and range.
fn given_composite(
    alloc: Global,
    object_type: ObjectType,
    range: Option<TargetRange<'_>>,
    elements: Vec<TypedElement>,
    at: usize,
) -> Result<Given, NameFault>
    ensures given { Gives given_view
        (rules.as_composite object_type at (option_map target_range_view range.entry)
        (typed_elements_view elements.items)) result }
    ensures told { IfErr result (Tells
        (aggregates.composite object_type at (is_some range.entry) (typed_elements_view elements.items))) }
{
    match object_type {
        ObjectType::Elements(kind) => as_composite(alloc, kind, range, elements, at),
        ObjectType::Enumeration { .. } | ObjectType::Integers | ObjectType::Booleans => {
            Err(without(elements, NameProblem::TypeMismatch.at(at)))
        }
    }
}

/// The value of a type that an operand, which starts at byte `at` and is no aggregate, is.
fn as_plain(
    alloc: Global,
    object_type: ObjectType,
    operand: Typed,
    at: usize,
) -> Result<Given, NameFault>
    ensures given { Gives given_view (steps.plain_value object_type (typed_view operand)) result }
    ensures told { IfErr result (Tells (refused TypeMismatch at)) }
{
    match object_type {
        ObjectType::Elements(kind) => as_elements(alloc, kind, operand, at),
        ObjectType::Enumeration { number, count } => as_state(alloc, number, count, operand, at),
        ObjectType::Integers => as_number(alloc, operand, at),
        ObjectType::Booleans => Err(without(operand, NameProblem::TypeMismatch.at(at))),
    }
}

/// The value that an operand, which starts at byte `at`, is for what has this type and range.
pub fn given_as(
    alloc: Global,
    object_type: ObjectType,
    range: Option<TargetRange<'_>>,
    operand: Typed,
    at: usize,
) -> Result<Given, NameFault>
    ensures given { Gives given_view
        (rules.as_value object_type (option_map target_range_view range.entry) (typed_view operand)) result }
    ensures told { IfErr result (Tells
        (broken.given object_type (option_map target_range_view range.entry) at (typed_view operand))) }
{
    match operand {
        Typed::Composite(start, elements) => {
            given_composite(alloc, object_type, range, elements, start)
        }
        operand => as_plain(alloc, object_type, operand, at),
    }
}

/// Whether a type is of vectors.
fn is_vector_type(object_type: ObjectType) -> bool
    ensures { result ≡ broken.is_vector_type object_type }
{
    match object_type {
        ObjectType::Elements(kind) => kind.is_vector(),
        ObjectType::Enumeration { .. } | ObjectType::Integers | ObjectType::Booleans => false,
    }
}

/// `(others => e)` of a type, whose parenthesis is at byte `at`, where the operand e starts at byte
/// `element_at`.
fn as_filled(
    alloc: Global,
    object_type: ObjectType,
    operand: Typed,
    at: usize,
    element_at: usize,
) -> Result<Given, NameFault>
    ensures given { Gives given_view (rules.as_filled object_type (typed_view operand)) result }
    ensures told { IfErr result (Tells
        (unless TypeMismatch at (broken.is_vector_type object_type) ▸ lacking TypeMismatch element_at
        (rules.as_filled object_type (typed_view operand)))) }
{
    if is_vector_type(object_type) {
        as_filling(alloc, operand, element_at)
    } else {
        Err(without(operand, NameProblem::TypeMismatch.at(at)))
    }
}

/// An expression that is given to a target of a type, with this range of indexes if it has one.
#[tactic(auto, using(crate::proofs::Asking::given_single))]
pub fn given_expression(
    sight: &Sight,
    object_type: ObjectType,
    range: Option<TargetRange<'_>>,
    e: &Expr,
) -> Result<Given, NameFault>
    ensures given { Gives given_view
        (rules.value_given sight.now object_type (option_map target_range_view range.entry)
        (t.single (trees.view e.now))) result }
    ensures told { IfErr result (Tells
        (broken.value_given sight.now object_type (option_map target_range_view range.entry)
        (t.single (trees.view e.now)))) }
{
    let operand = typed(sight, e)?;
    given_as(sight.alloc, object_type, range, operand, start(e))
}

/// What is given to a target of a type, with this range of indexes if it has one: a value, or
/// `(others => e)` for each element of a vector (9.3.3).
#[tactic(auto, using(crate::proofs::Asking::given_others))]
pub fn given(
    sight: &Sight,
    object_type: ObjectType,
    range: Option<TargetRange<'_>>,
    value: &TreeValue,
) -> Result<Given, NameFault>
    ensures given { Gives given_view
        (rules.value_given sight.now object_type (option_map target_range_view range.entry)
        (trees.value_view value.now)) result }
    ensures told { IfErr result (Tells
        (broken.value_given sight.now object_type (option_map target_range_view range.entry)
        (trees.value_view value.now))) }
{
    match value {
        TreeValue::Expr(e) => given_expression(sight, object_type, range, e),
        TreeValue::Others { at, element } => {
            let operand = typed(sight, element)?;
            as_filled(sight.alloc, object_type, operand, *at, start(element))
        }
    }
}
