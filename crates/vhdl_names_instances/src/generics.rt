//! The actuals of generics (IEEE 1076-2008, 6.5.7.2).

ghost use Rattle.std.specs.Prelude.{◌≡◌, IfErr, map, option_map, slice_get};
ghost use Rattle.vhdl_names_instances.specs.Views.{actual_view, fixeds_view};
ghost use Rattle.vhdl_names_instances.specs.steps.Generics as steps;
ghost use Rattle.vhdl_names_rules.specs.problems.Broken.{Tells};
ghost use Rattle.vhdl_names_rules.specs.problems.Instances as broken;
ghost use Rattle.vhdl_names_rules.specs.Gives.{Gives};
ghost use Rattle.vhdl_names_rules.specs.Instances as rules;
ghost use Rattle.vhdl_names_trees.specs.views.Expressions.{typed_view, typed_elements_view};
ghost use Rattle.vhdl_tree.specs.View.{view};
ghost use Rattle.vhdl_names_units.specs.views.Answers.{fixed_view};

use crate::actuals::entry_at;
use std::alloc::Global;
use vhdl_names_asked::{given_as, static_condition};
use vhdl_names_expressions::{start, static_integer, typed};
use vhdl_names_numbers::are_known;
use vhdl_names_operators::arranged;
use vhdl_names_rules::{ElementKind, NameFault, NameProblem, ObjectType, without};
use vhdl_names_sight::Sight;
use vhdl_names_trees::{Typed, TypedElement};
use vhdl_names_units::{Actuals, Fixed};
use vhdl_names_values::as_known;
use vhdl_tree::Expr;

/// A generic as it is associated: an integer, a boolean, or of a kind of the nine values.
#[derive(Clone, Copy)]
pub enum GenericKind {
    Integer,
    Boolean,
    Elements(ElementKind),
}

/// An aggregate that starts at byte `at`, as the actual of a generic of this kind: it has the
/// indexes of the generic. The actual starts at byte `start`.
fn aggregate_actual(
    alloc: Global,
    kind: ElementKind,
    elements: Vec<TypedElement>,
    at: usize,
    start: usize,
) -> Result<Fixed, NameFault>
    ensures given { Gives fixed_view (rules.aggregate_actual kind at (typed_elements_view elements.items)) result }
    ensures told { IfErr result (Tells
        (steps.aggregate_breaks kind at start (typed_elements_view elements.items))) }
{
    if !kind.is_vector() {
        return Err(without(elements, NameProblem::TypeMismatch.at(at)));
    }
    let elements = arranged(alloc, kind, true, elements)?;
    if are_known(&elements) {
        Ok(Fixed::Aggregate(at, elements))
    } else {
        Err(without(elements, NameProblem::LeftOut.at(start)))
    }
}

/// An operand that starts at byte `at` and is no aggregate, as the actual of a generic of this
/// kind.
fn plain_actual(
    alloc: Global,
    kind: ElementKind,
    operand: Typed,
    at: usize,
) -> Result<Fixed, NameFault>
    ensures given { Gives fixed_view (steps.plain_actual kind (typed_view operand)) result }
    ensures told { IfErr result (Tells (steps.plain_breaks kind at (typed_view operand))) }
{
    let given = given_as(alloc, ObjectType::Elements(kind), None, operand, at)?;
    as_known(given, at)
}

/// An operand that starts at byte `at`, as the actual of a generic of this kind: a value that names
/// no signal and no variable.
fn as_actual(
    alloc: Global,
    kind: ElementKind,
    operand: Typed,
    at: usize,
) -> Result<Fixed, NameFault>
    ensures given { Gives fixed_view (rules.value_as_actual kind (typed_view operand)) result }
    ensures told { IfErr result (Tells (broken.given_value kind at (typed_view operand))) }
{
    match operand {
        Typed::Composite(start, elements) => aggregate_actual(alloc, kind, elements, start, at),
        operand => plain_actual(alloc, kind, operand, at),
    }
}

/// The actual of a generic: a static integer, a truth over such, or a value that names no signal.
#[tactic(auto, unfolding(vhdl_names_rules::specs::Instances::generic_actual))]
pub(crate) fn generic_actual(sight: &Sight, kind: GenericKind, e: &Expr) -> Result<Fixed, NameFault>
    ensures given { Gives fixed_view (rules.generic_actual sight.now (steps.formal kind) (view e.now)) result }
    ensures told { IfErr result (Tells (broken.generic_actual sight.now (view e.now) (steps.formal kind))) }
{
    match kind {
        GenericKind::Integer => Ok(Fixed::Integer(static_integer(sight, e)?)),
        GenericKind::Boolean => Ok(Fixed::Truth(static_condition(sight, e)?)),
        GenericKind::Elements(kind) => {
            let operand = typed(sight, e)?;
            as_actual(sight.alloc, kind, operand, start(e))
        }
    }
}

/// The actual of a generic, if one is associated.
fn generic_entry(
    sight: &Sight,
    kind: GenericKind,
    actual: &Option<&Expr>,
) -> Result<Option<Fixed>, NameFault>
    ensures { Gives (option_map fixed_view) (steps.generic_entry sight.now kind (actual_view actual.now)) result }
{
    match actual {
        None => Ok(None),
        Some(e) => Ok(Some(generic_actual(sight, kind, e)?)),
    }
}

/// The kind of the generic at a place, if there are so many.
pub(crate) fn generic_at(generics: &[GenericKind], index: usize) -> Option<GenericKind>
    ensures { result ≡ slice_get generics.now index }
{
    match generics.get(index) {
        None => None,
        Some(kind) => Some(*kind),
    }
}

/// The actual of the generic at a place, where there are both.
fn entry(
    sight: &Sight,
    generics: &[GenericKind],
    actuals: &[Option<&Expr>],
    index: usize,
) -> Result<Option<Option<Fixed>>, NameFault>
    ensures { Gives (option_map (option_map fixed_view))
        (steps.entry sight.now generics.now (map actual_view actuals.now) index) result }
{
    match generic_at(generics, index) {
        None => Ok(None),
        Some(kind) => match entry_at(actuals, index) {
            None => Ok(None),
            Some(actual) => Ok(Some(generic_entry(sight, kind, &actual)?)),
        },
    }
}

/// The actuals of generics, in the order of the generics.
pub(crate) fn generic_actuals(
    sight: &Sight,
    generics: &[GenericKind],
    actuals: &[Option<&Expr>],
) -> Result<Actuals<Fixed>, NameFault>
    ensures { Gives fixeds_view (steps.generic_actuals sight.now generics.now (map actual_view actuals.now)) result }
{
    let mut all = Actuals::none(sight.alloc);
    for index in 0..generics.len() {
        match entry(sight, generics, actuals, index)? {
            None => return Ok(all),
            Some(actual) => all.push(actual)?,
        }
    }
    Ok(all)
}
