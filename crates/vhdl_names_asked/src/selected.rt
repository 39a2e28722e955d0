//! What statements assign, and what cases are on.

ghost use Rattle.std.specs.Prelude.{◌≡◌, option_map, IfErr};
ghost use Rattle.vhdl_tree.specs.View as trees;
ghost use Rattle.vhdl_names_rules.specs.problems.Broken.{Tells, refused};
ghost use Rattle.vhdl_names_rules.specs.problems.Expressions as broken;
ghost use Rattle.vhdl_names_rules.specs.problems.Choices as choices;
ghost use Rattle.vhdl_names_rules.specs.declared.fault.NameProblem.TheVariants.{TypeMismatch};
ghost use Rattle.vhdl_names_rules.specs.Expressions as rules;
ghost use Rattle.vhdl_names_rules.specs.Choices.{selector as selector_of};
ghost use Rattle.vhdl_names_rules.specs.Gives.{Gives};
ghost use Rattle.vhdl_names_trees.specs.views.Expressions.{typed_view};
ghost use Rattle.vhdl_names_trees.specs.views.Integers.{target_range_view};
ghost use Rattle.vhdl_names_units.specs.views.Answers.{assigned_view, selected_view};
ghost use Rattle.vhdl_names_asked.specs.Asked as steps;
ghost use Rattle.vhdl_names_asked.specs.Asked.{selected_by};

use crate::asked::given;
use std::alloc::Global;
use vhdl_lexer::Language;
use vhdl_names_expressions::{start, typed};
use vhdl_names_rules::{ElementKind, NameFault, NameProblem, ObjectType, without};
use vhdl_names_sight::Sight;
use vhdl_names_trees::{Computed, TargetRange, Typed, Value};
use vhdl_names_units::{Assigned, Given, Selector};
use vhdl_tree::{Expr, Value as TreeValue};

/// The truth that an operand, which starts at byte `at`, gives to a boolean.
#[tactic(auto, using(crate::proofs::Selecting::run_decides))]
fn as_boolean(alloc: Global, operand: Typed, at: usize) -> Result<Assigned, NameFault>
    ensures given { Gives assigned_view (rules.as_boolean (typed_view operand)) result }
    ensures told { IfErr result (Tells (refused TypeMismatch at)) }
{
    match operand {
        Typed::Truth(test) => match test.as_fixed() {
            Ok(truth) => {
                let value = Value::StaticTruth(truth);
                Ok(Assigned::Given(Given::Single(Box::new(alloc, value)?)))
            }
            Err(test) => Ok(Assigned::Truth(test)),
        },
        operand => Err(without(operand, NameProblem::TypeMismatch.at(at))),
    }
}

/// The expression that a boolean is given, if this is a value for one.
fn boolean_value(object_type: ObjectType, value: &TreeValue) -> Option<&Expr>
    ensures { option_map (λ e. trees.view e.now) result ≡
        steps.boolean_value object_type (trees.value_view value.now) }
{
    match (object_type, value) {
        (ObjectType::Booleans, TreeValue::Expr(e)) => Some(e),
        _ => None,
    }
}

/// What is assigned to a target of a type, with this range of indexes if it has one: what is given
/// to it, or to a boolean a truth (10.5, 10.6).
pub fn assigned(
    sight: &Sight,
    object_type: ObjectType,
    range: Option<TargetRange<'_>>,
    value: &TreeValue,
) -> Result<Assigned, NameFault>
    ensures given { Gives assigned_view
        (rules.value_assigned sight.now object_type (option_map target_range_view range.entry)
        (trees.value_view value.now)) result }
    ensures told { IfErr result (Tells
        (broken.value_assigned sight.now object_type (option_map target_range_view range.entry)
        (trees.value_view value.now))) }
{
    match boolean_value(object_type, value) {
        Some(e) => {
            let operand = typed(sight, e)?;
            as_boolean(sight.alloc, operand, start(e))
        }
        None => Ok(Assigned::Given(given(sight, object_type, range, value)?)),
    }
}

/// What a case is on in the wider language alone, and its type, of an operand which starts at byte
/// `at`: a static integer, or a truth.
fn as_wide_selector(operand: Typed, at: usize) -> Result<(ObjectType, Selector), NameFault>
    ensures given { Gives selected_view (steps.wide_selector (typed_view operand)) result }
    ensures told { IfErr result (Tells (refused TypeMismatch at)) }
{
    match operand {
        Typed::Integer(integer) => {
            let value = Value::Computed(Computed::Static(integer));
            Ok((ObjectType::Integers, Selector::Value(value)))
        }
        Typed::Truth(test) => Ok((ObjectType::Booleans, Selector::Truth(test))),
        operand => Err(without(operand, NameProblem::TypeMismatch.at(at))),
    }
}

/// What a case is on, and its type, of an operand which starts at byte `at`.
fn as_selector(
    language: Language,
    operand: Typed,
    at: usize,
) -> Result<(ObjectType, Selector), NameFault>
    ensures given { Gives selected_view (selector_of language (typed_view operand)) result }
    ensures told { IfErr result (Tells (refused TypeMismatch at)) }
{
    match operand {
        Typed::Elements(ElementKind::OpenVector, vector) => Ok((
            ObjectType::Elements(ElementKind::LogicVector),
            Selector::Value(Value::Elements(vector)),
        )),
        Typed::Elements(kind, vector) => Ok((
            ObjectType::Elements(kind),
            Selector::Value(Value::Elements(vector)),
        )),
        Typed::Enumerated {
            number,
            count,
            value,
        } => Ok((
            ObjectType::Enumeration { number, count },
            Selector::Value(value),
        )),
        Typed::Computed(integer) => Ok((
            ObjectType::Integers,
            Selector::Value(Value::Computed(integer)),
        )),
        operand => match language {
            Language::Profile => Err(without(operand, NameProblem::TypeMismatch.at(at))),
            Language::Wide => as_wide_selector(operand, at),
        },
    }
}

/// What a case is on, and its type: elements of the nine values, an enumeration, or in the wider
/// language an integer or a truth (10.9).
pub fn selector(sight: &Sight, e: &Expr) -> Result<(ObjectType, Selector), NameFault>
    ensures given { Gives selected_view (selected_by sight.now (trees.view e.now)) result }
    ensures told { IfErr result (Tells (choices.selected_by sight.now (trees.view e.now))) }
{
    let value = typed(sight, e)?;
    as_selector(sight.language, value, start(e))
}
