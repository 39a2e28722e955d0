//! Choices of case statements and selected assignments (IEEE 1076-2008, 10.9, 11.6).

ghost use Rattle.std.specs.Prelude.{◌≡◌, ◌∷◌, [], map, option_map, IfErr};
ghost use Rattle.vhdl_names_rules.specs.problems.Broken.{Tells, refused, any_of};
ghost use Rattle.vhdl_names_rules.specs.problems.Choices as broken;
ghost use Rattle.vhdl_names_rules.specs.problems.Subtypes.{literal};
ghost use Rattle.vhdl_names_rules.specs.Choices as rules;
ghost use Rattle.vhdl_names_rules.specs.Gives.{Gives};
ghost use Rattle.vhdl_names_rules.specs.Rules.{each};
ghost use Rattle.vhdl_names_rules.specs.declared.fault.NameProblem.TheVariants.{LeftOut};
ghost use Rattle.vhdl_names_rules.specs.declared.kind.ObjectType.TheVariants.{Elements, Enumeration, Integers, Booleans};
ghost use Rattle.vhdl_names_rules.specs.problems.Places.{choice_place};
ghost use Rattle.vhdl_names_trees.specs.views.Expressions.{choice_view as typed_choice_view};
ghost use Rattle.vhdl_tree.specs.Tree as t;
ghost use Rattle.vhdl_tree.specs.View.{view, ident_view, suffix_view, attribute_view, choice_view as tree_choice_view};
ghost use Rattle.vhdl_names_sight.specs.Views.{meaning_view};
ghost use Rattle.vhdl_names_expressions.specs.Chosen.{is_bare};
ghost use Rattle.vhdl_names_values.specs.Choosing as steps;
ghost use Rattle.vhdl_names_units.specs.views.Answers.{choice_view, choices_view};

use crate::literals::{literal_values, no_literal};
use std::alloc::Global;
use vhdl_names_expressions::{name_of, start, typed_choice};
use vhdl_names_rules::{ElementKind, NameFault, NameProblem, ObjectType, without};
use vhdl_names_sight::{Meaning, Sight, meaning_of};
use vhdl_names_trees::TypedChoice;
use vhdl_names_units::Choice;
use vhdl_tree::{Choice as TreeChoice, Expr, Name, Suffix};

/// What is wrong with a name of this meaning as a choice.
fn choice_problem(meaning: &Meaning) -> NameProblem
    ensures { result ≡ broken.choice_problem (meaning_view meaning.now) }
{
    match meaning {
        Meaning::Unfinished => NameProblem::Undeclared,
        Meaning::Literal { .. } | Meaning::Constant(_, _, Some(_)) => NameProblem::TypeMismatch,
        Meaning::Label | Meaning::Component(_) => NameProblem::WrongKind,
        _ => NameProblem::LeftOut,
    }
}

/// The choice that a constant of this kind is, which a literal declares; its name is at byte `at`.
fn constant_choice(kind: ElementKind, meaning: &Meaning, at: usize) -> Result<Choice, NameFault>
    ensures given { Gives choice_view (rules.named_choice (Elements kind) (meaning_view meaning.now)) result }
    ensures told { IfErr result (Tells (refused (broken.choice_problem (meaning_view meaning.now)) at)) }
{
    match (kind, meaning) {
        (ElementKind::Element, Meaning::Constant(_, ElementKind::Element, Some(values)))
        | (ElementKind::LogicVector, Meaning::Constant(_, ElementKind::LogicVector, Some(values)))
        | (ElementKind::Unsigned, Meaning::Constant(_, ElementKind::Unsigned, Some(values))) => {
            Ok(Choice::Values(values.clone()?))
        }
        _ => Err(choice_problem(meaning).at(at)),
    }
}

/// The choice that a literal of this enumeration is; its name is at byte `at`.
fn position_choice(
    number: usize,
    count: u16,
    meaning: &Meaning,
    at: usize,
) -> Result<Choice, NameFault>
    ensures given { Gives choice_view
        (rules.named_choice (Enumeration number count) (meaning_view meaning.now)) result }
    ensures told { IfErr result (Tells (refused (broken.choice_problem (meaning_view meaning.now)) at)) }
{
    match meaning {
        Meaning::Literal {
            number: own,
            position,
            ..
        } if *own == number => Ok(Choice::Position(*position)),
        _ => Err(choice_problem(meaning).at(at)),
    }
}

/// The choice that `true` or `false` is; the name is at byte `at`.
fn truth_choice(meaning: &Meaning, at: usize) -> Result<Choice, NameFault>
    ensures given { Gives choice_view (rules.named_choice Booleans (meaning_view meaning.now)) result }
    ensures told { IfErr result (Tells (refused (broken.choice_problem (meaning_view meaning.now)) at)) }
{
    match meaning {
        Meaning::BooleanLiteral(is_true) => Ok(Choice::Position(u8::from(*is_true))),
        _ => Err(choice_problem(meaning).at(at)),
    }
}

/// The choice that a literal of an enumeration is, or a constant that a literal declares; the name
/// is at byte `at`.
fn named_choice(object_type: ObjectType, meaning: &Meaning, at: usize) -> Result<Choice, NameFault>
    ensures given { Gives choice_view (rules.named_choice object_type (meaning_view meaning.now)) result }
    ensures told { IfErr result (Tells (refused (broken.choice_problem (meaning_view meaning.now)) at)) }
{
    match object_type {
        ObjectType::Elements(kind) => constant_choice(kind, meaning, at),
        ObjectType::Enumeration { number, count } => position_choice(number, count, meaning, at),
        ObjectType::Booleans => truth_choice(meaning, at),
        ObjectType::Integers => Err(choice_problem(meaning).at(at)),
    }
}

/// Whether nothing stands behind a name's identifier.
#[tactic(auto, using(vhdl_names_expressions::proofs::Choosing::arguments_not_bare))]
fn is_bare_name(name: &Name) -> bool
    ensures { result ≡ is_bare (suffix_view name.now.suffix) (option_map attribute_view name.now.attribute) }
{
    match name.suffix {
        Suffix::Plain => match name.attribute {
            None => true,
            Some(_) => false,
        },
        Suffix::Arguments(_) => false,
        Suffix::Range(_) => false,
    }
}

/// A name as a choice, with nothing behind it.
#[tactic(auto, using(vhdl_names_expressions::proofs::Choosing::chosen_named))]
fn chosen_name(sight: &Sight, object_type: ObjectType, name: &Name) -> Result<Choice, NameFault>
    ensures given { Gives choice_view
        (rules.chosen sight.now object_type
        (t.named (ident_view name.now.identifier) (suffix_view name.now.suffix)
        (option_map attribute_view name.now.attribute)))
        result }
    ensures told { IfErr result (Tells
        (broken.chosen sight.now object_type
        (t.named (ident_view name.now.identifier) (suffix_view name.now.suffix)
        (option_map attribute_view name.now.attribute)))) }
{
    let meaning = meaning_of(sight, &name.identifier)?;
    if !is_bare_name(name) {
        return Err(NameProblem::LeftOut.at(name.identifier.at));
    }
    named_choice(object_type, meaning, name.identifier.at)
}

/// A literal as it stands, as a choice of a type.
fn literal_choice(alloc: Global, object_type: ObjectType, e: &Expr) -> Result<Choice, NameFault>
    ensures given { Gives choice_view (rules.literal_choice object_type (view e.now)) result }
    ensures told { IfErr result (Tells (literal object_type (view e.now))) }
{
    match object_type {
        ObjectType::Elements(kind) => {
            let values = literal_values(alloc, kind, e)?;
            Ok(Choice::Values(values))
        }
        _ => Err(no_literal(e)),
    }
}

/// A literal as it stands, or a name with nothing behind it; no other expression is a choice.
fn chosen(sight: &Sight, object_type: ObjectType, e: &Expr) -> Result<Choice, NameFault>
    ensures given { Gives choice_view (rules.chosen sight.now object_type (view e.now)) result }
    ensures told { IfErr result (Tells (broken.chosen sight.now object_type (view e.now))) }
{
    match name_of(e) {
        Some(name) => chosen_name(sight, object_type, name),
        None => literal_choice(sight.alloc, object_type, e),
    }
}

/// The byte at which a choice stands.
pub fn choice_start(choice: &TreeChoice) -> usize
    ensures { result ≡ choice_place (tree_choice_view choice.now) }
{
    match choice {
        TreeChoice::Expr(e) => start(e),
        TreeChoice::Range(range) => start(&range.left),
        TreeChoice::Others { at } => *at,
    }
}

/// Integers as a choice, which stands at byte `at`; they are locally static (9.4.2).
fn as_numbers(typed: TypedChoice, at: usize) -> Result<Choice, NameFault>
    ensures given { Gives choice_view (rules.numbers_of (typed_choice_view typed)) result }
    ensures told { IfErr result (Tells (refused LeftOut at)) }
{
    match typed {
        TypedChoice::Place(true, index) => Ok(Choice::Numbers(index)),
        TypedChoice::Place(false, index) => Err(without(index, NameProblem::LeftOut.at(at))),
        TypedChoice::Others(_) => Err(NameProblem::LeftOut.at(at)),
    }
}

/// Integers as a choice.
fn numbers(sight: &Sight, choice: &TreeChoice) -> Result<Choice, NameFault>
    ensures given { Gives choice_view (rules.choice sight.now Integers (tree_choice_view choice.now)) result }
    ensures told { IfErr result (Tells (broken.choice sight.now Integers (tree_choice_view choice.now))) }
{
    if let TreeChoice::Others { at } = choice {
        return Err(NameProblem::WrongKind.at(*at));
    }
    let typed = typed_choice(sight, choice)?;
    as_numbers(typed, choice_start(choice))
}

/// A choice of another type, which is no range.
fn single_choice(
    sight: &Sight,
    object_type: ObjectType,
    choice: &TreeChoice,
) -> Result<Choice, NameFault>
    ensures given { Gives choice_view
        (steps.single_choice sight.now object_type (tree_choice_view choice.now)) result }
    ensures told { IfErr result (Tells
        (steps.single_choice_breaks sight.now object_type (tree_choice_view choice.now))) }
{
    match choice {
        TreeChoice::Expr(e) => chosen(sight, object_type, e),
        TreeChoice::Range(range) => Err(NameProblem::LeftOut.at(start(&range.left))),
        TreeChoice::Others { at } => Err(NameProblem::WrongKind.at(*at)),
    }
}

/// One choice that is not `others`. It takes memory for what is analysed.
pub fn choice(
    sight: &Sight,
    object_type: ObjectType,
    choice: &TreeChoice,
) -> Result<Choice, NameFault>
    ensures given { Gives choice_view (rules.choice sight.now object_type (tree_choice_view choice.now)) result }
    ensures told { IfErr result (Tells (broken.choice sight.now object_type (tree_choice_view choice.now))) }
{
    match object_type {
        ObjectType::Integers => numbers(sight, choice),
        _ => single_choice(sight, object_type, choice),
    }
}

/// Choices without `others`, in order.
fn each_choice(
    sight: &Sight,
    object_type: ObjectType,
    all: &[TreeChoice],
) -> Result<Vec<Choice>, NameFault>
    ensures given { Gives choices_view
        (each (rules.choice sight.now object_type) (map tree_choice_view all.now)) result }
    ensures told { IfErr result (Tells (any_of (broken.choice sight.now object_type) (map tree_choice_view all.now))) }
{
    let mut done = Vec::new(sight.alloc);
    for one in all {
        let next = choice(sight, object_type, one)?;
        done.push(next)?;
    }
    Ok(done)
}

/// Whether one choice, standing alone, is `others`.
fn is_otherwise(choice: &TreeChoice) -> bool
    ensures { result ≡ rules.is_others (tree_choice_view choice.now ∷ []) }
{
    match choice {
        TreeChoice::Expr(_) => false,
        TreeChoice::Range(_) => false,
        TreeChoice::Others { .. } => true,
    }
}

/// Whether choices are `others` alone.
#[tactic(auto, using(vhdl_names_expressions::proofs::Choosing::just_others, vhdl_names_expressions::proofs::Choosing::not_others))]
fn are_others(all: &[TreeChoice]) -> bool
    ensures { result ≡ rules.is_others (map tree_choice_view all.now) }
{
    match all {
        [only] => is_otherwise(only),
        _ => false,
    }
}

/// The choices of one alternative, none where it is `others`, which stands alone: literals as they
/// stand, literals of an enumeration, constants that a literal declares, and integers (10.9). It
/// takes memory for what is analysed, and fails at the first byte where a rule is broken.
#[tactic(auto, using(vhdl_names_expressions::proofs::Choosing::choices_others, vhdl_names_expressions::proofs::Choosing::choices_each))]
pub fn choices(
    sight: &Sight,
    object_type: ObjectType,
    all: &[TreeChoice],
) -> Result<Vec<Choice>, NameFault>
    ensures given { Gives choices_view (rules.choices sight.now object_type (map tree_choice_view all.now)) result }
    ensures told { IfErr result (Tells (broken.choices sight.now object_type (map tree_choice_view all.now))) }
{
    if are_others(all) {
        return Ok(Vec::new(sight.alloc));
    }
    each_choice(sight, object_type, all)
}
