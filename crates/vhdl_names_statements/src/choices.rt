//! What the choices of a case cover (IEEE 1076-2008, 10.9).

ghost use Rattle.std.specs.Prelude.{◌≡◌, ◌||◌, ◌∷◌, [], List, map, Option, option_map, IfErr, IfOk};
ghost use Rattle.vhdl_values.specs.Scalar.{code_of};
ghost use Rattle.vhdl_names_rules.specs.Choices as rules;
ghost use Rattle.vhdl_names_rules.specs.problems.Broken.{Broken, Tells, nothing, refused, unless};
ghost use Rattle.vhdl_names_rules.specs.problems.Covered as broken;
ghost use Rattle.vhdl_names_rules.specs.problems.Places.{choice_place};
ghost use Rattle.vhdl_names_rules.specs.declared.fault.NameProblem.TheVariants.{ChoiceTwice, NoOthers, WrongKind};
ghost use Rattle.vhdl_names_rules.specs.Rules.{rule};
ghost use Rattle.vhdl_names_rules.specs.Visibility.{is_among};
ghost use Rattle.vhdl_names_rules.specs.Gives.{Gives};
ghost use Rattle.vhdl_tree.specs.View as tree;
ghost use Rattle.vhdl_names_rules.specs.units.Statements.{Statements};
ghost use Rattle.vhdl_names_units.specs.views.Answers.{choice_view, choices_view};
ghost use Rattle.vhdl_names_statements.specs.steps.Cases as steps;
ghost use Rattle.vhdl_names_statements.specs.steps.Keys.{key_of, one_choice};
ghost use Rattle.vhdl_names_statements.specs.steps.Told as told;
ghost use Rattle.vhdl_names_units.specs.Once.{one_name, names_view};
ghost use Rattle.vhdl_names_units.specs.views.Sequential as views;
ghost use Rattle.vhdl_names_units.specs.views.Sequential.{Chosen};

use indexmap::IndexSet;
use std::alloc::{AllocError, Global};
use std::mem;
use vhdl_names_rules::{NameFault, NameProblem, ObjectType};
use vhdl_names_sight::Sight;
use vhdl_names_units::{Alternative, Choice, Statement, earlier_in};
use vhdl_names_values::{choice, choice_start};
use vhdl_tree as syntax;
use vhdl_values::Nine;

/// What tells choices apart: the places of their values among the nine, or 9 and a position.
type Keys = IndexSet<Vec<usize>>;

/// The places of values among the nine.
fn codes(alloc: Global, values: &[Nine]) -> Result<Vec<usize>, AllocError>
    ensures { IfOk result (λ k. k.items ≡ map code_of values.now) }
{
    values
        .iter()
        .map(|value| value.code() as usize)
        .collect(alloc)
}

/// What tells a choice apart; integers are told apart where they are computed.
fn key(alloc: Global, choice: &Choice) -> Result<Option<Vec<usize>>, AllocError>
    ensures { IfOk result (λ k. option_map (λ k. k.items) k ≡ key_of (choice_view choice.now)) }
{
    match choice {
        Choice::Values(values) => {
            let codes = codes(alloc, values)?;
            Ok(Some(codes))
        }
        Choice::Position(position) => {
            let place = [9, *position as usize].to_vec(alloc)?;
            Ok(Some(place))
        }
        Choice::Numbers(_) => Ok(None),
    }
}

/// One more key, of a choice at byte `at`, which none before it is.
fn add_key(keys: &mut Keys, key: Vec<usize>, at: usize) -> Result<(), NameFault>
    ensures given { Gives (λ _. names_view keys.new) (one_name (names_view keys.old) key.items) result }
    ensures told { IfErr result (Tells (refused ChoiceTwice at)) }
{
    if keys.insert(key)? {
        Ok(())
    } else {
        Err(NameProblem::ChoiceTwice.at(at))
    }
}

/// One more choice, at byte `at`, which none before it is. It takes the memory of its key.
fn add_choice(alloc: Global, keys: &mut Keys, choice: &Choice, at: usize) -> Result<(), NameFault>
    ensures given { Gives (λ _. names_view keys.new) (one_choice (names_view keys.old) (choice_view choice.now))
        result }
    ensures told { IfErr result (Tells (refused ChoiceTwice at)) }
{
    let key = key(alloc, choice)?;
    match key {
        Some(key) => add_key(keys, key, at),
        None => Ok(()),
    }
}

/// A choice by itself, which none before it is.
fn add_written(
    sight: &Sight,
    selected: ObjectType,
    keys: &mut Keys,
    written: &syntax::Choice,
) -> Result<(), NameFault>
    ensures added { IfOk result (λ _. names_view keys.new ≡
        told.with_choice sight.now selected (names_view keys.old) (tree.choice_view written.now)) }
    ensures kept { IfOk result (λ _. told.once sight.now selected (names_view keys.old) (tree.choice_view written.now) ≡
        nothing) }
    ensures told { IfErr result (Tells
        (told.once sight.now selected (names_view keys.old) (tree.choice_view written.now))) }
{
    let analysed = choice(sight, selected, written)?;
    add_choice(sight.alloc, keys, &analysed, choice_start(written))
}

/// Choices one after another, up to the first that is refused or stands twice.
fn add_each(
    sight: &Sight,
    selected: ObjectType,
    keys: &mut Keys,
    list: &[syntax::Choice],
) -> Result<(), NameFault>
    ensures added { IfOk result (λ _. names_view keys.new ≡
        told.with_list sight.now selected (names_view keys.old) (map tree.choice_view list.now)) }
    ensures kept { IfOk result (λ _.
        told.each_once sight.now selected (names_view keys.old) (map tree.choice_view list.now) ≡ nothing) }
    ensures told { IfErr result (Tells
        (told.each_once sight.now selected (names_view keys.old) (map tree.choice_view list.now))) }
{
    for written in list {
        add_written(sight, selected, keys, written)?;
    }
    Ok(())
}

/// Where `others` stands, if it stands alone.
fn others_alone(list: &[syntax::Choice]) -> Option<usize>
    ensures { result ≡ told.others_alone (map tree.choice_view list.now) }
{
    match list {
        [syntax::Choice::Others { at }] => Some(*at),
        _ => None,
    }
}

/// `others` alone at byte `at` stands in the last alternative.
fn others_last(at: usize, is_last: bool) -> Result<(), NameFault>
    ensures kept { IfOk result (λ _. unless WrongKind at is_last ≡ nothing) }
    ensures told { IfErr result (Tells (unless WrongKind at is_last)) }
{
    if is_last {
        Ok(())
    } else {
        Err(NameProblem::WrongKind.at(at))
    }
}

/// The choices of one alternative.
fn add_list(
    sight: &Sight,
    selected: ObjectType,
    keys: &mut Keys,
    is_last: bool,
    list: &[syntax::Choice],
) -> Result<(), NameFault>
    ensures added { IfOk result (λ _. names_view keys.new ≡
        told.with_list sight.now selected (names_view keys.old) (map tree.choice_view list.now)) }
    ensures kept { IfOk result (λ _.
        told.alternative_in_place sight.now selected (names_view keys.old) is_last (map tree.choice_view list.now) ≡
        nothing) }
    ensures told { IfErr result (Tells
        (told.alternative_in_place sight.now selected (names_view keys.old) is_last (map tree.choice_view list.now))) }
{
    match others_alone(list) {
        None => add_each(sight, selected, keys, list),
        Some(at) => others_last(at, is_last),
    }
}

/// The keys of all choices, in order of the text, up to the first that is refused, out of place or
/// stands twice.
fn told_apart(
    sight: &Sight,
    selected: ObjectType,
    lists: &[&[syntax::Choice]],
) -> Result<Keys, NameFault>
    ensures added { IfOk result (λ keys. names_view keys ≡
        told.with_lists sight.now selected [] (steps.all_lists lists.now)) }
    ensures kept { IfOk result (λ _. told.in_place sight.now selected [] (steps.all_lists lists.now) ≡ nothing) }
    ensures told { IfErr result (Tells (told.in_place sight.now selected [] (steps.all_lists lists.now))) }
{
    let mut keys = IndexSet::new(sight.alloc);
    for (index, list) in lists.iter().enumerate() {
        add_list(sight, selected, &mut keys, index + 1 == lists.len(), list)?;
    }
    Ok(keys)
}

/// Whether an alternative is `others` alone.
fn is_others(choices: &[syntax::Choice]) -> bool
    ensures { result ≡ rules.is_others (map tree.choice_view choices.now) }
{
    match choices {
        [syntax::Choice::Others { .. }] => true,
        _ => false,
    }
}

/// Whether the last alternative is `others`.
fn ends_in_others(lists: &[&[syntax::Choice]]) -> bool
    ensures { result ≡ rules.is_last_others (steps.all_lists lists.now) }
{
    match lists.split_last() {
        None => false,
        Some((last, _)) => is_others(last),
    }
}

/// Whether each literal of an enumeration, as boolean is one, has its choice; of integers that is
/// known where they are computed.
fn names_all(selected: ObjectType, keys: &Keys) -> bool
    ensures { result ≡ steps.has_all selected (names_view keys.now) }
{
    match selected {
        ObjectType::Elements(_) => false,
        ObjectType::Enumeration { count, .. } => has_positions(keys, count),
        ObjectType::Booleans => has_positions(keys, 2),
        ObjectType::Integers => true,
    }
}

/// Whether the first so many literals have their choices.
fn has_positions(keys: &Keys, count: u16) -> bool
    ensures { result ≡ steps.has_positions (names_view keys.now) count }
{
    for position in 0..count {
        if !has_position(keys, position as usize) {
            return false;
        }
    }
    true
}

/// Whether a literal has its choice.
fn has_position(keys: &Keys, position: usize) -> bool
    ensures { result ≡ is_among (9 ∷ position ∷ []) (names_view keys.now) }
{
    keys.contains([9, position].as_slice())
}

/// `others` or each literal has its choice; the case starts at byte `at`.
fn complete(
    selected: ObjectType,
    at: usize,
    lists: &[&[syntax::Choice]],
    keys: &Keys,
) -> Result<(), NameFault>
    ensures given { Gives (λ _. tt)
        (rule NoOthers (rules.is_last_others (steps.all_lists lists.now)
        || steps.has_all selected (names_view keys.now))) result }
    ensures told { IfErr result (Tells
        (unless NoOthers at (rules.is_last_others (steps.all_lists lists.now)
        || steps.has_all selected (names_view keys.now)))) }
{
    if ends_in_others(lists) || names_all(selected, keys) {
        Ok(())
    } else {
        Err(NameProblem::NoOthers.at(at))
    }
}

/// Alternatives whose choices are as they are asked to be; the case starts at byte `at`. Of what is
/// wrong with the alternatives and with all their choices the earlier is told, and at last what is
/// missing.
pub(crate) fn covered(
    sight: &Sight,
    selected: ObjectType,
    at: usize,
    lists: &[&[syntax::Choice]],
    all: Result<Vec<Alternative>, NameFault>,
) -> Result<Vec<Alternative>, NameFault>
    ensures given { (found : Option (List Chosen)) → Gives views.alternatives_view found all
        → IfOk all (told.HasChoices sight.now selected (steps.all_lists lists.now))
        → Gives views.alternatives_view (steps.covering selected (steps.all_lists lists.now) found) result }
    ensures told { (b : Broken) → IfErr all (Tells b) → IfOk all (λ _. b ≡ nothing)
        → IfOk all (told.HasChoices sight.now selected (steps.all_lists lists.now))
        → IfErr result (Tells (broken.covered sight.now selected at (steps.all_lists lists.now) b)) }
{
    match told_apart(sight, selected, lists) {
        Err(fault) => Err(earlier_in(fault, all)),
        Ok(keys) => {
            let all = all?;
            complete(selected, at, lists, &keys)?;
            Ok(all)
        }
    }
}

/// Alternatives, of which the last one is done otherwise.
#[derive(Drop)]
pub(crate) struct Divided {
    pub(crate) alternatives: Vec<Alternative>,
    /// The choices of the last one, where they are integers.
    pub(crate) last: Vec<Choice>,
    pub(crate) others: Vec<Statement>,
}

/// The choices of an alternative, and what it does.
fn parted(alloc: Global, alternative: Alternative) -> (Vec<Choice>, Vec<Statement>)
    ensures choices { result.0 ≡ alternative.choices }
    ensures statements { result.1 ≡ alternative.statements }
{
    let mut rest = alternative;
    let choices = mem::replace(&mut rest.choices, Vec::new(alloc));
    (choices, rest.into_statements())
}

/// Whether a choice is of integers.
fn is_numbers(choice: &Choice) -> bool
    ensures { result ≡ steps.is_numbers (choice_view choice.now) }
{
    matches!(choice, Choice::Numbers(_))
}

/// Whether choices are of integers, as the first one is.
fn are_numbers(choices: &[Choice]) -> bool
    ensures { result ≡ steps.are_numbers (map choice_view choices.now) }
{
    match choices.first() {
        Some(first) => is_numbers(first),
        None => false,
    }
}

/// The choices of the last alternative, where they are integers.
fn last_numbers(alloc: Global, choices: Vec<Choice>) -> Vec<Choice>
    ensures { (s : Statements) →
        views.last_alternative (choices_view result) s ≡ rules.last_by (choices_view choices) s }
{
    if are_numbers(&choices) {
        choices
    } else {
        Vec::new(alloc)
    }
}

/// Alternatives with the last one apart. The case starts at byte `at`.
pub(crate) fn arranged(
    alloc: Global,
    at: usize,
    alternatives: Vec<Alternative>,
) -> Result<Divided, NameFault>
    ensures given { Gives steps.arranged_view (steps.arranged (views.alternatives_view alternatives)) result }
    ensures told { IfErr result (Tells (broken.any_alternative at (views.alternatives_view alternatives))) }
{
    let mut rest = alternatives;
    match rest.pop() {
        None => Err(NameProblem::LeftOut.at(at)),
        Some(last) => {
            let (choices, others) = parted(alloc, last);
            Ok(Divided {
                alternatives: rest,
                last: last_numbers(alloc, choices),
                others,
            })
        }
    }
}

/// The choices of each alternative.
pub(crate) fn choice_lists(
    alloc: Global,
    alternatives: &[syntax::Alternative],
) -> Result<Vec<&[syntax::Choice]>, AllocError>
    ensures { IfOk result (λ v. steps.all_lists v.items ≡
        steps.choice_lists (map tree.alternative_view alternatives.now)) }
{
    let mut lists: Vec<&[syntax::Choice]> = Vec::new(alloc);
    for alternative in alternatives {
        lists.push(&alternative.choices)?;
    }
    Ok(lists)
}
