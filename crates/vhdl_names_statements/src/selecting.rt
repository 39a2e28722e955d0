//! What a case does, and an assignment to a boolean (IEEE 1076-2008, 10.5, 10.9).

ghost use Rattle.std.specs.Prelude.{◌≡◌, ◌∷◌, [], if◌then◌else◌, IfOk, map};
ghost use Rattle.vhdl_names_rules.specs.Choices as rules;
ghost use Rattle.vhdl_names_rules.specs.Operators.{negated};
ghost use Rattle.vhdl_names_rules.specs.Statements.{assigned_to as assigned_to_target};
ghost use Rattle.vhdl_names_trees.specs.views.Tests.{test_view};
ghost use Rattle.vhdl_names_statements.specs.steps.Cases as steps;
ghost use Rattle.vhdl_names_statements.specs.steps.Deciding as deciding;
ghost use Rattle.vhdl_names_units.specs.views.Answers.{assigned_view, choice_view, selector_view};
ghost use Rattle.vhdl_names_units.specs.views.Sequential as views;
ghost use Rattle.vhdl_names_units.specs.views.Targets.{target_view};

use crate::choices::Divided;
use crate::conditional::single;
use std::alloc::{AllocError, Global};
use vhdl_names_rules::ObjectType;
use vhdl_names_trees::{AnyPart, Part, Static, StaticTest, Test, Value, Vector};
use vhdl_names_units::{
    Alternative, Assigned, Branch, Choice, Given, Object, Selector, Statement, Target,
};
use vhdl_values::Nine;

/// An if at byte `at` that does one thing where a truth holds, and else the other.
fn either(
    alloc: Global,
    at: usize,
    truth: Test,
    when_true: Vec<Statement>,
    otherwise: Vec<Statement>,
) -> Result<Statement, AllocError>
    ensures { IfOk result (λ s. views.statement_view s
        ≡ deciding.either at (test_view truth) (views.body_view when_true) (views.body_view otherwise)) }
{
    let mut branches = Vec::new(alloc);
    let branch = Branch::new(truth, when_true);
    branches.push(branch)?;
    Ok(Statement::conditional(at, branches, Some(otherwise)))
}

/// Two statements as one at byte `at`.
fn both(
    alloc: Global,
    at: usize,
    first: Statement,
    second: Statement,
) -> Result<Statement, AllocError>
    ensures { IfOk result (λ s. views.statement_view s
        ≡ deciding.both at (views.statement_view first) (views.statement_view second)) }
{
    let mut statements = single(alloc, first)?;
    statements.push(second)?;
    Ok(Statement::conditional(at, Vec::new(alloc), Some(statements)))
}

/// Always true, in a case at byte `at`.
fn always(at: usize) -> Test
    ensures { test_view result ≡ rules.always at }
{
    Test::Fixed(StaticTest::Known(at, Static::Number(1)))
}

/// A truth where it is asked to be true, and else its negation.
fn turned(alloc: Global, truth: Test, is_true: bool) -> Result<Test, AllocError>
    ensures { IfOk result (λ t. test_view t
        ≡ (if is_true then test_view truth else negated (test_view truth))) }
{
    if is_true {
        Ok(truth)
    } else {
        truth.negated(alloc)
    }
}

/// The alternatives as branches, of which the first is done where this holds, and behind it the
/// next.
fn branches_by(
    alloc: Global,
    at: usize,
    first: Test,
    alternatives: Vec<Alternative>,
) -> Result<Vec<Branch>, AllocError>
    ensures { IfOk result (λ b. views.branches_view b
        ≡ deciding.branches_by at (test_view first) (views.alternatives_view alternatives)) }
{
    let mut branches = Vec::new(alloc);
    let mut condition = first;
    for alternative in alternatives {
        let branch = Branch::new(condition, alternative.into_statements());
        branches.push(branch)?;
        condition = always(at);
    }
    Ok(branches)
}

/// Alternatives as an if at byte `at`, of which the first is done where this holds.
fn decided(
    alloc: Global,
    at: usize,
    first: Test,
    arranged: Divided,
) -> Result<Statement, AllocError>
    ensures { IfOk result (λ s. views.statement_view s
        ≡ deciding.decided at (test_view first) (views.alternatives_view arranged.alternatives)
        (views.body_view arranged.others)) }
{
    let branches = branches_by(alloc, at, first, arranged.alternatives)?;
    Ok(Statement::conditional(at, branches, Some(arranged.others)))
}

/// `null`, alone.
fn nothing_done(alloc: Global) -> Result<Vec<Statement>, AllocError>
    ensures { IfOk result (λ v. views.body_view v ≡ rules.nothing_done) }
{
    single(alloc, Statement::Null)
}

/// An if at byte `at` that reads a truth, and on which nothing hangs.
fn read_only(alloc: Global, at: usize, truth: Test) -> Result<Statement, AllocError>
    ensures { IfOk result (λ s. views.statement_view s ≡ rules.read_only at (test_view truth)) }
{
    let done = nothing_done(alloc)?;
    let otherwise = nothing_done(alloc)?;
    either(alloc, at, truth, done, otherwise)
}

/// The truth that these choices are alone.
fn sole_position(choices: &[Choice]) -> Option<bool>
    ensures { result ≡ deciding.sole_position (map choice_view choices.now) }
{
    match choices {
        [Choice::Position(position)] => Some(*position == 1),
        _ => None,
    }
}

/// The truth for which alone the first alternative is.
fn sole_truth(alternatives: &[Alternative]) -> Option<bool>
    ensures { result ≡ deciding.sole_truth (map views.alternative_view alternatives.now) }
{
    match alternatives.first() {
        Some(first) => sole_position(&first.choices),
        None => None,
    }
}

/// A case on a truth, at byte `at`: an if.
fn deciding(
    alloc: Global,
    at: usize,
    truth: Test,
    arranged: Divided,
) -> Result<Statement, AllocError>
    ensures { IfOk result (λ s. views.statement_view s
        ≡ rules.deciding at (test_view truth) (steps.arranged_view arranged)) }
{
    match sole_truth(&arranged.alternatives) {
        Some(is_true) => {
            let first = turned(alloc, truth, is_true)?;
            decided(alloc, at, first, arranged)
        }
        None => {
            let read = read_only(alloc, at, truth)?;
            let done = decided(alloc, at, always(at), arranged)?;
            both(alloc, at, read, done)
        }
    }
}

/// The statement that selects, at byte `at`.
pub(crate) fn selecting(
    alloc: Global,
    at: usize,
    selector: Selector,
    arranged: Divided,
) -> Result<Statement, AllocError>
    ensures { IfOk result (λ s. views.statement_view s
        ≡ rules.selecting at (selector_view selector) (steps.arranged_view arranged)) }
{
    match selector {
        Selector::Value(value) => {
            let Divided {
                alternatives,
                last,
                others,
            } = arranged;
            Ok(Statement::selection(at, value, alternatives, last, others))
        }
        Selector::Truth(truth) => deciding(alloc, at, truth, arranged),
    }
}

/// A boolean, whose name is at byte `at`, takes a value.
fn boolean_assigned(
    alloc: Global,
    object: Object,
    at: usize,
    value: Nine,
) -> Result<Vec<Statement>, AllocError>
    ensures { IfOk result (λ v. views.body_view v ≡ deciding.boolean_assigned at object value) }
{
    let value = Value::Elements(Vector::EnclosedCharacter(at, value));
    let target = Target {
        at,
        object,
        part: AnyPart::Static(Part::Whole),
        object_type: ObjectType::Booleans,
        declared: None,
    };
    let given = Given::Single(Box::new(alloc, value)?);
    single(alloc, Statement::assigned(target, given))
}

/// A boolean, whose name is at byte `at`, takes a truth that a run decides.
fn truth_assigned(
    alloc: Global,
    object: Object,
    at: usize,
    truth: Test,
) -> Result<Statement, AllocError>
    ensures { IfOk result (λ s. views.statement_view s ≡ deciding.truth_assigned at object (test_view truth)) }
{
    let when_true = boolean_assigned(alloc, object, at, Nine::One)?;
    let otherwise = boolean_assigned(alloc, object, at, Nine::Zero)?;
    either(alloc, at, truth, when_true, otherwise)
}

/// An assignment to a target; of a truth that a run decides it is an if.
pub(crate) fn assigned_to(
    alloc: Global,
    target: Target,
    assigned: Assigned,
) -> Result<Statement, AllocError>
    requires { deciding.IsWhole target (assigned_view assigned) }
    ensures { IfOk result (λ s. views.statement_view s
        ≡ assigned_to_target (target_view target) (assigned_view assigned)) }
{
    match assigned {
        Assigned::Given(given) => Ok(Statement::assigned(target, given)),
        Assigned::Truth(truth) => truth_assigned(alloc, target.object, target.at, truth),
    }
}
