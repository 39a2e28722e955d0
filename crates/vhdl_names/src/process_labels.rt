//! The labels inside a process, however deep they stand (IEEE 1076-2008, 10.1).

ghost use Rattle.std.specs.Prelude.{◌++◌, [], IfErr, map};
ghost use Rattle.vhdl_names.specs.steps.Labels as steps;
ghost use Rattle.vhdl_names_units.specs.Lists.{in_turn};
ghost use Rattle.vhdl_names_units.specs.Once.{names_view, one_name};
ghost use Rattle.vhdl_names_rules.specs.problems.Broken.{Tells};
ghost use Rattle.vhdl_names_rules.specs.problems.Labels as broken;
ghost use Rattle.vhdl_names_rules.specs.problems.Twice.{twice};
ghost use Rattle.vhdl_names_rules.specs.Gives.{Gives};
ghost use Rattle.vhdl_names_rules.specs.declared.fault.NameProblem.TheVariants.{Twice};
ghost use Rattle.vhdl_names_rules.specs.Rules.{rule};
ghost use Rattle.vhdl_names_rules.specs.Statements as rules;
ghost use Rattle.vhdl_names_rules.specs.Visibility.{are_distinct};
ghost use Rattle.vhdl_tree.specs.Tree.{statements_of, conditionals_of, otherwise_of, alternatives_of};
ghost use Rattle.vhdl_tree.specs.View as tree;
ghost use Rattle.vhdl_tree.specs.declared.sequential.Case.{out-Case};
ghost use Rattle.vhdl_tree.specs.declared.sequential.For.{out-For};
ghost use Rattle.vhdl_tree.specs.declared.sequential.If.{out-If};

use indexmap::IndexSet;
use std::alloc::Global;
use vhdl_names_instances::{Names, add_name};
use vhdl_names_rules::NameFault;
use vhdl_tree as syntax;
use vhdl_tree::Identifier;

/// A label, if there is one, which none before it is.
fn label(alloc: Global, taken: &mut Names, label: &Option<Identifier>) -> Result<(), NameFault>
    ensures given { Gives (λ _. names_view taken.new)
        (in_turn one_name (names_view taken.old) (rules.label_names (tree.option_ident_view label.now))) result }
    ensures told { IfErr result (Tells
        (twice (names_view taken.old) (broken.label_if_any (tree.option_ident_view label.now)))) }
{
    match label {
        None => Ok(()),
        Some(label) => add_name(alloc, taken, &label.text, label.at),
    }
}

/// The labels of statements.
#[cycle(labels)]
fn of_statements(
    alloc: Global,
    taken: &mut Names,
    list: &[syntax::Sequential],
) -> Result<(), NameFault>
    ensures given { Gives (λ _. names_view taken.new)
        (steps.with_statements (names_view taken.old) (map tree.sequential_view list.now)) result }
    ensures told { IfErr result (Tells
        (twice (names_view taken.old) (broken.statement_labels (statements_of (map tree.sequential_view list.now))))) }
{
    for item in list {
        of_statement(alloc, taken, item)?;
    }
    Ok(())
}

/// The labels of a statement: its own, and those inside it.
#[cycle(labels)]
#[tactic(auto, using(crate::proofs::Labelling::label_first))]
fn of_statement(
    alloc: Global,
    taken: &mut Names,
    item: &syntax::Sequential,
) -> Result<(), NameFault>
    ensures given { Gives (λ _. names_view taken.new)
        (steps.with_statement (names_view taken.old) (tree.sequential_view item.now)) result }
    ensures told { IfErr result (Tells
        (twice (names_view taken.old)
        (broken.label_if_any (tree.sequential_view item.now).label
        ++ broken.inner_labels (tree.sequential_view item.now).statement))) }
{
    label(alloc, taken, &item.label)?;
    inside(alloc, taken, &item.statement)
}

/// The labels inside a statement.
#[cycle(labels)]
fn inside(alloc: Global, taken: &mut Names, statement: &syntax::Statement) -> Result<(), NameFault>
    ensures given { Gives (λ _. names_view taken.new)
        (in_turn one_name (names_view taken.old) (rules.inner_labels (tree.statement_view statement.now))) result }
    ensures told { IfErr result (Tells
        (twice (names_view taken.old) (broken.inner_labels (tree.statement_view statement.now)))) }
{
    match statement {
        syntax::Statement::Null { .. } => Ok(()),
        syntax::Statement::SignalAssignment { .. } => Ok(()),
        syntax::Statement::VariableAssignment { .. } => Ok(()),
        syntax::Statement::ConditionalAssignment { .. } => Ok(()),
        syntax::Statement::Assert(_) => Ok(()),
        syntax::Statement::Report(_) => Ok(()),
        syntax::Statement::If(conditional) => of_if(alloc, taken, conditional),
        syntax::Statement::Case(case) => of_case(alloc, taken, case),
        syntax::Statement::For(repeated) => of_loop(alloc, taken, repeated),
    }
}

/// The labels inside an if statement.
#[cycle(labels)]
fn of_if(alloc: Global, taken: &mut Names, conditional: &syntax::If) -> Result<(), NameFault>
    ensures given { Gives (λ _. names_view taken.new) (steps.with_if (names_view taken.old)
        (tree.conditionals_view (out-If conditional.now).branches)
        (tree.option_sequentials_view (out-If conditional.now).otherwise)) result }
    ensures told { IfErr result (Tells
        (twice (names_view taken.old)
        (broken.conditional_labels (conditionals_of (tree.conditionals_view (out-If conditional.now).branches))
        ++ broken.otherwise_labels (otherwise_of (tree.option_sequentials_view (out-If conditional.now).otherwise))))) }
{
    of_branches(alloc, taken, &conditional.branches)?;
    match &conditional.otherwise {
        None => Ok(()),
        Some(list) => of_statements(alloc, taken, list),
    }
}

/// The labels inside branches.
#[cycle(labels)]
fn of_branches(
    alloc: Global,
    taken: &mut Names,
    list: &[syntax::Conditional],
) -> Result<(), NameFault>
    ensures given { Gives (λ _. names_view taken.new)
        (in_turn steps.with_branch (names_view taken.old) (map tree.conditional_view list.now)) result }
    ensures told { IfErr result (Tells
        (twice (names_view taken.old)
        (broken.conditional_labels (conditionals_of (map tree.conditional_view list.now))))) }
{
    for item in list {
        of_statements(alloc, taken, &item.statements)?;
    }
    Ok(())
}

/// The labels inside a case statement.
#[cycle(labels)]
fn of_case(alloc: Global, taken: &mut Names, case: &syntax::Case) -> Result<(), NameFault>
    ensures given { Gives (λ _. names_view taken.new) (in_turn steps.with_alternative (names_view taken.old)
        (tree.alternatives_view (out-Case case.now).alternatives)) result }
    ensures told { IfErr result (Tells
        (twice (names_view taken.old)
        (broken.alternative_labels (alternatives_of (tree.alternatives_view (out-Case case.now).alternatives))))) }
{
    for item in &case.alternatives {
        of_statements(alloc, taken, &item.statements)?;
    }
    Ok(())
}

/// The labels inside a loop.
#[cycle(labels)]
fn of_loop(alloc: Global, taken: &mut Names, repeated: &syntax::For) -> Result<(), NameFault>
    ensures given { Gives (λ _. names_view taken.new)
        (steps.with_statements (names_view taken.old) (tree.sequentials_view (out-For repeated.now).statements))
        result }
    ensures told { IfErr result (Tells
        (twice (names_view taken.old)
        (broken.statement_labels (statements_of (tree.sequentials_view (out-For repeated.now).statements))))) }
{
    of_statements(alloc, taken, &repeated.statements)
}

/// No label stands twice among statements, however deep; else it is Twice at the second. It takes
/// the memory of the labels.
#[tactic(auto, using(crate::proofs::Labelling::labels_once))]
pub fn statement_labels_are_distinct(
    alloc: Global,
    list: &[syntax::Sequential],
) -> Result<(), NameFault>
    ensures given { Gives (λ _. tt)
        (rule Twice (are_distinct (rules.statement_labels (statements_of (map tree.sequential_view list.now)))))
        result }
    ensures told { IfErr result (Tells
        (twice [] (broken.statement_labels (statements_of (map tree.sequential_view list.now))))) }
{
    let mut taken: Names = IndexSet::new(alloc);
    of_statements(alloc, &mut taken, list)?;
    Ok(())
}
