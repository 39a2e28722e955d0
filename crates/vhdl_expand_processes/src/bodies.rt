//! The names that a body reads or assigns, in order of the text (IEEE 1076-2008, 10.5, 11.3,
//! 14.7.2).

ghost use Rattle.std.specs.Prelude.{◌≡◌, ◌++◌, flat_map, map, IfOk};
ghost use Rattle.vhdl_expand_rules.specs.Prefixes as definition;
ghost use Rattle.vhdl_names_rules.specs.units.Statements as s;
ghost use Rattle.vhdl_names_trees.specs.views.Tests.{test_view};
ghost use Rattle.vhdl_names_trees.specs.views.Vectors.{chosen_view, place_view, signal_view, value_view};
ghost use Rattle.vhdl_names_units.specs.declared.sequential.Case.{out-Case};
ghost use Rattle.vhdl_names_units.specs.declared.sequential.If.{out-If};
ghost use Rattle.vhdl_names_units.specs.views.Answers.{given_view};
ghost use Rattle.vhdl_names_units.specs.views.Sequential.{statement_view, statements_of};
ghost use Rattle.vhdl_expand_processes.specs.Named.{named_by};
ghost use Rattle.vhdl_expand_processes.specs.Adding.{Adds};
ghost use Rattle.vhdl_expand_processes.specs.Bodies.{statement_names, branch_names, last_names, alternative_names};

use crate::name::{Gathered, Name};
use crate::names::{of_chosen, of_given, of_test, of_value};
use std::alloc::{AllocError, Global};
use vhdl_expand_rules::Sought;
use vhdl_names_trees::{Chosen, Signal, SignalPart, Test, Value};
use vhdl_names_units::{Alternative, Branch, Case, Given, If, Statement};

/// The names that statements read, before loops are unrolled. It takes the memory of the list.
pub fn names_in<'a>(alloc: Global, list: &'a [Statement]) -> Result<Vec<Name<'a>>, AllocError>
    ensures { IfOk result (λ v. named_by v ≡ definition.names (statements_of (map statement_view list.now))) }
{
    sought_in(alloc, list, Sought::Read)
}

/// The names that statements assign, before loops are unrolled. It takes the memory of the list.
pub fn targets_of<'a>(alloc: Global, list: &'a [Statement]) -> Result<Vec<Name<'a>>, AllocError>
    ensures { IfOk result (λ v. named_by v ≡ definition.targets (statements_of (map statement_view list.now))) }
{
    sought_in(alloc, list, Sought::Assigned)
}

fn sought_in<'a>(
    alloc: Global,
    list: &'a [Statement],
    sought: Sought,
) -> Result<Vec<Name<'a>>, AllocError>
    ensures { IfOk result
        (λ v. named_by v ≡ definition.body_names sought (statements_of (map statement_view list.now))) }
{
    let mut found = Gathered::new(alloc);
    of_statements(list, sought, &mut found);
    found.whole()
}

/// Puts the names in an assignment to a signal behind others.
fn of_assignment<'a>(
    target: &'a SignalPart,
    value: &'a Given,
    sought: Sought,
    found: &mut Gathered<'a>,
)
    ensures { Adds found.old found.new
        (definition.statement_names sought (s.assign (place_view target.now) (given_view value.now))) }
{
    match sought {
        Sought::Read => of_given(value, found),
        Sought::Assigned => found.add_place(target),
    }
}

/// Puts the names in what a variable is set to behind others.
fn of_set<'a>(value: &'a Given, sought: Sought, found: &mut Gathered<'a>)
    ensures { Adds found.old found.new (definition.read_ones sought (definition.given_names (given_view value.now))) }
{
    match sought {
        Sought::Read => of_given(value, found),
        Sought::Assigned => {}
    }
}

/// Puts the names in an assignment to what a run chooses of a signal behind others.
fn of_chosen_assignment<'a>(
    signal: Signal,
    part: &'a Chosen,
    value: &'a Given,
    sought: Sought,
    found: &mut Gathered<'a>,
)
    ensures { Adds found.old found.new (definition.chosen_assignment_names sought (signal_view signal)
        (chosen_view part.now) (given_view value.now)) }
{
    match sought {
        Sought::Read => {
            of_chosen(part, found);
            of_given(value, found);
        }
        Sought::Assigned => found.add_whole(signal),
    }
}

/// Puts the names in what is given to the part that a run chooses of a variable behind others.
fn of_chosen_set<'a>(part: &'a Chosen, value: &'a Given, sought: Sought, found: &mut Gathered<'a>)
    ensures { Adds found.old found.new (definition.read_ones sought
        (definition.chosen_names (chosen_view part.now) ++ definition.given_names (given_view value.now))) }
{
    match sought {
        Sought::Read => {
            of_chosen(part, found);
            of_given(value, found);
        }
        Sought::Assigned => {}
    }
}

/// Puts the names in the condition of a branch behind others.
fn of_condition<'a>(test: &'a Test, sought: Sought, found: &mut Gathered<'a>)
    ensures { Adds found.old found.new (definition.read_ones sought (definition.test_names (test_view test.now))) }
{
    match sought {
        Sought::Read => of_test(test, found),
        Sought::Assigned => {}
    }
}

/// Puts the names in the selector of a case statement behind others.
fn of_selector<'a>(value: &'a Value, sought: Sought, found: &mut Gathered<'a>)
    ensures { Adds found.old found.new (definition.read_ones sought (definition.value_names (value_view value.now))) }
{
    match sought {
        Sought::Read => of_value(value, found),
        Sought::Assigned => {}
    }
}

/// Puts the names in statements behind others.
#[cycle(bodies)]
fn of_statements<'a>(list: &'a [Statement], sought: Sought, found: &mut Gathered<'a>)
    ensures { Adds found.old found.new (flat_map (statement_names sought) list.now) }
{
    for item in list {
        of_statement(item, sought, found);
    }
}

/// Puts the names in a statement behind others.
#[cycle(bodies)]
fn of_statement<'a>(statement: &'a Statement, sought: Sought, found: &mut Gathered<'a>)
    ensures { Adds found.old found.new (statement_names sought statement.now) }
{
    match statement {
        Statement::Null => {}
        Statement::Assign { target, value } => of_assignment(target, value, sought, found),
        Statement::Set { value, .. } => of_set(value, sought, found),
        Statement::AssignIn {
            signal,
            part,
            value,
            ..
        } => of_chosen_assignment(*signal, part, value, sought, found),
        Statement::SetIn { part, value, .. } => of_chosen_set(part, value, sought, found),
        Statement::If(conditional) => of_if(conditional, sought, found),
        Statement::Case(selection) => of_case(selection, sought, found),
        Statement::Loop(repeated) => of_statements(&repeated.statements, sought, found),
    }
}

/// Puts the names in an if statement behind others.
#[cycle(bodies)]
fn of_if<'a>(conditional: &'a If, sought: Sought, found: &mut Gathered<'a>)
    ensures { Adds found.old found.new
        (flat_map (branch_names sought) (out-If conditional.now).branches.items
        ++ last_names sought (out-If conditional.now).otherwise) }
{
    of_branches(&conditional.branches, sought, found);
    match &conditional.otherwise {
        None => {}
        Some(list) => of_statements(list, sought, found),
    }
}

/// Puts the names in branches behind others.
#[cycle(bodies)]
fn of_branches<'a>(list: &'a [Branch], sought: Sought, found: &mut Gathered<'a>)
    ensures { Adds found.old found.new (flat_map (branch_names sought) list.now) }
{
    for item in list {
        of_condition(&item.condition, sought, found);
        of_statements(&item.statements, sought, found);
    }
}

/// Puts the names in a case statement behind others.
#[cycle(bodies)]
fn of_case<'a>(selection: &'a Case, sought: Sought, found: &mut Gathered<'a>)
    ensures { Adds found.old found.new
        (definition.read_ones sought (definition.value_names (value_view (out-Case selection.now).selector))
        ++ (flat_map (alternative_names sought) (out-Case selection.now).alternatives.items
        ++ flat_map (statement_names sought) (out-Case selection.now).others.items)) }
{
    of_selector(&selection.selector, sought, found);
    of_alternatives(&selection.alternatives, sought, found);
    of_statements(&selection.others, sought, found);
}

/// Puts the names in alternatives behind others.
#[cycle(bodies)]
fn of_alternatives<'a>(list: &'a [Alternative], sought: Sought, found: &mut Gathered<'a>)
    ensures { Adds found.old found.new (flat_map (alternative_names sought) list.now) }
{
    for item in list {
        of_statements(&item.statements, sought, found);
    }
}
