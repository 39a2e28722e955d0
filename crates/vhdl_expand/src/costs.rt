//! What bodies cost, counted over their text before their loops are unrolled (IEEE 1076-2008,
//! 10.10).
//!
//! Only ranges of loops and choices of integers are computed, and each turn and each statement is
//! taken from the budget as it is come to: so the walk ends where none is left, however long the
//! body would be.

ghost use Rattle.std.specs.Prelude.{List, [], ◌∷◌, flat_map, map, Ok};
ghost use Rattle.vhdl_names_trees.specs.views.Integers.{range_view};
ghost use Rattle.vhdl_names_trees.specs.views.Vectors.{value_view};
ghost use Rattle.vhdl_expand_rules.specs.Site.{in_loop};
ghost use Rattle.vhdl_expand_bodies.specs.Sites.{IsSite, site_view};
ghost use Rattle.vhdl_expand_operands.specs.Results.{Expands, Charges};
ghost use Rattle.vhdl_names_rules.specs.units.Statements as units;
ghost use Rattle.vhdl_names_rules.specs.units.Bytes.{statement_bytes, statements_bytes, branches_bytes, alternatives_bytes};
ghost use Rattle.vhdl_names_units.specs.declared.sequential.Case.{out-Case};
ghost use Rattle.vhdl_names_units.specs.declared.sequential.If.{out-If};
ghost use Rattle.vhdl_names_units.specs.views.Answers.{choices_view};
ghost use Rattle.vhdl_names_units.specs.views.Sequential as analysed;
ghost use Rattle.vhdl_expand_tree.specs.Views.{budget_view};
ghost use Rattle.vhdl_expand_tree.specs.Costs.{a_statement};
ghost use Rattle.vhdl_expand.specs.Turning.{TellsTurns};
ghost use Rattle.vhdl_expand.specs.Unrolled as definition;
ghost use Rattle.vhdl_expand.specs.Unrolled.{paid, together, spread_costs, guarded_costs, chosen_costs, guarded_bytes, chosen_bytes};

use std::alloc::Global;
use vhdl_expand_bodies::Site;
use vhdl_expand_rules::ElabFault;
use vhdl_expand_statements::spread_turns;
use vhdl_expand_tree::Budget;
use vhdl_names_trees::Value;
use vhdl_names_units::{Alternative, Branch, Case, If, Loop, Statement};

/// Takes what a body costs from the budget: a turn for each turn of its loops and for each number
/// that a case spreads, and a statement for each statement of the unrolled body. A fault is
/// StaticError, or TooMany where a loop has more than 4,096 turns or the budget has less left; `at`
/// is the byte of the process. It takes the memory of the loops' parameters, and for a while that
/// of an integer and of its choices.
pub fn charge_body(
    alloc: Global,
    site: &Site,
    statements: &[Statement],
    at: usize,
    budget: &mut Budget,
) -> Result<(), ElabFault>
    requires { IsSite site.now }
    ensures { Charges (at ∷ statements_bytes (analysed.statements_of (map analysed.statement_view statements.now)))
        (λ _. budget_view budget.new)
        (paid (budget_view budget.old) (definition.statements_costs (site_view site.now)
        (analysed.statements_of (map analysed.statement_view statements.now)))) result }
{
    of_statements(alloc, site, statements, at, budget)
}

/// Takes what statements cost; where they say no byte themselves, a fault names byte `at`.
#[cycle(costs)]
fn of_statements(
    alloc: Global,
    site: &Site,
    list: &[Statement],
    at: usize,
    budget: &mut Budget,
) -> Result<(), ElabFault>
    requires { IsSite site.now }
    ensures { Charges (at ∷ statements_bytes (analysed.statements_of (map analysed.statement_view list.now)))
        (λ _. budget_view budget.new)
        (paid (budget_view budget.old) (definition.statements_costs (site_view site.now)
        (analysed.statements_of (map analysed.statement_view list.now)))) result }
{
    for statement in list {
        of_statement(alloc, site, statement, at, budget)?;
    }
    Ok(())
}

/// Takes what a statement costs.
#[cycle(costs)]
#[tactic(auto, unfolding(crate::specs::Unrolled::statement_costs))]
fn of_statement(
    alloc: Global,
    site: &Site,
    statement: &Statement,
    at: usize,
    budget: &mut Budget,
) -> Result<(), ElabFault>
    requires { IsSite site.now }
    ensures { Charges (at ∷ statement_bytes (analysed.statement_view statement.now)) (λ _. budget_view budget.new)
        (paid (budget_view budget.old) (definition.statement_costs (site_view site.now)
        (analysed.statement_view statement.now))) result }
{
    match statement {
        Statement::Null => budget.charge_statement(at),
        Statement::Assign { target, .. } => budget.charge_statement(target.at),
        Statement::Set { at, .. } => budget.charge_statement(*at),
        Statement::AssignIn { at, .. } => budget.charge_statement(*at),
        Statement::SetIn { at, .. } => budget.charge_statement(*at),
        Statement::If(conditional) => of_conditional(alloc, site, conditional, budget),
        Statement::Case(selection) => of_selection(alloc, site, selection, budget),
        Statement::Loop(repeated) => of_loop(alloc, site, repeated, budget),
    }
}

/// Takes what an if statement costs.
#[cycle(costs)]
fn of_conditional(
    alloc: Global,
    site: &Site,
    conditional: &If,
    budget: &mut Budget,
) -> Result<(), ElabFault>
    requires { IsSite site.now }
    ensures { Charges ((out-If conditional.now).at
        ∷ branches_bytes (analysed.branches_of (analysed.branches_view (out-If conditional.now).branches)
        (analysed.last_of (analysed.option_statements_view (out-If conditional.now).otherwise))))
        (λ _. budget_view budget.new)
        (paid (budget_view budget.old) (definition.statement_costs (site_view site.now)
        (units.if_of (out-If conditional.now).at
        (analysed.branches_of (analysed.branches_view (out-If conditional.now).branches)
        (analysed.last_of (analysed.option_statements_view (out-If conditional.now).otherwise)))))) result }
{
    let at = conditional.at;
    budget.charge_statement(at)?;
    of_branches(alloc, site, &conditional.branches, at, budget)?;
    match &conditional.otherwise {
        None => Ok(()),
        Some(list) => of_statements(alloc, site, list, at, budget),
    }
}

/// Takes what the statements of branches cost.
#[cycle(costs)]
fn of_branches(
    alloc: Global,
    site: &Site,
    list: &[Branch],
    at: usize,
    budget: &mut Budget,
) -> Result<(), ElabFault>
    requires { IsSite site.now }
    ensures { Charges (at ∷ flat_map guarded_bytes (map analysed.branch_view list.now)) (λ _. budget_view budget.new)
        (paid (budget_view budget.old) (together (guarded_costs (site_view site.now))
        (map analysed.branch_view list.now))) result }
{
    for branch in list {
        of_statements(alloc, site, &branch.statements, at, budget)?;
    }
    Ok(())
}

/// Takes the numbers that a case on this value spreads, each as a turn; a fault is TooMany, at this
/// byte, where fewer are left.
fn charge_spread(
    alloc: Global,
    site: &Site,
    selector: &Value,
    alternatives: &[Alternative],
    at: usize,
    budget: &mut Budget,
) -> Result<(), ElabFault>
    requires { IsSite site.now }
    ensures { (last : List units.Choice) (others : units.Statements) → Charges (at ∷ [])
        (λ _. budget_view budget.new)
        (paid (budget_view budget.old) (Ok (spread_costs (site_view site.now) at (value_view selector.now)
        (analysed.alternatives_of (map analysed.alternative_view alternatives.now)
        (analysed.last_alternative last others))))) result }
{
    let Value::Computed(integer) = selector else {
        return Ok(());
    };
    let count = spread_turns(site, alloc, integer, alternatives, at)?;
    // Read, so that it is known to fit a word.
    let _left = budget.turns;
    budget.charge_turns(count, at)
}

/// Takes what a case statement costs.
#[cycle(costs)]
fn of_selection(
    alloc: Global,
    site: &Site,
    selection: &Case,
    budget: &mut Budget,
) -> Result<(), ElabFault>
    requires { IsSite site.now }
    ensures { Charges ((out-Case selection.now).at
        ∷ alternatives_bytes (analysed.alternatives_of
        (analysed.alternatives_view (out-Case selection.now).alternatives)
        (analysed.last_alternative (choices_view (out-Case selection.now).last)
        (analysed.statements_of (analysed.statements_view (out-Case selection.now).others)))))
        (λ _. budget_view budget.new)
        (paid (budget_view budget.old) (definition.statement_costs (site_view site.now)
        (units.case_of (out-Case selection.now).at (value_view (out-Case selection.now).selector)
        (analysed.alternatives_of (analysed.alternatives_view (out-Case selection.now).alternatives)
        (analysed.last_alternative (choices_view (out-Case selection.now).last)
        (analysed.statements_of (analysed.statements_view (out-Case selection.now).others))))))) result }
{
    let at = selection.at;
    budget.charge_statement(at)?;
    charge_spread(
        alloc,
        site,
        &selection.selector,
        &selection.alternatives,
        at,
        budget,
    )?;
    of_alternatives(alloc, site, &selection.alternatives, at, budget)?;
    of_statements(alloc, site, &selection.others, at, budget)
}

/// Takes what the statements of alternatives cost.
#[cycle(costs)]
fn of_alternatives(
    alloc: Global,
    site: &Site,
    list: &[Alternative],
    at: usize,
    budget: &mut Budget,
) -> Result<(), ElabFault>
    requires { IsSite site.now }
    ensures { Charges (at ∷ flat_map chosen_bytes (map analysed.alternative_view list.now))
        (λ _. budget_view budget.new)
        (paid (budget_view budget.old) (together (chosen_costs (site_view site.now))
        (map analysed.alternative_view list.now))) result }
{
    for alternative in list {
        of_statements(alloc, site, &alternative.statements, at, budget)?;
    }
    Ok(())
}

/// Takes what the turns of a loop cost. What is refused of its range by itself is told, whatever
/// the budget has left.
#[cycle(costs)]
fn of_loop(
    alloc: Global,
    site: &Site,
    repeated: &Loop,
    budget: &mut Budget,
) -> Result<(), ElabFault>
    requires { IsSite site.now }
    ensures given { Charges (repeated.now.at
        ∷ statements_bytes (analysed.statements_of (analysed.statements_view repeated.now.statements)))
        (λ _. budget_view budget.new)
        (paid (budget_view budget.old) (definition.statement_costs (site_view site.now)
        (units.for_of repeated.now.at (range_view repeated.now.range)
        (analysed.statements_of (analysed.statements_view repeated.now.statements))))) result }
    ensures turned { TellsTurns (site_view site.now).integers repeated.now.at (range_view repeated.now.range) result }
{
    let turns = site.integers.turns(&repeated.range, repeated.at)?;
    budget.charge_turns(turns.count as usize, repeated.at)?;
    for turn in 0..turns.count {
        let value = turns.parameter(turn);
        of_turn(alloc, site, repeated, value, budget)?;
    }
    Ok(())
}

/// Takes what the statements of a loop cost whose parameter has this value.
#[cycle(costs)]
fn of_turn(
    alloc: Global,
    site: &Site,
    repeated: &Loop,
    parameter: i32,
    budget: &mut Budget,
) -> Result<(), ElabFault>
    requires { IsSite site.now }
    ensures { Charges (repeated.now.at
        ∷ statements_bytes (analysed.statements_of (analysed.statements_view repeated.now.statements)))
        (λ _. budget_view budget.new)
        (paid (budget_view budget.old) (definition.statements_costs (in_loop (site_view site.now) parameter)
        (analysed.statements_of (analysed.statements_view repeated.now.statements)))) result }
{
    let mut loops = site.integers.loops.to_vec(alloc)?;
    loops.push(parameter)?;
    let inner = (&*site).within(&loops);
    let taken = of_statements(alloc, &inner, &repeated.statements, repeated.at, budget);
    inner.end();
    taken
}
