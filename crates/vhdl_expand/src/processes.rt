//! Processes of the tree (IEEE 1076-2008, 11.3, 14.7.2).

ghost use Rattle.std.specs.Prelude.{◌≡◌, ◌∷◌, map, option_map, IfOk};
ghost use Rattle.vhdl_names_rules.specs.units.Bytes.{statements_bytes, process_bytes};
ghost use Rattle.vhdl_expand_rules.specs.Expansion as definition;
ghost use Rattle.vhdl_expand_operands.specs.Results.{Expands, Charges};
ghost use Rattle.vhdl_expand_bodies.specs.Sites.{IsSite, site_view};
ghost use Rattle.vhdl_names_units.specs.views.Concurrent as analysed;
ghost use Rattle.vhdl_names_units.specs.views.Sequential as statements;
ghost use Rattle.vhdl_expand_tree.specs.Costs.{charged, process_costs};
ghost use Rattle.vhdl_expand_tree.specs.Views.{budget_view, process_view, sensitivity_view, variable_view};
ghost use Rattle.vhdl_expand.specs.Unrolled.{statements_costs};
ghost use Rattle.vhdl_expand.specs.Doings.{doing_view};
ghost use Rattle.vhdl_expand.specs.Processes.{doing_steps, process_of, process_steps, turns_paid};
ghost use Rattle.vhdl_expand_declarations.specs.Variables.{IsOuter};
ghost use Rattle.vhdl_expand_declarations.specs.Views.{declared_view, within_generates};

use crate::costs::charge_body;
use crate::nets::charge_variables;
use rtl_net::Statement;
use std::alloc::{AllocError, Global};
use vhdl_expand_bodies::Site;
use vhdl_expand_declarations::{InstanceObjects, process_declarations};
use vhdl_expand_processes::{drives, listed, read_elements};
use vhdl_expand_rules::ElabFault;
use vhdl_expand_statements::body;
use vhdl_expand_tree::{Budget, Process, Sensitivity, Variable};
use vhdl_names_units as analysed;
use vhdl_tree::Identifier;

/// The text of a label. It takes the memory of the copy.
fn text_of(alloc: Global, label: &Option<Identifier>) -> Result<Option<Vec<u8>>, AllocError>
    ensures { IfOk result (λ text. option_map (λ v. v.items) text ≡ option_map analysed.text_of label.now) }
{
    match label {
        None => Ok(None),
        Some(label) => Ok(Some(label.text.to_vec(alloc)?)),
    }
}

/// What resumes a process; a fault is StaticError or Index. It takes the memory of the list.
#[tactic(auto, unfolding(vhdl_expand_rules::specs::Expansion::sensitivity))]
fn sensitivity(
    alloc: Global,
    site: &Site,
    process: &analysed::Process,
) -> Result<Sensitivity, ElabFault>
    requires { IsSite site.now }
    ensures { Expands sensitivity_view
        (definition.sensitivity (site_view site.now) (analysed.sensitivity_view process.now.sensitivity)
        (statements.body_view process.now.statements)) result }
{
    match &process.sensitivity {
        analysed::Sensitivity::Listed(names) => {
            let elements = listed(alloc, site, names)?;
            Ok(Sensitivity::Listed(elements))
        }
        analysed::Sensitivity::All => {
            let elements = read_elements(alloc, site, &process.statements)?;
            Ok(Sensitivity::Every(elements))
        }
        analysed::Sensitivity::AsRead => Ok(Sensitivity::AsRead),
    }
}

/// How many turns the loops of a body have together, when what it costs is taken from the budget; a
/// fault is StaticError or TooMany. It takes the memory of the loops' parameters, and for a while
/// that of an integer and of its choices.
fn charge_turns(
    alloc: Global,
    site: &Site,
    list: &[analysed::Statement],
    at: usize,
    budget: &mut Budget,
) -> Result<u32, ElabFault>
    requires { IsSite site.now }
    ensures { Charges (at ∷ statements_bytes (statements.statements_of (map statements.statement_view list.now)))
        (λ turns. (turns, budget_view budget.new))
        (turns_paid (budget_view budget.old)
        (statements_costs (site_view site.now)
        (statements.statements_of (map statements.statement_view list.now)))) result }
{
    let before = budget.turns;
    charge_body(alloc, site, list, at, budget)?;
    Ok(before.saturating_sub(budget.turns))
}

/// What a body does in a process: what it drives, what resumes it, its turns, and the body itself.
#[derive(Drop)]
struct BodyDoing {
    drives: Vec<usize>,
    sensitivity: Sensitivity,
    turns: u32,
    body: Vec<Statement>,
}

/// What the body of a process does where this is known; a fault is GenericRange, StaticError,
/// Length, Index, TooWide or TooMany.
fn doing(
    alloc: Global,
    site: &Site,
    process: &analysed::Process,
    budget: &mut Budget,
) -> Result<BodyDoing, ElabFault>
    requires { IsSite site.now }
    ensures { Charges (process_bytes (analysed.process_view process.now))
        (λ made. (doing_view made, budget_view budget.new))
        (doing_steps (budget_view budget.old) (site_view site.now) (analysed.process_view process.now)) result }
{
    let drives = drives(alloc, site, &process.statements)?;
    let sensitivity = sensitivity(alloc, site, process)?;
    let turns = charge_turns(alloc, site, &process.statements, process.at, budget)?;
    let body = body(site, alloc, &process.statements)?;
    Ok(BodyDoing {
        drives,
        sensitivity,
        turns,
        body,
    })
}

/// A process with these variables. It takes the memory of copies of its labels.
fn with_labels(
    alloc: Global,
    prefix: &[u8],
    process: &analysed::Process,
    variables: Vec<Variable>,
    does: BodyDoing,
) -> Result<Process, AllocError>
    ensures { IfOk result (λ made. process_view made ≡ process_of prefix.now (analysed.process_view process.now)
        (map variable_view variables.items) (doing_view does)) }
{
    Ok(Process {
        prefix: prefix.to_vec(alloc)?,
        label: text_of(alloc, &process.label)?,
        drives: does.drives,
        sensitivity: does.sensitivity,
        variables,
        body: does.body,
        turns: does.turns,
        at: process.at,
    })
}

/// A process by its parts, in the order in which they are made.
#[tactic(auto, unfolding(crate::specs::Processes::process_steps))]
fn parts_of(
    alloc: Global,
    site: &Site,
    prefix: &[u8],
    process: &analysed::Process,
    budget: &mut Budget,
) -> Result<Process, ElabFault>
    requires site { IsSite site.now }
    requires outer { IsOuter site.now }
    ensures { Charges (process_bytes (analysed.process_view process.now))
        (λ made. (process_view made, budget_view budget.new))
        (process_steps (budget_view budget.old) (record { site = site_view site.now; prefix = prefix.now })
        (analysed.process_view process.now)) result }
{
    let at = process.at;
    budget.charge_process(at)?;
    let declared = process_declarations(alloc, site, &process.declarations)?;
    // Read, so that it is known to fit a word.
    let _left = budget.variable_elements;
    charge_variables(&declared.variables, at, budget)?;
    let inner = declared.within(site);
    let does = doing(alloc, &inner, process, budget);
    inner.end();
    Ok(with_labels(alloc, prefix, process, declared.variables, does?)?)
}

/// A process of the tree, in an instance that declares these, whose costs are taken from the
/// budget; `generates` has the parameters of the generates round it, and `prefix` is of them. A
/// fault is GenericRange, StaticError, Length, Index, TooWide or TooMany, also where the budget has
/// less left than it costs, and then what is left of the budget is not told. Its body is counted
/// before it is unrolled. It takes the memory of the process.
pub fn process(
    alloc: Global,
    declared: &InstanceObjects,
    generates: &[i32],
    prefix: &[u8],
    process: &analysed::Process,
    budget: &mut Budget,
) -> Result<Process, ElabFault>
    ensures { Charges (process_bytes (analysed.process_view process.now))
        (λ made. (process_view made, budget_view budget.new))
        (charged (budget_view budget.old) process_costs
        (definition.process (record {
          site = within_generates (declared_view declared.now).site generates.now;
          prefix = prefix.now;
        })
        (analysed.process_view process.now))) result }
{
    let site = declared.site(generates);
    let made = parts_of(alloc, &site, prefix, process, budget);
    site.end();
    made
}
