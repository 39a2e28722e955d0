//! The first reason that fits a process.

ghost use Rattle.std.specs.Prelude.{◌≡◌, ◌<◌, length, Some, option_map, true, IfOk};
ghost use Rattle.rtl_model.specs.bodies.Body.{no_else};
ghost use Rattle.rtl_net.specs.Bodies.{statements_of, branches_of, otherwise_of};
ghost use Rattle.rtl_body_facts.specs.Reading.{some};
ghost use Rattle.rtl_copy_ends.specs.Steps.{AreWalks};
ghost use Rattle.rtl_mixed_reasons.specs.Reasons as spec;
ghost use Rattle.rtl_mixed_reasons.specs.Unsteady.{reason_of};

use crate::beside::beside_edge;
use crate::ifs::{EdgeIf, edge_if, first_edge, gated_if, second_edge, stands_behind};
use crate::nets::nets_of;
use crate::reason::{Reason, ReasonKind};
use crate::resets::{computes, first_behind, other_before, reset_of};
use crate::unsteady::unsteady;
use rtl_body_facts::{ProcessKind, body_has_event, contains_rising};
use rtl_copy_ends::{Walks, driven_by, kind_in};
use rtl_net::{Branch, Net, Process, Statement};
use std::alloc::{AllocError, Global};
use std::slice;

/// What is told of a reset that this process drives, or none.
fn made_by(at: u32, reset: usize, driver: Option<usize>) -> Reason
    ensures { result ≡ spec.made_by at reset driver }
{
    match driver {
        Some(process) => Reason {
            kind: ReasonKind::ResetDriven,
            at,
            net: Some(reset),
            driver: Some(process),
            second: None,
        },
        None => Reason::naming(ReasonKind::ResetNoInput, at, reset),
    }
}

/// What is told of a reset that is no in port of the top, as it has to be where the netlist isn't
/// wide.
fn made_inside(net: &Net, at: u32, reset: usize) -> Option<Reason>
    ensures { result ≡ spec.made_inside net.now at reset }
{
    net.is_elaborated();
    if net.is_wide() {
        return None;
    }
    let inputs = net.inputs();
    if contains_rising(inputs, reset) {
        return None;
    }
    Some(made_by(at, reset, driven_by(net, reset)))
}

/// What is told of the reset of an if with an edge.
fn reset_reason(net: &Net, found: EdgeIf, branches: &[Branch]) -> Option<Reason>
    ensures { result ≡ spec.reset_reason net.now found (spec.tests_of branches.now)
        (spec.branch_of (branches_of no_else branches.now) 0) }
{
    let reset = reset_of(found.before, branches)?;
    if let Some(reason) = made_inside(net, found.at, reset) {
        return Some(reason);
    }
    computes(net.is_wide(), found.at, &branches[0].statements)
}

/// What is told of an if with an edge itself, by its branches.
fn branches_reason(
    net: &Net,
    found: EdgeIf,
    branches: &[Branch],
    otherwise: &Option<Vec<Statement>>,
) -> Option<Reason>
    ensures { result ≡ spec.first_that_fits (spec.own_reasons net.now found
        (branches_of (otherwise_of (option_map (λ v. v.items) otherwise.now)) branches.now)) }
{
    let at = found.at;
    if let Some(reason) = reset_reason(net, found, branches) {
        return Some(reason);
    }
    if let Some(reason) = other_before(at, found.before, branches) {
        return Some(reason);
    }
    if stands_behind(found.before, branches, otherwise) {
        return Some(Reason::plain(ReasonKind::BehindEdge, at));
    }
    None
}

/// The same of a statement.
fn own_reason(net: &Net, found: EdgeIf, statement: &Statement) -> Option<Reason>
    ensures { result ≡ spec.own_reason net.now found statement.now }
{
    match statement {
        Statement::If {
            branches,
            otherwise,
            ..
        } => branches_reason(net, found, branches, otherwise),
        _ => None,
    }
}

/// The statements of the branch of an if before which so many stand.
fn branch_of(statement: &Statement, before: usize) -> &[Statement]
    ensures { statements_of result.now ≡ spec.edge_branch before (spec.if_branches statement.now) }
{
    match statement {
        Statement::If { branches, .. } => {
            if before >= branches.len() {
                return &[];
            }
            &branches[before].statements
        }
        _ => &[],
    }
}

/// What is told of the first if with an edge.
fn edge_reason(
    alloc: Global,
    net: &Net,
    process: &Process,
    found: EdgeIf,
) -> Result<Option<Reason>, AllocError>
    requires { found.number < length process.now.body.items }
    ensures { IfOk result (λ reason. reason ≡ spec.edge_reason net.now process.now (Some found)) }
{
    let wide = net.is_wide();
    let statement = &process.body[found.number];
    let behind = &process.body[found.number + 1..];
    let second = second_edge(alloc, wide, process, statement, found, behind)?;
    if second.is_some() {
        return Ok(second);
    }
    let edge = nets_of(alloc, process, branch_of(statement, found.before))?;
    let reset = first_behind(alloc, wide, found.before, process, &edge, behind)?;
    if reset.is_some() {
        return Ok(reset);
    }
    if let Some(reason) = own_reason(net, found, statement) {
        return Ok(Some(reason));
    }
    beside_edge(alloc, wide, process, found, statement)
}

/// Whether an edge or `'event` stands in a branch, or in the else.
fn has_inner(branches: &[Branch], otherwise: &Option<Vec<Statement>>) -> bool
    ensures { result ≡ some (spec.inner_events
        (branches_of (otherwise_of (option_map (λ v. v.items) otherwise.now)) branches.now)) }
{
    for branch in branches {
        if body_has_event(&branch.statements) {
            return true;
        }
    }
    match otherwise {
        Some(last) => body_has_event(last),
        None => false,
    }
}

/// What is told of a statement with an edge or `'event` in it.
fn event_in(statement: &Statement) -> Option<Reason>
    ensures { result ≡ spec.elsewhere statement.now }
{
    if !body_has_event(slice::from_ref(statement)) {
        return None;
    }
    match statement {
        Statement::If {
            at,
            branches,
            otherwise,
        } => {
            if has_inner(branches, otherwise) {
                return Some(Reason::plain(ReasonKind::EdgeInside, *at));
            }
            if edge_if(0, statement).is_some() {
                return Some(Reason::plain(ReasonKind::ResetComputes, *at));
            }
            Some(Reason::plain(ReasonKind::NoEdge, *at))
        }
        Statement::Case { at, .. } => Some(Reason::plain(ReasonKind::EdgeInside, *at)),
        _ => Some(Reason::plain(ReasonKind::EdgeInside, 0)),
    }
}

/// What is told of a statement, whatever stands beside it.
#[derive(Clone, Copy)]
enum Alone {
    /// An edge that isn't all of its condition.
    Gated,
    /// An edge or `'event` in it.
    Elsewhere,
}

/// What is told of a statement.
fn told_alone(wide: bool, sought: Alone, statement: &Statement) -> Option<Reason>
    ensures { result ≡ spec.told_alone wide sought statement.now }
{
    match sought {
        Alone::Gated => gated_if(wide, statement),
        Alone::Elsewhere => event_in(statement),
    }
}

/// What is told of the first such statement.
fn first_alone(wide: bool, sought: Alone, statements: &[Statement]) -> Option<Reason>
    ensures { result ≡ spec.first_in (spec.told_alone wide sought) statements.now }
{
    for statement in statements {
        if let Some(reason) = told_alone(wide, sought, statement) {
            return Some(reason);
        }
    }
    None
}

/// The first reason that fits a body.
fn reason_of_body(alloc: Global, net: &Net, process: &Process) -> Result<Option<Reason>, AllocError>
    ensures { IfOk result (λ reason. reason ≡ spec.reason_of_body net.now process.now) }
{
    if let Some(reason) = first_alone(net.is_wide(), Alone::Gated, &process.body) {
        return Ok(Some(reason));
    }
    if let Some(found) = first_edge(&process.body) {
        let reason = edge_reason(alloc, net, process, found)?;
        if reason.is_some() {
            return Ok(reason);
        }
    }
    Ok(first_alone(net.is_wide(), Alone::Elsewhere, &process.body))
}

/// Whether a process is neither clocked nor combinational.
fn is_mixed(net: &Net, process: &Process) -> bool
    ensures { result ≡ spec.is_mixed net.now process.now }
{
    match kind_in(net, process) {
        ProcessKind::Combinational => false,
        ProcessKind::Clocked(_) => false,
        ProcessKind::Mixed => true,
    }
}

/// Why a process is neither clocked nor combinational, or, of another in a wide netlist, what its
/// reset is made of that may pulse within a moment: the first reason that fits. `None` where it
/// isn't there, is combinational or has no reset, and where what drives the reset has a fault of
/// its own. It is to be asked of a process that has a fault: it finds reasons, not whether a reset
/// is calm. It takes time in proportion to its drivers and to its body times how deep it is nested,
/// but for the logarithms of sorted lists, and memory for the nets that it assigns. Where the
/// copies end that its reset is made by, and what the net there looks at, is in the walks, which
/// serve all processes.
pub fn reason_of(
    alloc: Global,
    net: &Net,
    walks: &Walks,
    process: usize,
) -> Result<Option<Reason>, AllocError>
    requires { net.now.wide ≡ true → AreWalks net.now walks.now }
    ensures { IfOk result (λ reason. reason ≡ reason_of net.now process) }
{
    let Some(process) = net.processes().get(process) else {
        return Ok(None);
    };
    if !is_mixed(net, process) {
        return Ok(unsteady(net, walks, process));
    }
    reason_of_body(alloc, net, process)
}
