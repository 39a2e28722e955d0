//! Resets, and what stands in their branches.

ghost use Rattle.std.specs.Prelude.{◌≡◌, not, take, option_map, IfOk};
ghost use Rattle.std.specs.List.{list_any};
ghost use Rattle.std.specs.List.Sorted.{IsStrictlyIncreasing};
ghost use Rattle.rtl_net.specs.Bodies.{test_view, value_view, statement_view, statements_of, branches_of, otherwise_of};
ghost use Rattle.rtl_body_facts.specs.Reading.{is_in};
ghost use Rattle.rtl_mixed_reasons.specs.Reasons as spec;

use crate::edges::edge_to;
use crate::ifs::edge_if;
use crate::nets::{are_among, first_common, first_net, nets_in, nets_of};
use crate::reads::first_read;
use crate::reason::{Reason, ReasonKind};
use rtl_net::{Branch, Process, Statement, Test, Value};
use std::alloc::{AllocError, Global};

/// The net of a reset's test.
fn reset_net(test: &Test) -> Option<usize>
    ensures { result ≡ spec.reset_net (test_view test.now) }
{
    match test {
        Test::Level { net, value, .. } => {
            let _edge = edge_to(*value)?;
            Some(*net as usize)
        }
        Test::Combined { first, rest } => {
            if rest.is_empty() {
                return reset_net(first);
            }
            None
        }
        _ => None,
    }
}

/// The reset of an if whose edge stands behind so many conditions.
pub(crate) fn reset_of(before: usize, branches: &[Branch]) -> Option<usize>
    ensures { result ≡ spec.reset_of before (spec.tests_of branches.now) }
{
    if before != 1 || branches.is_empty() {
        return None;
    }
    reset_net(&branches[0].test)
}

/// Whether one of the first so many conditions is no reset's test.
fn has_other(before: usize, branches: &[Branch]) -> bool
    ensures { result ≡ list_any (λ t. not (spec.is_reset t)) (take before (spec.tests_of branches.now)) }
{
    for i in 0..branches.len().min(before) {
        if reset_net(&branches[i].test).is_none() {
            return true;
        }
    }
    false
}

/// What is told of the conditions before an edge.
pub(crate) fn other_before(at: u32, before: usize, branches: &[Branch]) -> Option<Reason>
    ensures { result ≡ spec.other_before at before (spec.tests_of branches.now) }
{
    if has_other(before, branches) {
        return Some(Reason::plain(ReasonKind::NoResetTest, at));
    }
    if before > 1 {
        return Some(Reason::plain(ReasonKind::SeveralResets, at));
    }
    None
}

/// What is told of a value in a reset's branch that reads a net.
fn reads_in(at: u32, value: &Value) -> Option<Reason>
    ensures { result ≡ spec.reads_in at (value_view value.now) }
{
    let net = first_read(value)?;
    Some(Reason::naming(ReasonKind::ResetReads, at, net))
}

/// What a statement of a reset's branch is but an assignment of a constant.
fn computes_in(wide: bool, at: u32, statement: &Statement) -> Option<Reason>
    ensures { result ≡ spec.computes_in wide at (statement_view statement.now) }
{
    match statement {
        Statement::Null => None,
        Statement::Assign { value, .. } => reads_in(at, value),
        Statement::Set { value, .. } => {
            if wide {
                return reads_in(at, value);
            }
            Some(Reason::plain(ReasonKind::ResetComputes, at))
        }
        Statement::AssignAt { .. } => Some(Reason::plain(ReasonKind::ResetComputes, at)),
        Statement::SetAt { .. } => Some(Reason::plain(ReasonKind::ResetComputes, at)),
        Statement::If { .. } => Some(Reason::plain(ReasonKind::ResetComputes, at)),
        Statement::Case { .. } => Some(Reason::plain(ReasonKind::ResetComputes, at)),
    }
}

/// What stands in a reset's branch but assignments of constants: to variables too, where the
/// netlist is wide.
pub(crate) fn computes(wide: bool, at: u32, statements: &[Statement]) -> Option<Reason>
    ensures { result ≡ spec.computes wide at (statements_of statements.now) }
{
    for statement in statements {
        if let Some(reason) = computes_in(wide, at, statement) {
            return Some(reason);
        }
    }
    None
}

/// Whether a process assigns a net in these statements, and none but these, which rise.
fn assigns_alike(
    alloc: Global,
    process: &Process,
    edge: &[usize],
    statements: &[Statement],
) -> Result<bool, AllocError>
    requires { IsStrictlyIncreasing edge.now }
    ensures { IfOk result (λ so. so
        ≡ spec.assigns_alike process.now (λ n. is_in n edge.now) (statements_of statements.now)) }
{
    let nets = nets_of(alloc, process, statements)?;
    if nets.is_empty() {
        return Ok(false);
    }
    Ok(are_among(&nets, edge))
}

/// The reset of an if that only resets what the edge's branch assigns, which are these nets,
/// rising.
fn sole_reset(
    alloc: Global,
    process: &Process,
    edge: &[usize],
    branches: &[Branch],
    otherwise: &Option<Vec<Statement>>,
) -> Result<Option<usize>, AllocError>
    requires { IsStrictlyIncreasing edge.now }
    ensures { IfOk result (λ net. net ≡ spec.sole_reset process.now (λ n. is_in n edge.now)
        (branches_of (otherwise_of (option_map (λ v. v.items) otherwise.now)) branches.now)) }
{
    if branches.len() != 1 || otherwise.is_some() {
        return Ok(None);
    }
    let branch = &branches[0];
    if computes(false, 0, &branch.statements).is_some() {
        return Ok(None);
    }
    if !assigns_alike(alloc, process, edge, &branch.statements)? {
        return Ok(None);
    }
    Ok(reset_net(&branch.test))
}

/// What is told of an if that only resets so.
fn reset_if(
    alloc: Global,
    process: &Process,
    edge: &[usize],
    statement: &Statement,
) -> Result<Option<Reason>, AllocError>
    requires { IsStrictlyIncreasing edge.now }
    ensures { IfOk result (λ reason. reason ≡ spec.reset_behind process.now (λ n. is_in n edge.now) statement.now) }
{
    match statement {
        Statement::If {
            at,
            branches,
            otherwise,
        } => {
            let net = sole_reset(alloc, process, edge, branches, otherwise)?;
            match net {
                Some(net) => Ok(Some(Reason::naming(ReasonKind::ResetBehind, *at, net))),
                None => Ok(None),
            }
        }
        _ => Ok(None),
    }
}

/// What an if that may reset behind an edge alone has but a reset's test and constants, where the
/// netlist is wide.
fn no_reset(at: u32, branches: &[Branch], otherwise: &Option<Vec<Statement>>) -> Option<Reason>
    ensures { result ≡ spec.no_reset at
        (branches_of (otherwise_of (option_map (λ v. v.items) otherwise.now)) branches.now) }
{
    if branches.len() != 1 || otherwise.is_some() {
        return Some(Reason::plain(ReasonKind::BehindEdge, at));
    }
    let branch = &branches[0];
    if reset_net(&branch.test).is_none() {
        return Some(Reason::plain(ReasonKind::NoTestBehind, at));
    }
    computes(true, at, &branch.statements)
}

/// The same of a statement.
fn unlike_reset(statement: &Statement) -> Option<Reason>
    ensures { result ≡ spec.unlike_reset statement.now }
{
    match statement {
        Statement::If {
            at,
            branches,
            otherwise,
        } => no_reset(*at, branches, otherwise),
        _ => None,
    }
}

/// Whether a statement may be the reset behind an edge alone, where the netlist is wide.
pub(crate) fn may_reset(statement: &Statement) -> bool
    ensures { result ≡ spec.may_reset statement.now }
{
    match statement {
        Statement::If { .. } => unlike_reset(statement).is_none(),
        _ => false,
    }
}

/// Whether a statement assigns nets, none of which is one of these, which rise.
fn is_apart(
    alloc: Global,
    process: &Process,
    edge: &[usize],
    statement: &Statement,
) -> Result<bool, AllocError>
    requires { IsStrictlyIncreasing edge.now }
    ensures { IfOk result (λ so. so ≡ spec.is_apart process.now (λ n. is_in n edge.now) statement.now) }
{
    let nets = nets_in(alloc, process, statement)?;
    if first_net(process, &nets).is_none() {
        return Ok(false);
    }
    Ok(first_common(process, &nets, edge).is_none())
}

/// What is told of a statement behind the edge as a reset. These are the nets that the edge's
/// branch assigns, rising.
fn told_behind(
    alloc: Global,
    wide: bool,
    process: &Process,
    edge: &[usize],
    statement: &Statement,
) -> Result<Option<Reason>, AllocError>
    requires { IsStrictlyIncreasing edge.now }
    ensures { IfOk result (λ reason. reason
        ≡ spec.told_behind wide process.now (λ n. is_in n edge.now) statement.now) }
{
    if !wide {
        return reset_if(alloc, process, edge, statement);
    }
    if edge_if(0, statement).is_some() {
        return Ok(None);
    }
    if is_apart(alloc, process, edge, statement)? {
        return Ok(None);
    }
    Ok(unlike_reset(statement))
}

/// What is told of the first such statement.
fn reset_behind(
    alloc: Global,
    wide: bool,
    process: &Process,
    edge: &[usize],
    statements: &[Statement],
) -> Result<Option<Reason>, AllocError>
    requires { IsStrictlyIncreasing edge.now }
    ensures { IfOk result (λ reason. reason
        ≡ spec.first_in (spec.told_behind wide process.now (λ n. is_in n edge.now)) statements.now) }
{
    for statement in statements {
        let reason = told_behind(alloc, wide, process, edge, statement)?;
        if reason.is_some() {
            return Ok(reason);
        }
    }
    Ok(None)
}

/// The same behind an edge before which so many conditions stand: in a wide netlist a reset stands
/// behind an edge alone.
pub(crate) fn first_behind(
    alloc: Global,
    wide: bool,
    before: usize,
    process: &Process,
    edge: &[usize],
    statements: &[Statement],
) -> Result<Option<Reason>, AllocError>
    requires { IsStrictlyIncreasing edge.now }
    ensures { IfOk result (λ reason. reason
        ≡ spec.first_behind wide before process.now (λ n. is_in n edge.now) statements.now) }
{
    if wide && before > 0 {
        return Ok(None);
    }
    reset_behind(alloc, wide, process, edge, statements)
}
