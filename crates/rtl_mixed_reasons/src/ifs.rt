//! Ifs of a body, and the edges among their conditions.

ghost use Rattle.std.specs.Prelude.{◌≡◌, ◌&&◌, ◌||◌, nat_lt, drop, length, is_some, IfOk};
ghost use Rattle.rtl_mixed_reasons.specs.Reasons as spec;

use crate::edges::{EdgeTest, edge_of, is_gated};
use crate::nets::{first_common, nets_in};
use crate::reason::{Reason, ReasonKind};
use rtl_net::{Branch, Process, Statement};
use std::alloc::{AllocError, Global};
use vhdl_values::Edge;

/// An if of a body with an edge among its conditions.
#[derive(Clone, Copy)]
pub(crate) struct EdgeIf {
    /// Its number among the statements.
    pub(crate) number: usize,
    /// The byte at which it starts.
    pub(crate) at: u32,
    /// How many conditions stand before the edge.
    pub(crate) before: usize,
    pub(crate) edge: EdgeTest,
}

/// The first edge among the conditions of an if.
fn edge_in(number: usize, at: u32, branches: &[Branch]) -> Option<EdgeIf>
    ensures { result ≡ spec.edge_in number at 0 (spec.tests_of branches.now) }
{
    for before in 0..branches.len() {
        if let Some(edge) = edge_of(&branches[before].test) {
            return Some(EdgeIf {
                number,
                at,
                before,
                edge,
            });
        }
    }
    None
}

/// The statement of this number, if it is an if with an edge.
pub(crate) fn edge_if(number: usize, statement: &Statement) -> Option<EdgeIf>
    ensures { result ≡ spec.edge_if number statement.now }
{
    match statement {
        Statement::If { at, branches, .. } => edge_in(number, *at, branches),
        _ => None,
    }
}

/// The first if with an edge.
pub(crate) fn first_edge(statements: &[Statement]) -> Option<EdgeIf>
    ensures { result ≡ spec.first_edge 0 statements.now }
{
    for number in 0..statements.len() {
        if let Some(found) = edge_if(number, &statements[number]) {
            return Some(found);
        }
    }
    None
}

/// Whether both are the same edge of one net.
fn is_same_edge(left: EdgeTest, right: EdgeTest) -> bool
    ensures { result ≡ spec.same_edge left right }
{
    left.clock == right.clock && is_same_kind(left.edge, right.edge)
}

/// Whether both are the same edge.
fn is_same_kind(left: Edge, right: Edge) -> bool
    ensures { result ≡ spec.same_kind left right }
{
    match (left, right) {
        (Edge::Rising, Edge::Rising) => true,
        (Edge::Falling, Edge::Falling) => true,
        (Edge::To1, Edge::To1) => true,
        (Edge::To0, Edge::To0) => true,
        _ => false,
    }
}

/// The first net that a process assigns in both of two statements.
fn common_net(
    alloc: Global,
    process: &Process,
    first: &Statement,
    second: &Statement,
) -> Result<Option<usize>, AllocError>
    ensures { IfOk result (λ net. net ≡ spec.first_net process.now
        (λ n. spec.assigns_in process.now first.now n && spec.assigns_in process.now second.now n)) }
{
    let these = nets_in(alloc, process, first)?;
    let those = nets_in(alloc, process, second)?;
    Ok(first_common(process, &these, &those))
}

/// What is told of another edge, and of a net that both ifs assign.
fn other_edge(at: u32, net: Option<usize>) -> Reason
    ensures { result ≡ spec.other_edge at net }
{
    match net {
        Some(net) => Reason::naming(ReasonKind::OtherEdgeToo, at, net),
        None => Reason::plain(ReasonKind::OtherEdge, at),
    }
}

/// Whether an if has one branch and no else.
fn is_sole(statement: &Statement) -> bool
    ensures { result ≡ spec.is_sole statement.now }
{
    match statement {
        Statement::If {
            branches,
            otherwise,
            ..
        } => branches.len() == 1 && otherwise.is_none(),
        _ => false,
    }
}

/// What is told of a second if with the same edge; the two start at these bytes.
fn same_again(
    wide: bool,
    first: &Statement,
    second: &Statement,
    first_at: u32,
    at: u32,
) -> Option<Reason>
    ensures { result ≡ spec.same_again wide first.now second.now first_at at }
{
    if first_at == at {
        return Some(Reason::plain(ReasonKind::EdgeInLoop, at));
    }
    if wide && is_sole(first) && is_sole(second) {
        return None;
    }
    Some(Reason::plain(ReasonKind::SecondEdge, at))
}

/// What is told of a statement behind the if with the edge, if it is one too.
fn second_if(
    alloc: Global,
    wide: bool,
    process: &Process,
    first: &Statement,
    found: EdgeIf,
    statement: &Statement,
) -> Result<Option<Reason>, AllocError>
    ensures { IfOk result (λ reason. reason ≡ spec.second_if wide process.now first.now found statement.now) }
{
    let Some(second) = edge_if(0, statement) else {
        return Ok(None);
    };
    if is_same_edge(found.edge, second.edge) {
        return Ok(same_again(wide, first, statement, found.at, second.at));
    }
    let net = common_net(alloc, process, first, statement)?;
    Ok(Some(other_edge(second.at, net)))
}

/// What is told of the first such statement.
pub(crate) fn second_edge(
    alloc: Global,
    wide: bool,
    process: &Process,
    first: &Statement,
    found: EdgeIf,
    statements: &[Statement],
) -> Result<Option<Reason>, AllocError>
    ensures { IfOk result (λ reason. reason
        ≡ spec.first_in (spec.second_if wide process.now first.now found) statements.now) }
{
    for statement in statements {
        let reason = second_if(alloc, wide, process, first, found, statement)?;
        if reason.is_some() {
            return Ok(reason);
        }
    }
    Ok(None)
}

/// How many conditions stand before the first with an edge and more.
fn first_gated(branches: &[Branch]) -> Option<usize>
    ensures { result ≡ spec.first_gated 0 (spec.tests_of branches.now) }
{
    for before in 0..branches.len() {
        if is_gated(&branches[before].test) {
            return Some(before);
        }
    }
    None
}

/// Whether an elsif or an else stands behind an edge.
pub(crate) fn stands_behind(
    before: usize,
    branches: &[Branch],
    otherwise: &Option<Vec<Statement>>,
) -> bool
    ensures { result ≡ (nat_lt 1 (length (drop before (spec.tests_of branches.now))) || is_some otherwise.now) }
{
    branches.len().saturating_sub(before) > 1 || otherwise.is_some()
}

/// What is told of an edge with more in its condition: behind which something stands, where the
/// netlist is wide.
fn gated_kind(wide: bool, behind: bool) -> ReasonKind
    ensures { result ≡ spec.gated_kind wide behind }
{
    if wide && behind {
        ReasonKind::BehindEdge
    } else {
        ReasonKind::GatedEdge
    }
}

/// What is told of an if with such a condition.
pub(crate) fn gated_if(wide: bool, statement: &Statement) -> Option<Reason>
    ensures { result ≡ spec.gated_edge wide statement.now }
{
    match statement {
        Statement::If {
            at,
            branches,
            otherwise,
        } => {
            let before = first_gated(branches)?;
            let behind = stands_behind(before, branches, otherwise);
            Some(Reason::plain(gated_kind(wide, behind), *at))
        }
        _ => None,
    }
}
