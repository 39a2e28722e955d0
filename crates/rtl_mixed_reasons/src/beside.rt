//! Statements beside an if with an edge.

ghost use Rattle.std.specs.Prelude.{◌≡◌, ◌<◌, ◌++◌, length, IfOk};
ghost use Rattle.std.specs.List.Sorted.{IsStrictlyIncreasing};
ghost use Rattle.rtl_body_facts.specs.Reading.{is_in};
ghost use Rattle.rtl_mixed_reasons.specs.Reasons as spec;

use crate::ifs::EdgeIf;
use crate::nets::{first_net, nets_in};
use crate::reason::{Reason, ReasonKind};
use crate::resets::may_reset;
use rtl_body_facts::contains_rising;
use rtl_net::{Process, Statement};
use std::alloc::{AllocError, Global};

/// The byte at which an if or a case starts; of another statement the one that is given.
pub(crate) fn at_or(given: u32, statement: &Statement) -> u32
    ensures { result ≡ spec.at_or given statement.now }
{
    match statement {
        Statement::If { at, .. } => *at,
        Statement::Case { at, .. } => *at,
        _ => given,
    }
}

/// What is told of a statement, if it assigns a net; the if with the edge starts at this byte and
/// assigns these nets, which rise.
fn assigns_beside(
    alloc: Global,
    process: &Process,
    edge: &[usize],
    at: u32,
    statement: &Statement,
) -> Result<Option<Reason>, AllocError>
    requires { IsStrictlyIncreasing edge.now }
    ensures { IfOk result (λ reason. reason
        ≡ spec.assigns_beside process.now (λ n. is_in n edge.now) at statement.now) }
{
    let nets = nets_in(alloc, process, statement)?;
    let Some(net) = first_net(process, &nets) else {
        return Ok(None);
    };
    let at = at_or(at, statement);
    if contains_rising(edge, net) {
        return Ok(Some(Reason::naming(ReasonKind::BesideToo, at, net)));
    }
    Ok(Some(Reason::naming(ReasonKind::Beside, at, net)))
}

/// What is told of the first such statement.
fn first_assigning(
    alloc: Global,
    process: &Process,
    edge: &[usize],
    at: u32,
    statements: &[Statement],
) -> Result<Option<Reason>, AllocError>
    requires { IsStrictlyIncreasing edge.now }
    ensures { IfOk result (λ reason. reason
        ≡ spec.first_in (spec.assigns_beside process.now (λ n. is_in n edge.now) at) statements.now) }
{
    for statement in statements {
        let reason = assigns_beside(alloc, process, edge, at, statement)?;
        if reason.is_some() {
            return Ok(reason);
        }
    }
    Ok(None)
}

/// What is told of the first statement, if none of them assigns a net.
fn first_standing(at: u32, statements: &[Statement]) -> Option<Reason>
    ensures { result ≡ spec.first_in (spec.stands_beside at) statements.now }
{
    match statements {
        [first, ..] => Some(Reason::plain(ReasonKind::StandsBeside, at_or(at, first))),
        [] => None,
    }
}

/// Of these statements those before the first that may reset, and those behind it: all, where there
/// is none.
fn but_reset(statements: &[Statement]) -> (&[Statement], &[Statement])
    ensures { result.0.now ++ result.1.now ≡ spec.but_reset statements.now }
{
    for number in 0..statements.len() {
        if may_reset(&statements[number]) {
            return (&statements[..number], &statements[number + 1..]);
        }
    }
    (statements, &[])
}

/// Of the statements behind an edge, before which so many conditions stand, all but its reset, in
/// two parts.
fn others(wide: bool, before: usize, behind: &[Statement]) -> (&[Statement], &[Statement])
    ensures { result.0.now ++ result.1.now ≡ spec.others wide before behind.now }
{
    if wide && before == 0 {
        but_reset(behind)
    } else {
        (behind, &[])
    }
}

/// What is told of the statements beside the if with the edge, which is this one.
pub(crate) fn beside_edge(
    alloc: Global,
    wide: bool,
    process: &Process,
    found: EdgeIf,
    statement: &Statement,
) -> Result<Option<Reason>, AllocError>
    requires { found.number < length process.now.body.items }
    ensures { IfOk result (λ reason. reason ≡ spec.first_that_fits
        (spec.beside_reasons wide process.now found (spec.assigns_in process.now statement.now))) }
{
    let edge = nets_in(alloc, process, statement)?;
    let at = found.at;
    let before = &process.body[..found.number];
    let (between, behind) = others(wide, found.before, &process.body[found.number + 1..]);
    let reason = first_assigning(alloc, process, &edge, at, before)?;
    if reason.is_some() {
        return Ok(reason);
    }
    let reason = first_assigning(alloc, process, &edge, at, between)?;
    if reason.is_some() {
        return Ok(reason);
    }
    let reason = first_assigning(alloc, process, &edge, at, behind)?;
    if reason.is_some() {
        return Ok(reason);
    }
    let standing = first_standing(at, between).or(first_standing(at, behind));
    Ok(first_standing(at, before).or(standing))
}
