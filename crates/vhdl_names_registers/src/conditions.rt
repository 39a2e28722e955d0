//! A condition, taken apart into those that `and` joins.

ghost use Rattle.std.specs.Prelude.{◌≡◌, IfOk, IsTrue, Some, option_map};
ghost use Rattle.vhdl_names_registers.specs.Taking as spec;
ghost use Rattle.vhdl_names_registers.specs.Looking.{is_gated, signal_in};
ghost use Rattle.vhdl_names_registers.specs.Views.{edge_view, tests_view, gated_view};
ghost use Rattle.vhdl_names_rules.specs.Edges as edges;
ghost use Rattle.vhdl_names_trees.specs.views.Tests.{test_view};
ghost use Rattle.vhdl_names_trees.specs.views.Vectors.{place_view, value_view};

use crate::gates::edge_of;
use crate::seen::{character_in, edge_to, level_of};
use std::alloc::{AllocError, Global};
use vhdl_names_parts::is_static_part;
use vhdl_names_trees::{SignalPart, Test, Value};
use vhdl_values::Logic;

/// An edge of a signal.
#[derive(Drop)]
pub struct Edge {
    pub kind: vhdl_values::Edge,
    pub place: SignalPart,
}

/// An edge, and the conditions beside it as one.
#[derive(Drop)]
pub(crate) struct Gated {
    pub(crate) edge: Edge,
    pub(crate) gate: Test,
}

/// The conditions that `and` joins, in order of the text.
fn conditions(alloc: Global, test: Test) -> Result<Vec<Test>, AllocError>
    ensures { IfOk result (λ v. tests_view v ≡ edges.conditions (test_view test)) }
{
    let mut all = Vec::new(alloc);
    let mut left = Vec::new(alloc);
    left.push(test)?;
    while let Some(next) = left.pop() {
        match next.parted() {
            Ok((first, second)) => {
                left.push(first)?;
                left.push(second)?;
            }
            Err(condition) => all.push(condition)?,
        }
    }
    all.reverse();
    Ok(all)
}

/// Whether an edge begins with this condition.
fn is_start(test: &Test) -> bool
    ensures { result ≡ spec.is_start (test_view test.now) }
{
    match test {
        Test::Edge(..) | Test::Event(_) => true,
        _ => false,
    }
}

/// Takes the first condition with which an edge begins.
fn take_start(all: &mut Vec<Test>) -> Option<Test>
    ensures { option_map (λ t. (test_view t, tests_view all.new)) result ≡
        edges.taken edges.start_of (tests_view all.old) }
{
    for index in 0..all.len() {
        if is_start(&all[index]) {
            return Some(all.remove(index));
        }
    }
    None
}

/// Takes the first level of this signal, with the edge that it makes beside an event of it.
fn take_level(all: &mut Vec<Test>, place: &SignalPart) -> Option<vhdl_values::Edge>
    ensures { option_map (λ kind. (edges.edge kind (place_view place.now), tests_view all.new)) result ≡
        edges.taken (edges.level_of (place_view place.now)) (tests_view all.old) }
{
    for index in 0..all.len() {
        if let Some(kind) = level_of(&all[index], Some(place)) {
            all.remove(index);
            return Some(kind);
        }
    }
    None
}

/// Takes the first edge among conditions.
fn take_edge(all: &mut Vec<Test>) -> Option<Edge>
    ensures { option_map (λ e. (edge_view e, tests_view all.new)) result ≡ spec.edge_taken (tests_view all.old) }
{
    match take_start(all)?.into_edge() {
        Ok((kind, place)) => Some(Edge { kind, place }),
        Err(test) => {
            let place = test.into_event()?;
            let kind = take_level(all, &place)?;
            Some(Edge { kind, place })
        }
    }
}

/// Conditions, joined by `and`.
fn joined(alloc: Global, all: Vec<Test>) -> Result<Option<Test>, AllocError>
    ensures { IfOk result (λ found. option_map test_view found ≡ spec.all_joined (tests_view all)) }
{
    let mut rest = all.into_iter();
    let Some(mut whole) = rest.next() else {
        return Ok(None);
    };
    for test in rest {
        whole = whole.both(alloc, Logic::And, test)?;
    }
    Ok(Some(whole))
}

/// The edge that stands beside others among the conditions of a test, and those.
pub(crate) fn edge_and_gate(alloc: Global, test: Test) -> Result<Gated, AllocError>
    requires { IsTrue (is_gated (test_view test)) }
    ensures { IfOk result (λ found. Some (gated_view found) ≡ spec.gated_taken (edges.conditions (test_view test))) }
{
    let mut all = conditions(alloc, test)?;
    let edge = take_edge(&mut all).unwrap();
    let gate = joined(alloc, all)?.unwrap();
    Ok(Gated { edge, gate })
}

/// The signal that a value is, if it is one.
fn into_signal(value: Value) -> Option<SignalPart>
    ensures { option_map place_view result ≡ signal_in (value_view value) }
{
    match value {
        Value::Elements(vector) => vector.into_signal().ok(),
        _ => None,
    }
}

/// The edge to a level for which a process waits.
fn waited_level(condition: Test) -> Option<Edge>
    ensures { option_map edge_view result ≡ edges.waited_level (test_view condition) }
{
    let (left, right) = condition.into_alike()?;
    let kind = edge_to(character_in(&right)?)?;
    let place = into_signal(left)?;
    if is_static_part(&place.part) {
        return Some(Edge { kind, place });
    }
    None
}

/// The edge that is all of the condition of a wait. It takes memory for the conditions that `and`
/// joins.
pub fn waited_edge(alloc: Global, condition: Test) -> Result<Option<Edge>, AllocError>
    ensures { IfOk result (λ found. option_map edge_view found ≡ edges.waited_edge (test_view condition)) }
{
    if edge_of(&condition).is_none() {
        return Ok(waited_level(condition));
    }
    let mut all = conditions(alloc, condition)?;
    Ok(take_edge(&mut all))
}
