//! An edge among the conditions that `and` joins.

ghost use Rattle.std.specs.Prelude.{◌≡◌, option_map};
ghost use Rattle.vhdl_names_registers.specs.Looking as spec;
ghost use Rattle.vhdl_names_rules.specs.Edges as edges;
ghost use Rattle.vhdl_names_rules.specs.Registers as rules;
ghost use Rattle.vhdl_names_trees.specs.views.Tests.{test_view};

use crate::same::{same_kind, same_place};
use crate::seen::{Many, NamedEdge, Seen, Start, seen_in};
use vhdl_names_trees::Test;

/// An edge that no other condition stands in the way of, and whether it is all of them.
#[derive(Clone, Copy)]
pub(crate) struct Gate<'t> {
    pub(crate) edge: NamedEdge<'t>,
    pub(crate) is_alone: bool,
}

/// Whether there is one.
fn is_one(many: Many) -> bool
    ensures { result ≡ spec.is_one many }
{
    match many {
        Many::One => true,
        _ => false,
    }
}

/// Whether there are two.
fn is_two(many: Many) -> bool
    ensures { result ≡ spec.is_two many }
{
    match many {
        Many::Two => true,
        _ => false,
    }
}

/// The edge that begins so among these conditions of a test.
fn begun<'t>(test: &'t Test, all: Seen<'t>, start: Start<'t>) -> Option<Gate<'t>>
    ensures { option_map spec.gate_view result
        ≡ spec.begun (test_view test.now) (spec.seen_view all.entry) (spec.start_view start.entry) }
{
    match start {
        Start::Call(edge) => Some(Gate {
            edge,
            is_alone: is_one(all.conditions),
        }),
        Start::Event(place) => {
            let kind = seen_in(test, Some(place)).level?;
            Some(Gate {
                edge: NamedEdge { kind, place },
                is_alone: is_two(all.conditions),
            })
        }
    }
}

/// The edge among the conditions of a test, where no other looks for an event.
pub(crate) fn gate_of(test: &Test) -> Option<Gate<'_>>
    ensures { option_map spec.gate_view result
        ≡ option_map spec.gate_among (edges.gated (edges.conditions (test_view test.now))) }
{
    let all = seen_in(test, None);
    let start = all.start?;
    if is_one(all.events) {
        return begun(test, all, start);
    }
    None
}

/// The edge that is all of a condition.
pub(crate) fn edge_of(test: &Test) -> Option<NamedEdge<'_>>
    ensures { option_map spec.edge_named result ≡ edges.edge_alone (test_view test.now) }
{
    let gate = gate_of(test)?;
    if gate.is_alone {
        return Some(gate.edge);
    }
    None
}

/// Whether an edge stands among the conditions of a test, and others beside it.
pub(crate) fn is_gated(test: &Test) -> bool
    ensures { result ≡ spec.is_gated (test_view test.now) }
{
    match gate_of(test) {
        Some(gate) => !gate.is_alone,
        None => false,
    }
}

/// Whether each is this edge and nothing else.
pub(crate) fn are_one_edge(first: &Test, second: &Test) -> bool
    ensures { result ≡ rules.are_one_edge (test_view first.now) (test_view second.now) }
{
    match (edge_of(first), edge_of(second)) {
        (Some(edge), Some(other)) => same_edge(edge, other),
        _ => false,
    }
}

/// Whether two edges are one.
fn same_edge(edge: NamedEdge<'_>, other: NamedEdge<'_>) -> bool
    ensures { result ≡ edges.same_edge (spec.edge_named edge.entry) (spec.edge_named other.entry) }
{
    same_kind(edge.kind, other.kind) && same_place(edge.place, other.place)
}
