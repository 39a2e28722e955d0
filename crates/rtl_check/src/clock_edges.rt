//! The pairs of net and edge that clocked processes test.

ghost use Rattle.std.specs.Prelude.{◌≡◌, ◌||◌, ◌++◌, ℕ, IfOk, OnOk};
ghost use Rattle.std.specs.List.Sorted.{IsStrictlyIncreasing};
ghost use Rattle.rtl_model.specs.simulation.Report as m;
ghost use Rattle.rtl_body_facts.specs.Reading.{is_in};
ghost use Rattle.rtl_net.specs.Core.{core};
ghost use Rattle.rtl_check.specs.Views.{AreClockNets};
ghost use Rattle.rtl_process_kinds.specs.KindViews.{AreKinds};
ghost use Rattle.rtl_check.specs.ClockEdges.{tests, pair_if, edges_at, nets_by, AreEdgeNets, AreAllEdgeNets};

use rtl_body_facts::{ProcessKind, contains_rising, sort_once};
use rtl_net::{Net, NoMemory};
use std::alloc::Global;
use vhdl_values::Edge;

/// The nets by each edge of which processes are clocked, rising.
#[derive(Drop)]
pub struct EdgeNets {
    pub rising: Vec<usize>,
    pub falling: Vec<usize>,
    pub to_one: Vec<usize>,
    pub to_zero: Vec<usize>,
}

/// The place of an edge in the order of edges.
pub fn edge_number(edge: Edge) -> u8
    ensures { result ≡ m.edge_number edge }
{
    match edge {
        Edge::Rising => 0,
        Edge::Falling => 1,
        Edge::To1 => 2,
        Edge::To0 => 3,
    }
}

/// Appends the clock of a process of this kind, if it is clocked by this edge.
fn push_tested(edge: Edge, kind: ProcessKind, nets: &mut Vec<usize>) -> Result<(), NoMemory>
    ensures { OnOk result ((n : ℕ) → is_in n nets.new.items ≡ (is_in n nets.old.items || tests edge n kind)) }
{
    match kind {
        ProcessKind::Clocked(clocking) => {
            if edge_number(clocking.edge) == edge_number(edge) {
                nets.push(clocking.clock)?;
            }
            Ok(())
        }
        _ => Ok(()),
    }
}

/// The nets by this edge of which processes are clocked, rising.
fn nets_of_edge(
    alloc: Global,
    net: &Net,
    kinds: &[ProcessKind],
    edge: Edge,
) -> Result<Vec<usize>, NoMemory>
    requires { AreKinds (core net.now) kinds.now }
    ensures { IfOk result (λ v. AreEdgeNets (core net.now) edge v.items) }
{
    let mut nets = Vec::new(alloc);
    for kind in kinds {
        push_tested(edge, *kind, &mut nets)?;
    }
    sort_once(&mut nets);
    Ok(nets)
}

/// The same of each edge.
fn edge_nets(alloc: Global, net: &Net, kinds: &[ProcessKind]) -> Result<EdgeNets, NoMemory>
    requires { AreKinds (core net.now) kinds.now }
    ensures { IfOk result (AreAllEdgeNets (core net.now)) }
{
    Ok(EdgeNets {
        rising: nets_of_edge(alloc, net, kinds, Edge::Rising)?,
        falling: nets_of_edge(alloc, net, kinds, Edge::Falling)?,
        to_one: nets_of_edge(alloc, net, kinds, Edge::To1)?,
        to_zero: nets_of_edge(alloc, net, kinds, Edge::To0)?,
    })
}

/// Appends a net and an edge, if the net is one of these.
fn push_pair(
    nets: &[usize],
    net: usize,
    edge: Edge,
    pairs: &mut Vec<(usize, Edge)>,
) -> Result<(), NoMemory>
    requires { IsStrictlyIncreasing nets.now }
    ensures { OnOk result (pairs.new.items ≡ pairs.old.items ++ pair_if (is_in net nets.now) net edge) }
{
    if contains_rising(nets, net) {
        pairs.push((net, edge))?;
    }
    Ok(())
}

/// Appends a net with each of its edges, in order.
fn push_edges(nets: &EdgeNets, net: usize, pairs: &mut Vec<(usize, Edge)>) -> Result<(), NoMemory>
    requires rising { IsStrictlyIncreasing nets.now.rising.items }
    requires falling { IsStrictlyIncreasing nets.now.falling.items }
    requires to_one { IsStrictlyIncreasing nets.now.to_one.items }
    requires to_zero { IsStrictlyIncreasing nets.now.to_zero.items }
    ensures { OnOk result (pairs.new.items ≡ pairs.old.items ++ edges_at (nets_by nets.now) net) }
{
    push_pair(&nets.rising, net, Edge::Rising, pairs)?;
    push_pair(&nets.falling, net, Edge::Falling, pairs)?;
    push_pair(&nets.to_one, net, Edge::To1, pairs)?;
    push_pair(&nets.to_zero, net, Edge::To0, pairs)
}

/// The pairs of net and edge that clocked processes test, each once: by net, then in the order of
/// edges.
pub fn clock_edges(
    alloc: Global,
    net: &Net,
    kinds: &[ProcessKind],
    clocks: &[usize],
) -> Result<Vec<(usize, Edge)>, NoMemory>
    requires kinds { AreKinds (core net.now) kinds.now }
    requires clocks { AreClockNets (core net.now) clocks.now }
    ensures { IfOk result (λ v. m.AreClocks (core net.now) v.items) }
{
    let nets = edge_nets(alloc, net, kinds)?;
    let mut pairs = Vec::new(alloc);
    for clock in clocks {
        push_edges(&nets, *clock, &mut pairs)?;
    }
    Ok(pairs)
}
